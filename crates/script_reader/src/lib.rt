//! Scripts: what the clients of a community do, one call a line, and when.
//!
//! The layer above relies on this: `read_script` gives the script that `script_of` of specs/ says of the same bytes, or
//! its first refusal with its line and cause, and every script that it gives is valid.
//!
//! `line_of_client` tells the first line of given clients, for jobs that have clients of their own.
//!
//! Read `script`, `word`, `call`, `batch`, `reading`, and `read` last; `variables` serves the limit on them, and `numbered`
//! their look-up and that of the clients.
#![tactic(auto)]

mod batch;
mod call;
mod client_line;
mod law;
mod numbered;
mod read;
mod reading;
mod script;
mod variables;
mod word;

pub use client_line::line_of_client;
pub use law::client_law;
pub use read::read_script;
pub use script::{Lines, Order, Script};
pub use word::time_of;
