//! The message database of a community: clients post to it, register for what others post, and fetch their mail.
//!
//! Contracts see a `Db` as its clients' names and its history, the list of the calls that were answered with Ok. Each
//! call adds its entry or finds no memory and changes nothing; what a fetch gives is the delivery rule's mail of the
//! history before it, the rule that is in `moos_post`'s specs/Delivery. Nothing else tells what mail a client gets.
//!
//! Read `table` first, a number for each variable. Then `registration`, what a client registered for, `subscription`, a registration
//! that hears a variable, `client`, what is kept of one client, `recipients`, to whom the latest post of a variable was mailed, and
//! `variables`, who hears each variable; `log`, what is kept of the history; `posting`, `registering` and `calls`, what each call does,
//! `mail`, what a fetch gives, `db`, `journal`, how a lock sees a `Db`, and last `run`, which makes a list of calls.
#![tactic(auto)]

mod calls;
mod client;
mod db;
mod journal;
mod log;
mod mail;
mod posting;
mod recipients;
mod registering;
mod registration;
mod run;
mod subscription;
mod subscriptions;
mod table;
mod variables;

pub use db::Db;
pub use mail::{Letter, Mail, Origin};
pub use run::mails_of;
