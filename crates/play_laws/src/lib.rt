//! What any two plays of one script and one helm have in common, as laws of the histories that they may leave.
//!
//! A law is a function that does nothing; its contract is what it says, over every script, every helm and any two lawful histories
//! (`IsLawful` of `moos_play`). In any order the clients' parts are the same. In order Stamp the mail is the same too where the
//! script is calm, and there is one history in which the lines stand in the order of the file.
//!
//! Of specs/ read `Parts`, `Heard`, `Calm` and `Ordered`.
#![tactic(auto)]

mod law;

pub use law::{calm_law, ordered_law, parts_law};
