//! Missions: the lines of a `.moos` file that the helm heeds.
//!
//! The layer above relies on this: `read_mission` gives the mission that `mission_of` of specs/ says of the same bytes, or
//! its first refusal with its line and cause, and every mission that it gives is valid.
//!
//! Read `mission`, `settings`, `reading`, and `read` last.
#![tactic(auto)]

mod mission;
mod read;
mod reading;
mod settings;

pub use mission::Mission;
pub use read::read_mission;
