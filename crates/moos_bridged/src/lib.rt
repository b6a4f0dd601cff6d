//! Plays two scripts at once, each on its own database, with a bridge that carries posts from the first community to the second.
//!
//! The contract for the layer above: with Ok the two histories are bridged, whatever the threads did. All entries
//! but the bridge's are the scripts' lines, each client's in order. At every place of the second history the bridge has posted the
//! renaming of a front of what the first mails to it, which leaves out no letter if no new name is too long (`bridged_law`).
//!
//! Reading order: `community`, one of the two; `crossing`, one carrying while nobody else calls; `by_stamp`, from one stamp to the
//! next; `race`, all lines at once; `second_gate`, what the gate is told; `sharing`, the whole; `law`.
#![tactic(auto)]

mod by_stamp;
mod community;
mod crossing;
mod law;
mod race;
mod seating;
mod second_gate;
mod sharing;

pub use law::{bridged_law, entries_law};
pub use seating::bridge_name;
pub use sharing::{Shared, share};
