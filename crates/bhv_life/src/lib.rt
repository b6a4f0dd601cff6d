//! The life of a behaviour: whether it runs, is idle or completed in each iteration, how long it has lasted, and which of
//! its flags are raised.
//!
//! The layer above relies on this: `start` says what a behaviour does in an iteration and `finish` what it then is, by the
//! definitions of specs/ over the list of all its turns, one turn an iteration. A `Life` stands for such a list.
//!
//! Reading order: `outcome`, `life`, `started`, `law`.
#![tactic(auto)]

mod law;
mod life;
mod outcome;
mod started;

pub use law::first_run_law;
pub use life::Life;
pub use outcome::{BhvState, Outcome, Phase};
pub use started::Started;
