//! Which posts a registration lets through: whether a pattern matches a name, whether a registration selects a variable
//! and a source, and whether its interval has passed since the last post that came through.
//!
//! The contract for the layers above: each answer is that of the delivery rule's definition, for any bytes and any
//! stamps. No call takes memory.
//!
//! Reading order: `matching` compares a pattern with a name, `registration` has the two questions of a registration.
#![tactic(auto)]

mod matching;
mod registration;

pub use matching::matches;
pub use registration::{due, selects};
