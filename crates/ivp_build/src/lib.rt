//! Objective functions from shapes: one value, a peak about a number of an axis, limits, sums of two functions, and a utility
//! of any form, sampled in boxes.
//!
//! The contract for the layer above: the utility of a shape at a place is arithmetic on the place,
//! and the function that a builder gives has that value at every point. Its pieces are the maximal
//! runs of consecutive places of one side and zone, each over the whole of the other axes. The pieces of a sum are the meets
//! of those of both functions, and a sampled utility has one on each box. `worth_law` says of all shapes and sums, without a
//! call, that their pieces are worth what they say.
//!
//! Reading order: `shape`, `slopes`, `crest`, `profile`, `ends`, `along`, `level`, `places`, `limits`, `near`,
//! `peaks`, `sums`, `boxes`, `sampled`, `law`.
#![tactic(auto)]

mod along;
mod boxes;
mod crest;
mod ends;
mod fault;
mod law;
mod level;
mod limits;
mod near;
mod peaks;
mod places;
mod profile;
mod sampled;
mod shape;
mod slopes;
mod sums;

pub use fault::BuildFault;
pub use law::{near_law, room_law, worth_law};
pub use level::flat;
pub use limits::{at_least, at_most};
pub use peaks::peak;
pub use sampled::{box_count, uniform};
pub use shape::Peak;
pub use sums::couple;
