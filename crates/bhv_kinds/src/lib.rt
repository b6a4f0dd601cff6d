//! The behaviours as kinds: a kind is one behaviour, with its parameters and what it keeps from step to step. Here is what updates
//! make of the parameters, and what the steps give.
//!
//! The layer above relies on this: a `Kind` stands for the list of its behaviour's updates and steps by the relation of
//! specs/Standing, `update` takes an update exactly if all its pairs are good and the relations between parameters hold, and
//! `step` gives what specs/Giving says of that list: a function whose value at each point is what its utility says there
//! (specs/Worths).
//!
//! Reading order: `situation` and `want`; `region`, `station`, `waypoint` and `loiter`; `given`, with `ways` on the way; `steady`,
//! `steering` and `making`; `out` and `kind`; `law`.
#![tactic(auto)]

mod given;
mod kind;
mod law;
mod loiter;
mod making;
mod out;
mod region;
mod situation;
mod station;
mod steady;
mod steering;
mod want;
mod waypoint;
mod ways;

pub use bhv_file::{BhvFault, Out};
pub use kind::Kind;
pub use law::worth_law;
