//! Contacts: what a node report tells of one, which contacts a manager knows and what it posts when they come near and are
//! clear again, the utility of a speed and a course by the closest approach of one, and the behaviour that keeps clear of it.
//!
//! The layer above relies on this: the ranges that are read are those of the file; what a manager posts at each turn is
//! `batches_of` of all its turns so far; a utility is `approach_utility` of its numbers; what a step of an `Avoid` gives is
//! `avoid_out` of its parameters.
//!
//! Reading order: `range_name` and `ranges`, the contacts file; `report`; then `contact`, `contacts`, `posts`, `known_contacts` and
//! `manager`. The closest approach needs none of these: `vector`, `sizes`, `approach`, `worth` and `motion`; on it rest
//! `clearance` and `avoid`. Of specs/ read `RangeFiles`, `Reports`, `Contacts`, `Standing`, `Approach` and `Avoids`; `Kept` serves what is kept between turns, and `Bounds` says
//! how great numbers are.
#![tactic(auto)]

mod approach;
mod avoid;
mod clearance;
mod contact;
mod contacts;
mod known_contacts;
mod manager;
mod motion;
mod posts;
mod range_name;
mod ranges;
mod report;
mod sizes;
mod vector;
mod worth;

pub use avoid::{Avoid, utility};
pub use manager::Manager;
pub use motion::{Track, approach_utility};
pub use ranges::Ranges;
pub use report::{Report, read_report};
