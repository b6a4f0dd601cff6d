//! Behaviour files as bytes: the pairs that the helm posts at first, its modes and its behaviours.
//!
//! The layer above relies on this: `read_behaviors` gives the file that `behaviors_of` of specs/ says of the same bytes, or
//! its first refusal with its line and cause, and every file that it gives is valid. What a file says is `bhv_file`, whose
//! types are given on from here.
//!
//! Read `types`, then `behavior` with `element` and `judging`, and `parent` and `mode`; `reading`, and `read` last. Of
//! specs/ read `Blocks` and `Behaviors`; `Places` serves the reader alone.
#![tactic(auto)]

mod behavior;
mod element;
mod judging;
mod mode;
mod parent;
mod read;
mod reading;
mod types;

pub use bhv_file::{
    BhvFile, Block, Blocks, Common, Conds, Decl, Decls, Shape, Spec, Spots, Unused, UnusedList,
    set_param,
};
pub use read::read_behaviors;
