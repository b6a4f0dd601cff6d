//! Hierarchical modes: which of the declared modes the helm is in.
//!
//! The layer above relies on this: `mode` gives the path that `mode_of` of specs/ says of what is known, by recursion over
//! the declarations as a tree, and `text` what that path prints as.
//!
//! Read `path`, `tree`, and `walk`, the one pass over the declarations that finds the mode. Of specs/ read `Modes` and
//! `Paths`; `Trees` and `Scans` serve the files of the crate.
#![tactic(auto)]

mod path;
mod text;
mod tree;
mod walk;

pub use path::Path;
pub use tree::ModeTree;
