//! Axes as text, and domains of them: what a mission and a problem read in the same way.
//!
//! The layer above relies on this: `four_fields` cuts a text at each `:` and gives its fields if they are four, `axis_of`
//! gives the axis that such fields stand for if all of them are good, and `extended` the domain with one axis more.
#![tactic(auto)]

mod domain;
mod fields;

pub use domain::extended;
pub use fields::{Fields, axis_of, four_fields};
