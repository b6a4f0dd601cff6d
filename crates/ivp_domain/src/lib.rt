//! Discrete decision spaces: axes, points, boxes of points, and the domain that one to four axes
//! make. No call takes memory, and every type is `Copy` but the step counter.
//!
//! The contract for the layer above: a domain is its list of axes; its points are listed in the
//! order of their index, which is mixed radix with the first axis counting most; `meet` is the
//! common points of two boxes, and `volume` counts the points of one.
//!
//! Reading order: `axis`, `boxes`, `domain`, `steps`.
#![tactic(auto)]

mod axis;
mod boxes;
mod domain;
mod steps;

pub use axis::{Axis, AxisName};
pub use boxes::{BoxN, Point, is_proper, meet, volume};
pub use domain::{Domain, DomainFault, MOST_AXES};
pub use steps::Steps;
