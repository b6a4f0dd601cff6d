//! Plane geometry in whole numbers: spots, distances, directions in whole degrees and convex polygons. No call takes
//! memory.
//!
//! The layer above relies on this: each call gives what its definition in specs/ says, for all spots whose coordinates
//! are within 10^12 thousandths.
//!
//! Reading order: `spot`, `plane`, `polygon`, `angle`.
#![tactic(auto)]

mod angle;
mod plane;
mod polygon;
mod spot;

pub use angle::{bearing, cos4, sin4};
pub use plane::{distance_squared, east_of, is_left_of, isqrt, north_of, within};
pub use polygon::{convex, inside};
pub use spot::Spot;
