//! A simulated vehicle in fixed point: what a vehicle file sets, the controller that steers by what the helm wants, and how
//! the vehicle moves from one time step to the next. No call takes memory.
//!
//! The layer above relies on this: each call gives what its definition in specs/ says, and rudder, thrust, place, heading,
//! speed and depth stay in their ranges.
//!
//! Reading order: `setting`, `settings`, `craft`, `read`; then `arithmetic`, `rig`, `hull` and `law`.
#![tactic(auto)]

mod arithmetic;
mod craft;
mod hull;
mod law;
mod read;
mod rig;
mod setting;
mod settings;

pub use craft::Craft;
pub use hull::{Hull, advance};
pub use law::ranges_law;
pub use rig::{Drive, Rig};
pub use settings::CraftSettings;
