//! Generated missions: the script that a number stands for, large and always the same, and what its helm is made of.
//!
//! The layer above relies on this: `make_script` gives the script that `generated_script` of specs/ says of the number, it is
//! valid, and no two of its lines have one stamp. `make_mission` and `make_behaviors` give the mission and the behaviours of the
//! alpha survey, which are never refused.
//!
//! Read `draws`, then `lines`, and `script`; `survey` has the survey's two files.
#![tactic(auto)]

mod draws;
mod lines;
mod script;
mod survey;

pub use script::make_script;
pub use survey::{SURVEY_BEHAVIORS, SURVEY_MISSION, make_behaviors, make_mission};
