//! The clients of a simulated vehicle: pMarinePID, which makes a rudder and a thrust of what the helm wants; uSimMarine, which moves the
//! vehicle by them; and pBasicContactMgr, which tells of contacts that come near. Each has a turn for each mail that it fetches, and
//! posts once at each.
//!
//! The contract for the layer above: what a client posts at a turn is what its definition in `specs/Clients` says of all its mails
//! so far; rudder, thrust, place, heading, speed and depth are in their ranges in every post; and what is posted of contacts is at most
//! 64 pairs, each as its type lets it be.
//!
//! Reading order: `numbers`, `batches`, `marine_pid`, `sim_marine`, `basic_contact_mgr`, `law`.
#![tactic(auto)]

mod basic_contact_mgr;
mod batches;
mod law;
mod marine_pid;
mod numbers;
mod sim_marine;

pub use basic_contact_mgr::BasicContactMgr;
pub use law::{contacts_law, posts_law};
pub use marine_pid::MarinePid;
pub use sim_marine::SimMarine;
