//! A play beside a simulated vehicle: the helm steers, and after each of its ticks pMarinePID, then uSimMarine, and then
//! pBasicContactMgr, if contacts are watched, fetch and post.
//!
//! The contract for the layer above: between two rounds the history is one that a simulated vehicle leaves, as far as it goes; when
//! nothing is left it is such a history whole; and if no memory was left, it may be completed to one. All that a round adds has its stamp.
//!
//! Reading order: `gear` and `names`; `vehicle`, the turns of its clients; `launching`, their openings; `rounds`; `law`.
#![tactic(auto)]

mod gear;
mod launching;
mod law;
mod names;
mod rounds;
mod vehicle;

pub use gear::Gear;
pub use law::sailing_law;
pub use names::vehicle_names;
pub use vehicle::Vehicle;
