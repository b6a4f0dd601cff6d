//! What a crew asks of a helm, as laws of its iterations, whatever it hears: when the vehicle stops, what is desired, who has a say,
//! what a fault does, which bounds are kept, and from when an override holds.
//!
//! A law is a function that does nothing; its contract is what it says, over every plan and every list of ticks. Nothing is said here
//! that isn't a consequence of what an iteration is (`iteration_at` of `helm_core`), in words that know no rule of it. docs/SAFETY.md
//! has each as a sentence, with what isn't promised.
//!
//! Of specs/ read `Files`, `Said`, `Stops`, `Desires`, `Influences`, `States`, `Regions`, `Bounds`, `Bargains`, `Approaches`, `Overrides`
//! and `Inputs`; `Reliance` has what they say of a plan, all together.
#![tactic(auto)]

mod law;

pub use law::{
    approach_law, bargain_law, bound_law, domain_law, influence_law, input_law, override_law,
    region_law, reliable_law, state_law, stop_law,
};
