//! What a crew may rely on of a helm among other clients, as laws of the histories that they may leave: which posts it hears and when,
//! from which iteration on an override holds, that the same input makes the same iterations, and when a simulated vehicle lies still.
//!
//! A law is a function that does nothing; its contract is what it says, over every history that is lawful in an order (`IsLawful` of
//! `moos_play`), or over every vehicle. Beside `helm_laws`, whose laws are of whatever a helm hears, these say what it hears.
//! docs/SAFETY.md has each as a sentence, with its conditions.
//!
//! Of specs/ read `Runs`, `InTime`, `Fetches`, `Hearing`, `Races`, `Overrides`, `Inputs` and `Braking`.
#![tactic(auto)]

mod law;

pub use law::{braking_law, hearing_law, obeying_law, repeating_law};
