//! What tests alone show of the helm at work: that behaviours, iterations, runs and reports succeed with ample memory, and give
//! what was worked by hand; and that the clients of a run act beside each other.
//!
//! The tests of these crates are here, since a crate with tests of its own is proved once more with them. One module for each
//! subject: `kinds` of behaviours and their `travels`, whose `steps` are told by rows, the `helm` and what is `shown` of it, `plays`,
//! those with `few` calls at a stamp, `reports`, and a simulated vehicle, `vehicles`. What they make of words and files is `made` in one place.
#![tactic(auto)]

#[cfg(test)]
mod few;
#[cfg(test)]
mod helm;
#[cfg(test)]
mod kinds;
#[cfg(test)]
mod made;
#[cfg(test)]
mod plays;
#[cfg(test)]
mod reports;
#[cfg(test)]
mod shown;
#[cfg(test)]
mod steps;
#[cfg(test)]
mod travels;
#[cfg(test)]
mod vehicles;
