//! What tests alone show of the jobs: that whole runs over folders and sinks in memory succeed with ample memory, and write
//! what was worked by hand; how every other run ends; and that clients and workers of a run act beside each other.
//!
//! The tests of `moos_jobs` are here, since a crate with tests of its own is proved once more with them. One module for each
//! subject: `words`, `scripts`, clients `beside` each other, `missions`, `behaviors`, `problems`, `shares` of two scripts with a
//! bridge, simulated `vehicles`, `refusals` of what isn't good, and `devices` that fail. What they share is in `files` and `runs`.
#![tactic(auto)]

#[cfg(test)]
mod behaviors;
#[cfg(test)]
mod beside;
#[cfg(test)]
mod devices;
#[cfg(test)]
mod files;
#[cfg(test)]
mod missions;
#[cfg(test)]
mod problems;
#[cfg(test)]
mod refusals;
#[cfg(test)]
mod runs;
#[cfg(test)]
mod scripts;
#[cfg(test)]
mod shares;
#[cfg(test)]
mod vehicles;
#[cfg(test)]
mod words;
