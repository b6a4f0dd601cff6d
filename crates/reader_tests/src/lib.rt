//! What tests alone show of the readers and of what lies outside the program: that their calls succeed with ample memory, and
//! give what was worked by hand.
//!
//! The tests of these crates are here, since a crate with tests of its own is proved once more with them. One module for
//! each subject: `outside`, `texts` and `pairs`, `scripts`, `bridges`, `missions`, `behavior_files`, `vehicles`, `contact_files`
//! with node reports, the `limits` of all of these, and `files`, which has what the kinds of files share.
#![tactic(auto)]

#[cfg(test)]
mod behavior_files;
#[cfg(test)]
mod bridges;
#[cfg(test)]
mod contact_files;
#[cfg(test)]
mod files;
#[cfg(test)]
mod limits;
#[cfg(test)]
mod missions;
#[cfg(test)]
mod outside;
#[cfg(test)]
mod pairs;
#[cfg(test)]
mod scripts;
#[cfg(test)]
mod texts;
#[cfg(test)]
mod vehicles;
