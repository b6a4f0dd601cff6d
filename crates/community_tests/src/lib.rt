//! What tests alone show of the community and its helm: that their calls succeed with ample memory, and give what was worked
//! by hand.
//!
//! The tests of these crates are here, since a crate with tests of its own is proved once more with them. One module for
//! each subject: `posts`, `registrations`, `mailboxes`, `turns` of the lock, `database` and `database_parts`,
//! `shares` of two scripts with a bridge, of the helm `conditions`, `geometry`, `modes` and `lives`,
//! `contacts` and `avoids` that keep clear of them, and `vehicles`. What they make of words is `made` in one place.
#![tactic(auto)]

#[cfg(test)]
mod avoids;
#[cfg(test)]
mod conditions;
#[cfg(test)]
mod contacts;
#[cfg(test)]
mod database;
#[cfg(test)]
mod database_parts;
#[cfg(test)]
mod geometry;
#[cfg(test)]
mod lives;
#[cfg(test)]
mod made;
#[cfg(test)]
mod mailboxes;
#[cfg(test)]
mod modes;
#[cfg(test)]
mod posts;
#[cfg(test)]
mod registrations;
#[cfg(test)]
mod shares;
#[cfg(test)]
mod turns;
#[cfg(test)]
mod vehicles;
