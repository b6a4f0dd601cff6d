//! Command lines, and what every job of the program is made of: the job that the words name, the loading of a file, and how a
//! run ends.
//!
//! The contract for the layers above: `job_named` gives the job that the words stand for, by what the command-line crate says
//! of simple commands. `load`, `unloaded`, `refused` and `written` are the steps of a job between its files and its status. The
//! definition of how a job ends is over any job: where it is with its files, and which texts it may write, are handed to it
//! (`EndsFrom` in specs/), so that each job can be in a crate of its own.
//!
//! Reading order: `words`, `commands`, `job`; `status` and `steps`.
#![tactic(auto)]

mod commands;
mod job;
mod status;
mod steps;
mod words;

pub use job::{Job, job_named};
pub use status::{FileKind, Refusal, Status, code};
pub use steps::{load, refused, unloaded, written};
pub use words::{Word, Words};
