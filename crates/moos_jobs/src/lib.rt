//! The jobs of the program: a command line's job from its files to what is written, and how it ended.
//!
//! The contract for the layer above is that of `run`: whatever the words, the files and the sink, the status tells what was
//! written. With `Done` that is the report of a lawful history of the script that the words name, or of two that are shared, or of one
//! in which a simulated vehicle answers the helm, or the decision on the problem with its certificate, or that the decision is accepted,
//! or the counts of a generated mission. `run` is `prepare`, which waits for nobody and so always returns, and then `perform`.
//!
//! Reading order, job by job:
//!
//! - `telling`, the parts of a report that is written while its play goes on; `mission` and `helm_files`, what a job reads of a helm;
//!   `play_telling` and `play_job`, the job that plays one script.
//! - `counts`, `summary` and `sole_history`, the seven lines that stand in place of a generated run's report; `generate_job`.
//! - `share_reading`, `share_reporting` and `share_job`, the job of two scripts with a bridge.
//! - `simulate_reading`, `simulate_telling` and `simulate_job`, the job of a script beside a simulated vehicle.
//! - `task`, what is left to do once all files are read; `loading` and `performing`, the two steps of every job, with those of `solve`
//!   and `check`; `running` last.
//!
//! Which job a command line names, and what every job is made of, is said in `command_line` below. The program over it, `moos_top`,
//! hands the real command line, files and standard output to `run`.
#![tactic(auto)]

mod counts;
mod generate_job;
mod helm_files;
mod loading;
mod mission;
mod performing;
mod play_job;
mod play_telling;
mod running;
mod share_job;
mod share_reading;
mod share_reporting;
mod simulate_job;
mod simulate_reading;
mod simulate_telling;
mod sole_history;
mod summary;
mod task;
mod telling;

pub use command_line::{FileKind, Refusal, Status, Word, Words, code};
pub use performing::perform;
pub use running::{prepare, prepare_law, run, run_law};
pub use task::LoadedTask;
