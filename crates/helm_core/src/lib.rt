//! One iteration of the helm: what it learns of its mail, whether it is parked, its mode, what its behaviours do, what they
//! decide together, and what it posts.
//!
//! The layer above relies on this: a `Helm` stands for the list of mails that it has heard, each with the stamp of its
//! iteration, and `tick` gives the iteration that `iteration_at` of specs/ says of that list with one mail more. After want
//! of memory it stands for the same list as before.
//!
//! Read `iteration`, `allstop`, `helm_view` for what is kept of the mails, `doer` for a behaviour by its type, `behavior` for what is kept of a behaviour, `judging`,
//! `stepping` and `begun` for its turn, `named`, `making` and `spawning` for letters to templates, `turned` and `behavior_list` for the turns of
//! all, `showing` and `telling` for what is said of them, `decided` and `decision` for what they decide, `own_names` and `posts` for what is posted,
//! `wanted` for the variables that are registered for, and `helm` last; `law` says that no iteration depends on a later mail, which
//! behaviours the list has and that no two have one name, that what is said is well formed, and that what is decided is the first point of greatest worth to all
//! behaviours. Of specs/ read `Plans`, `Ticks`, `Behaviors`, `Templates`, `Lists`, `Names`, `PastIterations`, `Decisions`, `Posts`, `Iterations`,
//! `WellFormed`, `Worths`, `FirstSteps`, `Doers`, `Standings` and `Helms`; `Kept` serves the files of the crate.
#![tactic(auto)]

mod allstop;
mod begun;
mod behavior;
mod behavior_list;
mod decided;
mod decision;
mod doer;
mod helm;
mod helm_view;
mod iteration;
mod judging;
mod law;
mod making;
mod named;
mod own_names;
mod posts;
mod showing;
mod spawning;
mod stepping;
mod telling;
mod turned;
mod wanted;

pub use helm::Helm;
pub use iteration::{BhvError, BhvNow, Faults, How, Iteration, States, Update, Updates};
pub use law::{first_step_law, iterations_law, list_law, names_law, plan_law, worth_law};
