//! Plays a script: its clients make their calls on threads of their own, and its helm ticks, on one database.
//!
//! The contract for the layer above: with Ok the history of the database is one that is lawful for the order, the script
//! and the helm, whatever the threads did. Each client's entries are its lines, the helm's are its opening and its ticks
//! over what it heard in this history, nobody else has one, and in order Stamp no stamp goes back. A run that is played round
//! by round may have further clients, whose entries are where they were entered; without these its history is as lawful.
//! Between two rounds its history is lawful so far, and so it is after a round that found no memory.
//!
//! Reading order: `helm_client`, the helm's calls; `race`, the helm beside the clients; `seats`, how a run begins; `stamps`, what is
//! next; `stage`, from one step to the next; `by_round`, the steps of a round; `round_made`, what a round leaves; `playing`, a run
//! that is played round by round; `entering`, what further clients do between rounds; `run`, the whole.
#![tactic(auto)]

mod by_round;
mod entering;
mod helm_client;
mod playing;
mod race;
mod round_made;
mod run;
mod seats;
mod stage;
mod stamps;

pub use helm_client::Iterations;
pub use playing::Play;
pub use round_made::Round;
pub use run::{HelmRun, Ran, play};
pub use script_reader::Order;
