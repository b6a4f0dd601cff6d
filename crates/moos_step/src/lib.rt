//! The clients of a community at play, one step at a time: they make their calls among some lines in the order of the lines, but for those
//! with many, each of which has a thread of its own. Between two steps the seat of the first has taken in all others.
//!
//! The contract for the layer above: after a step the first seat has all others again and has seen the whole history, which goes on
//! by just the lines of each client, in the client's order, whatever the threads did; if a client found no memory, by a front of
//! them. A call that one client makes while no other makes one adds just its entry.
//!
//! Reading order: `player`, one client's calls; `step`, one step, and clients beside each other; `in_turn`, one line after another;
//! `apart`, some clients with threads and others in turn; `alone`, one call; `seats`, how a community begins.
#![tactic(auto)]

mod alone;
mod apart;
mod in_turn;
mod player;
mod seats;
mod step;

pub use alone::call_alone;
pub use player::{Player, play_part};
pub use seats::seat_all;
pub use step::{HEAVY, both, has_heavy, part_busy, play_beside, play_step, see_all, take_in};
