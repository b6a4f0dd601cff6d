//! A client's calls of the database, each in the client's turn at the lock.
//!
//! The contract for the layer above: a call that answers Ok is the next of the client's own entries and the last that
//! the client has seen of the one history, and a fetch gives just the mail there. A call that finds no memory gives the
//! turn back without an entry.
//!
//! Reading order: `calls`.
#![tactic(auto)]

mod calls;

pub use calls::{Lock, Seat, fetch, fetch_unread, post, register, unregister};
