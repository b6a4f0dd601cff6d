//! Which histories a schedule allows: a schedule says what each client is due to do, over what it hears, and in which order.
//!
//! The contract for the layer above: a history is lawful so far for a schedule if each client has done the first of what it is due to
//! do, and what is left may still come in its order. It is so at every entry: each next entry keeps it, by `proofs/Going` and
//! `proofs/Parts`; if nothing is left the history is lawful; and each that is lawful so far can be completed. A play that
//! knows the part of some clients alone serves one who knows those of further ones too, by `proofs/Widening`.
//!
//! Reading order: `law`.
#![tactic(auto)]

mod law;

pub use law::{answering_law, completion_law, widening_law};
