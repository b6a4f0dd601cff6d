//! What may come next in a history that is lawful so far: just that keeps it so, and each lawful history is made of it.
//!
//! The contract for the layer above, which judges histories entry by entry: an entry may come next if it is the first of what is left
//! for its client and nothing that is left is of an earlier moment. What may come next keeps a history lawful so far; and in each
//! lawful history every entry is one that may come next behind those before it.
//!
//! Reading order: `specs/Following`, then `law`.
#![tactic(auto)]

mod law;

pub use law::following_law;
