//! The core of a search by several workers, without threads: what they share and hold, each step that one of them makes, and
//! the law of every interleaving of these steps.
//!
//! The contract for the layer above: from the start, whatever steps are made in whatever order, no node is lost or is in
//! two places, and when no node is left, the greatest of the keys that the workers found is that of the best point.
//!
//! Reading order: `law`.
#![tactic(auto)]

mod law;

pub use law::core_law;
