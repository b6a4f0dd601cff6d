//! A bridge between two communities: the rules of a bridge file, and the client `pShare`, which is in both. It fetches in
//! the first community what its rules select, and posts it in the second under the names that the rules give.
//!
//! The contract for the layer above: `read_bridge` gives the rules that the bytes stand for, or the first refusal with its line
//! and cause. Over any list of calls of `carry`, each with memory or without, what was posted in the second community,
//! followed by the renaming of what was fetched and not posted yet, is the renaming of all that was fetched in the first.
//!
//! Reading order: `rule`, `reading`, `long_names`; `carried_names`, `renaming`, `fetching`, `bridge`; `law`.
#![tactic(auto)]

mod bridge;
mod carried_names;
mod fetching;
mod law;
mod long_names;
mod reading;
mod renaming;
mod rule;

pub use bridge::Bridge;
pub use fetching::Fetched;
pub use law::carry_law;
pub use long_names::too_long;
pub use reading::read_bridge;
pub use rule::{Rule, Rules};
