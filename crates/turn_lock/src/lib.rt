//! A lock that is taken in turns, over a value that keeps a history.
//!
//! The contract for the layer above: what a pass is lent is the value whose history begins with all that the pass has
//! seen; giving it back adds one event of the pass's own to the history, or none; and once the first pass has taken in
//! all others, the history is just what the passes have added, each one's events in its order.
//!
//! Reading order: `journal`, `pass`, `held`, `lock`; then `lock_table`, the steps on the words and the slot under it, and
//! `bells`, on which those sleep that wait; then `view` and `rule`, what the proofs keep.
#![tactic(auto)]

mod bells;
mod held;
mod journal;
mod lock;
mod lock_table;
mod pass;
mod rule;
mod view;

pub use held::Held;
pub use journal::Journaled;
pub use lock::TurnLock;
pub use pass::Pass;
