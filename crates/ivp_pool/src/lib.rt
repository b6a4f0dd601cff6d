//! Search by several workers, who take nodes from each other's deques: one node of the tree is closed at a time, and its
//! children go to the worker's deque or are closed at once.
//!
//! The contract for the layer above: `solve` finds the best point of a problem by 1 to 16 workers, whatever their number.
//! What `close_one` makes of a node is a part of its tree: each node without children there was handed to the tray, or its
//! bound's sum is below what the scout knows, or the own key reaches its bound. So no point of the node is lost.
//!
//! Reading order: `tray`, `close`, `at_once`, `law`, `work`, `rule`, `deque`, `team`, `root`, `alone`, `setup`, `search`, `solved`.
#![tactic(auto)]

mod alone;
mod at_once;
mod close;
mod deque;
mod law;
mod root;
mod rule;
mod search;
mod setup;
mod solved;
mod team;
mod tray;
mod work;

pub use at_once::close_whole;
pub use close::{Own, close_one};
pub use law::{parts_law, tally_law};
pub use solved::{Solved, solve};
pub use tray::Tray;
pub use work::{Work, Works};
