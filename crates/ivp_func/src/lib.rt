//! Objective functions: piecewise linear functions over a domain, as lists of pieces on boxes.
//!
//! The contract for the layer above: a `Func` is a domain and a list of pieces whose boxes
//! partition the domain, with every value within 0 to 100,000; `value_at` is the value at a point
//! and `top` the greatest one; `next_meet` finds the pieces that share a point with an area, one after the other; `Func::make` refuses every other list, with the point that shows why,
//! and `Func::of_pieces` is for those who know that their pieces are a function.
//!
//! Reading order: `piece`, `fit`, `cuts`, `kept`, `grid`, `partition`, `values`, `func`, `law`.
#![tactic(auto)]

mod cuts;
mod fit;
mod func;
mod grid;
mod kept;
mod law;
mod partition;
mod piece;
mod values;

pub use fit::{MOST_BASE, MOST_SLOPE, are_pieces_of, is_box_of, is_piece_of};
pub use func::{Func, FuncFault, MOST_PIECES, func_law};
pub use law::tests_law;
pub use piece::Piece;
