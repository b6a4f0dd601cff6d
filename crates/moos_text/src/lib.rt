//! Text: the lines of a file and what of each counts, its words, numbers in thousandths as they are read and printed,
//! pairs of a variable and its value, and the causes for which a reader of a file refuses it.
//!
//! The layer above relies on this: each call gives what the definition of specs/ says of the same bytes, and a number
//! that was printed is read back as it was.
//!
//! Read `line`, `word`, `number`, `milli_text`, `pair` and `part`; `end` and `trim` serve them, and `cause` names the
//! refusals. Of specs/ read `Lines`, `Numbers`, `Pairs` and `Refusals`; `Reading` serves `number` alone.
#![tactic(auto)]

mod cause;
mod end;
mod line;
mod milli_text;
mod number;
mod pair;
mod part;
mod trim;
mod word;

pub use cause::{Cause, Limit, LineFault, ReadFault};
pub use end::{ends_with, without_last};
pub use line::{Line, Said, next_line, next_said, next_whole_line};
pub use milli_text::{MilliText, print_decimals, print_milli, print_unsigned};
pub use number::{read_milli, read_unsigned, read_whole};
pub use pair::{
    PairFault, PairSides, cut_at_equals, pair_sides, read_pair, read_plain, read_text, read_value,
};
pub use part::{Part, next_part};
pub use trim::{trimmed, without_front_blanks};
pub use word::{is_named, next_word, split_word};
