// A rule of a bridge.
use moos_post::{List, Name, Reg};

/// A line of a bridge file: which posts it selects, and what is before the names of their variables once they are carried.
#[derive(Debug, Drop)]
pub struct Rule {
    /// The patterns that a post's variable and its source must match, and the interval in milliseconds.
    pub reg: Reg,
    /// The prefix, of at most 32 bytes, if the line has one.
    pub prefix: Option<Name>,
    /// The number of the line, counted from 1.
    pub line: u32,
}

/// The rules of a bridge file, in the order of its lines.
pub type Rules = List<Rule>;
