// A script: its lines and its clients.
use moos_post::{Entry, List, Names};

/// The lines of a script, in order, each the entry that it asks for.
pub type Lines = List<Entry>;

/// A script: the clients' names in the order in which they are first seen, the lines that make a call, and the stamp of
/// the last line in milliseconds, `until` lines included, which is 0 without lines.
#[derive(Drop)]
pub struct Script {
    pub names: Names,
    pub lines: Lines,
    pub stop: u64,
}

/// In which order the lines of a script take effect.
#[derive(Clone, Copy, Debug, PartialEq, Eq)]
pub enum Order {
    /// By their stamps: the lines of an earlier stamp before those of a later one.
    Stamp,
    /// Each client plays its own lines in their order, beside the others.
    Race,
}
