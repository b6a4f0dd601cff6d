//! What a community is made of: numbers, names, texts, patterns, values, posts, registrations and the entries of the
//! database's history, each seen by contracts as its bytes or its number, and each list as a list. The delivery rule
//! itself is in specs/: which posts are mailed to which client under any history.
//!
//! Read `copied` and `list` first, one list for all, then `milli`, `name`, `txt` and `pattern`, then `value`, `batch` and
//! `registration`, and `entry` last. Of specs/ read `Words`, `Patterns`, `History`, `Delivery`.
#![tactic(auto)]

mod batch;
mod copied;
mod entry;
mod list;
mod milli;
mod name;
mod pattern;
mod registration;
mod txt;
mod value;

pub use batch::Batch;
pub use copied::Copied;
pub use entry::{Call, Entry};
pub use list::List;
pub use milli::Milli;
pub use name::{Name, NameFault, is_name};
pub use pattern::{Pattern, PatternFault};
pub use registration::Reg;
use std::alloc::AllocError;
pub use txt::{Txt, TxtFault, control_place};
pub use value::{Pair, Post, Value};

/// The answer of a call that found no memory. It says nothing else of what was asked.
pub type NoMemory = AllocError;

/// Names, in order.
pub type Names = List<Name>;
/// The registrations that one call makes together, in order.
pub type Regs = List<Reg>;
