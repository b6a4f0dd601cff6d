//! Conditions, and what the helm has learnt.
//!
//! The layer above relies on this: a `Cond` is the condition that the grammar of specs/ gives of the bytes that it was read
//! from, an `Info` knows the latest value of each variable that it has learnt, and `holds` says whether a condition holds
//! of what is known and of the mode, as the definition of that name does.
//!
//! Read `comparison` and `operator`, `info`, and `cond`. `token`, `reading` and `cursor` serve its reader: the tokens of a
//! text, the symbols that they make, and where each may be. `level` and `levels` serve `holds`: what was read of each
//! level of parentheses; `compare` and `mode` say whether one comparison holds. `law` says that what is read is what the
//! grammar spells, as a grammar is written (`Phrases`). Of specs/ read `Phrases`, `Conditions`, `Grammar`, `Learnt` and
//! `Infos`; the others serve the files of their names.
#![tactic(auto)]

mod compare;
mod comparison;
mod cond;
mod cursor;
mod fault;
mod info;
mod law;
mod level;
mod levels;
mod mode;
mod operator;
mod reading;
mod symbol;
mod token;

pub use comparison::Comparison;
pub use cond::Cond;
pub use fault::CondFault;
pub use info::Info;
pub use law::grammar_law;
pub use operator::Operator;
pub use symbol::Symbol;
