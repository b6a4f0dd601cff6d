// A condition as it is kept: its symbols, in order.
use crate::comparison::Comparison;
use moos_post::{Copied, NoMemory};
use std::alloc::Global;

/// One of the signs that a condition is made of, in reading order.
#[derive(Debug, Drop)]
pub enum Symbol {
    /// `(`.
    Open,
    /// `)`.
    Close,
    /// `not`.
    Not,
    /// `and`.
    And,
    /// `or`.
    Or,
    /// A variable, an operator and a literal.
    Test(Comparison),
}

impl Copied for Symbol {
    fn copy(&self, alloc: Global) -> Result<Symbol, NoMemory> {
        match self {
            Symbol::Open => Ok(Symbol::Open),
            Symbol::Close => Ok(Symbol::Close),
            Symbol::Not => Ok(Symbol::Not),
            Symbol::And => Ok(Symbol::And),
            Symbol::Or => Ok(Symbol::Or),
            Symbol::Test(comparison) => {
                let copied = comparison.copy(alloc)?;
                Ok(Symbol::Test(copied))
            }
        }
    }
}
