// A comparison of a variable with a literal.
use crate::operator::Operator;
use moos_post::{Copied, Name, NoMemory, Value};
use std::alloc::Global;

/// A variable, how it is compared, and with what.
#[derive(Debug, Drop)]
pub struct Comparison {
    pub var: Name,
    pub operator: Operator,
    pub literal: Value,
}

impl Copied for Comparison {
    fn copy(&self, alloc: Global) -> Result<Comparison, NoMemory> {
        let var = self.var.copy(alloc)?;
        let literal = self.literal.copy(alloc)?;
        Ok(Comparison {
            var,
            operator: self.operator,
            literal,
        })
    }
}
