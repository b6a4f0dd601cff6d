// Values, pairs and posts.
use crate::NoMemory;
use crate::copied::Copied;
use crate::milli::Milli;
use crate::name::Name;
use crate::txt::Txt;
use std::alloc::Global;

/// What a post says: a number or a text.
#[derive(Debug, Drop)]
pub enum Value {
    /// A number in thousandths.
    Num(Milli),
    /// A text.
    Text(Txt),
}

/// A variable and what is said of it: one part of a post.
#[derive(Debug, Drop)]
pub struct Pair {
    pub var: Name,
    pub value: Value,
}

/// One post as it is in the database: when it was made, in milliseconds, the number of the client that made it,
/// its variable and its value.
#[derive(Debug, Drop)]
pub struct Post {
    pub stamp: u64,
    pub source: u32,
    pub var: Name,
    pub value: Value,
}

impl Copied for Value {
    fn copy(&self, alloc: Global) -> Result<Value, NoMemory> {
        match self {
            Value::Num(number) => Ok(Value::Num(*number)),
            Value::Text(text) => Ok(Value::Text(text.copy(alloc)?)),
        }
    }
}

impl Copied for Pair {
    fn copy(&self, alloc: Global) -> Result<Pair, NoMemory> {
        let var = self.var.copy(alloc)?;
        let value = self.value.copy(alloc)?;
        Ok(Pair { var, value })
    }
}
