// A registration.
use crate::NoMemory;
use crate::copied::Copied;
use crate::pattern::Pattern;
use std::alloc::Global;

/// What a client asks for: the posts whose variable and whose source's name match these patterns, each variable at most
/// once in an interval, in milliseconds.
#[derive(Debug, Drop)]
pub struct Reg {
    pub var: Pattern,
    pub source: Pattern,
    pub interval: u64,
}

impl Copied for Reg {
    fn copy(&self, alloc: Global) -> Result<Reg, NoMemory> {
        let var = self.var.copy(alloc)?;
        let source = self.source.copy(alloc)?;
        Ok(Reg {
            var,
            source,
            interval: self.interval,
        })
    }
}
