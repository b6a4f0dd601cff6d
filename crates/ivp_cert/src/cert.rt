// A line of a certificate.
use crate::path::Path;
use moos_post::{Copied, List, NoMemory};
use std::alloc::Global;

/// A line of a certificate: the path of a node, and the sum, in thousandths, and the index of the node's bound.
#[derive(Debug, Drop)]
pub struct Line {
    pub path: Path,
    pub sum: u64,
    pub index: u32,
}

impl Copied for Line {
    fn copy(&self, alloc: Global) -> Result<Line, NoMemory> {
        let path = self.path.copy(alloc)?;
        Ok(Line {
            path,
            sum: self.sum,
            index: self.index,
        })
    }
}

/// The lines of a certificate, in order.
pub type Cert = List<Line>;
