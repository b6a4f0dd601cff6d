// A behaviour file: its declarations, its blocks, and what is said of modes and variables that nothing uses.
use crate::common::Common;
use crate::decl::Decls;
use crate::spec::Spec;
use moos_post::{Batch, List, Txt};

/// A behaviour.
#[derive(Drop)]
pub struct Block {
    pub common: Common,
    pub spec: Spec,
}

/// Behaviours, in order.
pub type Blocks = List<Block>;

/// A parameter that the type of its behaviour doesn't have.
#[derive(Drop)]
pub struct Unused {
    /// The number of its line, counted from 1.
    pub line: u32,
    /// Its name as it is written.
    pub name: Txt,
}

/// Unused parameters, in order.
pub type UnusedList = List<Unused>;

/// What a behaviour file says.
#[derive(Drop)]
pub struct BhvFile {
    /// The pairs of its `initialize` lines.
    pub opening: Batch,
    /// Its mode declarations.
    pub decls: Decls,
    /// Its behaviours.
    pub blocks: Blocks,
    pub unused: UnusedList,
}
