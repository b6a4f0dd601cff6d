// A mode's declaration.
use helm_cond::Cond;
use moos_post::{List, Name};

/// Conditions of which all are required.
pub type Conds = List<Cond>;

/// The mode declarations of a file, in order.
pub type Decls = List<Decl>;

/// A mode declaration.
#[derive(Drop)]
pub struct Decl {
    pub name: Name,
    /// The number of the declaration under which it is, or None of a root.
    pub parent: Option<u32>,
    /// Its conditions, the line that names its parent too.
    pub conds: Conds,
    /// The last part of a mode if none of its siblings' conditions hold.
    pub other: Option<Name>,
}
