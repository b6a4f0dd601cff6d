//! What only clauses read. It takes no memory, and its methods do nothing when they run.
ghost use Rattle.std.specs.Prelude.{◌≡◌, ℕ, List, [], ◌∷◌, ◌++◌, None, Some};
ghost use Rattle.std.specs.Borrow.{ftrue};
ghost use Rattle.moos_files.specs.Asked.{Load};

use std::marker::{Model, PhantomData};

/// All bytes that the system said it took, in order.
#[derive(Drop)]
pub(crate) struct TakenBytes {
    marker: PhantomData<u8>,
    pub ghost bytes: { List ℕ },
}

impl Model for TakenBytes {
    ghost also_owns = { λ _. ftrue };
}

impl TakenBytes {
    /// None so far.
    pub(crate) fn new() -> TakenBytes
        ensures { result.bytes ≡ [] }
    {
        TakenBytes {
            marker: PhantomData,
        }
    }

    /// It took these, behind the others.
    pub(crate) fn note(&mut self, _piece: &[u8])
        ensures { self.new.bytes ≡ self.old.bytes ++ _piece.now }
    {}
}

/// All loads so far, in order.
#[derive(Drop)]
pub(crate) struct HeardLoads {
    marker: PhantomData<u8>,
    pub ghost loads: { List Load },
}

impl Model for HeardLoads {
    ghost also_owns = { λ _. ftrue };
}

impl HeardLoads {
    /// None so far.
    pub(crate) fn new() -> HeardLoads
        ensures { result.loads ≡ [] }
    {
        HeardLoads {
            marker: PhantomData,
        }
    }

    /// The load of this name gave these bytes.
    pub(crate) fn note_given(&mut self, _name: &[u8], _bytes: &[u8])
        ensures { self.new.loads ≡ self.old.loads ++ record { name = _name.now; given = Some _bytes.now } ∷ [] }
    {}

    /// The load of this name failed.
    pub(crate) fn note_failed(&mut self, _name: &[u8])
        ensures { self.new.loads ≡ self.old.loads ++ record { name = _name.now; given = None } ∷ [] }
    {}
}
