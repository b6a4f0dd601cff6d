// The value while a turn lasts.
ghost use Rattle.std.specs.Prelude.{◌≡◌};
ghost use Rattle.std.specs.Borrow.{sem};

use crate::journal::Journaled;
use std::snapshot::Snapshot;

/// The value of a lock, lent to a pass for a turn. It has to be given back: it can't be dropped.
pub struct Held<S: Journaled> {
    /// The value.
    pub value: S,
    /// The number of the pass that it is lent to.
    pub number: u32,
    /// The value as it was when the turn began, for contracts alone.
    pub start: Snapshot<S>,
}

impl<S: Journaled> Held<S> {
    ghost use Rattle.turn_lock.specs.Lending.{LendsValue};

    /// The value.
    pub fn value(&self) -> &S
        ensures { result.now ≡ self.now.value }
    {
        &self.value
    }

    /// The value, to be changed in place. The number and the start stay.
    pub fn value_mut(&mut self) -> &mut S
        ensures* lends { sem 𝓛 (LendsValue S.row S.Event.row S.Base.row self.entry result) }
        ensures value { result.now ≡ self.old.value }
    {
        &mut self.value
    }
}
