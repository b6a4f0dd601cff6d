//! The rule of a lock, and what each step of it tells.
use crate::journal::Journaled;
use crate::view::Known;
use atomic_table::{Join, Play, Split, TableRule};
use std::marker::{Brand, PhantomData};
use std::snapshot::Snapshot;

/// The rule, which reads off the value's snapshot what base it has, and how many passes there may be.
pub(crate) struct Ruling;

impl<S: Journaled> TableRule<Option<S>, Known<S::Event, S::Base>, (Snapshot<S>, u32)> for Ruling {
    ghost use Rattle.turn_lock.specs.Rule.{TurnRule, newcomer};

    ghost holds = { λ key. TurnRule S.base S.history S.number (S.base key.0.value) };

    ghost first = { λ key. newcomer (S.base key.0.value) key.1 };
}

/// A ticket is drawn.
pub(crate) struct Draw;

impl<S: Journaled> Play<Option<S>, Known<S::Event, S::Base>> for Draw {
    ghost use Rattle.turn_lock.specs.Steps.{Draws};

    ghost then = { Draws };
}

/// The turn is looked at, and taken if it is the ticket's.
pub(crate) struct Poll;

impl<S: Journaled> Play<Option<S>, Known<S::Event, S::Base>> for Poll {
    ghost use Rattle.turn_lock.specs.Steps.{Polls};

    ghost then = { Polls S.base S.history S.number };
}

/// The turn goes to the next ticket.
pub(crate) struct Advance;

impl<S: Journaled> Play<Option<S>, Known<S::Event, S::Base>> for Advance {
    ghost use Rattle.turn_lock.specs.Steps.{Advances};

    ghost then = { Advances S.history };
}

/// A pass sees what another one has seen that it took in.
pub(crate) struct Settle;

impl<S: Journaled> Play<Option<S>, Known<S::Event, S::Base>> for Settle {
    ghost use Rattle.turn_lock.specs.Steps.{Settles};

    ghost then = { Settles };
}

/// The first pass, which has taken in all others, sees the whole history.
pub(crate) struct SeeAll;

impl<S: Journaled> Play<Option<S>, Known<S::Event, S::Base>> for SeeAll {
    ghost use Rattle.turn_lock.specs.Steps.{Sees};

    ghost then = { Sees S.number };
}

/// A new pass is split off the first one.
pub(crate) struct SplitOff;

impl<E, B> Split<Known<E, B>> for SplitOff {
    ghost use Rattle.turn_lock.specs.Steps.{split_off, new_of};

    ghost left = { split_off };

    ghost right = { new_of };
}

/// A pass takes another one in.
pub(crate) struct Meet;

impl<E, B> Join<Known<E, B>> for Meet {
    ghost use Rattle.turn_lock.specs.Steps.{took_in, used_up};

    ghost both = { took_in };

    ghost spent = { used_up };
}

/// What stays of the first pass when the lock is closed.
pub(crate) struct Leave;

impl<E, B> Split<Known<E, B>> for Leave {
    ghost use Rattle.turn_lock.specs.Steps.{closed};

    ghost left = { λ v. v };

    ghost right = { closed };
}

/// A number that a pass is parted by.
pub(crate) trait Picked {
    ghost use Rattle.std.specs.Prelude.{ℕ};

    ghost picked: { ℕ };
}

impl Picked for Brand {
    ghost picked = { 0 };
}

/// The pass of the picked number is parted from the first one.
pub(crate) struct PartOff<N> {
    number: PhantomData<N>,
}

impl<E, B, N: Picked> Split<Known<E, B>> for PartOff<N> {
    ghost use Rattle.turn_lock.specs.Steps.{parted, part_of};

    ghost left = { parted N.picked };

    ghost right = { part_of N.picked };
}
