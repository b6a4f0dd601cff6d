// A place at a lock, of one number.
ghost use Rattle.std.specs.Prelude.{◌≡◌};

use crate::journal::Journaled;
use crate::view::Known;
use atomic_table::Seat;
use std::marker::Model;

/// A place at a lock, of one number. Contracts see its lock and base, its number, the history that it has seen, its own
/// events, how many passes it may split off and did, those that it has taken in, and whether it holds a turn.
#[derive(Drop)]
pub struct Pass<S: Journaled> {
    pub(crate) number: u32,
    pub(crate) made: u32,
    pub(crate) seat: Seat<Option<S>, Known<S::Event, S::Base>>,
}

impl<S: Journaled> Model for Pass<S> {
    ghost use Rattle.std.specs.Prelude.{◌≡◌, ◌+◌, ◌^◌, ◌<◌};
    ghost use Rattle.turn_lock.specs.Passes.{PassState};
    ghost use Rattle.turn_lock.specs.Rule.{shown};
    ghost use Rattle.turn_lock.specs.Steps.{hand_of, IsAtRest};

    ghost Value = { PassState S.Event S.Base };

    ghost view = { λ p. shown p.seat.table_id p.seat.me.0 };

    ghost invariant = { λ p. (p.number ≡ p.seat.me.0.number) × (p.made ≡ p.seat.me.0.made) × (p.made + p.seat.me.0.left < 2 ^ 32) × (0 < p.seat.me.0.number → p.seat.me.0.left ≡ 0) × (p.seat.me.1 ≡ hand_of p.seat.me.0.turn) × IsAtRest p.seat.me.0.turn };
}

impl<S: Journaled> Pass<S> {
    /// The number of the pass: 0 of the first, and then in the order in which they were split off.
    pub fn number(&self) -> u32
        ensures { result ≡ self.now.number }
    {
        self.number
    }
}
