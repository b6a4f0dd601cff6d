// A lock that is taken in turns, each with a number.
ghost use Rattle.std.specs.Prelude.{◌≡◌, ◌+◌, ◌-◌, ◌<◌, ◌≤◌, ◌++◌, ◌∷◌, [], true, false, Some, None, IfOk, IfErr};
ghost use Rattle.std.specs.List.{list_any};
ghost use Rattle.turn_lock.specs.Passes.{Begins, beside, WasLent, events_in, first_pass, has_number, HasAll, IsFree, IsOf, KnowsAll, met_with, own, without_number};

use crate::bells::Bells;
use crate::held::Held;
use crate::journal::Journaled;
use crate::lock_table::{self, LockTable};
use crate::pass::Pass;
use atomic_table::Table;
use std::alloc::Global;
use std::marker::Model;
use std::snapshot::Snapshot;
use std::sync::Wait;

/// A lock over a value. Who has a pass takes the value in turn. Contracts see which lock it is, and the base of its value.
#[derive(Drop)]
pub struct TurnLock<S: Journaled> {
    pub(crate) table: LockTable<S>,
    pub(crate) bells: Bells,
}

impl<S: Journaled> Model for TurnLock<S> {
    ghost use Rattle.std.specs.Prelude.{◌≡◌};
    ghost use Rattle.turn_lock.specs.Passes.{LockState};

    ghost Value = { LockState S.Base };

    ghost view = { λ l. record { lock = l.table.shared.table_id; base = S.base l.table.shared.key.0.value } };

    ghost invariant = { λ l. (l.table.shared.table_id.words ≡ 2) × (l.table.shared.table_id.slots ≡ 1) };
}

impl<S: Journaled> TurnLock<S> {
    /// A lock over this value, which has no events yet, with its first pass. There may be `passes` of them. If no memory
    /// is left the value comes back.
    pub fn make(alloc: Global, value: S, passes: u32) -> Result<(TurnLock<S>, Pass<S>), S>
        requires some { 1 ≤ passes }
        requires empty { S.history value ≡ [] }
        ensures made { IfOk result (λ lock. (lock.0.base ≡ S.base value) × (lock.1 ≡ first_pass lock.0 passes)) }
        ensures back { IfErr result (λ back. back ≡ value) }
    {
        let about = (Snapshot::of(&value), passes);
        let slots = match only_slot(alloc, value) {
            Ok(slots) => slots,
            Err(value) => return Err(value),
        };
        match Table::new(alloc, &[0, 0], slots, &about) {
            Ok((table, seat)) => Ok((
                TurnLock {
                    table,
                    bells: Bells::new(),
                },
                Pass {
                    number: 0,
                    made: 0,
                    seat,
                },
            )),
            Err(refused) => Err(taken_out(refused.slots)),
        }
    }

    /// Splits a new pass off the first one. It has the next number, has seen as much, and has no events yet.
    pub fn split(&self, pass: &mut Pass<S>) -> Pass<S>
        requires lock { IsOf self.now pass.old }
        requires free { IsFree pass.old }
        requires some { 0 < pass.old.left }
        ensures pass { pass.new ≡ record pass.old { left = pass.old.left - 1; made = pass.old.made + 1 } }
        ensures new { result ≡ beside pass.old (pass.old.made + 1) [] }
    {
        let seat = lock_table::split(&self.table.shared, &mut pass.seat);
        pass.made += 1;
        Pass {
            number: pass.made,
            made: 0,
            seat,
        }
    }

    /// Takes another pass in. The pass then has seen what both have, and has the other's number and events among those
    /// that it has met.
    pub fn meet(&self, pass: &mut Pass<S>, other: Pass<S>)
        requires lock { IsOf self.now pass.old × IsOf self.now other }
        requires free { IsFree pass.old × IsFree other }
        ensures pass { pass.new ≡ met_with pass.old other }
        ensures seen { Begins pass.new.seen pass.old.seen × Begins pass.new.seen other.seen }
    {
        let Pass {
            number: _,
            made: _,
            seat,
        } = other;
        lock_table::meet(&self.table.shared, &mut pass.seat, seat);
    }

    /// Has the first pass, which has taken in all others, see the whole history, which is just what the passes have added. It
    /// needs no turn, since nobody else can have one.
    pub fn see_all(&self, pass: &mut Pass<S>)
        requires lock { IsOf self.now pass.old }
        requires free { IsFree pass.old }
        requires all { HasAll pass.old }
        ensures seen { Begins pass.new.seen pass.old.seen }
        ensures whole { KnowsAll S.number pass.old pass.new.seen }
        ensures pass { pass.new ≡ record pass.old { seen = pass.new.seen } }
    {
        lock_table::see_all(&self.table.shared, &mut pass.seat);
    }

    /// Parts the pass of a number again from the first pass, which has taken it in. It has seen as much as the first.
    pub fn part(&self, pass: &mut Pass<S>, number: u32) -> Pass<S>
        requires lock { IsOf self.now pass.old }
        requires free { IsFree pass.old }
        requires first { (pass.old.number ≡ 0) × (list_any (has_number number) pass.old.met ≡ true) }
        ensures pass { pass.new ≡ record pass.old { met = without_number number pass.old.met } }
        ensures part { result ≡ beside pass.old number (events_in pass.old.met number) }
    {
        let seat = lock_table::part(&self.table.shared, &mut pass.seat, number);
        Pass {
            number,
            made: 0,
            seat,
        }
    }

    /// Ends the lock, once the first pass has taken in all others: the value, whose history is just what the passes have
    /// added, and the pass, which is no pass of the lock any more.
    pub fn close(self, pass: Pass<S>) -> (S, Pass<S>)
        requires lock { IsOf self pass }
        requires free { IsFree pass }
        requires all { HasAll pass }
        ensures base { S.base result.0 ≡ self.base }
        ensures seen { Begins (S.history result.0) pass.seen }
        ensures whole { KnowsAll S.number pass (S.history result.0) }
        ensures pass { result.1 ≡ record pass { live = false } }
    {
        let TurnLock { table, bells: _ } = self;
        let Pass {
            number,
            made,
            mut seat,
        } = pass;
        let left = lock_table::leave(&table.shared, &mut seat);
        let value = lock_table::close(table, seat);
        (
            value,
            Pass {
                number,
                made,
                seat: left,
            },
        )
    }

    /// Lends the value to the pass, in its turn: it waits until all who drew a ticket before have given the value back. The
    /// history then begins with all that the pass has seen, and has of its number just the pass's own events; and if
    /// the first pass has taken in all others, it is just what the passes have added.
    pub fn take<R: Wait>(&self, rt: &R, pass: &mut Pass<S>) -> Held<S>
        requires lock { IsOf self.now pass.old }
        requires free { IsFree pass.old }
        ensures held { (result.number ≡ pass.old.number) × (result.start.value ≡ result.value) }
        ensures base { S.base result.value ≡ self.now.base }
        ensures seen { Begins (S.history result.value) pass.old.seen }
        ensures mine { own S.number pass.old.number (S.history result.value) ≡ pass.old.mine }
        ensures whole { HasAll pass.old → KnowsAll S.number pass.old (S.history result.value) }
        ensures pass { pass.new ≡ record pass.old { turn = Some (S.history result.value) } }
    {
        let table = &self.table.shared;
        lock_table::stand_by(rt, table, &self.bells);
        let ticket = lock_table::draw(table, &mut pass.seat);
        let value = lock_table::take(rt, table, &self.bells, &mut pass.seat, ticket);
        let start = Snapshot::of(&value);
        Held {
            value,
            number: pass.number,
            start,
        }
    }

    /// Gives the value back with one event more, which names the number of the pass.
    pub fn give(&self, pass: &mut Pass<S>, held: Held<S>)
        requires lock { IsOf self.now pass.old }
        requires held { WasLent pass.old held.number (S.history held.start.value) }
        requires base { S.base held.value ≡ self.now.base }
        requires event { (event : S.Event) × (S.number event ≡ pass.old.number) × (S.history held.value ≡ S.history held.start.value ++ event ∷ []) }
        ensures { (event : S.Event) → S.history held.value ≡ S.history held.start.value ++ event ∷ [] → pass.new ≡ record pass.old { seen = S.history held.value; mine = pass.old.mine ++ event ∷ []; turn = None } }
    {
        let Held {
            value,
            number: _,
            start: _,
        } = held;
        lock_table::put_back(&self.table.shared, &self.bells, &mut pass.seat, value);
    }

    /// Gives the value back with the history that it had when it was taken.
    pub fn give_back(&self, pass: &mut Pass<S>, held: Held<S>)
        requires lock { IsOf self.now pass.old }
        requires held { WasLent pass.old held.number (S.history held.start.value) }
        requires base { S.base held.value ≡ self.now.base }
        requires same { S.history held.value ≡ S.history held.start.value }
        ensures { pass.new ≡ record pass.old { seen = S.history held.value; turn = None } }
    {
        let Held {
            value,
            number: _,
            start: _,
        } = held;
        lock_table::put_back(&self.table.shared, &self.bells, &mut pass.seat, value);
    }
}

// The slots of a table whose only slot holds the value. If no memory is left the value comes back.
fn only_slot<S>(alloc: Global, value: S) -> Result<Vec<Option<S>>, S>
    ensures slots { IfOk result (λ slots. slots.items ≡ Some value ∷ []) }
    ensures back { IfErr result (λ back. back ≡ value) }
{
    let mut slots = Vec::new(alloc);
    match slots.push(Some(value)) {
        Ok(()) => Ok(slots),
        Err(refused) => {
            slots.destroy_empty();
            let Some(value) = refused.value else {
                unreachable!()
            };
            Err(value)
        }
    }
}

// The value of the only slot.
fn taken_out<S>(mut slots: Vec<Option<S>>) -> S
    requires { (value : S) × (slots.items ≡ Some value ∷ []) }
    ensures { slots.items ≡ Some result ∷ [] }
{
    let Some(Some(value)) = slots.pop() else {
        unreachable!()
    };
    slots.destroy_empty();
    value
}
