//! The table under a lock: what a pass's seat does on its words and its slot.
ghost use Rattle.std.specs.List.{list_any};
ghost use Rattle.std.specs.Prelude.{◌≡◌, ℕ, ◌<◌, ◌%◌, ◌^◌, ◌==◌, true, [], ◌∷◌, Some, None, List, length, MatchBool};
ghost use Rattle.turn_lock.specs.declared.view.Turn.TheVariants.{Idle, Waits};
ghost use Rattle.turn_lock.specs.declared.view.Known.{Known};
ghost use Rattle.turn_lock.specs.Passes.{Begins, has_number, longer, own};
ghost use Rattle.turn_lock.specs.Rule.{known_in};
ghost use Rattle.turn_lock.specs.Steps.{advanced, closed, split_off, IsLent, took_in, new_of, part_of, parted, Returns, Takes};

use crate::bells::Bells;
use crate::journal::Journaled;
use crate::rule::{
    Advance, Draw, Leave, Meet, PartOff, Picked, Poll, Ruling, SeeAll, Settle, SplitOff,
};
use crate::view::Known;
use atomic_table::{Seat, Shared, Table};
use std::alloc::Global;
use std::marker::Brand;
use std::snapshot::Snapshot;
use std::sync::Wait;

/// The shared part of a lock's table.
pub(crate) type SharedTable<S> = Shared<
    Option<S>,
    Known<<S as Journaled>::Event, <S as Journaled>::Base>,
    (Snapshot<S>, u32),
    Ruling,
>;

/// A lock's table.
pub(crate) type LockTable<S> = Table<
    Option<S>,
    Known<<S as Journaled>::Event, <S as Journaled>::Base>,
    (Snapshot<S>, u32),
    Ruling,
    Global,
>;

/// A pass's seat at the table.
pub(crate) type TableSeat<S> = Seat<
    Option<S>,
    Known<<S as Journaled>::Event, <S as Journaled>::Base>,
>;

/// The word whose value is the next ticket.
const TICKET: usize = 0;

/// The word whose value is the ticket whose turn it is.
const TURN: usize = 1;

/// The slot of the value.
const VALUE: usize = 0;

/// Whether no ticket was out at the second look. The turn is looked at first: it is never above the next ticket, so if both
/// looks give one number, that is the turn at the second look too.
fn is_free<S: Journaled>(table: &SharedTable<S>) -> bool
    requires { table.now.table_id.words ≡ 2 }
{
    table.peek(TURN) == table.peek(TICKET)
}

/// Waits until no ticket is out. Another pass may then draw before this one does. Who has slept has asked for the common
/// bell once more before the look with which it goes on, and so rings it for the next sleeper when its turn ends.
pub(crate) fn stand_by<S: Journaled, R: Wait>(rt: &R, table: &SharedTable<S>, bells: &Bells)
    requires { table.now.table_id.words ≡ 2 }
{
    if is_free(table) {
        return;
    }
    for _ in rt.forever() {
        let heard = bells.ask();
        if is_free(table) {
            return;
        }
        bells.sleep_without(rt, heard);
    }
}

/// Draws the next ticket.
pub(crate) fn draw<S: Journaled>(table: &SharedTable<S>, seat: &mut TableSeat<S>) -> u64
    requires table { (seat.old.table_id ≡ table.now.table_id) × (table.now.table_id.words ≡ 2) × (table.now.table_id.slots ≡ 1) }
    requires free { (seat.old.me.0.live ≡ true) × (seat.old.me.0.turn ≡ Idle) × (seat.old.me.1 ≡ []) }
    ensures table { (seat.new.table_id ≡ seat.old.table_id) × (seat.new.id ≡ seat.old.id) }
    ensures waits { (ticket : ℕ) × (result ≡ ticket % 2 ^ 64) × (seat.new.me ≡ (record seat.old.me.0 { turn = Waits ticket }, [])) }
{
    table.fetch_add::<Draw>(seat, TICKET, 1)
}

/// Looks at the turn, and has the value in hand if the turn is the ticket's.
fn poll<S: Journaled>(table: &SharedTable<S>, seat: &mut TableSeat<S>) -> u64
    requires table { (seat.old.table_id ≡ table.now.table_id) × (table.now.table_id.words ≡ 2) × (table.now.table_id.slots ≡ 1) }
    requires waits { (seat.old.me.0.live ≡ true) × ((ticket : ℕ) × (seat.old.me.0.turn ≡ Waits ticket)) }
    ensures table { (seat.new.table_id ≡ seat.old.table_id) × (seat.new.id ≡ seat.old.id) }
    ensures took { (ticket : ℕ) → seat.old.me.0.turn ≡ Waits ticket → MatchBool (result == ticket % 2 ^ 64) (Takes S.base S.history S.number ticket seat.old.me seat.new.me) (seat.new.me ≡ seat.old.me) }
{
    table.load::<Poll>(seat, TURN)
}

/// The value that the look put into the pass's hand.
fn lift<S: Journaled>(table: &SharedTable<S>, seat: &mut TableSeat<S>) -> S
    requires table { seat.old.table_id ≡ table.now.table_id }
    requires hand { (value : S) × (seat.old.me.1 ≡ (0, Some value) ∷ []) }
    ensures table { (seat.new.table_id ≡ seat.old.table_id) × (seat.new.id ≡ seat.old.id) }
    ensures value { seat.old.me.1 ≡ (0, Some result) ∷ [] }
    ensures hand { seat.new.me ≡ (seat.old.me.0, (0, None) ∷ []) }
{
    match table.exchange(seat, VALUE, None) {
        Some(value) => value,
        None => unreachable!(),
    }
}

/// Waits for the turn of the ticket that the pass has drawn, and takes the value. The bell is heard before the turn is
/// looked at: if the turn comes after that look, the bell has rung when the pass is about to sleep, or wakes it.
pub(crate) fn take<S: Journaled, R: Wait>(
    rt: &R,
    table: &SharedTable<S>,
    bells: &Bells,
    seat: &mut TableSeat<S>,
    ticket: u64,
) -> S
    requires table { (seat.old.table_id ≡ table.now.table_id) × (table.now.table_id.words ≡ 2) × (table.now.table_id.slots ≡ 1) }
    requires waits { (seat.old.me.0.live ≡ true) × ((drawn : ℕ) × (ticket ≡ drawn % 2 ^ 64) × (seat.old.me.0.turn ≡ Waits drawn)) × (seat.old.me.1 ≡ []) }
    ensures table { (seat.new.table_id ≡ seat.old.table_id) × (seat.new.id ≡ seat.old.id) }
    ensures lent { (drawn : ℕ) × IsLent S.base S.history S.number drawn seat.old.me.0 result seat.new.me.0 }
    ensures hand { seat.new.me.1 ≡ (0, None) ∷ [] }
{
    for _ in rt.forever() {
        let heard = bells.heard(ticket);
        if poll(table, seat) == ticket {
            return lift(table, seat);
        }
        bells.sleep(rt, ticket, heard);
    }
    unreachable!()
}

/// Puts the value back, and gives the turn to the next ticket. If that one is out its bell rings, and else the common bell if
/// it was asked for. Whoever draws the ticket later finds the turn there.
pub(crate) fn put_back<S: Journaled>(
    table: &SharedTable<S>,
    bells: &Bells,
    seat: &mut TableSeat<S>,
    value: S,
)
    requires table { (seat.old.table_id ≡ table.now.table_id) × (table.now.table_id.words ≡ 2) × (table.now.table_id.slots ≡ 1) }
    requires holds { (seat.old.me.0.live ≡ true) × (seat.old.me.1 ≡ (0, None) ∷ []) }
    requires turn { (ticket : ℕ) × (added : List S.Event) × Returns S.base S.history S.number ticket added seat.old.me.0 value }
    ensures table { (seat.new.table_id ≡ seat.old.table_id) × (seat.new.id ≡ seat.old.id) }
    ensures after { seat.new.me ≡ (advanced seat.old.me.0 (S.history value), []) }
{
    let hand = table.exchange(seat, VALUE, Some(value));
    let None = hand else { unreachable!() };
    let turn = table.fetch_add::<Advance>(seat, TURN, 1);
    let next = turn.wrapping_add(1);
    if table.peek(TICKET) != next {
        bells.ring(next);
    } else {
        bells.ring_common();
    }
}

/// Splits a new pass's seat off that of the first.
pub(crate) fn split<S: Journaled>(table: &SharedTable<S>, seat: &mut TableSeat<S>) -> TableSeat<S>
    requires table { (seat.old.table_id ≡ table.now.table_id) × (table.now.table_id.words ≡ 2) }
    requires free { (seat.old.me.0.live ≡ true) × (seat.old.me.0.turn ≡ Idle) × (seat.old.me.1 ≡ []) }
    requires first { (seat.old.me.0.number ≡ 0) × (0 < seat.old.me.0.left) }
    ensures table { (seat.new.table_id ≡ seat.old.table_id) × (result.table_id ≡ seat.old.table_id) }
    ensures views { (seat.new.me ≡ (split_off seat.old.me.0, [])) × (result.me ≡ (new_of seat.old.me.0, [])) }
{
    table.split_seat::<SplitOff>(seat)
}

/// Parts the seat of a number from that of the first. The number is for the proof alone, which picks it: a seat has none
/// at run time.
fn part_picked<S: Journaled, N: Picked>(
    table: &SharedTable<S>,
    seat: &mut TableSeat<S>,
    _number: u32,
) -> TableSeat<S>
    requires picked { N.picked ≡ _number }
    requires table { (seat.old.table_id ≡ table.now.table_id) × (table.now.table_id.words ≡ 2) }
    requires free { (seat.old.me.0.live ≡ true) × (seat.old.me.0.turn ≡ Idle) × (seat.old.me.1 ≡ []) }
    requires first { (seat.old.me.0.number ≡ 0) × (list_any (has_number N.picked) seat.old.me.0.met ≡ true) }
    ensures table { (seat.new.table_id ≡ seat.old.table_id) × (result.table_id ≡ seat.old.table_id) }
    ensures views { (seat.new.me ≡ (parted N.picked seat.old.me.0, [])) × (result.me ≡ (part_of N.picked seat.old.me.0, [])) }
{
    table.split_seat::<PartOff<N>>(seat)
}

/// Parts the seat of a number from that of the first.
pub(crate) fn part<S: Journaled>(
    table: &SharedTable<S>,
    seat: &mut TableSeat<S>,
    number: u32,
) -> TableSeat<S>
    requires table { (seat.old.table_id ≡ table.now.table_id) × (table.now.table_id.words ≡ 2) }
    requires free { (seat.old.me.0.live ≡ true) × (seat.old.me.0.turn ≡ Idle) × (seat.old.me.1 ≡ []) }
    requires first { (seat.old.me.0.number ≡ 0) × (list_any (has_number number) seat.old.me.0.met ≡ true) }
    ensures table { (seat.new.table_id ≡ seat.old.table_id) × (result.table_id ≡ seat.old.table_id) }
    ensures views { (seat.new.me ≡ (parted number seat.old.me.0, [])) × (result.me ≡ (part_of number seat.old.me.0, [])) }
{
    part_picked::<S, Brand>(table, seat, number)
}

/// Takes in the seat of another pass, and sees what that one has seen.
pub(crate) fn meet<S: Journaled>(
    table: &SharedTable<S>,
    seat: &mut TableSeat<S>,
    other: TableSeat<S>,
)
    requires table { (seat.old.table_id ≡ table.now.table_id) × (other.table_id ≡ table.now.table_id) × (table.now.table_id.words ≡ 2) }
    requires free { (seat.old.me.0.live ≡ true) × (seat.old.me.0.turn ≡ Idle) × (seat.old.me.1 ≡ []) }
    requires other { (other.me.0.live ≡ true) × (other.me.0.turn ≡ Idle) × (other.me.1 ≡ []) }
    ensures table { seat.new.table_id ≡ seat.old.table_id }
    ensures view { let met : Known S.Event S.Base = took_in seat.old.me.0 other.me.0 in seat.new.me ≡ (record met { seen = longer seat.old.me.0.seen other.me.0.seen }, []) }
    ensures begins { Begins (longer seat.old.me.0.seen other.me.0.seen) seat.old.me.0.seen × Begins (longer seat.old.me.0.seen other.me.0.seen) other.me.0.seen }
{
    table.join_seat::<Meet>(seat, other);
    table.load::<Settle>(seat, TURN);
}

/// Has the seat of the first pass, which has taken in all others, see the whole history. It is one look at the turn.
pub(crate) fn see_all<S: Journaled>(table: &SharedTable<S>, seat: &mut TableSeat<S>)
    requires table { (seat.old.table_id ≡ table.now.table_id) × (table.now.table_id.words ≡ 2) }
    requires free { (seat.old.me.0.live ≡ true) × (seat.old.me.0.turn ≡ Idle) × (seat.old.me.1 ≡ []) }
    requires all { (seat.old.me.0.number ≡ 0) × (length seat.old.me.0.met ≡ seat.old.me.0.made) }
    ensures table { (seat.new.table_id ≡ seat.old.table_id) × (seat.new.id ≡ seat.old.id) }
    ensures sees { (log : List S.Event) × (seat.new.me ≡ (record seat.old.me.0 { seen = log }, [])) × Begins log seat.old.me.0.seen × ((n : ℕ) → own S.number n log ≡ known_in seat.old.me.0 n) }
{
    table.load::<SeeAll>(seat, TURN);
}

/// The seat that stays when a lock is closed.
pub(crate) fn leave<S: Journaled>(table: &SharedTable<S>, seat: &mut TableSeat<S>) -> TableSeat<S>
    requires table { (seat.old.table_id ≡ table.now.table_id) × (table.now.table_id.words ≡ 2) }
    requires free { (seat.old.me.0.turn ≡ Idle) × (seat.old.me.1 ≡ []) }
    ensures table { (seat.new.table_id ≡ seat.old.table_id) × (seat.new.id ≡ seat.old.id) × (result.table_id ≡ seat.old.table_id) }
    ensures views { (seat.new.me ≡ seat.old.me) × (result.me ≡ (closed seat.old.me.0, [])) }
{
    table.split_seat::<Leave>(seat)
}

/// The value of a table that is closed with the seat of the first pass, which has taken in all others.
pub(crate) fn close<S: Journaled>(table: LockTable<S>, seat: TableSeat<S>) -> S
    requires table { (seat.table_id ≡ table.shared.table_id) × (table.shared.table_id.words ≡ 2) × (table.shared.table_id.slots ≡ 1) }
    requires free { (seat.me.0.live ≡ true) × (seat.me.0.turn ≡ Idle) }
    requires all { (seat.me.0.number ≡ 0) × (length seat.me.0.met ≡ seat.me.0.made) }
    ensures base { S.base result ≡ S.base table.shared.key.0.value }
    ensures seen { Begins (S.history result) seat.me.0.seen }
    ensures whole { (n : ℕ) → own S.number n (S.history result) ≡ known_in seat.me.0 n }
{
    let mut closed = table.close_with(seat);
    let slot = closed.take(VALUE);
    closed.free();
    let Some(value) = slot else { unreachable!() };
    value
}
