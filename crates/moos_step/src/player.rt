// One client at play: its seat, and its lines as calls.
ghost use Rattle.std.specs.Prelude.{◌≡◌, ◌∷◌, [], OnOk, OnErr};
ghost use Rattle.moos_client.specs.Calls.{MayCall};
ghost use Rattle.moos_step.specs.Steps.{HasEnded, HasHeard, HasMade, IsPlayed, Makes};

use moos_client::{Lock, Seat, fetch_unread, post, register, unregister};
use moos_io::Gate;
use moos_post::{Call, Copied, Entry, NoMemory};
use std::alloc::Global;
use std::sync::Wait;

/// A client that plays.
#[derive(Drop)]
pub struct Player {
    /// Its seat at the lock.
    pub seat: Seat,
    /// How many calls it has made.
    pub calls: u64,
    /// Whether it found memory for all calls of the last step.
    pub ended: Result<(), NoMemory>,
}

/// The client makes its calls among these lines, in order, until it finds no memory.
pub fn play_part<R: Wait, G: Gate>(
    rt: &R,
    alloc: Global,
    lock: &Lock,
    player: &mut Player,
    lines: &[Entry],
    gate: &G,
)
    requires { MayCall lock.now player.old.seat }
    ensures { HasEnded lines.now player.old player.new }
{
    player.ended = make_calls(
        rt,
        alloc,
        lock,
        &mut player.seat,
        &mut player.calls,
        lines,
        gate,
    );
}

// Makes the seat's calls among these lines, and counts them.
fn make_calls<R: Wait, G: Gate>(
    rt: &R,
    alloc: Global,
    lock: &Lock,
    seat: &mut Seat,
    calls: &mut u64,
    lines: &[Entry],
    gate: &G,
) -> Result<(), NoMemory>
    requires { MayCall lock.now seat.old }
    ensures { Makes (IsPlayed lines.now result) seat.old seat.new }
{
    let client = seat.number();
    for line in lines {
        if line.client == client {
            make_next(rt, alloc, lock, seat, calls, line, gate)?;
        }
    }
    Ok(())
}

/// Tells the gate of the next call of the seat's client, makes it as this line says, and counts it.
pub(crate) fn make_next<R: Wait, G: Gate>(
    rt: &R,
    alloc: Global,
    lock: &Lock,
    seat: &mut Seat,
    calls: &mut u64,
    line: &Entry,
    gate: &G,
) -> Result<(), NoMemory>
    requires may { MayCall lock.now seat.old }
    requires own { line.now.client ≡ seat.old.number }
    ensures made { OnOk result (HasMade (line.now ∷ []) seat.old seat.new) }
    ensures none { OnErr result (HasMade [] seat.old seat.new) }
{
    gate.at_call(line.client, *calls);
    make_call(rt, alloc, lock, seat, line)?;
    *calls = calls.saturating_add(1);
    Ok(())
}

/// Makes the call of a line if it is the player's, unless that has found no memory before.
pub(crate) fn hear<R: Wait, G: Gate>(
    rt: &R,
    alloc: Global,
    lock: &Lock,
    player: &mut Player,
    line: &Entry,
    gate: &G,
)
    requires { MayCall lock.now player.old.seat }
    ensures { HasHeard line.now player.old player.new }
{
    if player.seat.number() != line.client {
        return;
    }
    if player.ended.is_err() {
        return;
    }
    player.ended = make_next(
        rt,
        alloc,
        lock,
        &mut player.seat,
        &mut player.calls,
        line,
        gate,
    );
}

// Makes the call that a line of the seat's client asks for.
fn make_call<R: Wait>(
    rt: &R,
    alloc: Global,
    lock: &Lock,
    seat: &mut Seat,
    line: &Entry,
) -> Result<(), NoMemory>
    requires may { MayCall lock.now seat.old }
    requires own { line.now.client ≡ seat.old.number }
    ensures made { OnOk result (HasMade (line.now ∷ []) seat.old seat.new) }
    ensures none { OnErr result (HasMade [] seat.old seat.new) }
{
    let stamp = line.stamp;
    match &line.call {
        Call::Register(regs) => register(rt, alloc, lock, seat, stamp, regs.copy(alloc)?),
        Call::Unregister(var, source) => {
            let (var, source) = (var.copy(alloc)?, source.copy(alloc)?);
            unregister(rt, alloc, lock, seat, stamp, var, source)
        }
        Call::Post(batch) => post(rt, alloc, lock, seat, stamp, batch.copy(alloc)?),
        Call::Fetch => fetch_unread(rt, alloc, lock, seat, stamp),
    }
}
