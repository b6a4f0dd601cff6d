// A step without threads: the clients make their calls one after another, in the order of the lines.
ghost use Rattle.std.specs.Prelude.{◌≡◌, ◌<◌, ◌≤◌, length, nat_lt, IsTrue};
ghost use Rattle.std.specs.List.{list_all};
ghost use Rattle.moos_step.specs.Steps.{added_by, HasGrown, IsGathered, IsJust, IsPlayed};

use crate::player::{Player, make_next};
use crate::step::{leave, player_at};
use moos_client::Lock;
use moos_io::Gate;
use moos_post::{Entry, NoMemory};
use std::alloc::Global;
use std::sync::Wait;

/// Has the clients make their calls among these lines one after another, in the order of the lines, until one finds no
/// memory.
pub(crate) fn play_in_turn<R: Wait, G: Gate>(
    rt: &R,
    alloc: Global,
    lock: &Lock,
    first: &mut Player,
    calls: &mut [u64],
    lines: &[Entry],
    gate: &G,
) -> Result<(), NoMemory>
    requires gathered { IsGathered lock.now first.old.seat }
    requires clients { length calls.old ≤ length lock.now.base }
    requires lines { IsTrue (list_all (λ line. nat_lt line.client (length calls.old)) lines.now) }
    ensures gathered { IsGathered lock.now first.new.seat }
    ensures played { HasGrown (IsPlayed lines.now result) first.old.seat first.new.seat }
    ensures calls { length calls.new ≡ length calls.old }
{
    for line in lines {
        play_line(rt, alloc, lock, first, calls, line, gate)?;
    }
    Ok(())
}

// Has the client of a line make its call. Its seat is the first, or is parted from the first for this call.
fn play_line<R: Wait, G: Gate>(
    rt: &R,
    alloc: Global,
    lock: &Lock,
    first: &mut Player,
    calls: &mut [u64],
    line: &Entry,
    gate: &G,
) -> Result<(), NoMemory>
    requires gathered { IsGathered lock.now first.old.seat }
    requires client { line.now.client < length lock.now.base }
    ensures gathered { IsGathered lock.now first.new.seat }
    ensures played { HasGrown (IsJust (added_by result line.now)) first.old.seat first.new.seat }
    ensures calls { length calls.new ≡ length calls.old }
{
    let client = line.client;
    if client == 0 {
        let Player {
            seat,
            calls,
            ended: _,
        } = first;
        return make_next(rt, alloc, lock, seat, calls, line, gate);
    }
    let mut player = player_at(lock.part(&mut first.seat, client), calls);
    let played = make_next(
        rt,
        alloc,
        lock,
        &mut player.seat,
        &mut player.calls,
        line,
        gate,
    );
    let (seat, _) = leave(player, calls);
    lock.meet(&mut first.seat, seat);
    played
}
