// Order Race: the clients of both communities play all their lines, and the bridge carries on a thread of its own beside them.
ghost use Rattle.std.specs.Prelude.{◌≡◌, ◌<◌, OnOk};
ghost use Rattle.std.specs.List.{All, AllZip};
ghost use Rattle.std.specs.Thread.{IsSync};
ghost use Rattle.moos_bridged.specs.Communities.{bridge_in};
ghost use Rattle.moos_bridged.specs.Ending.{HaveShared};
ghost use Rattle.moos_bridged.specs.Racing.{HasCarriedLines, HasRacedFirst, HaveRaced, IsFirstReady, MayCarryLines, stamps_of};
ghost use Rattle.moos_bridged.specs.Opening.{AreOpened};
ghost use Rattle.moos_client.specs.Calls.{MayCall};
ghost use Rattle.moos_share.specs.Carrying.{MayCarry, seated};
ghost use Rattle.moos_step.specs.Steps.{HasEnded, IsApart};
ghost use Rattle.script_reader.specs.declared.script.Order.TheVariants.{Race};

use crate::community::Community;
use crate::crossing::cross;
use crate::second_gate::SecondGate;
use moos_client::{Lock, Seat};
use moos_io::Gate;
use moos_post::{Entry, NoMemory};
use moos_share::{Bridge, carry_law};
use moos_step::{Player, both, part_busy, play_beside, see_all, take_in};
use std::alloc::Global;
use std::sync::Wait;
use std::thread::{Threads, join_mut};

/// Plays all lines of both scripts, all clients of both beside each other. Beside them the bridge carries once for each line of the
/// first script, at its stamp, and once more at the end, at the greater of both scripts' last stamps.
pub(crate) fn share_by_race<R: Threads + Wait + Sync, G: Gate>(
    rt: &R,
    alloc: Global,
    bridge: &mut Bridge,
    one: &mut Community,
    two: &mut Community,
    gate: &G,
) -> Result<(), NoMemory>
    requires ready { AreOpened bridge.old one.old two.old }
    ensures { OnOk result (HaveShared Race bridge.old.rules one.old one.new two.old two.new) }
{
    let stop = one.script.stop.max(two.script.stop);
    race(rt, alloc, bridge, one, two, gate)?;
    cross(rt, alloc, bridge, one, two, stop)?;
    Ok(())
}

// Plays all lines of both scripts, and has the bridge carry for those of the first beside them.
fn race<R: Threads + Wait + Sync, G: Gate>(
    rt: &R,
    alloc: Global,
    bridge: &mut Bridge,
    one: &mut Community,
    two: &mut Community,
    gate: &G,
) -> Result<(), NoMemory>
    requires ready { AreOpened bridge.old one.old two.old }
    ensures { OnOk result (HaveRaced bridge.old bridge.new one.old one.new two.old two.new) }
{
    if one.bridge() == 0 {
        two.play_all(rt, alloc, gate)?;
        return Ok(());
    }
    if two.bridge() == 0 {
        return race_alone(rt, alloc, bridge, one, two, gate);
    }
    race_both(rt, alloc, bridge, one, two, gate)
}

// The same if the second script has no clients: the bridge has the first seat there.
fn race_alone<R: Threads + Wait + Sync, G: Gate>(
    rt: &R,
    alloc: Global,
    bridge: &mut Bridge,
    one: &mut Community,
    two: &mut Community,
    gate: &G,
) -> Result<(), NoMemory>
    requires ready { AreOpened bridge.old one.old two.old }
    requires first { 0 < bridge_in one.old }
    requires second { bridge_in two.old ≡ 0 }
    ensures { OnOk result (HaveRaced bridge.old bridge.new one.old one.new two.old two.new) }
{
    let to = &mut two.first.seat;
    race_first(rt, alloc, bridge, one, &two.lock, to, gate)?;
    see_all(&two.lock, to);
    Ok(())
}

// The same if both scripts have clients.
fn race_both<R: Threads + Wait + Sync, G: Gate>(
    rt: &R,
    alloc: Global,
    bridge: &mut Bridge,
    one: &mut Community,
    two: &mut Community,
    gate: &G,
) -> Result<(), NoMemory>
    requires ready { AreOpened bridge.old one.old two.old }
    requires first { 0 < bridge_in one.old }
    requires second { 0 < bridge_in two.old }
    ensures { OnOk result (HaveRaced bridge.old bridge.new one.old one.new two.old two.new) }
{
    let number = two.bridge();
    let lines = two.script.lines.all();
    let mut players = part_busy(alloc, &two.lock, &mut two.first.seat, &two.calls, lines)?;
    let mut to = two.lock.part(&mut two.first.seat, number);
    race_beside(
        rt,
        alloc,
        bridge,
        one,
        &two.lock,
        &mut to,
        &mut two.first,
        &mut players,
        lines,
        gate,
    )?;
    let calls = two.calls.as_mut_slice();
    let ended = take_in(&two.lock, &mut two.first.seat, calls, players);
    two.lock.meet(&mut two.first.seat, to);
    see_all(&two.lock, &mut two.first.seat);
    both(&two.first.ended, ended)?;
    two.from = lines.len();
    Ok(())
}

// The first community's race beside the clients of the second.
fn race_beside<R: Threads + Wait + Sync, G: Gate>(
    rt: &R,
    alloc: Global,
    bridge: &mut Bridge,
    one: &mut Community,
    lock: &Lock,
    to: &mut Seat,
    first: &mut Player,
    players: &mut Vec<Player>,
    lines: &[Entry],
    gate: &G,
) -> Result<(), NoMemory>
    requires ready { IsFirstReady bridge.old one.old to.old }
    requires to { MayCarry lock.now to.old }
    requires first { MayCall lock.now first.old.seat × (first.old.seat.number ≡ 0) }
    requires players { All (λ player. IsApart lock.now player.seat) players.old.items }
    ensures raced { OnOk result (HasRacedFirst bridge.old bridge.new one.old one.new to.old to.new) }
    ensures first { HasEnded lines.now first.old first.new }
    ensures players { AllZip (HasEnded lines.now) players.old.items players.new.items }
{
    let second = SecondGate::behind(gate, one.bridge());
    let (raced, ()) = join_mut(
        rt,
        &mut ||
            requires { IsSync R.row × IsSync G.row × IsFirstReady bridge.now one.now to.now × MayCarry lock.now to.now }
            ensures { OnOk result (HasRacedFirst bridge.entry.now bridge.exit.now one.entry.now one.exit.now to.entry.now to.exit.now) }
        { race_first(rt, alloc, bridge, one, lock, to, gate) },
        &mut ||
            requires { IsSync R.row × IsSync G.row × MayCall lock.now first.now.seat × (first.now.seat.number ≡ 0) × All (λ player. IsApart lock.now player.seat) players.now.items }
            ensures { HasEnded lines.entry.now first.entry.now first.exit.now × AllZip (HasEnded lines.entry.now) players.entry.now.items players.exit.now.items }
        { play_beside(rt, alloc, lock, first, players, lines, &second) },
    );
    raced
}

// The first community's clients play all their lines, and the bridge carries beside them from its seat there.
fn race_first<R: Threads + Wait + Sync, G: Gate>(
    rt: &R,
    alloc: Global,
    bridge: &mut Bridge,
    one: &mut Community,
    second: &Lock,
    to: &mut Seat,
    gate: &G,
) -> Result<(), NoMemory>
    requires ready { IsFirstReady bridge.old one.old to.old }
    requires to { MayCarry second.now to.old }
    ensures raced { OnOk result (HasRacedFirst bridge.old bridge.new one.old one.new to.old to.new) }
{
    carry_law();
    let number = one.bridge();
    let lines = one.script.lines.all();
    let mut players = part_busy(alloc, &one.lock, &mut one.first.seat, &one.calls, lines)?;
    let mut from = one.lock.part(&mut one.first.seat, number);
    carry_beside(
        rt,
        alloc,
        bridge,
        &one.lock,
        &mut from,
        second,
        to,
        &mut one.first,
        &mut players,
        lines,
        gate,
    )?;
    let calls = one.calls.as_mut_slice();
    let ended = take_in(&one.lock, &mut one.first.seat, calls, players);
    one.lock.meet(&mut one.first.seat, from);
    see_all(&one.lock, &mut one.first.seat);
    both(&one.first.ended, ended)?;
    one.from = lines.len();
    Ok(())
}

// The bridge carries once for each of these lines, at its stamp, on a thread of its own beside the clients that play them.
fn carry_beside<R: Threads + Wait + Sync, G: Gate>(
    rt: &R,
    alloc: Global,
    bridge: &mut Bridge,
    lock: &Lock,
    from: &mut Seat,
    second: &Lock,
    to: &mut Seat,
    first: &mut Player,
    players: &mut Vec<Player>,
    lines: &[Entry],
    gate: &G,
) -> Result<(), NoMemory>
    requires carry { MayCarryLines lock.now second.now (seated bridge.old from.old to.old) }
    requires first { MayCall lock.now first.old.seat × (first.old.seat.number ≡ 0) }
    requires players { All (λ player. IsApart lock.now player.seat) players.old.items }
    ensures carried { OnOk result (HasCarriedLines lock.now.base (stamps_of lines.now) (seated bridge.old from.old to.old) (seated bridge.new from.new to.new)) }
    ensures first { HasEnded lines.now first.old first.new }
    ensures players { AllZip (HasEnded lines.now) players.old.items players.new.items }
{
    let (carried, ()) = join_mut(
        rt,
        &mut ||
            requires { IsSync R.row × MayCarryLines lock.now second.now (seated bridge.now from.now to.now) }
            ensures { OnOk result (HasCarriedLines lock.entry.now.base (stamps_of lines.entry.now) (seated bridge.entry.now from.entry.now to.entry.now) (seated bridge.exit.now from.exit.now to.exit.now)) }
        { carry_lines(rt, alloc, bridge, lock, from, second, to, lines) },
        &mut ||
            requires { IsSync R.row × IsSync G.row × MayCall lock.now first.now.seat × (first.now.seat.number ≡ 0) × All (λ player. IsApart lock.now player.seat) players.now.items }
            ensures { HasEnded lines.entry.now first.entry.now first.exit.now × AllZip (HasEnded lines.entry.now) players.entry.now.items players.exit.now.items }
        { play_beside(rt, alloc, lock, first, players, lines, gate) },
    );
    carried
}

// The bridge carries once for each of these lines, at its stamp.
fn carry_lines<R: Wait>(
    rt: &R,
    alloc: Global,
    bridge: &mut Bridge,
    first: &Lock,
    from: &mut Seat,
    second: &Lock,
    to: &mut Seat,
    lines: &[Entry],
) -> Result<(), NoMemory>
    requires { MayCarryLines first.now second.now (seated bridge.old from.old to.old) }
    ensures { OnOk result (HasCarriedLines first.now.base (stamps_of lines.now) (seated bridge.old from.old to.old) (seated bridge.new from.new to.new)) }
{
    carry_law();
    for line in lines {
        bridge.carry(rt, alloc, first, from, second, to, line.stamp)?;
    }
    Ok(())
}
