// A race: the clients play all their lines, and the helm makes all its ticks on a thread of its own beside them.
ghost use Rattle.std.specs.Prelude.{◌≡◌, ◌<◌, ◌^◌, length, nat_lt, IsTrue};
ghost use Rattle.std.specs.List.{All, AllZip, list_all};
ghost use Rattle.std.specs.Thread.{IsSync};
ghost use Rattle.moos_client.specs.Calls.{MayCall};
ghost use Rattle.moos_step.specs.Steps.{HasEnded, IsApart, IsPlayedBeside};
ghost use Rattle.moos_play.specs.Steered.{HasLed, HasSteered, MayLead, MaySteer};

use crate::helm_client::{HelmClient, lead, steer};
use moos_client::{Lock, Seat};
use moos_io::Gate;
use moos_post::{Entry, NoMemory};
use moos_step::{Player, both, part_busy, play_beside, see_all, take_in};
use std::alloc::Global;
use std::sync::Wait;
use std::thread::{Threads, join_mut};

/// Plays these lines, and has the helm make its ticks beside them, up to `ticks`. Even if memory is missing, the first
/// has all seats again, and each client has played a front of its lines.
pub(crate) fn race<R: Threads + Wait + Sync, G: Gate>(
    rt: &R,
    alloc: Global,
    lock: &Lock,
    first: &mut Player,
    helm_client: &mut HelmClient,
    calls: &mut [u64],
    lines: &[Entry],
    ticks: u64,
    workers: u32,
    gate: &G,
) -> Result<(), NoMemory>
    requires lead { MayLead lock.now first.old.seat helm_client.old ticks workers }
    requires number { helm_client.old.number ≡ length calls.old }
    requires few { length calls.old < 2 ^ 32 }
    requires lines { IsTrue (list_all (λ line. nat_lt line.client (length calls.old)) lines.now) }
    ensures { HasLed lock.now (IsPlayedBeside helm_client.old.number lines.now result) ticks first.old.seat first.new.seat helm_client.old helm_client.new result }
{
    if helm_client.number == 0 {
        let seat = &mut first.seat;
        return lead(rt, alloc, lock, seat, helm_client, ticks, workers, gate);
    }
    let mut players = part_busy(alloc, lock, &mut first.seat, calls, lines)?;
    let mut seat = lock.part(&mut first.seat, helm_client.number);
    let steered = steer_beside(
        rt,
        alloc,
        lock,
        &mut seat,
        helm_client,
        ticks,
        workers,
        first,
        &mut players,
        lines,
        gate,
    );
    let others = take_in(lock, &mut first.seat, calls, players);
    lock.meet(&mut first.seat, seat);
    see_all(lock, &mut first.seat);
    both(&steered, both(&first.ended, others))
}

// Has the helm make its ticks at its seat on a thread of its own, and the clients play their lines beside it.
fn steer_beside<R: Threads + Wait + Sync, G: Gate>(
    rt: &R,
    alloc: Global,
    lock: &Lock,
    seat: &mut Seat,
    helm_client: &mut HelmClient,
    ticks: u64,
    workers: u32,
    first: &mut Player,
    players: &mut Vec<Player>,
    lines: &[Entry],
    gate: &G,
) -> Result<(), NoMemory>
    requires steer { MaySteer lock.now seat.old helm_client.old ticks workers }
    requires first { MayCall lock.now first.old.seat × (first.old.seat.number ≡ 0) }
    requires players { All (λ player. IsApart lock.now player.seat) players.old.items }
    ensures steered { HasSteered lock.now ticks seat.old seat.new helm_client.old helm_client.new result }
    ensures first { HasEnded lines.now first.old first.new }
    ensures players { AllZip (HasEnded lines.now) players.old.items players.new.items }
{
    let (steered, ()) = join_mut(
        rt,
        &mut ||
            requires { IsSync R.row × IsSync G.row × MaySteer lock.now seat.now helm_client.now ticks workers }
            ensures { HasSteered lock.entry.now ticks seat.entry.now seat.exit.now helm_client.entry.now helm_client.exit.now result }
        { steer(rt, alloc, lock, seat, helm_client, ticks, workers, gate) },
        &mut ||
            requires { IsSync R.row × IsSync G.row × MayCall lock.now first.now.seat × (first.now.seat.number ≡ 0) × All (λ player. IsApart lock.now player.seat) players.now.items }
            ensures { HasEnded lines.entry.now first.entry.now first.exit.now × AllZip (HasEnded lines.entry.now) players.entry.now.items players.exit.now.items }
        { play_beside(rt, alloc, lock, first, players, lines, gate) },
    );
    steered
}
