// A step with threads: the clients with many lines make their calls each on a thread of its own, and beside them the others make
// theirs one after another, in the order of the lines.
ghost use Rattle.std.specs.Prelude.{◌≡◌, ◌<◌, ◌≤◌, ◌^◌, [], length, nat_lt, vec_capacity, vec_len, IsTrue, IfOk, OnErr};
ghost use Rattle.std.specs.List.{All, AllZip, list_all};
ghost use Rattle.std.specs.Thread.{IsSync};
ghost use Rattle.moos_client.specs.Calls.{MayCall};
ghost use Rattle.moos_step.specs.Steps.{apart_in, AreBusy, AreParted, HasEnded, HasGrown, HasHeard, HasJoined, IsApart, IsGathered, IsPlayed};

use crate::player::{Player, hear, play_part};
use crate::step::{both, count_busy, next_busy, play_beside, play_each, player_at, take_in};
use moos_client::{Lock, Seat};
use moos_io::Gate;
use moos_post::{Entry, NoMemory};
use std::alloc::Global;
use std::sync::Wait;
use std::thread::{Threads, for_each_mut, join_mut};

/// The players of a step whose seats are parted from the first: those with many lines, and the others.
#[derive(Drop)]
pub(crate) struct Apart {
    pub(crate) heavy: Vec<Player>,
    pub(crate) light: Vec<Player>,
}

/// Plays these lines: the clients with at least `heavy` of them on threads of their own, and the others in turn beside them.
pub(crate) fn play_apart<R: Threads + Wait + Sync, G: Gate>(
    rt: &R,
    alloc: Global,
    lock: &Lock,
    first: &mut Player,
    calls: &mut [u64],
    lines: &[Entry],
    heavy: usize,
    gate: &G,
) -> Result<(), NoMemory>
    requires gathered { IsGathered lock.now first.old.seat }
    requires clients { (0 < length calls.old) × (length calls.old ≤ length lock.now.base) × (length calls.old < 2 ^ 32) }
    requires lines { IsTrue (list_all (λ line. nat_lt line.client (length calls.old)) lines.now) }
    ensures gathered { IsGathered lock.now first.new.seat }
    ensures played { HasGrown (IsPlayed lines.now result) first.old.seat first.new.seat }
    ensures calls { length calls.new ≡ length calls.old }
{
    let mut players = part_by_weight(alloc, lock, &mut first.seat, calls, lines, heavy)?;
    play_players(rt, alloc, lock, first, &mut players, lines, heavy, gate);
    let Apart { heavy, light } = players;
    let heavy = take_in(lock, &mut first.seat, calls, heavy);
    let light = take_in(lock, &mut first.seat, calls, light);
    let others = both(&heavy, light);
    both(&first.ended, others)
}

// Whether the client has at least `heavy` of the lines.
fn is_heavy(lines: &[Entry], client: u32, heavy: usize) -> bool {
    lines.iter().filter(|line| line.client == client).count() >= heavy
}

// Puts a player among those with many lines or among the others.
fn add_player(players: &mut Apart, player: Player, is_heavy: bool)
    requires heavy { vec_len players.old.heavy < vec_capacity players.old.heavy }
    requires light { vec_len players.old.light < vec_capacity players.old.light }
    ensures { HasJoined player players.old players.new }
{
    if is_heavy {
        players.heavy.push_reserved(player);
    } else {
        players.light.push_reserved(player);
    }
}

// Parts from the first seat those of all other clients that have lines. If no memory is left none is parted.
fn part_by_weight(
    alloc: Global,
    lock: &Lock,
    first: &mut Seat,
    calls: &[u64],
    lines: &[Entry],
    heavy: usize,
) -> Result<Apart, NoMemory>
    requires gathered { IsGathered lock.now first.old }
    requires clients { (0 < length calls.now) × (length calls.now ≤ length lock.now.base) × (length calls.now < 2 ^ 32) }
    ensures parted { IfOk result (λ players. AreParted lock.now first.old first.new (apart_in players)) }
    ensures busy { IfOk result (λ players. AreBusy lines.now (length calls.now) (apart_in players)) }
    ensures same { OnErr result (first.new ≡ first.old) }
{
    let clients = calls.len() as u32;
    let busy = count_busy(lines, clients);
    let mut players = room_for(alloc, busy)?;
    let mut client = next_busy(lines, 1, clients);
    while client < clients {
        let player = player_at(lock.part(first, client), calls);
        add_player(&mut players, player, is_heavy(lines, client, heavy));
        client = next_busy(lines, client + 1, clients);
    }
    Ok(players)
}

// No players, and room for so many of either weight.
fn room_for(alloc: Global, players: usize) -> Result<Apart, NoMemory>
    ensures none { IfOk result (λ apart. (apart.heavy.items ≡ []) × (apart.light.items ≡ [])) }
    ensures room { IfOk result (λ apart. (players ≤ vec_capacity apart.heavy) × (players ≤ vec_capacity apart.light)) }
{
    let heavy = Vec::with_capacity(alloc, players)?;
    let light = Vec::with_capacity(alloc, players)?;
    Ok(Apart { heavy, light })
}

// Has the players with many lines make their calls on threads of their own, and the others in turn beside them.
fn play_players<R: Threads + Wait + Sync, G: Gate>(
    rt: &R,
    alloc: Global,
    lock: &Lock,
    first: &mut Player,
    players: &mut Apart,
    lines: &[Entry],
    limit: usize,
    gate: &G,
)
    requires first { MayCall lock.now first.old.seat × (first.old.seat.number ≡ 0) }
    requires heavy { All (λ player. IsApart lock.now player.seat) players.old.heavy.items }
    requires light { All (λ player. IsApart lock.now player.seat) players.old.light.items }
    ensures first { HasEnded lines.now first.old first.new }
    ensures heavy { AllZip (HasEnded lines.now) players.old.heavy.items players.new.heavy.items }
    ensures light { AllZip (HasEnded lines.now) players.old.light.items players.new.light.items }
{
    let Apart {
        heavy: many,
        light: few,
    } = players;
    if few.is_empty() {
        play_beside(rt, alloc, lock, first, many, lines, gate);
    } else if is_heavy(lines, 0, limit) {
        play_beside_few(rt, alloc, lock, first, many, few, lines, gate);
    } else {
        play_with_few(rt, alloc, lock, first, many, few, lines, gate);
    }
}

// The first seat's client has many lines, and makes its calls beside the others.
fn play_beside_few<R: Threads + Wait + Sync, G: Gate>(
    rt: &R,
    alloc: Global,
    lock: &Lock,
    first: &mut Player,
    many: &mut Vec<Player>,
    few: &mut Vec<Player>,
    lines: &[Entry],
    gate: &G,
)
    requires first { MayCall lock.now first.old.seat }
    requires many { All (λ player. MayCall lock.now player.seat) many.old.items }
    requires few { All (λ player. MayCall lock.now player.seat) few.old.items }
    ensures first { HasEnded lines.now first.old first.new }
    ensures many { AllZip (HasEnded lines.now) many.old.items many.new.items }
    ensures few { AllZip (HasEnded lines.now) few.old.items few.new.items }
{
    join_mut(
        rt,
        &mut ||
            requires { IsSync R.row × IsSync G.row × MayCall lock.now first.now.seat }
            ensures { HasEnded lines.entry.now first.entry.now first.exit.now }
        { play_part(rt, alloc, lock, first, lines, gate) },
        &mut ||
            requires { IsSync R.row × IsSync G.row × All (λ player. MayCall lock.now player.seat) many.now.items × All (λ player. MayCall lock.now player.seat) few.now.items }
            ensures { AllZip (HasEnded lines.entry.now) many.entry.now.items many.exit.now.items × AllZip (HasEnded lines.entry.now) few.entry.now.items few.exit.now.items }
        { play_both(rt, alloc, lock, many, few, lines, gate) },
    );
}

// The players of either weight.
fn play_both<R: Threads + Wait + Sync, G: Gate>(
    rt: &R,
    alloc: Global,
    lock: &Lock,
    many: &mut Vec<Player>,
    few: &mut Vec<Player>,
    lines: &[Entry],
    gate: &G,
)
    requires many { All (λ player. MayCall lock.now player.seat) many.old.items }
    requires few { All (λ player. MayCall lock.now player.seat) few.old.items }
    ensures many { AllZip (HasEnded lines.now) many.old.items many.new.items }
    ensures few { AllZip (HasEnded lines.now) few.old.items few.new.items }
{
    join_mut(
        rt,
        &mut ||
            requires { IsSync R.row × IsSync G.row × All (λ player. MayCall lock.now player.seat) many.now.items }
            ensures { AllZip (HasEnded lines.entry.now) many.entry.now.items many.exit.now.items }
        { play_each(rt, alloc, lock, many, lines, gate) },
        &mut ||
            requires { IsSync R.row × IsSync G.row × All (λ player. MayCall lock.now player.seat) few.now.items }
            ensures { AllZip (HasEnded lines.entry.now) few.entry.now.items few.exit.now.items }
        { play_few(rt, alloc, lock, few, lines, gate) },
    );
}

// The first seat's client has few lines, and makes its calls in turn with the others that have few.
fn play_with_few<R: Threads + Wait + Sync, G: Gate>(
    rt: &R,
    alloc: Global,
    lock: &Lock,
    first: &mut Player,
    many: &mut Vec<Player>,
    few: &mut Vec<Player>,
    lines: &[Entry],
    gate: &G,
)
    requires first { MayCall lock.now first.old.seat }
    requires many { All (λ player. MayCall lock.now player.seat) many.old.items }
    requires few { All (λ player. MayCall lock.now player.seat) few.old.items }
    ensures first { HasEnded lines.now first.old first.new }
    ensures many { AllZip (HasEnded lines.now) many.old.items many.new.items }
    ensures few { AllZip (HasEnded lines.now) few.old.items few.new.items }
{
    join_mut(
        rt,
        &mut ||
            requires { IsSync R.row × IsSync G.row × All (λ player. MayCall lock.now player.seat) many.now.items }
            ensures { AllZip (HasEnded lines.entry.now) many.entry.now.items many.exit.now.items }
        { play_each(rt, alloc, lock, many, lines, gate) },
        &mut ||
            requires { IsSync R.row × IsSync G.row × MayCall lock.now first.now.seat × All (λ player. MayCall lock.now player.seat) few.now.items }
            ensures { HasEnded lines.entry.now first.entry.now first.exit.now × AllZip (HasEnded lines.entry.now) few.entry.now.items few.exit.now.items }
        { play_few_with(rt, alloc, lock, first, few, lines, gate) },
    );
}

// Has the players make their calls one after another, in the order of the lines.
fn play_few<R: Threads + Wait + Sync, G: Gate>(
    rt: &R,
    alloc: Global,
    lock: &Lock,
    players: &mut Vec<Player>,
    lines: &[Entry],
    gate: &G,
)
    requires { All (λ player. MayCall lock.now player.seat) players.old.items }
    ensures { AllZip (HasEnded lines.now) players.old.items players.new.items }
{
    for line in lines {
        hear_each(rt, alloc, lock, players, line, gate);
    }
}

// The same with the client of the first seat among them.
fn play_few_with<R: Threads + Wait + Sync, G: Gate>(
    rt: &R,
    alloc: Global,
    lock: &Lock,
    first: &mut Player,
    players: &mut Vec<Player>,
    lines: &[Entry],
    gate: &G,
)
    requires first { MayCall lock.now first.old.seat }
    requires players { All (λ player. MayCall lock.now player.seat) players.old.items }
    ensures first { HasEnded lines.now first.old first.new }
    ensures players { AllZip (HasEnded lines.now) players.old.items players.new.items }
{
    first.ended = Ok(());
    for line in lines {
        hear(rt, alloc, lock, first, line, gate);
        hear_each(rt, alloc, lock, players, line, gate);
    }
}

// Has the player whose line this is make its call, on this thread.
fn hear_each<R: Threads + Wait + Sync, G: Gate>(
    rt: &R,
    alloc: Global,
    lock: &Lock,
    players: &mut Vec<Player>,
    line: &Entry,
    gate: &G,
)
    requires { All (λ player. MayCall lock.now player.seat) players.old.items }
    ensures { AllZip (HasHeard line.now) players.old.items players.new.items }
{
    for_each_mut(
        rt,
        players.as_mut_slice(),
        1,
        &|_, player: &mut Player|
            requires { MayCall lock.now player.now.seat }
            ensures { HasHeard line.entry.now player.entry.now player.exit.now }
        { hear(rt, alloc, lock, player, line, gate) },
    );
}
