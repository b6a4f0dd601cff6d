// One step of the clients; how the seats of those that have lines are parted from the first, how clients make their calls beside each
// other, and how the first takes them in again.
ghost use Rattle.std.specs.Prelude.{◌≡◌, ◌<◌, ◌≤◌, ◌^◌, length, nat_lt, IsTrue, IfOk, OnOk, OnErr, Ok};
ghost use Rattle.std.specs.List.{All, AllZip, list_all};
ghost use Rattle.std.specs.Thread.{IsSync};
ghost use Rattle.moos_client.specs.Calls.{MayCall};
ghost use Rattle.moos_step.specs.Steps.{AreBusy, AreParted, busy_below, GoesOn, HasEnded, HasGrown, HasSeenAll, HasTaken, has_line, IsApart, IsGathered, IsNextBusy, IsPlayed, IsWhole};
ghost use Rattle.turn_lock.specs.Passes.{HasAll, IsFree, IsOf};

use crate::apart::play_apart;
use crate::in_turn::play_in_turn;
use crate::player::{Player, play_part};
use moos_client::{Lock, Seat};
use moos_io::Gate;
use moos_post::{Entry, NoMemory};
use std::alloc::{AllocError, Global};
use std::sync::Wait;
use std::thread::{Threads, for_each_mut, join_mut};

/// Of so many clients it is counted how many lines they have; a script has no more.
const COUNTED: usize = 64;

/// So many lines of one stamp are worth a thread of their client's own.
pub const HEAVY: usize = 64;

/// Plays these lines in one step. If several clients have lines, those with at least `heavy` of them make their calls each on
/// a thread of its own. Beside them the others make theirs one after another, in the order of the lines. A client without
/// lines leaves its seat with the first. Even if memory is missing, the first has all seats again, and each client has
/// played a front of its lines.
pub fn play_step<R: Threads + Wait + Sync, G: Gate>(
    rt: &R,
    alloc: Global,
    lock: &Lock,
    first: &mut Player,
    calls: &mut [u64],
    lines: &[Entry],
    heavy: usize,
    gate: &G,
) -> Result<(), NoMemory>
    requires gathered { IsGathered lock.now first.old.seat }
    requires whole { IsWhole first.old.seat }
    requires clients { (0 < length calls.old) × (length calls.old ≤ length lock.now.base) × (length calls.old < 2 ^ 32) }
    requires lines { IsTrue (list_all (λ line. nat_lt line.client (length calls.old)) lines.now) }
    ensures gathered { IsGathered lock.now first.new.seat }
    ensures goes_on { GoesOn (IsPlayed lines.now result) first.old.seat first.new.seat }
    ensures calls { length calls.new ≡ length calls.old }
{
    let played = play_lines(rt, alloc, lock, first, calls, lines, heavy, gate);
    see_all(lock, &mut first.seat);
    played
}

// The same before the first seat has seen the whole history.
fn play_lines<R: Threads + Wait + Sync, G: Gate>(
    rt: &R,
    alloc: Global,
    lock: &Lock,
    first: &mut Player,
    calls: &mut [u64],
    lines: &[Entry],
    heavy: usize,
    gate: &G,
) -> Result<(), NoMemory>
    requires gathered { IsGathered lock.now first.old.seat }
    requires clients { (0 < length calls.old) × (length calls.old ≤ length lock.now.base) × (length calls.old < 2 ^ 32) }
    requires lines { IsTrue (list_all (λ line. nat_lt line.client (length calls.old)) lines.now) }
    ensures gathered { IsGathered lock.now first.new.seat }
    ensures played { HasGrown (IsPlayed lines.now result) first.old.seat first.new.seat }
    ensures calls { length calls.new ≡ length calls.old }
{
    if has_several(lines) && has_heavy(lines, heavy) {
        play_apart(rt, alloc, lock, first, calls, lines, heavy, gate)
    } else {
        play_in_turn(rt, alloc, lock, first, calls, lines, gate)
    }
}

// Whether the lines are those of several clients.
fn has_several(lines: &[Entry]) -> bool {
    match lines {
        [] => false,
        [line, others @ ..] => others.iter().any(|other| other.client != line.client),
    }
}

/// Whether a client has at least `heavy` of the lines. Any answer would be lawful, so no clause speaks of it.
pub fn has_heavy(lines: &[Entry], heavy: usize) -> bool {
    if lines.len() < heavy {
        return false;
    }
    let mut counts = [0usize; COUNTED];
    for line in lines {
        let Some(count) = counts.get_mut(line.client as usize) else {
            return true;
        };
        *count = count.saturating_add(1);
        if *count >= heavy {
            return true;
        }
    }
    false
}

// Whether the client has one of the lines.
fn has_lines(lines: &[Entry], client: u32) -> bool
    ensures { result ≡ has_line client lines.now }
{
    lines.iter().any(|line| line.client == client)
}

/// Ok if both are.
pub fn both(one: &Result<(), NoMemory>, other: Result<(), NoMemory>) -> Result<(), NoMemory>
    ensures { OnOk result ((one.now ≡ Ok tt) × (other ≡ Ok tt)) }
{
    match one {
        Ok(()) => other,
        Err(_) => Err(AllocError),
    }
}

/// A player at this seat, which has made as many calls as are counted.
pub(crate) fn player_at(seat: Seat, calls: &[u64]) -> Player
    ensures { result.seat ≡ seat }
{
    let made = calls.get(seat.number() as usize);
    let calls = made.copied().unwrap_or(0);
    Player {
        seat,
        calls,
        ended: Ok(()),
    }
}

/// The least client from one number on that has lines, or as many as there are clients if none of them has.
pub(crate) fn next_busy(lines: &[Entry], from: u32, clients: u32) -> u32
    requires { from ≤ clients }
    ensures { IsNextBusy lines.now from clients result }
{
    let mut next = clients;
    for line in lines {
        if next == from {
            break;
        }
        if from <= line.client && line.client < next {
            next = line.client;
        }
    }
    next
}

/// How many clients below a number, the first one left out, have lines.
pub(crate) fn count_busy(lines: &[Entry], clients: u32) -> usize
    requires { 0 < clients }
    ensures { result ≡ busy_below lines.now clients }
{
    let mut busy = 0;
    let mut client = next_busy(lines, 1, clients);
    while client < clients {
        busy += 1;
        client = next_busy(lines, client + 1, clients);
    }
    busy
}

/// Parts from the first seat those of all other clients that have lines, and makes room for no more of them. If no memory
/// is left none is parted. It looks through the lines twice for each of these clients and twice more, whatever the number of
/// the others.
pub fn part_busy(
    alloc: Global,
    lock: &Lock,
    first: &mut Seat,
    calls: &[u64],
    lines: &[Entry],
) -> Result<Vec<Player>, NoMemory>
    requires gathered { IsGathered lock.now first.old }
    requires clients { (0 < length calls.now) × (length calls.now ≤ length lock.now.base) × (length calls.now < 2 ^ 32) }
    ensures parted { IfOk result (λ players. AreParted lock.now first.old first.new players.items) }
    ensures busy { IfOk result (λ players. AreBusy lines.now (length calls.now) players.items) }
    ensures same { OnErr result (first.new ≡ first.old) }
{
    let clients = calls.len() as u32;
    let mut players = Vec::with_capacity(alloc, count_busy(lines, clients))?;
    let mut client = next_busy(lines, 1, clients);
    while client < clients {
        let seat = lock.part(first, client);
        players.push_reserved(player_at(seat, calls));
        client = next_busy(lines, client + 1, clients);
    }
    Ok(players)
}

/// Has the client of the first seat, if it has lines, and the players make their calls beside each other.
pub fn play_beside<R: Threads + Wait + Sync, G: Gate>(
    rt: &R,
    alloc: Global,
    lock: &Lock,
    first: &mut Player,
    players: &mut Vec<Player>,
    lines: &[Entry],
    gate: &G,
)
    requires first { MayCall lock.now first.old.seat × (first.old.seat.number ≡ 0) }
    requires players { All (λ player. IsApart lock.now player.seat) players.old.items }
    ensures first { HasEnded lines.now first.old first.new }
    ensures players { AllZip (HasEnded lines.now) players.old.items players.new.items }
{
    if !has_lines(lines, 0) {
        play_each(rt, alloc, lock, players, lines, gate);
    } else if players.is_empty() {
        play_part(rt, alloc, lock, first, lines, gate);
    } else {
        play_all(rt, alloc, lock, first, players, lines, gate);
    }
}

// Has the client of the first seat make its calls beside the players.
fn play_all<R: Threads + Wait + Sync, G: Gate>(
    rt: &R,
    alloc: Global,
    lock: &Lock,
    first: &mut Player,
    players: &mut Vec<Player>,
    lines: &[Entry],
    gate: &G,
)
    requires first { MayCall lock.now first.old.seat }
    requires players { All (λ player. MayCall lock.now player.seat) players.old.items }
    ensures first { HasEnded lines.now first.old first.new }
    ensures players { AllZip (HasEnded lines.now) players.old.items players.new.items }
{
    join_mut(
        rt,
        &mut ||
            requires { IsSync R.row × IsSync G.row × MayCall lock.now first.now.seat }
            ensures { HasEnded lines.entry.now first.entry.now first.exit.now }
        { play_part(rt, alloc, lock, first, lines, gate) },
        &mut ||
            requires { IsSync R.row × IsSync G.row × All (λ player. MayCall lock.now player.seat) players.now.items }
            ensures { AllZip (HasEnded lines.entry.now) players.entry.now.items players.exit.now.items }
        { play_each(rt, alloc, lock, players, lines, gate) },
    );
}

/// Has each player make its calls, on a thread of its own if there are several.
pub(crate) fn play_each<R: Threads + Wait + Sync, G: Gate>(
    rt: &R,
    alloc: Global,
    lock: &Lock,
    players: &mut Vec<Player>,
    lines: &[Entry],
    gate: &G,
)
    requires { All (λ player. MayCall lock.now player.seat) players.old.items }
    ensures { AllZip (HasEnded lines.now) players.old.items players.new.items }
{
    let threads = players.len();
    if threads == 0 {
        return;
    }
    for_each_mut(
        rt,
        players.as_mut_slice(),
        threads,
        &|_, player: &mut Player|
            requires { MayCall lock.now player.now.seat }
            ensures { HasEnded lines.entry.now player.entry.now player.exit.now }
        { play_part(rt, alloc, lock, player, lines, gate) },
    );
}

/// The seat of a player that has played, whose calls are counted, and whether it found no memory.
pub(crate) fn leave(player: Player, calls: &mut [u64]) -> (Seat, Result<(), NoMemory>)
    ensures seat { result.0 ≡ player.seat }
    ensures ended { result.1 ≡ player.ended }
    ensures count { length calls.new ≡ length calls.old }
{
    let Player {
        seat,
        calls: made,
        ended,
    } = player;
    if let Some(count) = calls.get_mut(seat.number() as usize) {
        *count = made;
    }
    (seat, ended)
}

/// Takes the seats of all players into the first. It is an error if a player found no memory.
pub fn take_in(
    lock: &Lock,
    first: &mut Seat,
    calls: &mut [u64],
    players: Vec<Player>,
) -> Result<(), NoMemory>
    requires first { IsOf lock.now first.old × IsFree first.old }
    requires players { All (λ player. IsApart lock.now player.seat) players.items }
    ensures taken { HasTaken first.old first.new players.items }
    ensures ended { OnOk result (All (λ player. player.ended ≡ Ok tt) players.items) }
    ensures calls { length calls.new ≡ length calls.old }
{
    let mut answer = Ok(());
    for player in players {
        let (seat, ended) = leave(player, calls);
        answer = both(&ended, answer);
        lock.meet(first, seat);
    }
    answer
}

/// Has the first seat, which has taken in all others, see the whole history.
pub fn see_all(lock: &Lock, first: &mut Seat)
    requires first { IsOf lock.now first.old × IsFree first.old }
    requires all { HasAll first.old }
    ensures { HasSeenAll first.old first.new }
{
    lock.see_all(first);
}
