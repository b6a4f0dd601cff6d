// How a run begins: its names, a seat for each client, and the helm with its opening.
ghost use Rattle.std.specs.Prelude.{◌≡◌, ◌<◌, ◌≤◌, ◌++◌, ◌^◌, codes, length, option_map, IfOk, OnOk, IfSome};
ghost use Rattle.moos_play.specs.Lawful.{helm_number, MayStart, names_with, opening_of, helm_setup_with};
ghost use Rattle.moos_step.specs.Steps.{IsGathered, IsWhole, KnowsNothing};
ghost use Rattle.moos_play.specs.Steered.{HasOpened, helm_of, IsUnticked, helm_setup_of};

use crate::helm_client::{HelmClient, count_call};
use crate::run::HelmRun;
use moos_client::{Lock, Seat};
use moos_db::Db;
use moos_io::Gate;
use moos_post::{Call, Copied, List, Name, NameFault, Names, NoMemory};
use moos_step::{call_alone, seat_all};
use script_reader::Script;
use std::alloc::{AllocError, Global};
use std::sync::Wait;
use turn_lock::TurnLock;

/// The lock over a new database, the seat of the first client, which has taken in all others, and a count of calls for each
/// of the script's clients.
pub(crate) fn seats_for(
    alloc: Global,
    script: &Script,
    helm: &Option<HelmRun>,
    further: &Names,
) -> Result<(Lock, Seat, Vec<u64>), NoMemory>
    requires few { length (names_with script.now helm.now ++ further.now) < 2 ^ 32 }
    ensures names { IfOk result (λ seats. seats.0.base ≡ names_with script.now helm.now ++ further.now) }
    ensures gathered { IfOk result (λ seats. IsGathered seats.0 seats.1) }
    ensures nothing { IfOk result (λ seats. KnowsNothing seats.1) }
    ensures calls { IfOk result (λ seats. length seats.2.items ≡ length script.now.names) }
{
    let names = names_for(alloc, script, helm, further)?;
    let passes = passes_for(&names);
    let calls = no_calls(alloc, script.names.len())?;
    let db = Db::make(alloc, names)?;
    let Ok((lock, mut seat)) = TurnLock::make(alloc, db, passes) else {
        return Err(AllocError);
    };
    seat_all(&lock, &mut seat, passes);
    Ok((lock, seat, calls))
}

// How many passes there are: one for each client, and one if there is none.
fn passes_for(names: &Names) -> u32
    requires { length names.now < 2 ^ 32 }
    ensures some { 0 < result }
    ensures all { length names.now ≤ result }
    ensures one { 0 < length names.now → result ≡ length names.now }
{
    let clients = names.len() as u32;
    if clients == 0 { 1 } else { clients }
}

// The names of all clients: the script's, then the helm's if there is one, and then the further ones.
fn names_for(
    alloc: Global,
    script: &Script,
    helm: &Option<HelmRun>,
    further: &Names,
) -> Result<Names, NoMemory>
    ensures { IfOk result (λ names. names ≡ names_with script.now helm.now ++ further.now) }
{
    let mut names = known_names(alloc, script, helm)?;
    add_names(alloc, &mut names, further.all())?;
    Ok(names)
}

// Adds these names to the others.
fn add_names(alloc: Global, names: &mut Names, more: &[Name]) -> Result<(), NoMemory>
    ensures { OnOk result (names.new ≡ names.old ++ more.now) }
{
    for name in more {
        names.add(name.copy(alloc)?)?;
    }
    Ok(())
}

// The names of the script's clients, and then the helm's if there is one.
fn known_names(alloc: Global, script: &Script, helm: &Option<HelmRun>) -> Result<Names, NoMemory>
    ensures { IfOk result (λ names. names ≡ names_with script.now helm.now) }
{
    let mut names = script.names.copy(alloc)?;
    if helm.is_some() {
        names.add(helm_name(alloc)?)?;
    }
    Ok(names)
}

// The helm's name among the clients.
fn helm_name(alloc: Global) -> Result<Name, NoMemory>
    ensures { IfOk result (λ name. name ≡ codes "pHelmIvP") }
{
    match Name::new(alloc, b"pHelmIvP") {
        Ok(name) => Ok(name),
        Err(NameFault::BadName) => unreachable!(),
        Err(NameFault::NoMemory) => Err(AllocError),
    }
}

/// The helm, if there is one, with the number behind the script's clients and nothing done yet.
pub(crate) fn helm_client_for(
    alloc: Global,
    script: &Script,
    helm: Option<HelmRun>,
) -> Option<HelmClient>
    requires few { helm_number script.now < 2 ^ 32 }
    requires helm { IfSome helm MayStart }
    ensures helm { helm_of result ≡ option_map (helm_setup_with script.now) helm }
    ensures new { IfSome result IsUnticked }
{
    let HelmRun { helm, period } = helm?;
    Some(HelmClient {
        helm,
        number: script.names.len() as u32,
        period,
        ticks: 0,
        calls: 0,
        iterations: List::new(alloc),
    })
}

// A count of 0 calls for each client.
fn no_calls(alloc: Global, clients: usize) -> Result<Vec<u64>, NoMemory>
    ensures { IfOk result (λ calls. length calls.items ≡ clients) }
{
    let mut calls = Vec::new(alloc);
    for client in 0..clients {
        calls.push(0)?;
    }
    Ok(calls)
}

/// Has the helm, if there is one, make its opening.
pub(crate) fn open_all<R: Wait, G: Gate>(
    rt: &R,
    alloc: Global,
    lock: &Lock,
    first: &mut Seat,
    helm_client: &mut Option<HelmClient>,
    gate: &G,
) -> Result<(), NoMemory>
    requires gathered { IsGathered lock.now first.old }
    requires nothing { KnowsNothing first.old }
    requires new { IfSome helm_client.old (λ helm. IsUnticked helm × (helm.number < length lock.now.base)) }
    ensures same { OnOk result (helm_of helm_client.new ≡ helm_of helm_client.old) }
    ensures opened { OnOk result (HasOpened lock.now helm_client.new first.new) }
{
    if let Some(helm_client) = helm_client {
        open(rt, alloc, lock, first, helm_client, gate)?;
    }
    Ok(())
}

// The helm registers for what it wants, and posts the pairs to begin with, if there are any, both at stamp 0.
fn open<R: Wait, G: Gate>(
    rt: &R,
    alloc: Global,
    lock: &Lock,
    first: &mut Seat,
    helm_client: &mut HelmClient,
    gate: &G,
) -> Result<(), NoMemory>
    requires gathered { IsGathered lock.now first.old }
    requires whole { IsWhole first.old }
    requires client { helm_client.old.number < length lock.now.base }
    ensures gathered { IsGathered lock.now first.new }
    ensures whole { IsWhole first.new }
    ensures same { helm_client.new ≡ record helm_client.old { calls = helm_client.new.calls } }
    ensures opened { OnOk result (first.new.seen ≡ first.old.seen ++ opening_of (helm_setup_of helm_client.old)) }
{
    count_call(helm_client, gate);
    let wants = helm_client.helm.wants(alloc)?;
    let number = helm_client.number;
    call_alone(rt, alloc, lock, first, number, 0, Call::Register(wants))?;
    let pairs = helm_client.helm.opening(alloc)?;
    if pairs.len() > 0 {
        count_call(helm_client, gate);
        call_alone(rt, alloc, lock, first, number, 0, Call::Post(pairs))?;
    }
    Ok(())
}
