// How a community with a bridge begins: its names, and a seat for each client.
ghost use Rattle.std.specs.Prelude.{◌≡◌, ◌≤◌, codes, length, IfOk};
ghost use Rattle.moos_share.specs.Bridged.{names_bridged};
ghost use Rattle.moos_step.specs.Steps.{IsGathered, KnowsNothing};

use moos_client::{Lock, Seat};
use moos_db::Db;
use moos_post::{Copied, Name, NameFault, Names, NoMemory};
use moos_step::seat_all;
use script_reader::Script;
use std::alloc::{AllocError, Global};
use turn_lock::TurnLock;

/// The lock over a new database of the script's clients and the bridge, the seat of the first client, which has taken in all
/// others, and a count of calls for each of the script's.
pub(crate) fn seats_bridged(
    alloc: Global,
    script: &Script,
) -> Result<(Lock, Seat, Vec<u64>), NoMemory>
    requires few { length script.now.names ≤ 64 }
    ensures names { IfOk result (λ seats. seats.0.base ≡ names_bridged script.now) }
    ensures gathered { IfOk result (λ seats. IsGathered seats.0 seats.1) }
    ensures nothing { IfOk result (λ seats. KnowsNothing seats.1) }
    ensures calls { IfOk result (λ seats. length seats.2.items ≡ length script.now.names) }
{
    let names = add_bridge(alloc, script)?;
    let passes = names.len() as u32;
    let calls = no_calls(alloc, script.names.len())?;
    let db = Db::make(alloc, names)?;
    let Ok((lock, mut seat)) = TurnLock::make(alloc, db, passes) else {
        return Err(AllocError);
    };
    seat_all(&lock, &mut seat, passes);
    Ok((lock, seat, calls))
}

// The names of the script's clients, and then the bridge's.
fn add_bridge(alloc: Global, script: &Script) -> Result<Names, NoMemory>
    ensures { IfOk result (λ names. names ≡ names_bridged script.now) }
{
    let mut names = script.names.copy(alloc)?;
    names.add(bridge_name(alloc)?)?;
    Ok(names)
}

/// The bridge's name among the clients of a community.
pub fn bridge_name(alloc: Global) -> Result<Name, NoMemory>
    ensures { IfOk result (λ name. name ≡ codes "pShare") }
{
    match Name::new(alloc, b"pShare") {
        Ok(name) => Ok(name),
        Err(NameFault::BadName) => unreachable!(),
        Err(NameFault::NoMemory) => Err(AllocError),
    }
}

// A count of 0 calls for each client.
fn no_calls(alloc: Global, clients: usize) -> Result<Vec<u64>, NoMemory>
    ensures { IfOk result (λ calls. length calls.items ≡ clients) }
{
    let mut calls = Vec::new(alloc);
    for client in 0..clients {
        calls.push(0)?;
    }
    Ok(calls)
}
