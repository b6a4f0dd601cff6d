// A client's calls to the database.
ghost use Rattle.std.specs.Prelude.{IfOk, OnOk, OnErr};
ghost use Rattle.moos_post.specs.declared.entry.Call.TheVariants.{Fetch, Register, Unregister, Post};
ghost use Rattle.moos_client.specs.Calls.{IsCalled, IsFetched, IsUncalled, MayCall};

use moos_db::{Db, Mail};
use moos_post::{Batch, NoMemory, Pattern, Regs};
use std::alloc::Global;
use std::sync::Wait;
use turn_lock::{Pass, TurnLock};

/// The lock over a community's database.
pub type Lock = TurnLock<Db>;

/// A client's place at the lock. Its number is the client's.
pub type Seat = Pass<Db>;

/// The client posts these pairs at this stamp, in milliseconds. It waits for the client's turn.
pub fn post<R: Wait>(
    rt: &R,
    alloc: Global,
    lock: &Lock,
    seat: &mut Seat,
    stamp: u64,
    batch: Batch,
) -> Result<(), NoMemory>
    requires { MayCall lock.now seat.old }
    ensures called { OnOk result (IsCalled seat.old seat.new stamp (Post batch)) }
    ensures uncalled { OnErr result (IsUncalled seat.old seat.new) }
{
    let client = seat.number();
    let mut held = lock.take(rt, seat);
    let answer = held.value_mut().post(alloc, client, stamp, batch);
    match answer {
        Ok(()) => lock.give(seat, held),
        Err(_) => lock.give_back(seat, held),
    }
    answer
}

/// The client makes these registrations together at this stamp, in milliseconds. It waits for the client's turn.
pub fn register<R: Wait>(
    rt: &R,
    alloc: Global,
    lock: &Lock,
    seat: &mut Seat,
    stamp: u64,
    regs: Regs,
) -> Result<(), NoMemory>
    requires { MayCall lock.now seat.old }
    ensures called { OnOk result (IsCalled seat.old seat.new stamp (Register regs)) }
    ensures uncalled { OnErr result (IsUncalled seat.old seat.new) }
{
    let client = seat.number();
    let mut held = lock.take(rt, seat);
    let answer = held.value_mut().register(alloc, client, stamp, regs);
    match answer {
        Ok(()) => lock.give(seat, held),
        Err(_) => lock.give_back(seat, held),
    }
    answer
}

/// The client withdraws its live registration with these patterns, if it has one, at this stamp, in milliseconds. It
/// waits for the client's turn.
pub fn unregister<R: Wait>(
    rt: &R,
    alloc: Global,
    lock: &Lock,
    seat: &mut Seat,
    stamp: u64,
    var: Pattern,
    source: Pattern,
) -> Result<(), NoMemory>
    requires { MayCall lock.now seat.old }
    ensures called { OnOk result (IsCalled seat.old seat.new stamp (Unregister var source)) }
    ensures uncalled { OnErr result (IsUncalled seat.old seat.new) }
{
    let client = seat.number();
    let mut held = lock.take(rt, seat);
    let answer = held
        .value_mut()
        .unregister(alloc, client, stamp, var, source);
    match answer {
        Ok(()) => lock.give(seat, held),
        Err(_) => lock.give_back(seat, held),
    }
    answer
}

/// The client fetches its mail at this stamp, in milliseconds: all that was mailed to it since its fetch before. It
/// waits for the client's turn.
pub fn fetch<R: Wait>(
    rt: &R,
    alloc: Global,
    lock: &Lock,
    seat: &mut Seat,
    stamp: u64,
) -> Result<Mail, NoMemory>
    requires { MayCall lock.now seat.old }
    ensures fetched { IfOk result (IsFetched seat.old seat.new lock.now.base stamp) }
    ensures uncalled { OnErr result (IsUncalled seat.old seat.new) }
{
    let client = seat.number();
    let mut held = lock.take(rt, seat);
    let answer = held.value_mut().fetch(alloc, client, stamp);
    match &answer {
        Ok(_) => lock.give(seat, held),
        Err(_) => lock.give_back(seat, held),
    }
    answer
}

/// The client fetches its mail at this stamp, in milliseconds, and doesn't read it: no letters are made of it. It waits for the
/// client's turn.
pub fn fetch_unread<R: Wait>(
    rt: &R,
    alloc: Global,
    lock: &Lock,
    seat: &mut Seat,
    stamp: u64,
) -> Result<(), NoMemory>
    requires { MayCall lock.now seat.old }
    ensures called { OnOk result (IsCalled seat.old seat.new stamp Fetch) }
    ensures uncalled { OnErr result (IsUncalled seat.old seat.new) }
{
    let client = seat.number();
    let mut held = lock.take(rt, seat);
    let answer = held.value_mut().fetch_unread(alloc, client, stamp);
    match answer {
        Ok(()) => lock.give(seat, held),
        Err(_) => lock.give_back(seat, held),
    }
    answer
}
