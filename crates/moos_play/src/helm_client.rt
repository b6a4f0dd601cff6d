// The helm at its seat: its ticks as calls.
ghost use Rattle.std.specs.Prelude.{◌≡◌, ◌≤◌, ◌<◌, ◌+◌, ◌^◌, ◌++◌, ◌∷◌, [], IfOk, OnErr, OnOk};
ghost use Rattle.helm_core.specs.Helms.{clock_of};
ghost use Rattle.moos_client.specs.Calls.{IsCalled, MayCall};
ghost use Rattle.moos_step.specs.Steps.{IsAlone};
ghost use Rattle.moos_post.specs.declared.entry.Call.TheVariants.{Fetch, Post as Posts};
ghost use Rattle.moos_play.specs.Steered.{HasIterated, HasLed, HasSteered, MayHaveCalled, MayLead, MaySteer};

use helm_core::{Helm, Iteration};
use moos_client::{Lock, Seat, fetch, post};
use moos_io::Gate;
use moos_post::{Batch, Copied, List, NoMemory};
use moos_step::see_all;
use std::alloc::Global;
use std::sync::Wait;
use std::thread::Threads;

/// What the helm answered at its ticks, in order.
pub type Iterations = List<Iteration>;

/// The helm at play: its number, the milliseconds from one tick to the next, how many ticks and how many calls it has made,
/// and its iterations that weren't handed out.
#[derive(Drop)]
pub(crate) struct HelmClient {
    pub(crate) helm: Helm,
    pub(crate) number: u32,
    pub(crate) period: u64,
    pub(crate) ticks: u64,
    pub(crate) calls: u64,
    pub(crate) iterations: Iterations,
}

/// The helm makes its ticks until it has made `ticks`, or finds no memory.
pub(crate) fn steer<R: Threads + Wait + Sync, G: Gate>(
    rt: &R,
    alloc: Global,
    lock: &Lock,
    seat: &mut Seat,
    helm_client: &mut HelmClient,
    ticks: u64,
    workers: u32,
    gate: &G,
) -> Result<(), NoMemory>
    requires { MaySteer lock.now seat.old helm_client.old ticks workers }
    ensures { HasSteered lock.now ticks seat.old seat.new helm_client.old helm_client.new result }
{
    while helm_client.ticks < ticks {
        tick(rt, alloc, lock, seat, helm_client, workers, gate)?;
    }
    Ok(())
}

/// The helm's next call is told to the gate, and counted.
pub(crate) fn count_call<G: Gate>(helm_client: &mut HelmClient, gate: &G)
    ensures { helm_client.new ≡ record helm_client.old { calls = helm_client.new.calls } }
{
    gate.at_call(helm_client.number, helm_client.calls);
    helm_client.calls = helm_client.calls.saturating_add(1);
}

// The helm makes its next tick: it fetches its mail, and posts what its iteration over that says.
fn tick<R: Threads + Wait + Sync, G: Gate>(
    rt: &R,
    alloc: Global,
    lock: &Lock,
    seat: &mut Seat,
    helm_client: &mut HelmClient,
    workers: u32,
    gate: &G,
) -> Result<(), NoMemory>
    requires steer { MaySteer lock.now seat.old helm_client.old (helm_client.old.ticks + 1) workers }
    requires more { helm_client.old.ticks + 1 < 2 ^ 64 }
    ensures { HasSteered lock.now (helm_client.old.ticks + 1) seat.old seat.new helm_client.old helm_client.new result }
{
    let stamp = helm_client.ticks * helm_client.period;
    count_call(helm_client, gate);
    let iteration = iterate(
        rt,
        alloc,
        lock,
        seat,
        &mut helm_client.helm,
        stamp,
        workers,
        gate,
    )?;
    count_call(helm_client, gate);
    post_iteration(
        rt,
        alloc,
        lock,
        seat,
        &mut helm_client.iterations,
        stamp,
        iteration,
    )?;
    helm_client.ticks += 1;
    Ok(())
}

// The helm fetches its mail, and makes its iteration of that. If no memory is left it is as it was.
fn iterate<R: Threads + Wait + Sync, G: Gate>(
    rt: &R,
    alloc: Global,
    lock: &Lock,
    seat: &mut Seat,
    helm: &mut Helm,
    stamp: u64,
    workers: u32,
    gate: &G,
) -> Result<Iteration, NoMemory>
    requires may { MayCall lock.now seat.old }
    requires clock { clock_of helm.old ≤ stamp }
    requires workers { (1 ≤ workers) × (workers ≤ 16) }
    ensures iterated { IfOk result (HasIterated lock.now.base seat.old seat.new helm.old helm.new stamp) }
    ensures same { OnErr result (helm.new ≡ helm.old) }
    ensures stopped { OnErr result (MayHaveCalled seat.old seat.new stamp Fetch) }
{
    let mail = fetch(rt, alloc, lock, seat, stamp)?;
    helm.tick(rt, alloc, stamp, &mail, workers, gate)
}

// The helm posts what its iteration says, and keeps that.
fn post_iteration<R: Wait>(
    rt: &R,
    alloc: Global,
    lock: &Lock,
    seat: &mut Seat,
    iterations: &mut Iterations,
    stamp: u64,
    iteration: Iteration,
) -> Result<(), NoMemory>
    requires { MayCall lock.now seat.old }
    ensures posted { OnOk result (IsCalled seat.old seat.new stamp (Posts iteration.posts)) }
    ensures kept { OnOk result (iterations.new ≡ iterations.old ++ iteration ∷ []) }
    ensures stopped { OnErr result (MayHaveCalled seat.old seat.new stamp (Posts iteration.posts)) }
{
    post_copy(rt, alloc, lock, seat, stamp, &iteration.posts)?;
    iterations.add(iteration)?;
    Ok(())
}

// The helm posts the same as these pairs.
fn post_copy<R: Wait>(
    rt: &R,
    alloc: Global,
    lock: &Lock,
    seat: &mut Seat,
    stamp: u64,
    pairs: &Batch,
) -> Result<(), NoMemory>
    requires { MayCall lock.now seat.old }
    ensures posted { OnOk result (IsCalled seat.old seat.new stamp (Posts pairs.now)) }
    ensures stopped { OnErr result (MayHaveCalled seat.old seat.new stamp (Posts pairs.now)) }
{
    post(rt, alloc, lock, seat, stamp, pairs.copy(alloc)?)?;
    Ok(())
}

/// The helm makes its ticks until it has made `ticks`, while no other client makes a call. Then the first seat has its
/// seat again, even if memory is missing.
pub(crate) fn lead<R: Threads + Wait + Sync, G: Gate>(
    rt: &R,
    alloc: Global,
    lock: &Lock,
    first: &mut Seat,
    helm_client: &mut HelmClient,
    ticks: u64,
    workers: u32,
    gate: &G,
) -> Result<(), NoMemory>
    requires { MayLead lock.now first.old helm_client.old ticks workers }
    ensures { HasLed lock.now (IsAlone helm_client.old.number) ticks first.old first.new helm_client.old helm_client.new result }
{
    let answer = if helm_client.number == 0 {
        steer(rt, alloc, lock, first, helm_client, ticks, workers, gate)
    } else {
        let mut seat = lock.part(first, helm_client.number);
        let answer = steer(
            rt,
            alloc,
            lock,
            &mut seat,
            helm_client,
            ticks,
            workers,
            gate,
        );
        lock.meet(first, seat);
        answer
    };
    see_all(lock, first);
    answer
}
