// A play beside a vehicle whose report is written as it comes: how it begins before the first round, and what each round brings before
// the next.
ghost use Rattle.std.specs.Prelude.{◌≡◌, ◌+◌, ◌++◌, ◌^◌, ◌<◌, ◌≤◌, ◌⊎◌, [], true, length, IfErr, IfNone, IfOk, IfSome, OnErr, OnOk, Option, List, Some, ℕ};
ghost use Rattle.command_line.specs.Endings.{sinking};
ghost use Rattle.moos_io.specs.BufferedWriting.{IsClear};
ghost use Rattle.moos_jobs.specs.Simulating.{IsOfSimulation, TellsVoyage};
ghost use Rattle.moos_jobs.specs.declared.task.Simulation.{Simulation};
ghost use Rattle.moos_jobs.specs.Telling.{IsToldSoFar};
ghost use Rattle.moos_play.specs.Lawful.{MayStart, names_with, helm_setup_with};
ghost use Rattle.moos_play.specs.Plays.{clients_in, GoesOnWith, helm_in, history_in, iterations_made, left_in, script_played};
ghost use Rattle.moos_report.specs.Lines.{KeepsLines};
ghost use Rattle.moos_simulate.specs.Sailing.{IsSailedOut, IsSimulating, MayLaunch, pid_number};
ghost use Rattle.moos_simulate.specs.Simulated.{gear_names};
ghost use Rattle.script_reader.specs.Validity.{IsValid};

use crate::telling::{tell_end, tell_opening, tell_part};
use command_line::{Status, written};
use moos_io::{BufferedWriter, Gate, Sink};
use moos_play::{HelmRun, Order, Play};
use moos_post::NoMemory;
use moos_report::{KeptText, Setup, parts_law};
use moos_simulate::{Gear, Vehicle, vehicle_names};
use script_reader::Script;
use std::alloc::Global;
use std::sync::Wait;
use std::thread::Threads;

/// Plays the script with this helm, which steers a vehicle of this gear, round by round, and writes the report of each round before the
/// next one begins.
pub fn sail<R: Threads + Wait + Sync, K: Sink, G: Gate>(
    rt: &R,
    alloc: Global,
    script: &Script,
    helm: HelmRun,
    gear: Gear,
    setup: &Setup,
    workers: u32,
    out: &mut K,
    gate: &G,
) -> Status
    requires valid { IsValid script.now }
    requires helm { MayStart helm }
    requires period { helm.period ≤ 10 ^ 6 }
    requires few { (1 ≤ workers) × (workers ≤ 16) }
    // Whichever simulation this is.
    ensures { (task : Simulation) → IsOfSimulation task setup.now gear script.now (Some (helm_setup_with script.now helm)) (names_with script.now (Some helm) ++ gear_names gear)
        → TellsVoyage task (sinking (K.taken out.old) (K.taken out.new) (K.faults out.old) (K.faults out.new)) result }
{
    let period = helm.period;
    let pid_client = script.names.len() as u32 + 1;
    match play_beside(rt, alloc, script, helm, &gear, gate) {
        Ok(mut play) => launch(
            rt, alloc, &mut play, gear, period, pid_client, setup, workers, out, gate,
        ),
        Err(_) => Status::NoMemory,
    }
}

// A play of the script with this helm, to which the clients of a vehicle of this gear may come.
fn play_beside<'a, R: Threads + Wait + Sync, G: Gate>(
    rt: &R,
    alloc: Global,
    script: &'a Script,
    helm: HelmRun,
    gear: &Gear,
    gate: &G,
) -> Result<Play<'a>, NoMemory>
    requires valid { IsValid script.now }
    requires helm { MayStart helm }
    requires period { helm.period ≤ 10 ^ 6 }
    ensures script { IfOk result (λ play. script_played play ≡ script.now) }
    ensures helm { IfOk result (λ play. helm_in play ≡ Some (helm_setup_with script.now helm)) }
    ensures names { IfOk result (λ play. clients_in play ≡ names_with script.now (Some helm) ++ gear_names gear.now) }
    ensures launch { IfOk result (MayLaunch gear.now helm.period (pid_number script.now)) }
{
    let names = vehicle_names(alloc, gear.ranges.is_some())?;
    Play::make(rt, alloc, script, Some(helm), names, Order::Stamp, gate)
}

// Has the vehicle's clients make their openings, and tells the play.
fn launch<R: Threads + Wait + Sync, K: Sink, G: Gate>(
    rt: &R,
    alloc: Global,
    play: &mut Play,
    gear: Gear,
    period: u64,
    pid_client: u32,
    setup: &Setup,
    workers: u32,
    out: &mut K,
    gate: &G,
) -> Status
    requires launch { MayLaunch gear period pid_client play.old }
    requires few { (1 ≤ workers) × (workers ≤ 16) }
    ensures { (task : Simulation) → IsOfSimulation task setup.now gear (script_played play.old) (helm_in play.old) (clients_in play.old)
        → TellsVoyage task (sinking (K.taken out.old) (K.taken out.new) (K.faults out.old) (K.faults out.new)) result }
{
    match Vehicle::launch(rt, alloc, play, gear, period, pid_client) {
        Ok(mut vehicle) => tell(rt, alloc, play, &mut vehicle, setup, workers, out, gate),
        Err(_) => Status::NoMemory,
    }
}

// Tells a play from its openings to its end.
fn tell<R: Threads + Wait + Sync, K: Sink, G: Gate>(
    rt: &R,
    alloc: Global,
    play: &mut Play,
    vehicle: &mut Vehicle,
    setup: &Setup,
    workers: u32,
    out: &mut K,
    gate: &G,
) -> Status
    requires simulating { IsSimulating vehicle.old play.old }
    requires begun { iterations_made play.old ≡ [] }
    requires few { (1 ≤ workers) × (workers ≤ 16) }
    ensures { (task : Simulation) → IsOfSimulation task setup.now vehicle.old.gear (script_played play.old) (helm_in play.old) (clients_in play.old)
        → TellsVoyage task (sinking (K.taken out.old) (K.taken out.new) (K.faults out.old) (K.faults out.new)) result }
{
    let mut writer = BufferedWriter::new(out);
    let status = tell_through(rt, alloc, play, vehicle, setup, workers, &mut writer, gate);
    writer.close();
    status
}

// The same through a writer.
fn tell_through<R: Threads + Wait + Sync, K: Sink, G: Gate>(
    rt: &R,
    alloc: Global,
    play: &mut Play,
    vehicle: &mut Vehicle,
    setup: &Setup,
    workers: u32,
    out: &mut BufferedWriter<'_, K>,
    gate: &G,
) -> Status
    requires simulating { IsSimulating vehicle.old play.old }
    requires begun { iterations_made play.old ≡ [] }
    requires clear { IsClear out.old }
    requires few { (1 ≤ workers) × (workers ≤ 16) }
    ensures sink { out.new.out.ghost_name ≡ out.old.out.ghost_name }
    ensures ended { (out.new.failed ≡ true) ⊎ (out.new.buffer ≡ []) }
    ensures told { (task : Simulation) → IsOfSimulation task setup.now vehicle.old.gear (script_played play.old) (helm_in play.old) (clients_in play.old)
        → TellsVoyage task (sinking (K.taken out.old.out.now) (K.taken out.new.out.now) (K.faults out.old.out.now) (K.faults out.new.out.now)) result }
{
    parts_law();
    vehicle.front_law(play);
    play.front_law();
    let mut kept = KeptText::new(alloc);
    if let Err(_) = tell_opening(rt, play, setup, &mut kept, out) {
        return Status::WriteFault;
    }
    let mut made = 0;
    loop {
        match tell_round(
            rt, alloc, play, vehicle, setup, made, workers, &mut kept, out, gate,
        ) {
            Ok(Some(more)) => made += more,
            Ok(None) => return written(Status::Done, tell_end(rt, play, out)),
            Err(status) => return status,
        }
    }
}

// Plays the next round and tells it, after `made` iterations of the helm, and answers how many it made in it.
// None if no round is left. The writer is clear before and after, and the lines that are kept are of the play's posts.
fn tell_round<R: Threads + Wait + Sync, K: Sink, G: Gate>(
    rt: &R,
    alloc: Global,
    play: &mut Play,
    vehicle: &mut Vehicle,
    setup: &Setup,
    made: u64,
    workers: u32,
    kept: &mut KeptText,
    out: &mut BufferedWriter<'_, K>,
    gate: &G,
) -> Result<Option<u64>, Status>
    requires clear { IsClear out.old }
    requires kept { KeepsLines (clients_in play.old) (history_in play.old) kept.old }
    requires simulating { IsSimulating vehicle.old play.old }
    requires made { made ≡ length (iterations_made play.old) }
    requires few { (1 ≤ workers) × (workers ≤ 16) }
    ensures sink { out.new.out.ghost_name ≡ out.old.out.ghost_name }
    ensures clear { OnOk result (IsClear out.new) }
    ensures ended { OnErr result ((out.new.failed ≡ true) ⊎ (out.new.buffer ≡ [])) }
    ensures kept { OnOk result (KeepsLines (clients_in play.new) (history_in play.new) kept.new) }
    ensures simulating { OnOk result (IsSimulating vehicle.new play.new) }
    ensures gear { OnOk result (vehicle.new.gear ≡ vehicle.old.gear) }
    ensures same { OnOk result (GoesOnWith play.old play.new) }
    ensures fared { OnOk result (K.faults out.new.out.now ≡ K.faults out.old.out.now) }
    ensures made { IfOk result (λ more. IfSome more (λ more. length (iterations_made play.new) ≡ made + more)) }
    ensures few { IfOk result (λ more. IfSome more (λ more. made + more < 2 ^ 64)) }
    ensures less { IfOk result (λ more. IfSome more (λ _. left_in play.new < left_in play.old)) }
    // Whatever was told before.
    ensures told { IfOk result (λ more. IfSome more (λ _. (before : Option (List ℕ))
        → IsToldSoFar setup.now before (K.taken out.old.out.now) play.old → IsToldSoFar setup.now before (K.taken out.new.out.now) play.new)) }
    ensures over { IfOk result (λ more. IfNone more (IsSailedOut vehicle.old.gear play.new × (play.new ≡ play.old) × (K.taken out.new.out.now ≡ K.taken out.old.out.now))) }
    ensures stopped { IfErr result (λ status. (task : Simulation) (before : Option (List ℕ))
        → IsOfSimulation task setup.now vehicle.old.gear (script_played play.old) (helm_in play.old) (clients_in play.old)
        → IsToldSoFar setup.now before (K.taken out.old.out.now) play.old
        → TellsVoyage task (sinking before (K.taken out.new.out.now) (K.faults out.old.out.now) (K.faults out.new.out.now)) status) }
{
    parts_law();
    vehicle.front_law(play);
    play.front_law();
    let Ok(next) = vehicle.round(rt, alloc, play, workers, gate) else {
        return Err(Status::NoMemory);
    };
    let Some(round) = next else {
        return Ok(None);
    };
    vehicle.front_law(play);
    play.front_law();
    if let Err(_) = tell_part(rt, play, setup, &round, made, kept, out) {
        return Err(Status::WriteFault);
    }
    Ok(Some(round.iterations.len() as u64))
}
