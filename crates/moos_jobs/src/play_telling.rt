// A run whose report is written as it comes: how it begins before the first round, and what each round brings before the next.
ghost use Rattle.std.specs.Prelude.{◌≡◌, ◌+◌, ◌^◌, ◌<◌, ◌≤◌, ◌⊎◌, [], true, length, option_map, IfErr, IfNone, IfOk, IfSome, OnErr, OnOk, Option, List, ℕ};
ghost use Rattle.command_line.specs.Endings.{sinking};
ghost use Rattle.moos_io.specs.BufferedWriting.{IsClear};
ghost use Rattle.moos_jobs.specs.PlayTelling.{TellsLawful};
ghost use Rattle.moos_jobs.specs.Telling.{IsToldSoFar};
ghost use Rattle.moos_play.specs.Lawful.{MayStart, names_with, opening, helm_setup_with};
ghost use Rattle.moos_play.specs.Plays.{clients_in, GoesOnWith, HasCompletion, helm_in, history_in, IsBetween, IsPlayedOut, iterations_made, left_in, order_played, script_played};
ghost use Rattle.moos_report.specs.Lines.{KeepsLines};
ghost use Rattle.script_reader.specs.Validity.{IsValid};

use crate::telling::{tell_end, tell_opening, tell_part};
use command_line::{Status, written};
use moos_io::{BufferedWriter, Gate, Sink};
use moos_play::{HelmRun, Order, Play};
use moos_post::List;
use moos_report::{KeptText, Setup, parts_law};
use script_reader::Script;
use std::alloc::Global;
use std::sync::Wait;
use std::thread::Threads;

/// Plays the script round by round, with this helm or without one, and writes the report of each round before the next one
/// begins.
pub fn play_rounds<R: Threads + Wait + Sync, K: Sink, G: Gate>(
    rt: &R,
    alloc: Global,
    script: &Script,
    helm: Option<HelmRun>,
    setup: &Setup,
    order: Order,
    workers: u32,
    out: &mut K,
    gate: &G,
) -> Status
    requires valid { IsValid script.now }
    requires helm { IfSome helm MayStart }
    requires few { (1 ≤ workers) × (workers ≤ 16) }
    ensures { TellsLawful order script.now (option_map (helm_setup_with script.now) helm) setup.now
        (sinking (K.taken out.old) (K.taken out.new) (K.faults out.old) (K.faults out.new)) result }
{
    match Play::make(rt, alloc, script, helm, List::new(alloc), order, gate) {
        Ok(mut play) => tell(rt, alloc, &mut play, setup, workers, out, gate),
        Err(_) => Status::NoMemory,
    }
}

// Tells a run from its opening to its end.
fn tell<R: Threads + Wait + Sync, K: Sink, G: Gate>(
    rt: &R,
    alloc: Global,
    play: &mut Play,
    setup: &Setup,
    workers: u32,
    out: &mut K,
    gate: &G,
) -> Status
    requires between { IsBetween play.old }
    requires named { clients_in play.old ≡ names_with (script_played play.old) (helm_in play.old) }
    requires begun { history_in play.old ≡ opening (helm_in play.old) }
    requires few { (1 ≤ workers) × (workers ≤ 16) }
    ensures { TellsLawful (order_played play.old) (script_played play.old) (helm_in play.old) setup.now
        (sinking (K.taken out.old) (K.taken out.new) (K.faults out.old) (K.faults out.new)) result }
{
    let mut writer = BufferedWriter::new(out);
    let status = tell_through(rt, alloc, play, setup, workers, &mut writer, gate);
    writer.close();
    status
}

// The same through a writer.
fn tell_through<R: Threads + Wait + Sync, K: Sink, G: Gate>(
    rt: &R,
    alloc: Global,
    play: &mut Play,
    setup: &Setup,
    workers: u32,
    out: &mut BufferedWriter<'_, K>,
    gate: &G,
) -> Status
    requires between { IsBetween play.old }
    requires named { clients_in play.old ≡ names_with (script_played play.old) (helm_in play.old) }
    requires begun { history_in play.old ≡ opening (helm_in play.old) }
    requires clear { IsClear out.old }
    requires few { (1 ≤ workers) × (workers ≤ 16) }
    ensures sink { out.new.out.ghost_name ≡ out.old.out.ghost_name }
    ensures ended { (out.new.failed ≡ true) ⊎ (out.new.buffer ≡ []) }
    ensures told { TellsLawful (order_played play.old) (script_played play.old) (helm_in play.old) setup.now
        (sinking (K.taken out.old.out.now) (K.taken out.new.out.now) (K.faults out.old.out.now) (K.faults out.new.out.now)) result }
{
    play.front_law();
    parts_law();
    let mut kept = KeptText::new(alloc);
    if let Err(_) = tell_opening(rt, play, setup, &mut kept, out) {
        return Status::WriteFault;
    }
    let mut made = 0;
    loop {
        match tell_round(rt, alloc, play, setup, made, workers, &mut kept, out, gate) {
            Ok(Some(more)) => made += more,
            Ok(None) => return written(Status::Done, tell_end(rt, play, out)),
            Err(status) => return status,
        }
    }
}

// Plays the next round and tells it, after `made` iterations of the helm, and answers how many it made in it.
// None if no round is left. The writer is clear before and after, and the lines that are kept are of the play's posts.
fn tell_round<R: Threads + Wait + Sync, K: Sink, G: Gate>(
    rt: &R,
    alloc: Global,
    play: &mut Play,
    setup: &Setup,
    made: u64,
    workers: u32,
    kept: &mut KeptText,
    out: &mut BufferedWriter<'_, K>,
    gate: &G,
) -> Result<Option<u64>, Status>
    requires clear { IsClear out.old }
    requires kept { KeepsLines (clients_in play.old) (history_in play.old) kept.old }
    requires between { IsBetween play.old }
    requires named { clients_in play.old ≡ names_with (script_played play.old) (helm_in play.old) }
    requires made { made ≡ length (iterations_made play.old) }
    requires few { (1 ≤ workers) × (workers ≤ 16) }
    ensures sink { out.new.out.ghost_name ≡ out.old.out.ghost_name }
    ensures clear { OnOk result (IsClear out.new) }
    ensures ended { OnErr result ((out.new.failed ≡ true) ⊎ (out.new.buffer ≡ [])) }
    ensures kept { OnOk result (KeepsLines (clients_in play.new) (history_in play.new) kept.new) }
    ensures between { OnOk result (IsBetween play.new) }
    ensures same { OnOk result (GoesOnWith play.old play.new) }
    ensures fared { OnOk result (K.faults out.new.out.now ≡ K.faults out.old.out.now) }
    ensures made { IfOk result (λ more. IfSome more (λ more. length (iterations_made play.new) ≡ made + more)) }
    ensures few { IfOk result (λ more. IfSome more (λ more. made + more < 2 ^ 64)) }
    ensures less { IfOk result (λ more. IfSome more (λ _. left_in play.new < left_in play.old)) }
    ensures on { IfOk result (λ more. IfSome more (λ _. HasCompletion play.new)) }
    // Whatever was told before.
    ensures told { IfOk result (λ more. IfSome more (λ _. (before : Option (List ℕ))
        → IsToldSoFar setup.now before (K.taken out.old.out.now) play.old → IsToldSoFar setup.now before (K.taken out.new.out.now) play.new)) }
    ensures over { IfOk result (λ more. IfNone more (IsPlayedOut play.new × (play.new ≡ play.old) × (K.taken out.new.out.now ≡ K.taken out.old.out.now))) }
    ensures stopped { IfErr result (λ status. (before : Option (List ℕ)) → HasCompletion play.old → IsToldSoFar setup.now before (K.taken out.old.out.now) play.old
        → TellsLawful (order_played play.old) (script_played play.old) (helm_in play.old) setup.now (sinking before (K.taken out.new.out.now) (K.faults out.old.out.now) (K.faults out.new.out.now)) status) }
{
    parts_law();
    play.front_law();
    let Ok(next) = play.round(rt, alloc, workers, gate) else {
        return Err(Status::NoMemory);
    };
    let Some(round) = next else {
        return Ok(None);
    };
    play.front_law();
    if let Err(_) = tell_part(rt, play, setup, &round, made, kept, out) {
        return Err(Status::WriteFault);
    }
    Ok(Some(round.iterations.len() as u64))
}
