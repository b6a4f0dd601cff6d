// The job that makes a mission from a number, plays it, and sums it up.
ghost use Rattle.std.specs.Prelude.{◌≡◌, ◌<◌, ℕ, false, IfOk, IsTrue, Ok, OnOk, true};
ghost use Rattle.command_line.specs.Endings.{Ended, sinking};
ghost use Rattle.command_line.specs.Turns.{Ready};
ghost use Rattle.mission_maker.specs.Generated.{generated_script};
ghost use Rattle.mission_maker.specs.Stamps.{rise_within};
ghost use Rattle.moos_jobs.specs.Generating.{IsSurvey, WasGenerated};
ghost use Rattle.moos_jobs.specs.Jobs.{outcomes};
ghost use Rattle.moos_jobs.specs.declared.task.Task.TheVariants.{Generating};
ghost use Rattle.moos_jobs.specs.Summary.{AreBoundedCounts, iterations_counted};
ghost use Rattle.moos_play.specs.Lawful.{names_with, opening};
ghost use Rattle.moos_play.specs.Plays.{clients_in, GoesOnWith, helm_in, history_in, IsBetween, IsPlayedOut, iterations_made, left_in, script_played};
ghost use Rattle.script_reader.specs.Validity.{IsValid};

use crate::counts::IterationCounts;
use crate::sole_history::sole_history_law;
use crate::summary::summary;
use command_line::{Status, written};
use helm_core::{Helm, names_law, worth_law};
use helm_laws::reliable_law;
use mission_maker::{make_behaviors, make_mission, make_script};
use moos_db::Db;
use moos_io::{Gate, Sink};
use moos_play::{HelmRun, Order, Play, Ran};
use moos_post::{List, NoMemory};
use script_reader::Script;
use std::alloc::Global;
use std::sync::Wait;
use std::thread::Threads;

// A database after a run, and what was counted of the helm's iterations in it.
#[derive(Drop)]
struct Counted {
    db: Db,
    iterations: IterationCounts,
}

/// Plays the mission of this number by one worker, and writes its summary.
pub fn generate<R: Threads + Wait + Sync, K: Sink, G: Gate>(
    rt: &R,
    alloc: Global,
    number: u64,
    out: &mut K,
    gate: &G,
) -> Status
    ensures { Ended outcomes (Ready (Generating number)) (sinking (K.taken out.old) (K.taken out.new) (K.faults out.old) (K.faults out.new)) result }
{
    match play_generated(rt, alloc, number, gate) {
        Ok(counted) => {
            sole_history_law();
            worth_law();
            names_law();
            reliable_law();
            written(
                Status::Done,
                summary(number, &counted.db, &counted.iterations, out),
            )
        }
        Err(_) => Status::NoMemory,
    }
}

// Plays the mission of this number by one worker.
fn play_generated<R: Threads + Wait + Sync, G: Gate>(
    rt: &R,
    alloc: Global,
    number: u64,
    gate: &G,
) -> Result<Counted, NoMemory>
    ensures { IfOk result (λ counted. WasGenerated number counted.db.names counted.db.history counted.iterations) }
{
    let script = make_script(alloc, number)?;
    play_survey(rt, alloc, &script, gate)
}

// Plays the script with the survey's helm by one worker, and counts the helm's iterations as they come.
fn play_survey<R: Threads + Wait + Sync, G: Gate>(
    rt: &R,
    alloc: Global,
    script: &Script,
    gate: &G,
) -> Result<Counted, NoMemory>
    requires valid { IsValid script.now }
    // Whichever number the script was made from.
    ensures { (number : ℕ) → script.now ≡ generated_script number → IsTrue (rise_within 0 600000 script.now.lines)
        → IfOk result (λ counted. WasGenerated number counted.db.names counted.db.history counted.iterations) }
{
    let survey = survey_run(alloc)?;
    let further = List::new(alloc);
    let mut play = Play::make(rt, alloc, script, Some(survey), further, Order::Stamp, gate)?;
    let iterations = count_rounds(rt, alloc, &mut play, gate)?;
    let Ran { db, iterations: _ } = play.end(alloc);
    Ok(Counted { db, iterations })
}

// Plays all rounds of a run by one worker, and counts the helm's iterations in them.
fn count_rounds<R: Threads + Wait + Sync, G: Gate>(
    rt: &R,
    alloc: Global,
    play: &mut Play,
    gate: &G,
) -> Result<IterationCounts, NoMemory>
    requires between { IsBetween play.old }
    requires named { clients_in play.old ≡ names_with (script_played play.old) (helm_in play.old) }
    requires begun { history_in play.old ≡ opening (helm_in play.old) }
    ensures between { OnOk result (IsBetween play.new) }
    ensures same { OnOk result (GoesOnWith play.old play.new) }
    ensures over { OnOk result (IsPlayedOut play.new) }
    ensures counted { IfOk result (λ counted. counted ≡ iterations_counted (iterations_made play.new)) }
{
    play.front_law();
    let mut counted = IterationCounts::new();
    while count_round(rt, alloc, play, &mut counted, gate)? {}
    Ok(counted)
}

// Plays the next round by one worker, counts the helm's iterations in it too, and drops them. False if no round is left.
fn count_round<R: Threads + Wait + Sync, G: Gate>(
    rt: &R,
    alloc: Global,
    play: &mut Play,
    counted: &mut IterationCounts,
    gate: &G,
) -> Result<bool, NoMemory>
    requires between { IsBetween play.old }
    requires bounded { AreBoundedCounts counted.old }
    requires counted { counted.old ≡ iterations_counted (iterations_made play.old) }
    ensures between { OnOk result (IsBetween play.new) }
    ensures same { OnOk result (GoesOnWith play.old play.new) }
    ensures bounded { OnOk result (AreBoundedCounts counted.new) }
    ensures counted { OnOk result (counted.new ≡ iterations_counted (iterations_made play.new)) }
    ensures less { result ≡ Ok true → left_in play.new < left_in play.old }
    ensures over { result ≡ Ok false → IsPlayedOut play.new }
{
    let Some(round) = play.round(rt, alloc, 1, gate)? else {
        return Ok(false);
    };
    play.front_law();
    counted.add(round.iterations.all());
    Ok(true)
}

// The survey's helm before its first tick.
fn survey_run(alloc: Global) -> Result<HelmRun, NoMemory>
    ensures { IfOk result IsSurvey }
{
    let mission = make_mission(alloc)?;
    let file = make_behaviors(alloc, &mission)?;
    let helm = Helm::make(alloc, &mission, file)?;
    Ok(HelmRun {
        helm,
        period: mission.period,
    })
}
