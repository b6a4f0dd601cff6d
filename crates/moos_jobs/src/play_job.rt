// The job that plays a script, with the helm of a mission or without one: its files one after another, and its report.
ghost use Rattle.std.specs.Prelude.{◌≡◌, ◌≤◌, ℕ, None, Some, IfErr, IfOk};
ghost use Rattle.command_line.specs.Endings.{Ended, sinking};
ghost use Rattle.command_line.specs.Turns.{Ready};
ghost use Rattle.command_line.specs.declared.job.Job.TheVariants.{Play};
ghost use Rattle.command_line.specs.declared.status.FileKind.TheVariants.{Script as ScriptFile};
ghost use Rattle.moos_jobs.specs.Jobs.{outcomes, turn_of};
ghost use Rattle.moos_jobs.specs.Loading.{AreValidFiles, file_turn, HasLoaded, HasNotLoaded, WasRead};
ghost use Rattle.moos_jobs.specs.Preparing.{IsGoodTask};
ghost use Rattle.moos_jobs.specs.declared.task.Task.TheVariants.{Playing};
ghost use Rattle.script_reader.specs.Script.{script_of};
ghost use Rattle.script_reader.specs.Validity.{IsValid};

use crate::helm_files::{FittedHelm, HelmFiles, fit_helm, load_helm};
use crate::play_telling::play_rounds;
use crate::task::Task;
use command_line::{FileKind, Status, load, refused, unloaded};
use helm_core::{names_law, plan_law, worth_law};
use helm_laws::reliable_law;
use moos_files::Folder;
use moos_io::{Gate, Sink};
use moos_play::Order;
use moos_post::Txt;
use moos_report::{report_law, setup_without_helm};
use script_reader::{Script, read_script};
use std::alloc::Global;
use std::sync::Wait;
use std::thread::Threads;

/// Loads and reads the script, and, if the mission of this name is to be played too, that and its behaviour file.
pub fn load_play<F: Folder>(
    alloc: Global,
    name: &Txt,
    mission: &Option<Txt>,
    order: Order,
    folder: &mut F,
) -> Result<Task, Status>
    ensures good { IfOk result IsGoodTask }
    // By however many workers it is played.
    ensures loaded { IfOk result (λ task. (workers : ℕ) → HasLoaded (F.told folder.old) (F.heard folder.old) (F.heard folder.new) (turn_of (Play name.now mission.now order workers)) task) }
    ensures ends { IfErr result (λ status. (workers : ℕ) → HasNotLoaded (F.told folder.old) (F.sure folder.old) (F.heard folder.old) (F.heard folder.new) (turn_of (Play name.now mission.now order workers)) status) }
    ensures same { (F.told folder.new ≡ F.told folder.old) × (F.sure folder.new ≡ F.sure folder.old) }
{
    let script = match load_script(alloc, name, folder) {
        Ok(script) => script,
        Err(status) => return Err(status),
    };
    let Some(mission) = mission else {
        return Ok(Task::Playing {
            order,
            script,
            helm: None,
        });
    };
    let files = match load_helm(alloc, &script, mission, folder) {
        Ok(files) => files,
        Err(status) => return Err(status),
    };
    Ok(Task::Playing {
        order,
        script,
        helm: Some(files),
    })
}

// Loads and reads the script of this name.
fn load_script<F: Folder>(alloc: Global, name: &Txt, folder: &mut F) -> Result<Script, Status>
    ensures valid { IfOk result IsValid }
    ensures read { IfOk result (WasRead (F.told folder.old) (F.heard folder.old) (F.heard folder.new) name.now script_of) }
    ensures ends { IfErr result (HasNotLoaded (F.told folder.old) (F.sure folder.old) (F.heard folder.old) (F.heard folder.new) (file_turn ScriptFile name.now script_of)) }
    ensures same { (F.told folder.new ≡ F.told folder.old) × (F.sure folder.new ≡ F.sure folder.old) }
{
    let bytes = match load(alloc, folder, name.bytes()) {
        Ok(bytes) => bytes,
        Err(fault) => return Err(unloaded(fault)),
    };
    match read_script(alloc, &bytes) {
        Ok(script) => Ok(script),
        Err(fault) => Err(refused(FileKind::Script, fault)),
    }
}

/// Plays the script with the helm of these files or without one, and writes its report as it comes. The helm has this many `workers`.
pub fn play_script<R: Threads + Wait + Sync, K: Sink, G: Gate>(
    rt: &R,
    alloc: Global,
    order: Order,
    script: &Script,
    helm: Option<HelmFiles>,
    workers: u32,
    out: &mut K,
    gate: &G,
) -> Status
    requires few { (1 ≤ workers) × (workers ≤ 16) }
    requires good { IsGoodTask (Playing order script.now helm) }
    ensures { Ended outcomes (Ready (Playing order script.now helm))
        (sinking (K.taken out.old) (K.taken out.new) (K.faults out.old) (K.faults out.new)) result }
{
    match helm {
        Some(files) => play_helm(rt, alloc, script, files, order, workers, out, gate),
        None => play_alone(rt, alloc, script, order, out, gate),
    }
}

// Plays the script with a helm of these files, and writes its report as it comes.
fn play_helm<R: Threads + Wait + Sync, K: Sink, G: Gate>(
    rt: &R,
    alloc: Global,
    script: &Script,
    files: HelmFiles,
    order: Order,
    workers: u32,
    out: &mut K,
    gate: &G,
) -> Status
    requires few { (1 ≤ workers) × (workers ≤ 16) }
    requires valid { IsValid script.now }
    requires files { AreValidFiles files }
    ensures { Ended outcomes (Ready (Playing order script.now (Some files)))
        (sinking (K.taken out.old) (K.taken out.new) (K.faults out.old) (K.faults out.new)) result }
{
    let Ok(fitted) = fit_helm(alloc, files) else {
        return Status::NoMemory;
    };
    let FittedHelm { run, setup } = fitted;
    plan_law();
    worth_law();
    names_law();
    reliable_law();
    report_law();
    play_rounds(
        rt,
        alloc,
        script,
        Some(run),
        &setup,
        order,
        workers,
        out,
        gate,
    )
}

// Plays the script without a helm, and writes its report as it comes.
fn play_alone<R: Threads + Wait + Sync, K: Sink, G: Gate>(
    rt: &R,
    alloc: Global,
    script: &Script,
    order: Order,
    out: &mut K,
    gate: &G,
) -> Status
    requires valid { IsValid script.now }
    ensures { Ended outcomes (Ready (Playing order script.now None)) (sinking (K.taken out.old) (K.taken out.new) (K.faults out.old) (K.faults out.new)) result }
{
    report_law();
    let setup = setup_without_helm(alloc);
    play_rounds(rt, alloc, script, None, &setup, order, 1, out, gate)
}
