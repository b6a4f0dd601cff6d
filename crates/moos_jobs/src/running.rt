// The top calls: from a command line to what was written and how it ended, and as much of that as waits for nobody.
ghost use Rattle.std.specs.Prelude.{◌≡◌, ℕ, [], List, IfErr, IfOk, OnOk, Result};
ghost use Rattle.command_line.specs.Endings.{EndsFrom, IsUntouched, Surroundings, sinking, surroundings};
ghost use Rattle.command_line.specs.Jobs.{HasFewWorkers};
ghost use Rattle.command_line.specs.declared.status.Status.{Status};
ghost use Rattle.moos_jobs.specs.Jobs.{outcomes, turn_of};
ghost use Rattle.moos_jobs.specs.Loading.{HasLoaded};
ghost use Rattle.moos_jobs.specs.Preparing.{PreparesTo, DeclinesAtOnce, EndsAsItsTask, IsGoodTask, IsLeftToDo, MayWait, MissesAtOnce, ObjectsAtOnce, RefusesAtOnce, RejectsAtOnce, workers_named};
ghost use Rattle.moos_jobs.specs.Run.{Answers, Completes, Declines, EndsWith, Misses, Objects, Refuses, Rejects, Succeeds};
ghost use Rattle.moos_jobs.specs.declared.task.LoadedTask.{LoadedTask};

use crate::loading::{load_task, workers_named};
use crate::performing::{check_decision, perform};
use crate::task::{LoadedTask, Task};
use command_line::{Job, Status, Words, job_named};
use moos_files::Folder;
use moos_io::{Gate, Sink};
use std::alloc::Global;
use std::sync::Wait;
use std::thread::Threads;

/// Runs the job that the command line names as far as it goes without waiting for anyone, so this call always returns: loads and reads
/// its files from `folder`, each before the next is loaded. The error is how the run ended: because the words name no job, or a file
/// couldn't be loaded or is refused, or no memory was left; or because the job was to check a decision, whose answer is then written to
/// `out`. Otherwise all files are good, and a task is left for [`perform`]. [`prepare_law`] says what follows.
pub fn prepare<F: Folder, K: Sink>(
    alloc: Global,
    words: &Words,
    folder: &mut F,
    out: &mut K,
) -> Result<LoadedTask, Status>
    ensures comes { PreparesTo words.now (surroundings (F.told folder.old) (F.sure folder.old) (F.heard folder.old) (F.heard folder.new)
        (sinking (K.taken out.old) (K.taken out.new) (K.faults out.old) (K.faults out.new))) result }

    // The folder tells the same as before, and is sure of the same names.
    ensures same { (F.told folder.new ≡ F.told folder.old) × (F.sure folder.new ≡ F.sure folder.old) }
{
    let named = match job_named(alloc, words) {
        Ok(named) => named,
        Err(_) => return Err(Status::NoMemory),
    };
    match named {
        Some(job) => prepare_job(alloc, &job, folder, out),
        None => Err(Status::Usage),
    }
}

/// What holds of runs before they wait, whatever they came to. A run whose words name no job, or of whose files one is missing or isn't
/// good, is over at once, and its status says so. Where a task is left, the run ends as the task does. It does nothing.
pub fn prepare_law()
    ensures refuses { (words : List (List ℕ)) (run : Surroundings) (result : Result LoadedTask Status) → PreparesTo words run result → RefusesAtOnce words run result }
    ensures declines { (words : List (List ℕ)) (run : Surroundings) (result : Result LoadedTask Status) → PreparesTo words run result → DeclinesAtOnce words run result }
    ensures objects { (words : List (List ℕ)) (run : Surroundings) (result : Result LoadedTask Status) → PreparesTo words run result → ObjectsAtOnce words run result }
    ensures misses { (words : List (List ℕ)) (run : Surroundings) (result : Result LoadedTask Status) → PreparesTo words run result → MissesAtOnce words run result }
    ensures rejects { (words : List (List ℕ)) (run : Surroundings) (result : Result LoadedTask Status) → PreparesTo words run result → RejectsAtOnce words result }
    ensures finishes { (words : List (List ℕ)) (run : Surroundings) (prepared : LoadedTask) → IsLeftToDo words run prepared → EndsAsItsTask words run prepared }
{}

/// Runs the job that the command line names: loads and reads its files from `folder`, each before the next is loaded, and writes
/// to `out`. It is [`prepare`] and then, if a task is left, [`perform`]. The status tells how it ended, and what was written with it;
/// [`run_law`] says what follows if nothing fails.
pub fn run<R: Threads + Wait + Sync, F: Folder, K: Sink, G: Gate>(
    rt: &R,
    alloc: Global,
    words: &Words,
    folder: &mut F,
    out: &mut K,
    gate: &G,
) -> Status
    // What each status says of the words, the files, and what was written.
    ensures ran { EndsWith words.now (surroundings (F.told folder.old) (F.sure folder.old) (F.heard folder.old) (F.heard folder.new)
        (sinking (K.taken out.old) (K.taken out.new) (K.faults out.old) (K.faults out.new))) result }

    // The folder tells the same as before, and is sure of the same names.
    ensures same { (F.told folder.new ≡ F.told folder.old) × (F.sure folder.new ≡ F.sure folder.old) }
{
    match prepare(alloc, words, folder, out) {
        Ok(prepared) => perform(rt, alloc, prepared, out, gate),
        Err(status) => status,
    }
}

/// What holds of runs, whatever they did. If nothing fails, a job whose files are good is done, and another is refused with
/// the first refusal of the first file that isn't. Over a folder that is sure of its files, and a sink with room for all that is
/// written, nothing fails. It does nothing.
pub fn run_law()
    ensures completes { (words : List (List ℕ)) (run : Surroundings) (status : Status) → EndsWith words run status → Completes words run status }
    ensures refuses { (words : List (List ℕ)) (run : Surroundings) (status : Status) → EndsWith words run status → Refuses words run status }
    ensures succeeds { (words : List (List ℕ)) (run : Surroundings) (status : Status) → EndsWith words run status → Succeeds words run status }
    ensures answers { (words : List (List ℕ)) (run : Surroundings) (status : Status) → EndsWith words run status → Answers words run status }
    ensures objects { (words : List (List ℕ)) (run : Surroundings) (status : Status) → EndsWith words run status → Objects words run status }
    ensures declines { (words : List (List ℕ)) (run : Surroundings) (status : Status) → EndsWith words run status → Declines words run status }
    ensures misses { (words : List (List ℕ)) (run : Surroundings) (status : Status) → EndsWith words run status → Misses words run status }
    ensures rejects { (words : List (List ℕ)) (run : Surroundings) (status : Status) → EndsWith words run status → Rejects words status }
{}

// Loads the files of the job, and checks the decision, if it is that.
fn prepare_job<F: Folder, K: Sink>(
    alloc: Global,
    job: &Job,
    folder: &mut F,
    out: &mut K,
) -> Result<LoadedTask, Status>
    requires few { HasFewWorkers job.now }
    ensures ends { IfErr result (EndsFrom outcomes (surroundings (F.told folder.old) (F.sure folder.old) (F.heard folder.old) (F.heard folder.new)
        (sinking (K.taken out.old) (K.taken out.new) (K.faults out.old) (K.faults out.new))) (turn_of job.now) []) }
    ensures loaded { IfOk result (λ prepared. HasLoaded (F.told folder.old) (F.heard folder.old) (F.heard folder.new) (turn_of job.now) prepared.task) }
    ensures waits { IfOk result (λ prepared. MayWait prepared.task) }
    ensures good { IfOk result (λ prepared. IsGoodTask prepared.task) }
    ensures workers { IfOk result (λ prepared. prepared.workers ≡ workers_named job.now) }
    ensures silent { OnOk result (IsUntouched (sinking (K.taken out.old) (K.taken out.new) (K.faults out.old) (K.faults out.new))) }
    ensures same { (F.told folder.new ≡ F.told folder.old) × (F.sure folder.new ≡ F.sure folder.old) }
{
    let task = match load_task(alloc, job, folder) {
        Ok(task) => task,
        Err(status) => return Err(status),
    };
    match task {
        Task::Checking { decision } => Err(check_decision(&decision, out)),
        task => Ok(LoadedTask {
            task,
            workers: workers_named(job),
        }),
    }
}
