// The first step of a job: all its files are loaded and read, which waits for nobody.
ghost use Rattle.std.specs.Prelude.{◌≡◌, IfErr, IfOk, IsTrue};
ghost use Rattle.command_line.specs.declared.status.FileKind.TheVariants.{Decision as DecisionFile, Problem as ProblemFile};
ghost use Rattle.ivp_cert.specs.Decisions.{decision_of};
ghost use Rattle.ivp_cert.specs.Problems.{problem_of};
ghost use Rattle.ivp_domain.specs.Domains.{is_point};
ghost use Rattle.moos_jobs.specs.Jobs.{turn_of};
ghost use Rattle.moos_jobs.specs.Loading.{file_turn, HasLoaded, HasNotLoaded, WasRead};
ghost use Rattle.moos_jobs.specs.Preparing.{IsGoodTask, workers_named};

use crate::play_job::load_play;
use crate::share_job::load_share;
use crate::simulate_job::load_simulation;
use crate::task::Task;
use command_line::{FileKind, Job, Status, load, refused, unloaded};
use ivp_cert::{Decision, read_decision, read_problem};
use ivp_problem::Problem;
use moos_files::Folder;
use moos_post::Txt;
use std::alloc::Global;

/// Loads and reads the files of a job, each before the next is loaded, and gives what is to be done with them. The error is how the job
/// ends that has to do without one.
pub fn load_task<F: Folder>(alloc: Global, job: &Job, folder: &mut F) -> Result<Task, Status>
    ensures good { IfOk result IsGoodTask }
    ensures loaded { IfOk result (HasLoaded (F.told folder.old) (F.heard folder.old) (F.heard folder.new) (turn_of job.now)) }
    ensures ends { IfErr result (HasNotLoaded (F.told folder.old) (F.sure folder.old) (F.heard folder.old) (F.heard folder.new) (turn_of job.now)) }
    ensures same { (F.told folder.new ≡ F.told folder.old) × (F.sure folder.new ≡ F.sure folder.old) }
{
    match job {
        Job::Play {
            script,
            mission,
            order,
            workers: _,
        } => match load_play(alloc, script, mission, *order, folder) {
            Ok(task) => Ok(task),
            Err(status) => Err(status),
        },
        Job::Solve {
            problem,
            workers: _,
        } => match load_problem(alloc, problem, folder) {
            Ok(problem) => Ok(Task::Solving { problem }),
            Err(status) => Err(status),
        },
        Job::Check { decision } => match load_decision(alloc, decision, folder) {
            Ok(decision) => Ok(Task::Checking { decision }),
            Err(status) => Err(status),
        },
        Job::Generate { number } => Ok(Task::Generating { number: *number }),
        Job::Share {
            first,
            second,
            bridge,
            order,
        } => match load_share(alloc, first, second, bridge, *order, folder) {
            Ok(task) => Ok(Task::Sharing { task }),
            Err(status) => Err(status),
        },
        Job::Simulate {
            script,
            mission,
            vehicle,
            contacts,
            workers: _,
        } => match load_simulation(alloc, script, mission, vehicle, contacts, folder) {
            Ok(task) => Ok(Task::Simulating { task }),
            Err(status) => Err(status),
        },
    }
}

/// By how many workers a job is done: one, if the words can't say it.
pub fn workers_named(job: &Job) -> u32
    ensures { result ≡ workers_named job.now }
{
    match job {
        Job::Play { workers, .. } | Job::Solve { workers, .. } | Job::Simulate { workers, .. } => {
            *workers
        }
        Job::Check { .. } | Job::Generate { .. } | Job::Share { .. } => 1,
    }
}

// Loads and reads the problem of this name.
fn load_problem<F: Folder>(alloc: Global, name: &Txt, folder: &mut F) -> Result<Problem, Status>
    ensures read { IfOk result (WasRead (F.told folder.old) (F.heard folder.old) (F.heard folder.new) name.now problem_of) }
    ensures ends { IfErr result (HasNotLoaded (F.told folder.old) (F.sure folder.old) (F.heard folder.old) (F.heard folder.new) (file_turn ProblemFile name.now problem_of)) }
    ensures same { (F.told folder.new ≡ F.told folder.old) × (F.sure folder.new ≡ F.sure folder.old) }
{
    let bytes = match load(alloc, folder, name.bytes()) {
        Ok(bytes) => bytes,
        Err(fault) => return Err(unloaded(fault)),
    };
    match read_problem(alloc, &bytes) {
        Ok(problem) => Ok(problem),
        Err(fault) => Err(refused(FileKind::Problem, fault)),
    }
}

// Loads and reads the decision of this name.
fn load_decision<F: Folder>(alloc: Global, name: &Txt, folder: &mut F) -> Result<Decision, Status>
    ensures point { IfOk result (λ decision. IsTrue (is_point decision.problem.axes decision.claim.point)) }
    ensures read { IfOk result (WasRead (F.told folder.old) (F.heard folder.old) (F.heard folder.new) name.now decision_of) }
    ensures ends { IfErr result (HasNotLoaded (F.told folder.old) (F.sure folder.old) (F.heard folder.old) (F.heard folder.new) (file_turn DecisionFile name.now decision_of)) }
    ensures same { (F.told folder.new ≡ F.told folder.old) × (F.sure folder.new ≡ F.sure folder.old) }
{
    let bytes = match load(alloc, folder, name.bytes()) {
        Ok(bytes) => bytes,
        Err(fault) => return Err(unloaded(fault)),
    };
    match read_decision(alloc, &bytes) {
        Ok(decision) => Ok(decision),
        Err(fault) => Err(refused(FileKind::Decision, fault)),
    }
}
