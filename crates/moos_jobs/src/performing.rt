// The second step of a job: what its files stand for is done, and written.
ghost use Rattle.std.specs.Prelude.{◌≤◌, IsTrue};
ghost use Rattle.command_line.specs.Endings.{Ended, sinking};
ghost use Rattle.command_line.specs.Turns.{Ready};
ghost use Rattle.ivp_domain.specs.Domains.{is_point};
ghost use Rattle.moos_jobs.specs.Jobs.{outcomes};
ghost use Rattle.moos_jobs.specs.Preparing.{IsGoodTask};
ghost use Rattle.moos_jobs.specs.declared.task.Task.TheVariants.{Checking, Solving};

use crate::generate_job::generate;
use crate::play_job::play_script;
use crate::share_job::share_scripts;
use crate::simulate_job::simulate;
use crate::task::{LoadedTask, Task};
use command_line::{Status, written};
use ivp_cert::{Decision, accepts, certificate_law, decide, print_decision_by_workers};
use ivp_problem::{Problem, problem_law};
use moos_io::{Gate, Sink, put_all};
use std::alloc::Global;
use std::sync::Wait;
use std::thread::Threads;

/// Does a task, and writes what comes of it.
pub fn perform<R: Threads + Wait + Sync, K: Sink, G: Gate>(
    rt: &R,
    alloc: Global,
    prepared: LoadedTask,
    out: &mut K,
    gate: &G,
) -> Status
    requires good { IsGoodTask prepared.task }
    requires few { (1 ≤ prepared.workers) × (prepared.workers ≤ 16) }
    ensures { Ended outcomes (Ready prepared.task) (sinking (K.taken out.old) (K.taken out.new) (K.faults out.old) (K.faults out.new)) result }
{
    let LoadedTask { task, workers } = prepared;
    match task {
        Task::Playing {
            order,
            script,
            helm,
        } => play_script(rt, alloc, order, &script, helm, workers, out, gate),
        Task::Solving { problem } => solve_problem(rt, alloc, problem, workers, out, gate),
        Task::Checking { decision } => check_decision(&decision, out),
        Task::Generating { number } => generate(rt, alloc, number, out, gate),
        Task::Sharing { task } => share_scripts(rt, alloc, task, out, gate),
        Task::Simulating { task } => simulate(rt, alloc, task, workers, out, gate),
    }
}

// Solves a problem, and writes it, its decision and the certificate.
fn solve_problem<R: Threads + Wait + Sync, K: Sink, G: Gate>(
    rt: &R,
    alloc: Global,
    problem: Problem,
    workers: u32,
    out: &mut K,
    gate: &G,
) -> Status
    requires few { (1 ≤ workers) × (workers ≤ 16) }
    ensures { Ended outcomes (Ready (Solving problem)) (sinking (K.taken out.old) (K.taken out.new) (K.faults out.old) (K.faults out.new)) result }
{
    certificate_law();
    problem_law(&problem);
    match decide(rt, alloc, problem, workers, gate) {
        Ok(decision) => written(
            Status::Done,
            print_decision_by_workers(rt, alloc, &decision, b"", workers, out),
        ),
        Err(_) => Status::NoMemory,
    }
}

/// Checks a decision, and writes whether its certificate is accepted.
pub fn check_decision<K: Sink>(decision: &Decision, out: &mut K) -> Status
    requires { IsTrue (is_point decision.now.problem.axes decision.now.claim.point) }
    ensures { Ended outcomes (Ready (Checking decision.now)) (sinking (K.taken out.old) (K.taken out.new) (K.faults out.old) (K.faults out.new)) result }
{
    if accepts(&decision.problem, &decision.claim, &decision.cert) {
        written(Status::Done, put_all(out, b"accepted\n"))
    } else {
        written(Status::CheckNo, put_all(out, b"not accepted\n"))
    }
}
