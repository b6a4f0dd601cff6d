// The decision on a problem: the search for its best point, and the certificate that shows it.
ghost use Rattle.std.specs.Prelude.{◌≡◌, ◌≤◌, IfOk, IsTrue};
ghost use Rattle.ivp_domain.specs.Domains.{is_point};
ghost use Rattle.ivp_problem.specs.Sums.{best_of, key_at};
ghost use Rattle.ivp_cert.specs.Certificates.{best_decision, certificate_of};

use crate::by_workers::cut_by_workers;
use crate::cert::Cert;
use crate::claim::{Claim, Decision};
use crate::cutting::cut;
use ivp_pool::{Solved, solve};
use ivp_problem::{Problem, keys_law, sum_of};
use moos_io::Gate;
use moos_post::NoMemory;
use std::alloc::Global;
use std::sync::Wait;
use std::thread::Threads;

// How many nodes a worker closes in a search that is worth threads for its certificate: fewer are cut in some milliseconds, of which
// threads would save little.
const MANY: u64 = 10_000;

/// The decision on a problem: its best point and the sum there, with the certificate that shows it. It is the same for each
/// number of workers, which are 1 to 16.
pub fn decide<R: Threads + Wait + Sync, G: Gate>(
    rt: &R,
    alloc: Global,
    problem: Problem,
    workers: u32,
    gate: &G,
) -> Result<Decision, NoMemory>
    requires some_worker { 1 ≤ workers }
    requires few_workers { workers ≤ 16 }
    ensures best { IfOk result (λ decision. decision ≡ best_decision problem) }
    ensures point { IfOk result (λ decision. IsTrue (is_point decision.problem.axes decision.claim.point)) }
{
    keys_law(&problem);
    let solved = solve(rt, alloc, &problem, workers, gate)?;
    let cert = certificate(rt, alloc, &problem, &solved, workers)?;
    let claim = Claim {
        point: solved.point,
        sum: sum_of(solved.key),
    };
    Ok(Decision {
        problem,
        claim,
        cert,
    })
}

// The certificate of a problem that was searched, by several workers if one of them closed many nodes.
fn certificate<R: Threads + Sync>(
    rt: &R,
    alloc: Global,
    problem: &Problem,
    solved: &Solved,
    workers: u32,
) -> Result<Cert, NoMemory>
    requires key { solved.now.key ≡ key_at problem.now (best_of problem.now) }
    requires some_worker { 1 ≤ workers }
    requires few_workers { workers ≤ 16 }
    ensures { IfOk result (λ cert. cert ≡ certificate_of problem.now) }
{
    if workers > 1 && solved.work.all().iter().any(|work| work.closed >= MANY) {
        return cut_by_workers(rt, alloc, problem, solved.key, workers);
    }
    cut(alloc, problem, solved.key)
}
