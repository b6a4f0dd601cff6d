// The decision that was made last, kept for an iteration that asks the same.
ghost use Rattle.std.specs.Prelude.{◌≡◌, ◌≤◌, IfOk, IfSome, IsTrue};
ghost use Rattle.ivp_domain.specs.Domains.{is_point};
ghost use Rattle.ivp_cert.specs.Certificates.{best_decision};
ghost use Rattle.helm_core.specs.Decisions.{IsBestDecision};

use ivp_cert::{Cert, Claim, Decision, decide};
use ivp_problem::Problem;
use moos_io::Gate;
use moos_post::{Copied, NoMemory};
use std::alloc::Global;
use std::marker::Model;
use std::sync::Wait;
use std::thread::Threads;

// The decision that was made last, if any is kept. It only saves the making of it: contracts don't see which one it is.
#[derive(Drop)]
pub(crate) struct Decided {
    last: Option<Decision>,
}

impl Model for Decided {
    ghost use Rattle.std.specs.Prelude.{IfSome};
    ghost use Rattle.helm_core.specs.Decisions.{IsBestDecision};

    ghost Value = { Unit {0} };

    ghost view = { λ _. tt };

    ghost invariant = { λ decided. IfSome decided.last IsBestDecision };
}

impl Decided {
    // None.
    pub fn nothing() -> Decided {
        Decided { last: None }
    }

    // The decision on a problem: the kept one, if it was made on the same problem, or else a new one, which is kept from now
    // on if there is memory.
    pub fn decide<R: Threads + Wait + Sync, G: Gate>(
        &mut self,
        rt: &R,
        alloc: Global,
        problem: Problem,
        workers: u32,
        gate: &G,
    ) -> Result<Decision, NoMemory>
        requires some_worker { 1 ≤ workers }
        requires few_workers { workers ≤ 16 }
        ensures best { IfOk result (λ decision. decision ≡ best_decision problem) }
        ensures point { IfOk result (λ decision. IsTrue (is_point decision.problem.axes decision.claim.point)) }
    {
        if let Some((claim, cert)) = self.again(alloc, &problem) {
            return Ok(Decision {
                problem,
                claim,
                cert,
            });
        }
        let decision = decide(rt, alloc, problem, workers, gate)?;
        self.last = decision.copy(alloc).ok();
        Ok(decision)
    }

    // What the kept decision says of this problem, if it was made on the same one and there is memory for it.
    fn again(&self, alloc: Global, problem: &Problem) -> Option<(Claim, Cert)>
        ensures { IfSome result (λ said. IsBestDecision (record { problem = problem.now; claim = said.0; cert = said.1 })) }
    {
        match &self.last {
            Some(last) if last.problem.is_same(problem) => {
                let cert = last.cert.copy(alloc).ok()?;
                Some((last.claim, cert))
            },
            _ => None,
        }
    }
}
