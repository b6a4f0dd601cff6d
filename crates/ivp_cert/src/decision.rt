// The reader of decisions.
ghost use Rattle.std.specs.Prelude.{◌≡◌, ◌<◌, ◌^◌, length, Ok, IfOk, IfErr, IsTrue};
ghost use Rattle.moos_text.specs.Refusals.{IsFirst};
ghost use Rattle.ivp_domain.specs.Domains.{is_point};
ghost use Rattle.ivp_cert.specs.Decisions.{decision_of};
ghost use Rattle.ivp_cert.specs.Printed.{HasSums};

use crate::claim::Decision;
use crate::phase::DecisionStage;
use crate::stage::ProblemStage;
use moos_text::{ReadFault, next_whole_line};
use std::alloc::Global;

/// Reads a decision: what its bytes stand for, or its first refusal with its line and cause. The claim's point lies in the
/// problem's domain, and all sums are in range.
pub fn read_decision(alloc: Global, bytes: &[u8]) -> Result<Decision, ReadFault>
    requires { length bytes.now < 2 ^ 32 }
    ensures read { IfOk result (λ decision. decision_of bytes.now ≡ Ok decision) }
    ensures refused { IfErr result (λ fault. IsFirst fault (decision_of bytes.now)) }
    ensures point { IfOk result (λ decision. IsTrue (is_point decision.problem.axes decision.claim.point)) }
    ensures sums { IfOk result HasSums }
{
    let mut phase = DecisionStage::OfProblem(ProblemStage::Start);
    let mut lines: u32 = 0;
    let mut left = bytes;
    while let Some((line, rest)) = next_whole_line(left) {
        lines += 1;
        phase.after_line(alloc, lines, line)?;
        left = rest;
    }
    phase.whole_decision(lines.max(1))
}
