// The reader of problems.
ghost use Rattle.std.specs.Prelude.{◌≡◌, ◌<◌, ◌^◌, length, Ok, IfOk, IfErr};
ghost use Rattle.moos_text.specs.Refusals.{IsFirst};
ghost use Rattle.ivp_cert.specs.Problems.{problem_of};

use crate::stage::ProblemStage;
use ivp_problem::Problem;
use moos_text::{ReadFault, next_whole_line};
use std::alloc::Global;

/// Reads a problem: what its bytes stand for, or its first refusal with its line and cause.
pub fn read_problem(alloc: Global, bytes: &[u8]) -> Result<Problem, ReadFault>
    requires { length bytes.now < 2 ^ 32 }
    ensures read { IfOk result (λ problem. problem_of bytes.now ≡ Ok problem) }
    ensures refused { IfErr result (λ fault. IsFirst fault (problem_of bytes.now)) }
{
    let mut stage = ProblemStage::Start;
    let mut lines: u32 = 0;
    let mut left = bytes;
    while let Some((line, rest)) = next_whole_line(left) {
        lines += 1;
        stage.after_line(alloc, lines, line)?;
        left = rest;
    }
    stage.whole_problem(lines.max(1))
}
