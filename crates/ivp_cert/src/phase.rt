// How far a decision has been read.
ghost use Rattle.std.specs.Prelude.{◌≡◌, Ok, bytes_eq, codes, false, IfOk, IfErr, IsTrue, OnOk};
ghost use Rattle.moos_text.specs.Lines.{trimmed, words_of};
ghost use Rattle.ivp_domain.specs.Domains.{is_point};
ghost use Rattle.moos_text.specs.Refusals.{IsFirst, IsLineFault};
ghost use Rattle.ivp_cert.specs.Decisions.{claimed, with_claim, with_cut};
ghost use Rattle.ivp_cert.specs.Problems.{nothing_behind};
ghost use Rattle.ivp_cert.specs.Stages.{HasPoint, after_first, after_stage, phase_after, whole_decision};
ghost use Rattle.ivp_cert.specs.Words.{without_prefix};

use crate::cert::Cert;
use crate::claim::{Claim, Decision, Spelled, are_on, point_at, spelled_in};
use crate::line::line_of;
use crate::stage::ProblemStage;
use crate::words::content_of;
use ivp_problem::Problem;
use moos_text::{Cause, LineFault, ReadFault, next_word};
use std::alloc::Global;
use std::mem;

/// How far the lines of a decision have come.
#[derive(Drop)]
pub enum DecisionStage {
    /// So far in the problem, or to its end.
    OfProblem(ProblemStage),
    /// The lines of the certificate so far.
    OfCuts(Decision),
    /// All lines up to `done`.
    Done(Decision),
}

impl DecisionStage {
    /// Goes on by one line more, which has this number and is given without its end; or gives its refusal, behind which
    /// nothing more is read.
    pub fn after_line(&mut self, alloc: Global, number: u32, line: &[u8]) -> Result<(), ReadFault>
        requires { HasPoint self.old }
        ensures read { OnOk result (phase_after number self.old (words_of (without_prefix (trimmed line.now))) ≡ Ok self.new) }
        ensures refused { IfErr result (λ fault. IsFirst fault (phase_after number self.old (words_of (without_prefix (trimmed line.now))))) }
        ensures point { OnOk result (HasPoint self.new) }
    {
        match next_word(content_of(line)) {
            None => Ok(()),
            Some((word, rest)) => self.after_word(alloc, number, word, rest),
        }
    }

    // The same by the line's first word and what follows it. Where what was decided begins and ends the stage is moved.
    fn after_word(
        &mut self,
        alloc: Global,
        number: u32,
        word: &[u8],
        rest: &[u8],
    ) -> Result<(), ReadFault>
        requires { HasPoint self.old }
        ensures read { OnOk result (after_first number self.old word.now (words_of rest.now) ≡ Ok self.new) }
        ensures refused { IfErr result (λ fault. IsFirst fault (after_first number self.old word.now (words_of rest.now))) }
        ensures point { OnOk result (HasPoint self.new) }
    {
        if word == b"cut".as_slice() {
            return self.after_cut(alloc, number, rest);
        }
        if word == b"decision".as_slice() {
            return self.begin(alloc, number, rest);
        }
        if word == b"done".as_slice() {
            return self.end(number, rest);
        }
        self.after_other(alloc, number, word, rest)
    }

    // The same of a line of a certificate.
    fn after_cut(&mut self, alloc: Global, number: u32, rest: &[u8]) -> Result<(), ReadFault>
        requires { HasPoint self.old }
        ensures read { OnOk result (after_first number self.old (codes "cut") (words_of rest.now) ≡ Ok self.new) }
        ensures refused { IfErr result (λ fault. IsFirst fault (after_first number self.old (codes "cut") (words_of rest.now))) }
        ensures point { OnOk result (HasPoint self.new) }
    {
        match self {
            DecisionStage::OfCuts(decision) => match add_cut(alloc, decision, rest) {
                Ok(()) => Ok(()),
                Err(fault) => Err(fault.at(number)),
            },
            DecisionStage::OfProblem(_) | DecisionStage::Done(_) => Err(ReadFault::At {
                line: number,
                cause: Cause::P1,
            }),
        }
    }

    // The same of the line that says what was decided.
    #[inline(never)]
    fn begin(&mut self, alloc: Global, number: u32, rest: &[u8]) -> Result<(), ReadFault>
        ensures read { OnOk result (after_first number self.old (codes "decision") (words_of rest.now) ≡ Ok self.new) }
        ensures refused { IfErr result (λ fault. IsFirst fault (after_first number self.old (codes "decision") (words_of rest.now))) }
        ensures point { OnOk result (HasPoint self.new) }
    {
        let before = mem::replace(self, DecisionStage::OfProblem(ProblemStage::Start));
        *self = before.begun(alloc, number, rest)?;
        Ok(())
    }

    // What was decided, which no certificate may stand before.
    fn begun(self, alloc: Global, number: u32, rest: &[u8]) -> Result<DecisionStage, ReadFault>
        ensures read { IfOk result (λ phase. after_first number self (codes "decision") (words_of rest.now) ≡ Ok phase) }
        ensures refused { IfErr result (λ fault. IsFirst fault (after_first number self (codes "decision") (words_of rest.now))) }
        ensures point { IfOk result HasPoint }
    {
        match self {
            DecisionStage::OfProblem(stage) => begun_behind(alloc, stage, number, rest),
            DecisionStage::OfCuts(_) | DecisionStage::Done(_) => Err(ReadFault::At {
                line: number,
                cause: Cause::P1,
            }),
        }
    }

    // The same of the end of a certificate.
    #[inline(never)]
    fn end(&mut self, number: u32, rest: &[u8]) -> Result<(), ReadFault>
        requires { HasPoint self.old }
        ensures read { OnOk result (after_first number self.old (codes "done") (words_of rest.now) ≡ Ok self.new) }
        ensures refused { IfErr result (λ fault. IsFirst fault (after_first number self.old (codes "done") (words_of rest.now))) }
        ensures point { OnOk result (HasPoint self.new) }
    {
        let before = mem::replace(self, DecisionStage::OfProblem(ProblemStage::Start));
        *self = before.ended(number, rest)?;
        Ok(())
    }

    // All of a decision, whose end stands behind the lines of a certificate alone.
    fn ended(self, number: u32, rest: &[u8]) -> Result<DecisionStage, ReadFault>
        requires { HasPoint self }
        ensures read { IfOk result (λ phase. after_first number self (codes "done") (words_of rest.now) ≡ Ok phase) }
        ensures refused { IfErr result (λ fault. IsFirst fault (after_first number self (codes "done") (words_of rest.now))) }
        ensures point { IfOk result HasPoint }
    {
        match self {
            DecisionStage::OfCuts(decision) => match nothing_behind(decision, rest) {
                Ok(decision) => Ok(DecisionStage::Done(decision)),
                Err(cause) => Err(ReadFault::At {
                    line: number,
                    cause,
                }),
            },
            DecisionStage::OfProblem(_) | DecisionStage::Done(_) => Err(ReadFault::At {
                line: number,
                cause: Cause::P1,
            }),
        }
    }

    // The same of any other line, which stands in a problem alone.
    fn after_other(
        &mut self,
        alloc: Global,
        number: u32,
        word: &[u8],
        rest: &[u8],
    ) -> Result<(), ReadFault>
        requires cut { bytes_eq word.now (codes "cut") ≡ false }
        requires decision { bytes_eq word.now (codes "decision") ≡ false }
        requires done { bytes_eq word.now (codes "done") ≡ false }
        ensures read { OnOk result (after_first number self.old word.now (words_of rest.now) ≡ Ok self.new) }
        ensures refused { IfErr result (λ fault. IsFirst fault (after_first number self.old word.now (words_of rest.now))) }
        ensures point { OnOk result (HasPoint self.new) }
    {
        match self {
            DecisionStage::OfProblem(stage) => match stage.after_word(alloc, number, word, rest) {
                Ok(()) => Ok(()),
                Err(fault) => Err(fault),
            },
            DecisionStage::OfCuts(_) | DecisionStage::Done(_) => Err(ReadFault::At {
                line: number,
                cause: Cause::P1,
            }),
        }
    }

    /// The decision, if the lines come to `done`; else the last line is refused.
    pub fn whole_decision(self, last: u32) -> Result<Decision, ReadFault>
        requires { HasPoint self }
        ensures whole { result ≡ whole_decision last self }
        ensures point { IfOk result (λ decision. IsTrue (is_point decision.problem.axes decision.claim.point)) }
    {
        match self {
            DecisionStage::Done(decision) => Ok(decision),
            DecisionStage::OfProblem(_) | DecisionStage::OfCuts(_) => Err(ReadFault::At {
                line: last,
                cause: Cause::P9,
            }),
        }
    }
}

// What was decided stands behind the end of a problem alone.
fn begun_behind(
    alloc: Global,
    stage: ProblemStage,
    number: u32,
    rest: &[u8],
) -> Result<DecisionStage, ReadFault>
    ensures read { IfOk result (λ phase. after_stage number stage (codes "decision") (words_of rest.now) ≡ Ok phase) }
    ensures refused { IfErr result (λ fault. IsFirst fault (after_stage number stage (codes "decision") (words_of rest.now))) }
    ensures point { IfOk result HasPoint }
{
    match stage {
        ProblemStage::Ended(problem) => match with_claim(alloc, problem, rest) {
            Ok(decision) => Ok(DecisionStage::OfCuts(decision)),
            Err(fault) => Err(fault.at(number)),
        },
        ProblemStage::Start
        | ProblemStage::Begun
        | ProblemStage::Axes(_)
        | ProblemStage::Functions(_) => Err(ReadFault::At {
            line: number,
            cause: Cause::P1,
        }),
    }
}

// The decision on this problem that the words of a text claim. It has no line yet.
fn with_claim(alloc: Global, problem: Problem, rest: &[u8]) -> Result<Decision, LineFault>
    ensures read { IfOk result (λ decision. with_claim problem (words_of rest.now) ≡ Ok decision) }
    ensures refused { IfErr result (λ fault. IsLineFault fault (with_claim problem (words_of rest.now))) }
    ensures point { IfOk result (λ decision. IsTrue (is_point decision.problem.axes decision.claim.point)) }
{
    let spelled = spelled_in(alloc, rest)?;
    match claimed(alloc, problem, &spelled) {
        Ok(decision) => Ok(decision),
        Err(cause) => Err(LineFault::Refused(cause)),
    }
}

// The decision on a problem, which has no line yet; a point outside the domain is refused.
fn claimed(alloc: Global, problem: Problem, of: &Spelled) -> Result<Decision, Cause>
    ensures claimed { result ≡ claimed problem of.now }
    ensures point { IfOk result (λ decision. IsTrue (is_point decision.problem.axes decision.claim.point)) }
{
    if !are_on(problem.domain().all(), of.places.all()) {
        return Err(Cause::P10);
    }
    let claim = Claim {
        point: point_at(of.places.all()),
        sum: of.sum,
    };
    Ok(Decision {
        problem,
        claim,
        cert: Cert::new(alloc),
    })
}

// One line more of the certificate.
fn add_cut(alloc: Global, decision: &mut Decision, rest: &[u8]) -> Result<(), LineFault>
    requires { IsTrue (is_point decision.old.problem.axes decision.old.claim.point) }
    ensures read { OnOk result (with_cut decision.old (words_of rest.now) ≡ Ok decision.new) }
    ensures refused { IfErr result (λ fault. IsLineFault fault (with_cut decision.old (words_of rest.now))) }
    ensures point { OnOk result (IsTrue (is_point decision.new.problem.axes decision.new.claim.point)) }
{
    let line = line_of(alloc, rest)?;
    match decision.cert.add(line) {
        Ok(()) => Ok(()),
        Err(_) => Err(LineFault::NoMemory),
    }
}

// No word follows `done`.
fn nothing_behind(decision: Decision, rest: &[u8]) -> Result<Decision, Cause>
    ensures read { result ≡ nothing_behind decision (words_of rest.now) }
    ensures same { IfOk result (λ whole. whole ≡ decision) }
{
    if next_word(rest).is_some() {
        return Err(Cause::P1);
    }
    Ok(decision)
}
