// How far a problem has been read.
ghost use Rattle.std.specs.Prelude.{◌≡◌, ◌<◌, ◌∷◌, [], Ok, Err, Some, bytes_eq, codes, false, length, IfOk, IfErr, OnOk};
ghost use Rattle.moos_text.specs.Lines.{trimmed, words_of};
ghost use Rattle.moos_text.specs.Refusals.{IsFirst, IsLineFault, at_line};
ghost use Rattle.ivp_cert.specs.Problems.{nothing_behind, ended_early, with_axis, with_domain, with_function, with_piece, with_weight};
ghost use Rattle.ivp_cert.specs.Stages.{after_axes, after_begun, after_functions, after_word, stage_after, after_start, whole_problem};
ghost use Rattle.ivp_cert.specs.Pieces.{piece_of};
ghost use Rattle.ivp_cert.specs.Words.{axis_of, without_prefix};

use crate::piece::piece_of;
use crate::terms::Terms;
use crate::unfinished::Unfinished;
use crate::words::{axis_of, content_of};
use axis_reader::extended;
use ivp_domain::{Axis, Domain, MOST_AXES};
use ivp_problem::{MOST_FUNCTIONS, MOST_WEIGHT, Problem};
use moos_post::Milli;
use moos_text::{Cause, LineFault, ReadFault, next_word, read_milli};
use std::alloc::Global;
use std::mem;

/// How far the lines of a problem have come.
#[derive(Drop)]
pub enum ProblemStage {
    /// No line yet but blank ones.
    Start,
    /// The first line, and no axis yet.
    Begun,
    /// The axes so far, and no function yet.
    Axes(Domain),
    /// The functions so far.
    Functions(Unfinished),
    /// All lines up to `end`.
    Ended(Problem),
}

impl ProblemStage {
    /// Goes on by one line more, which has this number and is given without its end; or gives its refusal, behind which
    /// nothing more is read.
    pub fn after_line(&mut self, alloc: Global, number: u32, line: &[u8]) -> Result<(), ReadFault>
        ensures read { OnOk result (stage_after number self.old (words_of (without_prefix (trimmed line.now))) ≡ Ok self.new) }
        ensures refused { IfErr result (λ fault. IsFirst fault (stage_after number self.old (words_of (without_prefix (trimmed line.now))))) }
    {
        match next_word(content_of(line)) {
            None => Ok(()),
            Some((word, rest)) => self.after_word(alloc, number, word, rest),
        }
    }

    /// The same by the line's first word and what follows it. Most lines are pieces, which move nothing.
    pub fn after_word(
        &mut self,
        alloc: Global,
        number: u32,
        word: &[u8],
        rest: &[u8],
    ) -> Result<(), ReadFault>
        ensures read { OnOk result (after_word number self.old word.now (words_of rest.now) ≡ Ok self.new) }
        ensures refused { IfErr result (λ fault. IsFirst fault (after_word number self.old word.now (words_of rest.now))) }
    {
        if word == b"piece".as_slice() {
            return self.after_piece(number, rest);
        }
        self.move_on(alloc, number, word, rest)
    }

    // The same of a piece, which stands in a function alone.
    fn after_piece(&mut self, number: u32, rest: &[u8]) -> Result<(), ReadFault>
        ensures read { OnOk result (after_word number self.old (codes "piece") (words_of rest.now) ≡ Ok self.new) }
        ensures refused { IfErr result (λ fault. IsFirst fault (after_word number self.old (codes "piece") (words_of rest.now))) }
    {
        match self {
            ProblemStage::Functions(sum) => match add_piece(sum, rest) {
                Ok(()) => Ok(()),
                Err(fault) => Err(fault.at(number)),
            },
            ProblemStage::Start
            | ProblemStage::Begun
            | ProblemStage::Axes(_)
            | ProblemStage::Ended(_) => {
                Err(ReadFault::At {
                    line: number,
                    cause: Cause::P1,
                })
            }
        }
    }

    // The same of any other line.
    #[inline(never)]
    fn move_on(
        &mut self,
        alloc: Global,
        number: u32,
        word: &[u8],
        rest: &[u8],
    ) -> Result<(), ReadFault>
        requires { bytes_eq word.now (codes "piece") ≡ false }
        ensures read { OnOk result (after_word number self.old word.now (words_of rest.now) ≡ Ok self.new) }
        ensures refused { IfErr result (λ fault. IsFirst fault (after_word number self.old word.now (words_of rest.now))) }
    {
        let before = mem::replace(self, ProblemStage::Start);
        *self = before.moved(alloc, number, word, rest)?;
        Ok(())
    }

    // The stage after a line that is no piece.
    fn moved(
        self,
        alloc: Global,
        number: u32,
        word: &[u8],
        rest: &[u8],
    ) -> Result<ProblemStage, ReadFault>
        requires { bytes_eq word.now (codes "piece") ≡ false }
        ensures read { IfOk result (λ stage. after_word number self word.now (words_of rest.now) ≡ Ok stage) }
        ensures refused { IfErr result (λ fault. IsFirst fault (after_word number self word.now (words_of rest.now))) }
    {
        match self {
            ProblemStage::Start => at_line(number, after_start(word, rest)),
            ProblemStage::Begun => at_line(number, after_begun(word, rest)),
            ProblemStage::Axes(domain) => at_line(
                number,
                after_axes(alloc, &domain, number, word, rest),
            ),
            ProblemStage::Functions(sum) => after_functions(alloc, sum, number, word, rest),
            ProblemStage::Ended(_) => at_line(number, Err(Cause::P1)),
        }
    }

    /// The problem, if the lines come to `end`; else the last line is refused.
    pub fn whole_problem(self, last: u32) -> Result<Problem, ReadFault>
        ensures { result ≡ whole_problem last self }
    {
        match self {
            ProblemStage::Ended(problem) => Ok(problem),
            ProblemStage::Start
            | ProblemStage::Begun
            | ProblemStage::Axes(_)
            | ProblemStage::Functions(_) => {
                Err(ReadFault::At {
                    line: last,
                    cause: Cause::P9,
                })
            }
        }
    }
}

// A refusal of the line with this number.
fn at_line(line: u32, outcome: Result<ProblemStage, Cause>) -> Result<ProblemStage, ReadFault>
    ensures { result ≡ at_line line outcome }
{
    match outcome {
        Ok(stage) => Ok(stage),
        Err(cause) => Err(ReadFault::At { line, cause }),
    }
}

// The first line that isn't blank is `ivp 1`.
fn after_start(word: &[u8], rest: &[u8]) -> Result<ProblemStage, Cause>
    ensures { result ≡ after_start word.now (words_of rest.now) }
{
    let Some((one, rest)) = next_word(rest) else {
        return Err(Cause::P1);
    };
    if next_word(rest).is_some() {
        return Err(Cause::P1);
    }
    if word == b"ivp".as_slice() && one == b"1".as_slice() {
        Ok(ProblemStage::Begun)
    } else {
        Err(Cause::P1)
    }
}

// After the first line comes an axis.
fn after_begun(word: &[u8], rest: &[u8]) -> Result<ProblemStage, Cause>
    ensures { result ≡ after_begun word.now (words_of rest.now) }
{
    if word == b"domain".as_slice() {
        let domain = with_domain(&[], rest)?;
        Ok(ProblemStage::Axes(domain))
    } else {
        Err(Cause::P1)
    }
}

// After an axis comes another one, a function or the end.
fn after_axes(
    alloc: Global,
    domain: &Domain,
    number: u32,
    word: &[u8],
    rest: &[u8],
) -> Result<ProblemStage, Cause>
    ensures { result ≡ after_axes domain.now number word.now (words_of rest.now) }
{
    if word == b"domain".as_slice() {
        let domain = with_domain(domain.all(), rest)?;
        Ok(ProblemStage::Axes(domain))
    } else if word == b"function".as_slice() {
        let sum = with_function(alloc, Terms::new(alloc, *domain), number, rest)?;
        Ok(ProblemStage::Functions(sum))
    } else if word == b"end".as_slice() {
        Err(ended_early(rest))
    } else {
        Err(Cause::P1)
    }
}

// In a function comes another function or the end, which finish it first.
fn after_functions(
    alloc: Global,
    sum: Unfinished,
    number: u32,
    word: &[u8],
    rest: &[u8],
) -> Result<ProblemStage, ReadFault>
    requires { bytes_eq word.now (codes "piece") ≡ false }
    ensures read { IfOk result (λ stage. after_functions sum number word.now (words_of rest.now) ≡ Ok stage) }
    ensures refused { IfErr result (λ fault. IsFirst fault (after_functions sum number word.now (words_of rest.now))) }
{
    if word == b"function".as_slice() {
        let before = sum.finished(alloc)?;
        return match with_function(alloc, before, number, rest) {
            Ok(sum) => Ok(ProblemStage::Functions(sum)),
            Err(cause) => at_line(number, Err(cause)),
        };
    }
    if word == b"end".as_slice() {
        let whole = sum.finished(alloc)?;
        return match nothing_behind(whole, rest) {
            Ok(problem) => Ok(ProblemStage::Ended(problem)),
            Err(cause) => at_line(number, Err(cause)),
        };
    }
    at_line(number, Err(Cause::P1))
}

// What follows `domain` is one word.
fn with_domain(axes: &[Axis], rest: &[u8]) -> Result<Domain, Cause>
    ensures { result ≡ with_domain axes.now (words_of rest.now) }
{
    let Some((word, rest)) = next_word(rest) else {
        return Err(Cause::P1);
    };
    if next_word(rest).is_some() {
        return Err(Cause::P1);
    }
    match axis_of(word) {
        Some(axis) => with_axis(axes, axis),
        None => Err(Cause::P2),
    }
}

// One axis more: the fifth is refused, and one that makes no domain with those before it.
fn with_axis(axes: &[Axis], axis: Axis) -> Result<Domain, Cause>
    ensures { result ≡ with_axis axes.now (Some axis) }
{
    if axes.len() >= MOST_AXES {
        return Err(Cause::P2);
    }
    match extended(axes, axis) {
        Ok(domain) => Ok(domain),
        Err(_) => Err(Cause::P2),
    }
}

// What follows `function` is one word; a 65th function is refused, and a weight out of range.
fn with_function(alloc: Global, before: Terms, line: u32, rest: &[u8]) -> Result<Unfinished, Cause>
    ensures { result ≡ with_function before line (words_of rest.now) }
{
    let Some((word, rest)) = next_word(rest) else {
        return Err(Cause::P1);
    };
    if next_word(rest).is_some() {
        return Err(Cause::P1);
    }
    with_weight_word(alloc, before, line, word)
}

// The same by that one word.
fn with_weight_word(
    alloc: Global,
    before: Terms,
    line: u32,
    word: &[u8],
) -> Result<Unfinished, Cause>
    ensures { result ≡ with_function before line (word.now ∷ []) }
{
    if before.len() >= MOST_FUNCTIONS {
        return Err(Cause::P7);
    }
    match read_milli(word) {
        Some(weight) => with_weight(alloc, before, line, weight),
        None => Err(Cause::P6),
    }
}

// One function more, which has no piece yet.
fn with_weight(alloc: Global, before: Terms, line: u32, weight: Milli) -> Result<Unfinished, Cause>
    requires { length before.terms < 64 }
    ensures { result ≡ with_weight before line (Some weight) }
{
    let weight = weight.get();
    if 1 <= weight && weight <= MOST_WEIGHT as i64 {
        Ok(Unfinished::new(alloc, before, line, weight as u32))
    } else {
        Err(Cause::P6)
    }
}

// One piece more of the last function.
fn add_piece(sum: &mut Unfinished, rest: &[u8]) -> Result<(), LineFault>
    ensures read { OnOk result (with_piece sum.old (piece_of (length sum.old.before.axes) (words_of rest.now)) ≡ Ok sum.new) }
    ensures refused { IfErr result (λ fault. IsLineFault fault (with_piece sum.old (piece_of (length sum.old.before.axes) (words_of rest.now)))) }
{
    match piece_of(sum.domain().axes(), rest) {
        Some(piece) => sum.add_piece(piece),
        None => Err(LineFault::Refused(Cause::P1)),
    }
}

// No word follows `end`.
fn nothing_behind(whole: Terms, rest: &[u8]) -> Result<Problem, Cause>
    requires { 0 < length whole.terms }
    ensures { result ≡ nothing_behind whole (words_of rest.now) }
{
    if next_word(rest).is_some() {
        return Err(Cause::P1);
    }
    Ok(whole.into_problem())
}

// Why `end` without a function is refused.
fn ended_early(rest: &[u8]) -> Cause
    ensures { result ≡ ended_early (words_of rest.now) }
{
    if next_word(rest).is_some() {
        Cause::P1
    } else {
        Cause::P8
    }
}
