// The line of a node.
ghost use Rattle.std.specs.Prelude.{◌≡◌, [], Some, IfOk, IfErr, None};
ghost use Rattle.moos_text.specs.Lines.{words_of};
ghost use Rattle.moos_text.specs.Refusals.{IsLineFault};
ghost use Rattle.ivp_cert.specs.Decisions.{bound_with, in_form, line_from};

use crate::cert::Line;
use crate::claim::sum_word;
use crate::path::Path;
use crate::trail::Trail;
use crate::words::place_of;
use ivp_problem::MOST_FUNCTIONS;
use moos_text::{Cause, LineFault, next_word};
use std::alloc::Global;

// The line of this path, with the sum and the index that the words of a text spell.
fn bound_with(path: Path, text: &[u8]) -> Option<Line>
    ensures { result ≡ bound_with path (words_of text.now) }
{
    let (sum, rest) = next_word(text)?;
    let (index, rest) = next_word(rest)?;
    if next_word(rest).is_some() {
        return None;
    }
    let sum = sum_word(sum)?;
    let index = place_of(index)?;
    Some(Line { path, sum, index })
}

/// The line of a certificate that the words of a text spell.
pub fn line_of(alloc: Global, text: &[u8]) -> Result<Line, LineFault>
    ensures read { IfOk result (λ line. line_from [] (words_of text.now) ≡ Some line) }
    ensures refused { IfErr result (λ fault. IsLineFault fault (in_form (line_from [] (words_of text.now)))) }
{
    let mut numbers = Trail::new();
    let mut left = text;
    while let Some((word, rest)) = next_word(left) {
        if word == b":".as_slice() {
            let Ok(path) = Path::of(alloc, numbers.all()) else {
                return Err(LineFault::NoMemory);
            };
            return match bound_with(path, rest) {
                Some(line) => Ok(line),
                None => Err(LineFault::Refused(Cause::P1)),
            };
        }
        if numbers.all().len() >= MOST_FUNCTIONS {
            return Err(LineFault::Refused(Cause::P1));
        }
        let Some(number) = place_of(word) else {
            return Err(LineFault::Refused(Cause::P1));
        };
        numbers.push(number);
        left = rest;
    }
    Err(LineFault::Refused(Cause::P1))
}
