// What a decision says of itself, and as it is spelled.
ghost use Rattle.std.specs.Prelude.{◌≡◌, ◌≤◌, [], length, Some, Ok, IfOk, IfErr};
ghost use Rattle.moos_text.specs.Lines.{words_of};
ghost use Rattle.moos_text.specs.Refusals.{IsLineFault};
ghost use Rattle.ivp_cert.specs.Decisions.{are_on, in_form, point_at, spelled, sum_word};

use crate::cert::Cert;
use crate::words::place_of;
use ivp_domain::{Axis, Point};
use ivp_problem::{MOST_SUM, Problem};
use moos_post::{Copied, List, NoMemory};
use moos_text::{Cause, LineFault, next_word, read_unsigned};
use std::alloc::Global;

/// What is claimed of a problem: that this point is its best, and this sum, in thousandths, is the one there.
#[derive(Clone, Copy, Debug, PartialEq, Eq)]
pub struct Claim {
    pub point: Point,
    pub sum: u64,
}

/// A problem, what is claimed of it, and the certificate that is to show it.
#[derive(Drop)]
pub struct Decision {
    pub problem: Problem,
    pub claim: Claim,
    pub cert: Cert,
}

impl Copied for Decision {
    fn copy(&self, alloc: Global) -> Result<Decision, NoMemory> {
        let problem = self.problem.copy(alloc)?;
        let cert = self.cert.copy(alloc)?;
        Ok(Decision {
            problem,
            claim: self.claim,
            cert,
        })
    }
}

/// The numbers of a `decision` line: places, and then a sum in thousandths.
#[derive(Drop)]
pub struct Spelled {
    pub places: List<u32>,
    pub sum: u64,
}

/// The sum that a number without a sign spells, in thousandths.
pub fn sum_word(word: &[u8]) -> Option<u64>
    ensures { result ≡ sum_word word.now }
{
    read_unsigned(word, MOST_SUM)
}

/// The places and the sum that the words of a text spell: the last word is the sum.
pub fn spelled_in(alloc: Global, text: &[u8]) -> Result<Spelled, LineFault>
    ensures read { IfOk result (λ of. spelled [] (words_of text.now) ≡ Some of) }
    ensures refused { IfErr result (λ fault. IsLineFault fault (in_form (spelled [] (words_of text.now)))) }
{
    let Some((mut word, mut left)) = next_word(text) else {
        return Err(LineFault::Refused(Cause::P1));
    };
    let mut places = List::new(alloc);
    while let Some((next, rest)) = next_word(left) {
        let Some(place) = place_of(word) else {
            return Err(LineFault::Refused(Cause::P1));
        };
        places.add(place)?;
        word = next;
        left = rest;
    }
    match sum_word(word) {
        Some(sum) => Ok(Spelled { places, sum }),
        None => Err(LineFault::Refused(Cause::P1)),
    }
}

/// There is one place for each axis, below its number of points.
pub fn are_on(axes: &[Axis], places: &[u32]) -> bool
    ensures { result ≡ are_on axes.now places.now }
{
    if axes.len() != places.len() {
        return false;
    }
    for (k, axis) in axes.iter().enumerate() {
        if places[k] >= axis.points {
            return false;
        }
    }
    true
}

/// The point at these places, with 0 past the last axis.
pub fn point_at(places: &[u32]) -> Point
    requires { length places.now ≤ 4 }
    ensures { result ≡ point_at places.now }
{
    let mut at = [0; 4];
    at[..places.len()].copy_from_slice(places);
    Point { at }
}
