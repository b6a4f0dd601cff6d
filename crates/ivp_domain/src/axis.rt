// An axis: its name, its numbers, how many points it has.
ghost use Rattle.std.specs.Prelude.{◌≡◌, ℕ, ◌-◌, ◌^◌, ◌<◌, ◌≤◌, ◌↔◌, List, ◌++◌, ◌*◌, ◌/◌, ◌-ℤ◌, nat_abs, length, take, replicate, IsTrue, IsSome, IfSome};
ghost use Rattle.std.specs.List.{list_all};
ghost use Rattle.ivp_domain.specs.AxisNames.{is_axis_name, is_axis_letter, is_word_byte};
ghost use Rattle.ivp_domain.specs.Axes.{is_good_axis, no_axis, value_on};

use std::marker::Model;

/// The name of an axis: 1 to 16 letters, digits or `_`, the first a letter.
#[derive(Clone, Copy, Debug, PartialEq, Eq)]
pub struct AxisName {
    letters: [u8; 16],
    count: usize,
}

impl Model for AxisName {
    ghost use Rattle.std.specs.Prelude.{◌≡◌, ℕ, ◌-◌, ◌≤◌, List, ◌++◌, length, take, replicate, IsTrue};
    ghost use Rattle.ivp_domain.specs.AxisNames.{is_axis_name};
    ghost use Rattle.ivp_domain.specs.Filled.{IsFilled};

    ghost Value = { List ℕ };

    ghost view = { λ n. take n.count n.letters };

    ghost invariant = { λ n. IsTrue (is_axis_name (take n.count n.letters)) × IsFilled 16 0 n.count n.letters };

    ghost inverse = { λ name. record { letters = name ++ replicate (16 - length name) 0; count = length name } };
}

fn letter(byte: u8) -> bool
    ensures { result ≡ is_axis_letter byte }
{
    (byte >= 65 && byte <= 90) || (byte >= 97 && byte <= 122)
}

fn word_byte(byte: u8) -> bool
    ensures { result ≡ is_word_byte byte }
{
    letter(byte) || (byte >= 48 && byte <= 57) || byte == 95
}

fn word_bytes(bytes: &[u8]) -> bool
    ensures { result ≡ list_all is_word_byte bytes.now }
{
    bytes.iter().all(|byte| word_byte(*byte))
}

fn axis_name(bytes: &[u8]) -> bool
    ensures { result ≡ is_axis_name bytes.now }
{
    bytes.len() > 0 && letter(bytes[0]) && bytes.len() <= 16 && word_bytes(bytes)
}

impl AxisName {
    /// The name that these bytes spell. `None` exactly if they are no name of an axis.
    pub fn new(bytes: &[u8]) -> Option<AxisName>
        ensures name { IsSome result ↔ IsTrue (is_axis_name bytes.now) }
        ensures bytes { IfSome result (λ name. name ≡ bytes.now) }
    {
        if !axis_name(bytes) {
            return None;
        }
        let mut letters = [0; 16];
        letters[..bytes.len()].copy_from_slice(bytes);
        Some(AxisName {
            letters,
            count: bytes.len(),
        })
    }

    /// The bytes of the name.
    pub fn bytes(&self) -> &[u8]
        ensures value { result.now ≡ self.now }
        ensures name { IsTrue (is_axis_name result.now) }
    {
        &self.letters[..self.count]
    }
}

/// One axis of a domain: `points` places, evenly from `low` to `high`, in thousandths of the unit.
#[derive(Clone, Copy, Debug, PartialEq, Eq)]
pub struct Axis {
    pub name: AxisName,
    pub low: i64,
    pub high: i64,
    pub points: u32,
}

/// How far from 0 an end of an axis may lie, in thousandths.
const REACH: i64 = 1_000_000_000_000;

/// At least two points, and both ends within reach of 0, the low one below the high one.
pub(crate) fn good_axis(axis: &Axis) -> bool
    ensures { result ≡ is_good_axis axis.now }
{
    axis.points >= 2
        && axis.low < axis.high
        && -REACH <= axis.low
        && axis.low <= REACH
        && -REACH <= axis.high
        && axis.high <= REACH
}

/// That part of a span which lies below a place, rounded down.
fn part_of(span: u64, place: u32, points: u32) -> u64
    requires span { span ≤ 2 * 10 ^ 12 }
    requires place { place < points }
    requires few { points ≤ 2 ^ 28 }
    requires some { 2 ≤ points }
    ensures part { result ≡ place * span / (points - 1) }
    ensures within { result ≤ span }
{
    (place as u128 * span as u128 / (points as u128 - 1)) as u64
}

/// How far the ends of a good axis are apart.
fn span_of(axis: &Axis) -> u64
    requires { IsTrue (is_good_axis axis.now) }
    ensures span { result ≡ nat_abs (axis.now.high -ℤ axis.now.low) }
    ensures within { result ≤ 2 * 10 ^ 12 }
    ensures some { 2 ≤ axis.now.points }
{
    (axis.high - axis.low) as u64
}

/// The number at a place of a good axis, in thousandths of the unit.
pub(crate) fn number_at(axis: &Axis, place: u32) -> i64
    requires good { IsTrue (is_good_axis axis.now) }
    requires place { place < axis.now.points }
    requires few { axis.now.points ≤ 2 ^ 28 }
    ensures { result ≡ value_on axis.now place }
{
    axis.low + part_of(span_of(axis), place, axis.points) as i64
}

/// What is past the last axis of a domain: an axis of one point.
pub(crate) fn filler() -> Axis
    ensures { result ≡ no_axis }
{
    let mut letters = [0; 16];
    letters[0] = 120;
    Axis {
        name: AxisName { letters, count: 1 },
        low: 0,
        high: 1,
        points: 1,
    }
}
