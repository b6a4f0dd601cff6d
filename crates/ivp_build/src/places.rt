// Numbers and the places of an axis.
ghost use Rattle.std.specs.Prelude.{◌≡◌, ◌≤◌, ◌<◌, ◌*◌, ◌-◌, ◌+◌, ◌/◌, ◌^◌, ℕ, length, pos, nat_abs, nat_lt, int_lt, ◌-ℤ◌, ◌<ℤ◌, ◌≤ℤ◌, IsTrue};
ghost use Rattle.ivp_domain.specs.Axes.{is_end, is_good_axis, value_on};
ghost use Rattle.ivp_domain.specs.Domains.{is_domain, size_on};
ghost use Rattle.ivp_build.specs.Places.{IsNumber, IsWidth, axis_on, first_from, last_up_to, steps_of};

use ivp_domain::{Axis, Domain};

/// The axis of this number.
pub(crate) fn axis_on(domain: &Domain, axis: u32) -> Axis
    requires axis { axis < length domain.now }
    ensures axis { result ≡ axis_on domain.now axis }
    ensures count { result.points ≡ size_on axis domain.now }
    ensures good { IsTrue (is_good_axis result) }
    ensures few { result.points ≤ 2 ^ 28 }
    ensures lawful { IsTrue (is_domain domain.now) }
{
    let axes = domain.axes();
    prove!(axis < axes);
    domain.axis(axis)
}

/// How far the ends of an axis are apart.
fn span_of(axis: &Axis) -> u64
    requires good { IsTrue (is_good_axis axis.now) }
    ensures span { result ≡ nat_abs (axis.now.high -ℤ axis.now.low) }
    ensures some { 0 < result }
    ensures points { 2 ≤ axis.now.points }
{
    (axis.high - axis.low) as u64
}

/// How many places a width spans, if `last` steps make up `span`.
fn spanned(width: u64, last: u64, span: u64) -> u128
    requires width { width ≤ 10 ^ 12 }
    requires last { last < 2 ^ 28 }
    requires span { 0 < span }
    ensures places { result ≡ width * last / span }
    ensures most { result ≤ 10 ^ 12 * 2 ^ 28 }
{
    width as u128 * last as u128 / span as u128
}

/// How many places a width spans on an axis, rounded down, and one at least.
pub(crate) fn steps_of(axis: &Axis, width: i64) -> u128
    requires good { IsTrue (is_good_axis axis.now) }
    requires few { axis.now.points ≤ 2 ^ 28 }
    requires width { IsWidth width }
    ensures steps { result ≡ steps_of axis.now (nat_abs width) }
    ensures some { 0 < result }
    ensures most { result ≤ 10 ^ 12 * 2 ^ 28 }
{
    let span = span_of(axis);
    spanned(width as u64, axis.points as u64 - 1, span).max(1)
}

/// How far a number is above the low end of an axis.
fn above_low(axis: &Axis, number: i64) -> u64
    requires good { IsTrue (is_good_axis axis.now) }
    requires number { IsNumber number }
    requires above { axis.now.low <ℤ number }
    ensures part { pos result ≡ number -ℤ axis.now.low }
    ensures some { 0 < result }
    ensures most { result ≤ 2 * 10 ^ 12 + 1 }
{
    (number - axis.low) as u64
}

/// How many places have less than this part of the span below them.
fn places_below(part: u64, last: u64, span: u64) -> u128
    requires part { (0 < part) × (part ≤ 2 * 10 ^ 12 + 1) }
    requires last { (0 < last) × (last < 2 ^ 28) }
    requires span { 0 < span }
    ensures { (place : ℕ) → nat_lt place result ≡ nat_lt (place * span / last) part }
{
    (part as u128 * last as u128 - 1) / span as u128 + 1
}

/// How many places of an axis have a number below this one. They come first.
fn count_below(axis: &Axis, number: i64) -> u32
    requires good { IsTrue (is_good_axis axis.now) }
    requires few { axis.now.points ≤ 2 ^ 28 }
    requires number { IsNumber number }
    ensures each { (place : ℕ) → place < axis.now.points → nat_lt place result ≡ int_lt (value_on axis.now place) number }
    ensures within { result ≤ axis.now.points }
{
    if number <= axis.low {
        return 0;
    }
    let span = span_of(axis);
    let below = places_below(above_low(axis, number), axis.points as u64 - 1, span);
    below.min(axis.points as u128) as u32
}

/// The last place whose number is at most the limit, or the first of all.
pub(crate) fn last_up_to(axis: &Axis, limit: i64) -> u32
    requires good { IsTrue (is_good_axis axis.now) }
    requires few { axis.now.points ≤ 2 ^ 28 }
    requires limit { IsTrue (is_end limit) }
    ensures last { result ≡ last_up_to axis.now limit }
    ensures within { result < axis.now.points }
{
    count_below(axis, limit + 1).saturating_sub(1)
}

/// The first place whose number is at least the limit, or the last of all.
pub(crate) fn first_from(axis: &Axis, limit: i64) -> u32
    requires good { IsTrue (is_good_axis axis.now) }
    requires few { axis.now.points ≤ 2 ^ 28 }
    requires limit { IsTrue (is_end limit) }
    ensures first { result ≡ first_from axis.now limit }
    ensures before { (place : ℕ) → place < result → value_on axis.now place <ℤ limit }
    ensures reached { result < axis.now.points - 1 → limit ≤ℤ value_on axis.now result }
    ensures within { result < axis.now.points }
{
    count_below(axis, limit).min(axis.points - 1)
}
