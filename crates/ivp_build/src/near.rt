// The place that is nearest to a number, on an axis that may be a circle.
ghost use Rattle.std.specs.Prelude.{◌≡◌, ◌≤◌, ◌<◌, ◌≤ℤ◌, ◌<ℤ◌, ◌-◌, ◌*◌, ◌*ℤ◌, ◌^◌, ℕ, length, pos, if◌then◌else◌, IsTrue};
ghost use Rattle.std.specs.Ordering.{int_eq};
ghost use Rattle.ivp_domain.specs.Axes.{is_end, is_good_axis, value_on};
ghost use Rattle.ivp_domain.specs.Domains.{size_on};
ghost use Rattle.ivp_build.specs.Places.{axis_on, course_of, miss, near, nearer, shorter_way, wraps};

use crate::places::{axis_on, first_from};
use ivp_domain::{Axis, Domain};

/// A whole circle, in thousandths of a degree.
const CIRCLE: u64 = 360_000;

/// The last of `points` places is one step before a whole circle.
fn ends_before_circle(high: u64, points: u64) -> bool
    requires high { high ≤ 10 ^ 12 }
    requires few { points ≤ 2 ^ 28 }
    requires some { 0 < points }
    ensures { result ≡ int_eq (pos high *ℤ pos points) (pos (360000 * (points - 1))) }
{
    high as u128 * points as u128 == CIRCLE as u128 * (points as u128 - 1)
}

/// The axis is a whole circle of courses: named `course`, from 0, with its last place one step
/// before 360 degrees.
pub(crate) fn wraps(axis: &Axis) -> bool
    requires good { IsTrue (is_good_axis axis.now) }
    requires few { axis.now.points ≤ 2 ^ 28 }
    ensures { result ≡ wraps axis.now }
{
    axis.name.bytes() == b"course".as_slice()
        && axis.low == 0
        && ends_before_circle(axis.high as u64, axis.points as u64)
}

/// The shorter way round a circle.
fn shorter_way(way: u64) -> u64
    ensures { result ≡ shorter_way 360000 way }
{
    let one = way % CIRCLE;
    one.min(CIRCLE - one)
}

/// The number at a place of an axis.
fn value_at_place(domain: &Domain, axis: u32, place: u32) -> i64
    requires axis { axis < length domain.now }
    requires place { place < size_on axis domain.now }
    ensures { result ≡ value_on (axis_on domain.now axis) place }
{
    domain.value(axis, place)
}

/// How far the number at a place is from this one: round the circle if the axis wraps.
fn miss(domain: &Domain, axis: u32, number: i64, place: u32) -> u64
    requires axis { axis < length domain.now }
    requires place { place < size_on axis domain.now }
    ensures { result ≡ miss (axis_on domain.now axis) number place }
{
    let gap = value_at_place(domain, axis, place).abs_diff(number);
    let along = axis_on(domain, axis);
    if wraps(&along) { shorter_way(gap) } else { gap }
}

/// Of two places the first, unless the second is nearer.
fn nearer(domain: &Domain, axis: u32, number: i64, first: u32, second: u32) -> u32
    requires axis { axis < length domain.now }
    requires first { first < size_on axis domain.now }
    requires second { second < size_on axis domain.now }
    ensures place { result ≡ nearer (miss (axis_on domain.now axis) number) first second }
    ensures within { result < size_on axis domain.now }
{
    if miss(domain, axis, number, second) < miss(domain, axis, number, first) {
        second
    } else {
        first
    }
}

/// The same course from 0 to below a whole circle.
fn course_of(number: i64) -> u64
    ensures course { result ≡ course_of number }
    ensures within { result < 360000 }
{
    let part = number.unsigned_abs() % CIRCLE;
    if number < 0 && part > 0 {
        CIRCLE - part
    } else {
        part
    }
}

/// The number that is sought on an axis: if it wraps, the course from 0 to below a circle.
fn sought(axis: &Axis, number: i64) -> i64
    requires good { IsTrue (is_good_axis axis.now) }
    requires few { axis.now.points ≤ 2 ^ 28 }
    requires number { IsTrue (is_end number) }
    ensures sought { result ≡ (if wraps axis.now then pos (course_of number) else number) }
    ensures within { IsTrue (is_end result) }
{
    if wraps(axis) {
        course_of(number) as i64
    } else {
        number
    }
}

/// The first place that has the same number as the one before this place, 0 before place 0.
fn first_before(domain: &Domain, axis: u32, place: u32) -> u32
    requires axis { axis < length domain.now }
    requires place { place < size_on axis domain.now }
    ensures none { place ≡ 0 → result ≡ 0 }
    ensures before { (other : ℕ) → other < result → value_on (axis_on domain.now axis) other <ℤ value_on (axis_on domain.now axis) (place - 1) }
    ensures reached { 0 < place → result < size_on axis domain.now - 1 → value_on (axis_on domain.now axis) (place - 1) ≤ℤ value_on (axis_on domain.now axis) result }
    ensures within { result < size_on axis domain.now }
{
    if place == 0 {
        return 0;
    }
    let along = axis_on(domain, axis);
    first_from(&along, value_at_place(domain, axis, place - 1))
}

/// The place whose number is nearest, and the least of several. Of the places whose number is
/// below the one sought the nearest is the last, of the others the first; round a circle place 0
/// may be nearer than both.
pub(crate) fn near(domain: &Domain, axis: u32, number: i64) -> u32
    requires axis { axis < length domain.now }
    requires number { IsTrue (is_end number) }
    ensures place { result ≡ near (axis_on domain.now axis) number }
    ensures within { result < size_on axis domain.now }
{
    let along = axis_on(domain, axis);
    let above = first_from(&along, sought(&along, number));
    let below = first_before(domain, axis, above);
    let lower = nearer(domain, axis, number, 0, below);
    nearer(domain, axis, number, lower, above)
}
