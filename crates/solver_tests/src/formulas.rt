// Each builder at every place of small axes, against its formula.
ghost use Rattle.std.specs.Prelude.{◌≤ℤ◌, pos, ◌≤◌, ◌<◌};

use crate::rows::{count_at, number_at};
use crate::shapes::{Limit, limit_of, limited, line, peak_of, peaked, plane, steered, value};
use ivp_build::{BuildFault, Peak, flat, uniform};
use ivp_domain::Point;
use std::alloc::Global;
use std::process::Abort;

/// An axis.
#[derive(Clone, Copy)]
struct Scale {
    name: &'static [u8],
    low: i64,
    high: i64,
    points: u32,
}

// The axis of a row: `course` or `depth`, its ends and how many places it has.
fn axis_of(rt: &impl Abort, row: &'static str) -> Scale {
    Scale {
        name: row.split_whitespace().next().unwrap_or("").as_bytes(),
        low: number_at(rt, row, 1),
        high: number_at(rt, row, 2),
        points: count_at(rt, row, 3),
    }
}

// The quotient of two numbers that aren't below 0, rounded down.
fn part(number: i64, of: i64) -> i64 {
    number.checked_div(of).unwrap_or(0)
}

fn span(axis: &Scale) -> i64 {
    axis.high.saturating_sub(axis.low)
}

fn last(axis: &Scale) -> i64 {
    axis.points as i64 - 1
}

fn number(axis: &Scale, place: u32) -> i64 {
    let way = part((place as i64).saturating_mul(span(axis)), last(axis));
    axis.low.saturating_add(way)
}

fn wraps(axis: &Scale) -> bool {
    axis.name == b"course".as_slice()
        && axis.low == 0
        && axis.high.saturating_mul(axis.points as i64) == last(axis).saturating_mul(360_000)
}

fn apart(a: i64, b: i64) -> i64 {
    a.max(b).saturating_sub(a.min(b))
}

fn shorter(way: i64, circle: i64) -> i64 {
    let way = way.checked_rem(circle).unwrap_or(0);
    way.min(circle.saturating_sub(way))
}

fn miss(axis: &Scale, sought: i64, place: u32) -> i64 {
    let gap = apart(number(axis, place), sought);
    if wraps(axis) {
        shorter(gap, 360_000)
    } else {
        gap
    }
}

fn near(axis: &Scale, sought: i64) -> u32 {
    let mut best = 0;
    for place in 0..axis.points {
        if miss(axis, sought, place) < miss(axis, sought, best) {
            best = place;
        }
    }
    best
}

fn steps(axis: &Scale, width: i64) -> i64 {
    part(width.saturating_mul(last(axis)), span(axis)).max(1)
}

fn distance(axis: &Scale, place: u32, summit: u32) -> i64 {
    let way = apart(place as i64, summit as i64);
    if wraps(axis) {
        way.min((axis.points as i64).saturating_sub(way))
    } else {
        way
    }
}

fn peak_value(axis: &Scale, shape: &Peak, place: u32) -> i64 {
    let d = distance(axis, place, near(axis, shape.summit));
    let p = steps(axis, shape.peakwidth);
    let b = steps(axis, shape.basewidth);
    let a = part(shape.summitdelta, p);
    let v = shape.max.saturating_sub(a.saturating_mul(p));
    let c = part(v, b);
    if d <= p {
        shape.max.saturating_sub(a.saturating_mul(d))
    } else if d <= p.saturating_add(b) {
        v.saturating_sub(c.saturating_mul(d.saturating_sub(p)))
    } else {
        0
    }
}

fn last_up_to(axis: &Scale, limit: i64) -> u32 {
    let mut last = 0;
    for place in 0..axis.points {
        if number(axis, place) <= limit {
            last = place;
        }
    }
    last
}

fn first_from(axis: &Scale, limit: i64) -> u32 {
    for place in 0..axis.points {
        if number(axis, place) >= limit {
            return place;
        }
    }
    axis.points.saturating_sub(1)
}

fn limit_value(axis: &Scale, shape: &Limit, place: u32) -> i64 {
    let beyond = if shape.upper {
        place.saturating_sub(last_up_to(axis, shape.limit))
    } else {
        first_from(axis, shape.limit).saturating_sub(place)
    };
    let b = steps(axis, shape.basewidth);
    let c = part(shape.max, b);
    if beyond as i64 <= b {
        shape.max.saturating_sub(c.saturating_mul(beyond as i64))
    } else {
        0
    }
}

// Circles of four, five and two courses, a line of courses, and lines of odd and even numbers of depths, two of them, and
// uneven ones.
const AXES: &str = "course 0 270000 4
course 0 288000 5
course 0 180000 2
course 0 350000 6
depth 0 6000 7
depth -3000 4000 8
depth 0 90000 2
depth 0 100001 4";

// Of each peak SUMMIT, PEAKWIDTH, BASEWIDTH, SUMMITDELTA and MAX.
const PEAKS: &str = "0 10000 170000 25000 100000
90000 90000 90000 30000 100000
180000 0 0 0 100000
180000 0 0 100000 100000
200000 72000 72000 100000 100000
288000 1000000000 20000 50000 50000
359000 20000 1000000000 12500 50000
360000 144000 1 7 50001
-36000 90000 45000 0 0
400000 5000 5000 25000 99999
3000 1000 2000 33333 100000
-500 2000 3000 10 20
45000 90000 180000 1 100000
50000 100000 66667 99998 99999";

// Of each limit the end, BASEWIDTH and MAX.
const LIMITS: &str = "upper -1 2000 100000
upper 0 0 100000
upper 2999 1000000000 100000
upper 3000 3000 100000
upper 180000 120000 99999
upper 1000000 10000 7
upper 33333 50000 0
lower -4000 2000 100000
lower 1 0 100000
lower 3000 3000 100000
lower 180000 120000 99999
lower 1000000 1000000000 50000";

// A peak has its formula's value at each place.
fn peak_agrees(rt: &impl Abort, alloc: Global, axis: &Scale, shape: &Peak) {
    let domain = line(rt, axis.name, axis.low, axis.high, axis.points);
    let func = peaked(rt, alloc, &domain, shape);
    for place in 0..axis.points {
        assert!(rt; value(&func, place) == Some(peak_value(axis, shape, place)));
    }
}

// And so has a limit.
fn limit_agrees(rt: &impl Abort, alloc: Global, axis: &Scale, shape: &Limit) {
    let domain = line(rt, axis.name, axis.low, axis.high, axis.points);
    let func = limited(rt, alloc, &domain, shape);
    for place in 0..axis.points {
        assert!(rt; value(&func, place) == Some(limit_value(axis, shape, place)));
    }
}

// One value is the same at each place.
fn flat_agrees(rt: &impl Abort, alloc: Global, axis: &Scale) {
    let domain = line(rt, axis.name, axis.low, axis.high, axis.points);
    let func = flat(alloc, &domain, 100_000).expect(rt, "memory");
    for place in 0..axis.points {
        assert!(rt; value(&func, place) == Some(100_000));
    }
}

// The sum of two peaks, at each of four courses and four speeds.
fn sum_agrees(rt: &impl Abort, alloc: Global, course: &Peak, speed: &Peak) {
    let func = steered(rt, alloc, &plane(rt), course, speed);
    let round = axis_of(rt, "course 0 270000 4");
    let along = axis_of(rt, "speed 0 3000 4");
    for index in 0..16 {
        let one = peak_value(&round, course, index / 4);
        let other = peak_value(&along, speed, index % 4);
        assert!(rt; value(&func, index) == Some(one.saturating_add(other)));
    }
}

#[test]
fn formulas(rt: HostRuntime) {
    for row in AXES.lines() {
        let axis = axis_of(&rt, row);
        for row in PEAKS.lines() {
            peak_agrees(&rt, rt.alloc(), &axis, &peak_of(&rt, row));
        }
        for row in LIMITS.lines() {
            limit_agrees(&rt, rt.alloc(), &axis, &limit_of(&rt, row));
        }
        flat_agrees(&rt, rt.alloc(), &axis);
    }
    let speed = peak_of(&rt, "-500 2000 3000 10 20");
    let near = peak_of(&rt, "288000 1000000000 20000 50000 50000");
    sum_agrees(&rt, rt.alloc(), &near, &speed);
    let far = peak_of(&rt, "359000 20000 1000000000 12500 50000");
    sum_agrees(&rt, rt.alloc(), &far, &speed);
}

// A utility of no simple form, from 0 to 99,000.
fn bumpy(point: &Point) -> i64
    ensures low { pos 0 ≤ℤ result }
    ensures high { result ≤ℤ pos 100000 }
{
    let one = point.at[0].wrapping_mul(point.at[0]).wrapping_mul(5);
    let sum = one.wrapping_add(point.at[1].wrapping_mul(7));
    (sum % 12) as i64 * 9_000
}

// The utility at the place of these two axes.
fn bump(first: u32, second: u32) -> i64 {
    bumpy(&Point {
        at: [first, second, 0, 0],
    })
}

// The first and last place of a place's box on an axis of four.
fn run(place: u32, size: u32) -> (u32, u32) {
    let low = place.saturating_sub(place.checked_rem(size).unwrap_or(0));
    (low, low.saturating_add(size).saturating_sub(1).min(3))
}

fn uniform_value(size: u32, first: u32, second: u32) -> i64 {
    let (west, east) = run(first, size);
    let (south, north) = run(second, size);
    let low = bump(west, south);
    let up = part(
        bump(east, south).saturating_sub(low),
        apart(east as i64, west as i64),
    );
    let side = part(
        bump(west, north).saturating_sub(low),
        apart(north as i64, south as i64),
    );
    let grown = |x: u32, y: u32| {
        let rise = up.saturating_mul(apart(x as i64, west as i64));
        low.saturating_add(rise)
            .saturating_add(side.saturating_mul(apart(y as i64, south as i64)))
    };
    for x in west..east.saturating_add(1) {
        for y in south..north.saturating_add(1) {
            if grown(x, y) < 0 || grown(x, y) > 100_000 {
                return low;
            }
        }
    }
    grown(first, second)
}

#[test]
fn samples(rt: HostRuntime) {
    let domain = plane(&rt);
    for size in 1..6 {
        let func = uniform(rt.alloc(), &domain, size, &|point: &Point| bumpy(point)).expect(
            &rt, "a sample",
        );
        for index in 0..16 {
            assert!(rt; value(&func, index) == Some(uniform_value(size, index / 4, index % 4)));
        }
    }
}
