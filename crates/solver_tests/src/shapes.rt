// The shapes of functions: limits, peaks, sums.
ghost use Rattle.std.specs.Prelude.{◌≡◌, ◌<◌, IsTrue};
ghost use Rattle.ivp_domain.specs.Domains.{is_point};
ghost use Rattle.ivp_build.specs.Shapes.{IsPeak};

use crate::made::{axis, axis_from, domain_of};
use crate::rows::number_at;
use ivp_build::{Peak, at_least, at_most, couple, flat, peak};
use ivp_domain::{Domain, Point, Steps};
use ivp_func::Func;
use std::alloc::Global;
use std::marker::Brand;
use std::process::Abort;
use std::sync::ledger::{Blank, Ledger};

/// A domain of one axis.
pub(crate) fn line(rt: &impl Abort, name: &[u8], low: i64, high: i64, points: u32) -> Domain {
    domain_of(rt, &[axis_from(rt, name, low, high, points)])
}

/// The value at a point, counted by a ledger of its own.
fn counted<L: Ledger>(func: &Func, point: &Point, blank: Blank) -> i64
    requires point { IsTrue (is_point func.now.axes point.now) }
    requires name { blank.name ≡ L.name }
    requires parts { blank.parts ≡ L.parts }
    requires some { 0 < blank.parts }
{
    let mut steps = Steps::<L>::new(blank);
    func.value_at(point, &mut steps)
}

/// The value at the point of an index, if the domain has it.
pub(crate) fn value(func: &Func, index: u32) -> Option<i64> {
    let domain = func.domain();
    if index < domain.points() {
        let point = domain.point_at(index);
        Some(counted::<Brand>(func, &point, Blank::new(1)))
    } else {
        None
    }
}

/// A limit on the depth: an upper one, or a lower one.
#[derive(Clone, Copy)]
pub(crate) struct Limit {
    pub upper: bool,
    pub limit: i64,
    pub basewidth: i64,
    pub max: i64,
}

/// The function of a limit whose numbers are within their bounds.
pub(crate) fn limited(rt: &impl Abort, alloc: Global, domain: &Domain, shape: &Limit) -> Func {
    let reach = 1_000_000_000_000;
    assert!(rt; domain.axes() >= 1);
    assert!(rt; shape.limit >= -reach && shape.limit <= reach);
    assert!(rt; shape.basewidth >= 0 && shape.basewidth <= reach);
    assert!(rt; shape.max >= 0 && shape.max <= 100_000);
    let made = if shape.upper {
        at_most(alloc, domain, 0, shape.limit, shape.basewidth, shape.max)
    } else {
        at_least(alloc, domain, 0, shape.limit, shape.basewidth, shape.max)
    };
    made.expect(rt, "memory")
}

/// The limit of a row: `upper` or `lower`, and its three numbers.
pub(crate) fn limit_of(rt: &impl Abort, row: &str) -> Limit {
    Limit {
        upper: row.starts_with("upper "),
        limit: number_at(rt, row, 1),
        basewidth: number_at(rt, row, 2),
        max: number_at(rt, row, 3),
    }
}

/// A function over five points has the values that a row says from this word on.
fn has_values(rt: &impl Abort, func: &Func, row: &str, words: usize) {
    for place in 0..5u32 {
        let expected = number_at(rt, row, words.saturating_add(place as usize));
        assert!(rt; value(func, place) == Some(expected), "{row}");
    }
}

// Limits on five depths from 10 to 50, and their values there.
const LIMITS: &str = "upper 0 20000 100000 : 100000 50000 0 0 0
upper 30000 20000 100000 : 100000 100000 100000 50000 0
upper 39999 20000 7 : 7 7 7 4 1
upper 60000 20000 100000 : 100000 100000 100000 100000 100000
upper 10000 0 100000 : 100000 0 0 0 0
upper 10000 1000000 100000 : 100000 99000 98000 97000 96000
upper 20000 20000 0 : 0 0 0 0 0
lower 30001 20000 100000 : 0 0 50000 100000 100000
lower 60000 20000 7 : 0 0 1 4 7
lower 0 20000 100000 : 100000 100000 100000 100000 100000";

#[test]
fn limits(rt: HostRuntime) {
    let domain = line(&rt, b"depth", 10_000, 50_000, 5);
    for row in LIMITS.lines() {
        let func = limited(&rt, rt.alloc(), &domain, &limit_of(&rt, row));
        has_values(&rt, &func, row, 5);
    }
    let level = flat(rt.alloc(), &domain, 7).expect(&rt, "memory");
    assert!(rt; level.len() == 1 && value(&level, 4) == Some(7));
}

/// On the most points of an axis a thousandth long, a width spans more places than 64 bits count, and a step is one place.
#[test]
fn limits_on_the_most_points(rt: HostRuntime) {
    let domain = line(&rt, b"depth", 0, 1, 268_435_456);
    let wide = limit_of(&rt, "upper 0 1000000000000 7");
    let func = limited(&rt, rt.alloc(), &domain, &wide);
    assert!(rt; value(&func, 0) == Some(7) && value(&func, 268_435_454) == Some(7));
    assert!(rt; value(&func, 268_435_455) == Some(7));
    let steep = limit_of(&rt, "lower 1 0 7");
    let func = limited(&rt, rt.alloc(), &domain, &steep);
    assert!(rt; value(&func, 0) == Some(0) && value(&func, 268_435_454) == Some(0));
    assert!(rt; value(&func, 268_435_455) == Some(7));
}

/// Whether the numbers of a peak are within their bounds.
fn is_peak(shape: &Peak) -> bool
    ensures { IsTrue result → IsPeak shape.now }
{
    let reach = 1_000_000_000_000;
    if shape.summit < -reach || shape.summit > reach {
        return false;
    }
    if shape.peakwidth < 0 || shape.peakwidth > reach {
        return false;
    }
    if shape.basewidth < 0 || shape.basewidth > reach {
        return false;
    }
    if shape.summitdelta < 0 || shape.summitdelta > shape.max || shape.max > 100_000 {
        return false;
    }
    true
}

/// The peak of these numbers on the first axis, if they are within their bounds.
pub(crate) fn peaked(rt: &impl Abort, alloc: Global, domain: &Domain, shape: &Peak) -> Func {
    assert!(rt; domain.axes() >= 1);
    assert!(rt; is_peak(shape));
    peak(alloc, domain, 0, shape).expect(rt, "memory")
}

/// The peak of a row: `SUMMIT PEAKWIDTH BASEWIDTH SUMMITDELTA MAX`.
pub(crate) fn peak_of(rt: &impl Abort, row: &str) -> Peak {
    Peak {
        summit: number_at(rt, row, 0),
        peakwidth: number_at(rt, row, 1),
        basewidth: number_at(rt, row, 2),
        summitdelta: number_at(rt, row, 3),
        max: number_at(rt, row, 4),
    }
}

/// The peak of each row has the row's values at five points.
fn are_peaks(rt: &impl Abort, alloc: Global, domain: &Domain, rows: &str) {
    for row in rows.lines() {
        let func = peaked(rt, alloc, domain, &peak_of(rt, row));
        has_values(rt, &func, row, 6);
    }
}

// Peaks on five speeds a metre a second apart, and their values there.
const PLAIN: &str = "2000 1000 1000 40000 100000 : 0 60000 100000 60000 0
1500 0 9000 0 100000 : 100000 100000 100000 88889 77778
-9000 9000 0 100000 100000 : 100000 88889 77778 66667 55556";

// Peaks on a circle of five courses.
const FIVE: &str = "288000 72000 72000 40000 100000 : 60000 0 0 60000 100000
-36000 72000 72000 40000 100000 : 100000 60000 0 0 60000";

#[test]
fn peaks(rt: HostRuntime) {
    are_peaks(&rt, rt.alloc(), &line(&rt, b"speed", 0, 4_000, 5), PLAIN);
    are_peaks(&rt, rt.alloc(), &line(&rt, b"course", 0, 288_000, 5), FIVE);
    // Half way round an even circle is of the right side; a run ends before a summit.
    let four = line(&rt, b"course", 0, 270_000, 4);
    let shape = peak_of(&rt, "0 180000 90000 30000 100000");
    let func = peaked(&rt, rt.alloc(), &four, &shape);
    assert!(rt; func.len() == 2 && value(&func, 2) == Some(70_000));
    let two = line(&rt, b"course", 0, 180_000, 2);
    let shape = peak_of(&rt, "180000 180000 180000 25000 100000");
    let func = peaked(&rt, rt.alloc(), &two, &shape);
    assert!(rt; func.len() == 2 && value(&func, 0) == Some(75_000));
}

/// The sum of a peak about a course and one about a speed, each of 50,000 at most.
pub(crate) fn steered(
    rt: &impl Abort,
    alloc: Global,
    domain: &Domain,
    course: &Peak,
    speed: &Peak,
) -> Func {
    assert!(rt; domain.axes() >= 2);
    assert!(rt; is_peak(course));
    assert!(rt; is_peak(speed));
    assert!(rt; course.max >= 0);
    assert!(rt; course.max <= 50_000);
    assert!(rt; speed.max >= 0);
    assert!(rt; speed.max <= 50_000);
    let f = peak(alloc, domain, 0, course).expect(rt, "memory");
    let g = peak(alloc, domain, 1, speed).expect(rt, "memory");
    couple(alloc, &f, &g).expect(rt, "a sum")
}

/// Four courses round a circle, and as many speeds.
pub(crate) fn plane(rt: &impl Abort) -> Domain {
    let course = axis(rt, b"course", 270_000, 4);
    let speed = axis(rt, b"speed", 3_000, 4);
    domain_of(rt, &[course, speed])
}

#[test]
fn sums(rt: HostRuntime) {
    let course = peak_of(&rt, "270000 90000 90000 10000 50000");
    let speed = peak_of(&rt, "1000 1000 1000 20000 50000");
    let func = steered(&rt, rt.alloc(), &plane(&rt), &course, &speed);
    let courses = "40000 0 40000 50000";
    let speeds = "30000 50000 30000 0";
    for index in 0..16u32 {
        let one = number_at(&rt, courses, index as usize / 4);
        let other = number_at(&rt, speeds, index as usize % 4);
        assert!(rt; value(&func, index) == Some(one.saturating_add(other)));
    }
}
