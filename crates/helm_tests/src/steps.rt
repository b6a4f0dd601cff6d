// Updates and steps of a behaviour, of each a row that says what comes of it.
ghost use Rattle.std.specs.Prelude.{◌≡◌, ◌<◌, IsTrue};
ghost use Rattle.ivp_domain.specs.Domains.{is_point};
ghost use Rattle.bhv_file.specs.declared.spec.Shape.{Shape};
ghost use Rattle.bhv_file.specs.Params.{has_axes};

use crate::made::{count_at, holds, name, number, number_at, text, word_at};
use bhv_file::has_axis;
use bhv_kinds::{BhvFault, Kind, Out};
use helm_cond::Info;
use ivp_domain::{Axis, AxisName, Domain, Point, Steps};
use ivp_func::Func;
use moos_post::Copied;
use std::alloc::Global;
use std::marker::Brand;
use std::process::Abort;
use std::sync::ledger::{Blank, Ledger};

fn axis(rt: &impl Abort, name: &[u8], high: i64, points: u32) -> Axis {
    let name = AxisName::new(name).expect(rt, "a name");
    Axis {
        name,
        low: 0,
        high,
        points,
    }
}

// Four courses round a circle, three speeds and three depths.
#[tactic(auto, using(bhv_kinds::proofs::KindExamples::three_axes))]
fn waters(rt: &impl Abort) -> Domain
    ensures { (shape : Shape) → IsTrue (has_axes result shape) }
{
    let course = axis(rt, b"course", 270_000, 4);
    let speed = axis(rt, b"speed", 2_000, 3);
    let depth = axis(rt, b"depth", 20_000, 3);
    let domain = Domain::make(&[course, speed, depth]).expect(rt, "a domain");
    assert!(rt; has_axis(&domain, b"course"));
    assert!(rt; has_axis(&domain, b"speed"));
    assert!(rt; has_axis(&domain, b"depth"));
    domain
}

/// The value at a point, counted by a ledger of its own.
fn counted<L: Ledger>(func: &Func, point: &Point, blank: Blank) -> i64
    requires point { IsTrue (is_point func.now.axes point.now) }
    requires name { blank.name ≡ L.name }
    requires parts { blank.parts ≡ L.parts }
    requires some { 0 < blank.parts }
{
    let mut steps = Steps::<L>::new(blank);
    func.value_at(point, &mut steps)
}

/// The value at the point of an index, if the domain has it.
fn value(func: &Func, index: u32) -> Option<i64> {
    let domain = func.domain();
    if index < domain.points() {
        let point = domain.point_at(index);
        Some(counted::<Brand>(func, &point, Blank::new(1)))
    } else {
        None
    }
}

fn learn(rt: &impl Abort, alloc: Global, info: &mut Info, var: &str, thousandths: Option<i64>) {
    if let Some(thousandths) = thousandths {
        let var = name(rt, alloc, var);
        let value = number(rt, thousandths);
        info.learn(alloc, &var, &value).expect(rt, "memory");
    }
}

// What is known of the vehicle: its place, if a row says it, and its depth.
fn known(rt: &impl Abort, alloc: Global, row: &str, depth: Option<i64>) -> Info {
    let mut info = Info::make(alloc);
    learn(rt, alloc, &mut info, "NAV_DEPTH", depth);
    learn(rt, alloc, &mut info, "NAV_X", number_at(row, 1));
    learn(rt, alloc, &mut info, "NAV_Y", number_at(row, 2));
    info
}

// What a step at the place of a row gives.
fn stepped(
    rt: &impl Abort,
    alloc: Global,
    kind: &mut Kind,
    row: &str,
    depth: Option<i64>,
    stamp: u64,
) -> Out {
    let domain = waters(rt);
    let info = known(rt, alloc, row, depth);
    let fresh = word_at(row, 0) == "fresh";
    let out = kind.step(alloc, &domain, &info, stamp, fresh);
    out.expect(rt, "memory")
}

// The word for the axes that a step's function mentions.
fn axes_word(out: &Out) -> &'static str {
    match (out.course, out.speed, out.depth) {
        (false, false, false) => "none",
        (true, false, false) => "course",
        (false, true, false) => "speed",
        (false, false, true) => "depth",
        (true, true, false) => "both",
        _ => "others",
    }
}

// The word for a step's fault.
fn fault_word(out: &Out) -> &'static str {
    match out.fault {
        None => "none",
        Some(BhvFault::NoPosition) => "NoPosition",
        Some(BhvFault::OutsidePolygon) => "OutsidePolygon",
        Some(BhvFault::TooDeep) => "TooDeep",
        Some(BhvFault::TooLate) => "TooLate",
    }
}

// The values of a step's function at the least place of all, at one course, speed or depth more.
fn has_values(rt: &impl Abort, func: &Func, row: &str) {
    holds(rt, row, value(func, 0) == number_at(row, 4));
    holds(rt, row, value(func, 9) == number_at(row, 5));
    holds(rt, row, value(func, 3) == number_at(row, 6));
    holds(rt, row, value(func, 1) == number_at(row, 7));
}

// What a step gives has no fault, and mentions the axis of a row, with its values.
fn is_given(rt: &impl Abort, out: &Out, row: &str) {
    holds(rt, row, axes_word(out) == word_at(row, 3));
    holds(rt, row, fault_word(out) == "none");
    holds(rt, row, !out.done);
    match &out.func {
        Some(func) => has_values(rt, func, row),
        None => holds(rt, row, number_at(row, 4).is_none()),
    }
}

// A step has the fault of a row, and gives no function.
fn has_fault(rt: &impl Abort, out: &Out, row: &str) {
    holds(rt, row, axes_word(out) == "none");
    holds(rt, row, out.func.is_none());
    holds(rt, row, fault_word(out) == word_at(row, 5));
}

// The index of the first of the best points.
fn best(func: &Func) -> u32 {
    let mut best = 0;
    for index in 0..36 {
        if value(func, index).unwrap_or(0) > value(func, best).unwrap_or(0) {
            best = index;
        }
    }
    best
}

// Of four courses, three speeds and three depths the first of the best points has the course and the speed of these numbers, and this
// utility.
fn leads(rt: &impl Abort, func: &Func, row: &str) {
    let best = best(func);
    holds(rt, row, Some((best / 9) as i64) == number_at(row, 3));
    holds(rt, row, Some((best / 3 % 3) as i64) == number_at(row, 4));
    holds(rt, row, value(func, best) == number_at(row, 5));
}

// A step leads somewhere or nowhere, as a row says.
fn is_led(rt: &impl Abort, out: &Out, row: &str) {
    let is_led = number_at(row, 3).is_some();
    holds(
        rt,
        row,
        axes_word(out) == if is_led { "both" } else { "none" },
    );
    match &out.func {
        Some(func) => leads(rt, func, row),
        None => holds(rt, row, !is_led),
    }
}

// A step that is the last one is done, and one without a place has this fault alone.
fn has_ended(rt: &impl Abort, out: &Out, row: &str) {
    holds(rt, row, out.done == (word_at(row, 0) == "last"));
    let is_known = number_at(row, 1).is_some();
    let fault = if is_known { "none" } else { "NoPosition" };
    holds(rt, row, fault_word(out) == fault);
}

fn is_told(rt: &impl Abort, out: &Out, row: &str) {
    match word_at(row, 0) {
        "gives" => is_given(rt, out, row),
        "at" => has_fault(rt, out, row),
        _ => {
            is_led(rt, out, row);
            has_ended(rt, out, row);
        }
    }
}

fn steps(
    rt: &impl Abort,
    alloc: Global,
    kind: &mut Kind,
    row: &str,
    depth: Option<i64>,
    stamp: u64,
) {
    let out = stepped(rt, alloc, kind, row, depth, stamp);
    is_told(rt, &out, row);
}

// Whether the update of a row is taken.
fn is_taken(rt: &impl Abort, alloc: Global, kind: &mut Kind, row: &str) -> bool {
    let update = text(rt, alloc, row.splitn(3, ' ').nth(2).unwrap_or(""));
    kind.update(alloc, &update).expect(rt, "memory")
}

fn weighs(rt: &impl Abort, kind: &Kind, row: &str) {
    holds(rt, row, u64::from(kind.weight()) == count_at(rt, row, 1));
}

fn copy_weighs(rt: &impl Abort, alloc: Global, kind: &Kind, row: &str) {
    let copied = kind.copy(alloc).expect(rt, "memory");
    weighs(rt, &copied, row);
}

fn takes(rt: &impl Abort, alloc: Global, kind: &mut Kind, row: &str) {
    let is_taken = is_taken(rt, alloc, kind, row);
    holds(rt, row, is_taken == (word_at(row, 0) == "yes"));
    weighs(rt, kind, row);
    copy_weighs(rt, alloc, kind, row);
}

// Does what a row says:
// - `yes` or `no`: an update is taken or not; then the weight that it leaves, and the update.
// - `gives`: a step; two words for the place, which isn't known; then the axis that its function mentions, and the values.
// - `at`: a step of a region; its place, if it is known, its depth and its stamp; then its fault.
// - `fresh`, `step` or `last`, with which it is done: a step; its place, if it is known; and where it is led then, if anywhere: the
//   number of the course, that of the speed, and the utility there.
fn does(rt: &impl Abort, alloc: Global, kind: &mut Kind, row: &str) {
    match word_at(row, 0) {
        "yes" | "no" => takes(rt, alloc, kind, row),
        "at" => {
            let (depth, stamp) = (number_at(row, 3), count_at(rt, row, 4));
            steps(rt, alloc, kind, row, depth, stamp);
        }
        _ => steps(rt, alloc, kind, row, Some(0), 0),
    }
}

fn does_all(rt: &impl Abort, alloc: Global, kind: &mut Kind, rows: &str) {
    for row in rows.lines() {
        does(rt, alloc, kind, row);
    }
}

/// The behaviour does what these rows say.
pub(crate) fn acts(rt: &impl Abort, alloc: Global, mut kind: Kind, rows: &str) {
    does_all(rt, alloc, &mut kind, rows);
}
