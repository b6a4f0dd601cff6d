// Axes, domains and boxes: refusals in order, indices, counting.
ghost use Rattle.std.specs.Prelude.{◌≡◌, ◌<◌};

use crate::made::{axis_from, domain_of};
use crate::rows::{count_at, number_at};
use ivp_domain::{
    Axis, AxisName, BoxN, Domain, DomainFault, Point, Steps, is_proper, meet, volume,
};
use std::alloc::Global;
use std::marker::Brand;
use std::process::Abort;
use std::sync::ledger::{Blank, Ledger};

#[test]
fn names(rt: HostRuntime) {
    let name = AxisName::new(b"course").expect(&rt, "a name");
    assert!(rt; name.bytes() == b"course".as_slice());
    assert!(rt; AxisName::new(b"A_2345678901234f").is_some());
    let bad = [
        b"".as_slice(),
        b"_a",
        b"1",
        b"a-b",
        b"a b",
        b"abcdefghijklmnopq",
    ];
    for bytes in bad {
        assert!(rt; AxisName::new(bytes).is_none());
    }
}

/// The axes of some lines: of each its name, low, high and how many points it has.
fn axes_of(rt: &impl Abort, alloc: Global, rows: &str) -> Vec<Axis> {
    let mut axes = Vec::new(alloc);
    for row in rows.lines() {
        let name = row.split_whitespace().next().unwrap_or("");
        let points = count_at(rt, row, 3);
        let low = number_at(rt, row, 1);
        let high = number_at(rt, row, 2);
        let axis = axis_from(rt, name.as_bytes(), low, high, points);
        axes.push(axis).expect(rt, "memory");
    }
    axes
}

/// The axes of these lines make no domain, for this fault.
fn is_refused(rt: &impl Abort, alloc: Global, rows: &str, fault: DomainFault) {
    let axes = axes_of(rt, alloc, rows);
    assert!(rt; 0 < axes.len() && axes.len() <= 4);
    assert!(rt; Domain::make(&axes).err() == Some(fault), "{rows}");
}

#[test]
fn refusals_in_order(rt: HostRuntime) {
    let alloc = rt.alloc();
    let last = "a 0 1 2\na 0 1 2\nb 0 1 268435457\nc 0 1 1";
    is_refused(&rt, alloc, last, DomainFault::BadAxis(3));
    is_refused(&rt, alloc, "c 5 5 2\nd 0 1 1", DomainFault::BadAxis(0));
    let low = "a 0 1 2\nd -1000000000001 0 2";
    is_refused(&rt, alloc, low, DomainFault::BadAxis(1));
    let high = "a 0 1 2\ne 0 1000000000001 2";
    is_refused(&rt, alloc, high, DomainFault::BadAxis(1));
    is_refused(&rt, alloc, "b 0 1 268435457", DomainFault::TooLarge);
    let large = "b 0 1 268435457\na 0 1 2\na 0 1 2";
    is_refused(&rt, alloc, large, DomainFault::TooLarge);
    let same = "a 0 1 2\nc 5 6 2\na 0 1 2";
    is_refused(&rt, alloc, same, DomainFault::SameName(2));
}

/// The most points, on the longest axis.
#[test]
fn most_points(rt: HostRuntime) {
    let reach = 1_000_000_000_000;
    let domain = domain_of(&rt, &[axis_from(&rt, b"f", -reach, reach, 268_435_456)]);
    assert!(rt; domain.points() == 268_435_456);
    assert!(rt; number_of(&domain, 0, 134_217_727) == Some(-3_726));
    assert!(rt; number_of(&domain, 0, 268_435_455) == Some(reach));
}

#[test]
fn indices(rt: HostRuntime) {
    let axes = [
        axis_from(&rt, b"a", 0, 2000, 3),
        axis_from(&rt, b"b", 0, 1000, 2),
        axis_from(&rt, b"d", -10, 0, 4),
    ];
    let domain = domain_of(&rt, &axes);
    assert!(rt; domain.points() == 24);
    assert!(rt; domain.axes() == 3);
    for index in 0..domain.points() {
        let point = domain.point_at(index);
        assert!(rt; domain.index_of(&point) == index);
    }
    assert!(rt; 22 < domain.points());
    let place = Point { at: [2, 1, 2, 0] };
    assert!(rt; domain.point_at(22) == place);
    assert!(rt; domain.axes() == 3);
    assert!(rt; domain.axis(2).points == 4);
    assert!(rt; domain.all() == axes.as_slice());
    let whole = BoxN {
        low: [0; 4],
        high: [2, 1, 3, 0],
    };
    assert!(rt; domain.whole() == whole);
    let numbers = [-10, -7, -4, 0];
    for (place, number) in numbers.iter().enumerate() {
        assert!(rt; number_of(&domain, 2, place as u32) == Some(*number));
    }
}

/// The number at a place, if the axis has it.
fn number_of(domain: &Domain, axis: u32, place: u32) -> Option<i64> {
    if axis < domain.axes() && place < domain.axis(axis).points {
        Some(domain.value(axis, place))
    } else {
        None
    }
}

#[test]
fn boxes(rt: HostRuntime) {
    let a = BoxN {
        low: [0, 0, 0, 0],
        high: [2, 4, 0, 0],
    };
    let b = BoxN {
        low: [2, 3, 0, 0],
        high: [5, 9, 0, 0],
    };
    let touching = BoxN {
        low: [2, 3, 0, 0],
        high: [2, 4, 0, 0],
    };
    let apart = BoxN {
        low: [3, 0, 0, 0],
        high: [5, 9, 0, 0],
    };
    let empty = BoxN {
        low: [0, 5, 0, 0],
        high: [2, 4, 0, 0],
    };
    assert!(rt; is_proper(&touching));
    assert!(rt; !is_proper(&empty));
    assert!(rt; meet(&a, &b) == Some(touching));
    assert!(rt; meet(&a, &apart) == None);
    assert!(rt; volume(&a) == 15);
}

/// Counts, and gives nothing of it back: a counter's type names its ledger.
fn count_two<L: Ledger>(blank: Blank)
    requires name { blank.name ≡ L.name }
    requires parts { blank.parts ≡ L.parts }
    requires some { 0 < blank.parts }
{
    let mut steps = Steps::<L>::new(blank);
    steps.tick();
    steps.tick();
}

#[test]
fn counting_takes_no_bytes(rt: HostRuntime) {
    count_two::<Brand>(Blank::new(1));
    assert!(rt; size_of::<Steps<Brand>>() == 0);
}
