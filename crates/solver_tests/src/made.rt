// Problems and their parts, as several tests make them, if memory is left.
ghost use Rattle.std.specs.Prelude.{◌≡◌, ◌<◌};
ghost use Rattle.ivp_problem.specs.Sums.{best_of, key_at};

use ivp_domain::{Axis, AxisName, BoxN, Domain, Steps};
use ivp_func::{Func, Piece, are_pieces_of};
use ivp_problem::{Key, Problem, Term, greater_own, key_of, sum_at};
use ivp_search::best_in_one;
use std::alloc::Global;
use std::marker::Brand;
use std::process::Abort;
use std::sync::ledger::{Blank, Ledger};

/// A term of these pieces, if they make a function.
pub(crate) fn term(
    rt: &impl Abort,
    alloc: Global,
    domain: &Domain,
    weight: u32,
    pieces: &[Piece],
) -> Term {
    let pieces = Vec::from_slice(alloc, pieces).expect(rt, "memory");
    assert!(rt; are_pieces_of(domain, &pieces), "pieces that fit");
    let func = Func::make(alloc, domain, pieces).expect(rt, "a function");
    Term { weight, func }
}

/// The problem of these terms.
pub(crate) fn problem(rt: &impl Abort, domain: Domain, terms: Vec<Term>) -> Problem {
    Problem::make(domain, terms).expect(rt, "a problem")
}

/// The problem over a domain whose functions have these weights and pieces.
pub(crate) fn problem_of(
    rt: &impl Abort,
    alloc: Global,
    domain: Domain,
    all: &[(u32, &[Piece])],
) -> Problem {
    let mut terms = Vec::new(alloc);
    for (weight, pieces) in all {
        terms
            .push(term(rt, alloc, &domain, *weight, *pieces))
            .expect(rt, "memory");
    }
    problem(rt, domain, terms)
}

/// An axis of a name.
pub(crate) fn axis_from(rt: &impl Abort, name: &[u8], low: i64, high: i64, points: u32) -> Axis {
    Axis {
        name: AxisName::new(name).expect(rt, "a name"),
        low,
        high,
        points,
    }
}

/// An axis from 0 to `high` thousandths.
pub(crate) fn axis(rt: &impl Abort, name: &[u8], high: i64, points: u32) -> Axis {
    axis_from(rt, name, 0, high, points)
}

/// The domain of these axes.
pub(crate) fn domain_of(rt: &impl Abort, axes: &[Axis]) -> Domain {
    assert!(rt; 0 < axes.len() && axes.len() <= 4);
    Domain::make(axes).expect(rt, "a domain")
}

/// A domain of one axis, a metre long, of so many points.
pub(crate) fn line_of(rt: &impl Abort, points: u32) -> Domain {
    domain_of(rt, &[axis(rt, b"a", 1_000, points)])
}

/// The domain a:0:2:3, b:0:1:2, d:0:1:2.
pub(crate) fn twelve(rt: &impl Abort) -> Domain {
    let axes = [
        axis(rt, b"a", 2000, 3),
        axis(rt, b"b", 1000, 2),
        axis(rt, b"d", 1000, 2),
    ];
    domain_of(rt, &axes)
}

/// The domain course:0:359:360.
pub(crate) fn course(rt: &impl Abort) -> Domain {
    domain_of(rt, &[axis(rt, b"course", 359_000, 360)])
}

/// The piece `LOW HIGH BASE SLOPE` on one axis.
pub(crate) fn piece(low: u32, high: u32, base: i64, slope: i64) -> Piece {
    Piece {
        area: BoxN {
            low: [low, 0, 0, 0],
            high: [high, 0, 0, 0],
        },
        base,
        slope: [slope, 0, 0, 0],
    }
}

/// Terms of one weight and one value over the course.
pub(crate) fn level_terms(
    rt: &impl Abort,
    alloc: Global,
    count: u32,
    weight: u32,
    value: i64,
) -> Vec<Term> {
    let mut terms = Vec::new(alloc);
    for _ in 0..count {
        let one = term(rt, alloc, &course(rt), weight, &[piece(0, 359, value, 0)]);
        terms.push(one).expect(rt, "memory");
    }
    terms
}

/// The problem of some functions of one weight and one value over the course.
pub(crate) fn levels(
    rt: &impl Abort,
    alloc: Global,
    count: u32,
    weight: u32,
    value: i64,
) -> Problem {
    let terms = level_terms(rt, alloc, count, weight, value);
    problem(rt, course(rt), terms)
}

/// A piece over these places of the first axis, and all of two axes of two points.
pub(crate) fn slab(low: u32, high: u32, base: i64, slope: [i64; 4]) -> Piece {
    Piece {
        area: BoxN {
            low: [low, 0, 0, 0],
            high: [high, 1, 1, 0],
        },
        base,
        slope,
    }
}

/// The problem of a function in one piece and one in two: the root, its child, and two leaves, of which the first has the
/// best point, of sum 75 at index 2, and the second has 55 at index 10.
pub(crate) fn two(rt: &impl Abort, alloc: Global) -> Problem {
    let rising = [slab(0, 2, 0, [10, 0, 0, 0])];
    let split = [slab(0, 0, 20, [0, 5, 0, 0]), slab(1, 2, 0, [0, 5, 0, 0])];
    let all = [(2, rising.as_slice()), (3, split.as_slice())];
    problem_of(rt, alloc, twelve(rt), &all)
}

/// The sum at the point of an index, if the domain has it.
pub(crate) fn sum(problem: &Problem, index: u32) -> Option<u64> {
    let domain = problem.domain();
    if index < domain.points() {
        let point = domain.point_at(index);
        Some(sum_at(problem, &point))
    } else {
        None
    }
}

/// The key at the point of an index, if the domain has it.
pub(crate) fn key_at(problem: &Problem, index: u32) -> Option<Key> {
    let domain = problem.domain();
    if index >= domain.points() {
        return None;
    }
    let point = domain.point_at(index);
    Some(key_of(sum_at(problem, &point), index))
}

/// The greatest key, by a look at every point.
pub(crate) fn listed(problem: &Problem) -> Option<Key> {
    let mut most = None;
    for index in 0..problem.domain().points() {
        most = greater_own(most, key_at(problem, index));
    }
    most
}

/// The greatest key, counted by a ledger of its own.
fn greatest_by<L: Ledger>(problem: &Problem, blank: Blank) -> Key
    requires name { blank.name ≡ L.name }
    requires parts { blank.parts ≡ L.parts }
    requires some { 0 < blank.parts }
    ensures { result ≡ key_at problem.now (best_of problem.now) }
{
    let mut steps = Steps::<L>::new(blank);
    best_in_one(problem, &mut steps)
}

/// The greatest key, by the search of one thread.
pub(crate) fn greatest_key(problem: &Problem) -> Key
    ensures { result ≡ key_at problem.now (best_of problem.now) }
{
    greatest_by::<Brand>(problem, Blank::new(1))
}
