// One word and two scouts, on one thread.
ghost use Rattle.std.specs.Prelude.{◌≡◌, IfSome, IsTrue};
ghost use Rattle.ivp_domain.specs.Domains.{is_point};
ghost use Rattle.ivp_problem.specs.Sums.{sum_at};

use crate::made::{course, piece, problem_of};
use best_word::Best;
use ivp_domain::Point;
use ivp_problem::{Problem, sum_at};
use std::alloc::Global;
use std::process::Abort;

/// One function of weight 100 over course:0:359:360, which rises by one at each place.
fn rising(rt: &impl Abort, alloc: Global) -> Problem {
    problem_of(
        rt,
        alloc,
        course(rt),
        &[(100, [piece(0, 359, 7, 1)].as_slice())],
    )
}

/// A point and its sum.
#[derive(Clone, Copy)]
struct Summed {
    point: Point,
    sum: u64,
}

/// The point at an index of the domain, with its sum.
fn point_with_sum(problem: &Problem, index: u32) -> Option<Summed>
    ensures point { IfSome result (λ one. IsTrue (is_point problem.now.axes one.point)) }
    ensures sum { IfSome result (λ one. sum_at problem.now one.point ≡ one.sum) }
{
    let domain = problem.domain();
    if index >= domain.points() {
        return None;
    }
    let point = domain.point_at(index);
    let sum = sum_at(problem, &point);
    Some(Summed { point, sum })
}

#[test]
fn one_word(rt: HostRuntime) {
    let problem = rising(&rt, rt.alloc());
    let (best, mut one) = Best::make(rt.alloc(), &problem).expect(&rt, "memory");
    let mut two = best.split(&mut one);
    assert!(rt; best.known(&mut two) == 0);
    let low = point_with_sum(&problem, 3).expect(&rt, "a point");
    let high = point_with_sum(&problem, 5).expect(&rt, "a point");
    assert!(rt; high.sum == 1_200);
    assert!(rt; best.offer(&mut one, &problem, &high.point, high.sum) == 1_200);
    // The other scout learns of it by the word alone, and a lesser sum changes nothing.
    assert!(rt; best.known(&mut two) == 1_200);
    assert!(rt; best.offer(&mut two, &problem, &low.point, low.sum) == 1_200);
    best.join(&mut one, two);
    assert!(rt; best.known(&mut one) == 1_200);
}
