// Whole searches by 1 to 16 workers: worked problems, and a hundred generated ones.
ghost use Rattle.std.specs.Prelude.{◌<◌, ◌≤◌};

use crate::made::{axis, domain_of, key_at, levels, listed, problem, term, two};
use ivp_domain::BoxN;
use ivp_func::Piece;
use ivp_pool::solve;
use ivp_problem::{Key, Problem, index_of_key, key_of};
use moos_io::NoGate;
use std::alloc::Global;
use std::process::Abort;
use std::sync::Wait;
use std::thread::Threads;

/// Numbers that look random: the high half of x, which becomes x * 6364136223846793005 + 1442695040888963407 modulo 2^64.
#[derive(Drop)]
struct Random {
    state: u64,
}

impl Random {
    fn below(&mut self, bound: u32) -> u32
        requires { 0 < bound }
        ensures { result < bound }
    {
        self.state = self
            .state
            .wrapping_mul(6_364_136_223_846_793_005)
            .wrapping_add(1_442_695_040_888_963_407);
        (self.state / 4_294_967_296 % bound as u64) as u32
    }

    /// A piece whose value is small, so that sums are often equal.
    fn piece(&mut self, low: [u32; 2], high: [u32; 2]) -> Piece {
        let base = 20 + self.below(4) as i64;
        let slope = [self.below(3) as i64 - 1, self.below(3) as i64 - 1, 0, 0];
        let area = BoxN {
            low: [low[0], low[1], 0, 0],
            high: [high[0], high[1], 0, 0],
        };
        Piece { area, base, slope }
    }

    /// A function's pieces over so many places of two axes: slabs along the first, each of them whole or cut across.
    fn pieces(&mut self, rt: &impl Abort, alloc: Global, width: u32, height: u32) -> Vec<Piece>
        requires { 0 < height }
    {
        let mut pieces = Vec::new(alloc);
        let mut low = 0;
        while low < width {
            let high = low + self.below(width - low);
            let cut = self.below(height);
            pieces
                .push(self.piece([low, 0], [high, cut]))
                .expect(rt, "memory");
            if cut + 1 < height {
                pieces
                    .push(self.piece([low, cut + 1], [high, height - 1]))
                    .expect(rt, "memory");
            }
            low = high + 1;
        }
        pieces
    }

    /// A problem of one to four functions over at most seven times five points.
    fn problem(&mut self, rt: &impl Abort, alloc: Global) -> Problem {
        let width = 2 + self.below(6);
        let height = 2 + self.below(4);
        let axes = [axis(rt, b"a", 6_000, width), axis(rt, b"b", 4_000, height)];
        let domain = domain_of(rt, &axes);
        let mut terms = Vec::new(alloc);
        for _ in 0..1 + self.below(4) {
            let pieces = self.pieces(rt, alloc, width, height);
            let weight = 1 + self.below(3);
            terms
                .push(term(rt, alloc, &domain, weight, &pieces))
                .expect(rt, "memory");
        }
        problem(rt, domain, terms)
    }
}

/// So many workers find the point of this key.
fn is_best<R: Threads + Wait + Sync + Abort>(
    rt: &R,
    alloc: Global,
    problem: &Problem,
    workers: u32,
    key: Key,
)
    requires { (1 ≤ workers) × (workers ≤ 16) }
{
    let solved = solve(rt, alloc, problem, workers, &NoGate).expect(rt, "memory");
    let domain = problem.domain();
    let index = index_of_key(key);
    assert!(rt; solved.key == key && key_at(problem, index) == Some(key));
    assert!(rt; solved.work.len() == workers as usize);
    assert!(rt; index < domain.points() && index < 268_435_456);
    assert!(rt; solved.point == domain.point_at(index));
}

/// One worker finds the point of this key, and so do several.
fn all_find<R: Threads + Wait + Sync + Abort>(rt: &R, alloc: Global, problem: &Problem, key: Key) {
    is_best(rt, alloc, problem, 1, key);
    is_best(rt, alloc, problem, 2, key);
    is_best(rt, alloc, problem, 3, key);
    is_best(rt, alloc, problem, 16, key);
}

#[test]
fn worked_problems(rt: HostRuntime) {
    let alloc = rt.alloc();
    all_find(&rt, alloc, &levels(&rt, alloc, 1, 100, 7), key_of(700, 0));
    all_find(&rt, alloc, &two(&rt, alloc), key_of(75, 2));
    let greatest = levels(&rt, alloc, 64, 10_000_000, 100_000);
    all_find(&rt, alloc, &greatest, key_of(64_000_000_000_000, 0));
}

#[test]
fn a_hundred_small_problems(rt: HostRuntime) {
    let mut random = Random { state: 2_026 };
    for _ in 0..100 {
        let problem = random.problem(&rt, rt.alloc());
        let key = listed(&problem).expect(&rt, "a point");
        all_find(&rt, rt.alloc(), &problem, key);
    }
}
