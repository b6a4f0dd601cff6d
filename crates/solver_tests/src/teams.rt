// Workers beside each other, whom gates hold at nodes.
use crate::made::{axis, domain_of, piece, problem_of};
use ivp_domain::Domain;
use ivp_pool::{Work, Works, solve};
use ivp_problem::{Key, Problem, key_of};
use moos_io::Gate;
use std::alloc::Global;
use std::hint::spin_loop;
use std::process::Abort;
use std::sync::Wait;
use std::sync::atomic::{AtomicBool, AtomicU64, Ordering};
use std::thread::Threads;

/// The domain a:0:7:8.
fn places(rt: &impl Abort) -> Domain {
    domain_of(rt, &[axis(rt, b"a", 7_000, 8)])
}

/// One function in eight pieces of one point each, whose value is greatest at place 5.
fn eight(rt: &impl Abort, alloc: Global) -> Problem {
    let mut pieces = Vec::new(alloc);
    for place in 0..8u32 {
        let base = if place == 5 { 9 } else { place as i64 };
        pieces
            .push(piece(place, place, base, 0))
            .expect(rt, "memory");
    }
    problem_of(rt, alloc, places(rt), &[(1, pieces.as_slice())])
}

/// Two functions: the root has two children, and each of them two leaves. The best sum, of 9, is in the last leaf of the second
/// child, and the first child's bound is 5.
fn forked(rt: &impl Abort, alloc: Global) -> Problem {
    let halves = [piece(0, 3, 1, 0), piece(4, 7, 5, 0)];
    let thirds = [piece(0, 1, 0, 0), piece(2, 5, 0, 0), piece(6, 7, 4, 0)];
    let all = [(1, halves.as_slice()), (1, thirds.as_slice())];
    problem_of(rt, alloc, places(rt), &all)
}

/// Whether a count reaches `many` within 100,000,000 looks.
fn comes_to(count: &AtomicU64, many: u64) -> bool {
    for _ in 0..100_000_000u32 {
        if count.load(Ordering::SeqCst) >= many {
            return true;
        }
        spin_loop();
    }
    false
}

/// Holds each of three workers at the first node that it takes until all three are there.
#[derive(Drop)]
struct Beside {
    here: AtomicU64,
    late: AtomicBool,
}

impl Gate for Beside {
    fn at_node(&self, worker: u32, nth: u64) {
        if nth != if worker == 0 { 1 } else { 0 } {
            return;
        }
        self.here.fetch_add(1, Ordering::SeqCst);
        if !comes_to(&self.here, 3) {
            self.late.store(true, Ordering::SeqCst);
        }
    }

    fn at_call(&self, _client: u32, _nth: u64) {}
}

#[test]
fn workers_beside(rt: HostRuntime) {
    let problem = eight(&rt, rt.alloc());
    let gate = Beside {
        here: AtomicU64::new(0),
        late: AtomicBool::new(false),
    };
    let solved = solve(&rt, rt.alloc(), &problem, 3, &gate).expect(&rt, "memory");
    assert!(rt; solved.key == key_of(9, 5));
    assert!(rt; gate.here.load(Ordering::SeqCst) == 3);
    assert!(rt; !gate.late.load(Ordering::SeqCst));
}

/// Counts the calls of two workers, and notes one that comes out of turn. It holds worker 1 at the first node that it takes
/// until worker 0 has come to its first beside the root, and worker 0 there until worker 1 has come to so many.
#[derive(Drop)]
struct Holding {
    many: u64,
    calls: [AtomicU64; 2],
    wrong: AtomicBool,
    late: AtomicBool,
}

impl Gate for Holding {
    fn at_node(&self, worker: u32, nth: u64) {
        if worker >= 2 || self.calls[worker as usize].fetch_add(1, Ordering::SeqCst) != nth {
            self.wrong.store(true, Ordering::SeqCst);
        }
        let goes_on = match (worker, nth) {
            (0, 1) => comes_to(&self.calls[1], self.many),
            (1, 0) => comes_to(&self.calls[0], 2),
            _ => true,
        };
        if !goes_on {
            self.late.store(true, Ordering::SeqCst);
        }
    }

    fn at_call(&self, _client: u32, _nth: u64) {}
}

/// Holds worker 0 until worker 1 has come to `many` nodes.
fn gate_until(many: u64) -> Holding {
    Holding {
        many,
        calls: [AtomicU64::new(0), AtomicU64::new(0)],
        wrong: AtomicBool::new(false),
        late: AtomicBool::new(false),
    }
}

/// Two workers find this key past the gate. The answer is what each did.
fn work_of_two<R: Threads + Wait + Sync + Abort>(
    rt: &R,
    alloc: Global,
    problem: &Problem,
    gate: &Holding,
    key: Key,
) -> Works {
    let solved = solve(rt, alloc, problem, 2, gate).expect(rt, "memory");
    assert!(rt; solved.key == key);
    assert!(rt; !gate.wrong.load(Ordering::SeqCst));
    assert!(rt; !gate.late.load(Ordering::SeqCst));
    solved.work
}

/// Worker 0 is told of the root's first child before it closes that child. It is held there until worker 1 comes to its last
/// leaf, so by then the best key is known, and the child is pruned: it counts alone. Were the gate told behind the call, the
/// child's two leaves would be in a deque, and counted too.
#[test]
fn told_before_the_call(rt: HostRuntime) {
    let problem = forked(&rt, rt.alloc());
    let done = work_of_two(&rt, rt.alloc(), &problem, &gate_until(3), key_of(9, 6));
    let expected = [Work { closed: 2 }, Work { closed: 3 }];
    assert!(rt; done.all() == expected.as_slice());
}

/// Four of the root's eight children are dealt to worker 1, so the fifth node that it closes is stolen. Each call closes one
/// node here, so each worker's number is that of its calls.
#[test]
fn workers_steal(rt: HostRuntime) {
    let problem = eight(&rt, rt.alloc());
    let gate = gate_until(5);
    let done = work_of_two(&rt, rt.alloc(), &problem, &gate, key_of(9, 5));
    let calls = [
        gate.calls[0].load(Ordering::SeqCst),
        gate.calls[1].load(Ordering::SeqCst),
    ];
    assert!(rt; calls[1] > 4);
    assert!(rt; calls[0].wrapping_add(calls[1]) == 9);
    let mut works = Works::new(rt.alloc());
    for closed in calls {
        works.push(Work { closed }).expect(&rt, "room for two");
    }
    assert!(rt; done.all() == works.all());
    assert!(rt; works.len() == 2);
    assert!(rt; works.get(1).closed == calls[1]);
}
