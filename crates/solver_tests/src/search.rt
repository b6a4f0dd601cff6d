// The search by one thread: its best point, and the first of equals.
use crate::made::{greatest_key, levels, listed, problem_of, slab, twelve, two};
use ivp_problem::{Problem, index_of_key, sum_of};
use std::process::Abort;

/// The sum and the index of the best point are these, and no point has a greater key.
fn is_best(rt: &impl Abort, problem: &Problem, sum: u64, index: u32) {
    let key = greatest_key(problem);
    assert!(rt; sum_of(key) == sum);
    assert!(rt; index_of_key(key) == index);
    assert!(rt; listed(problem) == Some(key));
}

#[test]
fn worked_problems(rt: HostRuntime) {
    let alloc = rt.alloc();
    is_best(&rt, &levels(&rt, alloc, 1, 100, 7), 700, 0);
    let greatest = levels(&rt, alloc, 64, 10_000_000, 100_000);
    is_best(&rt, &greatest, 64_000_000_000_000, 0);
    is_best(&rt, &levels(&rt, alloc, 3, 1, 0), 0, 0);
    is_best(&rt, &two(&rt, alloc), 75, 2);
}

/// The first child has the greater indices, and a later one the best point of the same sum.
#[test]
fn equal_sums(rt: HostRuntime) {
    let high = slab(1, 2, 5, [0; 4]);
    let low = slab(0, 0, 5, [0; 4]);
    let pieces = [high, low];
    let all = [(4, pieces.as_slice())];
    let problem = problem_of(&rt, rt.alloc(), twelve(&rt), &all);
    is_best(&rt, &problem, 20, 0);
}

/// What the first function likes least is the best of all: the last child of the last child.
#[test]
fn last_of_all(rt: HostRuntime) {
    let one = [slab(0, 0, 9, [0; 4]), slab(1, 2, 2, [0; 4])];
    let two = [slab(0, 1, 0, [0, 0, 1, 0]), slab(2, 2, 4, [0, 0, 1, 0])];
    let all = [(1, one.as_slice()), (3, two.as_slice())];
    let problem = problem_of(&rt, rt.alloc(), twelve(&rt), &all);
    is_best(&rt, &problem, 17, 9);
}

/// The first child is the best, and the others are pruned.
#[test]
fn first_of_all(rt: HostRuntime) {
    let one = [slab(0, 0, 50, [0, -9, 0, 0]), slab(1, 2, 20, [-4, 0, 3, 0])];
    let two = [slab(0, 1, 30, [0, -7, 0, 0]), slab(2, 2, 1, [0; 4])];
    let all = [(2, one.as_slice()), (1, two.as_slice())];
    let problem = problem_of(&rt, rt.alloc(), twelve(&rt), &all);
    is_best(&rt, &problem, 130, 0);
}
