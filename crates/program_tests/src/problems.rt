// Problems that are solved, and decisions that are checked.
use crate::files::{FIRST_DECIDED, SECOND_DECIDED, levels};
use crate::runs::{CHECK, parted, writes};
use std::alloc::Global;
use std::process::Abort;
use std::sync::Wait;
use std::thread::Threads;

const WORKERS: &[&str] = &["1", "2", "16"];

// Decided so is the problem by any number of workers.
fn is_solved<R: Threads + Wait + Sync + Abort>(rt: &R, alloc: Global, decided: &str) {
    let (problem, _) = parted(decided, "decision");
    for workers in WORKERS {
        let line = ["solve", "s.txt", "--workers", *workers];
        writes(rt, alloc, &line, &[problem], "done", decided);
    }
}

// Decided problems. The last two have weights of a half and of a thousandth.
const DECIDED: &[&str] = &[
    FIRST_DECIDED,
    SECOND_DECIDED,
    "ivp 1\ndomain a:0:2:3\nfunction 0.5\npiece 0 2 0 10\nend\ndecision 2 10\ncut 0 : 10 2\ndone\n",
    "ivp 1\ndomain a:0:2:3\nfunction 0.001\npiece 0 2 7 0\nend\ndecision 0 0.007\ncut : 0.007 0\ndone\n",
];

const LEVELS_DECISION: &str = "decision 0 64000000000\ncut : 64000000000 0\ndone\n";

#[test]
fn good_problems_are_solved_by_any_number_of_workers(rt: HostRuntime) {
    for decided in DECIDED {
        is_solved(&rt, rt.alloc(), *decided);
    }
    let levels = levels(&rt, rt.alloc(), "10000", LEVELS_DECISION);
    is_solved(&rt, rt.alloc(), levels.as_str());
}

// What is changed in the second decided problem, how a check of it ends then, and what it writes.
const CHANGES: &[(&str, &str, &str, &str)] = &[
    ("done\n", "done\n", "done", "accepted\n"),
    (": 75 2\n", ": 74 2\n", "not accepted", "not accepted\n"),
    ("cut 0 1 : 55 10\n", "", "not accepted", "not accepted\n"),
    (
        "cut 0 0 : 75 2\n",
        "cut 0 0 : 75 2\ncut 0 0 : 75 2\n",
        "not accepted",
        "not accepted\n",
    ),
    (
        "decision 0 1 0 75\n",
        "decision 2 1 0 55\n",
        "not accepted",
        "not accepted\n",
    ),
    ("done\n", "", "decision line 13: P9 NoEnd", ""),
];

// A check of the second problem's decision, changed so, ends so and writes this.
fn is_checked<R: Threads + Wait + Sync + Abort>(
    rt: &R,
    alloc: Global,
    old: &str,
    new: &str,
    ended: &str,
    told: &str,
) {
    let text = SECOND_DECIDED.replacen(alloc, old, new, 1);
    let text = text.expect(rt, "memory");
    writes(rt, alloc, CHECK, &[text.as_str()], ended, told);
}

#[test]
fn decisions_are_checked(rt: HostRuntime) {
    for (old, new, ended, told) in CHANGES {
        is_checked(&rt, rt.alloc(), *old, *new, *ended, *told);
    }
}
