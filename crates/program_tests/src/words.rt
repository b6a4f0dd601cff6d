// Which words name a job, and which don't.
use crate::files::{FIRST_DECIDED, FIRST_REPORT, FIRST_SCRIPT};
use crate::runs::{Row, parted, rows_hold, words_of, writes};

// Words that have the first script played.
const PLAYING: &[Row] = &[
    (
        &["play", "s.txt", "--race"],
        &[FIRST_SCRIPT],
        "done",
        FIRST_REPORT,
    ),
    (
        &["play", "--race", "s.txt"],
        &[FIRST_SCRIPT],
        "done",
        FIRST_REPORT,
    ),
    (
        &["play", "--", "s.txt"],
        &[FIRST_SCRIPT],
        "done",
        FIRST_REPORT,
    ),
];

// Words that have the first problem solved.
const SOLVING: &[&[&str]] = &[
    &["solve", "s.txt"],
    &["solve", "--workers=2", "s.txt"],
    &["solve", "s.txt", "--workers", "+2"],
    &["solve", "s.txt", "--workers", "002"],
];

#[test]
fn words_that_are_taken(rt: HostRuntime) {
    rows_hold(&rt, rt.alloc(), PLAYING);
    let (problem, _) = parted(FIRST_DECIDED, "decision");
    for line in SOLVING {
        writes(&rt, rt.alloc(), *line, &[problem], "done", FIRST_DECIDED);
    }
}

// Words that name no job.
const OTHER_WORDS: &[&[&str]] = &[
    &[],
    &["play"],
    &["Play", "s.txt"],
    &["s.txt"],
    &["play", "s.txt", "m.moos", "b.bhv"],
    &["play", "s\n"],
    &["play", "s.txt", "--race", "--race"],
    &["play", "s.txt", "--race=1"],
    &["play", "s.txt", "--workers", "17"],
    &["play", "s.txt", "--help"],
    &["play", "s.txt", "-h"],
    &["solve"],
    &["solve", "p.txt", "q.txt"],
    &["solve", "p.txt", "--race"],
    &["solve", "p.txt", "--workers", "17"],
    &["solve", "p.txt", "--workers", "0"],
    &["solve", "p.txt", "--workers"],
    &["solve", "p.txt", "--workers", "two"],
    &["solve", "p.txt", "--workers=2", "--workers=2"],
    &["check"],
    &["check", "d.txt", "--workers", "2"],
    &["simulate", "s.txt", "m.moos"],
    &["simulate", "s.txt", "m.moos", "v.txt", "--race"],
    &["simulate", "s.txt", "m.moos", "v.txt", "c.txt", "d.txt"],
    &["--help"],
];

#[test]
fn other_words_are_usage(rt: HostRuntime) {
    for line in OTHER_WORDS {
        writes(&rt, rt.alloc(), *line, &[""], "usage", "");
    }
}

#[test]
fn a_name_that_is_no_text_is_usage(rt: HostRuntime) {
    let long = "x".repeat(rt.alloc(), 4097).expect(&rt, "memory");
    let line = ["play", long.as_str()];
    let words = words_of(&rt, rt.alloc(), &line);
    assert!(rt; words.len() == 2 && words.get(1).bytes().len() == 4097);
    writes(&rt, rt.alloc(), &line, &[""], "usage", "");
}
