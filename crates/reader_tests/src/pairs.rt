// Pairs that stand for a number and for a text, and texts that are no pair.
use crate::files::{append, check, is_shown};
use crate::limits::counted;
use crate::scripts::show_pair;
use moos_text::{PairFault, read_pair};
use std::alloc::Global;
use std::process::Abort;

// Texts, and the pair that each is, with its text between `<` and `>`.
const PAIRS: &[(&str, &str)] = &[
    ("X=1.5", "X=1.5"),
    ("\t DEPLOY = true ", "DEPLOY=<true>"),
    ("X:=1.5", "X=<1.5>"),
    ("X := \"1\"", "X=<1>"),
    ("X=\"\"", "X=<>"),
    ("X= \" a # = b \"", "X=< a # = b >"),
    ("X=1e3", "X=<1e3>"),
    ("X=1000000001", "X=<1000000001>"),
    ("X=a=b", "X=<a=b>"),
    ("X=a\"b\"", "X=<a\"b\">"),
];

fn is_pair(rt: &impl Abort, alloc: Global, text: &str, wanted: &str) {
    let mut shown = Vec::new(alloc);
    let pair = read_pair(alloc, text.as_bytes()).expect(rt, text);
    show_pair(rt, &mut shown, &pair);
    is_shown(rt, &shown, wanted, text);
}

// Texts that are no pair, and why.
const FAULTS: &[(&str, PairFault)] = &[
    ("X", PairFault::NoEquals),
    ("", PairFault::NoEquals),
    ("=1", PairFault::BadName),
    ("X : = 1", PairFault::BadName),
    ("X::=1", PairFault::BadName),
    ("9X=", PairFault::BadName),
    ("X= ", PairFault::BadValue),
    ("X:=", PairFault::BadValue),
    ("X=\"", PairFault::BadValue),
    ("X=\"a\"b", PairFault::BadValue),
    ("X=\"a\"\"", PairFault::BadValue),
    ("X=a\x7f", PairFault::BadValue),
];

fn is_refused(rt: &impl Abort, alloc: Global, text: &[u8], fault: PairFault, row: &str) {
    check(rt, read_pair(alloc, text).err() == Some(fault), row);
}

#[test]
fn pairs(rt: HostRuntime) {
    let alloc = rt.alloc();
    for (text, wanted) in PAIRS {
        is_pair(&rt, alloc, *text, *wanted);
    }
    for (text, fault) in FAULTS {
        is_refused(&rt, alloc, text.as_bytes(), *fault, *text);
    }
}

// A text of more than 4,096 bytes is told as such, but not before a byte that it can't hold.
#[test]
fn long_pairs(rt: HostRuntime) {
    let alloc = rt.alloc();
    let mut text = counted(&rt, alloc, "X=", 4096, "a");
    check(&rt, read_pair(alloc, &text).is_ok(), "4,096 bytes");
    append(&rt, &mut text, &[b"a"]);
    is_refused(&rt, alloc, &text, PairFault::TooLong, "4,097 bytes");
    append(&rt, &mut text, &[b"\r"]);
    is_refused(&rt, alloc, &text, PairFault::BadValue, "a control byte");
}
