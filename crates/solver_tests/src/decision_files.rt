// Decisions as text: what is refused, by line and cause, and the longest path of a certificate's line.
use crate::decisions::{LEVEL, joined, read};
use crate::rows::{is_refused, text_of};
use ivp_cert::Decision;
use std::alloc::Global;
use std::process::Abort;

// What follows a problem of five lines, and before it the line and the cause of its refusal: a decision outside its form, before a
// point outside the domain (P1), such a point (P10), a line of the certificate outside its form (P1), and too early an end (P9).
const REFUSED: &str = "6 P1 decision|
6 P1 decision x 700|
6 P1 decision 0 +700|
6 P1 decision 360 x|
6 P1 decision 4294967296 700|
6 P1 decision 0 64000000000.001|
6 P1 cut : 700 0|
6 P1 done|
6 P1 end|
6 P10 decision 360 700|
6 P10 decision 4294967295 64000000000|
6 P10 decision 700|
6 P10 decision 0 0 700|
7 P1 decision 0 700|decision 0 700|
8 P1 decision 0 700||cut 700 0|
7 P1 decision 0 700|cut|
7 P1 decision 0 700|cut :|
7 P1 decision 0 700|cut : 700|
7 P1 decision 0 700|cut : 700 0 0|
7 P1 decision 0 700|cut : : 700 0|
7 P1 decision 0 700|cut -1 : 700 0|
7 P1 decision 0 700|cut 4294967296 : 700 0|
7 P1 decision 0 700|cut : 64000000000.001 0|
7 P1 decision 0 700|cut : 700 4294967296|
7 P1 decision 0 700|done now|
9 P1 decision 0 700|done||done|
5 P9
6 P9 decision 0 700|
8 P9 decision 0 700|cut : 700 0||";

#[test]
fn refusals(rt: HostRuntime) {
    for row in REFUSED.lines() {
        let text = text_of(&rt, rt.alloc(), LEVEL, row, 2);
        is_refused(&rt, read(&rt, rt.alloc(), &text).err(), row);
    }
    is_refused(&rt, read(&rt, rt.alloc(), b"").err(), "1 P9");
}

/// A decision with one line of `numbers` numbers.
fn long_path(rt: &impl Abort, alloc: Global, numbers: u32) -> Vec<u8> {
    let mut text = joined(rt, alloc, LEVEL, b"decision 0 700\ncut");
    for _ in 0..numbers {
        text.extend_from_slice(b" 4294967295").expect(rt, "memory");
    }
    text.extend_from_slice(b" : 0 0\ndone\n")
        .expect(rt, "memory");
    text
}

/// The one line of its certificate has a path of 64 numbers, the last of which is the greatest.
fn has_long_path(rt: &impl Abort, decision: &Decision) {
    assert!(rt; decision.cert.len() == 1);
    assert!(rt; 0 < decision.cert.len());
    let path = &decision.cert.get(0).path;
    assert!(rt; path.len() == 64);
    assert!(rt; 63 < path.len());
    assert!(rt; path.get(63) == 4_294_967_295);
}

#[test]
fn longest_path(rt: HostRuntime) {
    let alloc = rt.alloc();
    let decision = read(&rt, alloc, &long_path(&rt, alloc, 64)).expect(&rt, "a decision");
    has_long_path(&rt, &decision);
    let text = long_path(&rt, alloc, 65);
    is_refused(&rt, read(&rt, alloc, &text).err(), "7 P1");
}
