// Good decisions and changes of them, and which are accepted.
use crate::decisions::{THREE, TWO, is_accepted};
use crate::rows::text_of;
use std::alloc::Global;
use std::process::Abort;

// A good decision and changes of it, and before each whether it is accepted, or unread. Digits past the third decimal don't count,
// and the third one does.
const DECISIONS: &str = "yes decision 0 1 0 75|cut 0 0 : 75 2|cut 0 1 : 55 10|done|
yes decision 0 1 0 75.0009|cut 0 0 : 75.000 2|cut 0 1 : 55 10|done|
no decision 0 1 0 75.001|cut 0 0 : 75 2|cut 0 1 : 55 10|done|
no decision 0 1 0 75|cut 0 0 : 74 2|cut 0 1 : 55 10|done|
no decision 0 1 0 75|cut 0 0 : 75 2|done|
no decision 0 1 0 75|cut 0 0 : 75 2|cut 0 0 : 75 2|cut 0 1 : 55 10|done|
no decision 2 1 0 55|cut 0 0 : 75 2|cut 0 1 : 55 10|done|
unread decision 0 1 0 75|cut 0 0 : 75 2|cut 0 1 : 55 10|";

// A good certificate and changes of it: nodes below the topmost ones, which cover as much; a line moved, doubled and left out; a
// path cut, lengthened and led to no node; a bound's sum and index changed; another sum, a point of equal sum but greater index,
// and a worse point.
const CERTIFICATES: &str = "yes decision 0 15|cut 0 0 0 : 15 0|cut 0 1 : 15 1|cut 1 : 10 2|done|
yes decision 0 15|cut 0 0 0 : 15 0|cut 0 1 0 : 15 1|cut 1 1 : 5 2|done|
no decision 0 15|cut 0 1 : 15 1|cut 0 0 0 : 15 0|cut 1 : 10 2|done|
no decision 0 15|cut 0 0 0 : 15 0|cut 1 : 10 2|cut 0 1 : 15 1|done|
no decision 0 15|cut 0 0 0 : 15 0|cut 0 1 : 15 1|cut 1 : 10 2|cut 1 : 10 2|done|
no decision 0 15|cut 0 0 0 : 15 0|cut 0 1 : 15 1|cut 1 : 10 2|cut 1 1 : 5 2|done|
no decision 0 15|cut 0 1 : 15 1|cut 1 : 10 2|done|
no decision 0 15|cut 0 0 0 : 15 0|cut 1 : 10 2|done|
no decision 0 15|cut 0 0 0 : 15 0|cut 0 1 : 15 1|done|
no decision 0 15|done|
no decision 0 15|cut 0 0 : 15 0|cut 0 1 : 15 1|cut 1 : 10 2|done|
no decision 0 15|cut 0 0 : 20 0|cut 0 1 : 15 1|cut 1 : 10 2|done|
no decision 0 15|cut : 20 0|done|
no decision 0 15|cut 0 0 0 : 15 0|cut 0 1 : 15 1|cut 1 1 : 10 2|done|
no decision 0 15|cut 0 0 0 0 : 15 0|cut 0 1 : 15 1|cut 1 : 10 2|done|
no decision 0 15|cut 0 0 1 : 15 0|cut 0 1 : 15 1|cut 1 : 10 2|done|
no decision 0 15|cut 0 0 0 : 15 0|cut 0 1 : 14 1|cut 1 : 10 2|done|
no decision 0 15|cut 0 0 0 : 15 0|cut 0 1 : 16 1|cut 1 : 10 2|done|
no decision 0 15|cut 0 0 0 : 15 0|cut 0 1 : 15 0|cut 1 : 10 2|done|
no decision 0 15|cut 0 0 0 : 15 0|cut 0 1 : 15 1|cut 1 : 10 3|done|
no decision 0 16|cut 0 0 0 : 15 0|cut 0 1 : 15 1|cut 1 : 10 2|done|
no decision 1 15|cut 0 0 0 : 15 0|cut 0 1 : 15 1|cut 1 : 10 2|done|
no decision 2 0|cut 0 0 0 : 15 0|cut 0 1 : 15 1|cut 1 : 10 2|done|";

/// Behind this problem each row is accepted, or refused, or unread, as it says.
fn are_judged(rt: &impl Abort, alloc: Global, problem: &[u8], rows: &str) {
    for row in rows.lines() {
        let text = text_of(rt, alloc, problem, row, 1);
        let told = match is_accepted(rt, alloc, &text) {
            Some(true) => "yes",
            Some(false) => "no",
            None => "unread",
        };
        assert!(rt; row.split_whitespace().next() == Some(told), "{row}");
    }
}

#[test]
fn changed_decisions(rt: HostRuntime) {
    are_judged(&rt, rt.alloc(), TWO, DECISIONS);
    are_judged(&rt, rt.alloc(), THREE, CERTIFICATES);
}
