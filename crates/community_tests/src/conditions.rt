// Conditions: what each form of them holds of, what is refused, and the variables that they name.
use crate::made::{check, learn, number, text};
use helm_cond::*;
use moos_post::Copied;
use std::alloc::Global;
use std::process::Abort;

// X is the text `abc`, Y is 3, and nothing else was learnt.
fn learnt(rt: &impl Abort, alloc: Global) -> Info {
    let mut info = Info::make(alloc);
    learn(rt, alloc, &mut info, "X", &number(rt, 1000));
    learn(rt, alloc, &mut info, "Y", &number(rt, 3000));
    learn(rt, alloc, &mut info, "X", &text(rt, alloc, "abc"));
    info
}

// Whether a copy of the condition holds.
fn copy_holds(rt: &impl Abort, alloc: Global, info: &Info, cond: &Cond) -> bool {
    let copied = cond.copy(alloc).expect(rt, "memory");
    copied.holds(info, b"ACTIVE:SURVEYING")
}

// What comes of a condition: whether it holds, or None if the text is refused.
fn told(rt: &impl Abort, alloc: Global, info: &Info, condition: &str) -> Option<bool> {
    assert!(rt; condition.len() < 1000);
    match Cond::read(alloc, condition.as_bytes()) {
        Ok(cond) => Some(copy_holds(rt, alloc, info, &cond)),
        Err(CondFault::BadCondition) => None,
        Err(CondFault::NoMemory) => panic!(rt; "memory"),
    }
}

const HOLD: &str = "not (Z = 3)
X = ABC
X != 3
Y <= 3 and Y >= 3.0 and not (Y < 3 or Y > 3)
Y=4 or(Y=3)and X==abc
not not not Y = 4
MODE = ACTIVE:SURVEYING";

const FAIL: &str = "Z != 3
X < 3
Y = \"3\"
MODE = surveying and mode != Surveying
MODE = URVEYING or MODE = ACTIVE:SURVEY";

// The first one is empty. The others have no end of a parenthesis or a text, no name or text where one must be, or no operator.
const REFUSED: &str = "
(X = abc
or = 3
= 3
\"abc\" = X
X => 1
X = \"abc";

// The same comes of each row.
fn come(rt: &impl Abort, alloc: Global, info: &Info, rows: &str, comes: Option<bool>) {
    for row in rows.lines() {
        check(rt, told(rt, alloc, info, row) == comes, true, row);
    }
}

fn all_come(rt: &impl Abort, alloc: Global, info: &Info) {
    come(rt, alloc, info, HOLD, Some(true));
    come(rt, alloc, info, FAIL, Some(false));
    come(rt, alloc, info, REFUSED, None);
}

#[test]
fn conditions(rt: HostRuntime) {
    let info = learnt(&rt, rt.alloc());
    all_come(&rt, rt.alloc(), &info);
    let copied = info.copy(rt.alloc()).expect(&rt, "memory");
    all_come(&rt, rt.alloc(), &copied);
}

fn names_two(rt: &impl Abort, cond: &Cond) {
    assert!(rt; cond.variables() == 2);
    assert!(rt; cond.variable(0).bytes() == b"X".as_slice());
    assert!(rt; cond.variable(1).bytes() == b"MODE".as_slice());
    assert!(rt; cond.parent().is_none());
}

#[test]
fn parts_of_a_condition(rt: HostRuntime) {
    let cond = Cond::read(rt.alloc(), b"not X < 3 or (MODE = A)").expect(&rt, "a condition");
    names_two(&rt, &cond);
}

#[test]
fn condition_that_names_a_parent(rt: HostRuntime) {
    let line = Cond::read(rt.alloc(), b"((MODE == A:B))").expect(&rt, "a condition");
    assert!(rt; line.parent().is_some());
}

fn long_text(rt: &impl Abort, alloc: Global) -> Vec<u8> {
    let mut text = Vec::new(alloc);
    for _ in 0..20_000 {
        let appended = text.extend_from_slice(b"not not Y=3 and ");
        appended.expect(rt, "memory");
    }
    text.extend_from_slice(b"Y=3").expect(rt, "memory");
    text
}

fn long(rt: &impl Abort, alloc: Global) -> Cond {
    let text = long_text(rt, alloc);
    assert!(rt; text.len() < 1_000_000);
    Cond::read(alloc, text.as_slice()).expect(rt, "a condition")
}

// Neither reading nor asking goes deeper for a long condition.
#[test]
fn long_condition(rt: HostRuntime) {
    let cond = long(&rt, rt.alloc());
    let info = learnt(&rt, rt.alloc());
    assert!(rt; cond.holds(&info, b"") && cond.variables() == 20_001);
}
