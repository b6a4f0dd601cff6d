// Worked rows of the database: calls of clients, a line each, and the numbers of the posts that each fetch gives.
ghost use Rattle.std.specs.Prelude.{◌<◌, length};

use crate::made::{batch, count, names, pattern, regs, words};
use moos_db::{Db, Mail};
use std::alloc::Global;
use std::process::Abort;

// A database of clients with these names, and no calls.
fn database(rt: &impl Abort, alloc: Global, clients: &str) -> Db {
    let names = names(rt, alloc, clients);
    assert!(rt; names.len() < 100);
    Db::make(alloc, names).expect(rt, "memory")
}

fn unregister(rt: &impl Abort, alloc: Global, db: &mut Db, client: u32, stamp: u64, words: &[&str])
    requires { client < length db.old.names }
{
    let [var, source] = words else {
        panic!(rt; "two patterns")
    };
    let (var, source) = (pattern(rt, alloc, var), pattern(rt, alloc, source));
    let done = db.unregister(alloc, client, stamp, var, source);
    done.expect(rt, "memory");
}

// The letters have these numbers, which the fetch is said to have given.
fn are_given(rt: &impl Abort, mail: &Mail, given: &[u64], numbers: &[&str]) {
    assert!(rt; mail.len() == numbers.len() && given.len() == numbers.len());
    for ((letter, number), word) in mail.all().iter().zip(given).zip(numbers) {
        let wanted = count(rt, word);
        assert!(rt; letter.number == wanted && *number == wanted);
    }
}

// A fetch gives the posts with these numbers.
fn fetch(rt: &impl Abort, alloc: Global, db: &mut Db, client: u32, stamp: u64, numbers: &[&str])
    requires { client < length db.old.names }
{
    let k = db.entries();
    let mail = db.fetch(alloc, client, stamp).expect(rt, "memory");
    are_given(rt, &mail, db.letters(k), numbers);
}

// Makes a call of a client: what it does, and the words of it. Of a fetch these are the numbers that it is given.
fn act(rt: &impl Abort, alloc: Global, db: &mut Db, client: u32, stamp: u64, words: &[&str])
    requires { client < length db.old.names }
{
    let [verb, rest @ ..] = words else {
        panic!(rt; "a verb")
    };
    match *verb {
        "register" => {
            let done = db.register(alloc, client, stamp, regs(rt, alloc, rest));
            done.expect(rt, "memory");
        }
        "unregister" => unregister(rt, alloc, db, client, stamp, rest),
        "post" => {
            let done = db.post(alloc, client, stamp, batch(rt, alloc, rest));
            done.expect(rt, "memory");
        }
        _ => fetch(rt, alloc, db, client, stamp, rest),
    }
}

// Makes the call of a line: its stamp, the number of its client, and what it does.
fn perform(rt: &impl Abort, alloc: Global, db: &mut Db, line: &str) {
    let words = words(rt, alloc, line);
    let [stamp, client, rest @ ..] = words.as_slice() else {
        panic!(rt; "a call")
    };
    let client = client.parse::<u32>().ok().expect(rt, "a client");
    assert!(rt; client < db.clients());
    act(rt, alloc, db, client, count(rt, stamp), rest);
}

/// A database of clients with these names behind the calls, a line each.
pub(crate) fn played(rt: &impl Abort, alloc: Global, clients: &str, calls: &str) -> Db {
    let mut db = database(rt, alloc, clients);
    for call in calls.lines() {
        perform(rt, alloc, &mut db, call);
    }
    db
}

// A source pattern lets through whom it matches; `?` wants one byte.
const PATTERNS: &str = "0 0 register NAV_* 0 p*
500 1 register NAV_? 0 *
1000 2 post NAV_ NAV_X NAV_XY
2000 3 post NAV_X
3000 0 fetch 0 1 2
4000 1 fetch 1 3";

// The interval counts from the last post that came through, and a post of the client itself is mailed too.
const INTERVAL: &str = "0 0 register X 500 *
0 0 post X
499 0 post X
500 0 post X
999 0 post X
1000 0 post X
2000 0 fetch 0 2 4
2000 0 fetch";

// Registering late mails each variable's latest post once, when the registration is made.
const LATE: &str = "0 0 post A
1000 0 post B
2000 0 post A
3000 1 register A 0 *
4000 1 register * 0 *
5000 1 fetch 2 1";

// A post that was mailed isn't mailed again to who withdraws and registers anew, and the interval begins anew.
const ANEW: &str = "0 0 register X 10000 *
1000 1 post X
2000 0 unregister X *
3000 0 register X 10000 *
4000 1 post X
5000 0 fetch 0 1";

// Two registrations are due at post 0, and one of them at post 1: each is mailed once.
const TWO_ARE_DUE: &str = "0 0 register X 1000 * * 0 *
0 1 post X
500 1 post X
600 0 fetch 0 1";

// Post 1 comes while nothing is live, and is mailed when the registration is made again.
const WITHDRAWN_AND_MADE_AGAIN: &str = "0 0 register X 0 *
1000 1 post X
2000 0 unregister X *
3000 1 post X
4000 0 fetch 0
5000 0 register X 0 *
6000 0 fetch 1";

// Only the registration with both patterns is withdrawn.
const OTHER_SOURCE: &str = "0 0 register X 0 b X 0 c
1000 0 unregister X c
2000 0 unregister X *
3000 1 post X
4000 2 post X
5000 0 fetch 0";

// Post 2 catches up once and counts for both registrations, so post 3 is due at none, and post 4 at both.
const TWO_PATTERNS_SELECT_THE_LATEST: &str = "0 1 post A B
2000 1 post A
2500 0 register A 1000 * * 1000 b
2999 1 post A
3000 1 post A
3000 0 fetch 1 2 4";

// Each variable's latest post is mailed in the order of the posts, not of the variables.
const LATE_FOR_MANY: &str = "0 1 post C B A C
1000 2 post B D
2000 0 register * 0 *
3000 0 fetch 2 3 4 5";

// The second X of a batch is due only if the interval is 0.
const VARIABLE_TWICE_IN_A_BATCH: &str = "0 0 register X 500 *
0 2 register X 0 *
1000 1 post X Y X
2000 0 fetch 0
2000 2 fetch 0 2";

// A stamp below the last one that came through is never due, and the last one stays.
const STAMPS_FALL_BACK: &str = "0 0 register X 0 *
1000 1 post X
999 1 post X
1000 1 post X
0 0 fetch 0 2";

// A variable that was posted before it was registered for is heard from then on, another client's registration for it
// stays, and one of two registrations that hear it is withdrawn.
const HEARD_LATER: &str = "0 1 post X
0 0 register X 0 *
0 2 register ? 0 * X 0 *
1 2 unregister X *
1 1 post X
2 0 fetch 0 1
2 2 fetch 0 1";

// Each is played by three clients.
const CASES: [&str; 11] = [
    INTERVAL,
    LATE,
    ANEW,
    TWO_ARE_DUE,
    WITHDRAWN_AND_MADE_AGAIN,
    OTHER_SOURCE,
    TWO_PATTERNS_SELECT_THE_LATEST,
    LATE_FOR_MANY,
    VARIABLE_TWICE_IN_A_BATCH,
    STAMPS_FALL_BACK,
    HEARD_LATER,
];

#[test]
fn worked_rows(rt: HostRuntime) {
    let _ = played(&rt, rt.alloc(), "log two p q", PATTERNS);
    for calls in &CASES {
        let _ = played(&rt, rt.alloc(), "a b c", calls);
    }
}
