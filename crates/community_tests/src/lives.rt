// Behaviours worked by hand, turn by turn.
use crate::made::{check, count, learn, name, text, words};
use bhv_file::{Common, Conds};
use bhv_life::{BhvState, Life, Outcome, Phase};
use helm_cond::{Cond, Info};
use moos_post::Batch;
use std::alloc::Global;
use std::process::Abort;

// A behaviour with the condition `GO = true`, and its turns, a line each. The first line says its duration in milliseconds, if
// it has one; whether its time goes on while it is idle, `decay` or `still`; and whether it is perpetual. A turn says the stamp;
// what happens, which is that its condition is `off`, that it is `on` and the step gives no function, that it `gives` one, that
// the step `ends`, or that the helm is `parked`; the state that it comes to; and the first letters of the flags that it raises,
// `n` for inactive.
const CASES: [&str; 9] = [
    "10000 decay once
0 on running r
9999 on running
10000 on completed e
10001 on completed
11000 off completed",
    "10000 decay once
0 on running r
5000 off idle i
10000 on completed e",
    // Without decay the time goes on only while it runs.
    "10000 still once
0 on running r
5000 off idle i
10000 on running r
14999 on running
15000 on completed e",
    "10000 still once
0 on running r
5000 parked idle i
10000 on running r
15000 on completed e
16000 parked completed",
    // A perpetual one begins anew once it was idle or its time is over.
    "10000 decay perpetual
0 on running r
10000 on completed e
12000 off idle i
15000 on running r
24999 on running
25000 on completed e
26000 on running r",
    "10000 still perpetual
0 on running r
10000 on completed e
15000 on running r
20000 off idle i
30000 on running r
34999 on running
35000 on completed e",
    "endless decay perpetual
0 gives active ra
1000 ends completed ne
2000 gives active ra
3000 parked idle ni",
    "endless decay once
0 off idle
1000 gives active ra
2000 on running n
3000 gives active a
4000 parked idle ni
5000 off idle
6000 ends completed e
7000 gives completed",
    "0 decay perpetual
0 on completed e
1000 off idle i
2000 on completed e",
];

fn go(rt: &impl Abort, alloc: Global) -> Conds {
    let mut conds = Conds::new(alloc);
    let go = Cond::read(alloc, b"GO = true").expect(rt, "a condition");
    conds.push(go).expect(rt, "memory");
    conds
}

fn behavior(rt: &impl Abort, alloc: Global, line: &str) -> Common {
    let mut words = line.split_whitespace();
    let duration = words.next().unwrap_or("").parse::<u64>().ok();
    let idle_decay = words.next() == Some("decay");
    let perpetual = words.next() == Some("perpetual");
    Common {
        name: name(rt, alloc, "b"),
        conds: go(rt, alloc),
        runflags: Batch::new(alloc),
        idleflags: Batch::new(alloc),
        activeflags: Batch::new(alloc),
        inactiveflags: Batch::new(alloc),
        endflags: Batch::new(alloc),
        updates: None,
        duration,
        idle_decay,
        perpetual,
        template: false,
    }
}

// What is known if its condition holds, and if it doesn't.
fn knowledge(rt: &impl Abort, alloc: Global, holds: bool) -> Info {
    let mut info = Info::make(alloc);
    let value = text(rt, alloc, if holds { "true" } else { "false" });
    learn(rt, alloc, &mut info, "GO", &value);
    info
}

fn state(word: &str) -> Option<BhvState> {
    match word {
        "idle" => Some(BhvState::Idle),
        "running" => Some(BhvState::Running),
        "active" => Some(BhvState::Active),
        "completed" => Some(BhvState::Completed),
        _ => None,
    }
}

fn raises(outcome: &Outcome, letters: &[u8]) -> bool {
    outcome.run == letters.contains(&b'r')
        && outcome.idle == letters.contains(&b'i')
        && outcome.active == letters.contains(&b'a')
        && outcome.inactive == letters.contains(&b'n')
        && outcome.ended == letters.contains(&b'e')
}

// Its life behind one turn more, and what comes of the turn.
fn turned(
    rt: &impl Abort,
    alloc: Global,
    life: Life,
    common: &Common,
    stamp: u64,
    what: &str,
) -> (Life, Outcome) {
    let info = knowledge(rt, alloc, what != "off");
    let started = life.start(common, &info, b"", what == "parked", stamp);
    let stepped = matches!(started.phase, Phase::Run { .. });
    started.finish(stepped && what == "gives", stepped && what == "ends")
}

// Its life behind the turn of a line, which is as the line says.
fn follows(rt: &impl Abort, alloc: Global, life: Life, common: &Common, line: &str) -> Life {
    let words = words(rt, alloc, line);
    let [stamp, what, wanted, letters @ ..] = words.as_slice() else {
        panic!(rt; "a turn")
    };
    let (next, outcome) = turned(rt, alloc, life, common, count(rt, stamp), what);
    check(rt, Some(outcome.now) == state(wanted), true, line);
    let letters = letters.first().unwrap_or(&"");
    check(rt, raises(&outcome, letters.as_bytes()), true, line);
    next
}

fn is_lived(rt: &impl Abort, alloc: Global, case: &str) {
    let mut lines = case.lines();
    let common = behavior(rt, alloc, lines.next().unwrap_or(""));
    let mut life = Life::make();
    for line in lines {
        life = follows(rt, alloc, life, &common, line);
    }
}

#[test]
fn lives(rt: HostRuntime) {
    for case in &CASES {
        is_lived(&rt, rt.alloc(), case);
    }
}
