// Iterations worked by hand, and what they post.
ghost use Rattle.std.specs.Prelude.{◌≡◌, ◌≤◌};
ghost use Rattle.helm_core.specs.Helms.{clock_of};

use crate::made::{count_at, helm_of};
use crate::shown::{append, is_begun, is_shown, put};
use helm_core::Helm;
use moos_db::{Letter, Mail};
use moos_io::NoGate;
use moos_post::{Pair, Post};
use moos_text::read_pair;
use std::alloc::Global;
use std::process::Abort;
use std::sync::Wait;
use std::thread::Threads;

// A letter with this number of this pair, which is written as in a script.
fn letter_of(rt: &impl Abort, alloc: Global, number: u64, pair: &str) -> Letter {
    let Pair { var, value } = read_pair(alloc, pair.as_bytes()).expect(rt, "a pair");
    let post = Post {
        stamp: 0,
        source: 0,
        var,
        value,
    };
    Letter { number, post }
}

// The mail of a tick: the pairs behind its stamp.
fn mail_of(rt: &impl Abort, alloc: Global, asked: &str) -> Mail {
    let mut pairs = asked.split_whitespace();
    let _ = pairs.next();
    let mut mail = Mail::new(alloc);
    for pair in pairs {
        let letter = letter_of(rt, alloc, mail.len() as u64, pair);
        mail.add(letter).expect(rt, "memory");
    }
    mail
}

// The helm's answer to a mail is shown so.
fn tells<R: Abort + Threads + Wait + Sync>(
    rt: &R,
    alloc: Global,
    helm: &mut Helm,
    stamp: u64,
    mail: &Mail,
    answer: &str,
)
    requires { clock_of helm.old ≤ stamp }
    ensures { clock_of helm.new ≡ stamp }
{
    match helm.tick(rt, alloc, stamp, mail, 1, &NoGate) {
        Ok(iteration) => is_shown(rt, alloc, &iteration, answer),
        Err(_) => panic!(rt; "memory"),
    }
}

// One tick: its stamp in milliseconds with the pairs of its mail, and what the helm answers. It gives the stamp.
fn answers<R: Abort + Threads + Wait + Sync>(
    rt: &R,
    alloc: Global,
    helm: &mut Helm,
    clock: u64,
    asked: &str,
    answer: &str,
) -> u64
    requires { clock_of helm.old ≡ clock }
    ensures { clock_of helm.new ≡ result }
{
    let stamp = count_at(rt, asked, 0);
    assert!(rt; clock <= stamp);
    let mail = mail_of(rt, alloc, asked);
    tells(rt, alloc, helm, stamp, &mail, answer);
    stamp
}

fn answers_all<R: Abort + Threads + Wait + Sync>(
    rt: &R,
    alloc: Global,
    helm: &mut Helm,
    ticks: &[(&str, &str)],
)
    requires { clock_of helm.old ≡ 0 }
{
    let mut clock = 0;
    for (asked, answer) in ticks {
        clock = answers(rt, alloc, helm, clock, *asked, *answer);
    }
}

// The helm of this behaviour file begins so, and answers so to these ticks.
fn check<R: Abort + Threads + Wait + Sync>(
    rt: &R,
    alloc: Global,
    file: &[u8],
    wanted: &str,
    ticks: &[(&str, &str)],
) {
    let mut helm = helm_of(rt, alloc, file);
    is_begun(rt, alloc, &helm, wanted);
    answers_all(rt, alloc, &mut helm, ticks);
}

const MODES: &[u8] =
    b"initialize DEPLOY = false\nset MODE = ACTIVE {\n  DEPLOY = true\n} INACTIVE\n";

const TIMERS: &[u8] =
    b"Behavior = BHV_Timer {\n  name = t\n  condition = DEPLOY = true\n  duration = 0.5\n  runflag = A=1\n  endflag = B=1\n}\nBehavior = BHV_Timer {\n  name = u\n  condition = DEPLOY = true\n  duration = 0.5\n  perpetual = true\n  runflag = C=1\n  idleflag = D=1\n}\n";

const TEMPLATE: &[u8] =
    b"Behavior = BHV_Timer {\n  name = tmpl\n  templating = spawn\n  updates = T_UP\n  duration = 0.5\n  runflag = A=1\n  endflag = B=1\n}\n";

const STEERED: &[u8] =
    b"Behavior = BHV_ConstantHeading {\n  name = h\n  heading = 90\n  updates = H_UP\n}\nBehavior = BHV_ConstantSpeed {\n  name = s\n  speed = 2\n  inactiveflag = N=1\n}\n";

const WANTING: &[u8] =
    b"initialize A = 1\ninitialize B = x\nset MODE = ON {\nDEPLOY = true and NAV_X < 3\n}\nset MODE = NEAR {\nMODE = ON\nC > D or DEPLOY = true or C < 1\n}\nBehavior = BHV_Timer {\n  name = t\n  condition = MODE = ON and E = 1\n  updates = T_UP\n}\n";

// What each helm registers for.
const ALWAYS: &str =
    "MOOS_MANUAL_OVERRIDE * 0, MOOS_MANUAL_OVERIDE * 0, NAV_X * 0, NAV_Y * 0, NAV_DEPTH * 0, ";

// Behaviour files, what their helms register for and the variables that they post at first, and their ticks: of each its stamp and
// its mail, and what the helm answers.
const CASES: &[(&[u8], &str, &[(&str, &str)])] = &[
    // Deployed at once.
    (
        MODES,
        "MOOS_MANUAL_OVERRIDE * 0, MOOS_MANUAL_OVERIDE * 0, NAV_X * 0, NAV_Y * 0, NAV_DEPTH * 0, DEPLOY * 0, DEPLOY ",
        &[
            (
                "0 DEPLOY=true MOOS_MANUAL_OVERRIDE=false",
                "0 DRIVE ACTIVE: IVPHELM_STATE=<DRIVE> MODE=<ACTIVE> DESIRED_SPEED=0 IVPHELM_ALLSTOP=<NothingToDo>",
            ),
            ("250", "0.25 DRIVE ACTIVE: DESIRED_SPEED=0"),
        ],
    ),
    // Parked, and given back.
    (
        MODES,
        "MOOS_MANUAL_OVERRIDE * 0, MOOS_MANUAL_OVERIDE * 0, NAV_X * 0, NAV_Y * 0, NAV_DEPTH * 0, DEPLOY * 0, DEPLOY ",
        &[
            (
                "0 DEPLOY=true",
                "0 PARK ACTIVE: IVPHELM_STATE=<PARK> MODE=<ACTIVE> DESIRED_SPEED=0 IVPHELM_ALLSTOP=<ManualOverride>",
            ),
            (
                "250 MOOS_MANUAL_OVERIDE=False",
                "0.25 DRIVE ACTIVE: IVPHELM_STATE=<DRIVE> DESIRED_SPEED=0 IVPHELM_ALLSTOP=<NothingToDo>",
            ),
            (
                "250 MOOS_MANUAL_OVERRIDE=true DEPLOY=false",
                "0.25 PARK INACTIVE: IVPHELM_STATE=<PARK> MODE=<INACTIVE> DESIRED_SPEED=0 IVPHELM_ALLSTOP=<ManualOverride>",
            ),
            (
                "1000 MOOS_MANUAL_OVERIDE=true MOOS_MANUAL_OVERRIDE=false",
                "1 DRIVE INACTIVE: IVPHELM_STATE=<DRIVE> DESIRED_SPEED=0 IVPHELM_ALLSTOP=<NothingToDo>",
            ),
            (
                "1250 MOOS_MANUAL_OVERRIDE=false MOOS_MANUAL_OVERIDE=true",
                "1.25 PARK INACTIVE: IVPHELM_STATE=<PARK> DESIRED_SPEED=0 IVPHELM_ALLSTOP=<ManualOverride>",
            ),
        ],
    ),
    // Without modes.
    (
        b"",
        ALWAYS,
        &[(
            "0",
            "0 PARK : IVPHELM_STATE=<PARK> DESIRED_SPEED=0 IVPHELM_ALLSTOP=<ManualOverride>",
        )],
    ),
    // Two timers while deployed: one ends for good, the other begins again.
    (
        TIMERS,
        "MOOS_MANUAL_OVERRIDE * 0, MOOS_MANUAL_OVERIDE * 0, NAV_X * 0, NAV_Y * 0, NAV_DEPTH * 0, DEPLOY * 0, ",
        &[
            (
                "0 DEPLOY=true MOOS_MANUAL_OVERRIDE=false",
                "0 DRIVE : Running Running IVPHELM_STATE=<DRIVE> A=1 C=1 DESIRED_SPEED=0 IVPHELM_ALLSTOP=<NothingToDo>",
            ),
            ("250", "0.25 DRIVE : Running Running DESIRED_SPEED=0"),
            ("500", "0.5 DRIVE : Completed Completed B=1 DESIRED_SPEED=0"),
            ("750", "0.75 DRIVE : Completed Running C=1 DESIRED_SPEED=0"),
            (
                "1000 DEPLOY=false",
                "1 DRIVE : Completed Idle D=1 DESIRED_SPEED=0",
            ),
        ],
    ),
    // A letter makes a timer of a template, which has its turn at once; a bad one changes nothing; and the timer is gone when it is
    // over.
    (
        TEMPLATE,
        "MOOS_MANUAL_OVERRIDE * 0, MOOS_MANUAL_OVERIDE * 0, NAV_X * 0, NAV_Y * 0, NAV_DEPTH * 0, T_UP * 0, ",
        &[
            (
                "0 MOOS_MANUAL_OVERRIDE=false T_UP=name=t1#pwt=5",
                "0 DRIVE : Running IVPHELM_STATE=<DRIVE> A=1 DESIRED_SPEED=0 IVPHELM_ALLSTOP=<NothingToDo>",
            ),
            (
                "250 T_UP=name=t1#pwt=abc",
                "0.25 DRIVE : Running DESIRED_SPEED=0",
            ),
            ("500", "0.5 DRIVE : Completed B=1 DESIRED_SPEED=0"),
            ("750", "0.75 DRIVE : DESIRED_SPEED=0"),
        ],
    ),
    // A heading and a speed are decided on: then the heading is another, by the last of three letters, since a number is no update and
    // 400 no heading; while parked none is, and at last it counts no more.
    (
        STEERED,
        "MOOS_MANUAL_OVERRIDE * 0, MOOS_MANUAL_OVERIDE * 0, NAV_X * 0, NAV_Y * 0, NAV_DEPTH * 0, H_UP * 0, ",
        &[
            (
                "0 MOOS_MANUAL_OVERRIDE=false",
                "0 DRIVE : Active Active IVPHELM_STATE=<DRIVE> DESIRED_HEADING=90 DESIRED_SPEED=2 IVPHELM_ALLSTOP=<clear>",
            ),
            (
                "250 H_UP=1 H_UP=heading=400 H_UP=heading=180",
                "0.25 DRIVE : Active Active DESIRED_HEADING=180 DESIRED_SPEED=2",
            ),
            (
                "500 MOOS_MANUAL_OVERRIDE=true H_UP=pwt=0",
                "0.5 PARK : Idle Idle IVPHELM_STATE=<PARK> N=1 DESIRED_SPEED=0 IVPHELM_ALLSTOP=<ManualOverride>",
            ),
            (
                "750 MOOS_MANUAL_OVERRIDE=false",
                "0.75 DRIVE : Running Active IVPHELM_STATE=<DRIVE> DESIRED_SPEED=0 IVPHELM_ALLSTOP=<MissingDecVars>",
            ),
        ],
    ),
    // Conditions of modes and of a behaviour, its updates, and two pairs to begin with.
    (
        WANTING,
        "MOOS_MANUAL_OVERRIDE * 0, MOOS_MANUAL_OVERIDE * 0, NAV_X * 0, NAV_Y * 0, NAV_DEPTH * 0, DEPLOY * 0, C * 0, E * 0, T_UP * 0, A B ",
        &[],
    ),
];

#[test]
fn ticks(rt: HostRuntime) {
    for (file, wanted, ticks) in CASES {
        check(&rt, rt.alloc(), *file, *wanted, *ticks);
    }
}

// What the names of sixteen modes begin with, and the 63 bytes that follow in each.
const LETTERS: &[&[u8]] = &[
    b"A", b"B", b"C", b"D", b"E", b"F", b"G", b"H", b"I", b"J", b"K", b"L", b"M", b"N", b"O", b"P",
];

const TAIL: &[u8] = b"23456789_123456789_123456789_123456789_123456789_123456789_1234";

// Adds a mode to a file, under this path.
fn add_mode(rt: &impl Abort, file: &mut Vec<u8>, letter: &[u8], path: &[u8]) {
    append(rt, file, &[b"set MODE = ", letter, TAIL, b" {\n"]);
    if !path.is_empty() {
        append(rt, file, &[b"MODE = ", path, b"\n"]);
    }
    put(rt, file, b"}\n");
}

// Adds a name to a path.
fn add_name(rt: &impl Abort, path: &mut Vec<u8>, letter: &[u8]) {
    if !path.is_empty() {
        put(rt, path, b":");
    }
    append(rt, path, &[letter, TAIL]);
}

// Adds these modes to a file, each under the one before it, and their names to the path.
fn nest(rt: &impl Abort, file: &mut Vec<u8>, path: &mut Vec<u8>) {
    for letter in LETTERS {
        add_mode(rt, file, *letter, path.as_slice());
        add_name(rt, path, *letter);
    }
}

// A first answer in the mode of this path.
fn answer_in(rt: &impl Abort, text: &mut Vec<u8>, path: &[u8]) {
    append(rt, text, &[b"0 PARK ", path]);
    append(rt, text, &[b": IVPHELM_STATE=<PARK> MODE=<", path]);
    put(
        rt,
        text,
        b"> DESIRED_SPEED=0 IVPHELM_ALLSTOP=<ManualOverride>",
    );
}

// The mode of this file's helm is this path.
fn has_mode<R: Abort + Threads + Wait + Sync>(rt: &R, alloc: Global, file: &[u8], path: &[u8]) {
    let mut answer = Vec::new(alloc);
    answer_in(rt, &mut answer, path);
    let answer = str::from_utf8(answer.as_slice()).expect(rt, "a text");
    check(rt, alloc, file, ALWAYS, &[("0", answer)]);
}

// Sixteen names of 64 bytes and fifteen colons.
#[test]
fn longest_mode(rt: HostRuntime) {
    let mut file = Vec::new(rt.alloc());
    let mut path = Vec::new(rt.alloc());
    nest(&rt, &mut file, &mut path);
    assert!(rt; path.len() == 1_039);
    has_mode(&rt, rt.alloc(), file.as_slice(), path.as_slice());
}
