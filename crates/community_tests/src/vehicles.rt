// The turns of a simulated vehicle's clients, worked by hand.
use crate::made::{is_shown, letter, number};
use moos_db::Mail;
use sim_clients::{MarinePid, SimMarine};
use sim_vehicle::Craft;
use std::alloc::Global;
use std::process::Abort;

// A mail of these numbers, in thousandths.
fn mail(rt: &impl Abort, alloc: Global, said: &[(&str, i64)]) -> Mail {
    let mut mail = Mail::new(alloc);
    for (var, thousandths) in said {
        let letter = letter(rt, alloc, *var, number(rt, *thousandths));
        mail.add(letter).expect(rt, "memory");
    }
    mail
}

// The vehicle of an empty file.
fn craft(rt: &impl Abort) -> Craft {
    Craft::read(b"").ok().expect(rt, "a vehicle")
}

// What pMarinePID is mailed at each turn, and what it posts.
const TURNS: &[(&[(&str, i64)], &[u8])] = &[
    (
        &[
            ("DESIRED_HEADING", 90_000),
            ("DESIRED_SPEED", 2_000),
            ("NAV_HEADING", 0),
        ],
        b"DESIRED_RUDDER=90 DESIRED_THRUST=100 ",
    ),
    (
        &[("NAV_HEADING", 562)],
        b"DESIRED_RUDDER=89.438 DESIRED_THRUST=100 ",
    ),
    (
        &[("DESIRED_HEADING", 350_000), ("NAV_HEADING", 10_000)],
        b"DESIRED_RUDDER=-20 DESIRED_THRUST=100 ",
    ),
    (
        &[("DESIRED_HEADING", 190_000)],
        b"DESIRED_RUDDER=100 DESIRED_THRUST=100 ",
    ),
];

#[test]
fn pid_turns(rt: HostRuntime) {
    let alloc = rt.alloc();
    let craft = craft(&rt);
    let mut pid = MarinePid::make();
    for (said, wanted) in TURNS {
        let mail = mail(&rt, alloc, *said);
        let batch = pid.turn(alloc, &craft, &mail).expect(&rt, "memory");
        is_shown(&rt, alloc, &batch, *wanted);
    }
}

// What uSimMarine is mailed at its first turn.
const ASKED: &[(&str, i64)] = &[
    ("DESIRED_RUDDER", 90_000),
    ("DESIRED_THRUST", 100_000),
    ("DESIRED_DEPTH", 10_000),
];

#[test]
fn sim_turn(rt: HostRuntime) {
    let alloc = rt.alloc();
    let craft = craft(&rt);
    let mut sim = SimMarine::make(&craft);
    let mail = mail(&rt, alloc, ASKED);
    let batch = sim.turn(alloc, &craft, 250, &mail).expect(&rt, "memory");
    let wanted = b"NAV_X=0 NAV_Y=0.062 NAV_HEADING=0.562 NAV_SPEED=0.25 NAV_DEPTH=0.125 ";
    is_shown(&rt, alloc, &batch, wanted);
}

// With ample memory the openings are made.
#[test]
fn openings(rt: HostRuntime) {
    let alloc = rt.alloc();
    let craft = craft(&rt);
    assert_eq!(&rt; MarinePid::regs(alloc).expect(&rt, "memory").len(), 3);
    assert_eq!(&rt; SimMarine::regs(alloc).expect(&rt, "memory").len(), 3);
    let batch = SimMarine::opening(alloc, &craft).expect(&rt, "memory");
    let wanted = b"NAV_X=0 NAV_Y=0 NAV_HEADING=0 NAV_SPEED=0 NAV_DEPTH=0 ";
    is_shown(&rt, alloc, &batch, wanted);
}
