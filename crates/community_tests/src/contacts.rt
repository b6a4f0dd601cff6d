// The contact manager's turns and the utility of courses, worked by hand.
use crate::made::{is_shown, letter, number, text};
use contact_avoid::{Manager, Ranges, Track, approach_utility};
use helm_geo::Spot;
use moos_db::Mail;
use std::alloc::Global;
use std::process::Abort;

// A mail of reports, before which the first one has the own position, which is 0, and a number that is no report.
fn mail(rt: &impl Abort, alloc: Global, is_first: bool, reports: &[&str]) -> Mail {
    let mut mail = Mail::new(alloc);
    if is_first {
        for var in ["NAV_X", "NAV_Y", "NODE_REPORT"] {
            let letter = letter(rt, alloc, var, number(rt, 0));
            mail.add(letter).expect(rt, "memory");
        }
    }
    for report in reports {
        add_report(rt, alloc, &mut mail, report);
    }
    mail
}

fn add_report(rt: &impl Abort, alloc: Global, mail: &mut Mail, report: &str) {
    let letter = letter(rt, alloc, "NODE_REPORT", text(rt, alloc, report));
    mail.add(letter).expect(rt, "memory");
}

// What is reported at each turn, and what the turn posts.
type Turn = (&'static [&'static str], &'static [u8]);

// A manager that knows nothing yet, with the usual ranges.
fn manager(alloc: Global) -> Manager {
    let ranges = Ranges {
        alert: 50_000,
        clear: 60_000,
    };
    Manager::make(alloc, ranges)
}

fn posts(rt: &impl Abort, alloc: Global, manager: &mut Manager, mail: &Mail, wanted: &[u8]) {
    let batch = manager.turn(alloc, mail).expect(rt, "memory");
    is_shown(rt, alloc, &batch, wanted);
}

fn turns(rt: &impl Abort, alloc: Global, rows: &[Turn]) {
    let mut manager = manager(alloc);
    let mut is_first = true;
    for (reports, wanted) in rows {
        let mail = mail(rt, alloc, is_first, *reports);
        posts(rt, alloc, &mut manager, &mail, *wanted);
        is_first = false;
    }
}

// One contact at five distances, and the borders, which belong to their ranges.
const FIVE: &[Turn] = &[
    (&["NAME=b,X=60,Y=0,SPD=1,HDG=90"], b""),
    (
        &["NAME=b,X=50,Y=0,SPD=1,HDG=90"],
        b"CONTACT_ALERT=\"b\" CONTACT_INFO=\"name=avd_b # contact=b # contact_x=50 # contact_y=0 # contact_speed=1 # contact_heading=90\" ",
    ),
    (
        &["NAME=b,X=50.001,Y=0,SPD=1,HDG=90"],
        b"CONTACT_INFO=\"name=avd_b # contact=b # contact_x=50.001 # contact_y=0 # contact_speed=1 # contact_heading=90\" ",
    ),
    (
        &["NAME=b,X=60,Y=0,SPD=1,HDG=90"],
        b"CONTACT_INFO=\"name=avd_b # contact=b # contact_x=60 # contact_y=0 # contact_speed=1 # contact_heading=90\" ",
    ),
    (
        &["NAME=b,X=60.001,Y=0,SPD=1,HDG=90"],
        b"CONTACT_RESOLVED=\"b\" CONTACT_INFO=\"name=avd_b # resolved=true\" ",
    ),
    (&["NAME=b,X=60,Y=0,SPD=1,HDG=90"], b""),
];

// A bad report changes nothing; contacts are in the order of their first reports.
const TWO: &[Turn] = &[
    (&["NAME=c,X=0,Y=70,SPD=0,HDG=0", "NAME=b,X=1"], b""),
    (
        &[
            "NAME=b,X=3,Y=-4,SPD=2.5,HDG=0",
            "NAME=c,X=0,Y=30,SPD=0,HDG=0",
        ],
        b"CONTACT_ALERT=\"c\" CONTACT_INFO=\"name=avd_c # contact=c # contact_x=0 # contact_y=30 # contact_speed=0 # contact_heading=0\" CONTACT_ALERT=\"b\" CONTACT_INFO=\"name=avd_b # contact=b # contact_x=3 # contact_y=-4 # contact_speed=2.5 # contact_heading=0\" ",
    ),
    (
        &["NAME=c,X=0,Y=61,SPD=0,HDG=0", "NAME=b,X=1"],
        b"CONTACT_RESOLVED=\"c\" CONTACT_INFO=\"name=avd_c # resolved=true\" CONTACT_INFO=\"name=avd_b # contact=b # contact_x=3 # contact_y=-4 # contact_speed=2.5 # contact_heading=0\" ",
    ),
];

#[test]
fn contacts_cross(rt: HostRuntime) {
    turns(&rt, rt.alloc(), FIVE);
    turns(&rt, rt.alloc(), TWO);
}

// The first reports of so many contacts, which are far away.
fn far_away(rt: &impl Abort, alloc: Global, contacts: u32) -> Mail {
    let mut mail = mail(rt, alloc, true, &[]);
    for number in 1..=contacts {
        let report = format!(in alloc; "NAME=c{number},X=70,Y=0,SPD=0,HDG=0").expect(rt, "memory");
        add_report(rt, alloc, &mut mail, report.as_str());
    }
    mail
}

// The last two of 33 contacts come near, of whom the last one isn't known.
const LAST: &[&str] = &[
    "NAME=c33,X=10,Y=0,SPD=0,HDG=0",
    "NAME=c32,X=10,Y=0,SPD=0,HDG=0",
];

const KNOWN: &[u8] =
    b"CONTACT_ALERT=\"c32\" CONTACT_INFO=\"name=avd_c32 # contact=c32 # contact_x=10 # contact_y=0 # contact_speed=0 # contact_heading=0\" ";

#[test]
fn most_contacts(rt: HostRuntime) {
    let mut manager = manager(rt.alloc());
    let reports = far_away(&rt, rt.alloc(), 33);
    posts(&rt, rt.alloc(), &mut manager, &reports, b"");
    let reports = mail(&rt, rt.alloc(), false, LAST);
    posts(&rt, rt.alloc(), &mut manager, &reports, KNOWN);
}

// The own ship at 0 and a contact 20 m to the east that lies still: `avoids` asks for courses of a domain, and here one is below 0, and
// the ship lies still too.
#[test]
fn courses_have_their_utilities(rt: HostRuntime) {
    let own = Spot { x: 0, y: 0 };
    let contact = Track {
        x: 20_000,
        y: 0,
        speed: 0,
        heading: 0,
    };
    let below = approach_utility(10_000, 75_000, own, contact, 1_000, -89_001);
    let still = approach_utility(10_000, 75_000, own, contact, 0, 90_000);
    assert!(&rt; below == 5_429 && still == 5_429);
}
