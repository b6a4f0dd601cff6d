// Contacts files, their refusals, and node reports worked by hand.
use crate::files::{Kind, append_milli, are_judged, bytes_of, check, is_shown, joined};
use contact_avoid::{Ranges, Report, read_report};
use std::alloc::Global;
use std::process::Abort;

// Contacts files, with the alert range and the clear range, in thousandths of a metre.
const GOOD: &[(&str, u32, u32)] = &[
    ("", 50_000, 60_000),
    ("// none\n\n", 50_000, 60_000),
    ("alert_range = 60", 60_000, 60_000),
    ("ALERT_range=0\nclear_Range = 0.0009 // none\r\n", 0, 0),
    ("clear_range = 10\nclear_range = 70\n", 50_000, 70_000),
    (
        "alert_range = 10000\nclear_range = +10000.0009",
        10_000_000,
        10_000_000,
    ),
    ("\talert_range\t=\t.0125\n", 12, 60_000),
];

// Contacts files, and before each the line and the cause of its refusal.
const REFUSED: &str = "1 C1 alert_range
2 C1 |range = 5
1 C1 = 5
1 C1 alert_range = 5 \"
1 C1 range = x
1 C2 alert_range =
1 C2 alert_range = 5 m
1 C2 alert_range = \"5\"
1 C2 alert_range = -0.001
1 C2 clear_range = 10000.001|x
1 C3 alert_range = 61
2 C3 clear_range = 49.999|// the end|
2 C1 clear_range = 10|x";

#[test]
fn contacts_files(rt: HostRuntime) {
    for (text, alert, clear) in GOOD {
        let ranges = Ranges::read(bytes_of(&rt, *text)).expect(&rt, *text);
        check(&rt, ranges.alert == *alert, *text);
        check(&rt, ranges.clear == *clear, *text);
    }
    are_judged(&rt, rt.alloc(), Kind::Contacts, b"", REFUSED);
}

// Reports, with their name, position, speed and heading; nothing of those that aren't good.
const REPORTS: &[(&str, &str)] = &[
    ("NAME=b,X=-1.5,Y=2,SPD=3,HDG=4", "b -1.5 2 3 4"),
    (
        " name = b ,\tx=+1, Y = .5 ,Spd=0,HDG=360,TYPE=kayak,LENGTH=",
        "b 1 0.5 0 360",
    ),
    (
        "HDG=0,SPD=100,Y=-1000000,X=1000000.0009,NAME=abcdefghijklmnopqrstuvwxyz_-.012",
        "abcdefghijklmnopqrstuvwxyz_-.012 1000000 -1000000 100 0",
    ),
    ("NAME=b,X=1", ""),
    ("", ""),
    ("NAME=b,X=1,Y=2,SPD=3,HDG=4,x=1", ""),
    ("NAME=b,X=1,Y=2,SPD=3,HDG=4,name=b", ""),
    ("NAME=b,X=1,Y=2,SPD=3,HDG=4,", ""),
    ("NAME=b,X=1,,Y=2,SPD=3,HDG=4", ""),
    ("NAME=b,X=1,Y=2,SPD=3,HDG=4,kayak", ""),
    ("NAME=,X=1,Y=2,SPD=3,HDG=4", ""),
    ("NAME=\"b\",X=1,Y=2,SPD=3,HDG=4", ""),
    ("NAME=b c,X=1,Y=2,SPD=3,HDG=4", ""),
    (
        "NAME=abcdefghijklmnopqrstuvwxyz_-.0123,X=1,Y=2,SPD=3,HDG=4",
        "",
    ),
    ("NAME=b,X=1000000.001,Y=2,SPD=3,HDG=4", ""),
    ("NAME=b,X=1,Y=-1000000.001,SPD=3,HDG=4", ""),
    ("NAME=b,X=east,Y=2,SPD=3,HDG=4", ""),
    ("NAME=b,X=1,Y=2,SPD=-1,HDG=4", ""),
    ("NAME=b,X=1,Y=2,SPD=100.001,HDG=4", ""),
    ("NAME=b,X=1,Y=2,SPD=3,HDG=360.001", ""),
    ("NAME=b,X=1,Y=2,SPD=3,HDG=-1", ""),
];

fn shown(rt: &impl Abort, alloc: Global, report: &Report) -> Vec<u8> {
    let mut text = joined(rt, alloc, &[report.name.bytes()]);
    append_milli(rt, &mut text, b" ", report.x);
    append_milli(rt, &mut text, b" ", report.y);
    append_milli(rt, &mut text, b" ", report.speed);
    append_milli(rt, &mut text, b" ", report.heading);
    text
}

#[test]
fn node_reports(rt: HostRuntime) {
    for (text, wanted) in REPORTS {
        match read_report(rt.alloc(), text.as_bytes()).expect(&rt, "memory") {
            Some(report) => is_shown(&rt, &shown(&rt, rt.alloc(), &report), *wanted, *text),
            None => check(&rt, wanted.is_empty(), *text),
        }
    }
}
