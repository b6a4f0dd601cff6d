// Bridge files and refusals worked by hand, and names that a bridge would make too long.
use crate::files::{Kind, append, append_number, are_judged, bytes_of, check, is_shown};
use crate::scripts::show_reg;
use moos_share::{Rule, Rules, read_bridge, too_long};
use script_reader::read_script;
use std::alloc::Global;
use std::process::Abort;

fn show_rule(rt: &impl Abort, text: &mut Vec<u8>, rule: &Rule) {
    append_number(rt, text, b"| ", rule.line, b" ");
    show_reg(rt, text, &rule.reg);
    append(rt, text, &[b" "]);
    if let Some(prefix) = &rule.prefix {
        append(rt, text, &[b"<", prefix.bytes(), b"> "]);
    }
}

// Each rule by its line, its patterns, its interval and its prefix.
fn shown(rt: &impl Abort, alloc: Global, rules: &Rules) -> Vec<u8> {
    let mut text = Vec::new(alloc);
    for rule in rules.all() {
        show_rule(rt, &mut text, rule);
    }
    text
}

// Bridge files and what is shown of them.
const GOOD: &[(&str, &str)] = &[
    ("", ""),
    ("\n \t // nothing is carried\n", ""),
    (
        "// positions\r\n\r\n\tshare NAV_* veh? 0.5 A_ // twice a second\r\nshare  STATUS\t* +1000000.0009 -\r",
        "| 3 NAV_* veh? 0.5 <A_> | 4 STATUS * 1000000 ",
    ),
    // A prefix is any name of at most 32 bytes, also one that is a word of these files.
    (
        "share share * .0019 share\nshare * * 0 A2345678901234567890123456789012",
        "| 1 share * 0.001 <share> | 2 * * 0 <A2345678901234567890123456789012> ",
    ),
];

// Bridge files, and before each the line and the cause of its refusal. An open quote is told before all words, and not in a comment;
// the words come from left to right.
const REFUSED: &str = "1 G1 share X * 0
1 G1 share X * 0 A_ B
1 G1 share X * 0 - -
1 G1 share
2 G1 |Share X * 0 -
1 G1 sharing X * 0 -
1 G1 share X! * 0 // -
1 G1 \"
1 G1 share \"X * 0 -
2 G1 share X * 0 - // \"|share X! * 0 - \"
1 G2 share X! * a 9A
1 G2 share X a! 0 -
1 G2 share X a! a 9A
1 G2 share \"X\" * 0 -
1 G3 share X * 1000000.001 9A
1 G3 share X * -1 -
1 G3 share X * -0.001 -
1 G3 share X * a 9A
1 G5 share X * 0 9A
1 G5 share X * 0 --
1 G5 share X * 0 A*
1 G5 share X * 0 A23456789012345678901234567890123
1 G5 share X * 0 9A|share";

#[test]
fn bridges(rt: HostRuntime) {
    let alloc = rt.alloc();
    for (text, wanted) in GOOD {
        let rules = read_bridge(alloc, bytes_of(&rt, *text)).expect(&rt, *text);
        is_shown(&rt, &shown(&rt, alloc, &rules), *wanted, *text);
    }
    are_judged(&rt, alloc, Kind::Bridge, b"", REFUSED);
}

// It posts a name of 64 bytes and one of 62.
const POSTS: &str =
    "0 a register LONG_*\n1 a post X=1 # B234567890123456789012345678901234567890123456789012345678901234=2\n2 b post C2345678901234567890123456789012345678901234567890123456789012=3\n3 b fetch\n";

// Bridge files, and the line that makes a name of that script too long.
const LONG: &[(&str, Option<u32>)] = &[
    ("", None),
    (
        "share * * 0 -\nshare X * 0 A2345678901234567890123456789012",
        None,
    ),
    // One byte more than 64, and just 64.
    ("\nshare B* * 0 A", Some(2)),
    ("share C* * 0 AB", None),
    ("share C* * 0 ABC", Some(1)),
    // Whatever its source, and though an earlier rule selects every post.
    (
        "share * * 0 -\nshare X a 0 A\n\nshare ?23* nobody 0 A\nshare * * 0 A",
        Some(4),
    ),
    // What is registered for isn't posted.
    ("share LONG_* * 0 A2345678901234567890123456789012", None),
];

#[test]
fn long_names(rt: HostRuntime) {
    let alloc = rt.alloc();
    let script = read_script(alloc, bytes_of(&rt, POSTS)).expect(&rt, POSTS);
    for (text, line) in LONG {
        let rules = read_bridge(alloc, bytes_of(&rt, *text)).expect(&rt, *text);
        check(&rt, too_long(&rules, &script) == *line, *text);
    }
}
