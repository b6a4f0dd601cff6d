// What each call answers. A name here is any text, and a pattern is read as a registration has it.
use crate::made::{check, name, pattern, reg};
use moos_post::Reg;
use moos_reg::{due, matches, selects};
use std::alloc::Global;
use std::process::Abort;

// Whether a pattern matches a name, the pattern, and the name, if it isn't empty. The last five patterns are the longest ones.
const MATCHES: &str = "yes NAV_X NAV_X
no NAV_X NAV_Y
no NAV_X NAV_XY
no NAV_X NAV_
no nav_X NAV_X
no NAV_X
no ?
yes ? a
yes ? *
no ? ab
yes ?AV_? NAV_X
no ?AV_? NAV_
no ?AV_? AV_X
yes *
yes * NAV_X
yes **
yes ** NAV_X
yes NAV_* NAV_
yes NAV_* NAV_X
no NAV_* NAV
yes *_X NAV_X
no *_X NAV_XY
no *?
yes ?* a
no a *
yes *ab? aabab_
no *ab? aababc_
yes *aab aaaab
yes a*b*c abcbc
no a*b*c acbca
yes *a*b bbaab
no *a*b bba
yes aaaaaaaaaaaaaaaaaaaaaaaaaaaaaaaaaaaaaaaaaaaaaaaaaaaaaaaaaaaaaaaa aaaaaaaaaaaaaaaaaaaaaaaaaaaaaaaaaaaaaaaaaaaaaaaaaaaaaaaaaaaaaaaa
yes ???????????????????????????????????????????????????????????????? aaaaaaaaaaaaaaaaaaaaaaaaaaaaaaaaaaaaaaaaaaaaaaaaaaaaaaaaaaaaaaaa
yes **************************************************************** aaaaaaaaaaaaaaaaaaaaaaaaaaaaaaaaaaaaaaaaaaaaaaaaaaaaaaaaaaaaaaaa
no aaaaaaaaaaaaaaaaaaaaaaaaaaaaaaaaaaaaaaaaaaaaaaaaaaaaaaaaaaaaaaab aaaaaaaaaaaaaaaaaaaaaaaaaaaaaaaaaaaaaaaaaaaaaaaaaaaaaaaaaaaaaaaa
no *a*a*a*a*a*a*a*a*a*a*a*a*a*a*a*a*a*a*a*a*a*a*a*a*a*a*a*a*a*a*a*b aaaaaaaaaaaaaaaaaaaaaaaaaaaaaaaaaaaaaaaaaaaaaaaaaaaaaaaaaaaaaaaa";

// What a row says: whether it holds, and two words, which are empty if they are left out.
fn read(row: &str) -> (bool, &str, &str) {
    let mut words = row.split_whitespace();
    let holds = words.next() == Some("yes");
    let one = words.next().unwrap_or("");
    (holds, one, words.next().unwrap_or(""))
}

// Whether the pattern that a word says matches a name.
fn is_match(rt: &impl Abort, alloc: Global, word: &str, name: &[u8]) -> bool {
    let pattern = pattern(rt, alloc, word);
    assert!(rt; pattern.bytes() == word.as_bytes());
    matches(&pattern, name)
}

#[test]
fn patterns_against_names(rt: HostRuntime) {
    for row in MATCHES.lines() {
        let (holds, word, name) = read(row);
        check(
            &rt,
            is_match(&rt, rt.alloc(), word, name.as_bytes()),
            holds,
            row,
        );
    }
}

// Whether variable and source are selected, by a registration for both.
const SELECTIONS: &str = "yes NAV_X pA
no NAV_X log
no DEPTH pA
no DEPTH log
no pA NAV_X";

// Whether the registration selects the variable of one name and the source of another.
fn is_selected(rt: &impl Abort, alloc: Global, reg: &Reg, var: &str, source: &str) -> bool {
    let var = name(rt, alloc, var);
    let source = name(rt, alloc, source);
    selects(reg, &var, &source)
}

#[test]
fn selections(rt: HostRuntime) {
    let reg = reg(&rt, rt.alloc(), "NAV_*", 2500, "p?");
    for row in SELECTIONS.lines() {
        let (holds, var, source) = read(row);
        check(
            &rt,
            is_selected(&rt, rt.alloc(), &reg, var, source),
            holds,
            row,
        );
    }
}

// The stamp of the last post, that of the next one, the interval, and whether it is due.
const DUES: &[(Option<u64>, u64, u64, bool)] = &[
    (None, 0, u64::MAX, true),
    // exactly the interval later, and a millisecond less
    (Some(1000), 1500, 500, true),
    (Some(1000), 1499, 500, false),
    // at equal stamps
    (Some(5), 5, 0, true),
    (Some(5), 5, 1, false),
    // a stamp that falls back
    (Some(5), 4, 0, false),
    (Some(5), 4, u64::MAX, false),
    // at the u64::MAX stamp and interval
    (Some(u64::MAX), u64::MAX, 0, true),
    (Some(u64::MAX), u64::MAX, u64::MAX, false),
    (Some(0), u64::MAX, u64::MAX, true),
    (Some(1), u64::MAX, u64::MAX, false),
];

#[test]
fn dues(rt: HostRuntime) {
    for (last, stamp, interval, good) in DUES {
        assert_eq!(rt; due(*last, *stamp, *interval), *good);
    }
}
