// Two scripts played with a bridge between their communities: both histories, row by row.
ghost use Rattle.script_reader.specs.Validity.{IsValid};

use crate::made::{append, check, count, words};
use moos_bridged::{Shared, share};
use moos_db::Db;
use moos_io::{Gate, NoGate};
use moos_post::{Batch, Call, Entry, Value};
use moos_share::{Rules, read_bridge};
use script_reader::{Order, Script, read_script};
use std::alloc::Global;
use std::hint::spin_loop;
use std::process::Abort;
use std::sync::Wait;
use std::sync::atomic::{AtomicBool, AtomicU64, Ordering};
use std::thread::Threads;

fn script_of(rt: &impl Abort, alloc: Global, text: &str) -> Script
    ensures { IsValid result }
{
    script_in(rt, alloc, text.as_bytes())
}

fn script_in(rt: &impl Abort, alloc: Global, text: &[u8]) -> Script
    ensures { IsValid result }
{
    assert!(rt; text.len() < 10_000);
    match read_script(alloc, text) {
        Ok(script) => script,
        Err(_) => panic!(rt; "a script"),
    }
}

fn rules_of(rt: &impl Abort, alloc: Global, text: &str) -> Rules {
    assert!(rt; text.len() < 1000);
    match read_bridge(alloc, text.as_bytes()) {
        Ok(rules) => rules,
        Err(_) => panic!(rt; "a bridge file"),
    }
}

// The value is the one that each script posts.
fn is_value(value: &Value) -> bool {
    matches!(value, Value::Num(number) if number.get() == 5)
}

// The pairs have these variables, each with that value.
fn has_variables(rt: &impl Abort, posted: &Batch, vars: &[&str], row: &str) {
    check(rt, posted.len() == vars.len(), true, row);
    for (pair, var) in posted.all().iter().zip(vars) {
        let is_pair = pair.var.bytes() == var.as_bytes() && is_value(&pair.value);
        check(rt, is_pair, true, row);
    }
}

// The word for a call in a script.
fn verb_of(call: &Call) -> &'static str {
    match call {
        Call::Register(_) => "register",
        Call::Unregister(_, _) => "unregister",
        Call::Post(_) => "post",
        Call::Fetch => "fetch",
    }
}

// The words are these numbers.
fn are_numbers(rt: &impl Abort, numbers: &[u64], words: &[&str], row: &str) {
    check(rt, numbers.len() == words.len(), true, row);
    for (number, word) in numbers.iter().zip(words) {
        check(rt, *number == count(rt, word), true, row);
    }
}

// The entry is as a line says: its stamp in milliseconds, the number of its client, its call, and the variables of a post, or
// the numbers of the posts that it gave, which only a fetch does.
fn is_entry(rt: &impl Abort, alloc: Global, entry: &Entry, given: &[u64], line: &str) {
    let words = words(rt, alloc, line);
    let [stamp, client, verb, rest @ ..] = words.as_slice() else {
        panic!(rt; "an entry")
    };
    check(rt, entry.stamp == count(rt, stamp), true, line);
    check(rt, u64::from(entry.client) == count(rt, client), true, line);
    check(rt, verb_of(&entry.call) == *verb, true, line);
    if let Call::Post(posted) = &entry.call {
        has_variables(rt, posted, rest, line);
    } else {
        are_numbers(rt, given, rest, line);
    }
}

// The history is these entries, a line each.
fn are_entries(rt: &impl Abort, alloc: Global, db: &Db, lines: &str) {
    let mut k = 0;
    for line in lines.lines() {
        assert!(rt; k < db.entries(), "{line}");
        is_entry(rt, alloc, db.entry(k), db.letters(k), line);
        k += 1;
    }
    assert!(rt; k == db.entries());
}

// The first script, the second one, the bridge file, and then the first history and the second one.
const ROWS: &[(&str, &str, &str, &str, &str)] = &[
    // Each post under the prefix of the first rule that selects it, once, in the order of the posts. One post of the bridge for each
    // stamp, even if nothing came. A client of the second community hears them until it withdraws its registration.
    (
        "0 a post X=0.005\n1 a post NAV_Y=0.005\n1 a post X=0.005 # Z=0.005\n3 a post X=0.005",
        "0 b register *\n2 b fetch\n2 b unregister *\n4 b fetch",
        "share X * 0 A_\nshare * * 0 -",
        "0 1 register\n0 0 post X\n0 1 fetch 0\n1000 0 post NAV_Y\n1000 0 post X Z\n1000 1 fetch 1 2 3\n2000 1 fetch\n3000 0 post X\n3000 1 fetch 4\n4000 1 fetch",
        "0 0 register\n0 1 post A_X\n1000 1 post NAV_Y A_X Z\n2000 0 fetch 0 1 2 3\n2000 0 unregister\n2000 1 post\n3000 1 post A_X\n4000 0 fetch\n4000 1 post",
    ),
    (
        "0.5 a post XY=0.005 # X=0.005 # Y=0.005 # Z=0.005",
        "",
        "share X* * 0 A_\n\nshare *Y * 0 B_\nshare X * 0 C_",
        "0 1 register\n500 0 post XY X Y Z\n500 1 fetch 0 1 2",
        "500 0 post A_XY A_X B_Y",
    ),
    // By its source.
    (
        "0 a post X=0.005 # Y=0.005\n1 b post X=0.005 # Y=0.005",
        "",
        "share * b 0 B_\nshare X ? 0 A_",
        "0 2 register\n0 0 post X Y\n0 2 fetch 0\n1000 1 post X Y\n1000 2 fetch 2 3",
        "0 0 post A_X\n1000 0 post B_X B_Y",
    ),
    // An interval of two seconds; and a post that isn't due by it, but by another rule's: it still has the first rule's name.
    (
        "0 a post X=0.005\n1 b post X=0.005\n2 a post X=0.005",
        "",
        "share X * 2 A_",
        "0 2 register\n0 0 post X\n0 2 fetch 0\n1000 1 post X\n1000 2 fetch\n2000 0 post X\n2000 2 fetch 2",
        "0 0 post A_X\n1000 0 post\n2000 0 post A_X",
    ),
    (
        "0 a post X=0.005\n1 b post X=0.005",
        "",
        "share X * 2 A_\nshare * * 0 B_",
        "0 2 register\n0 0 post X\n0 2 fetch 0\n1000 1 post X\n1000 2 fetch 1",
        "0 0 post A_X\n1000 0 post A_X",
    ),
    // A post whose new name would have more than 64 bytes is left out, and no later rule carries it.
    (
        "0.001 a post B234567890123456789012345678901234567890123456789012345678901234=0.005 # C=0.005",
        "",
        "share B* * 0 A\nshare * * 0 -",
        "0 1 register\n1 0 post B234567890123456789012345678901234567890123456789012345678901234 C\n1 1 fetch 0 1",
        "1 0 post C",
    ),
    // Scripts without clients, if the bridge is client 0.
    (
        "",
        "1 b post Y=0.005",
        "share * * 0 -",
        "0 0 register\n1000 0 fetch",
        "1000 0 post Y\n1000 1 post",
    ),
    // A bridge without rules, whose posts are empty, and three empty files.
    (
        "0 a post X=0.005",
        "",
        "",
        "0 1 register\n0 0 post X\n0 1 fetch",
        "0 0 post",
    ),
    ("", "", "", "0 0 register", ""),
    // What no client does makes no stamp.
    (
        "0 a post X=0.005\n7 until",
        "9 until",
        "share * * 0 -",
        "0 1 register\n0 0 post X\n0 1 fetch 0",
        "0 0 post X",
    ),
];

#[test]
fn shared(rt: HostRuntime) {
    let alloc = rt.alloc();
    for (first, second, file, one, two) in ROWS {
        let shared = shared_by(&rt, alloc, *first, *second, *file, Order::Stamp);
        are_entries(&rt, alloc, &shared.first, *one);
        are_entries(&rt, alloc, &shared.second, *two);
    }
}

// What two scripts leave that are played in this order with the bridge of this file.
fn shared_by<R: Threads + Wait + Sync + Abort>(
    rt: &R,
    alloc: Global,
    first: &str,
    second: &str,
    file: &str,
    order: Order,
) -> Shared {
    let first = script_of(rt, alloc, first);
    let second = script_of(rt, alloc, second);
    let rules = rules_of(rt, alloc, file);
    let shared = share(rt, alloc, &first, &second, rules, order, &NoGate);
    shared.expect(rt, "memory")
}

// What the client with this number posts in the history: each variable, and a blank behind it.
fn posted_by(rt: &impl Abort, alloc: Global, db: &Db, client: u32) -> Vec<u8> {
    let mut text = Vec::new(alloc);
    for k in 0..db.entries() {
        let entry = db.entry(k);
        if entry.client == client {
            append_variables(rt, &mut text, &entry.call);
        }
    }
    text
}

fn append_variables(rt: &impl Abort, text: &mut Vec<u8>, call: &Call) {
    if let Call::Post(posted) = call {
        for pair in posted.all() {
            append(rt, text, &[pair.var.bytes(), b" "]);
        }
    }
}

// The client posts these variables in the history, in order.
fn has_posted(rt: &impl Abort, alloc: Global, db: &Db, client: u32, vars: &[u8]) {
    assert!(rt; posted_by(rt, alloc, db, client).as_slice() == vars);
}

// The history has `entries` entries, of which the last one is at this stamp.
fn ends(rt: &impl Abort, db: &Db, stop: u64, entries: u64) {
    assert!(rt; 0 < entries && db.entries() == entries);
    assert!(rt; db.entry(entries - 1).stamp == stop);
}

// The first script, the second one, the bridge file; the bridge's number in either; the last stamp, how many entries each history
// has, and what the bridge posts in the second, whatever the threads do.
const RACES: &[(&str, &str, &str, [u32; 2], u64, [u64; 2], &[u8])] = &[
    (
        "0 a post X=1\n1 a post NAV_Y=2",
        "0 b register *\n2 b fetch",
        "share X * 0 A_\nshare * * 0 -",
        [1, 1],
        2000,
        [6, 5],
        b"A_X NAV_Y ",
    ),
    // Scripts without clients: the first plays nothing, and in the second the bridge is client 0.
    (
        "",
        "1 b post Y=1",
        "share * * 0 -",
        [0, 1],
        1000,
        [2, 2],
        b"",
    ),
    (
        "0 a post X=1\n0 b post Y=1\n7 until",
        "",
        "share X * 0 -",
        [2, 0],
        7000,
        [6, 3],
        b"X ",
    ),
    ("", "", "", [0, 0], 0, [2, 1], b""),
];

#[test]
fn shared_in_a_race(rt: HostRuntime) {
    for (first, second, file, bridges, stop, entries, vars) in RACES {
        let shared = shared_by(&rt, rt.alloc(), *first, *second, *file, Order::Race);
        ends(&rt, &shared.first, *stop, entries[0]);
        ends(&rt, &shared.second, *stop, entries[1]);
        has_posted(&rt, rt.alloc(), &shared.first, bridges[0], b"");
        has_posted(&rt, rt.alloc(), &shared.second, bridges[1], *vars);
    }
}

/// Holds each of four clients before its first call, two of either community, until all four are there, or lets go after a
/// while. It counts the calls that it is told under the numbers of the second community's clients, 2 and 3.
#[derive(Drop)]
struct Meeting {
    arrived: AtomicU64,
    seconds: AtomicU64,
    missed: AtomicBool,
}

impl Gate for Meeting {
    fn at_node(&self, _worker: u32, _nth: u64) {}

    fn at_call(&self, client: u32, nth: u64) {
        if client == 2 || client == 3 {
            self.seconds.fetch_add(1, Ordering::SeqCst);
        }
        if nth > 0 {
            return;
        }
        self.arrived.fetch_add(1, Ordering::SeqCst);
        for _ in 0..100_000_000u32 {
            if self.arrived.load(Ordering::SeqCst) >= 4 {
                return;
            }
            spin_loop();
        }
        self.missed.store(true, Ordering::SeqCst);
    }
}

// A script in which each of these lines stands so many times.
fn repeated(rt: &impl Abort, alloc: Global, lines: &[&[u8]], times: u32) -> Script
    ensures { IsValid result }
{
    let mut text = Vec::new(alloc);
    for line in lines {
        for _ in 0..times {
            append(rt, &mut text, &[*line]);
        }
    }
    script_in(rt, alloc, text.as_slice())
}

// Four clients with so many calls at one stamp, two of either community, are beside each other, and the gate tells them apart.
fn meet<R: Threads + Wait + Sync + Abort>(rt: &R, alloc: Global, order: Order, times: u32) {
    let first = repeated(rt, alloc, &[b"1 a fetch\n", b"1 b fetch\n"], times);
    let second = repeated(rt, alloc, &[b"1 a fetch\n", b"1 b fetch\n"], times);
    let rules = rules_of(rt, alloc, "share * * 0 -");
    let gate = Meeting {
        arrived: AtomicU64::new(0),
        seconds: AtomicU64::new(0),
        missed: AtomicBool::new(false),
    };
    share(rt, alloc, &first, &second, rules, order, &gate).expect(rt, "memory");
    assert!(rt; !gate.missed.load(Ordering::SeqCst));
    assert!(rt; gate.seconds.load(Ordering::SeqCst) == u64::from(times) * 2);
}

#[test]
fn communities_beside(rt: HostRuntime) {
    meet(&rt, rt.alloc(), Order::Race, 2);
    meet(&rt, rt.alloc(), Order::Stamp, 64);
}
