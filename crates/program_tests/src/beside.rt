// Two clients beside each other: in whatever order their lines come, what is printed is the report of that very history.
use crate::files::append;
use crate::runs::{PLAY, RACE, has_ended, ran, run_into, sink};
use moos_io::Gate;
use std::alloc::Global;
use std::hint::spin_loop;
use std::process::Abort;
use std::sync::Wait;
use std::sync::atomic::{AtomicBool, Ordering};
use std::thread::Threads;

const SCRIPT: &str =
    "0 a register X\n0.5 b register X\n1 a post X=1\n1 a fetch\n1 b post X=2\n1 b fetch\n";

// The name of each client, when it registers, and what is printed of its post.
const A: [&str; 3] = ["a", "0", "1 X a 1\n"];

const B: [&str; 3] = ["b", "0.5", "1 X b 2\n"];

const HEAD: &str = "%% moosdb play 1\n%% client 0 a\n%% client 1 b\n";

// The first two entries of a play in rounds: each client registers at a stamp of its own.
const ROUNDS: &str =
    "%% moosdb play 1\n%% client 0 a\n%% client 1 b\n%% entry 0 0 a register\n%% reg X * 0\n\
    %% entry 1 0.5 b register\n%% reg X * 0\n";

fn digit(number: usize) -> &'static str {
    match number {
        0 => "0",
        1 => "1",
        2 => "2",
        3 => "3",
        4 => "4",
        5 => "5",
        _ => "more",
    }
}

// Adds the entry with number `k`: the next line of a client that has made so many. It registers, then it posts, and then it fetches
// all posts so far: if the other one has posted before it registers, that is the latest post of the variable.
fn add_entry(
    rt: &impl Abort,
    text: &mut String,
    mails: &mut String,
    k: usize,
    client: [&'static str; 3],
    made: &mut usize,
) {
    let [name, stamp, said] = client;
    let stamp = if *made == 0 { stamp } else { "1" };
    append(rt, text, &["%% entry ", digit(k), " ", stamp, " ", name]);
    match *made {
        0 => append(rt, text, &[" register\n%% reg X * 0\n"]),
        1 => {
            let number = if mails.is_empty() { "0" } else { "1" };
            append(rt, text, &[" post ", number, " 1\n", said]);
            append(rt, mails, &["%% mail ", number, " ", said]);
        }
        _ => {
            append(rt, text, &[" fetch\n"]);
            text.push_str(mails.as_str()).expect(rt, "memory");
        }
    }
    *made = made.saturating_add(1);
}

// Makes `text` the report of the history in which the clients' lines are in the order that this report tells, three of each.
fn retell(rt: &impl Abort, text: &mut String, mails: &mut String, report: &str) {
    append(rt, text, &[HEAD]);
    let mut a = 0usize;
    let mut b = 0usize;
    for line in report.lines() {
        let k = a.saturating_add(b);
        match line.split_whitespace().nth(4) {
            Some("a") => add_entry(rt, text, mails, k, A, &mut a),
            Some("b") => add_entry(rt, text, mails, k, B, &mut b),
            _ => {}
        }
    }
    assert!(rt; a == 3 && b == 3);
    append(rt, text, &["%% end 6 2\n"]);
}

// A report begins so, and is that of the order that it tells.
fn is_retold(rt: &impl Abort, alloc: Global, report: &str, front: &str) {
    let mut text = String::new(alloc);
    let mut mails = String::new(alloc);
    retell(rt, &mut text, &mut mails, report);
    assert!(rt;
        report.starts_with(front) && text.as_str() == report,
        "{report}"
    );
}

// So is the report of a play of the script by these words.
fn plays<R: Threads + Wait + Sync + Abort>(rt: &R, alloc: Global, line: &[&str], front: &str) {
    let report = ran(rt, alloc, line, &[SCRIPT], "done");
    is_retold(rt, alloc, report.as_str(), front);
}

#[test]
fn reports_are_of_the_history_that_came(rt: HostRuntime) {
    for _ in 0..20 {
        plays(&rt, rt.alloc(), PLAY, ROUNDS);
    }
    for _ in 0..200 {
        plays(&rt, rt.alloc(), RACE, HEAD);
    }
}

/// Holds client 0 at its first call until client 1 is at its own, and, if three workers are wanted, the first two at what
/// comes behind the root until the third one is at a node; or lets go after a while.
#[derive(Drop)]
struct Watch {
    workers: u32,
    here: AtomicBool,
    missed: AtomicBool,
}

impl Watch {
    fn wait(&self) {
        for _ in 0..100_000_000u32 {
            if self.here.load(Ordering::SeqCst) {
                return;
            }
            spin_loop();
        }
        self.missed.store(true, Ordering::SeqCst);
    }
}

impl Gate for Watch {
    fn at_node(&self, worker: u32, nth: u64) {
        if worker == 2 {
            self.here.store(true, Ordering::SeqCst);
        } else if self.workers == 3 && (worker == 1 || nth > 0) {
            self.wait();
        }
    }

    fn at_call(&self, client: u32, _nth: u64) {
        if client == 1 {
            self.here.store(true, Ordering::SeqCst);
        } else {
            self.wait();
        }
    }
}

// The watch over a run by these words on this file, which is done.
fn watched<R: Threads + Wait + Sync + Abort>(
    rt: &R,
    alloc: Global,
    line: &[&str],
    text: &str,
    workers: u32,
) -> Watch {
    let gate = Watch {
        workers,
        here: AtomicBool::new(false),
        missed: AtomicBool::new(false),
    };
    let mut out = sink(rt, alloc);
    let status = run_into(rt, alloc, line, &[text], None, &mut out, &gate);
    assert!(rt; has_ended(rt, alloc, status, "done"));
    gate
}

// The two lines have stamps of their own, so in rounds the second client would wait for the first.
#[test]
fn a_race_has_no_rounds(rt: HostRuntime) {
    let watch = watched(&rt, rt.alloc(), RACE, "0 a fetch\n1 b fetch\n", 1);
    assert!(rt; !watch.missed.load(Ordering::SeqCst));
}

// The root has a child for each of three workers, of whom no one takes another's while he is held at his own.
const FORKED: &str =
    "ivp 1\ndomain a:0:2:3\nfunction 1\npiece 0 0 0 0\npiece 1 1 5 0\npiece 2 2 0 0\nend\n";

// Whether a third worker is there if so many are asked for.
fn has_third<R: Threads + Wait + Sync + Abort>(
    rt: &R,
    alloc: Global,
    workers: u32,
    asked: &str,
) -> bool {
    let line = ["solve", "s.txt", "--workers", asked];
    let watch = watched(rt, alloc, &line, FORKED, workers);
    watch.here.load(Ordering::SeqCst)
}

#[test]
fn so_many_workers_as_are_asked_for(rt: HostRuntime) {
    assert!(rt; !has_third(&rt, rt.alloc(), 2, "2"));
    assert!(rt; has_third(&rt, rt.alloc(), 3, "3"));
}
