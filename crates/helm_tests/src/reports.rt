// Reports of a small community, byte for byte.
ghost use Rattle.std.specs.Prelude.{◌<◌, length};

use crate::made::{batch, count_at, holds, names, number, regs, text};
use helm_core::{Faults, Iteration, States, Updates};
use moos_db::Db;
use moos_io::MemSink;
use moos_post::Batch;
use moos_report::{parts_law, report, report_law, report_part, reports_law, setup_without_helm};
use std::alloc::Global;
use std::process::Abort;
use std::slice;

fn post(rt: &impl Abort, alloc: Global, db: &mut Db, stamp: u64)
    requires { 0 < length db.old.names }
    ensures { 0 < length db.new.names }
{
    let five = batch(rt, alloc, "X", number(rt, 5000));
    let posted = db.post(alloc, 0, stamp, five);
    posted.expect(rt, "memory");
}

// A helm that hears itself: its opening posts something, and so does its one iteration.
fn act(rt: &impl Abort, alloc: Global, db: &mut Db)
    requires { 0 < length db.old.names }
{
    let registered = db.register(alloc, 0, 0, regs(rt, alloc, "X"));
    registered.expect(rt, "memory");
    post(rt, alloc, db, 0);
    let fetched = db.fetch(alloc, 0, 250);
    let _ = fetched.expect(rt, "memory");
    post(rt, alloc, db, 250);
}

fn community(rt: &impl Abort, alloc: Global) -> Db {
    let names = names(rt, alloc, "pHelmIvP");
    assert!(rt; names.len() < 100);
    let mut db = Db::make(alloc, names).expect(rt, "memory");
    assert!(rt; 0 < db.clients());
    act(rt, alloc, &mut db);
    db
}

fn iteration(rt: &impl Abort, alloc: Global) -> Iteration {
    Iteration {
        stamp: 250,
        parked: true,
        mode: text(rt, alloc, ""),
        updates: Updates::new(alloc),
        states: States::new(alloc),
        faults: Faults::new(alloc),
        decision: None,
        posts: Batch::new(alloc),
    }
}

const REPORT: &str = "%% moosdb play 1
%% client 0 pHelmIvP
%% entry 0 0 pHelmIvP register
%% reg X * 0
%% entry 1 0 pHelmIvP post 0 1
0 X pHelmIvP 5
%% entry 2 0.25 pHelmIvP fetch
%% mail 0 0 X pHelmIvP 5
%% entry 3 0.25 pHelmIvP post 1 1
0.25 X pHelmIvP 5
%% iteration 0 0.25 PARK
%% none
%% end 4 2
";

// Puts to the sink that fail, and how many bytes it has then: a put takes 100 at most. The last row has none that fails.
const PUTS: &[&str] = &["0 0", "1 100", "2 200", "3 280"];

// A sink of which this put fails.
fn sink_of(rt: &impl Abort, alloc: Global, mark: u64) -> MemSink {
    let mut sink = MemSink::make(alloc, 2000, 100).expect(rt, "memory");
    sink.fail_at(mark).expect(rt, "memory");
    sink
}

// The report goes to the sink until a put fails. It is told whether that is all.
fn reported(alloc: Global, db: &Db, iteration: &Iteration, sink: &mut MemSink) -> bool {
    let setup = setup_without_helm(alloc);
    report(&setup, db, slice::from_ref(iteration), sink).is_ok()
}

// What the sink has is so much of the report.
fn has_taken(rt: &impl Abort, sink: &MemSink, row: &str) {
    let taken = REPORT.as_bytes().get(..count_at(rt, row, 1) as usize);
    holds(rt, row, sink.bytes() == taken.expect(rt, "so many bytes"));
}

fn is_reported(rt: &impl Abort, alloc: Global, db: &Db, iteration: &Iteration, row: &str) {
    let mark = count_at(rt, row, 0);
    let mut sink = sink_of(rt, alloc, mark);
    let is_told = reported(alloc, db, iteration, &mut sink);
    holds(rt, row, is_told == (mark == 3));
    has_taken(rt, &sink, row);
}

fn are_reported(rt: &impl Abort, alloc: Global, db: &Db, iteration: &Iteration) {
    for row in PUTS {
        is_reported(rt, alloc, db, iteration, *row);
    }
}

// Its entries from the third on, without the iteration.
const PART: &str = "%% entry 2 0.25 pHelmIvP fetch
%% mail 0 0 X pHelmIvP 5
%% entry 3 0.25 pHelmIvP post 1 1
0.25 X pHelmIvP 5
";

fn put_part(rt: &impl Abort, alloc: Global, db: &Db, sink: &mut MemSink) {
    let setup = setup_without_helm(alloc);
    report_part(&setup, db, 2, 0, &[], sink).expect(rt, "room");
}

fn has_part(rt: &impl Abort, alloc: Global, db: &Db) {
    let mut sink = sink_of(rt, alloc, 9);
    put_part(rt, alloc, db, &mut sink);
    holds(rt, PART, sink.bytes() == PART.as_bytes());
}

// If a put fails, those before it are out, and no other is tried.
#[test]
fn reports(rt: HostRuntime) {
    let db = community(&rt, rt.alloc());
    are_reported(&rt, rt.alloc(), &db, &iteration(&rt, rt.alloc()));
    has_part(&rt, rt.alloc(), &db);
}

// A law is an empty function: its callers get its contract as a fact.
#[test]
fn laws_hold(_rt: HostRuntime) {
    report_law();
    reports_law();
    parts_law();
}
