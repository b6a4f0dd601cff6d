// What no clause says: that clients are beside each other, and that the gate is called before each call.
ghost use Rattle.std.specs.Prelude.{◌≡◌, length};
ghost use Rattle.moos_play.specs.Lawful.{MayStart};
ghost use Rattle.moos_play.specs.Plays.{IsBetween, IsFurther};
ghost use Rattle.script_reader.specs.Validity.{IsValid};

use crate::made::{batch, helm_of, holds, names, regs, text};
use moos_db::{Db, Letter, Mail};
use moos_io::{Gate, NoGate};
use moos_play::{HelmRun, Order, Play, Ran, Round, play};
use moos_post::{Call, Value};
use script_reader::{Script, read_script};
use std::alloc::Global;
use std::hint::spin_loop;
use std::process::Abort;
use std::sync::Wait;
use std::sync::atomic::{AtomicBool, AtomicU64, Ordering};
use std::thread::Threads;

pub(crate) fn script_of(rt: &impl Abort, alloc: Global, text: &str) -> Script
    ensures { IsValid result }
{
    script_in(rt, alloc, text.as_bytes())
}

pub(crate) fn script_in(rt: &impl Abort, alloc: Global, text: &[u8]) -> Script
    ensures { IsValid result }
{
    assert!(rt; text.len() < 10_000);
    match read_script(alloc, text) {
        Ok(script) => script,
        Err(_) => panic!(rt; "no script"),
    }
}

// Three clients that make their first calls at one stamp.
const THREE: &str =
    "1 a post X=1\n1 a fetch\n1 b post X=2\n1 b fetch\n1 b fetch\n1 c fetch\n1 c fetch\n";

// Three clients with so many calls at one stamp that each makes them on a thread of its own.
fn heavy_script(rt: &impl Abort, alloc: Global) -> Script
    ensures { IsValid result }
{
    let mut text = Vec::new(alloc);
    for line in [b"1 a fetch\n", b"1 b fetch\n", b"1 c fetch\n"] {
        for _ in 0..64u32 {
            text.extend_from_slice(line).expect(rt, "memory");
        }
    }
    script_in(rt, alloc, text.as_slice())
}

/// Holds each of three clients before its first call until all three are there, and client 0 besides until client 1 is
/// before its third; or lets go after a while.
#[derive(Drop)]
struct Meeting {
    arrived: AtomicU64,
    ahead: AtomicBool,
    missed: AtomicBool,
}

impl Gate for Meeting {
    fn at_node(&self, _worker: u32, _nth: u64) {}

    fn at_call(&self, client: u32, nth: u64) {
        if nth > 0 {
            if client == 1 && nth == 2 {
                self.ahead.store(true, Ordering::SeqCst);
            }
            return;
        }
        self.arrived.fetch_add(1, Ordering::SeqCst);
        for _ in 0..100_000_000u32 {
            let is_met = self.arrived.load(Ordering::SeqCst) >= 3;
            if is_met && (client != 0 || self.ahead.load(Ordering::SeqCst)) {
                return;
            }
            spin_loop();
        }
        self.missed.store(true, Ordering::SeqCst);
    }
}

// How many entries of client 1 are before the first of client 0.
fn entries_ahead(db: &Db) -> u32 {
    let mut ahead = 0u32;
    for k in 0..db.entries() {
        match db.entry(k).client {
            0 => return ahead,
            1 => ahead = ahead.saturating_add(1),
            _ => {}
        }
    }
    ahead
}

fn gate_before_meeting() -> Meeting {
    Meeting {
        arrived: AtomicU64::new(0),
        ahead: AtomicBool::new(false),
        missed: AtomicBool::new(false),
    }
}

// All three clients came to the gate in time, and two calls of client 1 are before the first of client 0.
fn has_met(rt: &impl Abort, gate: &Meeting, db: &Db) {
    assert!(rt; !gate.missed.load(Ordering::SeqCst));
    assert!(rt; entries_ahead(db) >= 2);
}

// The three clients meet before their first calls, and who is held at the gate hasn't made its call.
fn meet<R: Threads + Wait + Sync + Abort>(rt: &R, alloc: Global, script: &Script, order: Order)
    requires { IsValid script.now }
{
    let gate = gate_before_meeting();
    let ran = play(rt, alloc, script, None, order, 1, &gate).expect(rt, "memory");
    has_met(rt, &gate, &ran.db);
}

#[test]
fn clients_beside(rt: HostRuntime) {
    let script = script_of(&rt, rt.alloc(), THREE);
    meet(&rt, rt.alloc(), &script, Order::Race);
    let script = heavy_script(&rt, rt.alloc());
    meet(&rt, rt.alloc(), &script, Order::Stamp);
}

// A helm that has something to begin with, four times a second.
fn helm_run(rt: &impl Abort, alloc: Global) -> HelmRun
    ensures { MayStart result }
{
    let helm = helm_of(rt, alloc, b"initialize DEPLOY = false\n");
    HelmRun { helm, period: 250 }
}

/// Adds up the calls that it sees, and their places among those of their clients.
#[derive(Drop)]
struct Counting {
    calls: AtomicU64,
    places: AtomicU64,
}

impl Gate for Counting {
    fn at_node(&self, _worker: u32, _nth: u64) {}

    fn at_call(&self, _client: u32, nth: u64) {
        self.calls.fetch_add(1, Ordering::SeqCst);
        self.places.fetch_add(nth, Ordering::SeqCst);
    }
}

fn no_calls() -> Counting {
    Counting {
        calls: AtomicU64::new(0),
        places: AtomicU64::new(0),
    }
}

// A run of this script, of three ticks, has made so many calls, and the gate saw each once, at its place.
fn has_seen(rt: &impl Abort, gate: &Counting, ran: &Ran, said: &str, calls: u64, places: u64) {
    holds(rt, said, ran.iterations.len() == 3);
    holds(rt, said, ran.db.entries() == calls);
    holds(rt, said, gate.calls.load(Ordering::SeqCst) == calls);
    holds(rt, said, gate.places.load(Ordering::SeqCst) == places);
}

// The gate sees each call once, the helm's and its opening's included, as call 0, 1, 2 and so on of its client.
fn check_gate<R: Threads + Wait + Sync + Abort>(
    rt: &R,
    alloc: Global,
    script: &Script,
    order: Order,
    said: &str,
    calls: u64,
    places: u64,
)
    requires { IsValid script.now }
{
    let gate = no_calls();
    let helm = Some(helm_run(rt, alloc));
    let ran = play(rt, alloc, script, helm, order, 2, &gate).expect(rt, "memory");
    has_seen(rt, &gate, &ran, said, calls, places);
}

// In either order, by what the script says.
fn check_orders<R: Threads + Wait + Sync + Abort>(
    rt: &R,
    alloc: Global,
    said: &str,
    calls: u64,
    places: u64,
) {
    let script = script_of(rt, alloc, said);
    check_gate(rt, alloc, &script, Order::Stamp, said, calls, places);
    check_gate(rt, alloc, &script, Order::Race, said, calls, places);
}

// A helm alone is the first client, and one beside a client of two calls is the second.
#[test]
fn gate_sees_each_call(rt: HostRuntime) {
    let alloc = rt.alloc();
    check_orders(&rt, alloc, "0.5 until\n", 8, 28);
    let beside = "0 nav post MOOS_MANUAL_OVERRIDE=false\n0.5 nav fetch\n";
    check_orders(&rt, alloc, beside, 10, 29);
}

// A run of a script with one client beside a helm and a further client, which has the number 2.
fn play_of<'a, R: Threads + Wait + Sync + Abort>(
    rt: &R,
    alloc: Global,
    script: &'a Script,
) -> Play<'a>
    requires valid { IsValid script.now }
    requires one { length script.now.names ≡ 1 }
    ensures between { IsBetween result }
    ensures further { IsFurther result 2 }
{
    let helm = helm_run(rt, alloc);
    let further = names(rt, alloc, "shore");
    match Play::make(
        rt,
        alloc,
        script,
        Some(helm),
        further,
        Order::Stamp,
        &NoGate,
    ) {
        Ok(play) => play,
        Err(_) => panic!(rt; "memory"),
    }
}

// The round of stamp 0 begins with this entry, and has one tick, in which the helm is parked or drives.
fn is_round(rt: &impl Abort, round: &Round, from: u64, parked: bool) {
    assert!(rt; round.stamp == 0 && round.from == from);
    assert!(rt; round.iterations.len() == 1);
    assert!(rt; round.iterations.get(0).parked == parked);
}

// Plays the round of stamp 0.
fn go_on<R: Threads + Wait + Sync + Abort>(
    rt: &R,
    alloc: Global,
    play: &mut Play,
    from: u64,
    parked: bool,
)
    requires { IsBetween play.old }
    ensures { IsBetween play.new }
{
    match play.round(rt, alloc, 1, &NoGate) {
        Ok(Some(round)) => is_round(rt, &round, from, parked),
        Ok(None) => panic!(rt; "no round"),
        Err(_) => panic!(rt; "memory"),
    }
}

// How many entries the database has, which is lent for it.
fn entries_lent<R: Wait>(rt: &R, play: &mut Play) -> u64
    requires { IsBetween play.old }
    ensures { IsBetween play.new }
{
    let held = play.hold(rt);
    let entries = held.value().entries();
    play.put_back(held);
    entries
}

fn is_of_deploy(rt: &impl Abort, letter: &Letter) {
    assert!(rt; letter.post.var.bytes() == b"DEPLOY".as_slice());
}

// The mail is so many letters, of DEPLOY.
fn are_of_deploy(rt: &impl Abort, mail: &Mail, letters: usize) {
    assert!(rt; mail.len() == letters);
    for letter in mail.all() {
        is_of_deploy(rt, letter);
    }
}

// A call of the client, which is given so many letters of DEPLOY.
fn enter<R: Wait + Abort>(
    rt: &R,
    alloc: Global,
    play: &mut Play,
    client: u32,
    stamp: u64,
    call: Call,
    letters: usize,
)
    requires between { IsBetween play.old }
    requires further { IsFurther play.old client }
    ensures between { IsBetween play.new }
    ensures further { IsFurther play.new client }
{
    let mail = play
        .enter(rt, alloc, client, stamp, call)
        .expect(rt, "memory");
    are_of_deploy(rt, &mail, letters);
}

// The client registers for what the helm began with, lets the helm drive, and hears the one post that it registered for.
fn enter_three<R: Wait + Abort>(rt: &R, alloc: Global, play: &mut Play, client: u32)
    requires between { IsBetween play.old }
    requires further { IsFurther play.old client }
    ensures { IsBetween play.new }
{
    let hearing = Call::Register(regs(rt, alloc, "DEPLOY"));
    enter(rt, alloc, play, client, 7, hearing, 0);
    let driving = Value::Text(text(rt, alloc, "false"));
    let driving = Call::Post(batch(rt, alloc, "MOOS_MANUAL_OVERRIDE", driving));
    enter(rt, alloc, play, client, 6, driving, 0);
    enter(rt, alloc, play, client, 5, Call::Fetch, 1);
}

// The client makes its three calls, or none.
fn enter_if<R: Wait + Abort>(rt: &R, alloc: Global, play: &mut Play, client: u32, enters: bool)
    requires between { IsBetween play.old }
    requires further { IsFurther play.old client }
    ensures { IsBetween play.new }
{
    if enters {
        enter_three(rt, alloc, play, client);
    }
}

// A round behind what client 2 does, if it enters, begins with this entry, and leaves so many. If the client let the helm drive, it
// drives, so it has heard that.
fn go_on_behind<R: Threads + Wait + Sync + Abort>(
    rt: &R,
    alloc: Global,
    play: &mut Play,
    enters: bool,
    from: u64,
    entries: u64,
)
    requires between { IsBetween play.old }
    requires further { IsFurther play.old 2 }
    ensures { IsBetween play.new }
{
    enter_if(rt, alloc, play, 2, enters);
    go_on(rt, alloc, play, from, !enters);
    assert!(rt; entries_lent(rt, play) == entries);
}

fn has_entries(rt: &impl Abort, ran: &Ran, entries: u64) {
    assert!(rt; ran.db.entries() == entries);
}

// The run may be ended behind its first round.
fn end_after_a_round<R: Threads + Wait + Sync + Abort>(
    rt: &R,
    alloc: Global,
    script: &Script,
    enters: bool,
    from: u64,
    entries: u64,
)
    requires valid { IsValid script.now }
    requires one { length script.now.names ≡ 1 }
{
    let mut play = play_of(rt, alloc, script);
    go_on_behind(rt, alloc, &mut play, enters, from, entries);
    has_entries(rt, &play.end(alloc), entries);
}

// The first round has a tick behind the line of its stamp. A further client's entries are before it, and if it does nothing it is in
// no round.
#[test]
fn round_by_round(rt: HostRuntime) {
    let alloc = rt.alloc();
    let script = script_of(&rt, alloc, "0 nav post X=1\n0.25 until\n");
    assert!(rt; script.names.len() == 1);
    end_after_a_round(&rt, alloc, &script, false, 2, 5);
    end_after_a_round(&rt, alloc, &script, true, 5, 8);
}
