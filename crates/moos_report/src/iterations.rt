// The helm's iterations, each behind the Post entry that it ended in.
ghost use Rattle.std.specs.Prelude.{◌≡◌, ◌+◌, ◌<◌, ◌≤◌, ◌^◌, [], drop, if◌then◌else◌, take};
ghost use Rattle.moos_io.specs.BufferedWriting.{Writes};
ghost use Rattle.helm_core.specs.Posts.{state_word};
ghost use Rattle.moos_report.specs.IterationLines.{current_text, decided_text, fetches_first, helm_fetches, is_helm, is_helm_fetch, is_helm_post, iteration_text, mode_line, shown_mode, state_line};
ghost use Rattle.moos_report.specs.Parts.{BeginsWith};

use super::behaviors::{put_errors, put_states, put_updates};
use super::name_of;
use crate::decided::LastText;
use crate::setup::Setup;
use helm_core::Iteration;
use ivp_cert::Decision;
use moos_db::Db;
use moos_io::{BufferedWriter, Sink};
use moos_post::{Call, Entry};
use moos_text::print_unsigned;

// What follows an entry, before which the helm has fetched so often. The iterations begin with the number `first`.
pub(super) fn put_outcome<K: Sink>(
    setup: &Setup,
    db: &Db,
    first: u64,
    iterations: &[Iteration],
    entry: &Entry,
    fetches: u64,
    last: &mut LastText,
    out: &mut BufferedWriter<'_, K>,
)
    ensures { Writes K.taken K.faults out.old out.new (if is_helm_post db.now.names entry.now then current_text setup.now first iterations.now fetches else []) }
{
    if !is_helm_post(db, entry) {
        return;
    }
    put_current(setup, first, iterations, fetches, last, out);
}

// How often the helm has fetched before entry `from`, if `many` iterations are given. Only if a part begins within a tick,
// or with the opening, is what is before it walked.
pub(super) fn fetches_before(db: &Db, from: u64, first: u64, many: usize) -> u64
    requires { BeginsWith db.now.names (take from db.now.history) first many (drop from db.now.history) }
    ensures few { result ≤ from }
    ensures counted { 0 < many → result ≡ helm_fetches db.now.names (take from db.now.history) }
{
    if many == 0 {
        return 0;
    }
    if fetches_first(db, from) {
        return first;
    }
    helm_fetches(db, from)
}

// Whether the helm fetches from entry `from` on, and hasn't posted before.
fn fetches_first(db: &Db, from: u64) -> bool
    ensures { result ≡ fetches_first db.now.names (drop from db.now.history) }
{
    for k in from..db.entries() {
        let entry = db.entry(k);
        if is_helm_fetch(db, entry) {
            return true;
        }
        if is_helm_post(db, entry) {
            return false;
        }
    }
    false
}

// How often the helm has fetched before entry `from`.
fn helm_fetches(db: &Db, from: u64) -> u64
    ensures { result ≡ helm_fetches db.now.names (take from db.now.history) }
{
    let mut fetches = 0;
    for k in 0..from.min(db.entries()) {
        fetches = fetches_after(db, db.entry(k), fetches);
    }
    fetches
}

// How often the helm has fetched once this entry is there too.
pub(super) fn fetches_after(db: &Db, entry: &Entry, fetches: u64) -> u64
    requires { fetches + 1 < 2 ^ 64 }
    ensures { result ≡ fetches + (if is_helm_fetch db.now.names entry.now then 1 else 0) }
{
    if is_helm_fetch(db, entry) {
        fetches + 1
    } else {
        fetches
    }
}

fn is_helm_fetch(db: &Db, entry: &Entry) -> bool
    ensures { result ≡ is_helm_fetch db.now.names entry.now }
{
    matches!(&entry.call, Call::Fetch) && is_helm(db, entry.client)
}

fn is_helm_post(db: &Db, entry: &Entry) -> bool
    ensures { result ≡ is_helm_post db.now.names entry.now }
{
    matches!(&entry.call, Call::Post(_)) && is_helm(db, entry.client)
}

fn is_helm(db: &Db, client: u32) -> bool
    ensures { result ≡ is_helm db.now.names client }
{
    name_of(db, client) == b"pHelmIvP".as_slice()
}

// The iteration that the helm is in after this many fetches, if it is among these, which begin with the number `first`.
fn put_current<K: Sink>(
    setup: &Setup,
    first: u64,
    iterations: &[Iteration],
    fetches: u64,
    last: &mut LastText,
    out: &mut BufferedWriter<'_, K>,
)
    ensures { Writes K.taken K.faults out.old out.new (current_text setup.now first iterations.now fetches) }
{
    if fetches <= first {
        return;
    }
    let number = fetches - 1;
    match iterations.get((number - first) as usize) {
        Some(iteration) => put_iteration(setup, number, iteration, last, out),
        None => {}
    }
}

// The lines of the iteration with this number.
fn put_iteration<K: Sink>(
    setup: &Setup,
    number: u64,
    iteration: &Iteration,
    last: &mut LastText,
    out: &mut BufferedWriter<'_, K>,
)
    ensures { Writes K.taken K.faults out.old out.new (iteration_text setup.now number iteration.now) }
{
    put_state(number, iteration, out);
    put_mode(setup, iteration.mode.bytes(), out);
    put_updates(iteration.updates.all(), out);
    put_states(iteration.states.all(), out);
    put_errors(iteration.faults.all(), out);
    put_decided(&iteration.decision, last, out);
}

// What was decided, each line behind `%% `, by the text that was printed last if that is of the same decision.
fn put_decided<K: Sink>(
    decision: &Option<Decision>,
    last: &mut LastText,
    out: &mut BufferedWriter<'_, K>,
)
    ensures { Writes K.taken K.faults out.old out.new (decided_text decision.now) }
{
    match decision {
        Some(decision) => last.put(decision, out),
        None => out.write(&[b"%% none\n"]),
    }
}

// The line that says when an iteration was, and whether the helm drove.
fn put_state<K: Sink>(number: u64, iteration: &Iteration, out: &mut BufferedWriter<'_, K>)
    ensures { Writes K.taken K.faults out.old out.new (state_line number iteration.now) }
{
    let mut digits = itoa::Buffer::new();
    let number = digits.format(number).as_bytes();
    let stamp = print_unsigned(iteration.stamp);
    out.write(&[
        b"%% iteration ",
        number,
        b" ",
        stamp.bytes(),
        b" ",
        drive_text(iteration.parked),
        b"\n",
    ]);
}

fn drive_text(parked: bool) -> &'static [u8]
    ensures { result.now ≡ state_word parked }
{
    if parked { b"PARK" } else { b"DRIVE" }
}

// The line of the mode, if modes are declared.
fn put_mode<K: Sink>(setup: &Setup, mode: &[u8], out: &mut BufferedWriter<'_, K>)
    ensures { Writes K.taken K.faults out.old out.new (mode_line setup.now mode.now) }
{
    if !setup.modes {
        return;
    }
    out.write(&[b"%% mode ", shown_mode(mode), b"\n"]);
}

// What a mode prints as: the empty one as `-`.
fn shown_mode(mode: &[u8]) -> &[u8]
    ensures { result.now ≡ shown_mode mode.now }
{
    if mode.len() > 0 { mode } else { b"-" }
}
