//! The report of a database's history: what is printed of its clients, of each entry, of what each fetch gave, and of each
//! iteration of the helm.
//!
//! The contract for the layers above: the report, or a part of one, goes to a sink whole, or a front of it if the sink
//! fails, and then the sink's faults rose; one that succeeds leaves them as they were. What is written through a caller's writer
//! is on its way, and the caller ends it. No memory is taken but for the text that a caller lets be kept, and what there is no
//! memory for isn't kept.
//!
//! Reading order: `specs/Report` and `specs/IterationLines` say what each line is; here are the entries and their parts, in
//! `posts` the posts and letters of these, in `kept` what is kept of the text, in `iterations` what follows an entry of the helm, in
//! `behaviors` what an iteration tells of its behaviours, in `decided` the text of a decision, which is kept, in `same` whether two
//! decisions are the same, in `lines` the lines, in `numeral` a number's digits, which are counted up; `parts` has the report at once,
//! and piece by piece while its history grows. `law` says that a report tells its history, also with a text behind it, and that what is
//! written so far is how the report of each longer history begins.
#![tactic(auto)]

ghost use Rattle.std.specs.Prelude.{◌≡◌, ◌++◌, [], ◌∷◌, Some, length, take, drop, flat_map, codes, decimal, slice_get};
ghost use Rattle.std.specs.List.{concat};
ghost use Rattle.moos_io.specs.BufferedWriting.{Writes};
ghost use Rattle.moos_post.specs.History.{name_of, posts_of, posts_of_entry};
ghost use Rattle.moos_text.specs.Numbers.{unsigned_text};
ghost use Rattle.moos_report.specs.Parts.{BeginsWith};
ghost use Rattle.moos_report.specs.Lines.{KeepsLines};
ghost use Rattle.moos_report.specs.Report.{clients_text, entries_text, entry_text, call_text, reg_text, unused_text};

mod behaviors;
mod decided;
mod iterations;
mod kept;
mod law;
mod lines;
mod numeral;
mod parts;
mod posts;
mod same;
mod setup;

use self::iterations::{fetches_after, fetches_before, put_outcome};
pub use self::kept::KeptText;
use self::kept::PostLines;
pub use self::law::{parts_law, report_law, reports_law};
use self::lines::{put_client, put_reg, put_unused};
pub use self::parts::{
    put_ending, put_head, put_report, report, report_end, report_head, report_keeping, report_part,
};
use self::posts::{keep_lines, put_batch, put_fetch};
pub use self::setup::{Setup, setup_without_helm};
use bhv_file::Unused;
use helm_core::Iteration;
use moos_db::Db;
use moos_io::{BufferedWriter, Sink};
use moos_post::{Call, Entry, Pattern, Reg};
use moos_text::print_unsigned;

fn put_clients<K: Sink>(db: &Db, out: &mut BufferedWriter<'_, K>)
    ensures { Writes K.taken K.faults out.old out.new (clients_text 0 db.now.names) }
{
    for number in 0..db.clients() {
        put_client(number, db.name(number), out);
    }
}

fn put_unused_list<K: Sink>(unused: &[Unused], out: &mut BufferedWriter<'_, K>)
    ensures { Writes K.taken K.faults out.old out.new (flat_map unused_text unused.now) }
{
    for parameter in unused {
        put_unused(parameter, out);
    }
}

/// Writes the entries from number `from` on through a writer, as `report_part` does, and keeps what is printed again if there is memory.
/// Once the sink has failed, no further entry is looked at.
pub fn put_entries<K: Sink>(
    setup: &Setup,
    db: &Db,
    from: u64,
    first: u64,
    iterations: &[Iteration],
    kept: &mut KeptText,
    out: &mut BufferedWriter<'_, K>,
)
    requires first { BeginsWith db.now.names (take from db.now.history) first (length iterations.now) (drop from db.now.history) }
    requires kept { KeepsLines db.now.names db.now.history kept.old }
    ensures kept { KeepsLines db.now.names db.now.history kept.new }
    ensures wrote { Writes K.taken K.faults out.old out.new (entries_text setup.now first iterations.now db.now.names (take from db.now.history) (drop from db.now.history)) }
{
    let _ = db.posts();
    let mut posts = posts_before(db, from);
    let mut fetches = fetches_before(db, from, first, iterations.len());
    for k in from..db.entries() {
        if out.failed() {
            return;
        }
        let entry = db.entry(k);
        keep_lines(db, k, entry, posts, &mut kept.lines);
        put_entry(db, k, entry, posts, &kept.lines, out);
        put_outcome(
            setup,
            db,
            first,
            iterations,
            entry,
            fetches,
            &mut kept.last,
            out,
        );
        posts += posts_in(entry);
        fetches = fetches_after(db, entry, fetches);
    }
}

// How many posts the entries before this one made.
fn posts_before(db: &Db, from: u64) -> u64
    ensures { result ≡ length (posts_of (take from db.now.history)) }
{
    let mut posts = db.posts();
    for k in from..db.entries() {
        posts -= posts_in(db.entry(k));
    }
    posts
}

// How many posts an entry makes.
fn posts_in(entry: &Entry) -> u64
    ensures { result ≡ length (posts_of_entry entry.now) }
{
    match &entry.call {
        Call::Post(batch) => batch.len() as u64,
        _ => 0,
    }
}

// Entry `k` and what belongs to it, if `first` posts are before it.
fn put_entry<K: Sink>(
    db: &Db,
    k: u64,
    entry: &Entry,
    first: u64,
    lines: &PostLines,
    out: &mut BufferedWriter<'_, K>,
)
    requires at { slice_get db.now.history k ≡ Some entry.now }
    requires behind { first ≡ length (posts_of (take k db.now.history)) }
    requires kept { KeepsLines db.now.names db.now.history lines.now }
    ensures { Writes K.taken K.faults out.old out.new (entry_text db.now.names (take k db.now.history) entry.now) }
{
    put_asking(k, entry.stamp, name_of(db, entry.client), out);
    put_call(db, k, entry, first, lines, out);
}

// The client's name, or nothing for a number that no client has.
fn name_of(db: &Db, client: u32) -> &[u8]
    ensures { result.now ≡ name_of db.now.names client }
{
    if client < db.clients() {
        db.name(client).bytes()
    } else {
        &[]
    }
}

// What is before the call on the line of an entry.
fn put_asking<K: Sink>(k: u64, stamp: u64, client: &[u8], out: &mut BufferedWriter<'_, K>)
    ensures { Writes K.taken K.faults out.old out.new (concat (codes "%% entry " ∷ decimal k ∷ codes " " ∷ unsigned_text stamp ∷ codes " " ∷ client.now ∷ [])) }
{
    let mut digits = itoa::Buffer::new();
    let stamp = print_unsigned(stamp);
    out.write(&[
        b"%% entry ",
        digits.format(k).as_bytes(),
        b" ",
        stamp.bytes(),
        b" ",
        client,
    ]);
}

fn put_call<K: Sink>(
    db: &Db,
    k: u64,
    entry: &Entry,
    first: u64,
    lines: &PostLines,
    out: &mut BufferedWriter<'_, K>,
)
    requires at { slice_get db.now.history k ≡ Some entry.now }
    requires behind { first ≡ length (posts_of (take k db.now.history)) }
    requires kept { KeepsLines db.now.names db.now.history lines.now }
    ensures { Writes K.taken K.faults out.old out.new (call_text db.now.names (take k db.now.history) entry.now entry.now.call) }
{
    let _ = db.posts();
    match &entry.call {
        Call::Register(regs) => put_register(regs.all(), out),
        Call::Unregister(var, source) => put_unregister(var, source, out),
        Call::Post(batch) => put_batch(
            first,
            entry.stamp,
            name_of(db, entry.client),
            batch.all(),
            lines,
            out,
        ),
        Call::Fetch => put_fetch(db, first, db.letters(k), lines, out),
    }
}

fn put_register<K: Sink>(regs: &[Reg], out: &mut BufferedWriter<'_, K>)
    ensures { Writes K.taken K.faults out.old out.new (codes " register\n" ++ flat_map reg_text regs.now) }
{
    out.write(&[b" register\n"]);
    put_regs(regs, out);
}

fn put_regs<K: Sink>(regs: &[Reg], out: &mut BufferedWriter<'_, K>)
    ensures { Writes K.taken K.faults out.old out.new (flat_map reg_text regs.now) }
{
    for reg in regs {
        put_reg(reg, out);
    }
}

fn put_unregister<K: Sink>(var: &Pattern, source: &Pattern, out: &mut BufferedWriter<'_, K>)
    ensures { Writes K.taken K.faults out.old out.new (concat (codes " unregister\n%% reg " ∷ var.now ∷ codes " " ∷ source.now ∷ codes "\n" ∷ [])) }
{
    out.write(&[
        b" unregister\n%% reg ",
        var.bytes(),
        b" ",
        source.bytes(),
        b"\n",
    ]);
}
