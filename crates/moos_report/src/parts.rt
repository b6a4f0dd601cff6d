// A report at once, and part by part.
ghost use Rattle.std.specs.Prelude.{drop, length, take};
ghost use Rattle.moos_io.specs.BufferedWriting.{Delivers, Writes};
ghost use Rattle.moos_report.specs.Lines.{KeepsLines};
ghost use Rattle.moos_report.specs.Parts.{BeginsWith};
ghost use Rattle.moos_report.specs.Report.{end_text, entries_text, head_text, report_text};

use super::lines::put_end;
use super::{put_clients, put_entries, put_unused_list};
use crate::kept::KeptText;
use crate::setup::Setup;
use helm_core::Iteration;
use moos_db::Db;
use moos_io::{BufferedWriter, Failed, Sink};
use std::alloc::Global;

/// Writes the report of the database's history, and behind what the helm posts its iterations, each by its number. If the
/// sink fails, it took a front of the report, not the whole. It takes no memory.
pub fn report<K: Sink>(
    setup: &Setup,
    db: &Db,
    iterations: &[Iteration],
    out: &mut K,
) -> Result<(), Failed>
    ensures { Delivers K.taken K.faults out.old out.new result (report_text setup.now db.now.names db.now.history iterations.now) }
{
    report_through(setup, db, iterations, &mut KeptText::none(), out)
}

/// Writes the same, and keeps on the way what is printed again if there is memory: the line of a post that many hear is formatted once,
/// and so is a decision that iterations in a row have.
pub fn report_keeping<K: Sink>(
    alloc: Global,
    setup: &Setup,
    db: &Db,
    iterations: &[Iteration],
    out: &mut K,
) -> Result<(), Failed>
    ensures { Delivers K.taken K.faults out.old out.new result (report_text setup.now db.now.names db.now.history iterations.now) }
{
    report_through(setup, db, iterations, &mut KeptText::new(alloc), out)
}

// Writes the report, and keeps what is printed again.
fn report_through<K: Sink>(
    setup: &Setup,
    db: &Db,
    iterations: &[Iteration],
    kept: &mut KeptText,
    out: &mut K,
) -> Result<(), Failed>
    requires { KeepsLines db.now.names db.now.history kept.old }
    ensures { Delivers K.taken K.faults out.old out.new result (report_text setup.now db.now.names db.now.history iterations.now) }
{
    let mut writer = BufferedWriter::new(out);
    put_report(setup, db, iterations, kept, &mut writer);
    writer.finish()
}

/// Writes the report through a writer, and keeps what is printed again if there is memory.
pub fn put_report<K: Sink>(
    setup: &Setup,
    db: &Db,
    iterations: &[Iteration],
    kept: &mut KeptText,
    out: &mut BufferedWriter<'_, K>,
)
    requires { KeepsLines db.now.names db.now.history kept.old }
    ensures { Writes K.taken K.faults out.old out.new (report_text setup.now db.now.names db.now.history iterations.now) }
{
    put_head(setup, db, out);
    put_entries(setup, db, 0, 0, iterations, kept, out);
    put_ending(db, out);
}

/// Writes how a report begins, which no entry changes. If the sink fails, it took a front of that, not the whole.
pub fn report_head<K: Sink>(setup: &Setup, db: &Db, out: &mut K) -> Result<(), Failed>
    ensures { Delivers K.taken K.faults out.old out.new result (head_text setup.now db.now.names) }
{
    let mut writer = BufferedWriter::new(out);
    put_head(setup, db, &mut writer);
    writer.finish()
}

/// Writes how a report begins through a writer.
pub fn put_head<K: Sink>(setup: &Setup, db: &Db, out: &mut BufferedWriter<'_, K>)
    ensures { Writes K.taken K.faults out.old out.new (head_text setup.now db.now.names) }
{
    out.write(&[b"%% moosdb play 1\n"]);
    put_clients(db, out);
    put_unused_list(setup.unused.all(), out);
}

/// Writes the entries from number `from` on, whatever entry that is, and behind what the helm posts its iterations, the first of
/// which has the number `first`. If the sink fails, it took a front of that, not the whole. What is before entry `from`
/// is walked once if iterations are given and the helm posts in the part before it fetches there.
pub fn report_part<K: Sink>(
    setup: &Setup,
    db: &Db,
    from: u64,
    first: u64,
    iterations: &[Iteration],
    out: &mut K,
) -> Result<(), Failed>
    requires { BeginsWith db.now.names (take from db.now.history) first (length iterations.now) (drop from db.now.history) }
    ensures { Delivers K.taken K.faults out.old out.new result
        (entries_text setup.now first iterations.now db.now.names (take from db.now.history) (drop from db.now.history)) }
{
    let mut kept = KeptText::none();
    let mut writer = BufferedWriter::new(out);
    put_entries(setup, db, from, first, iterations, &mut kept, &mut writer);
    writer.finish()
}

/// Writes how the report of the database's history ends. If the sink fails, it took a front of that, not the whole.
pub fn report_end<K: Sink>(db: &Db, out: &mut K) -> Result<(), Failed>
    ensures { Delivers K.taken K.faults out.old out.new result (end_text db.now.history) }
{
    let mut writer = BufferedWriter::new(out);
    put_ending(db, &mut writer);
    writer.finish()
}

/// Writes how the report of the database's history ends through a writer.
pub fn put_ending<K: Sink>(db: &Db, out: &mut BufferedWriter<'_, K>)
    ensures { Writes K.taken K.faults out.old out.new (end_text db.now.history) }
{
    put_end(db.entries(), db.posts(), out);
}
