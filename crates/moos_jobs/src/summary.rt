// The text of a summary.
ghost use Rattle.moos_io.specs.BufferedWriting.{Delivers, Writes};
ghost use Rattle.moos_jobs.specs.Summary.{counts_of, counts_text};

use crate::counts::{IterationCounts, RunCounts, counts_of};
use moos_db::Db;
use moos_io::{BufferedWriter, Failed, Sink};
use moos_text::print_decimals;

/// Writes the summary of the run of the mission with this number; of its helm's iterations this much was counted. If the sink
/// fails, it took a front of it, not the whole.
pub fn summary<K: Sink>(
    number: u64,
    db: &Db,
    counted: &IterationCounts,
    out: &mut K,
) -> Result<(), Failed>
    ensures { Delivers K.taken K.faults out.old out.new result (counts_text number (counts_of db.now.names db.now.history counted.now)) }
{
    let mut writer = BufferedWriter::new(out);
    put_counts(number, &counts_of(db, counted), &mut writer);
    writer.finish()
}

fn put_counts<K: Sink>(number: u64, counts: &RunCounts, out: &mut BufferedWriter<'_, K>)
    ensures { Writes K.taken K.faults out.old out.new (counts_text number counts.now) }
{
    let (mut number_digits, mut entries, mut posts) = (
        itoa::Buffer::new(),
        itoa::Buffer::new(),
        itoa::Buffer::new(),
    );
    let (mut mailed, mut iterations) = (itoa::Buffer::new(), itoa::Buffer::new());
    let (mut decisions, mut total) = (itoa::Buffer::new(), itoa::Buffer::new());
    let decimals = print_decimals((counts.total % 1000) as u64);
    out.write(&[
        b"generated ",
        number_digits.format(number).as_bytes(),
        b"\nentries ",
        entries.format(counts.entries).as_bytes(),
        b"\nposts ",
        posts.format(counts.posts).as_bytes(),
        b"\nmailed ",
        mailed.format(counts.mailed).as_bytes(),
        b"\niterations ",
        iterations.format(counts.iterations).as_bytes(),
        b"\ndecisions ",
        decisions.format(counts.decisions).as_bytes(),
        b"\ntotal ",
        total.format(counts.total / 1000).as_bytes(),
        decimals.bytes(),
        b"\n",
    ]);
}
