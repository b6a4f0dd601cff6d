// The reports of two communities, one after the other.
ghost use Rattle.std.specs.Prelude.{◌++◌};
ghost use Rattle.moos_io.specs.BufferedWriting.{Delivers, Writes};
ghost use Rattle.moos_jobs.specs.Sharing.{community_report};

use moos_bridged::Shared;
use moos_db::Db;
use moos_io::{BufferedWriter, Failed, Sink};
use moos_report::{KeptText, put_report, setup_without_helm};
use std::alloc::Global;

/// Writes the report of the first community, and then that of the second. If the sink fails, it took a front of both.
pub(crate) fn report_both<K: Sink>(
    alloc: Global,
    shared: &Shared,
    out: &mut K,
) -> Result<(), Failed>
    ensures { Delivers K.taken K.faults out.old out.new result
        (community_report shared.now.first.names shared.now.first.history ++ community_report shared.now.second.names shared.now.second.history) }
{
    let mut writer = BufferedWriter::new(out);
    put_community(alloc, &shared.first, &mut writer);
    put_community(alloc, &shared.second, &mut writer);
    writer.finish()
}

// Writes the report of a community in which no helm plays.
fn put_community<K: Sink>(alloc: Global, db: &Db, out: &mut BufferedWriter<'_, K>)
    ensures { Writes K.taken K.faults out.old out.new (community_report db.now.names db.now.history) }
{
    let setup = setup_without_helm(alloc);
    put_report(&setup, db, &[], &mut KeptText::new(alloc), out);
}
