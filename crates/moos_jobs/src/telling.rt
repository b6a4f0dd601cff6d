// The parts of a report that is written while its play goes on.
ghost use Rattle.std.specs.Prelude.{◌≡◌, [], drop, take};
ghost use Rattle.moos_io.specs.BufferedWriting.{IsClear, Sends};
ghost use Rattle.moos_play.specs.Plays.{clients_in, history_in, IsSeated};
ghost use Rattle.moos_report.specs.IterationLines.{helm_fetches};
ghost use Rattle.moos_report.specs.Lines.{KeepsLines};
ghost use Rattle.moos_report.specs.Parts.{front_text};
ghost use Rattle.moos_report.specs.Report.{end_text, entries_text};

use moos_io::{BufferedWriter, Failed, Sink};
use moos_play::{Play, Round};
use moos_report::{KeptText, Setup, put_ending, put_entries, put_head};
use std::sync::Wait;

/// Tells how a play begins: its clients, and the entries so far, among which no iteration ends. What is printed again is kept if
/// there is memory.
pub fn tell_opening<R: Wait, K: Sink>(
    rt: &R,
    play: &mut Play,
    setup: &Setup,
    kept: &mut KeptText,
    out: &mut BufferedWriter<'_, K>,
) -> Result<(), Failed>
    requires clear { IsClear out.old }
    requires seated { IsSeated play.old }
    requires kept { KeepsLines (clients_in play.old) (history_in play.old) kept.old }
    ensures kept { KeepsLines (clients_in play.old) (history_in play.old) kept.new }
    ensures same { play.new ≡ play.old }
    ensures told { Sends K.taken K.faults out.old out.new result (front_text setup.now (clients_in play.old) (history_in play.old) []) }
{
    let held = play.hold(rt);
    put_head(setup, held.value(), out);
    put_entries(setup, held.value(), 0, 0, &[], kept, out);
    play.put_back(held);
    out.flush()
}

/// Tells what a round brought, after `made` iterations of the helm: the entries from the
/// round's first one on, and its iterations behind those that end them. What is printed again is kept if there is memory.
pub fn tell_part<R: Wait, K: Sink>(
    rt: &R,
    play: &mut Play,
    setup: &Setup,
    round: &Round,
    made: u64,
    kept: &mut KeptText,
    out: &mut BufferedWriter<'_, K>,
) -> Result<(), Failed>
    requires clear { IsClear out.old }
    requires seated { IsSeated play.old }
    requires fetched { helm_fetches (clients_in play.old) (take round.now.from (history_in play.old)) ≡ made }
    requires kept { KeepsLines (clients_in play.old) (history_in play.old) kept.old }
    ensures kept { KeepsLines (clients_in play.old) (history_in play.old) kept.new }
    ensures same { play.new ≡ play.old }
    ensures told { Sends K.taken K.faults out.old out.new result (entries_text setup.now made round.now.iterations (clients_in play.old) (take round.now.from (history_in play.old)) (drop round.now.from (history_in play.old))) }
{
    let held = play.hold(rt);
    let iterations = round.iterations.all();
    put_entries(setup, held.value(), round.from, made, iterations, kept, out);
    play.put_back(held);
    out.flush()
}

/// Tells how a play ends.
pub fn tell_end<R: Wait, K: Sink>(
    rt: &R,
    play: &mut Play,
    out: &mut BufferedWriter<'_, K>,
) -> Result<(), Failed>
    requires clear { IsClear out.old }
    requires seated { IsSeated play.old }
    ensures same { play.new ≡ play.old }
    ensures told { Sends K.taken K.faults out.old out.new result (end_text (history_in play.old)) }
{
    let held = play.hold(rt);
    put_ending(held.value(), out);
    play.put_back(held);
    out.flush()
}
