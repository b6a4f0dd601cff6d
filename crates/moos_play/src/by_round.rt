// The steps of a round: those of its stamp, and what the helm made in them.
ghost use Rattle.std.specs.Prelude.{◌≡◌, ◌<◌, ◌≤◌, Ok, true, false, length, option_map, slice_get, IfSome, OnOk};
ghost use Rattle.moos_play.specs.Plays.{earliest, IsStampOver, left_in, next_stamp};
ghost use Rattle.moos_play.specs.Steered.{iterations_in};
ghost use Rattle.moos_play.specs.Runs.{handed, HasAllSeats, HasPlayedOn, IsCount, MayGoOn, shown_by};

use crate::helm_client::Iterations;
use crate::stage::Stage;
use crate::stamps::tick_due;
use moos_io::Gate;
use moos_post::{Entry, List, NoMemory};
use script_reader::Order;
use std::alloc::Global;
use std::mem;
use std::sync::Wait;
use std::thread::Threads;

impl<'a> Stage<'a> {
    /// Plays all that is next at its stamp, and answers false if nothing was left.
    pub(crate) fn play_stamp<R: Threads + Wait + Sync, G: Gate>(
        &mut self,
        rt: &R,
        alloc: Global,
        stamp: u64,
        workers: u32,
        gate: &G,
    ) -> Result<bool, NoMemory>
        requires may { MayGoOn self.old workers }
        requires stamp { stamp ≡ next_stamp (shown_by self.old) }
        ensures stepped { HasPlayedOn stamp self.old self.new result }
        ensures more { result ≡ Ok true → left_in (shown_by self.new) < left_in (shown_by self.old) }
        ensures all { result ≡ Ok true → IsStampOver (shown_by self.new) stamp }
        ensures over { result ≡ Ok false → (left_in (shown_by self.old) ≡ 0) × (self.new ≡ self.old) }
    {
        if !self.go_on(rt, alloc, workers, gate)? {
            return Ok(false);
        }
        self.finish_stamp(rt, alloc, stamp, workers, gate)?;
        Ok(true)
    }

    // Plays on while what is next has this stamp.
    fn finish_stamp<R: Threads + Wait + Sync, G: Gate>(
        &mut self,
        rt: &R,
        alloc: Global,
        stamp: u64,
        workers: u32,
        gate: &G,
    ) -> Result<(), NoMemory>
        requires { MayGoOn self.old workers }
        ensures stepped { HasPlayedOn stamp self.old self.new result }
        ensures less { OnOk result (left_in (shown_by self.new) ≤ left_in (shown_by self.old)) }
        ensures all { OnOk result (IsStampOver (shown_by self.new) stamp) }
    {
        while self.next_stamp() == stamp {
            if !self.go_on(rt, alloc, workers, gate)? {
                return Ok(());
            }
        }
        Ok(())
    }

    /// How many entries the history has. It takes no turn if that is known.
    pub(crate) fn count_entries<R: Wait>(&mut self, rt: &R, known: Option<u64>) -> u64
        requires seats { HasAllSeats self.old }
        requires known { IfSome known (IsCount self.old) }
        ensures count { result ≡ length self.old.first.seat.seen }
        ensures same { self.new ≡ self.old }
    {
        if let Some(entries) = known {
            return entries;
        }
        let first = &mut self.first.seat;
        let held = self.lock.take(rt, first);
        let count = held.value().entries();
        self.lock.give_back(first, held);
        count
    }

    /// The stamp of the next round.
    pub(crate) fn next_stamp(&self) -> u64
        requires { IfSome self.now.helm_client (λ helm. 1 ≤ helm.period) }
        ensures { result ≡ next_stamp (shown_by self.now) }
    {
        let stop = self.script.stop;
        match self.order {
            Order::Race => stop,
            Order::Stamp => {
                let tick = tick_due(&self.helm_client, stop);
                earliest(stop, tick, stamp_at(self.script.lines.all(), self.from))
            }
        }
    }

    /// The helm's iterations since the last round.
    pub(crate) fn hand_out(&mut self, alloc: Global) -> Iterations
        ensures untold { result ≡ iterations_in self.old.helm_client }
        ensures told { self.new ≡ handed self.old }
    {
        match &mut self.helm_client {
            None => List::new(alloc),
            Some(helm_client) => mem::replace(&mut helm_client.iterations, List::new(alloc)),
        }
    }
}

// The stamp of the line at this place, if there is one.
fn stamp_at(lines: &[Entry], place: usize) -> Option<u64>
    ensures { result ≡ option_map (λ line. line.stamp) (slice_get lines.now place) }
{
    if place < lines.len() {
        Some(lines[place].stamp)
    } else {
        None
    }
}

// The earlier of two stamps, and `stop` if there is neither.
fn earliest(stop: u64, tick: Option<u64>, line: Option<u64>) -> u64
    ensures { result ≡ earliest stop tick line }
{
    match (tick, line) {
        (None, None) => stop,
        (None, Some(line)) => line,
        (Some(tick), None) => tick,
        (Some(tick), Some(line)) => { if tick < line { tick } else { line } }
    }
}
