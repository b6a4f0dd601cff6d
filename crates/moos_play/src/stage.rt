// A run from one step to the next: the clients' lines and the helm's ticks, in the order that was asked for.
ghost use Rattle.std.specs.Prelude.{◌≡◌, ◌≢◌, ◌<◌, ◌++◌, ◌^◌, None, Ok, true, false, drop, length, IfOk, IfSome, OnOk};
ghost use Rattle.moos_play.specs.Lawful.{MayStart, names_with};
ghost use Rattle.moos_play.specs.Plays.{left_in, next_stamp};
ghost use Rattle.moos_play.specs.Runs.{HasAllSeats, HasPlayedOn, IsAtPlay, IsUnopened, MayGoOn, MayPlay, shown_by};
ghost use Rattle.moos_play.specs.Steered.{HasOpened, helm_of, IsBehind, IsDue, IsUnticked, iterations_in, tick_due};
ghost use Rattle.moos_step.specs.Steps.{IsGathered, KnowsNothing};
ghost use Rattle.script_reader.specs.Validity.{IsValid};

use crate::helm_client::{HelmClient, lead};
use crate::race::race;
use crate::run::{HelmRun, Ran};
use crate::seats::{helm_client_for, open_all, seats_for};
use crate::stamps::{due_end, tick_due};
use moos_client::Lock;
use moos_io::Gate;
use moos_post::{List, Names, NoMemory};
use moos_step::{HEAVY, Player, play_step};
use script_reader::{Order, Script};
use std::alloc::Global;
use std::sync::Wait;
use std::thread::Threads;

/// Where a script is played, and how far it has come. Between two steps the seat of the first client has taken in all others.
#[derive(Drop)]
pub(crate) struct Stage<'a> {
    pub(crate) script: &'a Script,
    pub(crate) lock: Lock,
    pub(crate) first: Player,
    pub(crate) helm_client: Option<HelmClient>,
    pub(crate) calls: Vec<u64>,
    pub(crate) from: usize,
    pub(crate) order: Order,
}

impl<'a> Stage<'a> {
    /// A run of this script in which nobody has made a call.
    pub(crate) fn make(
        alloc: Global,
        script: &'a Script,
        helm: Option<HelmRun>,
        further: &Names,
        order: Order,
    ) -> Result<Stage<'a>, NoMemory>
        requires valid { IsValid script.now }
        requires helm { IfSome helm MayStart }
        requires few { length (names_with script.now helm ++ further.now) < 2 ^ 32 }
        ensures { IfOk result (IsUnopened script.now helm further.now order) }
    {
        let (lock, seat, calls) = seats_for(alloc, script, &helm, further)?;
        let helm_client = helm_client_for(alloc, script, helm);
        let first = Player {
            seat,
            calls: 0,
            ended: Ok(()),
        };
        Ok(Stage {
            script,
            lock,
            first,
            helm_client,
            calls,
            from: 0,
            order,
        })
    }

    /// Has the helm, if there is one, make its opening.
    pub(crate) fn open<R: Wait, G: Gate>(
        &mut self,
        rt: &R,
        alloc: Global,
        gate: &G,
    ) -> Result<(), NoMemory>
        requires gathered { IsGathered self.old.lock self.old.first.seat }
        requires nothing { KnowsNothing self.old.first.seat }
        requires new { IfSome self.old.helm_client (λ helm. IsUnticked helm × (helm.number < length self.old.lock.base)) }
        ensures rest { self.new ≡ record self.old { first = record self.old.first { seat = self.new.first.seat }; helm_client = self.new.helm_client } }
        ensures same { OnOk result (helm_of self.new.helm_client ≡ helm_of self.old.helm_client) }
        ensures opened { OnOk result (HasOpened self.new.lock self.new.helm_client self.new.first.seat) }
    {
        open_all(
            rt,
            alloc,
            &self.lock,
            &mut self.first.seat,
            &mut self.helm_client,
            gate,
        )
    }

    /// Plays the next step: in order Stamp the lines of the next stamp or the helm's next tick, and in order Race
    /// everything. It answers false if nothing was left. Even if memory is missing, the first seat has all others.
    pub(crate) fn go_on<R: Threads + Wait + Sync, G: Gate>(
        &mut self,
        rt: &R,
        alloc: Global,
        workers: u32,
        gate: &G,
    ) -> Result<bool, NoMemory>
        requires may { MayGoOn self.old workers }
        ensures stepped { HasPlayedOn (next_stamp (shown_by self.old)) self.old self.new result }
        ensures more { result ≡ Ok true → left_in (shown_by self.new) < left_in (shown_by self.old) }
        ensures over { result ≡ Ok false → (left_in (shown_by self.old) ≡ 0) × (self.new ≡ self.old) }
    {
        let tick = tick_due(&self.helm_client, self.script.stop);
        let lines = self.script.lines.all();
        let to = due_end(lines, self.from, tick);
        if self.from == to && tick.is_none() {
            return Ok(false);
        }
        match self.order {
            Order::Race => self.play_all(rt, alloc, workers, gate)?,
            Order::Stamp => self.play_next(rt, alloc, to, workers, gate)?,
        }
        Ok(true)
    }

    // Plays the lines before this place, or the next tick if that is the place that the lines have come to.
    fn play_next<R: Threads + Wait + Sync, G: Gate>(
        &mut self,
        rt: &R,
        alloc: Global,
        to: usize,
        workers: u32,
        gate: &G,
    ) -> Result<(), NoMemory>
        requires may { MayGoOn self.old workers }
        requires due { IsDue self.old.script.now.lines (tick_due self.old.script.now.stop self.old.helm_client) self.old.from to }
        requires some { (self.old.from ≡ to) → (tick_due self.old.script.now.stop self.old.helm_client ≢ None) }
        ensures stepped { HasPlayedOn (next_stamp (shown_by self.old)) self.old self.new result }
        ensures more { OnOk result (left_in (shown_by self.new) < left_in (shown_by self.old)) }
    {
        if self.from < to {
            self.play_lines(rt, alloc, to, gate)
        } else {
            self.play_tick(rt, alloc, workers, gate)
        }
    }

    // Plays the lines before this place, which in order Stamp have one stamp.
    fn play_lines<R: Threads + Wait + Sync, G: Gate>(
        &mut self,
        rt: &R,
        alloc: Global,
        to: usize,
        gate: &G,
    ) -> Result<(), NoMemory>
        requires at_play { IsAtPlay self.old }
        requires due { MayPlay self.old.order self.old to }
        requires some { self.old.from < to }
        ensures stepped { HasPlayedOn (next_stamp (shown_by self.old)) self.old self.new result }
        ensures more { OnOk result (left_in (shown_by self.new) < left_in (shown_by self.old)) }
        ensures on { OnOk result (self.new.from ≡ to) }
        ensures helm { self.new.helm_client ≡ self.old.helm_client }
    {
        let lines = &self.script.lines.all()[self.from..to];
        let heavy = heavy_in(&self.order);
        let calls = self.calls.as_mut_slice();
        play_step(
            rt,
            alloc,
            &self.lock,
            &mut self.first,
            calls,
            lines,
            heavy,
            gate,
        )?;
        self.from = to;
        Ok(())
    }

    // Has the helm make its next tick, if one is left and no line is left of its stamp or before.
    fn play_tick<R: Threads + Wait + Sync, G: Gate>(
        &mut self,
        rt: &R,
        alloc: Global,
        workers: u32,
        gate: &G,
    ) -> Result<(), NoMemory>
        requires may { MayGoOn self.old workers }
        requires some { tick_due self.old.script.now.stop self.old.helm_client ≢ None }
        requires behind { IsBehind (tick_due self.old.script.now.stop self.old.helm_client) (drop self.old.from self.old.script.now.lines) }
        ensures stepped { HasPlayedOn (next_stamp (shown_by self.old)) self.old self.new result }
        ensures more { OnOk result (left_in (shown_by self.new) < left_in (shown_by self.old)) }
    {
        let Some(helm_client) = &mut self.helm_client else {
            unreachable!()
        };
        let ticks = helm_client.ticks + 1;
        let first = &mut self.first.seat;
        lead(
            rt,
            alloc,
            &self.lock,
            first,
            helm_client,
            ticks,
            workers,
            gate,
        )
    }

    // Has all clients play the lines that are left and the helm, if there is one, make its ticks, all beside each other.
    fn play_all<R: Threads + Wait + Sync, G: Gate>(
        &mut self,
        rt: &R,
        alloc: Global,
        workers: u32,
        gate: &G,
    ) -> Result<(), NoMemory>
        requires may { MayGoOn self.old workers }
        requires race { self.old.order ≡ Order.Race }
        requires left { (self.old.helm_client ≡ None) → self.old.from < length self.old.script.now.lines }
        ensures stepped { HasPlayedOn (next_stamp (shown_by self.old)) self.old self.new result }
        ensures over { OnOk result (left_in (shown_by self.new) ≡ 0) }
    {
        if self.helm_client.is_none() {
            let to = self.script.lines.len();
            self.play_lines(rt, alloc, to, gate)
        } else {
            self.race_left(rt, alloc, workers, gate)
        }
    }

    // Has all clients play the lines that are left beside the helm, which makes its ticks.
    fn race_left<R: Threads + Wait + Sync, G: Gate>(
        &mut self,
        rt: &R,
        alloc: Global,
        workers: u32,
        gate: &G,
    ) -> Result<(), NoMemory>
        requires may { MayGoOn self.old workers }
        requires race { self.old.order ≡ Order.Race }
        requires some { self.old.helm_client ≢ None }
        ensures stepped { HasPlayedOn (next_stamp (shown_by self.old)) self.old self.new result }
        ensures over { OnOk result (left_in (shown_by self.new) ≡ 0) }
    {
        let Some(helm_client) = &mut self.helm_client else {
            unreachable!()
        };
        let ticks = self.script.stop / helm_client.period + 1;
        let to = self.script.lines.len();
        let lines = &self.script.lines.all()[self.from..to];
        let calls = self.calls.as_mut_slice();
        let first = &mut self.first;
        race(
            rt,
            alloc,
            &self.lock,
            first,
            helm_client,
            calls,
            lines,
            ticks,
            workers,
            gate,
        )?;
        self.from = to;
        Ok(())
    }

    /// Ends the run: its database with the history so far, and those of the helm's iterations that no round has handed out.
    pub(crate) fn close(self, alloc: Global) -> Ran
        requires { HasAllSeats self }
        ensures names { result.db.names ≡ self.entry.lock.base }
        ensures history { result.db.history ≡ self.entry.first.seat.seen }
        ensures iterations { result.iterations ≡ iterations_in self.entry.helm_client }
    {
        let Stage {
            script: _,
            lock,
            first,
            helm_client,
            calls: _,
            from: _,
            order: _,
        } = self;
        let (db, _) = lock.close(first.seat);
        let iterations = match helm_client {
            Some(helm_client) => helm_client.iterations,
            None => List::new(alloc),
        };
        Ran { db, iterations }
    }
}

// With how many lines in a step a client has a thread of its own: in a race with any.
fn heavy_in(order: &Order) -> usize {
    match order {
        Order::Race => 1,
        Order::Stamp => HEAVY,
    }
}
