// A script that is played round by round, as its player sees it.
ghost use Rattle.std.specs.Prelude.{◌≡◌, ◌<◌, ◌≤◌, ◌++◌, ◌^◌, ℕ, [], length, option_map, IfNone, IfOk, IfSome, OnErr, OnOk};
ghost use Rattle.moos_lawful.specs.Schedules.{IsLawfulSoFar};
ghost use Rattle.moos_play.specs.Lawful.{MayStart, names_with, opening, helm_setup_with};
ghost use Rattle.moos_play.specs.Plays.{AddsAt, clients_in, GoesOnWith, HasCompletion, HasSteeredSoFar, HasTurn, helm_in, history_in, IsBetween, IsLeft, IsLentAs, IsPlayedOut, IsRound, IsRunFor, IsSeated, iterations_made, known_clients_in, left_in, next_stamp, order_played, returned, schedule_in, script_played, StaysSeated};
ghost use Rattle.script_reader.specs.Validity.{IsValid};

use crate::round_made::Round;
use crate::run::{HelmRun, Ran};
use crate::stage::Stage;
use moos_db::Db;
use moos_io::Gate;
use moos_post::{List, Names, NoMemory};
use script_reader::{Order, Script};
use std::alloc::Global;
use std::marker::Model;
use std::sync::Wait;
use std::thread::Threads;
use turn_lock::Held;

/// A script that is played round by round. Contracts see the script, the clients' names, how the helm is run, the history so
/// far, and how far the run has come in the script's lines and the helm's ticks.
#[derive(Drop)]
pub struct Play<'a> {
    pub(crate) run: Stage<'a>,
    // Whether each round so far was played to its end.
    pub(crate) whole: bool,
    // How many entries the history has, if that was seen since the last call. It spares a round a turn at the lock.
    pub(crate) entries: Option<u64>,
}

impl<'a> Model for Play<'a> {
    ghost use Rattle.helm_cond.specs.contracts.cond.Cond as cond;
    ghost use Rattle.std.specs.Coded.{codes};
    ghost use Rattle.moos_play.specs.Plays.{Playing};

    ghost Value = { Playing };

    ghost coded = { Prim.hlevel (codes, cond.the_row.coded) };

    ghost use Rattle.std.specs.Prelude.{IfSome};
    ghost use Rattle.moos_play.specs.Runs.{IsCoherent, IsCount, playing_of};

    ghost view = { λ play. playing_of play.run play.whole };

    ghost invariant = { λ play. IsCoherent play.run play.whole × IfSome play.entries (IsCount play.run) };
}

impl<'a> Play<'a> {
    /// A run of this script that has yet to play its first line. The helm, if there is one, has made its opening. The
    /// further clients have the numbers behind the helm's, or behind those of the script's clients if there is no helm.
    pub fn make<R: Threads + Wait + Sync, G: Gate>(
        rt: &R,
        alloc: Global,
        script: &'a Script,
        helm: Option<HelmRun>,
        further: Names,
        order: Order,
        gate: &G,
    ) -> Result<Play<'a>, NoMemory>
        requires valid { IsValid script.now }
        requires helm { IfSome helm MayStart }
        requires few { length (names_with script.now helm ++ further) < 2 ^ 32 }
        ensures script { IfOk result (λ play. script_played play ≡ script.now) }
        ensures order { IfOk result (λ play. order_played play ≡ order) }
        ensures names { IfOk result (λ play. clients_in play ≡ names_with script.now helm ++ further) }
        ensures helm { IfOk result (λ play. helm_in play ≡ option_map (helm_setup_with script.now) helm) }
        ensures begun { IfOk result (λ play. history_in play ≡ opening (helm_in play)) }
        ensures between { IfOk result IsBetween }
    {
        let mut run = Stage::make(alloc, script, helm, &further, order)?;
        run.open(rt, alloc, gate)?;
        Ok(Play {
            run,
            whole: true,
            entries: None,
        })
    }

    /// Plays the next round: in order Stamp the lines and the tick of the next stamp, and in order Race everything. None
    /// if nothing is left. After want of memory the history is lawful so far still, perhaps within a round, and only `hold`,
    /// `put_back` and `end` may be called. There are 1 to 16 workers for what the helm solves.
    pub fn round<R: Threads + Wait + Sync, G: Gate>(
        &mut self,
        rt: &R,
        alloc: Global,
        workers: u32,
        gate: &G,
    ) -> Result<Option<Round>, NoMemory>
        requires between { IsBetween self.old }
        requires workers { (1 ≤ workers) × (workers ≤ 16) }
        ensures seated { StaysSeated self.old self.new }
        ensures same { GoesOnWith self.old self.new }
        ensures between { OnOk result (IsBetween self.new) }
        ensures front { OnErr result (HasCompletion self.new) }
        ensures so_far { OnErr result (IsLawfulSoFar (schedule_in self.new) (history_in self.new)) }
        ensures stamped { OnErr result (AddsAt (order_played self.old) (next_stamp self.old) (known_clients_in self.old) (history_in self.old) (history_in self.new)) }
        ensures round { IfOk result (λ round. IfSome round (IsRound self.old self.new)) }
        ensures turn { IfOk result (λ round. IfSome round (HasTurn (order_played self.old) self.old self.new)) }
        ensures more { IfOk result (λ round. IfSome round (λ _. left_in self.new < left_in self.old)) }
        ensures none { IfOk result (λ round. IfNone round ((left_in self.old ≡ 0) × (self.new ≡ self.old))) }
        ensures over { IfOk result (λ round. IfNone round (IsPlayedOut self.new)) }
    {
        let stamp = self.run.next_stamp();
        let from = self.run.count_entries(rt, self.entries);
        self.whole = false;
        self.entries = None;
        if !self.run.play_stamp(rt, alloc, stamp, workers, gate)? {
            self.whole = true;
            return Ok(None);
        }
        self.whole = true;
        let iterations = self.run.hand_out(alloc);
        Ok(Some(Round {
            stamp,
            from,
            iterations,
        }))
    }

    /// Lends the database, until it is put back.
    pub fn hold<R: Wait>(&mut self, rt: &R) -> Held<Db>
        requires { IsSeated self.old }
        ensures lent { IsLentAs self.new result.number result.start.value.history }
        ensures start { result.start.value ≡ result.value }
        ensures names { result.value.names ≡ clients_in self.old }
        ensures history { result.value.history ≡ history_in self.old }
        ensures back { returned self.new ≡ self.old }
    {
        let run = &mut self.run;
        run.lock.take(rt, &mut run.first.seat)
    }

    /// Takes the database back, with the clients and the entries that it had.
    pub fn put_back(&mut self, held: Held<Db>)
        requires lent { IsLentAs self.old held.number held.start.value.history }
        requires names { held.value.names ≡ clients_in self.old }
        requires history { held.value.history ≡ history_in self.old }
        ensures { self.new ≡ returned self.old }
    {
        self.entries = Some(held.value().entries());
        let run = &mut self.run;
        run.lock.give_back(&mut run.first.seat, held);
    }

    /// The law of a run between two rounds: its history is lawful so far; with some entries more it is lawful, and the helm's
    /// iterations so far are the first of those of that history; and the helm, if there is one, has made as many ticks as there
    /// are iterations, which are some of its ticks up to the script's last stamp; and what is left for each client isn't before the next
    /// round. It does nothing.
    pub fn front_law(&self)
        requires { IsBetween self.now }
        ensures front { HasCompletion self.now }
        ensures steered { HasSteeredSoFar self.now }
        ensures so_far { IsLawfulSoFar (schedule_in self.now) (history_in self.now) }
        ensures valid { IsValid (script_played self.now) }
        ensures helm { IfSome (helm_in self.now) (IsRunFor (script_played self.now) (length (iterations_made self.now))) }
        ensures left { (so : IsLawfulSoFar (schedule_in self.now) (history_in self.now)) (n : ℕ) → n < known_clients_in self.now → IsLeft self.now (so.left n) }
    {
        let _ = &self.run;
    }

    /// Ends the run: its database with the history so far. It hands out no iterations: those of a round are the round's, and
    /// those of one that found no memory are nobody's.
    pub fn end(self, alloc: Global) -> Ran
        requires { IsSeated self }
        ensures names { result.db.names ≡ clients_in self.entry }
        ensures history { result.db.history ≡ history_in self.entry }
        ensures iterations { result.iterations ≡ [] }
    {
        let Play {
            run,
            whole: _,
            entries: _,
        } = self;
        let Ran { db, iterations: _ } = run.close(alloc);
        let iterations = List::new(alloc);
        Ran { db, iterations }
    }
}
