// A play beside a simulated vehicle, from round to round.
ghost use Rattle.std.specs.Prelude.{◌≡◌, ◌≤◌, ◌<◌, length, IfNone, IfOk, IfSome, OnErr, OnOk};
ghost use Rattle.moos_play.specs.Plays.{AddsAt, clients_in, GoesOnWith, helm_in, history_in, left_in, next_stamp, script_played, StaysSeated};
ghost use Rattle.moos_simulate.specs.Sailing.{HasVoyage, IsRoundBeside, IsSailedOut, IsSimulating, mgr_number, pid_number};
ghost use Rattle.moos_simulate.specs.Simulated.{IsSimulatedSoFar};
ghost use Rattle.moos_simulate.specs.Turns.{IsAnswering, StaysBetween};
ghost use Rattle.script_reader.specs.declared.script.Order.TheVariants.{Stamp};

use crate::law::sailing_law;
use crate::vehicle::{Vehicle, watch_contacts};
use moos_io::Gate;
use moos_play::{Play, Round};
use moos_post::NoMemory;
use std::alloc::Global;
use std::sync::Wait;
use std::thread::Threads;

impl Vehicle {
    /// Plays the next round, and has the vehicle's clients answer the helm's tick, if there is one in it. None if nothing is left.
    /// After want of memory the history is that of a simulated vehicle still, as far as it goes, and what was added has the stamp of
    /// the round. There are 1 to 16 workers for what the helm solves.
    pub fn round<R: Threads + Wait + Sync, G: Gate>(
        &mut self,
        rt: &R,
        alloc: Global,
        play: &mut Play,
        workers: u32,
        gate: &G,
    ) -> Result<Option<Round>, NoMemory>
        requires simulating { IsSimulating self.old play.old }
        requires workers { (1 ≤ workers) × (workers ≤ 16) }
        ensures seated { StaysSeated play.old play.new }
        ensures same { GoesOnWith play.old play.new }
        ensures simulating { OnOk result (IsSimulating self.new play.new) }
        ensures so_far { OnErr result (IsSimulatedSoFar (script_played play.new) (helm_in play.new) self.old.gear (clients_in play.new) (history_in play.new)) }
        ensures stamped { OnErr result (AddsAt Stamp (next_stamp play.old) (length (clients_in play.old)) (history_in play.old) (history_in play.new)) }
        ensures gear { self.new.gear ≡ self.old.gear }
        ensures round { IfOk result (λ round. IfSome round (IsRoundBeside play.old play.new)) }
        ensures less { IfOk result (λ round. IfSome round (λ _. left_in play.new < left_in play.old)) }
        ensures none { IfOk result (λ round. IfNone round ((left_in play.old ≡ 0) × (play.new ≡ play.old))) }
        ensures over { IfOk result (λ round. IfNone round (IsSailedOut self.new.gear play.new)) }
    {
        play.front_law();
        let Some(round) = play.round(rt, alloc, workers, gate)? else {
            return Ok(None);
        };
        play.front_law();
        if round.iterations.len() == 0 {
            return Ok(Some(round));
        }
        self.answer(rt, alloc, play, round.stamp)?;
        Ok(Some(round))
    }

    /// The law of a play beside its vehicle between two rounds: with some entries more its history is that of a simulated vehicle, and
    /// the helm's iterations so far are the first of those of that history. It does nothing.
    pub fn front_law(&self, play: &Play)
        requires { IsSimulating self.now play.now }
        ensures { HasVoyage self.now.gear play.now }
    {
        sailing_law();
        play.front_law();
    }

    // The turns of the vehicle's clients behind the helm's tick of this stamp.
    fn answer<R: Wait>(
        &mut self,
        rt: &R,
        alloc: Global,
        play: &mut Play,
        stamp: u64,
    ) -> Result<(), NoMemory>
        requires { IsAnswering self.old play.old stamp (pid_number (script_played play.old)) }
        ensures goes_on { StaysBetween play.old play.new }
        ensures added { AddsAt Stamp stamp (length (clients_in play.old)) (history_in play.old) (history_in play.new) }
        ensures gear { self.new.gear ≡ self.old.gear }
        ensures simulating { OnOk result (IsSimulating self.new play.new) }
        ensures so_far { OnErr result (IsSimulatedSoFar (script_played play.new) (helm_in play.new) self.old.gear (clients_in play.new) (history_in play.new)) }
    {
        self.control(rt, alloc, play, stamp)?;
        self.sail(rt, alloc, play, stamp)?;
        self.watch(rt, alloc, play, stamp)?;
        Ok(())
    }

    // The turn of the contact manager, if there is one, once the others have made theirs.
    fn watch<R: Wait>(
        &mut self,
        rt: &R,
        alloc: Global,
        play: &mut Play,
        stamp: u64,
    ) -> Result<(), NoMemory>
        requires { IsAnswering self.old play.old stamp (mgr_number (script_played play.old)) }
        ensures goes_on { StaysBetween play.old play.new }
        ensures added { AddsAt Stamp stamp (length (clients_in play.old)) (history_in play.old) (history_in play.new) }
        ensures gear { self.new.gear ≡ self.old.gear }
        ensures simulating { OnOk result (IsSimulating self.new play.new) }
        ensures so_far { OnErr result (IsSimulatedSoFar (script_played play.new) (helm_in play.new) self.old.gear (clients_in play.new) (history_in play.new)) }
    {
        let client = self.mgr_client;
        match &mut self.mgr {
            None => Ok(()),
            Some(mgr) => watch_contacts(rt, alloc, play, mgr, client, stamp),
        }
    }
}
