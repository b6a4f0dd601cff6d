// The clients of a vehicle at play, and their turns.
ghost use Rattle.std.specs.Prelude.{◌≡◌, ◌≤◌, ◌^◌, ◌++◌, ◌∷◌, [], List, OnErr, OnOk};
ghost use Rattle.contact_avoid.specs.declared.ranges.Ranges.{Ranges};
ghost use Rattle.moos_db.specs.Database.{letters_after};
ghost use Rattle.moos_post.specs.declared.value.Pair.{Pair};
ghost use Rattle.moos_play.specs.Plays.{clients_in, history_in, IsBetween, IsFurther};
ghost use Rattle.moos_simulate.specs.Turns.{HasHeardAtMost, HasSaid, StaysBetween};
ghost use Rattle.sim_clients.specs.Clients.{contacts_by, drive_by, drive_pairs, hull_by, hull_pairs};
ghost use Rattle.sim_clients.specs.Keeping.{IsMgrAfter, IsPidAfter, IsSimAfter, pairs_in_mail};

use crate::gear::Gear;
use moos_play::Play;
use moos_post::{Call, NoMemory};
use sim_clients::{BasicContactMgr, MarinePid, SimMarine};
use std::alloc::Global;
use std::sync::Wait;

/// A simulated vehicle in a play: its gear, the milliseconds from one turn to the next, and its clients with their numbers. It has a
/// contact manager if its gear has ranges.
#[derive(Drop)]
pub struct Vehicle {
    /// What it has aboard.
    pub gear: Gear,
    pub(crate) period: u64,
    pub(crate) pid_client: u32,
    pub(crate) sim_client: u32,
    pub(crate) mgr_client: u32,
    pub(crate) pid: MarinePid,
    pub(crate) sim: SimMarine,
    pub(crate) mgr: Option<BasicContactMgr>,
}

impl Vehicle {
    // pMarinePID's turn at a stamp: it fetches, and posts what it asks of the vehicle.
    pub(crate) fn control<R: Wait>(
        &mut self,
        rt: &R,
        alloc: Global,
        play: &mut Play,
        stamp: u64,
    ) -> Result<(), NoMemory>
        requires between { IsBetween play.old }
        requires further { IsFurther play.old self.old.pid_client }
        ensures turned { (mails : List (List Pair)) → IsPidAfter self.old.gear.craft mails self.old.pid → OnOk result (HasSaid self.old.pid_client stamp
            (drive_pairs (drive_by self.old.gear.craft (mails ++ pairs_in_mail (letters_after (clients_in play.old) self.old.pid_client (history_in play.old)) ∷ []))) play.old play.new) }
        ensures after { (mails : List (List Pair)) → IsPidAfter self.old.gear.craft mails self.old.pid → OnOk result
            (IsPidAfter self.old.gear.craft (mails ++ pairs_in_mail (letters_after (clients_in play.old) self.old.pid_client (history_in play.old)) ∷ []) self.new.pid) }
        ensures stopped { OnErr result (HasHeardAtMost self.old.pid_client stamp play.old play.new) }
        ensures goes_on { StaysBetween play.old play.new }
        ensures vehicle { self.new ≡ record self.old { pid = self.new.pid } }
    {
        let mail = play.enter(rt, alloc, self.pid_client, stamp, Call::Fetch)?;
        let batch = self.pid.turn(alloc, &self.gear.craft, &mail)?;
        play.enter(rt, alloc, self.pid_client, stamp, Call::Post(batch))?;
        Ok(())
    }

    // uSimMarine's turn at a stamp: it fetches, moves the vehicle, and posts where it is then.
    pub(crate) fn sail<R: Wait>(
        &mut self,
        rt: &R,
        alloc: Global,
        play: &mut Play,
        stamp: u64,
    ) -> Result<(), NoMemory>
        requires between { IsBetween play.old }
        requires further { IsFurther play.old self.old.sim_client }
        requires some { 1 ≤ self.old.period }
        requires period { self.old.period ≤ 10 ^ 6 }
        requires known { (mails : List (List Pair)) × IsSimAfter self.old.gear.craft self.old.period mails self.old.sim }
        ensures turned { (mails : List (List Pair)) → IsSimAfter self.old.gear.craft self.old.period mails self.old.sim → OnOk result (HasSaid self.old.sim_client stamp
            (hull_pairs (hull_by self.old.gear.craft self.old.period (mails ++ pairs_in_mail (letters_after (clients_in play.old) self.old.sim_client (history_in play.old)) ∷ []))) play.old play.new) }
        ensures after { (mails : List (List Pair)) → IsSimAfter self.old.gear.craft self.old.period mails self.old.sim → OnOk result
            (IsSimAfter self.old.gear.craft self.old.period (mails ++ pairs_in_mail (letters_after (clients_in play.old) self.old.sim_client (history_in play.old)) ∷ []) self.new.sim) }
        ensures stopped { OnErr result (HasHeardAtMost self.old.sim_client stamp play.old play.new) }
        ensures goes_on { StaysBetween play.old play.new }
        ensures vehicle { self.new ≡ record self.old { sim = self.new.sim } }
    {
        let client = self.sim_client;
        let mail = play.enter(rt, alloc, client, stamp, Call::Fetch)?;
        let batch = self.sim.turn(alloc, &self.gear.craft, self.period, &mail)?;
        play.enter(rt, alloc, client, stamp, Call::Post(batch))?;
        Ok(())
    }
}

// pBasicContactMgr's turn at a stamp: it fetches, and posts what it tells of contacts.
pub(crate) fn watch_contacts<R: Wait>(
    rt: &R,
    alloc: Global,
    play: &mut Play,
    mgr: &mut BasicContactMgr,
    client: u32,
    stamp: u64,
) -> Result<(), NoMemory>
    requires between { IsBetween play.old }
    requires further { IsFurther play.old client }
    ensures turned { (ranges : Ranges) (mails : List (List Pair)) → IsMgrAfter ranges mails mgr.old → OnOk result (HasSaid client stamp
        (contacts_by ranges (mails ++ pairs_in_mail (letters_after (clients_in play.old) client (history_in play.old)) ∷ [])) play.old play.new) }
    ensures after { (ranges : Ranges) (mails : List (List Pair)) → IsMgrAfter ranges mails mgr.old → OnOk result
        (IsMgrAfter ranges (mails ++ pairs_in_mail (letters_after (clients_in play.old) client (history_in play.old)) ∷ []) mgr.new) }
    ensures stopped { OnErr result (HasHeardAtMost client stamp play.old play.new) }
    ensures goes_on { StaysBetween play.old play.new }
{
    let mail = play.enter(rt, alloc, client, stamp, Call::Fetch)?;
    let batch = mgr.turn(alloc, &mail)?;
    play.enter(rt, alloc, client, stamp, Call::Post(batch))?;
    Ok(())
}
