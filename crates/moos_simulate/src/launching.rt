// How a vehicle joins a play: its clients make their openings.
ghost use Rattle.std.specs.Prelude.{◌≡◌, ◌++◌, ◌∷◌, [], IfOk, IfSome, OnOk};
ghost use Rattle.moos_client.specs.Calls.{entry_of};
ghost use Rattle.moos_lawful.specs.Answering.{openings};
ghost use Rattle.moos_play.specs.Plays.{GoesOnWith, history_in, IsBetween, IsFurther, iterations_made, StaysSeated};
ghost use Rattle.moos_post.specs.declared.entry.Call.TheVariants.{Post as Posts, Register};
ghost use Rattle.moos_simulate.specs.Sailing.{IsSimulating, KeepsContacts, MayLaunch};
ghost use Rattle.moos_simulate.specs.Simulated.{contact_clients};
ghost use Rattle.moos_simulate.specs.Turns.{StaysBetween};
ghost use Rattle.sim_clients.specs.Clients.{hull_pairs, marine_pid_regs, sim_marine_regs};
ghost use Rattle.sim_vehicle.specs.Motion.{start_hull};

use crate::gear::Gear;
use crate::vehicle::Vehicle;
use contact_avoid::Ranges;
use moos_play::Play;
use moos_post::{Call, NoMemory};
use sim_clients::{BasicContactMgr, MarinePid, SimMarine};
use sim_vehicle::Craft;
use std::alloc::Global;
use std::sync::Wait;

impl Vehicle {
    /// A vehicle of this gear in a play: its clients make their openings behind the helm's, pMarinePID under the number that is given,
    /// and uSimMarine and the contact manager, if there is one, under the next two. The period is the helm's, at most 1,000,000
    /// milliseconds.
    pub fn launch<R: Wait>(
        rt: &R,
        alloc: Global,
        play: &mut Play,
        gear: Gear,
        period: u64,
        pid_client: u32,
    ) -> Result<Vehicle, NoMemory>
        requires { MayLaunch gear period pid_client play.old }
        ensures seated { StaysSeated play.old play.new }
        ensures same { GoesOnWith play.old play.new }
        ensures gear { IfOk result (λ vehicle. vehicle.gear ≡ gear) }
        ensures simulating { IfOk result (λ vehicle. IsSimulating vehicle play.new) }
        ensures begun { IfOk result (λ _. iterations_made play.new ≡ []) }
    {
        play.front_law();
        let sim_client = pid_client + 1;
        let mgr_client = pid_client + 2;
        open_pid(rt, alloc, play, pid_client)?;
        open_sim(rt, alloc, play, sim_client, &gear.craft)?;
        let mgr = open_mgr(rt, alloc, play, mgr_client, gear.ranges)?;
        let sim = SimMarine::make(&gear.craft);
        Ok(Vehicle {
            gear,
            period,
            pid_client,
            sim_client,
            mgr_client,
            pid: MarinePid::make(),
            sim,
            mgr,
        })
    }
}

// pMarinePID registers.
fn open_pid<R: Wait>(rt: &R, alloc: Global, play: &mut Play, client: u32) -> Result<(), NoMemory>
    requires between { IsBetween play.old }
    requires further { IsFurther play.old client }
    ensures opened { OnOk result (history_in play.new ≡ history_in play.old ++ entry_of client 0 (Register marine_pid_regs) ∷ []) }
    ensures stays { StaysBetween play.old play.new }
{
    let regs = MarinePid::regs(alloc)?;
    play.enter(rt, alloc, client, 0, Call::Register(regs))?;
    Ok(())
}

// uSimMarine registers, and posts where the vehicle is at its start.
fn open_sim<R: Wait>(
    rt: &R,
    alloc: Global,
    play: &mut Play,
    client: u32,
    craft: &Craft,
) -> Result<(), NoMemory>
    requires between { IsBetween play.old }
    requires further { IsFurther play.old client }
    ensures opened { OnOk result (history_in play.new ≡ (history_in play.old ++ entry_of client 0 (Register sim_marine_regs) ∷ []) ++ entry_of client 0 (Posts (hull_pairs (start_hull craft.now))) ∷ []) }
    ensures stays { StaysBetween play.old play.new }
{
    let regs = SimMarine::regs(alloc)?;
    let batch = SimMarine::opening(alloc, craft)?;
    play.enter(rt, alloc, client, 0, Call::Register(regs))?;
    play.enter(rt, alloc, client, 0, Call::Post(batch))?;
    Ok(())
}

// pBasicContactMgr registers, if there are ranges, and is given as it is before its first turn.
fn open_mgr<R: Wait>(
    rt: &R,
    alloc: Global,
    play: &mut Play,
    client: u32,
    ranges: Option<Ranges>,
) -> Result<Option<BasicContactMgr>, NoMemory>
    requires between { IsBetween play.old }
    requires further { IfSome ranges (λ _. IsFurther play.old client) }
    ensures opened { OnOk result (history_in play.new ≡ history_in play.old ++ openings client (contact_clients ranges)) }
    ensures kept { IfOk result (λ mgr. KeepsContacts ranges [] mgr) }
    ensures stays { StaysBetween play.old play.new }
{
    let Some(ranges) = ranges else {
        return Ok(None);
    };
    let regs = BasicContactMgr::regs(alloc)?;
    play.enter(rt, alloc, client, 0, Call::Register(regs))?;
    Ok(Some(BasicContactMgr::make(alloc, ranges)))
}
