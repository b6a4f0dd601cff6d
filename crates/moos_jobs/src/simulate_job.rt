// The job of a script beside a simulated vehicle: its files one after another, and its report.
ghost use Rattle.std.specs.Prelude.{◌≡◌, ◌≤◌, false, IfErr, IfOk};
ghost use Rattle.std.specs.List.{list_any};
ghost use Rattle.command_line.specs.Endings.{Ended, sinking};
ghost use Rattle.command_line.specs.Turns.{Ready};
ghost use Rattle.command_line.specs.declared.status.FileKind.TheVariants.{Contacts as ContactsFile, Script as ScriptFile, Vehicle as VehicleFile};
ghost use Rattle.contact_avoid.specs.RangeFiles.{ranges_of};
ghost use Rattle.moos_jobs.specs.Loading.{file_turn, HasLoaded, HasNotLoaded, WasRead};
ghost use Rattle.moos_jobs.specs.Preparing.{IsGoodToSail};
ghost use Rattle.moos_jobs.specs.Simulating.{simulate_outcomes, simulate_turn, simulated_script};
ghost use Rattle.moos_simulate.specs.Simulated.{vehicle_names};
ghost use Rattle.script_reader.specs.Named.{has_name};
ghost use Rattle.script_reader.specs.Validity.{IsValid};
ghost use Rattle.sim_vehicle.specs.Vehicles.{vehicle_of};

use crate::helm_files::{FittedHelm, fit_helm, load_helm};
use crate::simulate_reading::read_simulated;
use crate::simulate_telling::sail;
use crate::task::Simulation;
use command_line::{FileKind, Status, load, refused, unloaded};
use contact_avoid::Ranges;
use helm_core::{names_law, plan_law, worth_law};
use helm_laws::reliable_law;
use moos_files::Folder;
use moos_io::{Gate, Sink};
use moos_post::Txt;
use moos_report::report_law;
use moos_simulate::Gear;
use script_reader::Script;
use sim_clients::{contacts_law, posts_law};
use sim_vehicle::Craft;
use std::alloc::Global;
use std::sync::Wait;
use std::thread::Threads;

/// Loads and reads the script, the mission, the behaviour file that it names, the vehicle file, and the contacts file, if one is
/// named, each before the next is loaded.
pub fn load_simulation<F: Folder>(
    alloc: Global,
    script: &Txt,
    mission: &Txt,
    vehicle: &Txt,
    contacts: &Option<Txt>,
    folder: &mut F,
) -> Result<Simulation, Status>
    ensures good { IfOk result IsGoodToSail }
    ensures loaded { IfOk result (HasLoaded (F.told folder.old) (F.heard folder.old) (F.heard folder.new) (simulate_turn script.now mission.now vehicle.now contacts.now)) }
    ensures ends { IfErr result (HasNotLoaded (F.told folder.old) (F.sure folder.old) (F.heard folder.old) (F.heard folder.new) (simulate_turn script.now mission.now vehicle.now contacts.now)) }
    ensures same { (F.told folder.new ≡ F.told folder.old) × (F.sure folder.new ≡ F.sure folder.old) }
{
    let script = match load_simulated(alloc, script, contacts.is_some(), folder) {
        Ok(script) => script,
        Err(status) => return Err(status),
    };
    let files = match load_helm(alloc, &script, mission, folder) {
        Ok(files) => files,
        Err(status) => return Err(status),
    };
    let craft = match load_craft(alloc, vehicle, folder) {
        Ok(craft) => craft,
        Err(status) => return Err(status),
    };
    let Some(contacts) = contacts else {
        let gear = Gear {
            craft,
            ranges: None,
        };
        return Ok(Simulation {
            script,
            files,
            gear,
        });
    };
    let ranges = match load_ranges(alloc, contacts, folder) {
        Ok(ranges) => ranges,
        Err(status) => return Err(status),
    };
    let gear = Gear {
        craft,
        ranges: Some(ranges),
    };
    Ok(Simulation {
        script,
        files,
        gear,
    })
}

// Loads and reads the script of this name, which is played beside a vehicle, whose contacts are watched or not.
fn load_simulated<F: Folder>(
    alloc: Global,
    name: &Txt,
    watched: bool,
    folder: &mut F,
) -> Result<Script, Status>
    ensures valid { IfOk result IsValid }
    ensures apart { IfOk result (λ script. list_any (has_name (vehicle_names watched)) script.names ≡ false) }
    ensures read { IfOk result (WasRead (F.told folder.old) (F.heard folder.old) (F.heard folder.new) name.now (simulated_script watched)) }
    ensures ends { IfErr result (HasNotLoaded (F.told folder.old) (F.sure folder.old) (F.heard folder.old) (F.heard folder.new) (file_turn ScriptFile name.now (simulated_script watched))) }
    ensures same { (F.told folder.new ≡ F.told folder.old) × (F.sure folder.new ≡ F.sure folder.old) }
{
    let bytes = match load(alloc, folder, name.bytes()) {
        Ok(bytes) => bytes,
        Err(fault) => return Err(unloaded(fault)),
    };
    match read_simulated(alloc, &bytes, watched) {
        Ok(script) => Ok(script),
        Err(fault) => Err(refused(FileKind::Script, fault)),
    }
}

// Loads and reads the vehicle file of this name.
fn load_craft<F: Folder>(alloc: Global, name: &Txt, folder: &mut F) -> Result<Craft, Status>
    ensures read { IfOk result (WasRead (F.told folder.old) (F.heard folder.old) (F.heard folder.new) name.now vehicle_of) }
    ensures ends { IfErr result (HasNotLoaded (F.told folder.old) (F.sure folder.old) (F.heard folder.old) (F.heard folder.new) (file_turn VehicleFile name.now vehicle_of)) }
    ensures same { (F.told folder.new ≡ F.told folder.old) × (F.sure folder.new ≡ F.sure folder.old) }
{
    let bytes = match load(alloc, folder, name.bytes()) {
        Ok(bytes) => bytes,
        Err(fault) => return Err(unloaded(fault)),
    };
    match Craft::read(&bytes) {
        Ok(craft) => Ok(craft),
        Err(fault) => Err(refused(FileKind::Vehicle, fault)),
    }
}

// Loads and reads the contacts file of this name.
fn load_ranges<F: Folder>(alloc: Global, name: &Txt, folder: &mut F) -> Result<Ranges, Status>
    ensures read { IfOk result (WasRead (F.told folder.old) (F.heard folder.old) (F.heard folder.new) name.now ranges_of) }
    ensures ends { IfErr result (HasNotLoaded (F.told folder.old) (F.sure folder.old) (F.heard folder.old) (F.heard folder.new) (file_turn ContactsFile name.now ranges_of)) }
    ensures same { (F.told folder.new ≡ F.told folder.old) × (F.sure folder.new ≡ F.sure folder.old) }
{
    let bytes = match load(alloc, folder, name.bytes()) {
        Ok(bytes) => bytes,
        Err(fault) => return Err(unloaded(fault)),
    };
    match Ranges::read(&bytes) {
        Ok(ranges) => Ok(ranges),
        Err(fault) => Err(refused(FileKind::Contacts, fault)),
    }
}

/// Plays the script beside the vehicle, and writes the report as it comes. The helm has this many `workers`.
pub fn simulate<R: Threads + Wait + Sync, K: Sink, G: Gate>(
    rt: &R,
    alloc: Global,
    task: Simulation,
    workers: u32,
    out: &mut K,
    gate: &G,
) -> Status
    requires few { (1 ≤ workers) × (workers ≤ 16) }
    requires good { IsGoodToSail task }
    ensures { Ended simulate_outcomes (Ready task)
        (sinking (K.taken out.old) (K.taken out.new) (K.faults out.old) (K.faults out.new)) result }
{
    let Simulation {
        script,
        files,
        gear,
    } = task;
    let Ok(fitted) = fit_helm(alloc, files) else {
        return Status::NoMemory;
    };
    let FittedHelm { run, setup } = fitted;
    plan_law();
    worth_law();
    names_law();
    reliable_law();
    posts_law();
    report_law();
    contacts_law();
    gear.craft.allowed_law();
    sail(rt, alloc, &script, run, gear, &setup, workers, out, gate)
}
