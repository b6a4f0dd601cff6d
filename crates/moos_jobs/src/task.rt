// What is to be done once all files of a job are read.
use crate::helm_files::HelmFiles;
use ivp_cert::Decision;
use ivp_problem::Problem;
use moos_share::Rules;
use moos_simulate::Gear;
use script_reader::{Order, Script};

/// Two scripts that are played at once, in an order, with a bridge of these rules from the first one's community to the second
/// one's.
#[derive(Drop)]
pub struct ShareTask {
    pub order: Order,
    pub first: Script,
    pub second: Script,
    pub rules: Rules,
}

/// A script that is played beside a helm of these files, which steers a vehicle of this gear.
#[derive(Drop)]
pub struct Simulation {
    pub script: Script,
    pub files: HelmFiles,
    pub gear: Gear,
}

/// What is to be done: a script is played in an order, with a helm or without; a problem is solved, a decision is checked; a mission is
/// made from a number and summed up; two scripts are played with a bridge between their communities; a script is played beside a
/// simulated vehicle.
#[derive(Drop)]
pub enum Task {
    Playing {
        order: Order,
        script: Script,
        helm: Option<HelmFiles>,
    },
    Solving {
        problem: Problem,
    },
    Checking {
        decision: Decision,
    },
    Generating {
        number: u64,
    },
    Sharing {
        task: ShareTask,
    },
    Simulating {
        task: Simulation,
    },
}

/// A task all of whose files are read, and by how many workers it is done, from 1 to 16.
#[derive(Drop)]
pub struct LoadedTask {
    pub task: Task,
    pub workers: u32,
}
