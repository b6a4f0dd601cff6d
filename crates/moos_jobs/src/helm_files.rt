// The files of a helm, one after another, and the helm that is made of them.
ghost use Rattle.std.specs.Prelude.{◌≡◌, ◌≤◌, Some, IfErr, IfOk};
ghost use Rattle.moos_jobs.specs.HelmFiles.{setup_of, helm_setup_by};
ghost use Rattle.moos_jobs.specs.Loading.{AreValidFiles, HasNotLoaded, helm_alone, helm_turn, WereLoaded};
ghost use Rattle.moos_play.specs.Lawful.{MayStart, helm_setup_with};
ghost use Rattle.script_reader.specs.Validity.{IsValid};
ghost use Rattle.script_reader.specs.declared.script.Script.{Script};

use crate::mission::read_for;
use bhv_reader::{BhvFile, read_behaviors};
use command_line::{FileKind, Status, load, refused, unloaded};
use helm_core::Helm;
use mission_reader::Mission;
use moos_files::Folder;
use moos_play::HelmRun;
use moos_post::{List, NoMemory, Txt};
use moos_report::Setup;
use script_reader::Script;
use std::alloc::Global;
use std::mem;

/// What a helm is made of: a mission, and the behaviour file that it names.
#[derive(Drop)]
pub struct HelmFiles {
    pub mission: Mission,
    pub file: BhvFile,
}

/// A helm before its first tick, and what a report tells of its files.
#[derive(Drop)]
pub struct FittedHelm {
    pub run: HelmRun,
    pub setup: Setup,
}

/// Loads and reads the mission of this name for a script, and then the behaviour file that it names. The error is how a job ends that
/// has to do without them.
pub fn load_helm<F: Folder>(
    alloc: Global,
    script: &Script,
    name: &Txt,
    folder: &mut F,
) -> Result<HelmFiles, Status>
    requires valid { IsValid script.now }
    ensures valid { IfOk result AreValidFiles }
    ensures loaded { IfOk result (WereLoaded (F.told folder.old) (F.heard folder.old) (F.heard folder.new) script.now name.now) }
    ensures ends { IfErr result (HasNotLoaded (F.told folder.old) (F.sure folder.old) (F.heard folder.old) (F.heard folder.new) (helm_turn helm_alone script.now name.now)) }
    ensures same { (F.told folder.new ≡ F.told folder.old) × (F.sure folder.new ≡ F.sure folder.old) }
{
    let first = match load(alloc, folder, name.bytes()) {
        Ok(bytes) => bytes,
        Err(fault) => return Err(unloaded(fault)),
    };
    let mission = match read_for(alloc, script, &first) {
        Ok(mission) => mission,
        Err(fault) => return Err(refused(FileKind::Mission, fault)),
    };
    let second = match load(alloc, folder, mission.behaviors.bytes()) {
        Ok(bytes) => bytes,
        Err(fault) => return Err(unloaded(fault)),
    };
    match read_behaviors(alloc, &second, &mission.domain) {
        Ok(file) => Ok(HelmFiles { mission, file }),
        Err(fault) => Err(refused(FileKind::Behaviors, fault)),
    }
}

/// The helm of these files, which has heard nothing. NoMemory is answered only if memory is missing.
pub fn fit_helm(alloc: Global, files: HelmFiles) -> Result<FittedHelm, NoMemory>
    requires { AreValidFiles files }
    ensures setup { IfOk result (λ fitted. fitted.setup ≡ setup_of (Some files)) }
    ensures steers { IfOk result (λ fitted. (script : Script) → helm_setup_with script fitted.run ≡ helm_setup_by script files) }
    ensures may { IfOk result (λ fitted. MayStart fitted.run) }
    ensures slowest { IfOk result (λ fitted. fitted.run.period ≤ 1000000) }
{
    let HelmFiles { mission, mut file } = files;
    // The helm has no use of what no behaviour uses.
    let unused = mem::replace(&mut file.unused, List::new(alloc));
    let setup = Setup {
        unused,
        modes: file.decls.len() > 0,
    };
    let helm = Helm::make(alloc, &mission, file)?;
    let run = HelmRun {
        helm,
        period: mission.period,
    };
    Ok(FittedHelm { run, setup })
}
