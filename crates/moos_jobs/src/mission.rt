// The reader of a mission for a script.
ghost use Rattle.std.specs.Prelude.{◌≡◌, ◌<◌, ◌^◌, length, Ok, IfOk, IfErr};
ghost use Rattle.mission_reader.specs.Missions.{mission_of};
ghost use Rattle.mission_reader.specs.Validity.{IsValidMission};
ghost use Rattle.moos_jobs.specs.HelmFiles.{with_few_ticks};
ghost use Rattle.moos_text.specs.Refusals.{IsFirst, and_then};
ghost use Rattle.script_reader.specs.Validity.{IsValid};

use mission_reader::{Mission, read_mission};
use moos_text::{Cause, ReadFault};
use script_reader::Script;
use std::alloc::Global;

// The most iterations that a helm may have in a run.
const MOST_TICKS: u64 = 20_000;

/// Reads a mission for a script, during which its helm may not have too many iterations: those are refused at the mission's last
/// line, if it has no other refusal.
pub(crate) fn read_for(alloc: Global, script: &Script, bytes: &[u8]) -> Result<Mission, ReadFault>
    requires short { length bytes.now < 2 ^ 32 }
    requires valid { IsValid script.now }
    ensures read { IfOk result (λ mission. and_then (with_few_ticks script.now) (mission_of bytes.now) ≡ Ok mission) }
    ensures refused { IfErr result (λ fault. IsFirst fault (and_then (with_few_ticks script.now) (mission_of bytes.now))) }
    ensures valid { IfOk result IsValidMission }
{
    let mission = read_mission(alloc, bytes)?;
    if script.stop / mission.period + 1 <= MOST_TICKS {
        Ok(mission)
    } else {
        Err(ReadFault::At {
            line: mission.lines,
            cause: Cause::M8,
        })
    }
}
