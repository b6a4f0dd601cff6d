// The reader of mission files.
ghost use Rattle.std.specs.Prelude.{◌≡◌, ◌<◌, ◌^◌, length, Ok, IfOk, IfErr};
ghost use Rattle.moos_text.specs.Refusals.{IsFirst};
ghost use Rattle.mission_reader.specs.Missions.{mission_of};
ghost use Rattle.mission_reader.specs.Validity.{IsValidMission};

use crate::mission::Mission;
use crate::reading::MissionReading;
use moos_text::{ReadFault, next_said};
use std::alloc::Global;

/// Reads a mission: what its bytes stand for, or its first refusal with its line, counted from 1, and its cause.
pub fn read_mission(alloc: Global, bytes: &[u8]) -> Result<Mission, ReadFault>
    requires { length bytes.now < 2 ^ 32 }
    ensures read { IfOk result (λ mission. mission_of bytes.now ≡ Ok mission) }
    ensures refused { IfErr result (λ fault. IsFirst fault (mission_of bytes.now)) }
    ensures valid { IfOk result IsValidMission }
{
    let mut reading = MissionReading::new();
    let mut lines: u32 = 0;
    let mut left = bytes;
    while let Some(said) = next_said(left) {
        lines += 1;
        reading.read_line(alloc, lines, said.text, said.unclosed)?;
        left = said.rest;
    }
    reading.mission(lines.max(1))
}
