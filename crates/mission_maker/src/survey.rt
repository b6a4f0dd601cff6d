// The alpha survey: a vehicle goes round five points, and comes home. Its files are in examples/alpha too.
ghost use Rattle.std.specs.Prelude.{◌≡◌, Ok, IfOk, IsTrue};
ghost use Rattle.bhv_file.specs.Validity.{IsValidFile, serves};
ghost use Rattle.mission_reader.specs.Validity.{IsValidMission};
ghost use Rattle.mission_maker.specs.Survey.{generated_behaviors, generated_mission};

use bhv_reader::{BhvFile, read_behaviors};
use mission_reader::{Mission, read_mission};
use moos_post::NoMemory;
use moos_text::ReadFault;
use std::alloc::{AllocError, Global};

/// The survey's mission.
pub const SURVEY_MISSION: &str = "ServerHost = localhost
ServerPort = 9000
Community = alpha
ProcessConfig = pHelmIvP
{
  AppTick = 4
  CommsTick = 4
  behaviors = alpha.bhv
  domain = course:0:359:360
  domain = speed:0:4:41
  domain = depth:0:100:101
}
";

/// The survey's behaviour file.
pub const SURVEY_BEHAVIORS: &str = "initialize DEPLOY = false
initialize RETURN = false

Behavior = BHV_Waypoint
{
  name = waypt_survey
  pwt = 100
  condition = RETURN = false
  condition = DEPLOY = true
  endflag = RETURN = true
  updates = WPT_UPDATE
  perpetual = true
  lead = 8
  speed = 2   // meters per second
  capture_radius = 5.0
  slip_radius = 15.0
  points = 60,-40 : 60,-160 : 150,-160 : 180,-100 : 150,-40
  repeat = 1
  visual_hints = nextpt_color=red
}

Behavior = BHV_Waypoint
{
  name = waypt_return
  pwt = 100
  condition = RETURN = true
  condition = DEPLOY = true
  endflag = RETURN = false
  endflag = DEPLOY = false
  speed = 2.0
  capture_radius = 2.0
  slip_radius = 8.0
  points = 0,-20
}

Behavior = BHV_ConstantDepth
{
  name = const_depth
  pwt = 100
  condition = DEPLOY = true
  duration = no-time-limit
  depth = 10
}
";

/// The mission of a generated one: the survey's, with two ticks a second.
pub fn make_mission(alloc: Global) -> Result<Mission, NoMemory>
    ensures mission { IfOk result (λ mission. generated_mission ≡ Ok mission) }
    ensures valid { IfOk result IsValidMission }
{
    match read_mission(alloc, SURVEY_MISSION.as_bytes()) {
        Ok(mission) => Ok(Mission {
            period: 500,
            ..mission
        }),
        Err(ReadFault::At { line: _, cause: _ }) => unreachable!(),
        Err(ReadFault::NoMemory) => Err(AllocError),
    }
}

/// The behaviours of a generated mission: the survey's.
pub fn make_behaviors(alloc: Global, mission: &Mission) -> Result<BhvFile, NoMemory>
    requires { generated_mission ≡ Ok mission.now }
    ensures file { IfOk result (λ file. generated_behaviors ≡ Ok file) }
    ensures valid { IfOk result IsValidFile }
    ensures served { IfOk result (λ file. IsTrue (serves mission.now.domain file.blocks)) }
{
    match read_behaviors(alloc, SURVEY_BEHAVIORS.as_bytes(), &mission.domain) {
        Ok(file) => Ok(file),
        Err(ReadFault::At { line: _, cause: _ }) => unreachable!(),
        Err(ReadFault::NoMemory) => Err(AllocError),
    }
}
