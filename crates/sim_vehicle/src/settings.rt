// The values of all settings.
ghost use Rattle.std.specs.Prelude.{◌≡◌};
ghost use Rattle.sim_vehicle.specs.Settings.{default_settings, set_to, setting_value};

use crate::setting::CraftSetting;

/// What a vehicle file sets, in thousandths. A rudder and a thrust are parts of a hundred.
#[derive(Clone, Copy, Debug, PartialEq, Eq)]
pub struct CraftSettings {
    /// How far east of the origin it starts, in metres.
    pub start_x: i64,
    /// How far north of it.
    pub start_y: i64,
    /// Its heading at the start, in degrees clockwise from north.
    pub start_heading: i64,
    /// Its depth at the start, in metres.
    pub start_depth: i64,
    /// Its greatest speed, in metres a second.
    pub max_speed: i64,
    /// How fast it turns at full rudder and that speed, in degrees a second.
    pub turn_rate: i64,
    /// How fast it speeds up, in metres a second each second.
    pub accel: i64,
    /// How fast it slows down, in the same unit.
    pub decel: i64,
    /// How fast it dives and rises, in metres a second.
    pub dive: i64,
    /// The rudder for a degree of the controller's error.
    pub yaw_kp: i64,
    /// The rudder for a degree of the integral of the errors.
    pub yaw_ki: i64,
    /// The rudder for a degree by which the error changes.
    pub yaw_kd: i64,
    /// The greatest integral of the errors either way, in degrees.
    pub integral_limit: i64,
    /// The greatest rudder either way that the controller asks for.
    pub max_rudder: i64,
    /// The greatest thrust that it asks for.
    pub max_thrust: i64,
    /// The thrust for a metre a second of the wanted speed.
    pub speed_factor: i64,
}

impl CraftSettings {
    /// What they are if a file sets nothing.
    pub fn defaults() -> CraftSettings
        ensures { result ≡ default_settings }
    {
        CraftSettings {
            start_x: 0,
            start_y: 0,
            start_heading: 0,
            start_depth: 0,
            max_speed: 2_000,
            turn_rate: 20_000,
            accel: 1_000,
            decel: 1_000,
            dive: 500,
            yaw_kp: 1_000,
            yaw_ki: 0,
            yaw_kd: 0,
            integral_limit: 1_000_000,
            max_rudder: 100_000,
            max_thrust: 100_000,
            speed_factor: 50_000,
        }
    }

    /// The number of this setting.
    pub fn get(&self, setting: CraftSetting) -> i64
        ensures { result ≡ setting_value self.now setting }
    {
        match setting {
            CraftSetting::StartX => self.start_x,
            CraftSetting::StartY => self.start_y,
            CraftSetting::StartHeading => self.start_heading,
            CraftSetting::StartDepth => self.start_depth,
            CraftSetting::MaxSpeed => self.max_speed,
            CraftSetting::TurnRate => self.turn_rate,
            CraftSetting::Accel => self.accel,
            CraftSetting::Decel => self.decel,
            CraftSetting::Dive => self.dive,
            CraftSetting::YawKp => self.yaw_kp,
            CraftSetting::YawKi => self.yaw_ki,
            CraftSetting::YawKd => self.yaw_kd,
            CraftSetting::IntegralLimit => self.integral_limit,
            CraftSetting::MaxRudder => self.max_rudder,
            CraftSetting::MaxThrust => self.max_thrust,
            CraftSetting::SpeedFactor => self.speed_factor,
        }
    }

    /// Gives this setting a number.
    pub fn set(&mut self, setting: CraftSetting, number: i64)
        ensures { self.new ≡ set_to self.old setting number }
    {
        match setting {
            CraftSetting::StartX => self.start_x = number,
            CraftSetting::StartY => self.start_y = number,
            CraftSetting::StartHeading => self.start_heading = number,
            CraftSetting::StartDepth => self.start_depth = number,
            CraftSetting::MaxSpeed => self.max_speed = number,
            CraftSetting::TurnRate => self.turn_rate = number,
            CraftSetting::Accel => self.accel = number,
            CraftSetting::Decel => self.decel = number,
            CraftSetting::Dive => self.dive = number,
            CraftSetting::YawKp => self.yaw_kp = number,
            CraftSetting::YawKi => self.yaw_ki = number,
            CraftSetting::YawKd => self.yaw_kd = number,
            CraftSetting::IntegralLimit => self.integral_limit = number,
            CraftSetting::MaxRudder => self.max_rudder = number,
            CraftSetting::MaxThrust => self.max_thrust = number,
            CraftSetting::SpeedFactor => self.speed_factor = number,
        }
    }
}
