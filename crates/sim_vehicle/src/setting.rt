// The settings of a vehicle file by name, and the range of each.
ghost use Rattle.std.specs.Prelude.{◌≡◌, find};
ghost use Rattle.sim_vehicle.specs.Settings.{is_allowed, is_setting_name, setting_high, setting_low, setting_named};

use moos_text::is_named;

/// One of the numbers that a vehicle file may set.
#[derive(Clone, Copy)]
pub enum CraftSetting {
    StartX,
    StartY,
    StartHeading,
    StartDepth,
    MaxSpeed,
    TurnRate,
    Accel,
    Decel,
    Dive,
    YawKp,
    YawKi,
    YawKd,
    IntegralLimit,
    MaxRudder,
    MaxThrust,
    SpeedFactor,
}

// All of them, in the order of the table.
const SETTINGS: [CraftSetting; 16] = [
    CraftSetting::StartX,
    CraftSetting::StartY,
    CraftSetting::StartHeading,
    CraftSetting::StartDepth,
    CraftSetting::MaxSpeed,
    CraftSetting::TurnRate,
    CraftSetting::Accel,
    CraftSetting::Decel,
    CraftSetting::Dive,
    CraftSetting::YawKp,
    CraftSetting::YawKi,
    CraftSetting::YawKd,
    CraftSetting::IntegralLimit,
    CraftSetting::MaxRudder,
    CraftSetting::MaxThrust,
    CraftSetting::SpeedFactor,
];

/// The setting of this name, in letters of either case, if one has it.
pub fn setting_named(name: &[u8]) -> Option<CraftSetting>
    ensures { result ≡ setting_named name.now }
{
    SETTINGS
        .iter()
        .copied()
        .find(|setting| setting.has_name(name))
}

impl CraftSetting {
    // Whether a file sets it under this name.
    fn has_name(self, name: &[u8]) -> bool
        ensures { result ≡ is_setting_name name.now self }
    {
        match self {
            CraftSetting::StartX => is_named(name, b"start_x"),
            CraftSetting::StartY => is_named(name, b"start_y"),
            CraftSetting::StartHeading => is_named(name, b"start_heading"),
            CraftSetting::StartDepth => is_named(name, b"start_depth"),
            CraftSetting::MaxSpeed => is_named(name, b"max_speed"),
            CraftSetting::TurnRate => is_named(name, b"turn_rate"),
            CraftSetting::Accel => is_named(name, b"accel"),
            CraftSetting::Decel => is_named(name, b"decel"),
            CraftSetting::Dive => is_named(name, b"dive"),
            CraftSetting::YawKp => is_named(name, b"yaw_kp"),
            CraftSetting::YawKi => is_named(name, b"yaw_ki"),
            CraftSetting::YawKd => is_named(name, b"yaw_kd"),
            CraftSetting::IntegralLimit => is_named(name, b"integral_limit"),
            CraftSetting::MaxRudder => is_named(name, b"max_rudder"),
            CraftSetting::MaxThrust => is_named(name, b"max_thrust"),
            CraftSetting::SpeedFactor => is_named(name, b"speed_factor"),
        }
    }

    // The least that it may be, in thousandths.
    fn low(self) -> i64
        ensures { result ≡ setting_low self }
    {
        match self {
            CraftSetting::StartX | CraftSetting::StartY => -1_000_000_000,
            CraftSetting::MaxSpeed => 1,
            _ => 0,
        }
    }

    // The most that it may be.
    fn high(self) -> i64
        ensures { result ≡ setting_high self }
    {
        match self {
            CraftSetting::StartX | CraftSetting::StartY | CraftSetting::IntegralLimit =>
                1_000_000_000,
            CraftSetting::StartHeading => 359_999,
            CraftSetting::StartDepth => 10_000_000,
            CraftSetting::TurnRate => 360_000,
            CraftSetting::MaxSpeed
            | CraftSetting::Accel
            | CraftSetting::Decel
            | CraftSetting::Dive => 100_000,
            CraftSetting::MaxRudder | CraftSetting::MaxThrust => 100_000,
            CraftSetting::YawKp
            | CraftSetting::YawKi
            | CraftSetting::YawKd
            | CraftSetting::SpeedFactor => 1_000_000,
        }
    }

    /// Whether it may be this number of thousandths.
    pub fn allows(self, number: i64) -> bool
        ensures { result ≡ is_allowed self number }
    {
        self.low() <= number && number <= self.high()
    }
}
