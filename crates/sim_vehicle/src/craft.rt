// A simulated vehicle, as its file describes it.
ghost use Rattle.std.specs.Prelude.{◌≡◌, ◌≤ℤ◌, IsTrue};
ghost use Rattle.sim_vehicle.specs.Motion.{IsHull, start_hull};
ghost use Rattle.sim_vehicle.specs.Settings.{AreAllowed, default_settings, is_allowed, set_to, setting_high, setting_low, setting_value};

use crate::hull::Hull;
use crate::setting::CraftSetting;
use crate::settings::CraftSettings;
use std::marker::Model;

/// A vehicle as its file sets it: where it starts, what its hull can do, and how its controller steers it.
///
/// Contracts see it as its `CraftSettings`, each of which is in its range.
#[derive(Drop)]
pub struct Craft {
    settings: CraftSettings,
}

impl Model for Craft {
    ghost use Rattle.sim_vehicle.specs.declared.settings.CraftSettings.{CraftSettings};
    ghost use Rattle.sim_vehicle.specs.Settings.{AreAllowed};

    ghost Value = { CraftSettings };

    ghost view = { λ craft. craft.settings };

    ghost invariant = { λ craft. AreAllowed craft.settings };
}

impl Craft {
    /// Where the vehicle is at the start, where it lies still.
    pub fn start(&self) -> Hull
        ensures value { result ≡ start_hull self.now }
        ensures hull { IsHull self.now result }
    {
        Hull {
            x: self.settings.start_x,
            y: self.settings.start_y,
            heading: self.settings.start_heading,
            speed: 0,
            depth: self.settings.start_depth,
        }
    }

    /// The law of a vehicle: each of its settings is in its range. It does nothing.
    pub fn allowed_law(&self)
        ensures { AreAllowed self.now }
    {
        let _settings = &self.settings;
    }

    /// The vehicle of an empty file.
    #[tactic(auto, using(crate::proofs::Kept::defaults_allowed))]
    pub(crate) fn with_defaults() -> Craft
        ensures { result ≡ default_settings }
    {
        Craft {
            settings: CraftSettings::defaults(),
        }
    }

    /// The number of this setting.
    pub(crate) fn get(&self, setting: CraftSetting) -> i64
        ensures value { result ≡ setting_value self.now setting }
        ensures low { setting_low setting ≤ℤ result }
        ensures high { result ≤ℤ setting_high setting }
    {
        self.settings.get(setting)
    }

    /// Gives this setting a number of its range.
    #[tactic(auto, using(crate::proofs::Kept::set_to_allowed))]
    pub(crate) fn set(&mut self, setting: CraftSetting, number: i64)
        requires { IsTrue (is_allowed setting number) }
        ensures { self.new ≡ set_to self.old setting number }
    {
        self.settings.set(setting, number);
    }
}
