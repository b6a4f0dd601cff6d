// What holds of every step of every vehicle.
ghost use Rattle.std.specs.Prelude.{ℕ, ℤ, neg_ℤ, pos, Option};
ghost use Rattle.sim_vehicle.specs.declared.hull.Hull.{Hull};
ghost use Rattle.sim_vehicle.specs.declared.settings.CraftSettings.{CraftSettings};
ghost use Rattle.sim_vehicle.specs.Motion.{hull_after, IsHull, start_hull};
ghost use Rattle.sim_vehicle.specs.Settings.{AreAllowed};
ghost use Rattle.sim_vehicle.specs.Steering.{drive_of, Lies, RigState};

/// The rudder that is asked for is within `max_rudder` either way and the thrust from 0 to `max_thrust`, and a vehicle stays within
/// its ranges from its start on, whatever is wanted or asked for. It does nothing.
pub fn ranges_law()
    ensures rudder { (craft : CraftSettings) → AreAllowed craft → (rig : RigState) (error : ℤ) (speed : Option ℤ)
        → Lies (neg_ℤ craft.max_rudder) craft.max_rudder (drive_of craft rig error speed).rudder }
    ensures thrust { (craft : CraftSettings) → AreAllowed craft → (rig : RigState) (error : ℤ) (speed : Option ℤ)
        → Lies (pos 0) craft.max_thrust (drive_of craft rig error speed).thrust }
    ensures start { (craft : CraftSettings) → AreAllowed craft → IsHull craft (start_hull craft) }
    ensures step { (craft : CraftSettings) → AreAllowed craft → (hull : Hull) → IsHull craft hull → (rudder thrust want_depth : Option ℤ) (dt : ℕ)
        → IsHull craft (hull_after craft hull rudder thrust want_depth dt) }
{}
