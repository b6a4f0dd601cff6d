// The controller: from what is wanted to rudder and thrust.
ghost use Rattle.std.specs.Prelude.{◌≡◌, pos, neg_ℤ, ◌+ℤ◌, ◌-ℤ◌, ◌*ℤ◌, ◌^◌, int_div, IfSome};
ghost use Rattle.moos_post.specs.Words.{IsMilli};
ghost use Rattle.sim_vehicle.specs.Steering.{drive_of, fresh_rig, heading_error, Lies, limited, rig_after, signed_angle, thrust_of};

use crate::arithmetic::{limited, times};
use crate::craft::Craft;
use crate::setting::CraftSetting;
use std::marker::Model;

/// What the controller asks of the vehicle, in thousandths: the rudder, which is positive to the right, and the thrust,
/// of which 100 is all there is.
#[derive(Clone, Copy, Debug, PartialEq, Eq)]
pub struct Drive {
    pub rudder: i64,
    pub thrust: i64,
}

/// The controller: what it keeps from step to step, in thousandths of degrees. Contracts see it as a `RigState`, the
/// integral of its errors so far and the last of them.
#[derive(Drop)]
pub struct Rig {
    integral: i64,
    last_error: i64,
}

impl Model for Rig {
    ghost use Rattle.std.specs.Prelude.{neg_ℤ, pos, ◌^◌};
    ghost use Rattle.sim_vehicle.specs.Steering.{Lies, RigState};

    ghost Value = { RigState };

    ghost view = { λ rig. record { integral = rig.integral; last_error = rig.last_error } };

    ghost invariant = { λ rig. Lies (neg_ℤ (pos (10 ^ 9))) (pos (10 ^ 9)) rig.integral × Lies (neg_ℤ (pos 180000)) (pos 180000) rig.last_error };
}

impl Rig {
    /// A controller before its first step.
    pub fn make() -> Rig
        ensures { result ≡ fresh_rig }
    {
        Rig {
            integral: 0,
            last_error: 0,
        }
    }

    /// What the controller asks of this vehicle in one step, by the heading and the speed that the helm wants and the
    /// vehicle's heading, in thousandths and if they are known. Each that is given lies within 10^12 either way. The
    /// rudder is within `max_rudder` either way, and the thrust from 0 to `max_thrust`.
    pub fn control(
        &mut self,
        craft: &Craft,
        want_heading: Option<i64>,
        want_speed: Option<i64>,
        heading: Option<i64>,
    ) -> Drive
        requires want_heading { IfSome want_heading IsMilli }
        requires want_speed { IfSome want_speed IsMilli }
        requires heading { IfSome heading IsMilli }
        ensures drive { result ≡ drive_of craft.now self.old (heading_error want_heading heading) want_speed }
        ensures rig { self.new ≡ rig_after craft.now self.old (heading_error want_heading heading) }
        ensures rudder { Lies (neg_ℤ craft.now.max_rudder) craft.now.max_rudder result.rudder }
        ensures thrust { Lies (pos 0) craft.now.max_thrust result.thrust }
    {
        let error = heading_error(want_heading, heading);
        let integral = self.integral_with(craft, error);
        let change = self.change_to(error);
        self.keep(integral, error);
        Drive {
            rudder: rudder_of(craft, error, integral, change),
            thrust: thrust_of(craft, want_speed),
        }
    }

    // The integral with one error more.
    fn integral_with(&self, craft: &Craft, error: i64) -> i64
        requires error { Lies (neg_ℤ (pos 180000)) (pos 180000) error }
        ensures value { result ≡ (rig_after craft.now self.now error).integral }
        ensures within { Lies (neg_ℤ (pos (10 ^ 9))) (pos (10 ^ 9)) result }
    {
        limited(
            self.integral + error,
            craft.get(CraftSetting::IntegralLimit),
        )
    }

    // The change from the last error to this one.
    fn change_to(&self, error: i64) -> i64
        requires error { Lies (neg_ℤ (pos 180000)) (pos 180000) error }
        ensures value { result ≡ error -ℤ self.now.last_error }
        ensures within { Lies (neg_ℤ (pos 360000)) (pos 360000) result }
    {
        error - self.last_error
    }

    // Keeps the integral and the error of a step.
    fn keep(&mut self, integral: i64, error: i64)
        requires integral { Lies (neg_ℤ (pos (10 ^ 9))) (pos (10 ^ 9)) integral }
        requires error { Lies (neg_ℤ (pos 180000)) (pos 180000) error }
        ensures { self.new ≡ record { integral = integral; last_error = error } }
    {
        self.integral = integral;
        self.last_error = error;
    }
}

// The rudder for an error, the integral with it and the change to it.
fn rudder_of(craft: &Craft, error: i64, integral: i64, change: i64) -> i64
    requires error { Lies (neg_ℤ (pos 180000)) (pos 180000) error }
    requires integral { Lies (neg_ℤ (pos (10 ^ 9))) (pos (10 ^ 9)) integral }
    requires change { Lies (neg_ℤ (pos 360000)) (pos 360000) change }
    ensures value { result ≡ limited craft.now.max_rudder
        (int_div (error *ℤ craft.now.yaw_kp +ℤ integral *ℤ craft.now.yaw_ki +ℤ change *ℤ craft.now.yaw_kd) (pos 1000)) }
    ensures within { Lies (neg_ℤ craft.now.max_rudder) craft.now.max_rudder result }
{
    let asked = times(error, craft.get(CraftSetting::YawKp))
        + times(integral, craft.get(CraftSetting::YawKi))
        + times(change, craft.get(CraftSetting::YawKd));
    limited(asked / 1000, craft.get(CraftSetting::MaxRudder))
}

// How far clockwise of the own heading the wanted one lies, above -180 degrees and at most 180.
fn heading_error(want: Option<i64>, heading: Option<i64>) -> i64
    requires want { IfSome want IsMilli }
    requires heading { IfSome heading IsMilli }
    ensures value { result ≡ heading_error want heading }
    ensures within { Lies (neg_ℤ (pos 180000)) (pos 180000) result }
{
    match (want, heading) {
        (Some(want), Some(heading)) => signed_angle((want - heading).rem_euclid(360_000)),
        _ => 0,
    }
}

// An angle from 0 to below 360 degrees, taken above -180 degrees and at most 180.
fn signed_angle(angle: i64) -> i64
    requires { Lies (pos 0) (pos 359999) angle }
    ensures value { result ≡ signed_angle angle }
    ensures within { Lies (neg_ℤ (pos 180000)) (pos 180000) result }
{
    if angle > 180_000 {
        angle - 360_000
    } else {
        angle
    }
}

// The thrust for a wanted speed.
fn thrust_of(craft: &Craft, want: Option<i64>) -> i64
    requires { IfSome want IsMilli }
    ensures value { result ≡ thrust_of craft.now want }
    ensures within { Lies (pos 0) craft.now.max_thrust result }
{
    let most = craft.get(CraftSetting::MaxThrust);
    match want {
        Some(speed) => (times(speed, craft.get(CraftSetting::SpeedFactor)) / 1000).clamp(0, most),
        None => 0,
    }
}
