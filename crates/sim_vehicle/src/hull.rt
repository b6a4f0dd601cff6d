// The vehicle's position and motion, a step at a time.
ghost use Rattle.std.specs.Prelude.{◌≡◌, ℤ, pos, neg_ℤ, ◌+ℤ◌, ◌-ℤ◌, ◌*ℤ◌, ◌*◌, ◌^◌, ◌≤◌, ◌<◌, ◌≤ℤ◌, int_div, IfSome};
ghost use Rattle.std.specs.Int.{int_rem_euclid};
ghost use Rattle.moos_post.specs.Words.{IsMilli};
ghost use Rattle.sim_vehicle.specs.Motion.{coordinate_after, depth_after, depth_error, heading_after, heading_change, hull_after, IsHull, rudder_taken, speed_after, thrust_taken, whole_degrees};
ghost use Rattle.sim_vehicle.specs.Steering.{clamped, Lies};

use crate::arithmetic::{in_step, limited, most_change, mul_div, times};
use crate::craft::Craft;
use crate::setting::CraftSetting;
use helm_geo::{cos4, sin4};

/// Where a vehicle is and how it moves, in thousandths: east and north of the origin in metres, its heading in degrees
/// clockwise from north, its speed in metres a second and its depth in metres.
#[derive(Clone, Copy, Debug, PartialEq, Eq)]
pub struct Hull {
    pub x: i64,
    pub y: i64,
    pub heading: i64,
    pub speed: i64,
    pub depth: i64,
}

/// Where the vehicle is after a step of `dt` milliseconds, from 1 to 1,000,000, and how it moves then, by the rudder, the
/// thrust and the wanted depth, in thousandths and if they are known. Each that is given lies within 10^12 either way.
pub fn advance(
    craft: &Craft,
    hull: &Hull,
    rudder: Option<i64>,
    thrust: Option<i64>,
    want_depth: Option<i64>,
    dt: u64,
) -> Hull
    requires rudder { IfSome rudder IsMilli }
    requires thrust { IfSome thrust IsMilli }
    requires want_depth { IfSome want_depth IsMilli }
    requires some { 1 ≤ dt }
    requires dt { dt ≤ 10 ^ 6 }
    requires hull { IsHull craft.now hull.now }
    ensures value { result ≡ hull_after craft.now hull.now rudder thrust want_depth dt }
    ensures hull { IsHull craft.now result }
{
    let speed = speed_after(craft, hull.speed, thrust_taken(thrust), dt);
    let heading = heading_after(craft, hull.heading, rudder_taken(rudder), speed, dt);
    let degree = whole_degrees(heading);
    Hull {
        x: coordinate_after(hull.x, speed, dt, sin4(degree)),
        y: coordinate_after(hull.y, speed, dt, cos4(degree)),
        heading,
        speed,
        depth: depth_after(craft, hull.depth, want_depth, dt),
    }
}

// A rudder as the vehicle takes it.
fn rudder_taken(rudder: Option<i64>) -> i64
    requires { IfSome rudder IsMilli }
    ensures value { result ≡ rudder_taken rudder }
    ensures within { Lies (neg_ℤ (pos 100000)) (pos 100000) result }
{
    limited(rudder.unwrap_or(0), 100_000)
}

// A thrust as the vehicle takes it.
fn thrust_taken(thrust: Option<i64>) -> i64
    requires { IfSome thrust IsMilli }
    ensures value { result ≡ thrust_taken thrust }
    ensures within { Lies (pos 0) (pos 100000) result }
{
    thrust.unwrap_or(0).clamp(0, 100_000)
}

// A heading in whole degrees.
fn whole_degrees(heading: i64) -> u16
    requires { Lies (pos 0) (pos 359999) heading }
    ensures value { result ≡ whole_degrees heading }
    ensures within { result < 360 }
{
    (heading / 1000) as u16
}

// The speed that a thrust leads to, by the greatest one.
#[tactic(auto, using(crate::proofs::Sizes::share_within))]
fn target_speed(greatest: i64, thrust: i64) -> i64
    requires greatest { Lies (pos 1) (pos 100000) greatest }
    requires thrust { Lies (pos 0) (pos 100000) thrust }
    ensures value { result ≡ int_div (thrust *ℤ greatest) (pos 100000) }
    ensures within { Lies (pos 0) greatest result }
{
    times(thrust, greatest) / 100_000
}

// The speed after the step.
fn speed_after(craft: &Craft, speed: i64, thrust: i64, dt: u64) -> i64
    requires speed { Lies (pos 0) craft.now.max_speed speed }
    requires thrust { Lies (pos 0) (pos 100000) thrust }
    requires dt { dt ≤ 10 ^ 6 }
    ensures value { result ≡ speed_after craft.now speed thrust dt }
    ensures within { Lies (pos 0) craft.now.max_speed result }
    ensures slow { result ≤ℤ pos 100000 }
{
    let target = target_speed(craft.get(CraftSetting::MaxSpeed), thrust);
    let down = most_change(craft.get(CraftSetting::Decel), dt);
    let up = most_change(craft.get(CraftSetting::Accel), dt);
    toward(speed, target, down, up)
}

// A speed that goes toward its target, no farther down and up than this.
fn toward(speed: i64, target: i64, down: i64, up: i64) -> i64
    requires speed { Lies (pos 0) (pos 100000) speed }
    requires target { Lies (pos 0) (pos 100000) target }
    requires down { Lies (pos 0) (pos (10 ^ 11)) down }
    requires up { Lies (pos 0) (pos (10 ^ 11)) up }
    ensures value { result ≡ speed +ℤ clamped (neg_ℤ down) up (target -ℤ speed) }
    ensures low { pos 0 ≤ℤ result }
    ensures high { (top : ℤ) → speed ≤ℤ top → target ≤ℤ top → result ≤ℤ top }
{
    speed + (target - speed).clamp(-down, up)
}

// How far the heading turns.
fn heading_change(craft: &Craft, rudder: i64, speed: i64, dt: u64) -> i128
    requires rudder { Lies (neg_ℤ (pos 100000)) (pos 100000) rudder }
    requires speed { Lies (pos 0) (pos 100000) speed }
    requires dt { dt ≤ 10 ^ 6 }
    ensures value { result ≡ heading_change craft.now rudder speed dt }
    ensures within { Lies (neg_ℤ (pos (10 ^ 36))) (pos (10 ^ 36)) result }
{
    mul_div(
        times(rudder, craft.get(CraftSetting::TurnRate)),
        in_step(speed, dt),
        times(100_000_000, craft.get(CraftSetting::MaxSpeed)),
    )
}

// A heading turned so far.
fn turned(heading: i64, change: i128) -> i64
    requires heading { Lies (pos 0) (pos 359999) heading }
    requires change { Lies (neg_ℤ (pos (10 ^ 36))) (pos (10 ^ 36)) change }
    ensures value { result ≡ int_rem_euclid (heading +ℤ change) (pos 360000) }
    ensures within { Lies (pos 0) (pos 359999) result }
{
    (heading as i128 + change).rem_euclid(360_000) as i64
}

// The heading after the step.
fn heading_after(craft: &Craft, heading: i64, rudder: i64, speed: i64, dt: u64) -> i64
    requires heading { Lies (pos 0) (pos 359999) heading }
    requires rudder { Lies (neg_ℤ (pos 100000)) (pos 100000) rudder }
    requires speed { Lies (pos 0) (pos 100000) speed }
    requires dt { dt ≤ 10 ^ 6 }
    ensures value { result ≡ heading_after craft.now heading rudder speed dt }
    ensures within { Lies (pos 0) (pos 359999) result }
{
    turned(heading, heading_change(craft, rudder, speed, dt))
}

// A coordinate after the step, by the sine or cosine of the heading in ten-thousandths.
fn coordinate_after(start: i64, speed: i64, dt: u64, sine: i32) -> i64
    requires start { Lies (neg_ℤ (pos (10 ^ 12))) (pos (10 ^ 12)) start }
    requires speed { Lies (pos 0) (pos 100000) speed }
    requires dt { dt ≤ 10 ^ 6 }
    requires sine { Lies (neg_ℤ (pos 10000)) (pos 10000) sine }
    ensures value { result ≡ coordinate_after start speed dt sine }
    ensures within { Lies (neg_ℤ (pos (10 ^ 12))) (pos (10 ^ 12)) result }
{
    let gain = times(in_step(speed, dt), sine as i64) / 10_000_000;
    limited(start + gain, 1_000_000_000_000)
}

// How far below the vehicle the wanted depth lies.
fn depth_error(depth: i64, want: Option<i64>) -> i64
    requires depth { Lies (pos 0) (pos (10 ^ 7)) depth }
    requires want { IfSome want IsMilli }
    ensures value { result ≡ depth_error depth want }
    ensures within { Lies (neg_ℤ (pos (2 * 10 ^ 12))) (pos (2 * 10 ^ 12)) result }
{
    match want {
        Some(want) => want - depth,
        None => 0,
    }
}

// The depth after the step.
fn depth_after(craft: &Craft, depth: i64, want: Option<i64>, dt: u64) -> i64
    requires depth { Lies (pos 0) (pos (10 ^ 7)) depth }
    requires want { IfSome want IsMilli }
    requires dt { dt ≤ 10 ^ 6 }
    ensures value { result ≡ depth_after craft.now depth want dt }
    ensures within { Lies (pos 0) (pos (10 ^ 7)) result }
{
    let most = most_change(craft.get(CraftSetting::Dive), dt);
    let change = limited(depth_error(depth, want), most);
    (depth + change).clamp(0, 10_000_000)
}
