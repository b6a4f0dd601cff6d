// Keeping a station: where it is, and how fast the vehicle goes back to it.
ghost use Rattle.std.specs.Prelude.{◌≡◌, ◌≤◌, ◌<◌, ◌*◌, ◌-◌, ◌/◌, ◌^◌, List, codes, option_map, IfSome, IsTrue};
ghost use Rattle.ivp_domain.specs.declared.axis.Axis.{Axis};
ghost use Rattle.helm_geo.specs.Plane.{is_spot};
ghost use Rattle.bhv_file.specs.Params.{has_axis};
ghost use Rattle.bhv_kinds.specs.Giving.{keeping};
ghost use Rattle.bhv_kinds.specs.Stations.{centre_after, distance_of, return_speed};
ghost use Rattle.bhv_kinds.specs.Wants.{CanMake, utility_of};

use crate::want::Want;
use crate::ways::towards;
use helm_geo::{Spot, distance_squared, isqrt};

/// The centre after a step: where it is, unless it is taken anew or wasn't known before.
#[tactic(auto, using(crate::proofs::Stepping::centre_within))]
pub fn centre_after(fresh: bool, centre: Option<Spot>, here: Option<Spot>) -> Option<Spot>
    ensures centre { result ≡ centre_after fresh centre here }
    ensures within { IfSome centre (λ spot. IsTrue (is_spot spot)) → IfSome here (λ spot. IsTrue (is_spot spot)) → IfSome result (λ spot. IsTrue (is_spot spot)) }
{
    if fresh { here } else { centre.or(here) }
}

// The distance of two places in thousandths, rounded down.
fn distance_of(p: &Spot, q: &Spot) -> u64
    requires p { IsTrue (is_spot p.now) }
    requires q { IsTrue (is_spot q.now) }
    ensures { result ≡ distance_of p.now q.now }
{
    isqrt(distance_squared(p, q))
}

/// How a station is kept, in thousandths: within the inner radius the vehicle stays, from the outer one on it goes at a speed.
#[derive(Clone, Copy)]
pub struct Ring {
    pub inner: u64,
    pub outer: u64,
    pub speed: u64,
}

// A part of a whole speed, rounded down: that of a way to a longer one.
fn share(speed: u64, way: u64, whole: u64) -> u64
    requires whole { 0 < whole }
    requires way { way ≤ whole }
    requires few { whole ≤ 10 ^ 9 }
    requires speed { speed ≤ 10 ^ 6 }
    ensures part { result ≡ speed * way / whole }
    ensures most { result ≤ speed }
{
    speed * way / whole
}

// The speed at a distance beyond the inner radius: it rises from there, and is the outer speed from the outer radius on.
fn return_speed(ring: &Ring, distance: u64) -> u64
    requires radii { ring.now.inner < ring.now.outer }
    requires outer { ring.now.outer ≤ 10 ^ 9 }
    requires speed { ring.now.speed ≤ 10 ^ 6 }
    ensures speed { result ≡ return_speed ring.now.inner ring.now.outer ring.now.speed distance }
    ensures most { result ≤ 10 ^ 6 }
{
    if ring.outer <= distance {
        ring.speed
    } else {
        share(
            ring.speed,
            distance.saturating_sub(ring.inner),
            ring.outer - ring.inner,
        )
    }
}

/// To stay within the inner radius of a station, or to go back to it.
pub fn keep(ring: &Ring, station: &Spot, here: &Spot) -> Option<Want>
    requires radii { ring.now.inner < ring.now.outer }
    requires outer { ring.now.outer ≤ 10 ^ 9 }
    requires speed { ring.now.speed ≤ 10 ^ 6 }
    requires station { IsTrue (is_spot station.now) }
    requires here { IsTrue (is_spot here.now) }
    ensures want { option_map utility_of result ≡ keeping ring.now.inner ring.now.outer ring.now.speed station.now here.now }
    ensures can { (axes : List Axis) → IsTrue (has_axis axes (codes "course")) → IsTrue (has_axis axes (codes "speed")) → IfSome result (CanMake axes) }
{
    let distance = distance_of(here, station);
    if distance <= ring.inner {
        Some(Want::Stay)
    } else {
        towards(return_speed(ring, distance), station, here)
    }
}
