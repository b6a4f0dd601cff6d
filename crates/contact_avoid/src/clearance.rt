// The function of a behaviour that keeps clear of a contact.
ghost use Rattle.std.specs.Prelude.{◌≡◌, ◌^◌, pos, codes, IfOk, IfSome, IsTrue};
ghost use Rattle.helm_geo.specs.Plane.{is_spot};
ghost use Rattle.ivp_domain.specs.Domains.{is_point};
ghost use Rattle.bhv_file.specs.Named.{named_axis};
ghost use Rattle.bhv_file.specs.Params.{has_axis};
ghost use Rattle.bhv_file.specs.Ranges.{AvoidsInRanges};
ghost use Rattle.bhv_file.specs.Serving.{few_boxes, is_slow};
ghost use Rattle.contact_avoid.specs.Avoids.{clearance_at, clearance_function, number_named, track_in};
ghost use Rattle.contact_avoid.specs.Bounds.{IsTrack, LiesBetween, LiesWithin, MayServe};

use crate::motion::{Track, approach_utility};
use bhv_file::{Avoidance, axis_number};
use helm_geo::Spot;
use ivp_build::{BuildFault, uniform};
use ivp_domain::{Domain, Point};
use ivp_func::Func;
use moos_post::NoMemory;
use std::alloc::{AllocError, Global};

/// Where the contact is and how it moves, if its four numbers are given.
pub(crate) fn track_in(avoidance: &Avoidance) -> Option<Track>
    requires { AvoidsInRanges avoidance.now }
    ensures track { result ≡ track_in avoidance.now }
    ensures within { IfSome result IsTrack }
{
    let x = avoidance.contact_x?;
    let y = avoidance.contact_y?;
    let speed = avoidance.contact_speed?;
    let heading = avoidance.contact_heading?;
    Some(Track {
        x,
        y,
        speed,
        heading,
    })
}

// The number that a point has on the axis of this name.
fn number_named(domain: &Domain, name: &[u8], point: &Point) -> i64
    requires named { IsTrue (has_axis domain.now name.now) }
    requires point { IsTrue (is_point domain.now point.now) }
    ensures number { result ≡ number_named domain.now name.now point.now }
    ensures ends { LiesBetween (named_axis domain.now name.now).low (named_axis domain.now name.now).high result }
    ensures within { LiesWithin (10 ^ 12) result }
{
    let _lawful = domain.axes();
    let axis = axis_number(domain, name);
    let _along = domain.axis(axis);
    domain.value(axis, point.at[axis as usize])
}

// A speed that a point has.
fn speed_at(domain: &Domain, point: &Point) -> i64
    requires named { IsTrue (has_axis domain.now (codes "speed")) }
    requires slow { IsTrue (is_slow domain.now) }
    requires point { IsTrue (is_point domain.now point.now) }
    ensures number { result ≡ number_named domain.now (codes "speed") point.now }
    ensures within { LiesBetween (pos 0) (pos 100000) result }
{
    number_named(domain, b"speed", point)
}

/// The utility at a point.
pub(crate) fn clearance_at(
    domain: &Domain,
    avoidance: &Avoidance,
    own: &Spot,
    track: &Track,
    point: &Point,
) -> i64
    requires may { MayServe domain.now avoidance.now }
    requires own { IsTrue (is_spot own.now) }
    requires track { IsTrack track.now }
    requires point { IsTrue (is_point domain.now point.now) }
    ensures utility { result ≡ pos (clearance_at domain.now avoidance.now own.now track.now point.now) }
    ensures within { LiesBetween (pos 0) (pos 100000) result }
{
    let speed = speed_at(domain, point);
    let course = number_named(domain, b"course", point);
    let near = avoidance.near.unsigned_abs();
    let far = avoidance.far.unsigned_abs();
    approach_utility(near, far, *own, *track, speed, course)
}

/// The function: the utility, sampled in boxes of the piece size.
pub(crate) fn clearance_function(
    alloc: Global,
    domain: &Domain,
    avoidance: &Avoidance,
    own: &Spot,
    track: &Track,
) -> Result<Func, NoMemory>
    requires may { MayServe domain.now avoidance.now }
    requires few { IsTrue (few_boxes domain.now avoidance.now.piece_size) }
    requires own { IsTrue (is_spot own.now) }
    requires track { IsTrack track.now }
    ensures { IfOk result (λ func. func ≡ clearance_function domain.now avoidance.now own.now track.now) }
{
    let utility = |point: &Point| -> i64
        requires { MayServe domain.now avoidance.now × IsTrue (is_spot own.now) × IsTrack track.now × IsTrue (is_point domain.now point.now) }
        ensures { (result ≡ pos (clearance_at domain.entry.now avoidance.entry.now own.entry.now track.entry.now point.now)) × LiesBetween (pos 0) (pos 100000) result }
    { clearance_at(domain, avoidance, own, track, point) };
    match uniform(alloc, domain, avoidance.piece_size, &utility) {
        Ok(func) => Ok(func),
        Err(BuildFault::NoMemory) => Err(AllocError),
        Err(BuildFault::TooMany) => unreachable!(),
    }
}
