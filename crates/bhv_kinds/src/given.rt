// What a step aims at by what it finds.
ghost use Rattle.std.specs.Prelude.{◌≡◌, ◌<◌, ◌≤◌, ◌^◌, true, false, List, codes, None, option_map, IfSome, IsTrue, if◌then◌else◌};
ghost use Rattle.ivp_domain.specs.declared.axis.Axis.{Axis};
ghost use Rattle.helm_cond.specs.Infos.{knowledge_of};
ghost use Rattle.helm_geo.specs.Plane.{is_spot};
ghost use Rattle.helm_geo.specs.Polygons.{are_spots};
ghost use Rattle.bhv_file.specs.Params.{has_axes, has_axis, is_avoid, keeps_relations};
ghost use Rattle.bhv_file.specs.Ranges.{InRanges};
ghost use Rattle.bhv_kinds.specs.Giving.{given_here, gives_by_type, keeping_station, towards_number};
ghost use Rattle.bhv_kinds.specs.Wants.{CanMake, given_of, utility_of};

use crate::region::{depth_fault, late_fault, outside_fault};
use crate::situation::Situation;
use crate::station::{Ring, keep};
use crate::steady::of_hundred;
use crate::want::{Aim, Want};
use crate::waypoint::{spot_at, target_number};
use crate::ways::towards;
use bhv_file::{BhvFault, Shape, latest_number};
use helm_cond::Info;
use helm_geo::Spot;

// A want or none, and nothing else.
fn gives(want: Option<Want>) -> Aim
    ensures { result ≡ record { want = want; done = false; fault = None } }
{
    Aim {
        want,
        done: false,
        fault: None,
    }
}

// A fault or none, and nothing else.
fn raises(fault: Option<BhvFault>) -> Aim
    ensures { result ≡ record { want = None; done = false; fault = fault } }
{
    Aim {
        want: None,
        done: false,
        fault,
    }
}

// It is done, and there is nothing to go to.
fn all_done() -> Aim
    ensures { result ≡ record { want = None; done = true; fault = None } }
{
    Aim {
        want: None,
        done: true,
        fault: None,
    }
}

// To go to the place of a number in a list, if there is one.
fn towards_number(speed: u64, places: &[Spot], number: Option<usize>, here: &Spot) -> Option<Want>
    requires speed { speed ≤ 10 ^ 6 }
    requires places { IsTrue (are_spots places.now) }
    requires here { IsTrue (is_spot here.now) }
    ensures want { option_map utility_of result ≡ towards_number speed places.now number here.now }
    ensures can { (axes : List Axis) → IsTrue (has_axis axes (codes "course")) → IsTrue (has_axis axes (codes "speed")) → IfSome result (CanMake axes) }
{
    match number {
        Some(number) => towards(speed, &spot_at(places, number), here),
        None => None,
    }
}

// The same by the own position. If it isn't known, there is a fault.
fn go(speed: u64, places: &[Spot], number: Option<usize>, here: Option<Spot>) -> Aim
    requires speed { speed ≤ 10 ^ 6 }
    requires places { IsTrue (are_spots places.now) }
    requires here { IfSome here (λ spot. IsTrue (is_spot spot)) }
    ensures given { given_of result ≡ given_here (towards_number speed places.now number) here }
    ensures can { (axes : List Axis) → IsTrue (has_axis axes (codes "course")) → IsTrue (has_axis axes (codes "speed")) → IfSome result.want (CanMake axes) }
{
    match here {
        Some(here) => gives(towards_number(speed, places, number, &here)),
        None => raises(Some(BhvFault::NoPosition)),
    }
}

// To keep a station, if there is one.
fn keeping_station(ring: &Ring, station: Option<Spot>, here: &Spot) -> Option<Want>
    requires radii { ring.now.inner < ring.now.outer }
    requires outer { ring.now.outer ≤ 10 ^ 9 }
    requires speed { ring.now.speed ≤ 10 ^ 6 }
    requires station { IfSome station (λ spot. IsTrue (is_spot spot)) }
    requires here { IsTrue (is_spot here.now) }
    ensures want { option_map utility_of result ≡ keeping_station ring.now.inner ring.now.outer ring.now.speed station here.now }
    ensures can { (axes : List Axis) → IsTrue (has_axis axes (codes "course")) → IsTrue (has_axis axes (codes "speed")) → IfSome result (CanMake axes) }
{
    match station {
        Some(station) => keep(ring, &station, here),
        None => None,
    }
}

// The same by the own position. If it isn't known, there is a fault.
fn stay(ring: &Ring, station: Option<Spot>, here: Option<Spot>) -> Aim
    requires radii { ring.now.inner < ring.now.outer }
    requires outer { ring.now.outer ≤ 10 ^ 9 }
    requires speed { ring.now.speed ≤ 10 ^ 6 }
    requires station { IfSome station (λ spot. IsTrue (is_spot spot)) }
    requires here { IfSome here (λ spot. IsTrue (is_spot spot)) }
    ensures given { given_of result ≡ given_here (keeping_station ring.now.inner ring.now.outer ring.now.speed station) here }
    ensures can { (axes : List Axis) → IsTrue (has_axis axes (codes "course")) → IsTrue (has_axis axes (codes "speed")) → IfSome result.want (CanMake axes) }
{
    match here {
        Some(here) => gives(keeping_station(ring, station, &here)),
        None => raises(Some(BhvFault::NoPosition)),
    }
}

// The station that is kept: the centre, if it is taken anew.
fn station_of(anew: bool, centre: Option<Spot>, point: Option<Spot>) -> Option<Spot>
    ensures { result ≡ (if anew then centre else point) }
{
    if anew { centre } else { point }
}

/// What a step of a type aims at by what it finds, and by what is known. Its want is one over every domain that has the axes
/// of the type.
#[tactic(auto, using(crate::proofs::Placed::places_are, crate::proofs::Placed::vertices_are))]
pub fn given(info: &Info, shape: &Shape, found: &Situation) -> Aim
    requires ranges { InRanges true shape.now }
    requires here { IfSome found.now.here (λ spot. IsTrue (is_spot spot)) }
    requires centre { IfSome found.now.centre (λ spot. IsTrue (is_spot spot)) }
    requires relations { IsTrue (keeps_relations shape.now) }
    requires other { is_avoid shape.now ≡ false }
    ensures given { given_of result ≡ gives_by_type shape.now (knowledge_of info.now) found.now }
    ensures can { (axes : List Axis) → IsTrue (has_axes axes shape.now) → IfSome result.want (CanMake axes) }
{
    match shape {
        Shape::Heading {
            heading,
            peakwidth,
            basewidth,
            summitdelta,
        } => {
            let peak = of_hundred(*heading, *peakwidth, *basewidth, *summitdelta);
            gives(Some(Want::OnCourse(peak)))
        },
        Shape::Speed {
            speed,
            peakwidth,
            basewidth,
            summitdelta,
        } => {
            let peak = of_hundred(*speed, *peakwidth, *basewidth, *summitdelta);
            gives(Some(Want::OnSpeed(peak)))
        },
        Shape::Depth {
            depth,
            peakwidth,
            basewidth,
            summitdelta,
        } => {
            let peak = of_hundred(*depth, *peakwidth, *basewidth, *summitdelta);
            gives(Some(Want::OnDepth(peak)))
        },
        Shape::MaxDepth {
            max_depth,
            basewidth,
        } => gives(Some(Want::AtMostDeep {
            limit: *max_depth,
            basewidth: *basewidth,
        })),
        Shape::Timer => gives(None),
        Shape::OpRegion {
            polygon,
            max_depth,
            max_time,
        } => {
            let outside = outside_fault(polygon, found.here);
            let deep = depth_fault(*max_depth, latest_number(info, b"NAV_DEPTH"));
            let late = late_fault(*max_time, found.time);
            raises(outside.or(deep).or(late))
        },
        Shape::Waypoint {
            points,
            speed,
            reverse,
            ..
        } => {
            if found.finished {
                return all_done();
            }
            let target = target_number(points.len(), *reverse, found.captured);
            let speed = speed.unsigned_abs();
            go(speed, points.all(), Some(target), found.here)
        },
        Shape::Loiter { polygon, speed, .. } => {
            let speed = speed.unsigned_abs();
            go(speed, polygon.all(), found.vertex, found.here)
        },
        Shape::StationKeep {
            station_pt,
            center_activate,
            inner_radius,
            outer_radius,
            outer_speed,
        } => {
            let ring = Ring {
                inner: inner_radius.unsigned_abs(),
                outer: outer_radius.unsigned_abs(),
                speed: outer_speed.unsigned_abs(),
            };
            let station = station_of(*center_activate, found.centre, *station_pt);
            stay(&ring, station, found.here)
        },
        Shape::AvoidCollision(_) => unreachable!(),
    }
}
