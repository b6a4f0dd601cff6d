// Steps of behaviours that go to places, one after the other.
use crate::kinds::station;
use crate::steps::acts;
use bhv_file::{Shape, Spec, Spots};
use bhv_kinds::Kind;
use helm_geo::Spot;
use std::alloc::Global;
use std::process::Abort;

// A list of one point.
#[tactic(auto, using(bhv_kinds::proofs::KindExamples::waypoint_valid))]
fn waypoint(rt: &impl Abort, alloc: Global) -> Kind {
    match Vec::from_slice(alloc, &[Spot { x: 0, y: 0 }]) {
        Ok(points) => Kind::make(Spec {
            weight: 100_000,
            shape: Shape::Waypoint {
                points: Spots::of(points),
                speed: 1000,
                capture_radius: 10_000,
                slip_radius: 15_000,
                reverse: false,
                repeat: Some(1),
            },
        }),
        Err(_) => panic!(rt; "memory"),
    }
}

// A square of a hundred, listed counterclockwise.
#[tactic(auto, using(bhv_kinds::proofs::KindExamples::loiter_valid))]
fn loiter(rt: &impl Abort, alloc: Global) -> Kind {
    match Vec::from_slice(
        alloc,
        &[
            Spot { x: 0, y: 0 },
            Spot { x: 100_000, y: 0 },
            Spot {
                x: 100_000,
                y: 100_000,
            },
            Spot { x: 0, y: 100_000 },
        ],
    ) {
        Ok(polygon) => Kind::make(Spec {
            weight: 100_000,
            shape: Shape::Loiter {
                polygon: Spots::of(polygon),
                speed: 1000,
                capture_radius: 10_000,
                slip_radius: 20_000,
                clockwise: true,
            },
        }),
        Err(_) => panic!(rt; "memory"),
    }
}

// Captured at exactly the radius, slipped past from within the slip radius, begun again once, done, and begun anew; then from
// the last point to the first.
const LIST: &str = "yes 100000 points=0,0:100,0
step 0 -10001 0 1 100000
step 0 -10000 1 1 100000
step 90000 -13000 0 1 100000
step 95000 -13000 0 1 100000
step
step 95000 -13000 0 1 100000
step 100000 -14000 3 1 100000
step 0 0 1 1 100000
last 100000 0
step 100000 0 3 1 100000
yes 100000 order=reverse
step 0 0 1 1 100000
step 100000 0 3 1 100000
step 0 1 1 1 100000";

// A list of one point that is begun again once, and is slipped past as the same target.
const ONE_POINT: &str = "yes 100000 pwt=100
step 0 -10000 0 1 100000
last 0 -10500";

#[test]
fn lists(rt: HostRuntime) {
    let alloc = rt.alloc();
    acts(&rt, alloc, waypoint(&rt, alloc), LIST);
    acts(&rt, alloc, waypoint(&rt, alloc), ONE_POINT);
}

// The nearest vertex, the first of several; clockwise, the other way, and chosen anew.
const POLYGON: &str = "yes 100000 pwt=100
fresh
step 50000 -20000 3 1 100000
step 0 -10000 0 1 100000
step 0 90000 1 1 100000
fresh 0 -10001 0 1 100000
yes 100000 clockwise=false
step 0 -10000 1 1 100000
step 90000 0 0 1 100000";

#[test]
fn polygons(rt: HostRuntime) {
    acts(&rt, rt.alloc(), loiter(&rt, rt.alloc()), POLYGON);
}

// To stay up to the inner radius, and back to the station, as fast as the distance says up to the outer one.
const STATION: &str = "yes 100000 pwt=100
fresh
step 5000 5000 0 0 50000
step 5000 -10000 0 1 100000
fresh 5000 -10000 0 0 50000
yes 100000 center_activate=false#point=0,0#outer_radius=20#inner_radius=10#outer_speed=2
step 0 -10000 0 0 50000
step 0 -10001 0 0 100000
step 0 -15000 0 1 100000
step 0 -20000 0 2 100000
step 0 -90000 0 2 100000";

#[test]
fn stations(rt: HostRuntime) {
    acts(&rt, rt.alloc(), station(), STATION);
}
