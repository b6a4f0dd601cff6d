// Steps, distances and directions in the plane, and spots in polygons.
ghost use Rattle.std.specs.Prelude.{◌≡◌, IsTrue};
ghost use Rattle.helm_geo.specs.Plane.{is_spot};

use helm_geo::{Spot, bearing, convex, cos4, distance_squared, inside, isqrt, sin4, within};
use std::process::Abort;

/// The farthest that a step leads on each axis.
const FAR: i64 = 2_000_000_000_000;

/// The farthest spot on each axis.
const EDGE: i64 = 1_000_000_000_000;

fn spot(x: i64, y: i64) -> Spot
    ensures { result ≡ record { x = x; y = y } }
{
    Spot { x, y }
}

// Steps, by how far they lead east and north, and the degree along which each leads the farthest.
const STEPS: [(i64, i64, Option<u16>); 25] = [
    (0, 7, Some(0)),
    (7, 7, Some(45)),
    (7, 0, Some(90)),
    (7, -7, Some(135)),
    (0, -7, Some(180)),
    (-7, -7, Some(225)),
    (-7, 0, Some(270)),
    (-7, 7, Some(315)),
    (0, 0, None),
    (0, FAR, Some(0)),
    (FAR, FAR, Some(45)),
    (FAR, 0, Some(90)),
    (FAR, -FAR, Some(135)),
    (0, -FAR, Some(180)),
    (-FAR, -FAR, Some(225)),
    (-FAR, 0, Some(270)),
    (-FAR, FAR, Some(315)),
    (FAR, -1, Some(90)),
    (-1, FAR, Some(0)),
    // Along the degree beside it the step leads as far.
    (2, 175, Some(0)),
    (-2, 175, Some(0)),
    (1, 2, Some(26)),
    (1, -2, Some(153)),
    (-198, -99, Some(243)),
    (-198, 99, Some(296)),
];

#[test]
fn steps(rt: HostRuntime) {
    for (east, north, degree) in &STEPS {
        assert!(rt; -FAR <= *east && *east <= FAR);
        assert!(rt; -FAR <= *north && *north <= FAR);
        assert!(rt; bearing(*east, *north) == *degree, "{east} {north}");
    }
}

#[test]
fn own_direction(rt: HostRuntime) {
    for degree in 0..360 {
        assert_eq!(rt;
            bearing(sin4(degree) as i64, cos4(degree) as i64),
            Some(degree)
        );
    }
}

// Degrees with their sines and cosines.
const SINES: [(u16, i32, i32); 6] = [
    (0, 0, 10_000),
    (90, 10_000, 0),
    (180, 0, -10_000),
    (270, -10_000, 0),
    (359, -175, 9_998),
    (150, 5_000, -8_660),
];

#[test]
fn sines(rt: HostRuntime) {
    for (degree, sine, cosine) in &SINES {
        assert!(rt; *degree < 360);
        assert!(rt; sin4(*degree) == *sine, "{degree}");
        assert!(rt; cos4(*degree) == *cosine, "{degree}");
    }
}

#[test]
fn distances(rt: HostRuntime) {
    let here = spot(0, 0);
    assert!(rt; within(&here, &spot(3_000, -4_000), 5_000));
    assert!(rt; !within(&here, &spot(3_000, -4_001), 5_000));
    assert!(rt; within(&here, &here, 0));
    assert!(rt; !within(&spot(-EDGE, -EDGE), &spot(EDGE, EDGE), EDGE));
    assert_eq!(rt;
        distance_squared(&spot(-EDGE, -EDGE), &spot(EDGE, EDGE)),
        8_000_000_000_000_000_000_000_000
    );
}

// Numbers and their roots.
const ROOTS: [(u128, u64); 5] = [
    (0, 0),
    (15, 3),
    (16, 4),
    (8_000_000_000_000_000_000_000_000, 2_828_427_124_746),
    (u128::MAX, u64::MAX),
];

#[test]
fn roots(rt: HostRuntime) {
    for (number, root) in &ROOTS {
        assert!(rt; isqrt(*number) == *root, "{number}");
    }
}

#[test]
fn convexity(rt: HostRuntime) {
    assert!(rt; convex(&[spot(0, 0), spot(4, 0), spot(4, 4), spot(0, 4)]));
    assert!(rt; convex(&[spot(0, 0), spot(0, 4), spot(4, 4), spot(4, 0)]));
    assert!(rt; convex(&[spot(-EDGE, -EDGE), spot(EDGE, -EDGE), spot(0, EDGE)]));
    assert!(rt; !convex(&[spot(0, 0), spot(2, 0), spot(4, 0), spot(0, 4)]));
    assert!(rt; !convex(&[spot(0, 0), spot(0, 0), spot(4, 0), spot(0, 4)]));
    assert!(rt; !convex(&[spot(0, 0), spot(4, 4), spot(4, 0), spot(0, 4)]));
    assert!(rt; !convex(&[spot(0, 0), spot(4, 0)]));
}

// A spot up to the edge.
fn spot_within(rt: &impl Abort, x: i64, y: i64) -> Spot
    ensures { IsTrue (is_spot result) }
{
    assert!(rt; -EDGE <= x && x <= EDGE);
    assert!(rt; -EDGE <= y && y <= EDGE);
    Spot { x, y }
}

/// Whether a spot lies inside the square from (0, 0) to (4, 4), its vertices in both orders.
fn both_ways(p: &Spot) -> (bool, bool)
    requires p { IsTrue (is_spot p.now) }
{
    let anticlockwise = [spot(0, 0), spot(4, 0), spot(4, 4), spot(0, 4)];
    let clockwise = [spot(0, 0), spot(0, 4), spot(4, 4), spot(4, 0)];
    (inside(&anticlockwise, p), inside(&clockwise, p))
}

// Spots, and whether each lies inside the square.
const SPOTS: [(i64, i64, bool); 9] = [
    (2, 2, true),
    (4, 2, true),
    (0, 1, true),
    (4, 4, true),
    (0, 0, true),
    (5, 2, false),
    (-1, 2, false),
    (2, -1, false),
    (4, 5, false),
];

#[test]
fn borders(rt: HostRuntime) {
    for (x, y, is_inside) in &SPOTS {
        let spot = spot_within(&rt, *x, *y);
        assert!(rt; both_ways(&spot) == (*is_inside, *is_inside), "{x} {y}");
    }
}
