// Lists of points: how far a behaviour has come, and what captures its next point.
ghost use Rattle.std.specs.Prelude.{◌≡◌, ◌≤◌, ◌^◌, pos, ◌≤ℤ◌, nat_abs, ◌&&◌, min, length, IfSome, IsTrue, true};
ghost use Rattle.helm_geo.specs.Plane.{is_spot};
ghost use Rattle.helm_geo.specs.Polygons.{are_spots};
ghost use Rattle.bhv_file.specs.Ranges.{InRanges};
ghost use Rattle.bhv_kinds.specs.Targets.{captures_at, has_slipped, headway_after, is_captured, is_last, is_last_of, may_repeat, spot_at, target_number, with_captured};

use bhv_file::Shape;
use helm_geo::{Spot, distance_squared, within};

/// How far a waypoint behaviour has come: the captured points of its list, and how often it began the list again.
#[derive(Clone, Copy)]
pub struct Headway {
    pub captured: usize,
    pub again: u32,
}

/// The greatest limit of repeats, up to which they are counted.
const MOST_REPEATS: u32 = 1_000_000;

/// The place of this number in a list, and the origin past its end.
pub fn spot_at(places: &[Spot], number: usize) -> Spot
    requires { IsTrue (are_spots places.now) }
    ensures spot { result ≡ spot_at places.now number }
    ensures within { IsTrue (is_spot result) }
{
    match places.get(number) {
        Some(spot) => *spot,
        None => Spot { x: 0, y: 0 },
    }
}

// Whether the vehicle was within the slip radius of a target and is farther away now.
fn has_slipped(slip: i64, target: &Spot, before: Option<Spot>, now: &Spot) -> bool
    requires low { pos 0 ≤ℤ slip }
    requires high { slip ≤ℤ pos (10 ^ 9) }
    requires target { IsTrue (is_spot target.now) }
    requires before { IfSome before (λ spot. IsTrue (is_spot spot)) }
    requires now { IsTrue (is_spot now.now) }
    ensures { result ≡ has_slipped (nat_abs slip) target.now before now.now }
{
    match before {
        Some(before) => {
            within(&before, target, slip)
                && distance_squared(&before, target) < distance_squared(now, target)
        },
        None => false,
    }
}

/// The radii of a target, in thousandths: it is captured within one, and slipped past within the other.
#[derive(Clone, Copy)]
pub struct Radii {
    pub capture: i64,
    pub slip: i64,
}

/// Whether a target is captured: within the capture radius, or if it was the target before and is slipped past.
pub fn is_captured(
    radii: &Radii,
    target: &Spot,
    same: bool,
    before: Option<Spot>,
    now: &Spot,
) -> bool
    requires capture_low { pos 0 ≤ℤ radii.now.capture }
    requires capture_high { radii.now.capture ≤ℤ pos (10 ^ 9) }
    requires slip_low { pos 0 ≤ℤ radii.now.slip }
    requires slip_high { radii.now.slip ≤ℤ pos (10 ^ 9) }
    requires target { IsTrue (is_spot target.now) }
    requires before { IfSome before (λ spot. IsTrue (is_spot spot)) }
    requires now { IsTrue (is_spot now.now) }
    ensures { result ≡ is_captured (nat_abs radii.now.capture) (nat_abs radii.now.slip) target.now same before now.now }
{
    within(now, target, radii.capture) || (same && has_slipped(radii.slip, target, before, now))
}

/// The number in a list of `count` points of the one behind `captured` others, in the list's order or from its end.
pub fn target_number(count: usize, reverse: bool, captured: usize) -> usize
    ensures { result ≡ target_number count reverse captured }
{
    if reverse {
        count.saturating_sub(1).saturating_sub(captured)
    } else {
        captured
    }
}

/// Whether a step captures the target of a waypoint behaviour, whose list was taken from its end in the last step or not.
#[tactic(auto, using(crate::proofs::Placed::places_are))]
pub fn captures(
    shape: &Shape,
    reversed: bool,
    captured: usize,
    before: Option<Spot>,
    here: Option<Spot>,
) -> bool
    requires ranges { InRanges true shape.now }
    requires before { IfSome before (λ spot. IsTrue (is_spot spot)) }
    requires here { IfSome here (λ spot. IsTrue (is_spot spot)) }
    ensures { result ≡ captures_at shape.now reversed captured before here }
{
    let Shape::Waypoint {
        points,
        capture_radius,
        slip_radius,
        reverse,
        ..
    } = shape
    else {
        return false;
    };
    let Some(now) = here else {
        return false;
    };
    let target = target_number(points.len(), *reverse, captured);
    let same = target == target_number(points.len(), reversed, captured);
    let radii = Radii {
        capture: *capture_radius,
        slip: *slip_radius,
    };
    is_captured(&radii, &spot_at(points.all(), target), same, before, &now)
}

// Whether the list may be begun again.
fn may_repeat(repeat: Option<u32>, again: u32) -> bool
    ensures { result ≡ may_repeat repeat again }
{
    match repeat {
        Some(limit) => again < limit,
        None => true,
    }
}

// Whether the last point is captured next, and there are no repeats left.
fn is_last_of(points: &[Spot], repeat: Option<u32>, headway: &Headway) -> bool
    requires { headway.now.captured ≤ 64 }
    ensures { result ≡ is_last_of points.now repeat headway.now }
{
    points.len() <= headway.captured + 1 && !may_repeat(repeat, headway.again)
}

// Whether a waypoint behaviour is at its last point, and there are no repeats left.
fn is_last(shape: &Shape, headway: &Headway) -> bool
    requires { headway.now.captured ≤ 64 }
    ensures { result ≡ is_last shape.now headway.now }
{
    match shape {
        Shape::Waypoint { points, repeat, .. } => is_last_of(points.all(), *repeat, headway),
        _ => false,
    }
}

/// Whether a step that captures its target or doesn't captures the last one for the last time.
pub fn finishes(shape: &Shape, captured: bool, headway: &Headway) -> bool
    requires { headway.now.captured ≤ 64 }
    ensures { result ≡ (is_last shape.now headway.now && captured) }
{
    is_last(shape, headway) && captured
}

// With one more point captured: after the last the list begins again, and when all is done so do the repeats.
fn with_captured(points: &[Spot], repeat: Option<u32>, headway: &Headway) -> Headway
    requires points { length points.now ≤ 64 }
    requires captured { headway.now.captured ≤ 64 }
    requires again { headway.now.again ≤ 10 ^ 6 }
    ensures captured { result.captured ≡ (with_captured points.now repeat headway.now).captured }
    ensures again { result.again ≡ min (with_captured points.now repeat headway.now).again (10 ^ 6) }
    ensures few { result.captured ≤ 64 }
{
    if is_last_of(points, repeat, headway) {
        Headway {
            captured: 0,
            again: 0,
        }
    } else if headway.captured + 1 < points.len() {
        Headway {
            captured: headway.captured + 1,
            again: headway.again,
        }
    } else {
        Headway {
            captured: 0,
            again: (headway.again + 1).min(MOST_REPEATS),
        }
    }
}

/// How far a behaviour has come after a step that captures its target or doesn't.
#[tactic(auto, using(crate::proofs::Placed::places_are))]
pub fn headway_after(shape: &Shape, captured: bool, headway: &Headway) -> Headway
    requires ranges { InRanges true shape.now }
    requires captured { headway.now.captured ≤ 64 }
    requires again { headway.now.again ≤ 10 ^ 6 }
    ensures captured { result.captured ≡ (headway_after shape.now captured headway.now).captured }
    ensures again { result.again ≡ min (headway_after shape.now captured headway.now).again (10 ^ 6) }
    ensures few { result.captured ≤ 64 }
{
    match shape {
        Shape::Waypoint { points, repeat, .. } if captured => {
            with_captured(points.all(), *repeat, headway)
        },
        _ => *headway,
    }
}
