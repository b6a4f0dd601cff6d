// What a domain must be for a behaviour.
ghost use Rattle.std.specs.Prelude.{◌≡◌, true};
ghost use Rattle.bhv_file.specs.Ranges.{InRanges};
ghost use Rattle.bhv_file.specs.Serving.{has_few_boxes, is_slow, lies_slow, suits};

use crate::axis::{axis_number, has_axis};
use crate::spec::Shape;
use ivp_build::box_count;
use ivp_domain::{Axis, Domain};

// The most pieces of a function.
const MOST_BOXES: u64 = 4096;

// The highest speed over which closest approaches are worked out, in thousandths of a metre a second.
const MOST_SPEED: i64 = 100_000;

// Whether a domain is cut into at most 4,096 boxes of a behaviour's piece size, if it has one.
pub(crate) fn has_few_boxes(domain: &Domain, shape: &Shape) -> bool
    requires { InRanges true shape.now }
    ensures { result ≡ has_few_boxes domain.now shape.now }
{
    match shape {
        Shape::AvoidCollision(avoidance) => {
            box_count(domain, avoidance.piece_size) <= MOST_BOXES
        },
        _ => true,
    }
}

/// Whether a domain suits a behaviour: if that keeps clear of a contact, the axis of speed lies within 0 to 100 m/s, if
/// there is one, and the boxes of its piece size are at most 4,096. It suits every other one.
pub fn suits(domain: &Domain, shape: &Shape) -> bool
    requires { InRanges true shape.now }
    ensures { result ≡ suits domain.now shape.now }
{
    match shape {
        Shape::AvoidCollision(_) => is_slow(domain) && has_few_boxes(domain, shape),
        _ => true,
    }
}

// Whether the axis of speed lies within 0 to 100, if there is one.
#[tactic(auto, using(crate::proofs::Named::axis_named))]
fn is_slow(domain: &Domain) -> bool
    ensures { result ≡ is_slow domain.now }
{
    if !has_axis(domain, b"speed") {
        return true;
    }
    let axis = domain.axis(axis_number(domain, b"speed"));
    lies_slow(&axis)
}

fn lies_slow(axis: &Axis) -> bool
    ensures { result ≡ lies_slow axis.now }
{
    0 <= axis.low && axis.high <= MOST_SPEED
}
