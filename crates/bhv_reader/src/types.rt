// The types of behaviours, and what their parameters are if they aren't given.
ghost use Rattle.std.specs.Prelude.{◌≡◌, drop, take};
ghost use Rattle.bhv_file.specs.Table.{defaults_among, defaults_of, needs_number, types};

use bhv_file::{Avoidance, Shape, Spots};
use std::alloc::Global;

/// A behaviour of the type of this name before its first parameter. None exactly if no type has it.
pub fn defaults(alloc: Global, name: &[u8]) -> Option<Shape>
    ensures { result ≡ defaults_of name.now }
{
    match plain_defaults(name) {
        Some(shape) => Some(shape),
        None => placed_defaults(alloc, name),
    }
}

// The same for the types that go nowhere.
fn plain_defaults(name: &[u8]) -> Option<Shape>
    ensures { result ≡ defaults_among name.now (take 5 types) }
{
    if name == b"BHV_ConstantHeading".as_slice() {
        Some(Shape::Heading {
            heading: 0,
            peakwidth: 10_000,
            basewidth: 170_000,
            summitdelta: 25_000,
        })
    } else if name == b"BHV_ConstantSpeed".as_slice() {
        Some(Shape::Speed {
            speed: 0,
            peakwidth: 100,
            basewidth: 1_000,
            summitdelta: 25_000,
        })
    } else if name == b"BHV_ConstantDepth".as_slice() {
        Some(Shape::Depth {
            depth: 0,
            peakwidth: 2_000,
            basewidth: 20_000,
            summitdelta: 25_000,
        })
    } else if name == b"BHV_MaxDepth".as_slice() {
        Some(Shape::MaxDepth {
            max_depth: 0,
            basewidth: 20_000,
        })
    } else if name == b"BHV_Timer".as_slice() {
        Some(Shape::Timer)
    } else {
        None
    }
}

// The same for the types that look at a position.
fn placed_defaults(alloc: Global, name: &[u8]) -> Option<Shape>
    ensures { result ≡ defaults_among name.now (drop 5 types) }
{
    if name == b"BHV_Waypoint".as_slice() {
        Some(Shape::Waypoint {
            points: Spots::new(alloc),
            speed: 0,
            capture_radius: 3_000,
            slip_radius: 15_000,
            reverse: false,
            repeat: Some(0),
        })
    } else if name == b"BHV_Loiter".as_slice() {
        Some(Shape::Loiter {
            polygon: Spots::new(alloc),
            speed: 0,
            capture_radius: 10_000,
            slip_radius: 20_000,
            clockwise: true,
        })
    } else if name == b"BHV_StationKeep".as_slice() {
        Some(Shape::StationKeep {
            station_pt: None,
            center_activate: false,
            inner_radius: 4_000,
            outer_radius: 15_000,
            outer_speed: 1_200,
        })
    } else if name == b"BHV_OpRegion".as_slice() {
        Some(Shape::OpRegion {
            polygon: None,
            max_depth: None,
            max_time: None,
        })
    } else if name == b"BHV_AvoidCollision".as_slice() {
        Some(Shape::AvoidCollision(Avoidance {
            contact: None,
            contact_x: None,
            contact_y: None,
            contact_speed: None,
            contact_heading: None,
            near: 10_000,
            far: 75_000,
            resolved: false,
            piece_size: 12,
        }))
    } else {
        None
    }
}

/// Whether a type has a number without a default.
pub fn needs_number(shape: &Shape) -> bool
    ensures { result ≡ needs_number shape.now }
{
    !matches!(
        shape,
        Shape::Timer | Shape::StationKeep { .. } | Shape::OpRegion { .. } | Shape::AvoidCollision(_)
    )
}
