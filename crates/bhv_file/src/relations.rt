// What has to hold of a behaviour's parameters together.
ghost use Rattle.std.specs.Prelude.{◌≡◌};
ghost use Rattle.bhv_file.specs.Params.{keeps_relations, lacks_places};

use crate::spec::Shape;

/// Whether a list of places isn't given, or a station that isn't taken anew.
pub fn lacks_places(shape: &Shape) -> bool
    ensures { result ≡ lacks_places shape.now }
{
    match shape {
        Shape::Waypoint { points, .. } => points.len() == 0,
        Shape::Loiter { polygon, .. } => polygon.len() == 0,
        Shape::StationKeep {
            station_pt,
            center_activate,
            ..
        } => !(station_pt.is_some() || *center_activate),
        _ => false,
    }
}

/// Whether the outer radius of a station is above the inner one, and the far distance of a contact above the near one.
pub fn keeps_relations(shape: &Shape) -> bool
    ensures { result ≡ keeps_relations shape.now }
{
    match shape {
        Shape::StationKeep {
            inner_radius,
            outer_radius,
            ..
        } => *inner_radius < *outer_radius,
        Shape::AvoidCollision(avoidance) => avoidance.near < avoidance.far,
        _ => true,
    }
}
