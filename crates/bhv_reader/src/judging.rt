// Whether a domain has the axes that a behaviour needs.
ghost use Rattle.std.specs.Prelude.{◌≡◌};
ghost use Rattle.bhv_file.specs.Params.{has_axes};

use bhv_file::{Shape, has_axis};
use ivp_domain::Domain;

/// Whether a domain has the axes that a behaviour needs.
pub fn has_axes(domain: &Domain, shape: &Shape) -> bool
    ensures { result ≡ has_axes domain.now shape.now }
{
    match shape {
        Shape::Heading { .. } => has_axis(domain, b"course"),
        Shape::Speed { .. } => has_axis(domain, b"speed"),
        Shape::Depth { .. } | Shape::MaxDepth { .. } => has_axis(domain, b"depth"),
        Shape::Waypoint { .. }
        | Shape::Loiter { .. }
        | Shape::StationKeep { .. }
        | Shape::AvoidCollision(_) => { has_axis(domain, b"course") && has_axis(domain, b"speed") },
        Shape::Timer | Shape::OpRegion { .. } => true,
    }
}
