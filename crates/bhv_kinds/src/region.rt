// Operating regions.
ghost use Rattle.std.specs.Prelude.{◌≡◌, true, IfSome, IsTrue};
ghost use Rattle.helm_geo.specs.Plane.{is_spot};
ghost use Rattle.bhv_file.specs.Ranges.{are_vertices};
ghost use Rattle.bhv_kinds.specs.Regions.{depth_fault, late_fault, outside_fault};

use bhv_file::{BhvFault, Spots};
use helm_geo::{Spot, inside};

/// The fault of a position against a polygon, if there is one.
pub fn outside_fault(polygon: &Option<Spots>, here: Option<Spot>) -> Option<BhvFault>
    requires polygon { IfSome polygon.now (λ vertices. IsTrue (are_vertices true vertices)) }
    requires here { IfSome here (λ spot. IsTrue (is_spot spot)) }
    ensures { result ≡ outside_fault polygon.now here }
{
    let Some(polygon) = polygon else {
        return None;
    };
    let Some(here) = here else {
        return Some(BhvFault::NoPosition);
    };
    if inside(polygon.all(), &here) {
        None
    } else {
        Some(BhvFault::OutsidePolygon)
    }
}

/// The fault of a depth against the greatest one, if both are known.
pub fn depth_fault(limit: Option<i64>, depth: Option<i64>) -> Option<BhvFault>
    ensures { result ≡ depth_fault limit depth }
{
    match (limit, depth) {
        (Some(limit), Some(depth)) => if limit < depth {
            Some(BhvFault::TooDeep)
        } else {
            None
        },
        _ => None,
    }
}

/// The fault of the time since the first step against the longest one, if there is one.
pub fn late_fault(limit: Option<u64>, time: u64) -> Option<BhvFault>
    ensures { result ≡ late_fault limit time }
{
    match limit {
        Some(limit) if limit <= time => Some(BhvFault::TooLate),
        _ => None,
    }
}
