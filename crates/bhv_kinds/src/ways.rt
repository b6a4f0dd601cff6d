// What leads from one place to another.
ghost use Rattle.std.specs.Prelude.{◌≡◌, ◌^◌, ◌<◌, ◌≤◌, List, codes, ◌-ℤ◌, option_map, IfSome, IsTrue};
ghost use Rattle.ivp_domain.specs.declared.axis.Axis.{Axis};
ghost use Rattle.helm_geo.specs.Angles.{bearing};
ghost use Rattle.helm_geo.specs.Plane.{is_spot};
ghost use Rattle.bhv_file.specs.Params.{has_axis};
ghost use Rattle.bhv_kinds.specs.Giving.{towards};
ghost use Rattle.bhv_kinds.specs.Wants.{CanMake, utility_of};

use crate::want::Want;
use helm_geo::{Spot, bearing, east_of, north_of};

// The bearing of a place, and none at the very place.
fn bearing_of(place: &Spot, here: &Spot) -> Option<u16>
    requires place { IsTrue (is_spot place.now) }
    requires here { IsTrue (is_spot here.now) }
    ensures bearing { result ≡ bearing (place.now.x -ℤ here.now.x) (place.now.y -ℤ here.now.y) }
    ensures within { IfSome result (λ degree. degree < 360) }
{
    bearing(east_of(here, place), north_of(here, place))
}

/// To go to a place at a speed from here; none at the very place.
pub fn towards(speed: u64, place: &Spot, here: &Spot) -> Option<Want>
    requires speed { speed ≤ 10 ^ 6 }
    requires place { IsTrue (is_spot place.now) }
    requires here { IsTrue (is_spot here.now) }
    ensures want { option_map utility_of result ≡ towards speed place.now here.now }
    ensures can { (axes : List Axis) → IsTrue (has_axis axes (codes "course")) → IsTrue (has_axis axes (codes "speed")) → IfSome result (CanMake axes) }
{
    match bearing_of(place, here) {
        Some(degree) => Some(Want::Travel { degree, speed }),
        None => None,
    }
}
