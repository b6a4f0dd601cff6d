// Functions that fall beyond a limit.
ghost use Rattle.std.specs.Prelude.{◌≡◌, ◌<◌, ◌≤◌, ◌^◌, length, pos, nat_abs, slice_index, IfOk, IsTrue};
ghost use Rattle.ivp_domain.specs.declared.boxes.Point.{Point};
ghost use Rattle.ivp_domain.specs.Axes.{is_end, is_good_axis};
ghost use Rattle.ivp_domain.specs.Domains.{is_point};
ghost use Rattle.ivp_func.specs.Pieces.{is_value, value_at};
ghost use Rattle.ivp_build.specs.Builders.{at_least_pieces, at_most_pieces};
ghost use Rattle.ivp_build.specs.Places.{IsWidth, axis_on};
ghost use Rattle.ivp_build.specs.Shapes.{AreSlopes, at_least_at, at_most_at, limit_slopes};

use crate::along::func_along;
use crate::crest::Crest;
use crate::places::{axis_on, first_from, last_up_to, steps_of};
use crate::profile::Profile;
use crate::slopes::Slopes;
use ivp_domain::{Axis, Domain};
use ivp_func::Func;
use std::alloc::{AllocError, Global};

/// The slopes beyond a limit: to 0 over a width.
fn limit_slopes(axis: &Axis, basewidth: i64, max: i64) -> Slopes
    requires good { IsTrue (is_good_axis axis.now) }
    requires few { axis.now.points ≤ 2 ^ 28 }
    requires basewidth { IsWidth basewidth }
    requires max { IsTrue (is_value max) }
    ensures slopes { result ≡ limit_slopes axis.now (nat_abs basewidth) (nat_abs max) }
    ensures sound { AreSlopes result }
{
    Slopes {
        max: max as u64,
        fall: 0,
        top: 0,
        foot: steps_of(axis, basewidth),
    }
}

/// An upper limit on an axis: `max` up to the last place whose number is at most `limit`, or the
/// first place of all, then evenly down to 0 over the places that `basewidth` spans. All are in
/// thousandths of the axis's unit.
pub fn at_most(
    alloc: Global,
    domain: &Domain,
    axis: u32,
    limit: i64,
    basewidth: i64,
    max: i64,
) -> Result<Func, AllocError>
    requires axis { axis < length domain.now }
    requires limit { IsTrue (is_end limit) }
    requires basewidth { IsWidth basewidth }
    requires max { IsTrue (is_value max) }
    ensures pieces { IfOk result (λ func. func ≡ record { axes = domain.now; pieces = at_most_pieces domain.now axis limit (nat_abs basewidth) (nat_abs max) }) }
    ensures value { IfOk result (λ func. (p : Point) → IsTrue (is_point domain.now p) → value_at func.pieces p ≡ pos (at_most_at (axis_on domain.now axis) limit (nat_abs basewidth) (nat_abs max) (slice_index p.at axis))) }
{
    let along = axis_on(domain, axis);
    let profile = Profile {
        slopes: limit_slopes(&along, basewidth, max),
        crest: Crest::UpTo(last_up_to(&along, limit)),
    };
    func_along(alloc, domain, axis, &profile)
}

/// A lower limit on an axis: `max` from the first place whose number is at least `limit`, or the
/// last place of all, and before it evenly down to 0 over the places that `basewidth` spans. All
/// are in thousandths of the axis's unit.
pub fn at_least(
    alloc: Global,
    domain: &Domain,
    axis: u32,
    limit: i64,
    basewidth: i64,
    max: i64,
) -> Result<Func, AllocError>
    requires axis { axis < length domain.now }
    requires limit { IsTrue (is_end limit) }
    requires basewidth { IsWidth basewidth }
    requires max { IsTrue (is_value max) }
    ensures pieces { IfOk result (λ func. func ≡ record { axes = domain.now; pieces = at_least_pieces domain.now axis limit (nat_abs basewidth) (nat_abs max) }) }
    ensures value { IfOk result (λ func. (p : Point) → IsTrue (is_point domain.now p) → value_at func.pieces p ≡ pos (at_least_at (axis_on domain.now axis) limit (nat_abs basewidth) (nat_abs max) (slice_index p.at axis))) }
{
    let along = axis_on(domain, axis);
    let profile = Profile {
        slopes: limit_slopes(&along, basewidth, max),
        crest: Crest::From(first_from(&along, limit)),
    };
    func_along(alloc, domain, axis, &profile)
}
