// Functions with one peak along an axis.
ghost use Rattle.std.specs.Prelude.{◌≡◌, ◌<◌, ◌≤◌, ◌^◌, length, pos, slice_index, if◌then◌else◌, IfOk, IsTrue};
ghost use Rattle.ivp_domain.specs.declared.boxes.Point.{Point};
ghost use Rattle.ivp_domain.specs.Axes.{is_end, is_good_axis};
ghost use Rattle.ivp_domain.specs.Domains.{is_point, size_on};
ghost use Rattle.ivp_func.specs.Pieces.{value_at};
ghost use Rattle.ivp_build.specs.declared.crest.Crest.{Crest};
ghost use Rattle.ivp_build.specs.Builders.{peak_pieces};
ghost use Rattle.ivp_build.specs.Places.{axis_on, near, wraps};
ghost use Rattle.ivp_build.specs.Shapes.{AreSlopes, IsCrestOf, IsPeak, peak_at, peak_slopes};

use crate::along::func_along;
use crate::crest::Crest;
use crate::near::{near, wraps};
use crate::places::{axis_on, steps_of};
use crate::profile::Profile;
use crate::shape::Peak;
use crate::slopes::Slopes;
use ivp_domain::{Axis, Domain};
use ivp_func::Func;
use std::alloc::{AllocError, Global};

/// The slopes of a peak: one loss over the width of its top, then to 0 over that of its foot.
fn peak_slopes(axis: &Axis, shape: &Peak) -> Slopes
    requires good { IsTrue (is_good_axis axis.now) }
    requires few { axis.now.points ≤ 2 ^ 28 }
    requires peak { IsPeak shape.now }
    ensures slopes { result ≡ peak_slopes axis.now shape.now }
    ensures sound { AreSlopes result }
{
    let top = steps_of(axis, shape.peakwidth);
    Slopes {
        max: shape.max as u64,
        fall: (shape.summitdelta as u64 as u128 / top) as u64,
        top,
        foot: steps_of(axis, shape.basewidth),
    }
}

/// Where a peak is greatest: at the place nearest to its summit.
fn peak_crest(domain: &Domain, axis: u32, summit: i64) -> Crest
    requires axis { axis < length domain.now }
    requires summit { IsTrue (is_end summit) }
    ensures crest { result ≡ (if wraps (axis_on domain.now axis) then Crest.Round (near (axis_on domain.now axis) summit) (axis_on domain.now axis).points else Crest.At (near (axis_on domain.now axis) summit)) }
    ensures within { IsCrestOf (size_on axis domain.now) result }
{
    let along = axis_on(domain, axis);
    let place = near(domain, axis, summit);
    if wraps(&along) {
        Crest::Round(place, along.points)
    } else {
        Crest::At(place)
    }
}

/// A peak along an axis: `max` at the place nearest to the summit, the least of several. Over the
/// places that `peakwidth` spans it falls by `summitdelta`, and over those that `basewidth` spans
/// from there to 0. On an axis of all courses of a circle it goes round the circle.
pub fn peak(alloc: Global, domain: &Domain, axis: u32, shape: &Peak) -> Result<Func, AllocError>
    requires axis { axis < length domain.now }
    requires peak { IsPeak shape.now }
    ensures pieces { IfOk result (λ func. func ≡ record { axes = domain.now; pieces = peak_pieces domain.now axis shape.now }) }
    ensures value { IfOk result (λ func. (p : Point) → IsTrue (is_point domain.now p) → value_at func.pieces p ≡ pos (peak_at (axis_on domain.now axis) shape.now (slice_index p.at axis))) }
    ensures few { IfOk result (λ func. length func.pieces ≤ 9) }
{
    let profile = Profile {
        slopes: peak_slopes(&axis_on(domain, axis), shape),
        crest: peak_crest(domain, axis, shape.summit),
    };
    func_along(alloc, domain, axis, &profile)
}
