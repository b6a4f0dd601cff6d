// Functions that depend on one axis alone, by the pieces along it.
ghost use Rattle.std.specs.Prelude.{◌≡◌, ◌≤◌, ◌<◌, ◌^◌, length, map, pos, neg_ℤ, ◌*ℤ◌, ◌≤ℤ◌, ◌*◌, slice_index, IfOk, IsTrue, EachIndex};
ghost use Rattle.ivp_domain.specs.declared.boxes.Point.{Point};
ghost use Rattle.ivp_domain.specs.Domains.{is_point, size_on};
ghost use Rattle.ivp_func.specs.Pieces.{value_at};
ghost use Rattle.ivp_build.specs.Builders.{piece_over, pieces_along};
ghost use Rattle.ivp_build.specs.Cuts.{band};
ghost use Rattle.ivp_build.specs.Ends.{runs_by};
ghost use Rattle.ivp_build.specs.Shapes.{IsProfileOf, utility_along};

use crate::ends::ends;
use crate::places::axis_on;
use crate::profile::Profile;
use ivp_domain::{BoxN, Domain};
use ivp_func::{Func, Piece};
use std::alloc::{AllocError, Global};

/// A run of one axis, over the whole of the other axes.
fn band(domain: &Domain, axis: u32, low: u32, high: u32) -> BoxN
    requires axis { axis < 4 }
    ensures { result ≡ band domain.now axis (record { low = low; high = high }) }
{
    let mut area = domain.whole();
    area.low[axis as usize] = low;
    area.high[axis as usize] = high;
    area
}

/// What the places below one add: the change times their number.
pub(crate) fn rise(change: i64, low: u32) -> i64
    requires least { neg_ℤ (pos 100000) ≤ℤ change }
    requires most { change ≤ℤ pos 100000 }
    requires low { low < 2 ^ 28 }
    ensures rise { result ≡ change *ℤ pos low }
    ensures above { neg_ℤ (pos (10 ^ 5 * 2 ^ 28)) ≤ℤ result }
    ensures below { result ≤ℤ pos (10 ^ 5 * 2 ^ 28) }
{
    change * low as i64
}

/// The piece of a shape over a run of an axis: its slope is that of the run's zone and side, and
/// its base fits the low end.
fn piece_over(
    domain: &Domain,
    axis: u32,
    profile: &Profile,
    count: u32,
    low: u32,
    high: u32,
) -> Piece
    requires axis { axis < 4 }
    requires few { count ≤ 2 ^ 28 }
    requires profile { IsProfileOf count profile.now }
    requires low { low < count }
    ensures { result ≡ piece_over domain.now axis profile.now (record { low = low; high = high }) }
{
    let change = profile.change(low, count);
    let mut slope = [0; 4];
    slope[axis as usize] = change;
    Piece {
        area: band(domain, axis, low, high),
        base: profile.utility(low, count) - rise(change, low),
        slope,
    }
}

/// The pieces of a shape along an axis, one for each cut: the run up to each of these ends.
fn pieces_by(
    alloc: Global,
    domain: &Domain,
    axis: u32,
    profile: &Profile,
    count: u32,
    ends: &[u32; 9],
) -> Result<Vec<Piece>, AllocError>
    requires axis { axis < 4 }
    requires few { count ≤ 2 ^ 28 }
    requires profile { IsProfileOf count profile.now }
    requires within { EachIndex ends.now (λ k. slice_index ends.now k ≤ count) }
    ensures { IfOk result (λ pieces. pieces.items ≡ map (piece_over domain.now axis profile.now) (runs_by 0 ends.now)) }
{
    let mut pieces = Vec::new(alloc);
    let mut low = 0;
    for end in ends {
        if low < *end {
            pieces.push(piece_over(domain, axis, profile, count, low, *end - 1))?;
            low = *end;
        }
    }
    Ok(pieces)
}

/// The function of a shape along an axis: its pieces are the shape's, and its value at each point
/// is the utility at the point's place.
pub(crate) fn func_along(
    alloc: Global,
    domain: &Domain,
    axis: u32,
    profile: &Profile,
) -> Result<Func, AllocError>
    requires axis { axis < length domain.now }
    requires profile { IsProfileOf (size_on axis domain.now) profile.now }
    ensures pieces { IfOk result (λ func. func ≡ record { axes = domain.now; pieces = pieces_along domain.now axis profile.now }) }
    ensures value { IfOk result (λ func. (p : Point) → IsTrue (is_point domain.now p) → value_at func.pieces p ≡ pos (utility_along profile.now (slice_index p.at axis))) }
    ensures few { IfOk result (λ func. length func.pieces ≤ 9) }
{
    let count = axis_on(domain, axis).points;
    let pieces = pieces_by(alloc, domain, axis, profile, count, &ends(profile, count))?;
    let func = Func::of_pieces(alloc, domain, pieces)?;
    Ok(func)
}
