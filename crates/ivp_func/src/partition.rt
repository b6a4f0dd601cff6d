// Whether pieces cover a domain, each point once.
ghost use Rattle.std.specs.Prelude.{◌≡◌, ◌≢◌, ℕ, ◌*◌, ◌^◌, ◌<◌, ◌≤◌, length, IsTrue, IfSome, IfNone, nat_lt, slice_index};
ghost use Rattle.ivp_domain.specs.Boxes.{has_point, is_box, volume_of};
ghost use Rattle.ivp_domain.specs.Domains.{is_domain, is_point};
ghost use Rattle.ivp_func.specs.Cells.{HasPieces, IsGrid};
ghost use Rattle.ivp_func.specs.Covering.{covered_in, shared_with, CutOn, SameOn, Shorter};
ghost use Rattle.ivp_func.specs.Functions.{IsPartition};
ghost use Rattle.ivp_func.specs.Grids.{share};
ghost use Rattle.ivp_func.specs.Pieces.{are_pieces_of, count_at, piece_has};

use crate::grid::{Grid, next_meet};
use crate::piece::{Piece, holds};
use ivp_domain::{BoxN, Domain, Point, meet, volume};

/// How many of the pieces hold the point.
pub(crate) fn count(pieces: &[Piece], point: &Point) -> u32
    requires { length pieces.now ≤ 4096 }
    ensures { result ≡ count_at pieces.now point.now }
{
    pieces.iter().filter(|piece| holds(piece, point)).count() as u32
}

/// The point of a box with the least index.
fn first_point(area: &BoxN) -> Point
    ensures { result.at ≡ area.now.low }
{
    Point { at: area.low }
}

/// The least point that two pieces share.
fn shared_point(a: &Piece, b: &Piece) -> Point
    requires { IsTrue (share a.now.area b.now.area) }
    ensures one { IsTrue (piece_has result a.now) }
    ensures other { IsTrue (piece_has result b.now) }
{
    let (one, other) = (a.area.low, b.area.low);
    Point {
        at: [
            one[0].max(other[0]),
            one[1].max(other[1]),
            one[2].max(other[2]),
            one[3].max(other[3]),
        ],
    }
}

/// A point that several pieces hold: none, if no piece meets one behind it.
fn overlap(pieces: &[Piece], grid: Option<&Grid>) -> Option<Point>
    requires few { length pieces.now ≤ 4096 }
    requires grid { IfSome grid (λ grid. HasPieces pieces.now grid.now) }
    ensures some { IfSome result (λ p. 1 < count_at pieces.now p) }
    ensures none { IfNone result ((p : Point) → count_at pieces.now p ≤ 1) }
{
    for (place, piece) in pieces.iter().enumerate() {
        if let Some(other) = next_meet(grid, pieces, &piece.area, place as u32 + 1) {
            return Some(shared_point(piece, &pieces[other as usize]));
        }
    }
    None
}

/// How many points the box and the piece have in common.
fn shared(area: &BoxN, piece: &Piece) -> u64
    requires proper { IsTrue (is_box area.now) }
    requires few { volume_of area.now ≤ 2 ^ 28 }
    ensures shared { result ≡ shared_with area.now piece.now }
    ensures within { result ≤ 2 ^ 28 }
{
    match meet(area, &piece.area) {
        Some(both) => volume(&both),
        None => 0,
    }
}

/// How many points of the box the pieces hold, each counted for itself.
fn covered(area: &BoxN, pieces: &[Piece]) -> u64
    requires proper { IsTrue (is_box area.now) }
    requires few { volume_of area.now ≤ 2 ^ 28 }
    requires pieces { length pieces.now ≤ 4096 }
    ensures { result ≡ covered_in area.now pieces.now }
{
    let mut sum = 0;
    for piece in pieces {
        sum += shared(area, piece);
    }
    sum
}

/// Whether the pieces cover less than the box has.
fn is_short(area: &BoxN, pieces: &[Piece]) -> bool
    requires proper { IsTrue (is_box area.now) }
    requires few { volume_of area.now ≤ 2 ^ 28 }
    requires pieces { length pieces.now ≤ 4096 }
    ensures { result ≡ nat_lt (covered_in area.now pieces.now) (volume_of area.now) }
{
    covered(area, pieces) < volume(area)
}

/// The first axis on which the box has more than one place.
fn wide_axis(area: &BoxN) -> Option<usize>
    ensures some { IfSome result (λ k. (k < 4) × (slice_index area.now.low k < slice_index area.now.high k)) }
    ensures none { IfNone result ((k : ℕ) → k < 4 → slice_index area.now.high k ≤ slice_index area.now.low k) }
{
    for axis in 0..4 {
        if area.low[axis] < area.high[axis] {
            return Some(axis);
        }
    }
    None
}

/// The lower and the upper half of a box along an axis.
fn halves(area: &BoxN, axis: usize) -> (BoxN, BoxN)
    requires axis { axis < 4 }
    requires wide { slice_index area.now.low axis < slice_index area.now.high axis }
    ensures cut { CutOn axis area.now result.0 result.1 }
    ensures same { (k : ℕ) → k ≢ axis → SameOn k area.now result.0 result.1 }
{
    let middle = area.low[axis] + (area.high[axis] - area.low[axis]) / 2;
    let mut left = *area;
    left.high[axis] = middle;
    let mut right = *area;
    right.low[axis] = middle + 1;
    (left, right)
}

/// A half of the box that is covered short, if the box is.
fn short_half(area: &BoxN, axis: usize, pieces: &[Piece]) -> BoxN
    requires axis { axis < 4 }
    requires wide { slice_index area.now.low axis < slice_index area.now.high axis }
    requires proper { IsTrue (is_box area.now) }
    requires few { volume_of area.now ≤ 2 ^ 28 }
    requires pieces { length pieces.now ≤ 4096 }
    requires short { covered_in area.now pieces.now < volume_of area.now }
    ensures { Shorter pieces.now area.now result }
{
    let (left, right) = halves(area, axis);
    if is_short(&left, pieces) { left } else { right }
}

/// A point of a box that no piece holds, if the pieces cover less than the box has: the box is
/// halved until one point is left.
fn gap(area: BoxN, pieces: &[Piece]) -> Point
    requires proper { IsTrue (is_box area) }
    requires few { volume_of area ≤ 2 ^ 28 }
    requires pieces { length pieces.now ≤ 4096 }
    requires short { covered_in area pieces.now < volume_of area }
    ensures inside { IsTrue (has_point area result) }
    ensures none { count_at pieces.now result ≡ 0 }
{
    let mut short = area;
    while let Some(axis) = wide_axis(&short) {
        short = short_half(&short, axis, pieces);
    }
    first_point(&short)
}

/// A point of the domain that no piece holds, or several.
pub(crate) fn misfit(domain: &Domain, pieces: &[Piece], grid: Option<&Grid>) -> Option<Point>
    requires few { length pieces.now ≤ 4096 }
    requires grid { IfSome grid (λ grid. IsGrid domain.now pieces.now grid.now) }
    requires fit { IsTrue (are_pieces_of domain.now pieces.now) }
    ensures some { IfSome result (λ p. IsTrue (is_point domain.now p) × (count_at pieces.now p ≢ 1)) }
    ensures none { IfNone result (IsPartition domain.now pieces.now) }
    ensures domain { IfNone result (IsTrue (is_domain domain.now)) }
{
    if let Some(point) = overlap(pieces, grid) {
        return Some(point);
    }
    let area = domain.whole();
    let points = domain.points();
    if covered(&area, pieces) < points as u64 {
        return Some(gap(area, pieces));
    }
    None
}
