// A piece: a box and the plane over it.
ghost use Rattle.std.specs.Prelude.{◌≡◌, ◌<◌, ◌≤ℤ◌, neg_ℤ, pos, ◌*◌, ◌^◌, IsTrue};
ghost use Rattle.ivp_domain.specs.Boxes.{has_place};
ghost use Rattle.ivp_func.specs.Pieces.{piece_has, is_slope, is_small, rise_on, slope_on, piece_value};

use ivp_domain::{BoxN, Point};

/// A linear function on a box: its value at a point is `base` plus the slopes times the places.
#[derive(Clone, Copy, Debug, PartialEq, Eq)]
pub struct Piece {
    pub area: BoxN,
    pub base: i64,
    pub slope: [i64; 4],
}

/// The point has a place of the box on this axis.
fn has_place(area: &BoxN, point: &Point, axis: usize) -> bool
    requires { axis < 4 }
    ensures { result ≡ has_place axis area.now point.now }
{
    area.low[axis] <= point.at[axis] && point.at[axis] <= area.high[axis]
}

/// The piece's box has the point.
pub(crate) fn holds(piece: &Piece, point: &Point) -> bool
    ensures { result ≡ piece_has point.now piece.now }
{
    has_place(&piece.area, point, 0)
        && has_place(&piece.area, point, 1)
        && has_place(&piece.area, point, 2)
        && has_place(&piece.area, point, 3)
}

/// What an axis adds to a value: slope times place.
fn rise(piece: &Piece, point: &Point, axis: usize) -> i64
    requires axis { axis < 4 }
    requires small { IsTrue (is_slope (slope_on axis piece.now)) }
    ensures rise { result ≡ rise_on axis piece.now point.now }
    ensures above { neg_ℤ (pos (10 ^ 5 * 2 ^ 32)) ≤ℤ result }
    ensures below { result ≤ℤ pos (10 ^ 5 * 2 ^ 32) }
{
    piece.slope[axis] * point.at[axis] as i64
}

/// The value of a piece at a point.
pub(crate) fn value(piece: &Piece, point: &Point) -> i64
    requires { IsTrue (is_small piece.now) }
    ensures { result ≡ piece_value piece.now point.now }
{
    piece.base
        + rise(piece, point, 0)
        + rise(piece, point, 1)
        + rise(piece, point, 2)
        + rise(piece, point, 3)
}

/// Only a piece that is the same in all passes.
fn is_same(a: &Piece, b: &Piece) -> bool
    ensures { IsTrue result → a.now ≡ b.now }
{
    a == b
}

/// Only pieces that are the same in all, in the same order, pass.
pub(crate) fn are_same(a: &[Piece], b: &[Piece]) -> bool
    ensures { IsTrue result → a.now ≡ b.now }
{
    if a.len() != b.len() {
        return false;
    }
    for place in 0..a.len() {
        if !is_same(&a[place], &b[place]) {
            return false;
        }
    }
    true
}
