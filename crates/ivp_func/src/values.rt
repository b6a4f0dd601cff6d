// The value at a point, and the ends of what a piece is worth over its box.
ghost use Rattle.std.specs.Prelude.{◌≡◌, ℕ, ◌<◌, ◌≤◌, pos, ◌*ℤ◌, ◌≤ℤ◌, slice_index, false, IsTrue, IfSome, IfNone};
ghost use Rattle.ivp_domain.specs.Boxes.{is_box};
ghost use Rattle.ivp_domain.specs.Domains.{is_point};
ghost use Rattle.ivp_func.specs.Functions.{HasValues, IsPartition, IsTop};
ghost use Rattle.ivp_func.specs.Pieces.{are_pieces_of, piece_has, is_small, is_value, slope_on, value_at, piece_value};

use crate::piece::{Piece, holds, value};
use ivp_domain::{Domain, Point};

/// The greatest value that a function may have.
const MOST: i64 = 100_000;

/// The value at a point: that of the first piece that holds it, 0 if none does.
pub(crate) fn value_at(domain: &Domain, pieces: &[Piece], point: &Point) -> i64
    requires { IsTrue (are_pieces_of domain.now pieces.now) }
    ensures { result ≡ value_at pieces.now point.now }
{
    for piece in pieces {
        if holds(piece, point) {
            return value(piece, point);
        }
    }
    0
}

/// The place of a box on an axis where a piece rises to its most there.
fn high_place(piece: &Piece, axis: usize) -> u32
    requires axis { axis < 4 }
    requires some { slice_index piece.now.area.low axis ≤ slice_index piece.now.area.high axis }
    ensures low { slice_index piece.now.area.low axis ≤ result }
    ensures high { result ≤ slice_index piece.now.area.high axis }
    ensures most { (x : ℕ) → slice_index piece.now.area.low axis ≤ x → x ≤ slice_index piece.now.area.high axis → (slope_on axis piece.now *ℤ pos x) ≤ℤ (slope_on axis piece.now *ℤ pos result) }
{
    if piece.slope[axis] > 0 {
        piece.area.high[axis]
    } else {
        piece.area.low[axis]
    }
}

/// The place of a box on an axis where a piece falls to its least there.
fn low_place(piece: &Piece, axis: usize) -> u32
    requires axis { axis < 4 }
    requires some { slice_index piece.now.area.low axis ≤ slice_index piece.now.area.high axis }
    ensures low { slice_index piece.now.area.low axis ≤ result }
    ensures high { result ≤ slice_index piece.now.area.high axis }
    ensures least { (x : ℕ) → slice_index piece.now.area.low axis ≤ x → x ≤ slice_index piece.now.area.high axis → (slope_on axis piece.now *ℤ pos result) ≤ℤ (slope_on axis piece.now *ℤ pos x) }
{
    if piece.slope[axis] < 0 {
        piece.area.high[axis]
    } else {
        piece.area.low[axis]
    }
}

/// The corner of the piece's box where its value is greatest.
fn high_corner(piece: &Piece) -> Point
    requires { IsTrue (is_box piece.now.area) }
    ensures inside { IsTrue (piece_has result piece.now) }
    ensures greatest { (p : Point) → IsTrue (piece_has p piece.now) → piece_value piece.now p ≤ℤ piece_value piece.now result }
{
    let one = high_place(piece, 0);
    let two = high_place(piece, 1);
    let three = high_place(piece, 2);
    let four = high_place(piece, 3);
    Point {
        at: [one, two, three, four],
    }
}

/// The corner of the piece's box where its value is least.
fn low_corner(piece: &Piece) -> Point
    requires { IsTrue (is_box piece.now.area) }
    ensures inside { IsTrue (piece_has result piece.now) }
    ensures least { (p : Point) → IsTrue (piece_has p piece.now) → piece_value piece.now result ≤ℤ piece_value piece.now p }
{
    let one = low_place(piece, 0);
    let two = low_place(piece, 1);
    let three = low_place(piece, 2);
    let four = low_place(piece, 3);
    Point {
        at: [one, two, three, four],
    }
}

/// A point of the piece whose value is out of range.
fn out_in(piece: &Piece) -> Option<Point>
    requires proper { IsTrue (is_box piece.now.area) }
    requires small { IsTrue (is_small piece.now) }
    ensures some { IfSome result (λ p. IsTrue (piece_has p piece.now) × (is_value (piece_value piece.now p) ≡ false)) }
    ensures none { IfNone result ((p : Point) → IsTrue (piece_has p piece.now) → IsTrue (is_value (piece_value piece.now p))) }
{
    let high = high_corner(piece);
    if value(piece, &high) > MOST {
        return Some(high);
    }
    let low = low_corner(piece);
    if value(piece, &low) < 0 {
        return Some(low);
    }
    None
}

/// A point of the domain where the value is out of range.
pub(crate) fn point_out(domain: &Domain, pieces: &[Piece]) -> Option<Point>
    requires fit { IsTrue (are_pieces_of domain.now pieces.now) }
    requires partition { IsPartition domain.now pieces.now }
    ensures some { IfSome result (λ p. IsTrue (is_point domain.now p) × (is_value (value_at pieces.now p) ≡ false)) }
    ensures none { IfNone result (HasValues domain.now pieces.now) }
{
    for piece in pieces {
        if let Some(point) = out_in(piece) {
            return Some(point);
        }
    }
    None
}

/// The greatest value.
pub(crate) fn top(domain: &Domain, pieces: &[Piece]) -> i64
    requires fit { IsTrue (are_pieces_of domain.now pieces.now) }
    requires partition { IsPartition domain.now pieces.now }
    ensures { IsTop domain.now pieces.now result }
{
    let mut top = value_at(domain, pieces, &Point { at: [0; 4] });
    for piece in pieces {
        top = top.max(value(piece, &high_corner(piece)));
    }
    top
}
