// Whether a piece fits a domain.
ghost use Rattle.std.specs.Prelude.{◌≡◌, ◌<◌, ◌&&◌, nat_lt};
ghost use Rattle.ivp_domain.specs.Domains.{size_on};
ghost use Rattle.ivp_func.specs.Pieces.{are_pieces_of, is_base, is_box_of, is_flat_past, is_piece_of, is_slope, is_small, slope_on};

use crate::piece::Piece;
use ivp_domain::{BoxN, Domain, is_proper};

/// The greatest base, either way.
pub const MOST_BASE: i64 = 100_000_000_000_000;

/// The greatest slope, either way.
pub const MOST_SLOPE: i64 = 100_000;

/// The domain has the place on this axis; past the last axis it has the place 0 alone.
fn has_place(domain: &Domain, axis: u32, place: u32) -> bool
    ensures { result ≡ nat_lt place (size_on axis domain.now) }
{
    if axis < domain.axes() {
        place < domain.axis(axis).points
    } else {
        place < 1
    }
}

/// Whether a box lies in the domain and has points.
pub fn is_box_of(domain: &Domain, area: &BoxN) -> bool
    ensures { result ≡ is_box_of domain.now area.now }
{
    is_proper(area)
        && has_place(domain, 0, area.high[0])
        && has_place(domain, 1, area.high[1])
        && has_place(domain, 2, area.high[2])
        && has_place(domain, 3, area.high[3])
}

fn is_slope(slope: i64) -> bool
    ensures { result ≡ is_slope slope }
{
    -MOST_SLOPE <= slope && slope <= MOST_SLOPE
}

fn is_base(base: i64) -> bool
    ensures { result ≡ is_base base }
{
    -MOST_BASE <= base && base <= MOST_BASE
}

/// The base and the first two slopes are within their bounds.
fn begins_small(piece: &Piece) -> bool
    ensures { result ≡ (is_base piece.now.base && is_slope (slope_on 0 piece.now) && is_slope (slope_on 1 piece.now)) }
{
    is_base(piece.base) && is_slope(piece.slope[0]) && is_slope(piece.slope[1])
}

/// The base and the slopes are within their bounds.
fn is_small(piece: &Piece) -> bool
    ensures { result ≡ is_small piece.now }
{
    begins_small(piece) && is_slope(piece.slope[2]) && is_slope(piece.slope[3])
}

/// There is no slope if the domain has no such axis.
fn is_flat_past(domain: &Domain, axis: u32, piece: &Piece) -> bool
    requires { axis < 4 }
    ensures { result ≡ is_flat_past domain.now axis piece.now }
{
    axis < domain.axes() || (0 <= piece.slope[axis as usize] && piece.slope[axis as usize] <= 0)
}

/// Whether the piece may be in a function over the domain: its box lies in the domain and has
/// points, its base is within -10^14 to 10^14, and its slopes are within -100,000 to 100,000 and 0
/// past the last axis.
pub fn is_piece_of(domain: &Domain, piece: &Piece) -> bool
    ensures { result ≡ is_piece_of domain.now piece.now }
{
    is_box_of(domain, &piece.area)
        && is_small(piece)
        && is_flat_past(domain, 1, piece)
        && is_flat_past(domain, 2, piece)
        && is_flat_past(domain, 3, piece)
}

/// Whether each of the pieces may, which `Func::make` requires.
pub fn are_pieces_of(domain: &Domain, pieces: &[Piece]) -> bool
    ensures { result ≡ are_pieces_of domain.now pieces.now }
{
    pieces.iter().all(|piece| is_piece_of(domain, piece))
}
