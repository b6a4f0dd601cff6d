// Which places of a domain a grid keeps: on an axis that every piece spans the first one alone.
ghost use Rattle.std.specs.Prelude.{◌≡◌, ◌<◌, IsTrue};
ghost use Rattle.std.specs.List.{list_all};
ghost use Rattle.ivp_domain.specs.Domains.{is_domain};
ghost use Rattle.ivp_func.specs.Kept.{kept_axes, kept_to, spans};

use crate::cuts::Cuts;
use crate::piece::Piece;
use ivp_domain::Domain;

/// Whether the piece has all places of this axis, up to the last one.
fn spans(piece: &Piece, axis: usize, last: u32) -> bool
    requires { axis < 4 }
    ensures { result ≡ spans axis last piece.now }
{
    piece.area.low[axis] == 0 && piece.area.high[axis] == last
}

/// Whether each of the pieces does.
fn all_span(pieces: &[Piece], axis: usize, last: u32) -> bool
    requires { axis < 4 }
    ensures { result ≡ list_all (spans axis last) pieces.now }
{
    pieces.iter().all(|piece| spans(piece, axis, last))
}

/// The last place that is kept of this axis.
fn kept_to(pieces: &[Piece], axis: usize, last: u32) -> u32
    requires { axis < 4 }
    ensures { result ≡ kept_to axis last pieces.now }
{
    // All places of such an axis have the same pieces.
    if all_span(pieces, axis, last) {
        0
    } else {
        last
    }
}

/// The cells of the places that are kept.
pub(crate) fn kept_cuts(domain: &Domain, pieces: &[Piece]) -> Cuts
    ensures cuts { result ≡ kept_axes domain.now pieces.now }
    ensures domain { IsTrue (is_domain domain.now) }
{
    let last = domain.whole().high;
    let kept = [
        kept_to(pieces, 0, last[0]),
        kept_to(pieces, 1, last[1]),
        kept_to(pieces, 2, last[2]),
        kept_to(pieces, 3, last[3]),
    ];
    Cuts::of(domain.axes(), kept)
}
