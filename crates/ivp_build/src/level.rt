// The function that is the same everywhere.
ghost use Rattle.std.specs.Prelude.{◌≡◌, IfOk, IsTrue};
ghost use Rattle.ivp_domain.specs.declared.boxes.Point.{Point};
ghost use Rattle.ivp_domain.specs.Domains.{is_point};
ghost use Rattle.ivp_func.specs.Pieces.{is_value, value_at};
ghost use Rattle.ivp_build.specs.Builders.{flat_pieces};

use ivp_domain::Domain;
use ivp_func::{Func, Piece};
use std::alloc::{AllocError, Global};

/// One value over the whole domain, from 0 to 100,000.
pub fn flat(alloc: Global, domain: &Domain, value: i64) -> Result<Func, AllocError>
    requires { IsTrue (is_value value) }
    ensures pieces { IfOk result (λ func. func ≡ record { axes = domain.now; pieces = flat_pieces domain.now value }) }
    ensures value { IfOk result (λ func. (p : Point) → IsTrue (is_point domain.now p) → value_at func.pieces p ≡ value) }
{
    let piece = Piece {
        area: domain.whole(),
        base: value,
        slope: [0; 4],
    };
    let mut pieces = Vec::new(alloc);
    pieces.push(piece)?;
    let func = Func::of_pieces(alloc, domain, pieces)?;
    Ok(func)
}
