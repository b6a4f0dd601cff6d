// Sums of two functions of different axes.
ghost use Rattle.std.specs.Prelude.{◌≡◌, ◌+◌, ◌<◌, ◌≤◌, ◌+ℤ◌, ◌++◌, length, IfOk, IfErr, IsTrue, OnOk};
ghost use Rattle.std.specs.Option.{option_to_list};
ghost use Rattle.ivp_domain.specs.declared.boxes.Point.{Point};
ghost use Rattle.ivp_domain.specs.Domains.{is_point};
ghost use Rattle.ivp_func.specs.Pieces.{is_piece_of, is_small, slope_on, value_at};
ghost use Rattle.ivp_build.specs.Faults.{IsTooMany};
ghost use Rattle.ivp_build.specs.Sums.{HaveRoom, couple_at, couple_pieces, slope_apart, met_sum, met_sums};

use crate::fault::BuildFault;
use ivp_domain::meet;
use ivp_func::{Func, MOST_PIECES, Piece, func_law};
use std::alloc::Global;

/// The sum of the bases of two pieces.
fn base_sum(p: &Piece, q: &Piece) -> i64
    requires p { IsTrue (is_small p.now) }
    requires q { IsTrue (is_small q.now) }
    ensures { result ≡ p.now.base +ℤ q.now.base }
{
    p.base + q.base
}

/// The sum of the slopes of two pieces along an axis.
fn slope_sum(p: &Piece, q: &Piece, axis: usize) -> i64
    requires axis { axis < 4 }
    requires p { IsTrue (is_small p.now) }
    requires q { IsTrue (is_small q.now) }
    ensures { result ≡ slope_on axis p.now +ℤ slope_on axis q.now }
{
    p.slope[axis] + q.slope[axis]
}

/// The sum of two pieces on what their boxes have in common. `None` exactly if that is nothing.
fn met_sum(p: &Piece, q: &Piece) -> Option<Piece>
    requires p { IsTrue (is_small p.now) }
    requires q { IsTrue (is_small q.now) }
    ensures { result ≡ met_sum p.now q.now }
{
    match meet(&p.area, &q.area) {
        Some(area) => Some(Piece {
            area,
            base: base_sum(p, q),
            slope: [
                slope_sum(p, q, 0),
                slope_sum(p, q, 1),
                slope_sum(p, q, 2),
                slope_sum(p, q, 3),
            ],
        }),
        None => None,
    }
}

/// Adds a piece, if there is one, to fewer than 4,096.
pub(crate) fn add(pieces: &mut Vec<Piece>, piece: Option<Piece>) -> Result<(), BuildFault>
    requires { length pieces.old.items ≤ 4096 }
    ensures added { OnOk result (pieces.new.items ≡ pieces.old.items ++ option_to_list piece) }
    ensures few { OnOk result (length pieces.new.items ≤ 4096) }
    ensures many { IfErr result (IsTooMany (length pieces.old.items + length (option_to_list piece))) }
{
    let Some(piece) = piece else {
        return Ok(());
    };
    if pieces.len() == MOST_PIECES {
        return Err(BuildFault::TooMany);
    }
    if pieces.push(piece).is_err() {
        return Err(BuildFault::NoMemory);
    }
    Ok(())
}

/// Adds the sums of a piece with those of a function that meet it, in order.
fn add_sums(pieces: &mut Vec<Piece>, one: &Piece, g: &Func) -> Result<(), BuildFault>
    requires one { IsTrue (is_piece_of g.now.axes one.now) }
    requires few { length pieces.old.items ≤ 4096 }
    ensures added { OnOk result (pieces.new.items ≡ pieces.old.items ++ met_sums one.now g.now.pieces) }
    ensures few { OnOk result (length pieces.new.items ≤ 4096) }
    ensures many { IfErr result (IsTooMany (length pieces.old.items + length (met_sums one.now g.now.pieces))) }
{
    func_law(g);
    let mut from = 0;
    while let Some(number) = g.next_meet(&one.area, from) {
        let sum = met_sum(one, &g.piece(number));
        if let Err(fault) = add(pieces, sum) {
            return Err(fault);
        }
        from = number + 1;
    }
    Ok(())
}

/// The sum of two functions over one domain: at each point the sum of their values. Its pieces are those if pieces of
/// both meet, in the first one's order and then in the second's. `TooMany` exactly if these are more than 4,096, unless
/// no memory is left.
pub fn couple(alloc: Global, f: &Func, g: &Func) -> Result<Func, BuildFault>
    requires domain { f.now.axes ≡ g.now.axes }
    requires room { HaveRoom f.now.axes f.now.pieces g.now.pieces }
    requires apart { IsTrue (slope_apart f.now.pieces g.now.pieces) }
    ensures pieces { IfOk result (λ func. func ≡ record { axes = f.now.axes; pieces = couple_pieces f.now.pieces g.now.pieces }) }
    ensures value { IfOk result (λ func. (p : Point) → IsTrue (is_point f.now.axes p) → value_at func.pieces p ≡ couple_at (value_at f.now.pieces) (value_at g.now.pieces) p) }
    ensures few { OnOk result (length (couple_pieces f.now.pieces g.now.pieces) ≤ 4096) }
    ensures many { IfErr result (IsTooMany (length (couple_pieces f.now.pieces g.now.pieces))) }
{
    func_law(f);
    func_law(g);
    let mut pieces = Vec::new(alloc);
    for number in 0..f.len() {
        if let Err(fault) = add_sums(&mut pieces, &f.piece(number), g) {
            return Err(fault);
        }
    }
    match Func::of_pieces(alloc, &f.domain(), pieces) {
        Ok(func) => Ok(func),
        Err(_) => Err(BuildFault::NoMemory),
    }
}
