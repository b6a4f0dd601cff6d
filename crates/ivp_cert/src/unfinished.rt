// A function whose pieces are still being read.
ghost use Rattle.std.specs.Prelude.{◌≡◌, ◌<◌, [], Ok, Some, length, IfOk, IfErr, IsTrue, OnOk};
ghost use Rattle.moos_text.specs.Refusals.{IsFirst, IsLineFault};
ghost use Rattle.ivp_func.specs.Pieces.{is_box_of, is_piece_of};
ghost use Rattle.ivp_problem.specs.Problems.{is_weight};
ghost use Rattle.ivp_cert.specs.Making.{line_fault};
ghost use Rattle.ivp_cert.specs.Problems.{finished, with_piece};

use crate::terms::Terms;
use ivp_domain::Domain;
use ivp_func::{Func, FuncFault, MOST_PIECES, Piece, is_piece_of};
use ivp_problem::Term;
use moos_text::{Cause, LineFault, ReadFault};
use std::alloc::Global;
use std::marker::Model;

/// The functions so far of a problem that is being read: the finished ones, and the last one, to which pieces may still
/// be added, with the number of its line.
#[derive(Drop)]
pub struct Unfinished {
    before: Terms,
    line: u32,
    weight: u32,
    pieces: Vec<Piece>,
}

impl Model for Unfinished {
    ghost use Rattle.std.specs.Prelude.{◌≡◌, ◌≤◌, ◌<◌, IsTrue, length};
    ghost use Rattle.ivp_func.specs.Pieces.{are_pieces_of};
    ghost use Rattle.ivp_problem.specs.Problems.{is_weight};
    ghost use Rattle.ivp_cert.specs.Unfinished.{UnfinishedSum};

    ghost Value = { UnfinishedSum };

    ghost view = { λ u. record { before = u.before; line = u.line; weight = u.weight; pieces = u.pieces.items } };

    ghost invariant = { λ u.
        (length u.before.terms < 64) × IsTrue (is_weight u.weight) × (length u.pieces.items ≤ 4096) × IsTrue (are_pieces_of u.before.axes u.pieces.items) };
}

fn line_fault(fault: FuncFault) -> LineFault
    ensures { result ≡ line_fault fault }
{
    match fault {
        FuncFault::TooMany => LineFault::Refused(Cause::P7),
        FuncFault::NotPartition { .. } => LineFault::Refused(Cause::P4),
        FuncFault::ValueOut { .. } => LineFault::Refused(Cause::P5),
        FuncFault::NoMemory => LineFault::NoMemory,
    }
}

impl Unfinished {
    /// A function without pieces yet, behind these, with its line and its weight.
    pub fn new(alloc: Global, before: Terms, line: u32, weight: u32) -> Unfinished
        requires few { length before.terms < 64 }
        requires weight { IsTrue (is_weight weight) }
        ensures { result ≡ record { before = before; line = line; weight = weight; pieces = [] } }
    {
        Unfinished {
            before,
            line,
            weight,
            pieces: Vec::new(alloc),
        }
    }

    /// The domain.
    pub fn domain(&self) -> &Domain
        ensures { result.now ≡ self.now.before.axes }
    {
        self.before.domain()
    }

    /// One piece more of the last function.
    pub fn add_piece(&mut self, piece: Piece) -> Result<(), LineFault>
        requires { is_piece_of self.old.before.axes piece ≡ is_box_of self.old.before.axes piece.area }
        ensures read { OnOk result (with_piece self.old (Some piece) ≡ Ok self.new) }
        ensures refused { IfErr result (λ fault. IsLineFault fault (with_piece self.old (Some piece))) }
    {
        if self.pieces.len() >= MOST_PIECES {
            return Err(LineFault::Refused(Cause::P7));
        }
        if !is_piece_of(self.before.domain(), &piece) {
            return Err(LineFault::Refused(Cause::P3));
        }
        match self.pieces.push(piece) {
            Ok(()) => Ok(()),
            Err(_) => Err(LineFault::NoMemory),
        }
    }

    /// The functions with the last one, to which no piece is added any more.
    pub fn finished(self, alloc: Global) -> Result<Terms, ReadFault>
        ensures read { IfOk result (λ terms. finished self ≡ Ok terms) }
        ensures refused { IfErr result (λ fault. IsFirst fault (finished self)) }
        ensures some { IfOk result (λ sum. 0 < length sum.terms) }
    {
        let Unfinished {
            mut before,
            line,
            weight,
            pieces,
        } = self;
        match Func::make(alloc, before.domain(), pieces) {
            Ok(func) => match before.push(Term { weight, func }) {
                Ok(()) => Ok(before),
                Err(_) => Err(ReadFault::NoMemory),
            },
            Err(fault) => Err(line_fault(fault).at(line)),
        }
    }
}
