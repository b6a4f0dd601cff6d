// A function of pieces: made, and asked for its value.
ghost use Rattle.std.specs.Prelude.{◌≡◌, ℕ, ◌+◌, ◌<◌, ◌≤◌, length, Some, IsTrue, IfSome, IfNone, false, slice_get, IfOk};
ghost use Rattle.ivp_domain.specs.Domains.{is_point};
ghost use Rattle.ivp_func.specs.Bodies.{function_in, IsBody};
ghost use Rattle.ivp_func.specs.Cells.{IsGrid};
ghost use Rattle.ivp_func.specs.Functions.{IsFunction, IsTop};
ghost use Rattle.ivp_func.specs.Grids.{cell_box, cells_of, meeting, meets};
ghost use Rattle.ivp_func.specs.Making.{MadeFunction};
ghost use Rattle.ivp_func.specs.Pieces.{are_pieces_of, is_box_of, is_piece_of, is_value, value_at};

use crate::cuts::Cuts;
use crate::grid::{Grid, lies_in_piece, next_meet};
use crate::partition::{count, misfit};
use crate::piece::{Piece, are_same};
use crate::values::{point_out, top, value_at};
use ivp_domain::{BoxN, Domain, Point, Steps};
use std::alloc::{AllocError, Global};
use std::marker::Model;
use std::sync::Arc;
use std::sync::ledger::Ledger;

/// The most pieces that a function may have.
pub const MOST_PIECES: usize = 4096;

/// Why pieces make no function: `NotPartition` with a point of the domain and how many pieces hold
/// it, `ValueOut` with a point and its value.
#[derive(Clone, Copy, Debug, PartialEq, Eq)]
pub enum FuncFault {
    TooMany,
    NotPartition { point: Point, count: u32 },
    ValueOut { point: Point, value: i64 },
    NoMemory,
}

/// What a function has, and keeps as long as it lives.
#[derive(Debug, Drop)]
pub(crate) struct Body {
    domain: Domain,
    pieces: Vec<Piece>,
    top: i64,
    /// Which pieces share a point with which cell, so that the pieces of an area are found without a look at all.
    grid: Grid,
}

/// An objective function: pieces that partition a domain, with every value within 0 to 100,000. Nothing changes it, so
/// equal ones may share what they have.
#[derive(Debug, Drop)]
pub struct Func {
    body: Arc<Body>,
}

impl Model for Func {
    ghost use Rattle.std.specs.Arc.{arc_value};
    ghost use Rattle.ivp_func.specs.Bodies.{function_in, IsBody};
    ghost use Rattle.ivp_func.specs.Functions.{Function};

    ghost Value = { Function };

    ghost view = { λ f. function_in (arc_value f.body) };

    ghost invariant = { λ f. IsBody (arc_value f.body) };
}

/// What holds of every function. It does nothing.
pub fn func_law(func: &Func)
    ensures { IsFunction func.now }
{
    let _ = func.body();
}

impl Func {
    /// The function of these pieces over the domain, or the first refusal: `TooMany` above 4,096
    /// pieces; `NotPartition` if some point lies in no piece or in several; `ValueOut` if a
    /// value is outside 0 to 100,000; `NoMemory` if none is left for the grid or for the place that equal
    /// functions share. The pieces are kept as they are given.
    pub fn make(alloc: Global, domain: &Domain, pieces: Vec<Piece>) -> Result<Func, FuncFault>
        requires { IsTrue (are_pieces_of domain.now pieces.items) }
        ensures { MadeFunction domain.now pieces.items result }
    {
        if pieces.len() > MOST_PIECES {
            return Err(FuncFault::TooMany);
        }
        // Without a grid the pieces are judged all the same, by looking at each pair.
        let grid = Grid::make(alloc, domain, &pieces).ok();
        if let Some(point) = misfit(domain, &pieces, grid.as_ref()) {
            let count = count(&pieces, &point);
            return Err(FuncFault::NotPartition { point, count });
        }
        if let Some(point) = point_out(domain, &pieces) {
            let value = value_at(domain, &pieces, &point);
            return Err(FuncFault::ValueOut { point, value });
        }
        let Some(grid) = grid else {
            return Err(FuncFault::NoMemory);
        };
        match Func::with_grid(alloc, domain, pieces, grid) {
            Ok(func) => Ok(func),
            Err(_) => Err(FuncFault::NoMemory),
        }
    }

    /// The function of pieces that are known to be one over the domain, so that nothing is judged: at most 4,096 that may be in
    /// it, each point of the domain in exactly one, each value from 0 to 100,000. It fails only if no memory is left for the
    /// grid or for the place that equal functions share. The pieces are kept as they are given.
    pub fn of_pieces(alloc: Global, domain: &Domain, pieces: Vec<Piece>) -> Result<Func, AllocError>
        requires { IsFunction (record { axes = domain.now; pieces = pieces.items }) }
        ensures { IfOk result (λ func. func ≡ record { axes = domain.now; pieces = pieces.items }) }
    {
        let grid = Grid::make(alloc, domain, &pieces)?;
        Func::with_grid(alloc, domain, pieces, grid)
    }

    // The function of pieces that are known to be one, with the grid of these.
    fn with_grid(
        alloc: Global,
        domain: &Domain,
        pieces: Vec<Piece>,
        grid: Grid,
    ) -> Result<Func, AllocError>
        requires function { IsFunction (record { axes = domain.now; pieces = pieces.items }) }
        requires grid { IsGrid domain.now pieces.items grid }
        ensures { IfOk result (λ func. func ≡ record { axes = domain.now; pieces = pieces.items }) }
    {
        let top = top(domain, &pieces);
        let body = Body {
            domain: *domain,
            pieces,
            top,
            grid,
        };
        let body = Arc::new(alloc, body)?;
        Ok(Func { body })
    }

    /// An equal one, which has the same pieces and the same grid and not others like them. It takes no memory, and fails only
    /// if some 2^63 share them already.
    pub fn share(&self) -> Result<Func, AllocError>
        ensures { IfOk result (λ func. func ≡ self.now) }
    {
        let body = Arc::try_clone(&self.body)?;
        Ok(Func { body })
    }

    /// Whether the other one has the same pieces. Only pieces that are the same in all, in the same order, pass.
    pub fn has_pieces_of(&self, other: &Func) -> bool
        ensures { IsTrue result → self.now.pieces ≡ other.now.pieces }
    {
        are_same(&self.body().pieces, &other.body().pieces)
    }

    // What it has.
    fn body(&self) -> &Body
        ensures function { function_in result.now ≡ self.now }
        ensures kept { IsBody result.now }
    {
        &self.body
    }

    /// The value at a point of the domain. It counts one step.
    pub fn value_at<L: Ledger>(&self, p: &Point, steps: &mut Steps<L>) -> i64
        requires { IsTrue (is_point self.now.axes p.now) }
        ensures value { result ≡ value_at self.now.pieces p.now }
        ensures range { IsTrue (is_value result) }
        ensures counted { steps.new ≡ steps.old + 1 }
    {
        steps.tick();
        let body = self.body();
        value_at(&body.domain, &body.pieces, p)
    }

    /// How many pieces there are.
    pub fn len(&self) -> u32
        ensures len { result ≡ length self.now.pieces }
        ensures function { IsFunction self.now }
    {
        self.body().pieces.len() as u32
    }

    /// A piece by its number, from 0.
    pub fn piece(&self, i: u32) -> Piece
        requires { i < length self.now.pieces }
        ensures piece { slice_get self.now.pieces i ≡ Some result }
        ensures fits { IsTrue (is_piece_of self.now.axes result) }
    {
        self.body().pieces[i as usize]
    }

    /// The greatest value over all points.
    pub fn top(&self) -> i64
        ensures top { IsTop self.now.axes self.now.pieces result }
        ensures range { IsTrue (is_value result) }
    {
        self.body().top
    }

    /// How many cells the grid has. Each axis is cut from place 0 on into runs of `ceil(points / c)`
    /// places, the last shorter, where c is 256, 16, 6 or 4 for one, two, three or four axes; a cell
    /// is one run of each axis.
    pub fn cells(&self) -> u32
        ensures { result ≡ cells_of self.now.axes }
    {
        Cuts::of_domain(&self.body().domain).cells() as u32
    }

    /// The box of a cell by its number, from 0: the first axis counts most.
    pub fn cell_box(&self, k: u32) -> BoxN
        requires { k < cells_of self.now.axes }
        ensures { result ≡ cell_box self.now.axes k }
    {
        Cuts::of_domain(&self.body().domain).cell_box(k as usize)
    }

    /// The numbers of the pieces whose boxes share a point with a cell, rising.
    pub fn cell(&self, k: u32) -> &[u32]
        requires { k < cells_of self.now.axes }
        ensures { result.now ≡ meeting self.now.pieces (cell_box self.now.axes k) }
    {
        let grid = &self.body().grid;
        let number = grid.cell_of(&self.cell_box(k));
        grid.numbers_of(&grid.cells[number])
    }

    /// The least number from `from` on of a piece whose box shares a point with the area. `None`
    /// exactly if there is none.
    pub fn next_meet(&self, area: &BoxN, from: u32) -> Option<u32>
        requires { IsTrue (is_box_of self.now.axes area.now) }
        ensures some { IfSome result (λ number. (from ≤ number) × (number < length self.now.pieces) × IsTrue (meets self.now.pieces area.now number)) }
        ensures least { IfSome result (λ number. (other : ℕ) → from ≤ other → other < number → meets self.now.pieces area.now other ≡ false) }
        ensures none { IfNone result ((other : ℕ) → from ≤ other → meets self.now.pieces area.now other ≡ false) }
    {
        let body = self.body();
        // The pieces part the domain: if all of the area lies in the one before, no other meets it.
        if from > 0 && lies_in_piece(area, &body.pieces, from - 1) {
            return None;
        }
        next_meet(Some(&body.grid), &body.pieces, area, from)
    }

    /// The domain that the function was made with.
    pub fn domain(&self) -> Domain
        ensures { result ≡ self.now.axes }
    {
        self.body().domain
    }
}
