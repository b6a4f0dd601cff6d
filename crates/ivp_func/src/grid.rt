// The grid of a function: for each cell of the places that it keeps the pieces that meet it.
ghost use Rattle.std.specs.Prelude.{◌≡◌, ℕ, ◌+◌, ◌++◌, ◌<◌, ◌≤◌, length, slice_get, slice_index, IfOk, IfSome, IfNone, IsTrue, false};
ghost use Rattle.std.specs.List.{All, filter, slice_range};
ghost use Rattle.ivp_domain.specs.declared.boxes.Point.{Point};
ghost use Rattle.ivp_domain.specs.Boxes.{has_point, numbers_from};
ghost use Rattle.ivp_func.specs.Cells.{HasArea, HasCells, IsGrid, IsLeast, IsMeeting, IsNear, IsRising, NoneLess, NoneLessIn, lies_in, lies_in_piece};
ghost use Rattle.ivp_func.specs.Grids.{cell_at, cells_of, meets, share};
ghost use Rattle.ivp_func.specs.Kept.{clipped};
ghost use Rattle.ivp_func.specs.Pieces.{is_box_of};

use crate::cuts::Cuts;
use crate::kept::kept_cuts;
use crate::piece::Piece;
use ivp_domain::{BoxN, Domain, Point};
use std::alloc::{AllocError, Global};

/// A cell: its box, and from where to where the numbers of its pieces are in the grid.
#[derive(Debug, Drop)]
pub(crate) struct Cell {
    area: BoxN,
    from: usize,
    to: usize,
}

/// The cells of the places that are kept of a domain, by their numbers, and the pieces of each.
#[derive(Debug, Drop)]
pub(crate) struct Grid {
    cuts: Cuts,
    pub(crate) cells: Vec<Cell>,
    /// Of each cell the numbers of the pieces whose boxes share a point with it, rising; one cell behind the other.
    numbers: Vec<u32>,
}

/// If an area may lie in more cells than this, the pieces are looked at in order: it is large, and the next one is near.
const FEW_CELLS: usize = 128;

/// So many pieces are looked at in order as fast as one cell.
const PIECES_A_CELL: usize = 4;

/// So few pieces are looked at in order as fast as the cells of an area are found.
const FEW_PIECES: usize = 16;

/// Whether the boxes share a point.
fn share(a: &BoxN, b: &BoxN) -> bool
    ensures { result ≡ share a.now b.now }
{
    // All four axes at once: which of them parts the boxes can't be foretold, and a wrong guess costs more than the tests.
    (a.low[0].max(b.low[0]) <= a.high[0].min(b.high[0]))
        & (a.low[1].max(b.low[1]) <= a.high[1].min(b.high[1]))
        & (a.low[2].max(b.low[2]) <= a.high[2].min(b.high[2]))
        & (a.low[3].max(b.low[3]) <= a.high[3].min(b.high[3]))
}

/// Whether the piece of this number shares a point with the area.
fn meets(pieces: &[Piece], number: u32, area: &BoxN) -> bool
    requires { number < length pieces.now }
    ensures { result ≡ meets pieces.now area.now number }
{
    share(area, &pieces[number as usize].area)
}

/// These, and behind them those of the numbers whose pieces share a point with the area.
fn with_meeting(
    before: Vec<u32>,
    pieces: &[Piece],
    numbers: &[u32],
    area: &BoxN,
) -> Result<Vec<u32>, AllocError>
    requires { All (λ number. number < length pieces.now) numbers.now }
    ensures { IfOk result (λ kept. kept.items ≡ before.items ++ filter (meets pieces.now area.now) numbers.now) }
{
    let mut kept = before;
    for number in numbers {
        if meets(pieces, *number, area) {
            kept.push(*number)?;
        }
    }
    Ok(kept)
}

/// The numbers of all pieces.
fn all_numbers(alloc: Global, pieces: &[Piece]) -> Result<Vec<u32>, AllocError>
    requires { length pieces.now ≤ 4096 }
    ensures { IfOk result (λ numbers. numbers.items ≡ numbers_from 0 (length pieces.now)) }
{
    let mut numbers = Vec::with_capacity(alloc, pieces.len())?;
    for number in 0..pieces.len() as u32 {
        numbers.push(number)?;
    }
    Ok(numbers)
}

/// Whether all points of the area are points of the other box.
fn lies_in(area: &BoxN, around: &BoxN) -> bool
    ensures { result ≡ lies_in area.now around.now }
{
    around.low[0] <= area.low[0]
        && area.high[0] <= around.high[0]
        && around.low[1] <= area.low[1]
        && area.high[1] <= around.high[1]
        && around.low[2] <= area.low[2]
        && area.high[2] <= around.high[2]
        && around.low[3] <= area.low[3]
        && area.high[3] <= around.high[3]
}

/// Whether there is a piece of this number, and all points of the area are points of its box.
pub(crate) fn lies_in_piece(area: &BoxN, pieces: &[Piece], number: u32) -> bool
    ensures { result ≡ lies_in_piece area.now (slice_get pieces.now number) }
{
    match pieces.get(number as usize) {
        Some(piece) => lies_in(area, &piece.area),
        None => false,
    }
}

/// A box around several cells, and the numbers of the pieces that share a point with it, so that the pieces of each of
/// these cells are found without a look at all.
#[derive(Drop)]
pub(crate) struct Near {
    pub(crate) around: BoxN,
    pub(crate) numbers: Vec<u32>,
}

/// The least box that has both.
fn hull(one: &BoxN, other: &BoxN) -> BoxN
    ensures { IsTrue (lies_in one.now result) }
{
    BoxN {
        low: [
            one.low[0].min(other.low[0]),
            one.low[1].min(other.low[1]),
            one.low[2].min(other.low[2]),
            one.low[3].min(other.low[3]),
        ],
        high: [
            one.high[0].max(other.high[0]),
            one.high[1].max(other.high[1]),
            one.high[2].max(other.high[2]),
            one.high[3].max(other.high[3]),
        ],
    }
}

/// What is near the cells from one, whose box is given, to the last one that is in its row.
fn near_row(
    alloc: Global,
    cuts: &Cuts,
    pieces: &[Piece],
    all: &[u32],
    number: usize,
    area: &BoxN,
) -> Result<Near, AllocError>
    requires few { length pieces.now ≤ 4096 }
    requires all { all.now ≡ numbers_from 0 (length pieces.now) }
    requires cell { number < cells_of cuts.now }
    ensures near { IfOk result (IsNear pieces.now) }
    ensures around { IfOk result (λ near. IsTrue (lies_in area.now near.around)) }
{
    let count = cuts.cells();
    let last = (number + (cuts.cells_a_row() - 1)).min(count - 1);
    let around = hull(area, &cuts.cell_box(last));
    let room = Vec::with_capacity(alloc, all.len())?;
    let numbers = with_meeting(room, pieces, all, &around)?;
    Ok(Near { around, numbers })
}

/// What is near a cell, whose box is given: the same as before if the cell lies there, or else what is near its row from
/// it on.
fn near_cell(
    alloc: Global,
    cuts: &Cuts,
    pieces: &[Piece],
    all: &[u32],
    near: Near,
    number: usize,
    area: &BoxN,
) -> Result<Near, AllocError>
    requires few { length pieces.now ≤ 4096 }
    requires all { all.now ≡ numbers_from 0 (length pieces.now) }
    requires cell { number < cells_of cuts.now }
    requires near { IsNear pieces.now near }
    ensures near { IfOk result (IsNear pieces.now) }
    ensures around { IfOk result (λ near. IsTrue (lies_in area.now near.around)) }
{
    if lies_in(area, &near.around) {
        return Ok(near);
    }
    near_row(alloc, cuts, pieces, all, number, area)
}

impl Grid {
    /// The grid of these pieces over the domain.
    pub(crate) fn make(alloc: Global, domain: &Domain, pieces: &[Piece]) -> Result<Grid, AllocError>
        requires { length pieces.now ≤ 4096 }
        ensures { IfOk result (IsGrid domain.now pieces.now) }
    {
        let cuts = kept_cuts(domain, pieces);
        let count = cuts.cells();
        let all = all_numbers(alloc, pieces)?;
        let mut cells = Vec::with_capacity(alloc, count)?;
        let mut numbers = Vec::new(alloc);
        let mut near = near_row(alloc, &cuts, pieces, &all, 0, &cuts.cell_box(0))?;
        for number in 0..count {
            let area = cuts.cell_box(number);
            near = near_cell(alloc, &cuts, pieces, &all, near, number, &area)?;
            let from = numbers.len();
            numbers = with_meeting(numbers, pieces, &near.numbers, &area)?;
            let to = numbers.len();
            cells.push(Cell { area, from, to })?;
        }
        Ok(Grid {
            cuts,
            cells,
            numbers,
        })
    }

    /// The numbers of the pieces of a cell.
    pub(crate) fn numbers_of(&self, cell: &Cell) -> &[u32]
        requires order { cell.now.from ≤ cell.now.to }
        requires within { cell.now.to ≤ length self.now.numbers.items }
        ensures { result.now ≡ slice_range self.now.numbers.items cell.now.from cell.now.to }
    {
        &self.numbers[cell.from..cell.to]
    }

    /// In which cell the low corner of an area lies, once this is clipped to the places that are kept.
    pub(crate) fn cell_of(&self, area: &BoxN) -> usize
        requires { IsTrue (is_box_of self.now.cuts (clipped self.now.cuts area.now)) }
        ensures cell { result ≡ cell_at self.now.cuts (record { at = (clipped self.now.cuts area.now).low }) }
        ensures within { result < cells_of self.now.cuts }
    {
        let at = self.cuts.clip(area).low;
        self.cuts.cell_at(&Point { at })
    }

    /// The first cell that may have points of an area: that of its low corner.
    fn first_cell(&self, area: &BoxN) -> usize
        requires { IsTrue (is_box_of self.now.cuts area.now) }
        ensures first { (point : Point) → IsTrue (has_point area.now point) → result ≤ cell_at self.now.cuts point }
        ensures within { result < cells_of self.now.cuts }
    {
        self.cuts.cell_at(&Point { at: area.low })
    }

    /// The last one: that of its high corner.
    fn last_cell(&self, area: &BoxN) -> usize
        requires { IsTrue (is_box_of self.now.cuts area.now) }
        ensures last { (point : Point) → IsTrue (has_point area.now point) → cell_at self.now.cuts point ≤ result }
        ensures within { result < cells_of self.now.cuts }
    {
        self.cuts.cell_at(&Point { at: area.high })
    }
}

/// The first place of a number that is at least `from`, among numbers that rise.
fn first_from(numbers: &[u32], from: u32) -> usize
    requires { IsRising numbers.now }
    ensures within { result ≤ length numbers.now }
    ensures below { (place : ℕ) → place < result → slice_index numbers.now place < from }
    ensures rest { (place : ℕ) → result ≤ place → place < length numbers.now → from ≤ slice_index numbers.now place }
{
    // The walk over the pieces of an area begins at 0, below which nothing is.
    if from == 0 {
        return 0;
    }
    numbers.partition_point(|number| *number < from)
}

/// The least of a cell's numbers from `from` on and below `until` whose piece meets the area, else `until`.
fn next_in(numbers: &[u32], pieces: &[Piece], area: &BoxN, from: u32, until: u32) -> u32
    requires inside { (place : ℕ) → place < length numbers.now → slice_index numbers.now place < length pieces.now }
    requires rising { IsRising numbers.now }
    ensures meeting { IsMeeting pieces.now area.now from until result }
    ensures least { NoneLess pieces.now area.now from result numbers.now }
{
    for place in first_from(numbers, from)..numbers.len() {
        let number = numbers[place];
        if number >= until {
            return until;
        }
        if meets(pieces, number, area) {
            return number;
        }
    }
    until
}

/// The same over the cells from `first` to `last`, else the count of the pieces.
fn next_in_cells(
    grid: &Grid,
    first: usize,
    last: usize,
    pieces: &[Piece],
    area: &BoxN,
    from: u32,
) -> u32
    requires cells { HasCells pieces.now grid.now }
    requires few { length pieces.now ≤ 4096 }
    requires area { IsTrue (is_box_of grid.now.cuts area.now) }
    requires last { last < cells_of grid.now.cuts }
    ensures meeting { IsMeeting pieces.now area.now from (length pieces.now) result }
    ensures least { NoneLessIn grid.now.cuts pieces.now area.now from result first (last + 1) }
{
    let mut next = pieces.len() as u32;
    for number in first..last + 1 {
        let cell = &grid.cells[number];
        if share(area, &cell.area) {
            next = next_in(grid.numbers_of(cell), pieces, area, from, next);
        }
    }
    next
}

/// The same over all pieces, one after the other.
fn next_in_order(pieces: &[Piece], area: &BoxN, from: u32) -> u32
    requires { length pieces.now ≤ 4096 }
    ensures meeting { IsMeeting pieces.now area.now from (length pieces.now) result }
    ensures least { IsLeast pieces.now area.now from result }
{
    for number in from..pieces.len() as u32 {
        if meets(pieces, number, area) {
            return number;
        }
    }
    pieces.len() as u32
}

/// The same by the cells of the area, if these are few and the pieces many.
fn next_of(grid: Option<&Grid>, pieces: &[Piece], area: &BoxN, from: u32) -> u32
    requires grid { IfSome grid (λ grid. HasArea pieces.now area.now grid.now) }
    requires few { length pieces.now ≤ 4096 }
    ensures meeting { IsMeeting pieces.now area.now from (length pieces.now) result }
    ensures least { IsLeast pieces.now area.now from result }
{
    if let Some(grid) = grid
        && pieces.len() > FEW_PIECES
    {
        let kept = grid.cuts.clip(area);
        let first = grid.first_cell(&kept);
        let last = grid.last_cell(&kept);
        if last < first + FEW_CELLS.min(pieces.len() / PIECES_A_CELL) {
            return next_in_cells(grid, first, last, pieces, &kept, from);
        }
    }
    next_in_order(pieces, area, from)
}

/// The least number from `from` on of a piece that shares a point with the area. `None` exactly if there is none.
pub(crate) fn next_meet(
    grid: Option<&Grid>,
    pieces: &[Piece],
    area: &BoxN,
    from: u32,
) -> Option<u32>
    requires grid { IfSome grid (λ grid. HasArea pieces.now area.now grid.now) }
    requires few { length pieces.now ≤ 4096 }
    ensures some { IfSome result (λ number. (from ≤ number) × (number < length pieces.now) × IsTrue (meets pieces.now area.now number)) }
    ensures least { IfSome result (λ number. (other : ℕ) → from ≤ other → other < number → meets pieces.now area.now other ≡ false) }
    ensures none { IfNone result ((other : ℕ) → from ≤ other → meets pieces.now area.now other ≡ false) }
{
    let next = next_of(grid, pieces, area, from);
    if (next as usize) < pieces.len() {
        Some(next)
    } else {
        None
    }
}
