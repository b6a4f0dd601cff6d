// The parts into which an axis is cut by a grid.
ghost use Rattle.std.specs.Prelude.{◌≡◌, ℕ, ◌+◌, ◌*◌, ◌^◌, ◌<◌, ◌≤◌, IsTrue};
ghost use Rattle.ivp_domain.specs.Domains.{is_domain, is_point};
ghost use Rattle.ivp_func.specs.Cuts.{CanBeCut, axes_to, reciprocal_of};
ghost use Rattle.ivp_func.specs.Grids.{cell_at, cell_box, cells_of, most_runs, parts_to, run_at, run_high, run_low, runs_on};
ghost use Rattle.ivp_func.specs.Kept.{clipped};

use ivp_domain::{BoxN, Domain, Point};
use std::marker::Model;

/// Axes cut into cells: each from place 0 on into runs of as many places, of which the last may be shorter, and a cell is one
/// run of each axis.
#[derive(Debug, Drop)]
pub(crate) struct Cuts {
    axes: u32,
    /// The last place on each axis, 0 past the last axis.
    last: [u32; 4],
    /// How many places a run has on each axis.
    run: [usize; 4],
    /// How many runs there are on each axis.
    runs: [usize; 4],
    /// The reciprocal of the places of a run, on each axis.
    reciprocals: [u64; 4],
}

/// How many units of a reciprocal are 1: 2^54.
const UNITS: u64 = 18_014_398_509_481_984;

impl Model for Cuts {
    ghost use Rattle.std.specs.Prelude.{List};
    ghost use Rattle.ivp_domain.specs.declared.axis.Axis.{Axis};
    ghost use Rattle.ivp_func.specs.Cuts.{AreCuts, axes_to};

    ghost Value = { List Axis };

    ghost view = { λ c. axes_to c.axes c.last };

    ghost invariant = { λ c. AreCuts (axes_to c.axes c.last) c.last c.run c.runs c.reciprocals };
}

/// How many runs an axis is cut into at most, by how many axes there are: at most 256 cells in all.
fn most_runs(axes: u32) -> usize
    ensures most { result ≡ most_runs axes }
    ensures some { 0 < result }
{
    match axes {
        2 => 16,
        3 => 6,
        4 => 4,
        _ => 256,
    }
}

/// How many parts of `places` places there are up to place `last`.
fn parts_to(last: u32, places: usize) -> usize
    requires { 0 < places }
    ensures parts { result ≡ parts_to last places }
    ensures some { 0 < result }
{
    last as usize / places + 1
}

/// The reciprocal of a number of places: the first number of units above it.
fn reciprocal_of(places: usize) -> u64
    requires { 0 < places }
    ensures { result ≡ reciprocal_of places }
{
    UNITS / places as u64 + 1
}

impl Cuts {
    /// The cells of a domain.
    pub(crate) fn of_domain(domain: &Domain) -> Cuts
        ensures count { cells_of result ≡ cells_of domain.now }
        ensures boxes { (cell : ℕ) → cell_box result cell ≡ cell_box domain.now cell }
        ensures domain { IsTrue (is_domain domain.now) }
    {
        Cuts::of(domain.axes(), domain.whole().high)
    }

    /// The cells of `axes` axes up to these last places.
    pub(crate) fn of(axes: u32, last: [u32; 4]) -> Cuts
        requires { CanBeCut axes last }
        ensures { result ≡ axes_to axes last }
    {
        let most = most_runs(axes);
        let run = [
            parts_to(last[0], most),
            parts_to(last[1], most),
            parts_to(last[2], most),
            parts_to(last[3], most),
        ];
        let runs = [
            parts_to(last[0], run[0]),
            parts_to(last[1], run[1]),
            parts_to(last[2], run[2]),
            parts_to(last[3], run[3]),
        ];
        let reciprocals = [
            reciprocal_of(run[0]),
            reciprocal_of(run[1]),
            reciprocal_of(run[2]),
            reciprocal_of(run[3]),
        ];
        Cuts {
            axes,
            last,
            run,
            runs,
            reciprocals,
        }
    }

    /// How many cells there are.
    pub(crate) fn cells(&self) -> usize
        ensures cells { result ≡ cells_of self.now }
        ensures few { result ≤ 2 ^ 28 }
    {
        self.runs[0] * self.runs[1] * self.runs[2] * self.runs[3]
    }

    /// How many cells, one behind the other, are made together: those of one run of the first axis, or, if no other axis
    /// has two runs, sixteen.
    pub(crate) fn cells_a_row(&self) -> usize
        ensures some { 0 < result }
        ensures few { result ≤ 2 ^ 28 }
    {
        let row = self.cells() / self.runs[0];
        if row < 2 { 16 } else { row }
    }

    /// The first place of a run.
    fn low(&self, axis: usize, run: usize) -> u32
        requires axis { axis < 4 }
        requires run { run < runs_on axis self.now }
        ensures { result ≡ run_low axis self.now run }
    {
        (run * self.run[axis]) as u32
    }

    /// The last place of a run.
    fn high(&self, axis: usize, run: usize) -> u32
        requires axis { axis < 4 }
        requires run { run < runs_on axis self.now }
        ensures { result ≡ run_high axis self.now run }
    {
        let end = run * self.run[axis] + (self.run[axis] - 1);
        (end as u32).min(self.last[axis])
    }

    /// The box of a cell.
    pub(crate) fn cell_box(&self, cell: usize) -> BoxN
        requires { cell < cells_of self.now }
        ensures { result ≡ cell_box self.now cell }
    {
        let one = cell / self.runs[3] / self.runs[2] / self.runs[1];
        let two = cell / self.runs[3] / self.runs[2] % self.runs[1];
        let three = cell / self.runs[3] % self.runs[2];
        let four = cell % self.runs[3];
        BoxN {
            low: [
                self.low(0, one),
                self.low(1, two),
                self.low(2, three),
                self.low(3, four),
            ],
            high: [
                self.high(0, one),
                self.high(1, two),
                self.high(2, three),
                self.high(3, four),
            ],
        }
    }

    /// The area, if each place past the last one of its axis is that last one.
    pub(crate) fn clip(&self, area: &BoxN) -> BoxN
        ensures { result ≡ clipped self.now area.now }
    {
        BoxN {
            low: [
                area.low[0].min(self.last[0]),
                area.low[1].min(self.last[1]),
                area.low[2].min(self.last[2]),
                area.low[3].min(self.last[3]),
            ],
            high: [
                area.high[0].min(self.last[0]),
                area.high[1].min(self.last[1]),
                area.high[2].min(self.last[2]),
                area.high[3].min(self.last[3]),
            ],
        }
    }

    /// In which run of an axis a point lies: its place divided by the places of a run. The reciprocal gives it by a
    /// multiplication and a shift, which take a small part of the time of a division.
    fn run_at(&self, axis: usize, point: &Point) -> usize
        requires axis { axis < 4 }
        requires point { IsTrue (is_point self.now point.now) }
        ensures { result ≡ run_at axis self.now point.now }
    {
        (point.at[axis] as u128 * self.reciprocals[axis] as u128 / UNITS as u128) as usize
    }

    /// In which cell a point lies.
    pub(crate) fn cell_at(&self, point: &Point) -> usize
        requires { IsTrue (is_point self.now point.now) }
        ensures cell { result ≡ cell_at self.now point.now }
        ensures within { result < cells_of self.now }
    {
        let two = self.run_at(0, point) * self.runs[1] + self.run_at(1, point);
        let three = two * self.runs[2] + self.run_at(2, point);
        three * self.runs[3] + self.run_at(3, point)
    }
}
