// The boxes that equal runs of places make, by the numbers of their runs.
ghost use Rattle.std.specs.Prelude.{◌≡◌, ◌-◌, ◌/◌, ◌<◌, ◌≤◌, ◌^◌, [], ◌∷◌, Some, IsTrue, slice_get, slice_index};
ghost use Rattle.ivp_domain.specs.Boxes.{has_point, is_box, points_in, volume_of};
ghost use Rattle.ivp_domain.specs.Domains.{is_domain, size_on};
ghost use Rattle.ivp_func.specs.Pieces.{is_box_of};
ghost use Rattle.ivp_build.specs.Sampled.{all_runs, box_of_runs, first_of_run, last_of_run};

use ivp_domain::{BoxN, Domain, Point};

/// How many places there are on an axis: one past the last one.
fn size_on(domain: &Domain, axis: usize) -> u32
    requires { axis < 4 }
    ensures size { result ≡ size_on axis domain.now }
    ensures some { 0 < result }
    ensures few { result ≤ 2 ^ 28 }
{
    domain.whole().high[axis] + 1
}

/// The number of the run of an axis that ends it.
fn last_run(domain: &Domain, size: u32, axis: usize) -> u32
    requires size { 0 < size }
    requires axis { axis < 4 }
    ensures run { result ≡ (size_on axis domain.now - 1) / size }
    ensures few { result < 2 ^ 28 }
{
    (size_on(domain, axis) - 1) / size
}

/// The runs of `size` places on each axis, by number: from 0 to that of the last place.
pub(crate) fn all_runs(domain: &Domain, size: u32) -> BoxN
    requires { 0 < size }
    ensures runs { result ≡ all_runs domain.now size }
    ensures proper { IsTrue (is_box result) }
    ensures few { volume_of result ≤ 2 ^ 28 }
    ensures small { (slice_index result.high 1 < 2 ^ 28) × (slice_index result.high 2 < 2 ^ 28) × (slice_index result.high 3 < 2 ^ 28) }
    ensures lawful { IsTrue (is_domain domain.now) }
{
    let _lawful = domain.axes();
    BoxN {
        low: [0; 4],
        high: [
            last_run(domain, size, 0),
            last_run(domain, size, 1),
            last_run(domain, size, 2),
            last_run(domain, size, 3),
        ],
    }
}

/// The runs of the box of this number: the first axis is outermost.
pub(crate) fn runs_at(runs: &BoxN, number: u32) -> Point
    requires least { runs.now.low ≡ 0 ∷ 0 ∷ 0 ∷ 0 ∷ [] }
    requires small { (slice_index runs.now.high 1 < 2 ^ 28) × (slice_index runs.now.high 2 < 2 ^ 28) × (slice_index runs.now.high 3 < 2 ^ 28) }
    requires within { number < volume_of runs.now }
    ensures listed { slice_get (points_in runs.now) number ≡ Some result }
    ensures inside { IsTrue (has_point runs.now result) }
{
    let two = runs.high[1] + 1;
    let three = runs.high[2] + 1;
    let four = runs.high[3] + 1;
    Point {
        at: [
            number / four / three / two,
            number / four / three % two,
            number / four % three,
            number % four,
        ],
    }
}

/// The first and the last place of a run of an axis.
fn ends_of_run(domain: &Domain, size: u32, axis: usize, run: u32) -> (u32, u32)
    requires size { 0 < size }
    requires axis { axis < 4 }
    requires within { run ≤ (size_on axis domain.now - 1) / size }
    ensures low { result.0 ≡ first_of_run size run }
    ensures high { result.1 ≡ last_of_run size (size_on axis domain.now) run }
    ensures ordered { result.0 ≤ result.1 }
    ensures inside { result.1 < size_on axis domain.now }
{
    let last = size_on(domain, axis) - 1;
    let low = run * size;
    (low, low + (size - 1).min(last - low))
}

/// The box of one run on each axis.
pub(crate) fn box_of_runs(domain: &Domain, size: u32, runs: &Point) -> BoxN
    requires size { 0 < size }
    requires within { IsTrue (has_point (all_runs domain.now size) runs.now) }
    ensures area { result ≡ box_of_runs domain.now size runs.now }
    ensures inside { IsTrue (is_box_of domain.now result) }
{
    let one = ends_of_run(domain, size, 0, runs.at[0]);
    let two = ends_of_run(domain, size, 1, runs.at[1]);
    let three = ends_of_run(domain, size, 2, runs.at[2]);
    let four = ends_of_run(domain, size, 3, runs.at[3]);
    BoxN {
        low: [one.0, two.0, three.0, four.0],
        high: [one.1, two.1, three.1, four.1],
    }
}
