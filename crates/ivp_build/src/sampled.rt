// A function by its values at the ends of runs, straight between them.
ghost use Rattle.std.specs.Prelude.{◌≡◌, ℕ, ◌-◌, ◌*◌, ◌+◌, ◌<◌, ◌≤◌, ◌^◌, ℤ, pos, List, ◌+ℤ◌, length, IsTrue, IfOk, IfErr, OnOk, int_div, ◌-ℤ◌, slice_index, slice_index_or};
ghost use Rattle.ivp_domain.specs.declared.axis.Axis.{Axis};
ghost use Rattle.ivp_domain.specs.declared.boxes.Point.{Point};
ghost use Rattle.ivp_domain.specs.Boxes.{is_box};
ghost use Rattle.ivp_domain.specs.Domains.{is_domain, is_point, whole};
ghost use Rattle.ivp_func.specs.Pieces.{is_box_of, is_slope, is_value, value_at};
ghost use Rattle.ivp_build.specs.Faults.{IsTooMany};
ghost use Rattle.ivp_build.specs.Sampled.{AreSampled, Computes, IsAskedIn, IsRise, IsSample, IsSampled, all_runs, base_at, boxes_of, box_of_runs, least_growth, low_corner, most_growth, piece_from, sampled_piece, sampled_slope, stays_in_range, uniform_at, uniform_pieces};

use crate::along::rise;
use crate::boxes::{all_runs, box_of_runs, runs_at};
use crate::fault::BuildFault;
use ivp_domain::{BoxN, Domain, Point, volume};
use ivp_func::{Func, MOST_PIECES, Piece};
use std::alloc::{AllocError, Global};

/// The greatest value that a function may have.
const MOST: i64 = 100_000;

/// The change from the low corner to the high end on an axis, by place, toward zero: 0 if the
/// box has one place there.
fn slope<F: Fn(&Point) -> i64>(utility: &F, area: &BoxN, low: i64, axis: usize) -> i64
    requires axis { axis < 4 }
    requires proper { IsTrue (is_box area.now) }
    requires low { IsTrue (is_value low) }
    requires utility { IsAskedIn F.Fn utility.now area.now }
    ensures slope { (gives : Point → ℤ) → Computes F.Fn utility.now area.now gives → low ≡ gives (low_corner area.now) → result ≡ sampled_slope gives area.now axis }
    ensures small { IsTrue (is_slope result) }
    ensures flat { slice_index area.now.high axis ≤ slice_index area.now.low axis → result ≡ pos 0 }
{
    let places = area.high[axis] - area.low[axis];
    if places == 0 {
        return 0;
    }
    let mut at = area.low;
    at[axis] = area.high[axis];
    let high = utility(&Point { at });
    by_place(high, low, places)
}

/// The change from one value to another over `places` places, by place, toward zero.
fn by_place(high: i64, low: i64, places: u32) -> i64
    requires high { IsTrue (is_value high) }
    requires low { IsTrue (is_value low) }
    requires some { 0 < places }
    ensures change { result ≡ int_div (high -ℤ low) (pos places) }
    ensures small { IsTrue (is_slope result) }
{
    (high - low) / places as i64
}

/// What a slope adds to the value at the low corner of a box at least and at most, along an axis.
fn growth(area: &BoxN, slopes: &[i64; 4], axis: usize) -> (i64, i64)
    requires axis { axis < 4 }
    requires proper { slice_index area.now.low axis ≤ slice_index area.now.high axis }
    requires few { slice_index area.now.high axis < 2 ^ 28 }
    requires small { IsTrue (is_slope (slice_index_or slopes.now axis (pos 0))) }
    ensures least { result.0 ≡ least_growth area.now slopes.now axis }
    ensures most { result.1 ≡ most_growth area.now slopes.now axis }
    ensures small { IsRise result.0 × IsRise result.1 }
{
    let growth = rise(slopes[axis], area.high[axis] - area.low[axis]);
    (growth.min(0), growth.max(0))
}

/// A value and what four axes add to it.
fn total(value: i64, one: i64, two: i64, three: i64, four: i64) -> i64
    requires value { IsRise value }
    requires one { IsRise one }
    requires two { IsRise two }
    requires three { IsRise three }
    requires four { IsRise four }
    ensures { result ≡ (value +ℤ one +ℤ two +ℤ three +ℤ four) }
{
    value + one + two + three + four
}

/// Whether the value that grows evenly from one at the low corner is from 0 to 100,000 at each
/// point of the box: it is, if it is at the two corners to which it falls and rises most.
fn stays_in_range(area: &BoxN, value: i64, slopes: &[i64; 4]) -> bool
    requires { IsSample area.now value slopes.now }
    ensures { result ≡ stays_in_range area.now value slopes.now }
{
    let one = growth(area, slopes, 0);
    let two = growth(area, slopes, 1);
    let three = growth(area, slopes, 2);
    let four = growth(area, slopes, 3);
    let least = total(value, one.0, two.0, three.0, four.0);
    let most = total(value, one.1, two.1, three.1, four.1);
    0 <= least && most <= MOST
}

/// The base of a piece with these slopes that fits a value at the low corner.
fn base_at(area: &BoxN, value: i64, slopes: &[i64; 4]) -> i64
    requires { IsSample area.now value slopes.now }
    ensures { result ≡ base_at area.now value slopes.now }
{
    let one = rise(slopes[0], area.low[0]);
    let two = rise(slopes[1], area.low[1]);
    let three = rise(slopes[2], area.low[2]);
    let four = rise(slopes[3], area.low[3]);
    total(value, -one, -two, -three, -four)
}

/// The piece that grows evenly if that stays in range, and else is constant.
fn piece_from(area: &BoxN, value: i64, slopes: &[i64; 4]) -> Piece
    requires { IsSample area.now value slopes.now }
    ensures { result ≡ piece_from area.now value slopes.now }
{
    if stays_in_range(area, value, slopes) {
        Piece {
            area: *area,
            base: base_at(area, value, slopes),
            slope: *slopes,
        }
    } else {
        Piece {
            area: *area,
            base: value,
            slope: [0; 4],
        }
    }
}

/// The piece of the utility on a box. The utility is asked at the low corner and at the high end
/// of each axis on which the box has several places.
fn sampled_piece<F: Fn(&Point) -> i64>(area: &BoxN, utility: &F) -> Piece
    requires proper { IsTrue (is_box area.now) }
    requires few { (axis : ℕ) → axis < 4 → slice_index area.now.high axis < 2 ^ 28 }
    requires utility { IsAskedIn F.Fn utility.now area.now }
    ensures piece { (gives : Point → ℤ) → Computes F.Fn utility.now area.now gives → result ≡ sampled_piece gives area.now }
    ensures sampled { (axes : List Axis) → IsTrue (is_domain axes) → IsTrue (is_box_of axes area.now) → IsSampled axes area.now result }
{
    let low = utility(&Point { at: area.low });
    let slopes = [
        slope(utility, area, low, 0),
        slope(utility, area, low, 1),
        slope(utility, area, low, 2),
        slope(utility, area, low, 3),
    ];
    piece_from(area, low, &slopes)
}

/// The pieces of the utility, one on each box.
fn sampled_pieces<F: Fn(&Point) -> i64>(
    alloc: Global,
    domain: &Domain,
    size: u32,
    utility: &F,
) -> Result<Vec<Piece>, AllocError>
    requires size { 0 < size }
    requires utility { IsAskedIn F.Fn utility.now (whole domain.now) }
    ensures pieces { IfOk result (λ pieces. (gives : Point → ℤ) → Computes F.Fn utility.now (whole domain.now) gives → pieces.items ≡ uniform_pieces domain.now size gives) }
    ensures sampled { IfOk result (λ pieces. AreSampled domain.now size pieces.items) }
{
    let runs = all_runs(domain, size);
    let mut pieces = Vec::new(alloc);
    let count = volume(&runs) as u32;
    for number in 0..count {
        let area = box_of_runs(domain, size, &runs_at(&runs, number));
        pieces.push(sampled_piece(&area, utility))?;
    }
    Ok(pieces)
}

/// How many boxes of `size` places on each axis a domain has, the last ones shorter.
pub fn box_count(domain: &Domain, size: u32) -> u64
    requires { 0 < size }
    ensures boxes { result ≡ length (boxes_of domain.now size) }
    ensures lawful { IsTrue (is_domain domain.now) }
{
    volume(&all_runs(domain, size))
}

/// A utility of any form, sampled in boxes of `size` places on each axis, the last ones shorter: on
/// each the piece fits the utility at the low corner and has on each axis the change to the high
/// end, by place, toward zero. A piece that would leave 0 to 100,000 is constant. The utility is
/// asked at points of the domain and answers from 0 to 100,000. `TooMany` exactly if there are
/// more than 4,096 boxes, unless no memory is left.
pub fn uniform<F: Fn(&Point) -> i64>(
    alloc: Global,
    domain: &Domain,
    size: u32,
    utility: &F,
) -> Result<Func, BuildFault>
    requires size { 0 < size }
    requires utility { IsAskedIn F.Fn utility.now (whole domain.now) }
    ensures pieces { IfOk result (λ func. (gives : Point → ℤ) → Computes F.Fn utility.now (whole domain.now) gives → func ≡ record { axes = domain.now; pieces = uniform_pieces domain.now size gives }) }
    ensures value { IfOk result (λ func. (gives : Point → ℤ) → Computes F.Fn utility.now (whole domain.now) gives → (p : Point) → IsTrue (is_point domain.now p) → value_at func.pieces p ≡ uniform_at domain.now size gives p) }
    ensures few { OnOk result (length (boxes_of domain.now size) ≤ 4096) }
    ensures many { IfErr result (IsTooMany (length (boxes_of domain.now size))) }
{
    if box_count(domain, size) > MOST_PIECES as u64 {
        return Err(BuildFault::TooMany);
    }
    let Ok(pieces) = sampled_pieces(alloc, domain, size, utility) else {
        return Err(BuildFault::NoMemory);
    };
    match Func::of_pieces(alloc, domain, pieces) {
        Ok(func) => Ok(func),
        Err(_) => Err(BuildFault::NoMemory),
    }
}
