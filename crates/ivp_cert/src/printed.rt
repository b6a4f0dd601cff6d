// What the types of a decision's parts say of their values, so that its text stands for it: gathered part by part.
ghost use Rattle.std.specs.Prelude.{◌≡◌, ◌<◌, ◌≤◌, ◌*◌, ◌^◌, length, IsTrue};
ghost use Rattle.ivp_domain.specs.declared.axis.Axis.{Axis};
ghost use Rattle.ivp_domain.specs.AxisNames.{is_axis_name};
ghost use Rattle.ivp_cert.specs.declared.cert.Line.{Line};
ghost use Rattle.ivp_cert.specs.Printed.{AllOf, HasFourPlaces, IsPrintableLine, IsPrintableProblem};

use crate::cert::{Cert, Line};
use ivp_domain::{Axis, BoxN, Domain, Point};
use ivp_func::{Func, Piece};
use ivp_problem::Problem;

fn name_prints(axis: &Axis)
    ensures { IsTrue (is_axis_name axis.now.name) }
{
    let _ = axis.name.bytes();
}

fn names_print(domain: &Domain)
    ensures { AllOf (λ (axis : Axis). IsTrue (is_axis_name axis.name)) domain.now }
{
    for number in 0..domain.axes() {
        name_prints(&domain.axis(number));
    }
}

fn corners_print(area: &BoxN)
    ensures low { length area.now.low ≡ 4 }
    ensures high { length area.now.high ≡ 4 }
{
    let _low = area.low;
    let _high = area.high;
}

// Each array of a piece holds four numbers.
fn piece_prints(piece: &Piece)
    ensures { HasFourPlaces piece.now }
{
    corners_print(&piece.area);
    let _slope = piece.slope;
}

fn pieces_print(func: &Func)
    ensures { AllOf HasFourPlaces func.now.pieces }
{
    for number in 0..func.len() {
        piece_prints(&func.piece(number));
    }
}

/// A problem prints: its axes have names, and its pieces have four places each.
pub fn problem_prints(problem: &Problem)
    ensures { IsPrintableProblem problem.now }
{
    names_print(&problem.domain());
    for number in 0..problem.len() {
        pieces_print(problem.func(number));
    }
}

/// A point has four places.
pub fn places_print(point: &Point)
    ensures { length point.now.at ≡ 4 }
{
    let _at = point.at;
}

// Numbers of 32 bits.
fn numbers_print(numbers: &[u32])
    ensures { AllOf (λ number. number < 2 ^ 32) numbers.now }
{}

fn line_prints(line: &Line)
    requires { line.now.sum ≤ 64 * 10 ^ 12 }
    ensures { IsPrintableLine line.now }
{
    let _ = line.path.len();
    numbers_print(line.path.all());
    let _index = line.index;
}

/// A certificate prints if its sums are in range: its paths and indices are.
pub fn lines_print(cert: &Cert)
    requires { AllOf (λ (line : Line). line.sum ≤ 64 * 10 ^ 12) cert.now }
    ensures { AllOf IsPrintableLine cert.now }
{
    for number in 0..cert.len() {
        line_prints(cert.get(number));
    }
}
