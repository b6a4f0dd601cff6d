// Whether two functions are of one domain.
ghost use Rattle.std.specs.Prelude.{◌≡◌};
ghost use Rattle.ivp_problem.specs.Problems.{same_axis, same_domain};

use ivp_domain::{Axis, Domain};

/// The axes agree in name, ends and points.
fn same_axis(a: &Axis, b: &Axis) -> bool
    ensures { result ≡ same_axis a.now b.now }
{
    a.name.bytes() == b.name.bytes() && a.low == b.low && a.high == b.high && a.points == b.points
}

/// The domains have the same axes in the same order.
pub(crate) fn same_domain(a: &Domain, b: &Domain) -> bool
    ensures { result ≡ same_domain a.now b.now }
{
    if a.axes() != b.axes() {
        return false;
    }
    for axis in 0..a.axes() {
        if !same_axis(&a.axis(axis), &b.axis(axis)) {
            return false;
        }
    }
    true
}
