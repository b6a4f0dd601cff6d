// Whether two decisions are the same.
ghost use Rattle.std.specs.Prelude.{◌≡◌, IsTrue};

use ivp_cert::{Decision, Line};

// Only the same decision passes: the same claim of the same problem, with the same lines of the certificate.
pub(crate) fn same_decision(a: &Decision, b: &Decision) -> bool
    ensures { IsTrue result → a.now ≡ b.now }
{
    a.claim == b.claim && a.problem.is_same(&b.problem) && same_lines(a.cert.all(), b.cert.all())
}

// Only lines that are the same in all, in the same order, pass.
fn same_lines(a: &[Line], b: &[Line]) -> bool
    ensures { IsTrue result → a.now ≡ b.now }
{
    if a.len() != b.len() {
        return false;
    }
    for place in 0..a.len() {
        if !same_line(&a[place], &b[place]) {
            return false;
        }
    }
    true
}

// Only a line that is the same in all passes.
fn same_line(a: &Line, b: &Line) -> bool
    ensures { IsTrue result → a.now ≡ b.now }
{
    a.sum == b.sum && a.index == b.index && a.path.all() == b.path.all()
}
