// What callers ask of a problem who count no steps: a counter that nobody reads counts them.
ghost use Rattle.std.specs.Prelude.{◌≡◌, ◌*◌, ◌^◌, ◌<◌, ◌≤◌, IsTrue};
ghost use Rattle.ivp_domain.specs.declared.boxes.Point.{Point};
ghost use Rattle.ivp_domain.specs.Boxes.{has_point};
ghost use Rattle.ivp_domain.specs.Domains.{is_point};
ghost use Rattle.ivp_problem.specs.Keys.{AtMost};
ghost use Rattle.ivp_problem.specs.Sums.{key_at, sum_at};
ghost use Rattle.ivp_problem.specs.Trees.{bound_of, IsNode};

use crate::key::Key;
use crate::node::Node;
use crate::problem::Problem;
use ivp_domain::{Point, Steps};
use std::marker::Brand;
use std::sync::ledger::{Blank, Ledger};

/// The bound of a node, counted by a ledger of its own.
fn bound_by<L: Ledger>(problem: &Problem, node: &Node, blank: Blank) -> Key
    requires node { IsNode problem.now node.now }
    requires name { blank.name ≡ L.name }
    requires parts { blank.parts ≡ L.parts }
    requires some { 0 < blank.parts }
    ensures bound { result ≡ bound_of problem.now node.now }
    ensures above { (p : Point) → IsTrue (has_point node.now.area p) → AtMost (key_at problem.now p) result }
{
    let mut steps = Steps::<L>::new(blank);
    problem.bound(node, &mut steps)
}

/// The bound of a node, as `Problem::bound` gives it, for a caller that counts no steps: no key of a point in the node is
/// above it. Its one step is counted by a counter of its own, which takes no memory.
pub fn bound_of(problem: &Problem, node: &Node) -> Key
    requires { IsNode problem.now node.now }
    ensures bound { result ≡ bound_of problem.now node.now }
    ensures above { (p : Point) → IsTrue (has_point node.now.area p) → AtMost (key_at problem.now p) result }
{
    bound_by::<Brand>(problem, node, Blank::new(1))
}

/// The weighted sum at a point, counted by a ledger of its own.
fn sum_by<L: Ledger>(problem: &Problem, point: &Point, blank: Blank) -> u64
    requires point { IsTrue (is_point problem.now.axes point.now) }
    requires name { blank.name ≡ L.name }
    requires parts { blank.parts ≡ L.parts }
    requires some { 0 < blank.parts }
    ensures sum { result ≡ sum_at problem.now point.now }
    ensures range { result ≤ 64 * 10 ^ 12 }
{
    let mut steps = Steps::<L>::new(blank);
    problem.sum_at(point, &mut steps)
}

/// The sum of weight times value at a point of the domain, as `Problem::sum_at` gives it, for a caller that counts no steps.
/// Its one step is counted by a counter of its own, which takes no memory.
pub fn sum_at(problem: &Problem, point: &Point) -> u64
    requires { IsTrue (is_point problem.now.axes point.now) }
    ensures sum { result ≡ sum_at problem.now point.now }
    ensures range { result ≤ 64 * 10 ^ 12 }
{
    sum_by::<Brand>(problem, point, Blank::new(1))
}
