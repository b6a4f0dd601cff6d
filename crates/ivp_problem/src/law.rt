// What holds of keys, children and bounds.
ghost use Rattle.std.specs.Prelude.{◌≡◌, ◌*◌, ◌<◌, ◌≤◌, ◌^◌, length, IsTrue, if◌then◌else◌, count_by, slice_get, Some};
ghost use Rattle.ivp_domain.specs.Boxes.{has_point};
ghost use Rattle.ivp_domain.specs.Domains.{index_of, is_point, points_of};
ghost use Rattle.ivp_problem.specs.Keys.{AtMost};
ghost use Rattle.ivp_problem.specs.Sums.{best_of, key_at};
ghost use Rattle.ivp_problem.specs.Trees.{bound_of, children_of, IsNode};

use crate::node::Node;
use crate::problem::{Problem, problem_law};
use ivp_domain::Point;

/// What holds of the keys of a problem's points: their sums and indices are small, different points
/// have different keys, and the best point is one whose key none exceeds. It does nothing.
pub fn keys_law(problem: &Problem)
    ensures sums { (p : Point) → IsTrue (is_point problem.now.axes p) → (key_at problem.now p).sum ≤ 64 * 10 ^ 12 }
    ensures indices { (p : Point) → IsTrue (is_point problem.now.axes p) → (key_at problem.now p).index < 2 ^ 28 }
    ensures distinct { (p q : Point) → IsTrue (is_point problem.now.axes p) → IsTrue (is_point problem.now.axes q) → length p.at ≡ 4 → length q.at ≡ 4 → key_at problem.now p ≡ key_at problem.now q → p ≡ q }
    ensures point { IsTrue (is_point problem.now.axes (best_of problem.now)) }
    ensures best { (p : Point) → IsTrue (is_point problem.now.axes p) → AtMost (key_at problem.now p) (key_at problem.now (best_of problem.now)) }
{
    problem_law(problem);
}

/// What holds of the children of a node below full depth: each point of the node lies in exactly one
/// of them, and no other point in any. It does nothing.
pub fn children_law(problem: &Problem, node: &Node)
    requires node { IsNode problem.now node.now }
    requires depth { node.now.depth < length problem.now.terms }
    ensures { (p : Point) → count_by (λ child. has_point child.area p) (children_of problem.now node.now) ≡ (if has_point node.now.area p then 1 else 0) }
{
    problem_law(problem);
}

/// What holds of the bound of a node at full depth: it is the key of a point of the node. It does
/// nothing.
pub fn bound_law(problem: &Problem, node: &Node)
    requires node { IsNode problem.now node.now }
    requires full { length problem.now.terms ≤ node.now.depth }
    ensures { (p : Point) × IsTrue (has_point node.now.area p) × (key_at problem.now p ≡ bound_of problem.now node.now) }
{
    problem_law(problem);
}

/// What holds of the best point: it is among all points at its index. It does nothing.
pub fn best_law(problem: &Problem)
    ensures { slice_get (points_of problem.now.axes) (index_of problem.now.axes (best_of problem.now)) ≡ Some (best_of problem.now) }
{
    problem_law(problem);
}
