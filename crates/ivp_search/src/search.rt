// The search by one thread.
ghost use Rattle.std.specs.Prelude.{◌≡◌, ◌+◌, ◌≤◌, length};
ghost use Rattle.ivp_domain.specs.Boxes.{has_point};
ghost use Rattle.ivp_problem.specs.Nodes.{nodes_under, tree_size};
ghost use Rattle.ivp_problem.specs.Sums.{best_of, key_at};
ghost use Rattle.ivp_problem.specs.Trees.{IsNode};
ghost use Rattle.ivp_search.specs.Incumbents.{IsBest};

use ivp_domain::Steps;
use ivp_problem::{Key, Node, Problem, bound_law, children_law, keys_law, reaches};
use std::sync::ledger::Ledger;

/// Searches a node and all below it: the best of the incumbent and of the keys of the node's points.
/// A node whose bound is at most the incumbent is pruned, since no key in it is above its bound.
/// At full depth the bound is the greatest key in the node.
fn close<L: Ledger>(
    problem: &Problem,
    node: &Node,
    incumbent: Option<Key>,
    steps: &mut Steps<L>,
) -> Option<Key>
    requires { IsNode problem.now node.now }
    ensures best { IsBest problem.now (has_point node.now.area) incumbent result }
    ensures counted { steps.new ≤ steps.old + length (nodes_under problem.now node.now) }
{
    let bound = problem.bound(node, steps);
    if reaches(incumbent, bound) {
        return incumbent;
    }
    if node.depth >= problem.len() {
        bound_law(problem, node);
        return Some(bound);
    }
    children_law(problem, node);
    let mut best = incumbent;
    let mut from = 0;
    while let Some(next) = problem.next_child(node, from) {
        best = close(problem, &next.node, best, steps);
        from = next.piece + 1;
    }
    best
}

/// The greatest key over all points of the domain, by a search of the tree. It takes no memory, and
/// at most as many steps as the tree has nodes, and 64.
pub fn best_in_one<L: Ledger>(problem: &Problem, steps: &mut Steps<L>) -> Key
    ensures best { result ≡ key_at problem.now (best_of problem.now) }
    ensures counted { steps.new ≤ steps.old + tree_size problem.now + 64 }
{
    keys_law(problem);
    close(problem, &problem.root(), None, steps).unwrap()
}
