// The root closed: its children, in the order in which they are searched.
ghost use Rattle.std.specs.Prelude.{◌∷◌, [], All};
ghost use Rattle.std.specs.List.Sorted.{IsPermutation};
ghost use Rattle.ivp_problem.specs.Trees.{IsNode, root_of};
ghost use Rattle.ivp_pool.specs.Roots.{AreBounded, AreByBound, child_nodes};
ghost use Rattle.ivp_pool.specs.Solving.{IsWorker, WentOn};

use crate::team::{Worker, close_next};
use crate::tray::Tray;
use best_word::Best;
use ivp_problem::{Key, Node, Problem, bound_of};
use moos_io::Gate;
use std::alloc::Global;
use std::cmp::Reverse;

/// A child of the root, with its place among those that the tray took and its bound.
#[derive(Clone, Copy, Debug)]
pub(crate) struct Child {
    pub(crate) node: Node,
    pub(crate) place: usize,
    pub(crate) bound: Key,
}

/// The tray of the root: a plain list of its children, in order.
#[derive(Drop)]
struct Children<'a> {
    pub(crate) problem: &'a Problem,
    children: Vec<Child>,
    ghost bounded: { AreBounded problem.now children.items },
}

impl<'a> Tray for Children<'a> {
    ghost use Rattle.ivp_pool.specs.Roots.{child_nodes};

    ghost problem = { λ tray. tray.problem.now };

    ghost took = { λ tray. child_nodes tray.children.items };

    fn push(&mut self, node: Node) -> Option<Node> {
        let child = Child {
            node,
            place: self.children.len(),
            bound: bound_of(self.problem, &node),
        };
        match self.children.push(child) {
            Ok(()) => None,
            Err(_) => Some(node),
        }
    }
}

/// Puts the children in the order of their bounds, the greatest first. No two bounds are equal, since no two children share
/// a point.
fn sort_by_bound(children: &mut [Child])
    ensures moved { IsPermutation children.old children.new }
    ensures order { AreByBound children.new }
{
    children.sort_unstable_by_key(|child| (Reverse(child.bound.sum), child.bound.index));
}

/// Closes the root, by worker 0. The answer is the children that are to be dealt, those of the greatest bounds first.
pub(crate) fn close_root<G: Gate>(
    alloc: Global,
    problem: &Problem,
    best: &Best,
    gate: &G,
    worker: &mut Worker,
) -> Vec<Child>
    requires worker { IsWorker problem.now best.now worker.old }
    ensures went { WentOn problem.now (root_of problem.now ∷ []) (child_nodes result.items) worker.old worker.new }
    ensures nodes { All (λ child. IsNode problem.now child.node) result.items }
    ensures order { AreByBound result.items }
    ensures bounded { AreBounded problem.now result.items }
{
    let children = Vec::new(alloc);
    let mut tray = Children { problem, children };
    close_next(problem, best, gate, 0, worker, problem.root(), &mut tray);
    sort_by_bound(&mut tray.children);
    tray.children
}
