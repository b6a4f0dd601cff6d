// The subtrees of which a problem's tree is made, as they are cut apart to be shared.
ghost use Rattle.std.specs.Prelude.{◌≡◌, ◌++◌, [], All, IfOk, OnOk};
ghost use Rattle.ivp_problem.specs.Trees.{root_of};
ghost use Rattle.ivp_cert.specs.Certificates.{topmost};
ghost use Rattle.ivp_cert.specs.Subtrees.{IsSubtree, cut_at, cut_in};

use crate::trail::Trail;
use ivp_problem::{Key, Node, Problem, at_most, bound_of, problem_law};
use moos_post::NoMemory;
use std::alloc::Global;

/// A subtree: the node it begins with, and the path of that node.
#[derive(Drop)]
pub(crate) struct Subtree {
    pub(crate) path: Trail,
    pub(crate) node: Node,
}

/// The subtrees below which the whole cut lies, in order: those of the first level that has `many`, or of the last level.
pub(crate) fn subtrees_of(
    alloc: Global,
    problem: &Problem,
    key: Key,
    many: usize,
) -> Result<Vec<Subtree>, NoMemory>
    ensures lines { IfOk result (λ subtrees. cut_in problem.now key subtrees.items ≡ topmost problem.now key problem.now.terms [] (root_of problem.now)) }
    ensures subtrees { IfOk result (λ subtrees. All (IsSubtree problem.now) subtrees.items) }
{
    problem_law(problem);
    let mut subtrees = Vec::new(alloc);
    subtrees.push(Subtree {
        path: Trail::new(),
        node: problem.root(),
    })?;
    for _ in 0..problem.len() {
        if subtrees.len() >= many {
            break;
        }
        subtrees = next_level(alloc, problem, key, subtrees)?;
    }
    Ok(subtrees)
}

// The subtrees one level below these.
fn next_level(
    alloc: Global,
    problem: &Problem,
    key: Key,
    subtrees: Vec<Subtree>,
) -> Result<Vec<Subtree>, NoMemory>
    requires { All (IsSubtree problem.now) subtrees.items }
    ensures lines { IfOk result (λ deeper. cut_in problem.now key deeper.items ≡ cut_in problem.now key subtrees.items) }
    ensures subtrees { IfOk result (λ deeper. All (IsSubtree problem.now) deeper.items) }
{
    let mut deeper = Vec::new(alloc);
    for subtree in subtrees {
        add_below(problem, key, subtree, &mut deeper)?;
    }
    Ok(deeper)
}

// Adds the subtrees of a node's children, in piece order, or the node's own if its own line is due or it has full depth.
fn add_below(
    problem: &Problem,
    key: Key,
    subtree: Subtree,
    subtrees: &mut Vec<Subtree>,
) -> Result<(), NoMemory>
    requires subtree { IsSubtree problem.now subtree }
    requires subtrees { All (IsSubtree problem.now) subtrees.old.items }
    ensures lines { OnOk result (cut_in problem.now key subtrees.new.items ≡ cut_in problem.now key subtrees.old.items ++ cut_at problem.now key subtree) }
    ensures subtrees { OnOk result (All (IsSubtree problem.now) subtrees.new.items) }
{
    if subtree.node.depth >= problem.len() || at_most(bound_of(problem, &subtree.node), key) {
        subtrees.push(subtree)?;
        return Ok(());
    }
    let mut from = 0;
    while let Some(child) = problem.next_child(&subtree.node, from) {
        let mut path = subtree.path.copy();
        path.push(child.piece);
        subtrees.push(Subtree {
            path,
            node: child.node,
        })?;
        from = child.piece + 1;
    }
    Ok(())
}
