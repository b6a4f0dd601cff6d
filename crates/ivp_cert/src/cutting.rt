// The cut of a problem's tree, which is its certificate.
ghost use Rattle.std.specs.Prelude.{◌≡◌, ◌++◌, ◌∷◌, [], ◌≤◌, IfOk, OnOk, drop, length};
ghost use Rattle.ivp_problem.specs.Sums.{best_of, key_at};
ghost use Rattle.ivp_problem.specs.Trees.{IsNode};
ghost use Rattle.ivp_cert.specs.Certificates.{certificate_of, topmost};

use crate::cert::{Cert, Line};
use crate::path::Path;
use crate::trail::Trail;
use ivp_problem::{Key, Node, Problem, at_most, bound_of, index_of_key, problem_law, sum_of};
use moos_post::NoMemory;
use std::alloc::Global;

/// How many lines a certificate has room for at first: that of a small problem seldom has more.
const ROOM: usize = 16;

/// The certificate of a problem: the lines of the topmost nodes of its tree whose bound is at most the greatest key, depth
/// first, pieces in order.
pub fn cut(alloc: Global, problem: &Problem, key: Key) -> Result<Cert, NoMemory>
    requires { key ≡ key_at problem.now (best_of problem.now) }
    ensures { IfOk result (λ cert. cert ≡ certificate_of problem.now) }
{
    problem_law(problem);
    let mut lines = Vec::with_capacity(alloc, ROOM)?;
    add_topmost(
        alloc,
        problem,
        key,
        &problem.root(),
        &mut Trail::new(),
        &mut lines,
    )?;
    Ok(Cert::of(lines))
}

// Adds the line of a node with this bound.
fn add_line(
    alloc: Global,
    numbers: &[u32],
    bound: Key,
    lines: &mut Vec<Line>,
) -> Result<(), NoMemory>
    requires { length numbers.now ≤ 64 }
    ensures { OnOk result (lines.new.items ≡ lines.old.items ++ record { path = numbers.now; sum = bound.sum; index = bound.index } ∷ []) }
{
    let path = Path::of(alloc, numbers)?;
    lines.push(Line {
        path,
        sum: sum_of(bound),
        index: index_of_key(bound),
    })?;
    Ok(())
}

// Adds the lines of the topmost nodes, from this node on, whose bound is at most the key.
pub(crate) fn add_topmost(
    alloc: Global,
    problem: &Problem,
    key: Key,
    node: &Node,
    trail: &mut Trail,
    lines: &mut Vec<Line>,
) -> Result<(), NoMemory>
    requires node { IsNode problem.now node.now }
    requires trail { length trail.old ≡ node.now.depth }
    ensures lines { OnOk result (lines.new.items ≡ lines.old.items ++ topmost problem.now key (drop node.now.depth problem.now.terms) trail.old node.now) }
    ensures trail { OnOk result (trail.new ≡ trail.old) }
{
    let bound = bound_of(problem, node);
    if at_most(bound, key) {
        add_line(alloc, trail.all(), bound, lines)?;
        return Ok(());
    }
    if node.depth >= problem.len() {
        return Ok(());
    }
    let mut from = 0;
    while let Some(child) = problem.next_child(node, from) {
        trail.push(child.piece);
        add_topmost(alloc, problem, key, &child.node, trail, lines)?;
        trail.pop();
        from = child.piece + 1;
    }
    Ok(())
}
