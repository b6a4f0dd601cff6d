// Whether a decision's certificate proves it.
ghost use Rattle.std.specs.Prelude.{◌≡◌, ◌↔◌, ◌≤◌, IsTrue, IfSome, drop, length, option_map};
ghost use Rattle.ivp_domain.specs.Domains.{is_point};
ghost use Rattle.ivp_problem.specs.Sums.{best_of, sum_at};
ghost use Rattle.ivp_problem.specs.Trees.{bound_of, IsNode};
ghost use Rattle.ivp_cert.specs.Certificates.{Accepts};
ghost use Rattle.ivp_cert.specs.Walks.{behind_node, behind_own, is_line_of};

use crate::cert::{Cert, Line};
use crate::claim::Claim;
use crate::trail::Trail;
use ivp_problem::{
    Key, Node, Problem, at_most, bound_of, index_of_key, key_of, problem_law, sum_at, sum_of,
};

/// Whether a certificate is accepted for what is claimed of a problem: the claim's sum is the one at its point; each line is
/// that of a node of the tree, with the sum and the index of the node's bound, which is at most the key of the claim; each
/// node of full depth has exactly one line whose path begins its own; and the paths rise. Then the claim's point is the
/// problem's best. It takes no memory.
pub fn accepts(problem: &Problem, claim: &Claim, cert: &Cert) -> bool
    requires { IsTrue (is_point problem.now.axes claim.now.point) }
    ensures accepts { IsTrue result ↔ Accepts problem.now claim.now cert.now }
    ensures best { IsTrue result → claim.now.point ≡ best_of problem.now }
{
    problem_law(problem);
    if claim.sum != sum_at(problem, &claim.point) {
        return false;
    }
    let key = key_of(claim.sum, problem.domain().index_of(&claim.point));
    match behind_node(problem, key, &problem.root(), &mut Trail::new(), cert, 0) {
        Some(place) => place == cert.len(),
        None => false,
    }
}

// The line is this node's, and the node's bound is at most the key.
fn is_line_of(problem: &Problem, key: Key, node: &Node, path: &[u32], line: &Line) -> bool
    requires { IsNode problem.now node.now }
    ensures { result ≡ is_line_of problem.now key path.now node.now line.now }
{
    // Most lines differ here, and a bound costs a walk over the functions.
    if line.path.all() != path {
        return false;
    }
    let bound = bound_of(problem, node);
    line.sum == sum_of(bound) && line.index == index_of_key(bound) && at_most(bound, key)
}

// The place behind the line at this one, if that line is the node's.
fn behind_own(
    problem: &Problem,
    key: Key,
    node: &Node,
    path: &[u32],
    cert: &Cert,
    place: usize,
) -> Option<usize>
    requires node { IsNode problem.now node.now }
    requires within { place ≤ length cert.now }
    ensures behind { option_map (λ next. drop next cert.now) result ≡ behind_own problem.now key path.now node.now (drop place cert.now) }
    ensures within { IfSome result (λ next. next ≤ length cert.now) }
{
    if place < cert.len() && is_line_of(problem, key, node, path, cert.get(place)) {
        Some(place + 1)
    } else {
        None
    }
}

// The place behind the lines that cover the node, from this place on: its own line, or else those of its children, in piece
// order. Each line that is passed is one of the lines at hand.
fn behind_node(
    problem: &Problem,
    key: Key,
    node: &Node,
    trail: &mut Trail,
    cert: &Cert,
    place: usize,
) -> Option<usize>
    requires node { IsNode problem.now node.now }
    requires trail { length trail.old ≡ node.now.depth }
    requires within { place ≤ length cert.now }
    ensures behind { option_map (λ next. drop next cert.now) result ≡ behind_node problem.now key (drop node.now.depth problem.now.terms) trail.old node.now (drop place cert.now) }
    ensures within { IfSome result (λ next. next ≤ length cert.now) }
    ensures trail { IfSome result (λ _. trail.new ≡ trail.old) }
{
    if let Some(next) = behind_own(problem, key, node, trail.all(), cert, place) {
        return Some(next);
    }
    if node.depth >= problem.len() {
        return None;
    }
    let mut place = place;
    let mut from = 0;
    while let Some(child) = problem.next_child(node, from) {
        trail.push(child.piece);
        let Some(next) = behind_node(problem, key, &child.node, trail, cert, place) else {
            return None;
        };
        trail.pop();
        place = next;
        from = child.piece + 1;
    }
    Some(place)
}
