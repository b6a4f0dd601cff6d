// Problems: refusals in order, nodes, bounds, children.
ghost use Rattle.std.specs.Prelude.{IfSome};
ghost use Rattle.ivp_problem.specs.Trees.{IsNode};

use crate::made::{
    axis, course, domain_of, level_terms, piece, problem, problem_of, slab, sum, term, twelve, two,
};
use crate::rows::count_at;
use ivp_domain::Domain;
use ivp_problem::{
    Node, Problem, ProblemFault, Term, at_most, best_law, bound_law, bound_of, children_law,
    greater_own, index_of_key, key_of, keys_law, reaches, sum_of,
};
use std::alloc::Global;
use std::process::Abort;

/// The term of weight 2 that rises along the first axis.
fn rising(rt: &impl Abort, alloc: Global) -> Term {
    term(rt, alloc, &twelve(rt), 2, &[slab(0, 2, 0, [10, 0, 0, 0])])
}

/// A term whose value is 100,000 everywhere on the course.
fn level(rt: &impl Abort, alloc: Global, weight: u32) -> Term {
    term(rt, alloc, &course(rt), weight, &[piece(0, 359, 100_000, 0)])
}

fn levels(rt: &impl Abort, alloc: Global, count: u32, weight: u32) -> Vec<Term> {
    level_terms(rt, alloc, count, weight, 100_000)
}

/// So many functions of one weight over the course, and one more.
fn then(rt: &impl Abort, alloc: Global, count: u32, weight: u32, last: Term) -> Vec<Term> {
    let mut terms = levels(rt, alloc, count, weight);
    terms.push(last).expect(rt, "memory");
    terms
}

/// The terms make no problem over a domain, for this fault.
fn is_refused(rt: &impl Abort, domain: Domain, terms: Vec<Term>, fault: ProblemFault) {
    assert!(rt;
        Problem::make(domain, terms).err() == Some(fault),
        "{fault:?}"
    );
}

/// A domain of another name is another domain.
#[test]
fn refusals_in_order(rt: HostRuntime) {
    let alloc = rt.alloc();
    is_refused(&rt, twelve(&rt), Vec::new(alloc), ProblemFault::NoFunction);
    let terms = levels(&rt, alloc, 65, 0);
    is_refused(&rt, twelve(&rt), terms, ProblemFault::TooMany);
    let terms = then(&rt, alloc, 2, 10_000_000, level(&rt, alloc, 10_000_001));
    is_refused(&rt, twelve(&rt), terms, ProblemFault::BadWeight(2));
    let terms = then(&rt, alloc, 1, 1, level(&rt, alloc, 0));
    is_refused(&rt, course(&rt), terms, ProblemFault::BadWeight(1));
    let terms = then(&rt, alloc, 1, 10_000_000, rising(&rt, alloc));
    is_refused(&rt, course(&rt), terms, ProblemFault::OtherDomain(1));
    let coarse = domain_of(&rt, &[axis(&rt, b"coarse", 359_000, 360)]);
    let terms = levels(&rt, alloc, 1, 1);
    is_refused(&rt, coarse, terms, ProblemFault::OtherDomain(0));
}

/// The sum and the index of a node's bound.
fn bound(problem: &Problem, node: &Node) -> (u64, u32)
    requires { IsNode problem.now node.now }
{
    let key = bound_of(problem, node);
    (sum_of(key), index_of_key(key))
}

/// A child by the number of a piece, if the next function has it.
fn child(problem: &Problem, node: &Node, piece: u32) -> Option<Node>
    requires { IsNode problem.now node.now }
    ensures { IfSome result (IsNode problem.now) }
{
    if node.depth < problem.len() && piece < problem.func(node.depth).len() {
        problem.child(node, piece)
    } else {
        None
    }
}

// Indices of points and the sums there.
const SUMS: &str = "0 60
2 75
3 75
4 20
10 55
11 55";

/// Two functions over twelve points, and their sums.
fn has_sums(rt: &impl Abort, problem: &Problem) {
    assert!(rt; problem.domain() == twelve(rt));
    assert!(rt; 1 < problem.len());
    assert!(rt; problem.len() == 2 && problem.weight(1) == 3);
    assert!(rt; problem.func(1).len() == 2);
    for row in SUMS.lines() {
        let told = sum(problem, count_at(rt, row, 0));
        assert!(rt; told == Some(count_at(rt, row, 1) as u64), "{row}");
    }
}

/// The root, its child, and that one's two.
fn has_nodes(rt: &impl Abort, problem: &Problem) {
    let root = problem.root();
    assert!(rt; bound(problem, &root) == (115, 0));
    let first = child(problem, &root, 0).expect(rt, "a child");
    assert!(rt; bound(problem, &first) == (115, 0));
    let left = child(problem, &first, 0).expect(rt, "a child");
    assert!(rt; bound(problem, &left) == (75, 2));
    let right = child(problem, &first, 1).expect(rt, "a child");
    let expected = Node {
        depth: 2,
        area: slab(1, 2, 0, [0; 4]).area,
        base: 0,
        slope: [20, 15, 0, 0],
    };
    assert!(rt; right == expected && bound(problem, &right) == (55, 10));
}

#[test]
fn two_functions(rt: HostRuntime) {
    let problem = two(&rt, rt.alloc());
    keys_law(&problem);
    best_law(&problem);
    has_sums(&rt, &problem);
    has_nodes(&rt, &problem);
}

/// The root's child has one child, since the other piece doesn't meet it.
fn has_one_child(rt: &impl Abort, problem: &Problem) {
    let first = child(problem, &problem.root(), 0).expect(rt, "a child");
    if first.depth < problem.len() {
        children_law(problem, &first);
    }
    assert!(rt; child(problem, &first, 1).is_none());
    let met = child(problem, &first, 0).expect(rt, "a child");
    if met.depth >= problem.len() {
        bound_law(problem, &met);
        assert!(rt; problem.best_corner(&met).at == [0, 1, 0, 0]);
    }
    assert!(rt; bound(problem, &met) == (150, 2));
}

#[test]
fn pieces_apart(rt: HostRuntime) {
    let split = [slab(0, 0, 20, [0, 5, 0, 0]), slab(1, 2, 0, [0, 5, 0, 0])];
    let all = [(3, split.as_slice()), (3, split.as_slice())];
    let problem = problem_of(&rt, rt.alloc(), twelve(&rt), &all);
    has_one_child(&rt, &problem);
}

#[test]
fn greatest_sum(rt: HostRuntime) {
    let terms = levels(&rt, rt.alloc(), 64, 10_000_000);
    let problem = problem(&rt, course(&rt), terms);
    assert!(rt; sum(&problem, 359) == Some(64_000_000_000_000));
    assert!(rt; bound(&problem, &problem.root()) == (64_000_000_000_000, 0));
    let key = key_of(64_000_000_000_000, 268_435_455);
    assert!(rt; sum_of(key) == 64_000_000_000_000);
    assert!(rt; index_of_key(key) == 268_435_455);
}

/// The greater sum has the greater key, of equal sums the lesser index, and each key is greater than none.
#[test]
fn keys_in_order(rt: HostRuntime) {
    let rising = [key_of(55, 0), key_of(75, 3), key_of(75, 2), key_of(76, 9)];
    let mut own = None;
    for key in rising {
        assert!(rt; !reaches(own, key));
        own = greater_own(own, Some(key));
        assert!(rt; own == Some(key));
        assert!(rt; reaches(own, rising[0]));
        assert!(rt; at_most(rising[0], key) && at_most(key, rising[3]));
        assert!(rt; greater_own(Some(rising[3]), own) == Some(rising[3]));
        assert!(rt; greater_own(own, None) == own);
    }
}
