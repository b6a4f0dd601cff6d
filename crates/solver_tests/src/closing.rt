// One problem of twelve points, whose nodes go to trays that take all, none, or every second of them.
use crate::made::{key_at, two};
use best_word::Best;
use ivp_pool::{Own, Tray, close_one, close_whole, parts_law, tally_law};
use ivp_problem::{Key, Node, Problem, greater_own, key_of};
use std::alloc::Global;
use std::process::Abort;

/// A pile of nodes. It takes the first of each two or not, and the second.
#[derive(Drop)]
struct Pile<'a> {
    problem: &'a Problem,
    nodes: Vec<Node>,
    first: bool,
    second: bool,
}

impl<'a> Tray for Pile<'a> {
    ghost problem = { λ pile. pile.problem.now };

    ghost took = { λ pile. pile.nodes.items };

    fn push(&mut self, node: Node) -> Option<Node> {
        let takes = self.first;
        self.first = self.second;
        self.second = takes;
        if !takes {
            return Some(node);
        }
        match self.nodes.push(node) {
            Ok(()) => None,
            Err(refused) => Some(refused.value),
        }
    }
}

/// Whether the first place of a point is in one of these nodes.
fn is_in(nodes: &[Node], place: u32) -> bool {
    for node in nodes {
        if node.area.low[0] <= place && place <= node.area.high[0] {
            return true;
        }
    }
    false
}

/// The greatest key of the points whose first place is in none of these nodes, by a look at every point.
fn greatest_outside(problem: &Problem, nodes: &[Node]) -> Option<Key> {
    let mut most = None;
    for index in 0..problem.domain().points() {
        if !is_in(nodes, index / 4) {
            most = greater_own(most, key_at(problem, index));
        }
    }
    most
}

/// What is left after the root was closed.
#[derive(Drop)]
struct Outcome {
    closed: u64,
    known: u64,
    own: Option<Key>,
    nodes: Vec<Node>,
}

fn close_root(
    rt: &impl Abort,
    alloc: Global,
    problem: &Problem,
    first: bool,
    second: bool,
) -> Outcome {
    let (best, mut scout) = Best::make(alloc, problem).expect(rt, "memory");
    let nodes = Vec::new(alloc);
    let mut pile = Pile {
        problem,
        nodes,
        first,
        second,
    };
    let root = problem.root();
    parts_law();
    tally_law();
    let mut own = Own { key: None };
    let closed = close_one(problem, &best, &mut scout, &mut own, root, &mut pile);
    Outcome {
        closed,
        known: best.known(&mut scout),
        own: own.key,
        nodes: pile.nodes,
    }
}

/// A pile that takes these is left with `left` nodes, after `closed` were closed and this key was found, whose sum all know.
fn leaves(
    rt: &impl Abort,
    alloc: Global,
    takes: [bool; 2],
    left: usize,
    closed: u64,
    found: Option<Key>,
) {
    let problem = two(rt, alloc);
    let outcome = close_root(rt, alloc, &problem, takes[0], takes[1]);
    assert!(rt; outcome.nodes.len() == left && outcome.closed == closed);
    assert!(rt; outcome.own == found);
    let known = match found {
        Some(key) => key.sum,
        None => 0,
    };
    assert!(rt; outcome.known == known);
    assert!(rt; greatest_outside(&problem, &outcome.nodes) == found);
}

/// All come back; all are taken; and every second: the root's child comes back, its first child is taken, and the second comes
/// back.
#[test]
fn trays(rt: HostRuntime) {
    leaves(&rt, rt.alloc(), [false, false], 0, 4, Some(key_of(75, 2)));
    leaves(&rt, rt.alloc(), [true, true], 1, 1, None);
    leaves(&rt, rt.alloc(), [false, true], 1, 3, Some(key_of(55, 10)));
}

/// The whole tree at once: as many nodes as with a tray that takes none, and the key that a search by workers finds. Its sum is
/// known to every scout then.
#[test]
fn whole_tree_at_once(rt: HostRuntime) {
    let alloc = rt.alloc();
    let problem = two(&rt, alloc);
    let (best, mut scout) = Best::make(alloc, &problem).expect(&rt, "memory");
    let mut other = best.split(&mut scout);
    let mut own = Own { key: None };
    assert!(rt; close_whole(&problem, &best, &mut scout, &mut own) == 4);
    assert!(rt; own.key == Some(key_of(75, 2)));
    assert!(rt; best.known(&mut scout) == 75);
    assert!(rt; best.known(&mut other) == 75);
}
