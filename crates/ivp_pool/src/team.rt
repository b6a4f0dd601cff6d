// What the members of a team do: each closes nodes of its own deque, and nodes that it steals from the others.
ghost use Rattle.std.specs.Prelude.{◌≡◌, ◌<◌, ◌≤◌, ◌++◌, ◌∷◌, [], length, All, List, MatchOption, None};
ghost use Rattle.ivp_problem.specs.declared.node.Node.{Node};
ghost use Rattle.ivp_problem.specs.Trees.{IsNode};
ghost use Rattle.ivp_pool.specs.Members.{Did, TookNode, Same};
ghost use Rattle.ivp_pool.specs.Solving.{IsWorker, WentOn};

use crate::close::{Own, close_one};
use crate::deque::{Deque, Door};
use crate::rule::About;
use crate::tray::Tray;
use crate::work::Work;
use best_word::{Best, Scout};
use ivp_problem::{Node, Problem};
use moos_io::Gate;
use std::sync::Wait;

/// A worker: its scout at the shared word, how many nodes it was called for, and how many these calls closed. Neither count
/// comes near 2^64, but only all workers' calls together show it, so each counts modulo 2^64.
#[derive(Drop)]
pub(crate) struct Worker {
    pub(crate) scout: Scout,
    pub(crate) own: Own,
    pub(crate) calls: u64,
    pub(crate) work: Work,
}

impl Worker {
    /// A worker that has made no call yet.
    pub(crate) fn new(scout: Scout) -> Worker
        ensures { result ≡ record { scout = scout; own = record { key = None }; calls = 0; work = record { closed = 0 } } }
    {
        Worker {
            scout,
            own: Own { key: None },
            calls: 0,
            work: Work { closed: 0 },
        }
    }
}

/// A worker with the nodes that wait for it, and a door to each worker's deque, by the workers' numbers.
#[derive(Drop)]
pub(crate) struct Member<K: About> {
    pub(crate) worker: Worker,
    pub(crate) deque: Deque<K>,
    pub(crate) doors: Vec<Door<K>>,
}

/// A tray that hands each node back, so that it is closed at once.
#[derive(Drop)]
pub(crate) struct NoTray<'a> {
    pub(crate) problem: &'a Problem,
}

impl<'a> Tray for NoTray<'a> {
    ghost use Rattle.std.specs.Prelude.{[]};

    ghost problem = { λ tray. tray.problem.now };

    ghost took = { λ _. [] };

    fn push(&mut self, node: Node) -> Option<Node> {
        Some(node)
    }
}

/// Closes a node, as the worker's next call.
pub(crate) fn close_next<T: Tray, G: Gate>(
    problem: &Problem,
    best: &Best,
    gate: &G,
    number: u32,
    worker: &mut Worker,
    node: Node,
    tray: &mut T,
)
    requires worker { IsWorker problem.now best.now worker.old }
    requires tray { T.problem tray.old ≡ problem.now }
    requires node { IsNode problem.now node }
    ensures went { (since : List Node) × (T.took tray.new ≡ T.took tray.old ++ since) × WentOn problem.now (node ∷ []) since worker.old worker.new × All (IsNode problem.now) since }
    ensures worker { IsWorker problem.now best.now worker.new }
    ensures tray { T.problem tray.new ≡ T.problem tray.old }
    ensures kept { T.kept tray.new ≡ T.kept tray.old }
{
    gate.at_node(number, worker.calls);
    worker.calls = worker.calls.wrapping_add(1);
    let closed = close_one(
        problem,
        best,
        &mut worker.scout,
        &mut worker.own,
        node,
        tray,
    );
    worker.work.closed = worker.work.closed.wrapping_add(closed);
}

/// The node that a worker steals: the first of another's deque, if the others are asked by their numbers, beginning with
/// the next.
fn stolen_node<K: About, R: Wait>(rt: &R, number: usize, member: &mut Member<K>) -> Option<Node>
    requires number { number < length member.old.doors.items }
    requires few { length member.old.doors.items ≤ 16 }
    ensures { MatchOption result (Same member.old member.new) (λ node. IsNode K.problem node × TookNode node member.old member.new) }
{
    let workers = member.doors.len();
    for step in 1..workers {
        let other = (number + step) % workers;
        if let Some(node) = member.doors[other].steal(rt) {
            return Some(node);
        }
    }
    None
}

/// Closes nodes until no deque has one to take: the last of the worker's own, or else one that it steals. A node's children
/// go to the worker's own deque.
pub(crate) fn work<K: About, R: Wait, G: Gate>(
    rt: &R,
    problem: &Problem,
    best: &Best,
    gate: &G,
    number: usize,
    member: &mut Member<K>,
)
    requires problem { problem.now ≡ K.problem }
    requires worker { IsWorker problem.now best.now member.old.worker }
    requires number { number < length member.old.doors.items }
    requires few { length member.old.doors.items ≤ 16 }
    ensures { Did problem.now member.old member.new }
{
    for _ in rt.forever() {
        let node = match member.deque.pop() {
            Some(own) => own,
            None => match stolen_node(rt, number, member) {
                Some(stolen) => stolen,
                None => break,
            },
        };
        close_next(
            problem,
            best,
            gate,
            number as u32,
            &mut member.worker,
            node,
            &mut member.deque,
        );
    }
}
