// A worker's deque of nodes, and the doors through which others steal from it.
ghost use Rattle.std.specs.Prelude.{◌≡◌, ◌-◌, ◌<◌, [], ◌∷◌, ◌++◌, IfOk, MatchOption, Some};
ghost use Rattle.ivp_problem.specs.Trees.{IsNode};
ghost use Rattle.ivp_pool.specs.Hands.{both_hands, hand, IsSettled};

use crate::rule::{About, Balanced, Cut, Glance, Hand, Pops, Puts, Steals};
use crate::tray::Tray;
use crossbeam_deque::{Pass, Steal, Stealer, Worker};
use ivp_problem::Node;
use moos_io::NoMemory;
use std::alloc::Global;
use std::marker::Model;
use std::sync::Wait;

/// How many nodes a new deque has room for. It grows.
const ROOM: usize = 64;

/// How many nodes are enough for those who may come to steal: one for each worker that there may be.
const ENOUGH: usize = 16;

/// The nodes that wait for a worker. It puts and takes at the back, and others steal at the front.
#[derive(Drop)]
pub(crate) struct Deque<K: About> {
    ends: Worker<Node, Global, Hand, Balanced<K>>,
}

impl<K: About> Model for Deque<K> {
    ghost use Rattle.std.specs.Prelude.{◌<◌};
    ghost use Rattle.crossbeam_deque.specs.Handles.{worker_deque, worker_view};
    ghost use Rattle.ivp_pool.specs.Hands.{EndState};

    ghost Value = { EndState };

    ghost view = { λ own. record { deque = worker_deque own.ends; hand = worker_view own.ends } };

    ghost invariant = { λ own. 0 < (worker_view own.ends).parts };
}

/// A way to steal from a deque.
#[derive(Drop)]
pub(crate) struct Door<K: About> {
    thief: Stealer<Node, Global, Hand, Balanced<K>>,
    pass: Pass<Node, Hand>,
}

impl<K: About> Model for Door<K> {
    ghost use Rattle.std.specs.Prelude.{◌≡◌};
    ghost use Rattle.crossbeam_deque.specs.Handles.{IsPassOf, stealer_deque};
    ghost use Rattle.ivp_pool.specs.Hands.{EndState};

    ghost Value = { EndState };

    ghost view = { λ door. record { deque = stealer_deque door.thief; hand = door.pass.me.view.client } };

    ghost invariant = { λ door. IsPassOf (stealer_deque door.thief) door.pass × (door.pass.me.view.client.parts ≡ 1) };
}

impl<K: About> Deque<K> {
    /// An empty deque.
    pub(crate) fn make(alloc: Global) -> Result<Deque<K>, NoMemory>
        ensures { IfOk result (λ own. own.hand ≡ hand 1024 [] []) }
    {
        Ok(Deque {
            ends: Worker::lifo_as(alloc, ROOM)?,
        })
    }

    /// A door to the deque, which takes one of its parts.
    pub(crate) fn door(&mut self) -> Result<Door<K>, NoMemory>
        requires { 1 < self.old.hand.parts }
        ensures door { IfOk result (λ door. door ≡ record { deque = self.old.deque; hand = hand 1 [] [] }) }
        ensures own { IfOk result (λ _. self.new ≡ record { deque = self.old.deque; hand = hand (self.old.hand.parts - 1) self.old.hand.put self.old.hand.taken }) }
    {
        let thief = self.ends.stealer()?;
        let pass = self.ends.another::<Cut>();
        Ok(Door { thief, pass })
    }

    /// Puts a node at the back, or gives it back if no memory is left.
    pub(crate) fn put(&mut self, node: Node) -> Option<Node>
        requires { IsNode K.problem node }
        ensures { MatchOption result (self.new ≡ record { deque = self.old.deque; hand = hand self.old.hand.parts (self.old.hand.put ++ node ∷ []) self.old.hand.taken }) (λ back. (back ≡ node) × (self.new ≡ self.old)) }
    {
        self.ends.push_as::<Puts>(node).err()
    }

    /// Takes the node that was put last. `None` if none stood there at one moment.
    pub(crate) fn pop(&mut self) -> Option<Node>
        ensures { MatchOption result ((self.new ≡ self.old) × IsSettled self.old.hand) (λ node. IsNode K.problem node × (self.new ≡ record { deque = self.old.deque; hand = hand self.old.hand.parts self.old.hand.put (self.old.hand.taken ++ node ∷ []) })) }
    {
        self.ends.pop_as::<Pops<K>>()
    }

    /// Takes a door back, with what was stolen through it.
    pub(crate) fn absorb(&mut self, door: Door<K>)
        requires { door.deque ≡ self.old.deque }
        ensures { self.new ≡ record { deque = self.old.deque; hand = both_hands self.old.hand door.hand } }
    {
        self.ends.absorb::<Cut>(door.pass);
    }
}

impl<K: About> Tray for Deque<K> {
    ghost problem = { λ _. K.problem };

    ghost took = { λ own. own.hand.put };

    ghost kept = { λ own. Some (record { deque = own.deque; hand = hand own.hand.parts [] own.hand.taken }) };

    /// If enough nodes wait it gives the node back, so that the worker closes it at once: a deque's push and pop take longer
    /// than to close a small node.
    fn push(&mut self, node: Node) -> Option<Node> {
        if self.ends.len_as::<Glance>() >= ENOUGH {
            return Some(node);
        }
        self.put(node)
    }
}

impl<K: About> Door<K> {
    /// Steals the node that was put first. It looks again if another took that one meanwhile. `None` if none stood there
    /// at one moment, or one that the worker was just taking.
    pub(crate) fn steal<R: Wait>(&mut self, rt: &R) -> Option<Node>
        ensures { MatchOption result (self.new ≡ self.old) (λ node. IsNode K.problem node × (self.new ≡ record { deque = self.old.deque; hand = hand self.old.hand.parts self.old.hand.put (self.old.hand.taken ++ node ∷ []) })) }
    {
        for _ in rt.forever() {
            match self.thief.steal_as::<Steals<K>>(&mut self.pass) {
                Steal::Success(node) => return Some(node),
                Steal::Empty => break,
                Steal::Retry => {}
            }
        }
        None
    }
}
