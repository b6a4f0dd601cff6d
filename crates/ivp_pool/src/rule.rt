//! The rule of a worker's deque: what was put is what was taken and what is there, each once.
use crossbeam_deque::protocol::{Join, Lesson, Outcome, Protocol, Split};
use ivp_problem::Node;
use std::collections::LinkedList;
use std::marker::{Brand, PhantomData};

/// What one user of a deque has put and taken, and its parts of the right to know the whole. No value of it is made: it is
/// there for contracts and proofs alone.
pub(crate) struct Hand {
    pub(crate) parts: u64,
    pub(crate) put: LinkedList<Node>,
    pub(crate) taken: LinkedList<Node>,
}

/// A problem that a type is of.
pub(crate) trait About {
    ghost use Rattle.ivp_problem.specs.Problems.{WeightedSum};

    ghost problem: { WeightedSum };
}

impl About for Brand {
    ghost use Rattle.std.specs.Prelude.{[]};

    ghost problem = { record { axes = []; terms = [] } };
}

/// The rule, over the nodes of this problem.
pub(crate) struct Balanced<K> {
    about: PhantomData<K>,
}

impl<K: About> Protocol<Node, Hand> for Balanced<K> {
    ghost use Rattle.std.specs.Prelude.{[]};
    ghost use Rattle.ivp_pool.specs.Hands.{hand, IsBalanced};

    ghost holds = { IsBalanced K.problem };

    ghost first = { hand 1024 [] [] };

    ghost guest = { hand 0 [] [] };
}

/// A node is put.
pub(crate) struct Puts;

impl Outcome<Node, Hand> for Puts {
    ghost use Rattle.std.specs.Prelude.{◌≡◌, ◌++◌};
    ghost use Rattle.ivp_pool.specs.Hands.{hand};

    ghost then = { λ held nodes after. after ≡ hand held.parts (held.put ++ nodes) held.taken };
}

/// A node is taken by the worker. Who has all parts and finds none knows that all that was put was taken.
pub(crate) struct Pops<K> {
    about: PhantomData<K>,
}

impl<K: About> Outcome<Node, Hand> for Pops<K> {
    ghost use Rattle.ivp_pool.specs.Hands.{IsSettled, AreTaken};

    ghost then = { AreTaken K.problem };

    ghost empty = { IsSettled };
}

/// A node is stolen.
pub(crate) struct Steals<K> {
    about: PhantomData<K>,
}

impl<K: About> Outcome<Node, Hand> for Steals<K> {
    ghost use Rattle.ivp_pool.specs.Hands.{AreTaken};

    ghost then = { AreTaken K.problem };
}

/// The nodes are counted. Nothing is learnt of them.
pub(crate) struct Glance;

impl Lesson<Node, Hand> for Glance {
    ghost use Rattle.std.specs.Prelude.{⊤};

    ghost fact = { λ _ _. ⊤ };
}

/// A part is cut off for a door.
pub(crate) struct Cut;

impl Split<Hand> for Cut {
    ghost use Rattle.std.specs.Prelude.{◌-◌, []};
    ghost use Rattle.ivp_pool.specs.Hands.{hand};

    ghost left = { λ held. hand (held.parts - 1) held.put held.taken };

    ghost right = { λ _. hand 1 [] [] };
}

/// A door's part is taken back, with what went through it.
impl Join<Hand> for Cut {
    ghost use Rattle.std.specs.Prelude.{[]};
    ghost use Rattle.ivp_pool.specs.Hands.{both_hands, hand};

    ghost both = { both_hands };

    ghost spent = { hand 0 [] [] };
}
