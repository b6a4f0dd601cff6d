// How much each worker did.
ghost use Rattle.std.specs.Prelude.{◌≡◌, ◌<◌, ◌++◌, ◌∷◌, [], length, OnOk, OnErr, IfErr, Some, slice_get};

use std::alloc::Global;
use std::marker::Model;

/// What one worker did: how many nodes it closed.
#[derive(Clone, Copy, Debug, PartialEq, Eq)]
pub struct Work {
    pub closed: u64,
}

/// What each worker did, by the workers' numbers. Contracts see the list.
#[derive(Debug, Drop)]
pub struct Works {
    works: Vec<Work>,
}

impl Model for Works {
    ghost use Rattle.std.specs.Prelude.{List};
    ghost use Rattle.ivp_pool.specs.declared.work.Work.{Work};

    ghost Value = { List Work };

    ghost view = { λ list. list.works.items };
}

impl Works {
    /// The empty list.
    pub fn new(alloc: Global) -> Works
        ensures { result ≡ [] }
    {
        Works {
            works: Vec::new(alloc),
        }
    }

    /// Adds what a worker did at the end. If no memory is left it is handed back, and the list stays as it was.
    pub fn push(&mut self, work: Work) -> Result<(), Work>
        ensures ok { OnOk result (self.new ≡ self.old ++ work ∷ []) }
        ensures same { OnErr result (self.new ≡ self.old) }
        ensures back { IfErr result (λ refused. refused ≡ work) }
    {
        match self.works.push(work) {
            Ok(()) => Ok(()),
            Err(refused) => Err(refused.value),
        }
    }

    /// How many workers there were.
    pub fn len(&self) -> usize
        ensures { result ≡ length self.now }
    {
        self.works.len()
    }

    /// What the worker of this number did.
    pub fn get(&self, place: usize) -> &Work
        requires { place < length self.now }
        ensures { slice_get self.now place ≡ Some result.now }
    {
        &self.works[place]
    }

    /// All of them, in order.
    pub fn all(&self) -> &[Work]
        ensures { result.now ≡ self.now }
    {
        self.works.as_slice()
    }
}
