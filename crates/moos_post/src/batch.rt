// The pairs of a post.
ghost use Rattle.std.specs.Prelude.{◌≡◌, ◌<◌, ◌++◌, ◌∷◌, [], length, OnOk, OnErr, IfOk, IfErr, Some, slice_get};
ghost use Rattle.moos_post.specs.Batches.{pairs_of};

use crate::NoMemory;
use crate::copied::Copied;
use crate::list::List;
use crate::value::Pair;
use std::alloc::{AllocError, Global};
use std::marker::Model;
use std::mem::replace;

/// The pairs that one call posts together, in order. A single one is kept in place, since most posts have no other: it
/// takes no memory of its own. Contracts see the list.
#[derive(Debug, Drop)]
pub struct Batch {
    alloc: Global,
    kept: Kept,
}

// How the pairs are kept.
#[derive(Debug, Drop)]
enum Kept {
    // One, in place.
    One(Pair),
    // Several, or none.
    Several(List<Pair>),
}

impl Model for Batch {
    ghost use Rattle.std.specs.Prelude.{List as Items};
    ghost use Rattle.moos_post.specs.Batches.{pairs_of};
    ghost use Rattle.moos_post.specs.declared.value.Pair.{Pair as APair};

    ghost Value = { Items APair };

    ghost view = { λ batch. pairs_of batch.kept };
}

impl Batch {
    /// No pairs.
    pub fn new(alloc: Global) -> Batch
        ensures { result ≡ [] }
    {
        Batch {
            alloc,
            kept: Kept::Several(List::new(alloc)),
        }
    }

    /// The batch of these pairs.
    pub fn of(pairs: Vec<Pair>) -> Batch
        ensures { result ≡ pairs.items }
    {
        Batch {
            alloc: *pairs.allocator(),
            kept: Kept::Several(List::of(pairs)),
        }
    }

    /// Adds the pair at the end. If no memory is left it is handed back, and the batch stays as it was.
    pub fn push(&mut self, pair: Pair) -> Result<(), Pair>
        ensures ok { OnOk result (self.new ≡ self.old ++ pair ∷ []) }
        ensures same { OnErr result (self.new ≡ self.old) }
        ensures back { IfErr result (λ refused. refused ≡ pair) }
    {
        let kept = replace(&mut self.kept, Kept::Several(List::new(self.alloc)));
        match joined(self.alloc, kept, pair) {
            Ok(kept) => {
                self.kept = kept;
                Ok(())
            }
            Err((kept, pair)) => {
                self.kept = kept;
                Err(pair)
            }
        }
    }

    /// Adds the pair at the end. If no memory is left it is dropped, and the batch stays as it was.
    pub fn add(&mut self, pair: Pair) -> Result<(), NoMemory>
        ensures ok { OnOk result (self.new ≡ self.old ++ pair ∷ []) }
        ensures same { OnErr result (self.new ≡ self.old) }
    {
        match self.push(pair) {
            Ok(()) => Ok(()),
            Err(_) => Err(AllocError),
        }
    }

    /// How many there are.
    pub fn len(&self) -> usize
        ensures { result ≡ length self.now }
    {
        match &self.kept {
            Kept::One(_) => 1,
            Kept::Several(pairs) => pairs.len(),
        }
    }

    /// The pair at this place, counted from 0.
    pub fn get(&self, place: usize) -> &Pair
        requires { place < length self.now }
        ensures { slice_get self.now place ≡ Some result.now }
    {
        match &self.kept {
            Kept::One(pair) => pair,
            Kept::Several(pairs) => pairs.get(place),
        }
    }

    /// All of them, in order.
    pub fn all(&self) -> &[Pair]
        ensures { result.now ≡ self.now }
    {
        match &self.kept {
            Kept::One(pair) => std::slice::from_ref(pair),
            Kept::Several(pairs) => pairs.all(),
        }
    }

    /// Gives back the memory that no pair needs. The batch stays the same.
    pub fn shrink_to_fit(&mut self)
        ensures { self.new ≡ self.old }
    {
        if let Kept::Several(pairs) = &mut self.kept {
            pairs.shrink_to_fit();
        }
    }
}

impl Copied for Batch {
    fn copy(&self, alloc: Global) -> Result<Batch, NoMemory> {
        let kept = self.kept.copy(alloc)?;
        Ok(Batch { alloc, kept })
    }
}

impl Copied for Kept {
    fn copy(&self, alloc: Global) -> Result<Kept, NoMemory> {
        match self {
            Kept::One(pair) => Ok(Kept::One(pair.copy(alloc)?)),
            Kept::Several(pairs) => Ok(Kept::Several(pairs.copy(alloc)?)),
        }
    }
}

// These pairs and one more at the end. If no memory is left, both are handed back.
fn joined(alloc: Global, kept: Kept, pair: Pair) -> Result<Kept, (Kept, Pair)>
    ensures ok { IfOk result (λ more. pairs_of more ≡ pairs_of kept ++ pair ∷ []) }
    ensures same { IfErr result (λ back. pairs_of back.0 ≡ pairs_of kept) }
    ensures back { IfErr result (λ back. back.1 ≡ pair) }
{
    match kept {
        Kept::One(first) => two(alloc, first, pair),
        Kept::Several(pairs) => one_more(pairs, pair),
    }
}

fn two(alloc: Global, first: Pair, second: Pair) -> Result<Kept, (Kept, Pair)>
    ensures ok { IfOk result (λ more. pairs_of more ≡ first ∷ second ∷ []) }
    ensures same { IfErr result (λ back. pairs_of back.0 ≡ first ∷ []) }
    ensures back { IfErr result (λ back. back.1 ≡ second) }
{
    match Vec::with_capacity(alloc, 2) {
        Ok(mut room) => {
            room.push_reserved(first);
            room.push_reserved(second);
            Ok(Kept::Several(List::of(room)))
        }
        Err(_) => Err((Kept::One(first), second)),
    }
}

fn one_more(pairs: List<Pair>, pair: Pair) -> Result<Kept, (Kept, Pair)>
    ensures ok { IfOk result (λ more. pairs_of more ≡ pairs ++ pair ∷ []) }
    ensures same { IfErr result (λ back. pairs_of back.0 ≡ pairs) }
    ensures back { IfErr result (λ back. back.1 ≡ pair) }
{
    if pairs.len() == 0 {
        return Ok(Kept::One(pair));
    }
    let mut pairs = pairs;
    match pairs.push(pair) {
        Ok(()) => Ok(Kept::Several(pairs)),
        Err(pair) => Err((Kept::Several(pairs), pair)),
    }
}
