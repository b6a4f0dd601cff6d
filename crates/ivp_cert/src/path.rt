// The path of a node: the pieces that lead to it from the root.
ghost use Rattle.std.specs.Prelude.{◌≡◌, ◌<◌, ◌≤◌, ◌++◌, ◌∷◌, [], length, OnOk, OnErr, IfOk, IfErr, slice_get, Some};

use moos_post::{Copied, NoMemory};
use std::alloc::Global;
use std::marker::Model;

/// So many numbers of a path are in place, which is all of most paths.
const FEW: usize = 5;

/// The path of a node: the numbers of its pieces, from function 0 on, at most 64. Contracts see the list.
#[derive(Debug, Drop)]
pub struct Path {
    alloc: Global,
    /// The numbers in place, if there is no list of all.
    few: [u32; FEW],
    count: u32,
    /// All numbers, once they were more.
    many: Option<Vec<u32>>,
}

impl Model for Path {
    ghost use Rattle.std.specs.Prelude.{List, ℕ, option_map};
    ghost use Rattle.ivp_cert.specs.PathsKept.{IsPathKept, path_kept};

    ghost Value = { List ℕ };

    ghost view = { λ path. path_kept path.count path.few (option_map (λ many. many.items) path.many) };

    ghost invariant = { λ path. IsPathKept path.count path.few (option_map (λ many. many.items) path.many) };
}

impl Path {
    /// The path of the root, which has no number.
    pub fn new(alloc: Global) -> Path
        ensures { result ≡ [] }
    {
        Path {
            alloc,
            few: [0; FEW],
            count: 0,
            many: None,
        }
    }

    /// The path of these numbers.
    pub(crate) fn of(alloc: Global, numbers: &[u32]) -> Result<Path, NoMemory>
        requires { length numbers.now ≤ 64 }
        ensures { IfOk result (λ path. path ≡ numbers.now) }
    {
        if numbers.len() > FEW {
            let many = Vec::from_slice(alloc, numbers)?;
            return Ok(Path {
                alloc,
                few: [0; FEW],
                count: 0,
                many: Some(many),
            });
        }
        let mut few = [0; FEW];
        few[..numbers.len()].copy_from_slice(numbers);
        Ok(Path {
            alloc,
            few,
            count: numbers.len() as u32,
            many: None,
        })
    }

    /// Adds the number at the end. If no memory is left it is handed back, and the path stays as it was.
    pub fn push(&mut self, number: u32) -> Result<(), u32>
        requires { length self.old < 64 }
        ensures ok { OnOk result (self.new ≡ self.old ++ number ∷ []) }
        ensures same { OnErr result (self.new ≡ self.old) }
        ensures back { IfErr result (λ refused. refused ≡ number) }
    {
        if let Some(many) = &mut self.many {
            return match many.push(number) {
                Ok(()) => Ok(()),
                Err(refused) => Err(refused.value),
            };
        }
        let count = self.count as usize;
        if count < FEW {
            self.few[count] = number;
            self.count += 1;
            return Ok(());
        }
        match listed(self.alloc, &self.few, number) {
            Ok(many) => {
                self.many = Some(many);
                Ok(())
            },
            Err(_) => Err(number),
        }
    }

    /// How many numbers there are.
    pub fn len(&self) -> usize
        ensures len { result ≡ length self.now }
        ensures few { result ≤ 64 }
    {
        self.all().len()
    }

    /// The number at this place, counted from 0.
    pub fn get(&self, place: usize) -> u32
        requires { place < length self.now }
        ensures { slice_get self.now place ≡ Some result }
    {
        self.all()[place]
    }

    /// All of them, in order.
    pub fn all(&self) -> &[u32]
        ensures all { result.now ≡ self.now }
        ensures few { length result.now ≤ 64 }
    {
        match &self.many {
            Some(many) => many.as_slice(),
            None => &self.few[..self.count as usize],
        }
    }
}

impl Copied for Path {
    fn copy(&self, alloc: Global) -> Result<Path, NoMemory> {
        Path::of(alloc, self.all())
    }
}

// The list of these numbers with one more behind.
fn listed(alloc: Global, numbers: &[u32], number: u32) -> Result<Vec<u32>, NoMemory>
    requires { length numbers.now < 64 }
    ensures { IfOk result (λ all. all.items ≡ numbers.now ++ number ∷ []) }
{
    let mut all = Vec::with_capacity(alloc, numbers.len() + 1)?;
    all.extend_from_slice(numbers)?;
    all.push(number)?;
    Ok(all)
}
