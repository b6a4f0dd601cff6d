// Names, each with a number, as they come.
ghost use Rattle.std.specs.Prelude.{◌≡◌, [], bytes_eq, OnOk, OnErr};
ghost use Rattle.std.specs.List.{position};
ghost use Rattle.script_reader.specs.Script.{with_client};

use indexmap::IndexSet;
use moos_post::NoMemory;
use std::alloc::Global;
use std::marker::Model;

/// The names so far, as their bytes, in the order in which they were first seen. Looking one up takes constant time on
/// average, however many there are. Contracts see the list.
#[derive(Drop)]
pub struct Numbered {
    set: IndexSet<Vec<u8>>,
}

impl Model for Numbered {
    ghost use Rattle.std.specs.Prelude.{List, ℕ, map};

    ghost Value = { List (List ℕ) };

    ghost view = { λ numbered. map (λ name. name.items) numbered.set.keys };
}

impl Numbered {
    /// No names.
    pub fn new(alloc: Global) -> Numbered
        ensures { result ≡ [] }
    {
        Numbered {
            set: IndexSet::new(alloc),
        }
    }

    /// The number of this name, its place among them, if it is one of them.
    pub fn number_of(&self, name: &[u8]) -> Option<usize>
        ensures { result ≡ position (λ one. bytes_eq one name.now) self.now }
    {
        self.set.get_index_of(name)
    }

    /// This name joins them if it is new.
    pub fn join(&mut self, alloc: Global, name: &[u8]) -> Result<(), NoMemory>
        ensures joined { OnOk result (self.new ≡ with_client self.old name.now) }
        ensures same { OnErr result (self.new ≡ self.old) }
    {
        let name = Vec::from_slice(alloc, name)?;
        self.set.insert(name)?;
        Ok(())
    }
}
