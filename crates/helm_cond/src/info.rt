// What a helm knows: the last value of each variable.
ghost use Rattle.std.specs.Prelude.{◌≡◌, List, ℕ, None, OnOk, OnErr, IfOk, option_copied};
ghost use Rattle.helm_cond.specs.Infos.{knowledge_of};
ghost use Rattle.helm_cond.specs.Learnt.{known_with};

use moos_post::{Copied, Name, NoMemory, Value};
use std::alloc::Global;
use std::collections::HashMap;

/// What the helm has learnt: the latest value of each variable. Learning one and looking one up take constant time on
/// average, however many are known.
#[derive(Drop)]
pub struct Info {
    table: HashMap<Vec<u8>, Value>,
}

impl Info {
    /// Nothing was learnt.
    pub fn make(alloc: Global) -> Info
        ensures { (var : List ℕ) → knowledge_of result var ≡ None }
    {
        Info {
            table: HashMap::new(alloc),
        }
    }

    /// Learns this value of a variable. If no memory is left for it, all stays known as it was.
    pub fn learn(&mut self, alloc: Global, var: &Name, value: &Value) -> Result<(), NoMemory>
        ensures ok { OnOk result ((other : List ℕ) → knowledge_of self.new other ≡ known_with (knowledge_of self.old) var.now value.now other) }
        ensures same { OnErr result ((other : List ℕ) → knowledge_of self.new other ≡ knowledge_of self.old other) }
    {
        let value = value.copy(alloc)?;
        self.set(alloc, var.bytes(), value)
    }

    fn set(&mut self, alloc: Global, var: &[u8], value: Value) -> Result<(), NoMemory>
        ensures ok { OnOk result ((other : List ℕ) → knowledge_of self.new other ≡ known_with (knowledge_of self.old) var.now value other) }
        ensures same { OnErr result ((other : List ℕ) → knowledge_of self.new other ≡ knowledge_of self.old other) }
    {
        if let Some(stands) = self.table.get_mut(var) {
            *stands = value;
            return Ok(());
        }
        let var = Vec::from_slice(alloc, var)?;
        self.table.insert(var, value)?;
        Ok(())
    }

    /// The latest value of the variable, and None exactly if none was learnt.
    pub fn get(&self, var: &[u8]) -> Option<&Value>
        ensures { option_copied result ≡ knowledge_of self.now var.now }
    {
        self.table.get(var)
    }
    /// What knows the same.
    pub fn copy(&self, alloc: Global) -> Result<Info, NoMemory>
        ensures { IfOk result (λ info. (var : List ℕ) → knowledge_of info var ≡ knowledge_of self.now var) }
    {
        let mut copied = Info::make(alloc);
        for (var, value) in &self.table {
            copied.set(alloc, var.as_slice(), value.copy(alloc)?)?;
        }
        Ok(copied)
    }
}
