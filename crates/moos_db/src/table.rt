// A number for each variable.
ghost use Rattle.std.specs.Prelude.{◌≡◌, [], OnOk, OnErr};

use moos_post::{Name, NoMemory};
use std::alloc::Global;
use std::collections::HashMap;
use std::marker::Model;

// A number for each variable. Looking one up and setting one take constant time, on average.
#[derive(Drop)]
pub(crate) struct Table {
    rows: HashMap<Vec<u8>, u64>,
}

impl Model for Table {
    ghost use Rattle.std.specs.Prelude.{List, map};
    ghost use Rattle.moos_db.specs.Tables.{Row};

    ghost Value = { List Row };

    ghost view = { λ table. map (λ row. record { var = row.0.items; number = row.1 }) table.rows.entries };
}

impl Table {
    ghost use Rattle.moos_db.specs.Tables.{GetsNumber, number_of};

    pub fn new(alloc: Global) -> Table
        ensures { result ≡ [] }
    {
        Table {
            rows: HashMap::new(alloc),
        }
    }

    // The number of the variable, if it has one.
    pub fn number_of(&self, var: &Name) -> Option<u64>
        ensures { result ≡ number_of var.now self.now }
    {
        self.rows.get(var.bytes()).copied()
    }

    // Gives the variable this number.
    pub fn set(&mut self, alloc: Global, var: &Name, number: u64) -> Result<(), NoMemory>
        ensures ok { OnOk result (GetsNumber var.now number self.old self.new) }
        ensures same { OnErr result (self.new ≡ self.old) }
    {
        let var = Vec::from_slice(alloc, var.bytes())?;
        self.rows.insert(var, number)?;
        Ok(())
    }
}
