// To which clients the latest post of a variable was mailed.
ghost use Rattle.std.specs.Prelude.{◌≡◌, false, true, length, replicate, slice_set, IfOk};
ghost use Rattle.moos_db.specs.Subscriptions.{is_recipient};

use moos_post::NoMemory;
use std::alloc::Global;
use std::marker::Model;

// Of each client, by number, whether it is one of them.
#[derive(Drop)]
pub(crate) struct Recipients {
    marks: Vec<bool>,
}

impl Model for Recipients {
    ghost use Rattle.std.specs.Prelude.{Bool, List};

    ghost Value = { List Bool };

    ghost view = { λ recipients. recipients.marks.items };
}

impl Recipients {
    // None of so many clients.
    pub fn new(alloc: Global, clients: usize) -> Result<Recipients, NoMemory>
        ensures { IfOk result (λ recipients. recipients ≡ replicate clients false) }
    {
        let marks = Vec::from_elem(alloc, false, clients)?;
        Ok(Recipients { marks })
    }

    // Whether the client is one of them.
    pub fn has(&self, client: u32) -> bool
        ensures { result ≡ is_recipient self.now client }
    {
        match self.marks.get(client as usize) {
            Some(mark) => *mark,
            None => false,
        }
    }

    // The client is one of them from now on.
    pub fn add(&mut self, client: u32)
        ensures { self.new ≡ slice_set self.old client true }
    {
        let place = client as usize;
        if place < self.marks.len() {
            self.marks[place] = true;
        }
    }

    // None of the clients is one of them from now on.
    pub fn clear(&mut self)
        ensures { self.new ≡ replicate (length self.old) false }
    {
        self.marks.fill(false);
    }
}
