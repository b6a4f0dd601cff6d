// The client pBasicContactMgr: its turn over a mail.
ghost use Rattle.std.specs.Prelude.{◌≡◌, [], IfOk, OnErr};
ghost use Rattle.contact_avoid.specs.Standing.{HasHadTurn, Knows};

use crate::known_contacts::KnownContacts;
use crate::ranges::Ranges;
use moos_db::Mail;
use moos_post::{Batch, Copied, NoMemory};
use std::alloc::Global;

/// The contact manager: its ranges, and what it keeps of the mails that it has heard. Contracts see the turns that it knows, one
/// for each mail.
#[derive(Drop)]
pub struct Manager {
    ranges: Ranges,
    known_contacts: KnownContacts,
}

impl Manager {
    /// The manager of these ranges, which has had no turn.
    pub fn make(alloc: Global, ranges: Ranges) -> Manager
        ensures { Knows ranges [] result }
    {
        Manager {
            ranges,
            known_contacts: KnownContacts::new(alloc),
        }
    }

    /// One turn: the manager hears a mail, of which `NAV_X`, `NAV_Y` and `NODE_REPORT` say something to it, and gives what it
    /// posts, contact by contact, in the order of their first reports. If no memory is left the manager is as it was.
    pub fn turn(&mut self, alloc: Global, mail: &Mail) -> Result<Batch, NoMemory>
        ensures same { OnErr result (self.new ≡ self.old) }
        ensures turned { IfOk result (λ batch. HasHadTurn mail.now batch self.old self.new) }
    {
        let mut fresh = self.known_contacts.copy(alloc)?;
        fresh.hear_all(alloc, mail.all())?;
        let own = fresh.own();
        let batch = fresh.batch(alloc, self.ranges, own)?;
        fresh.settle(self.ranges, own);
        self.known_contacts = fresh;
        Ok(batch)
    }
}
