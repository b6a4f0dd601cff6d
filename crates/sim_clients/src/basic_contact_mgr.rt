// The client pBasicContactMgr, which tells of contacts that come near.
ghost use Rattle.std.specs.Prelude.{◌≡◌, ◌++◌, ◌∷◌, [], IfOk, List, OnErr, OnOk};
ghost use Rattle.contact_avoid.specs.declared.ranges.Ranges.{Ranges};
ghost use Rattle.moos_post.specs.declared.value.Pair.{Pair};
ghost use Rattle.sim_clients.specs.Clients.{contact_mgr_regs, contacts_by};
ghost use Rattle.sim_clients.specs.Keeping.{IsMgrAfter, pairs_in_mail};

use crate::batches::add_reg;
use contact_avoid::{Manager, Ranges};
use moos_db::Mail;
use moos_post::{Batch, NoMemory, Regs};
use std::alloc::Global;

/// The client pBasicContactMgr: the manager of its contacts.
#[derive(Drop)]
pub struct BasicContactMgr {
    manager: Manager,
}

impl BasicContactMgr {
    /// The client of these ranges before its first turn.
    pub fn make(alloc: Global, ranges: Ranges) -> BasicContactMgr
        ensures { IsMgrAfter ranges [] result }
    {
        BasicContactMgr {
            manager: Manager::make(alloc, ranges),
        }
    }

    /// What it registers for.
    pub fn regs(alloc: Global) -> Result<Regs, NoMemory>
        ensures { IfOk result (λ regs. regs ≡ contact_mgr_regs) }
    {
        let mut regs = Regs::new(alloc);
        add_reg(alloc, &mut regs, b"NODE_REPORT")?;
        add_reg(alloc, &mut regs, b"NAV_X")?;
        add_reg(alloc, &mut regs, b"NAV_Y")?;
        Ok(regs)
    }

    /// One turn: it hears a mail, and gives what it posts of its contacts. If no memory is left it is as it was.
    pub fn turn(&mut self, alloc: Global, mail: &Mail) -> Result<Batch, NoMemory>
        ensures after { (ranges : Ranges) (mails : List (List Pair)) → IsMgrAfter ranges mails self.old
            → OnOk result (IsMgrAfter ranges (mails ++ pairs_in_mail mail.now ∷ []) self.new) }
        ensures said { (ranges : Ranges) (mails : List (List Pair)) → IsMgrAfter ranges mails self.old
            → IfOk result (λ batch. batch ≡ contacts_by ranges (mails ++ pairs_in_mail mail.now ∷ [])) }
        ensures same { OnErr result (self.new ≡ self.old) }
    {
        let batch = self.manager.turn(alloc, mail)?;
        Ok(batch)
    }
}
