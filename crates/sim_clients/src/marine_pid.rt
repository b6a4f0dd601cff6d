// The client pMarinePID, which turns what the helm wants into a rudder and a thrust.
ghost use Rattle.std.specs.Prelude.{◌≡◌, ◌++◌, ◌∷◌, [], codes, IfOk, List};
ghost use Rattle.moos_post.specs.declared.value.Pair.{Pair};
ghost use Rattle.moos_post.specs.Words.{IsMilli};
ghost use Rattle.sim_vehicle.specs.declared.settings.CraftSettings.{CraftSettings};
ghost use Rattle.sim_clients.specs.Clients.{drive_by, drive_pairs, marine_pid_regs};
ghost use Rattle.sim_clients.specs.Keeping.{IsPidAfter, number_after, pairs_in_mail};

use crate::batches::{add_number, add_reg};
use crate::numbers::{number_after, thousandths};
use moos_db::Mail;
use moos_post::{Batch, Milli, NoMemory, Regs};
use sim_vehicle::{Craft, Drive, Rig};
use std::alloc::Global;

/// The client pMarinePID: its controller, and what it knows of what the helm wants and of the vehicle's heading.
#[derive(Drop)]
pub struct MarinePid {
    rig: Rig,
    want_heading: Option<Milli>,
    want_speed: Option<Milli>,
    heading: Option<Milli>,
}

impl MarinePid {
    /// The client before its first turn.
    pub fn make() -> MarinePid
        ensures { (craft : CraftSettings) → IsPidAfter craft [] result }
    {
        MarinePid {
            rig: Rig::make(),
            want_heading: None,
            want_speed: None,
            heading: None,
        }
    }

    /// What it registers for.
    pub fn regs(alloc: Global) -> Result<Regs, NoMemory>
        ensures { IfOk result (λ regs. regs ≡ marine_pid_regs) }
    {
        let mut regs = Regs::new(alloc);
        add_reg(alloc, &mut regs, b"DESIRED_HEADING")?;
        add_reg(alloc, &mut regs, b"DESIRED_SPEED")?;
        add_reg(alloc, &mut regs, b"NAV_HEADING")?;
        Ok(regs)
    }

    /// One turn: it hears a mail, and gives the rudder and the thrust that it asks of this vehicle, which it posts.
    pub fn turn(&mut self, alloc: Global, craft: &Craft, mail: &Mail) -> Result<Batch, NoMemory>
        ensures after { (mails : List (List Pair)) → IsPidAfter craft.now mails self.old → IsPidAfter craft.now (mails ++ pairs_in_mail mail.now ∷ []) self.new }
        ensures said { (mails : List (List Pair)) → IsPidAfter craft.now mails self.old
            → IfOk result (λ batch. batch ≡ drive_pairs (drive_by craft.now (mails ++ pairs_in_mail mail.now ∷ []))) }
    {
        self.hear(mail);
        let drive = self.rig.control(
            craft,
            thousandths(self.want_heading),
            thousandths(self.want_speed),
            thousandths(self.heading),
        );
        craft.allowed_law();
        drive_pairs(alloc, drive)
    }

    // Takes the numbers of a mail.
    fn hear(&mut self, mail: &Mail)
        ensures rig { self.new.rig ≡ self.old.rig }
        ensures want_heading { self.new.want_heading ≡ number_after (codes "DESIRED_HEADING") self.old.want_heading (pairs_in_mail mail.now) }
        ensures want_speed { self.new.want_speed ≡ number_after (codes "DESIRED_SPEED") self.old.want_speed (pairs_in_mail mail.now) }
        ensures heading { self.new.heading ≡ number_after (codes "NAV_HEADING") self.old.heading (pairs_in_mail mail.now) }
    {
        let letters = mail.all();
        self.want_heading = number_after(b"DESIRED_HEADING", letters, self.want_heading);
        self.want_speed = number_after(b"DESIRED_SPEED", letters, self.want_speed);
        self.heading = number_after(b"NAV_HEADING", letters, self.heading);
    }
}

// What is posted of a rudder and a thrust.
fn drive_pairs(alloc: Global, drive: Drive) -> Result<Batch, NoMemory>
    requires rudder { IsMilli drive.rudder }
    requires thrust { IsMilli drive.thrust }
    ensures { IfOk result (λ batch. batch ≡ drive_pairs drive) }
{
    let mut batch = Batch::new(alloc);
    add_number(alloc, &mut batch, b"DESIRED_RUDDER", drive.rudder)?;
    add_number(alloc, &mut batch, b"DESIRED_THRUST", drive.thrust)?;
    Ok(batch)
}
