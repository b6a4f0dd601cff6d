// The client uSimMarine, which moves the vehicle.
ghost use Rattle.std.specs.Prelude.{◌≡◌, ◌≤◌, ◌^◌, ◌++◌, ◌∷◌, [], codes, IfOk, List, ℕ};
ghost use Rattle.moos_post.specs.declared.value.Pair.{Pair};
ghost use Rattle.sim_vehicle.specs.Motion.{IsHull, start_hull};
ghost use Rattle.sim_clients.specs.Clients.{hull_by, hull_pairs, sim_marine_regs};
ghost use Rattle.sim_clients.specs.Keeping.{IsSimAfter, number_after, pairs_in_mail};

use crate::batches::{add_number, add_reg};
use crate::numbers::{number_after, thousandths};
use moos_db::Mail;
use moos_post::{Batch, Milli, NoMemory, Regs};
use sim_vehicle::{Craft, Hull, advance};
use std::alloc::Global;

/// The client uSimMarine: where the vehicle is and how it moves, and what the client knows of what is asked of the vehicle.
#[derive(Drop)]
pub struct SimMarine {
    hull: Hull,
    rudder: Option<Milli>,
    thrust: Option<Milli>,
    want_depth: Option<Milli>,
}

impl SimMarine {
    /// The client of this vehicle before its first turn.
    pub fn make(craft: &Craft) -> SimMarine
        ensures { (period : ℕ) → IsSimAfter craft.now period [] result }
    {
        SimMarine {
            hull: craft.start(),
            rudder: None,
            thrust: None,
            want_depth: None,
        }
    }

    /// What it registers for.
    pub fn regs(alloc: Global) -> Result<Regs, NoMemory>
        ensures { IfOk result (λ regs. regs ≡ sim_marine_regs) }
    {
        let mut regs = Regs::new(alloc);
        add_reg(alloc, &mut regs, b"DESIRED_RUDDER")?;
        add_reg(alloc, &mut regs, b"DESIRED_THRUST")?;
        add_reg(alloc, &mut regs, b"DESIRED_DEPTH")?;
        Ok(regs)
    }

    /// What it posts of the vehicle as it is.
    pub fn opening(alloc: Global, craft: &Craft) -> Result<Batch, NoMemory>
        ensures { IfOk result (λ batch. batch ≡ hull_pairs (start_hull craft.now)) }
    {
        hull_pairs(alloc, craft, craft.start())
    }

    /// One turn: it hears a mail, moves this vehicle for `period` milliseconds, from 1 to 1,000,000, and gives where the vehicle is then
    /// and how it moves, which it posts.
    pub fn turn(
        &mut self,
        alloc: Global,
        craft: &Craft,
        period: u64,
        mail: &Mail,
    ) -> Result<Batch, NoMemory>
        requires known { (mails : List (List Pair)) × IsSimAfter craft.now period mails self.old }
        requires some { 1 ≤ period }
        requires period { period ≤ 10 ^ 6 }
        ensures after { (mails : List (List Pair)) → IsSimAfter craft.now period mails self.old → IsSimAfter craft.now period (mails ++ pairs_in_mail mail.now ∷ []) self.new }
        ensures said { (mails : List (List Pair)) → IsSimAfter craft.now period mails self.old
            → IfOk result (λ batch. batch ≡ hull_pairs (hull_by craft.now period (mails ++ pairs_in_mail mail.now ∷ []))) }
    {
        self.hear(mail);
        self.hull = advance(
            craft,
            &self.hull,
            thousandths(self.rudder),
            thousandths(self.thrust),
            thousandths(self.want_depth),
            period,
        );
        hull_pairs(alloc, craft, self.hull)
    }

    // Takes the numbers of a mail.
    fn hear(&mut self, mail: &Mail)
        ensures hull { self.new.hull ≡ self.old.hull }
        ensures rudder { self.new.rudder ≡ number_after (codes "DESIRED_RUDDER") self.old.rudder (pairs_in_mail mail.now) }
        ensures thrust { self.new.thrust ≡ number_after (codes "DESIRED_THRUST") self.old.thrust (pairs_in_mail mail.now) }
        ensures want_depth { self.new.want_depth ≡ number_after (codes "DESIRED_DEPTH") self.old.want_depth (pairs_in_mail mail.now) }
    {
        let letters = mail.all();
        self.rudder = number_after(b"DESIRED_RUDDER", letters, self.rudder);
        self.thrust = number_after(b"DESIRED_THRUST", letters, self.thrust);
        self.want_depth = number_after(b"DESIRED_DEPTH", letters, self.want_depth);
    }
}

// What is posted of this vehicle.
fn hull_pairs(alloc: Global, craft: &Craft, hull: Hull) -> Result<Batch, NoMemory>
    requires { IsHull craft.now hull }
    ensures { IfOk result (λ batch. batch ≡ hull_pairs hull) }
{
    craft.allowed_law();
    let mut batch = Batch::new(alloc);
    add_number(alloc, &mut batch, b"NAV_X", hull.x)?;
    add_number(alloc, &mut batch, b"NAV_Y", hull.y)?;
    add_number(alloc, &mut batch, b"NAV_HEADING", hull.heading)?;
    add_number(alloc, &mut batch, b"NAV_SPEED", hull.speed)?;
    add_number(alloc, &mut batch, b"NAV_DEPTH", hull.depth)?;
    Ok(batch)
}
