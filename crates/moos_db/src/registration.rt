// A registration and what it hears.
ghost use Rattle.std.specs.Prelude.{◌≡◌};
ghost use Rattle.moos_post.specs.Patterns.{matches};
ghost use Rattle.moos_db.specs.Clients.{is_with_patterns};

use moos_post::{Name, Pattern, Reg};
use moos_reg::matches;

// What a client registered for, and the number of the entry that made it. The client has it, and so has each variable that it hears.
#[derive(Drop)]
pub(crate) struct Registration {
    pub reg: Reg,
    pub made: u64,
}

impl Registration {
    // Whether it has both these patterns.
    pub fn has_patterns(&self, var: &Pattern, source: &Pattern) -> bool
        ensures { result ≡ is_with_patterns var.now source.now self.now }
    {
        self.reg.var.bytes() == var.bytes() && self.reg.source.bytes() == source.bytes()
    }

    // Whether posts of the variable are heard through it.
    pub fn hears(&self, var: &Name) -> bool
        ensures { result ≡ matches self.now.reg.var var.now }
    {
        matches(&self.reg.var, var.bytes())
    }
}
