// The variables that the helm registers for.
ghost use Rattle.std.specs.Prelude.{◌≡◌, [], ◌<◌, fold, length, map, slice_get, Some, IfOk, IsTrue, OnOk};
ghost use Rattle.moos_post.specs.Words.{is_name, is_pattern};
ghost use Rattle.helm_cond.specs.Conditions.{names_in};
ghost use Rattle.helm_core.specs.Plans.{always_read, block_names, decl_names, reg_wanted, with_wanted};

use crate::own_names::name_of;
use bhv_file::{Block, Decl};
use helm_cond::Cond;
use indexmap::IndexSet;
use moos_post::{Copied, Name, NoMemory, Pattern, Reg, Regs};
use std::alloc::{AllocError, Global};
use std::marker::Model;

// The variables that are wanted so far, each once, in the order of their first mention. Contracts see the list.
#[derive(Drop)]
pub(crate) struct Wanted {
    names: IndexSet<Name>,
}

impl Model for Wanted {
    ghost use Rattle.std.specs.Prelude.{List, ℕ};

    ghost Value = { List (List ℕ) };

    ghost view = { λ w. w.names.keys };
}

impl Wanted {
    // The variables that the helm reads in any case.
    pub fn always(alloc: Global) -> Result<Wanted, NoMemory>
        ensures { IfOk result (λ wanted. wanted ≡ fold with_wanted [] always_read) }
    {
        let mut wanted = Wanted {
            names: IndexSet::new(alloc),
        };
        wanted.want_always(alloc)?;
        Ok(wanted)
    }

    fn want_always(&mut self, alloc: Global) -> Result<(), NoMemory>
        ensures { OnOk result (self.new ≡ fold with_wanted self.old always_read) }
    {
        self.want_bytes(alloc, b"MOOS_MANUAL_OVERRIDE")?;
        self.want_bytes(alloc, b"MOOS_MANUAL_OVERIDE")?;
        self.want_bytes(alloc, b"NAV_X")?;
        self.want_bytes(alloc, b"NAV_Y")?;
        self.want_bytes(alloc, b"NAV_DEPTH")
    }

    // Those of a declaration's conditions too.
    pub fn want_decl(&mut self, alloc: Global, decl: &Decl) -> Result<(), NoMemory>
        ensures { OnOk result (self.new ≡ fold with_wanted self.old (decl_names decl.now)) }
    {
        for cond in decl.conds.all() {
            self.want_cond(alloc, cond)?;
        }
        Ok(())
    }

    // Those of a behaviour's conditions too, and the one of its updates.
    pub fn want_block(&mut self, alloc: Global, block: &Block) -> Result<(), NoMemory>
        ensures { OnOk result (self.new ≡ fold with_wanted self.old (block_names block.now)) }
    {
        for cond in block.common.conds.all() {
            self.want_cond(alloc, cond)?;
        }
        match &block.common.updates {
            Some(updates) => self.want(alloc, updates),
            None => Ok(()),
        }
    }

    fn want_cond(&mut self, alloc: Global, cond: &Cond) -> Result<(), NoMemory>
        ensures { OnOk result (self.new ≡ fold with_wanted self.old (names_in cond.now)) }
    {
        for place in 0..cond.variables() {
            self.want(alloc, cond.variable(place))?;
        }
        Ok(())
    }

    // The variable that these bytes name.
    fn want_bytes(&mut self, alloc: Global, bytes: &[u8]) -> Result<(), NoMemory>
        requires { IsTrue (is_name bytes.now) }
        ensures { OnOk result (self.new ≡ with_wanted self.old bytes.now) }
    {
        let name = name_of(alloc, bytes)?;
        self.want(alloc, &name)
    }

    fn want(&mut self, alloc: Global, name: &Name) -> Result<(), NoMemory>
        ensures { OnOk result (self.new ≡ with_wanted self.old name.now) }
    {
        if name.bytes() == b"MODE".as_slice() {
            return Ok(());
        }
        self.names.insert(name.copy(alloc)?)?;
        Ok(())
    }

    fn name(&self, place: usize) -> &Name
        requires { place < length self.now }
        ensures { slice_get self.now place ≡ Some result.now }
    {
        &self.names[place]
    }

    // A registration for each.
    pub fn regs(&self, alloc: Global) -> Result<Regs, NoMemory>
        ensures { IfOk result (λ regs. regs ≡ map reg_wanted self.now) }
    {
        let mut regs = Vec::with_capacity(alloc, self.names.len())?;
        for place in 0..self.names.len() {
            regs.push(reg_of(alloc, self.name(place))?)?;
        }
        Ok(Regs::of(regs))
    }
}

// A registration for a variable, from everybody and at any time.
#[tactic(auto, using(crate::proofs::WellFormedPlans::name_pattern))]
fn reg_of(alloc: Global, name: &Name) -> Result<Reg, NoMemory>
    ensures { IfOk result (λ reg. reg ≡ reg_wanted name.now) }
{
    let var = pattern_of(alloc, name.bytes())?;
    let source = pattern_of(alloc, b"*")?;
    Ok(Reg {
        var,
        source,
        interval: 0,
    })
}

// The pattern that is spelled so.
fn pattern_of(alloc: Global, bytes: &[u8]) -> Result<Pattern, NoMemory>
    requires { IsTrue (is_pattern bytes.now) }
    ensures { IfOk result (λ pattern. pattern ≡ bytes.now) }
{
    // It is a pattern, so nothing but memory is ever missing.
    let Ok(pattern) = Pattern::read(alloc, bytes) else {
        return Err(AllocError);
    };
    Ok(pattern)
}
