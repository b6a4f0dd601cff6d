// The names of the variables that the helm itself posts.
ghost use Rattle.std.specs.Prelude.{◌≡◌, codes, IfOk, IsTrue};
ghost use Rattle.moos_post.specs.Words.{is_name};

use moos_post::{Name, NoMemory};
use std::alloc::{AllocError, Global};
use std::marker::Model;

// The variables that the helm itself posts, by their names. These are made once, and each post shares them.
#[derive(Drop)]
pub(crate) struct OwnNames {
    state: Name,
    mode: Name,
    heading: Name,
    speed: Name,
    depth: Name,
    allstop: Name,
}

impl Model for OwnNames {
    ghost use Rattle.std.specs.Prelude.{◌≡◌, codes};

    ghost Value = { Unit {0} };

    ghost view = { λ _. tt };

    ghost invariant = { λ own. (own.state ≡ codes "IVPHELM_STATE") × (own.mode ≡ codes "MODE") × (own.heading ≡ codes "DESIRED_HEADING")
        × (own.speed ≡ codes "DESIRED_SPEED") × (own.depth ≡ codes "DESIRED_DEPTH") × (own.allstop ≡ codes "IVPHELM_ALLSTOP") };
}

// The name that is spelled so.
pub(crate) fn name_of(alloc: Global, bytes: &[u8]) -> Result<Name, NoMemory>
    requires { IsTrue (is_name bytes.now) }
    ensures { IfOk result (λ name. name ≡ bytes.now) }
{
    // It is a name, so nothing but memory is ever missing.
    let Ok(name) = Name::new(alloc, bytes) else {
        return Err(AllocError);
    };
    Ok(name)
}

// The names that are spelled so.
fn three_names(
    alloc: Global,
    first: &[u8],
    second: &[u8],
    third: &[u8],
) -> Result<(Name, Name, Name), NoMemory>
    requires first { IsTrue (is_name first.now) }
    requires second { IsTrue (is_name second.now) }
    requires third { IsTrue (is_name third.now) }
    ensures first { IfOk result (λ names. names.0 ≡ first.now) }
    ensures second { IfOk result (λ names. names.1 ≡ second.now) }
    ensures third { IfOk result (λ names. names.2 ≡ third.now) }
{
    let one = name_of(alloc, first)?;
    let other = name_of(alloc, second)?;
    let last = name_of(alloc, third)?;
    Ok((one, other, last))
}

impl OwnNames {
    // The names on the heap, so that moving a helm doesn't move them.
    pub fn boxed(alloc: Global) -> Result<Box<OwnNames>, NoMemory> {
        let own = OwnNames::make(alloc)?;
        Ok(Box::new(alloc, own)?)
    }

    fn make(alloc: Global) -> Result<OwnNames, NoMemory> {
        let (state, mode, allstop) = three_names(
            alloc,
            b"IVPHELM_STATE",
            b"MODE",
            b"IVPHELM_ALLSTOP",
        )?;
        let (heading, speed, depth) = three_names(
            alloc,
            b"DESIRED_HEADING",
            b"DESIRED_SPEED",
            b"DESIRED_DEPTH",
        )?;
        Ok(OwnNames {
            state,
            mode,
            heading,
            speed,
            depth,
            allstop,
        })
    }

    pub fn state(&self) -> &Name
        ensures { result.now ≡ codes "IVPHELM_STATE" }
    {
        &self.state
    }

    pub fn mode(&self) -> &Name
        ensures { result.now ≡ codes "MODE" }
    {
        &self.mode
    }

    pub fn heading(&self) -> &Name
        ensures { result.now ≡ codes "DESIRED_HEADING" }
    {
        &self.heading
    }

    pub fn speed(&self) -> &Name
        ensures { result.now ≡ codes "DESIRED_SPEED" }
    {
        &self.speed
    }

    pub fn depth(&self) -> &Name
        ensures { result.now ≡ codes "DESIRED_DEPTH" }
    {
        &self.depth
    }

    pub fn allstop(&self) -> &Name
        ensures { result.now ≡ codes "IVPHELM_ALLSTOP" }
    {
        &self.allstop
    }
}
