// The variables of a script, each once.
ghost use Rattle.std.specs.Prelude.{◌≡◌, [], false, true, length, bytes_eq, Ok, Err, IfOk, IfErr, IfSome, OnOk, is_some, if◌then◌else◌};
ghost use Rattle.std.specs.List.{list_any};
ghost use Rattle.moos_post.specs.Words.{is_name};
ghost use Rattle.moos_text.specs.declared.cause.Cause.TheVariants.{S4};
ghost use Rattle.moos_text.specs.Refusals.{IsLineFault};
ghost use Rattle.script_reader.specs.Script.{with_variable, with_known};

use crate::numbered::Numbered;
use moos_post::{Copied, Name, NameFault, NoMemory};
use moos_text::{Cause, Limit, LineFault};
use std::alloc::Global;
use std::marker::Model;

// The most variables of a script.
const MAX_VARIABLES: usize = 4096;

/// The variables that are posted so far, in the order of their first posts. Contracts see the list.
#[derive(Drop)]
pub struct PostedVariables {
    // Which place each has among the names, by its bytes: no name is made to look one up.
    places: Numbered,
    names: Vec<Name>,
}

impl Model for PostedVariables {
    ghost use Rattle.std.specs.Prelude.{◌≡◌, List, ℕ};

    ghost Value = { List (List ℕ) };

    ghost view = { λ v. v.names.items };

    ghost invariant = { λ v. v.places ≡ v.names.items };
}

/// The name of a variable, and whether it was posted before.
#[derive(Drop)]
pub struct Found {
    pub name: Name,
    pub is_known: bool,
}

impl PostedVariables {
    /// No variables.
    pub fn new(alloc: Global) -> PostedVariables
        ensures { result ≡ [] }
    {
        PostedVariables {
            places: Numbered::new(alloc),
            names: Vec::new(alloc),
        }
    }

    /// How many there are.
    pub fn len(&self) -> usize
        ensures { result ≡ length self.now }
    {
        self.names.len()
    }

    /// The one of this name, if it is among them.
    pub fn get(&self, name: &[u8]) -> Option<&Name>
        ensures found { is_some result ≡ list_any (bytes_eq name.now) self.now }
        ensures same { IfSome result (λ known. known.now ≡ name.now) }
    {
        match self.places.number_of(name) {
            Some(place) => Some(&self.names[place]),
            None => None,
        }
    }

    /// The name of these bytes. That of a variable which is among them shares its bytes with all others that were given
    /// for it: a script may name a variable a million times.
    pub fn name_of(&self, alloc: Global, bytes: &[u8]) -> Result<Found, LineFault>
        ensures name { IfOk result (λ found. (found.name ≡ bytes.now) × (is_name bytes.now ≡ true)) }
        ensures known { IfOk result (λ found. found.is_known ≡ list_any (bytes_eq bytes.now) self.now) }
        ensures refused { IfErr result (λ fault. IsLineFault fault (if is_name bytes.now then Ok bytes.now else Err S4)) }
    {
        match self.get(bytes) {
            Some(known) => Ok(Found {
                name: known.copy(alloc)?,
                is_known: true,
            }),
            None => Ok(Found {
                name: new_name(alloc, bytes)?,
                is_known: false,
            }),
        }
    }

    /// Adds this one, which isn't among them, or refuses it if it would be one too many.
    pub fn add(&mut self, alloc: Global, name: &Name) -> Result<(), LineFault>
        requires { list_any (bytes_eq name.now) self.old ≡ false }
        ensures read { IfOk result (λ _. with_known self.old name.now ≡ Ok self.new) }
        ensures refused { IfErr result (λ fault. IsLineFault fault (with_known self.old name.now)) }
    {
        if self.len() >= MAX_VARIABLES {
            return Err(LineFault::Refused(Cause::S8(Limit::Variables)));
        }
        self.insert(alloc, name)?;
        Ok(())
    }

    fn insert(&mut self, alloc: Global, name: &Name) -> Result<(), NoMemory>
        requires { list_any (bytes_eq name.now) self.old ≡ false }
        ensures { OnOk result (self.new ≡ with_variable self.old name.now) }
    {
        let shared = name.copy(alloc)?;
        self.names.reserve(1)?;
        self.places.join(alloc, name.bytes())?;
        self.names.push_reserved(shared);
        Ok(())
    }
}

fn new_name(alloc: Global, bytes: &[u8]) -> Result<Name, LineFault>
    ensures name { IfOk result (λ name. (name ≡ bytes.now) × (is_name bytes.now ≡ true)) }
    ensures refused { IfErr result (λ fault. IsLineFault fault (if is_name bytes.now then Ok bytes.now else Err S4)) }
{
    match Name::new(alloc, bytes) {
        Ok(name) => Ok(name),
        Err(NameFault::BadName) => Err(LineFault::Refused(Cause::S4)),
        Err(NameFault::NoMemory) => Err(LineFault::NoMemory),
    }
}
