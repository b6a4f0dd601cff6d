// Carried names that were made before, so that the posts of one variable share one.
ghost use Rattle.std.specs.Prelude.{◌≡◌, ◌↔◌, ◌<◌, ◌++◌, IfOk, IsTrue};
ghost use Rattle.moos_share.specs.Renaming.{short_name};

use moos_post::{Copied, Name, NameFault, NoMemory};
use std::alloc::{AllocError, Global};
use std::array;

// How many names are kept.
const PLACES: usize = 256;

/// The carried names that were made last, one at each place. Names share a place, so a name that is found at its place is
/// compared, and what is kept here shows in no contract.
#[derive(Drop)]
pub(crate) struct CarriedNames {
    names: [Option<Name>; PLACES],
}

impl CarriedNames {
    /// None so far.
    pub(crate) fn new() -> CarriedNames {
        CarriedNames {
            names: array::from_fn(|_| None),
        }
    }

    /// The name of a variable with this prefix before it, if that has at most 64 bytes: the one that was made before, if it
    /// still is at its place.
    pub(crate) fn with_prefix(
        &mut self,
        alloc: Global,
        prefix: &Name,
        var: &Name,
    ) -> Result<Option<Name>, NoMemory>
        ensures { IfOk result (λ name. name ≡ short_name (prefix.now ++ var.now)) }
    {
        let place = place_of(prefix, var);
        if let Some(name) = &self.names[place] {
            if is_joined(name.bytes(), prefix.bytes(), var.bytes()) {
                return Ok(Some(name.copy(alloc)?));
            }
        }
        let Some(name) = join(alloc, prefix, var)? else {
            return Ok(None);
        };
        self.names[place] = Some(name.copy(alloc)?);
        Ok(Some(name))
    }
}

// Where the name of this prefix and this variable is kept.
fn place_of(prefix: &Name, var: &Name) -> usize
    ensures { result < PLACES }
{
    let mixed = mix(mix(0, prefix.bytes()), var.bytes());
    mixed as usize % PLACES
}

// A number that differs mostly if bytes differ that were mixed in.
fn mix(start: u32, bytes: &[u8]) -> u32 {
    let mut mixed = start;
    for byte in bytes {
        mixed = mixed.wrapping_mul(31).wrapping_add(u32::from(*byte));
    }
    mixed
}

// Whether these bytes are the two parts, one behind the other.
fn is_joined(bytes: &[u8], front: &[u8], behind: &[u8]) -> bool
    ensures { IsTrue result ↔ (bytes.now ≡ front.now ++ behind.now) }
{
    match bytes.strip_prefix(front) {
        Some(rest) => rest == behind,
        None => false,
    }
}

// A new name of both, if that has at most 64 bytes.
fn join(alloc: Global, prefix: &Name, var: &Name) -> Result<Option<Name>, NoMemory>
    ensures { IfOk result (λ name. name ≡ short_name (prefix.now ++ var.now)) }
{
    let mut bytes = Vec::new(alloc);
    bytes.extend_from_slice(prefix.bytes())?;
    bytes.extend_from_slice(var.bytes())?;
    match Name::new(alloc, bytes.as_slice()) {
        Ok(name) => Ok(Some(name)),
        Err(NameFault::BadName) => Ok(None),
        Err(NameFault::NoMemory) => Err(AllocError),
    }
}
