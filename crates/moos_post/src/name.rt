// Names of variables and clients.
ghost use Rattle.std.specs.Prelude.{◌≡◌, ◌↔◌, false, IsTrue, IfOk, OnOk, IsErrOf, bytes_eq};
ghost use Rattle.std.proofs.Common.{rules};
ghost use Rattle.std.specs.Cmp.{partial_equiv_from_equiv};
ghost use Rattle.std.specs.Cmp.Lexicographic.{nat_list_eq_equiv};
ghost use Rattle.std.specs.Cmp.Rules.{hashing};
ghost use Rattle.std.specs.Hash as fed;
ghost use Rattle.std.specs.List.{list_all};
ghost use Rattle.moos_post.specs.Words.{is_alphabetic, begins_name, is_name_byte, is_name};

use crate::NoMemory;
use crate::copied::Copied;
use std::alloc::{AllocError, Global};
use std::hash::{Hash, Hasher};
use std::marker::Model;
use std::sync::ArcSlice;
use thiserror::Error;

/// The name of a variable or a client: 1 to 64 letters, digits, `_`, `-` and `.`, the first a letter or `_`.
///
/// Its copies share its bytes, since a history holds each name very often. Contracts see the bytes.
#[derive(Debug, Drop)]
pub struct Name {
    bytes: ArcSlice<u8>,
}

impl Model for Name {
    ghost use Rattle.std.specs.Prelude.{List, ℕ, IsTrue};
    ghost use Rattle.std.specs.Arc.{arc_slice_items};
    ghost use Rattle.moos_post.specs.Words.{is_name};

    ghost Value = { List ℕ };

    ghost view = { λ n. arc_slice_items n.bytes };

    ghost invariant = { λ n. IsTrue (is_name (arc_slice_items n.bytes)) };
}

// Names are equal and hashed as their bytes.

impl PartialEq for Name {
    ghost eq = { λ x y. bytes_eq x y };

    ghost laws = { partial_equiv_from_equiv nat_list_eq_equiv };

    fn eq(&self, other: &Name) -> bool {
        self.bytes() == other.bytes()
    }
}

impl Eq for Name {
    ghost laws = { nat_list_eq_equiv };
}

impl Hash for Name {
    ghost hash_input = { λ n. fed.slice fed.u8 n };

    ghost respects_eq = { Prim.search (hashing, rules) };

    fn hash<H: Hasher>(&self, state: &mut H) {
        self.bytes().hash(state);
    }
}

/// Why bytes are made no name.
#[derive(Clone, Copy, Debug, PartialEq, Eq, Error)]
pub enum NameFault {
    /// They aren't 1 to 64 bytes of a name, the first one that begins a name.
    #[error("not a name")]
    BadName,
    /// No memory was left for them.
    #[error("no memory")]
    NoMemory,
}

impl From<AllocError> for NameFault {
    ghost use Rattle.moos_post.specs.declared.name.NameFault.TheVariants.{NoMemory};
    ghost use Rattle.std.specs.Prelude.{◌≡◌};

    ghost from_gives = { λ _ fault. fault ≡ NoMemory };

    fn from(_error: AllocError) -> NameFault {
        NameFault::NoMemory
    }
}

impl Name {
    /// The name of these bytes. It is refused as `BadName` exactly if they are no name.
    pub fn new(alloc: Global, bytes: &[u8]) -> Result<Name, NameFault>
        ensures ok { IfOk result (λ name. name ≡ bytes.now) }
        ensures valid { OnOk result (IsTrue (is_name bytes.now)) }
        ensures bad { IsErrOf result NameFault.BadName ↔ (is_name bytes.now ≡ false) }
    {
        if !is_name(bytes) {
            return Err(NameFault::BadName);
        }
        let bytes = ArcSlice::from_slice(alloc, bytes)?;
        Ok(Name { bytes })
    }

    /// Its bytes.
    pub fn bytes(&self) -> &[u8]
        ensures value { result.now ≡ self.now }
        ensures name { IsTrue (is_name self.now) }
    {
        self.bytes.as_slice()
    }
}

impl Copied for Name {
    fn copy(&self, _alloc: Global) -> Result<Name, NoMemory> {
        let bytes = self.bytes.clone()?;
        Ok(Name { bytes })
    }
}

// Each is the definition of its name.
fn is_alphabetic(byte: u8) -> bool
    ensures { result ≡ is_alphabetic byte }
{
    byte.is_ascii_alphabetic()
}

fn begins_name(byte: u8) -> bool
    ensures { result ≡ begins_name byte }
{
    is_alphabetic(byte) || byte == b'_'
}

pub(crate) fn is_name_byte(byte: u8) -> bool
    ensures { result ≡ is_name_byte byte }
{
    is_alphabetic(byte) || byte.is_ascii_digit() || byte == b'_' || byte == b'-' || byte == b'.'
}

fn are_name_bytes(bytes: &[u8]) -> bool
    ensures { result ≡ list_all is_name_byte bytes.now }
{
    bytes.iter().all(|&byte| is_name_byte(byte))
}

/// Whether these bytes are a name: 1 to 64 letters, digits, `_`, `-` and `.`, the first a letter or `_`. It takes no memory.
pub fn is_name(bytes: &[u8]) -> bool
    ensures { result ≡ is_name bytes.now }
{
    match bytes {
        [] => false,
        [first, ..] => begins_name(*first) && are_name_bytes(bytes) && bytes.len() <= 64,
    }
}
