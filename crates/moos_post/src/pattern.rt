// Patterns of names.
ghost use Rattle.std.specs.Prelude.{◌≡◌, ◌↔◌, false, IsTrue, IfOk, OnOk, IsErrOf};
ghost use Rattle.std.specs.List.{list_all};
ghost use Rattle.moos_post.specs.Words.{is_pattern_byte, is_pattern};

use crate::NoMemory;
use crate::copied::Copied;
use crate::name::is_name_byte;
use std::alloc::{AllocError, Global};
use std::marker::Model;
use thiserror::Error;

/// What a registration asks for by name: 1 to 64 bytes of a name's, `*` for any run of bytes and `?` for any one byte.
///
/// Contracts see its bytes.
#[derive(Debug, Drop)]
pub struct Pattern {
    bytes: Vec<u8>,
}

impl Model for Pattern {
    ghost use Rattle.std.specs.Prelude.{List, ℕ, IsTrue};
    ghost use Rattle.moos_post.specs.Words.{is_pattern};

    ghost Value = { List ℕ };

    ghost view = { λ p. p.bytes.items };

    ghost invariant = { λ p. IsTrue (is_pattern p.bytes.items) };
}

/// Why bytes are made no pattern.
#[derive(Clone, Copy, Debug, PartialEq, Eq, Error)]
pub enum PatternFault {
    /// They aren't 1 to 64 bytes of a pattern.
    #[error("not a pattern")]
    BadPattern,
    /// No memory was left for them.
    #[error("no memory")]
    NoMemory,
}

impl From<AllocError> for PatternFault {
    ghost use Rattle.moos_post.specs.declared.pattern.PatternFault.TheVariants.{NoMemory};
    ghost use Rattle.std.specs.Prelude.{◌≡◌};

    ghost from_gives = { λ _ fault. fault ≡ NoMemory };

    fn from(_error: AllocError) -> PatternFault {
        PatternFault::NoMemory
    }
}

impl Pattern {
    /// The pattern of these bytes. It is refused as `BadPattern` exactly if they are no pattern.
    pub fn read(alloc: Global, bytes: &[u8]) -> Result<Pattern, PatternFault>
        ensures ok { IfOk result (λ pattern. pattern ≡ bytes.now) }
        ensures valid { OnOk result (IsTrue (is_pattern bytes.now)) }
        ensures bad { IsErrOf result PatternFault.BadPattern ↔ (is_pattern bytes.now ≡ false) }
    {
        if !is_pattern(bytes) {
            return Err(PatternFault::BadPattern);
        }
        let bytes = Vec::from_slice(alloc, bytes)?;
        Ok(Pattern { bytes })
    }

    /// Its bytes.
    pub fn bytes(&self) -> &[u8]
        ensures value { result.now ≡ self.now }
        ensures pattern { IsTrue (is_pattern self.now) }
    {
        self.bytes.as_slice()
    }
}

impl Copied for Pattern {
    fn copy(&self, alloc: Global) -> Result<Pattern, NoMemory> {
        let bytes = Vec::from_slice(alloc, self.bytes.as_slice())?;
        Ok(Pattern { bytes })
    }
}

// Each is the definition of its name.
fn is_pattern_byte(byte: u8) -> bool
    ensures { result ≡ is_pattern_byte byte }
{
    is_name_byte(byte) || byte == b'*' || byte == b'?'
}

fn are_pattern_bytes(bytes: &[u8]) -> bool
    ensures { result ≡ list_all is_pattern_byte bytes.now }
{
    bytes.iter().all(|&byte| is_pattern_byte(byte))
}

fn is_pattern(bytes: &[u8]) -> bool
    ensures { result ≡ is_pattern bytes.now }
{
    bytes.len() >= 1 && are_pattern_bytes(bytes) && bytes.len() <= 64
}
