// Texts of a post.
ghost use Rattle.std.specs.Prelude.{◌≡◌, ◌↔◌, ◌<◌, ◌≤◌, ℕ, IsTrue, Some, IfOk, OnOk, IsErrOf, length};
ghost use Rattle.moos_post.specs.Words.{is_control, control_place, is_text};

use crate::NoMemory;
use crate::copied::Copied;
use std::alloc::{AllocError, Global};
use std::marker::Model;
use thiserror::Error;

/// A text of at most 4,096 bytes, none of them a control byte other than a tab.
///
/// Contracts see its bytes.
#[derive(Debug, Drop)]
pub struct Txt {
    bytes: Vec<u8>,
}

impl Model for Txt {
    ghost use Rattle.std.specs.Prelude.{List, ℕ, IsTrue};
    ghost use Rattle.moos_post.specs.Words.{is_text};

    ghost Value = { List ℕ };

    ghost view = { λ t. t.bytes.items };

    ghost invariant = { λ t. IsTrue (is_text t.bytes.items) };
}

/// Why bytes are made no text.
#[derive(Clone, Copy, Debug, PartialEq, Eq, Error)]
pub enum TxtFault {
    /// They are this many, more than 4,096.
    #[error("a text of {0} bytes")]
    TooLong(usize),
    /// A text can't hold the byte that is here, counted from 0; no earlier byte is such.
    #[error("a bad byte at {0}")]
    BadByte(usize),
    /// No memory was left for them.
    #[error("no memory")]
    NoMemory,
}

impl From<AllocError> for TxtFault {
    ghost use Rattle.moos_post.specs.declared.txt.TxtFault.TheVariants.{NoMemory};
    ghost use Rattle.std.specs.Prelude.{◌≡◌};

    ghost from_gives = { λ _ fault. fault ≡ NoMemory };

    fn from(_error: AllocError) -> TxtFault {
        TxtFault::NoMemory
    }
}

impl Txt {
    /// The text of these bytes. It is refused as `TooLong` exactly if they are more than 4,096, and else as
    /// `BadByte` exactly if a control byte other than a tab is among them, at the first such place.
    pub fn new(alloc: Global, bytes: &[u8]) -> Result<Txt, TxtFault>
        ensures ok { IfOk result (λ text. text ≡ bytes.now) }
        ensures valid { OnOk result (IsTrue (is_text bytes.now)) }
        ensures long { (len : ℕ) → IsErrOf result (TxtFault.TooLong len) ↔ ((4096 < len) × (len ≡ length bytes.now)) }
        ensures bad { (place : ℕ) → IsErrOf result (TxtFault.BadByte place) ↔ ((length bytes.now ≤ 4096) × (control_place bytes.now ≡ Some place)) }
    {
        if bytes.len() > 4096 {
            return Err(TxtFault::TooLong(bytes.len()));
        }
        if let Some(place) = control_place(bytes) {
            return Err(TxtFault::BadByte(place));
        }
        let bytes = Vec::from_slice(alloc, bytes)?;
        Ok(Txt { bytes })
    }

    /// Its bytes.
    pub fn bytes(&self) -> &[u8]
        ensures value { result.now ≡ self.now }
        ensures text { IsTrue (is_text self.now) }
    {
        self.bytes.as_slice()
    }
}

impl Copied for Txt {
    fn copy(&self, alloc: Global) -> Result<Txt, NoMemory> {
        let bytes = Vec::from_slice(alloc, self.bytes.as_slice())?;
        Ok(Txt { bytes })
    }
}

/// Where the first byte is that a text can't hold, counted from 0.
pub fn control_place(bytes: &[u8]) -> Option<usize>
    ensures { result ≡ control_place bytes.now }
{
    bytes.iter().position(|&byte| is_control(byte))
}

fn is_control(byte: u8) -> bool
    ensures { result ≡ is_control byte }
{
    (byte <= 31 && byte != b'\t') || byte == 127
}
