// Bytes that are held back, in one array.
ghost use Rattle.std.specs.Prelude.{◌≡◌, ◌↔◌, ◌+◌, ◌≤◌, ◌++◌, [], drop, length, IsTrue, take};

use std::marker::Model;

/// How many bytes are held back at most.
const ROOM: usize = 65_536;

/// Bytes that are held back, up to 64 KiB. Contracts see them.
#[derive(Drop)]
pub(crate) struct HeldBytes {
    bytes: [u8; ROOM],
    len: usize,
}

impl Model for HeldBytes {
    ghost use Rattle.std.specs.Prelude.{List, ℕ, ◌≤◌, length, take};

    ghost Value = { List ℕ };

    ghost view = { λ it. take it.len it.bytes };

    ghost invariant = { λ it. it.len ≤ length it.bytes };
}

impl HeldBytes {
    /// None.
    pub(crate) fn new() -> HeldBytes
        ensures { result ≡ [] }
    {
        HeldBytes {
            bytes: [0; ROOM],
            len: 0,
        }
    }

    /// All of them.
    pub(crate) fn as_slice(&self) -> &[u8]
        ensures { result.now ≡ self.now }
    {
        &self.bytes[..self.len]
    }

    /// Whether there is room for the piece behind them.
    pub(crate) fn has_room(&self, piece: &[u8]) -> bool
        ensures { IsTrue result ↔ (length self.now + length piece.now ≤ ROOM) }
    {
        piece.len() <= ROOM - self.len
    }

    /// Holds the piece too, behind the others.
    pub(crate) fn hold(&mut self, piece: &[u8])
        requires { length self.old + length piece.now ≤ ROOM }
        ensures { self.new ≡ self.old ++ piece.now }
    {
        write_at(&mut self.bytes, self.len, piece);
        self.len += piece.len();
    }

    /// Lets the first `count` of them go. What is left moves to the front: nothing, unless only some were taken.
    pub(crate) fn let_go(&mut self, count: usize)
        requires { count ≤ length self.old }
        ensures { self.new ≡ drop count self.old }
    {
        self.bytes.copy_within(count..self.len, 0);
        self.len -= count;
    }
}

// Writes the piece at this place, over what stood there.
fn write_at(bytes: &mut [u8], place: usize, piece: &[u8])
    requires { place + length piece.now ≤ length bytes.old }
    ensures written { take (place + length piece.now) bytes.new ≡ take place bytes.old ++ piece.now }
    ensures same { length bytes.new ≡ length bytes.old }
{
    bytes[place..place + piece.len()].copy_from_slice(piece);
}
