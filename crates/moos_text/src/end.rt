// How a text ends.
ghost use Rattle.std.specs.Prelude.{◌≡◌, ◌≤◌, length, take};
ghost use Rattle.moos_text.specs.Lines.{ends_with, without_last};

/// Whether the bytes end with this one.
#[tactic(auto, using(crate::proofs::Ends::ends_with_last))]
pub fn ends_with(bytes: &[u8], last: u8) -> bool
    ensures { result ≡ ends_with last bytes.now }
{
    bytes.len() > 0 && bytes[bytes.len() - 1] == last
}

/// The bytes, without this one if they end with it.
#[tactic(auto, using(crate::proofs::Ends::with_last, crate::proofs::Ends::no_last))]
pub fn without_last(bytes: &[u8], last: u8) -> &[u8]
    ensures value { result.now ≡ without_last last bytes.now }
    ensures front { result.now ≡ take (length result.now) bytes.now }
    ensures within { length result.now ≤ length bytes.now }
{
    if bytes.len() == 0 {
        return bytes;
    }
    let front = bytes.len() - 1;
    if bytes[front] == last {
        &bytes[..front]
    } else {
        bytes
    }
}
