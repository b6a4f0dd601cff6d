// Texts without the blanks around them.
ghost use Rattle.std.specs.Prelude.{◌≡◌, reverse};
ghost use Rattle.moos_text.specs.Lines.{without_front_blanks, trimmed};

use crate::word::is_blank;

/// The bytes without the blanks at both ends.
pub fn trimmed(bytes: &[u8]) -> &[u8]
    ensures { result.now ≡ trimmed bytes.now }
{
    without_back_blanks(without_front_blanks(bytes))
}

/// The bytes from the first on that is no blank.
pub fn without_front_blanks(bytes: &[u8]) -> &[u8]
    ensures { result.now ≡ without_front_blanks bytes.now }
{
    let mut left = bytes;
    while let [byte, rest @ ..] = left {
        if !is_blank(*byte) {
            return left;
        }
        left = rest;
    }
    left
}

#[tactic(auto, using(crate::proofs::Trims::blank_back, crate::proofs::Trims::kept_back))]
fn without_back_blanks(bytes: &[u8]) -> &[u8]
    ensures { result.now ≡ reverse (without_front_blanks (reverse bytes.now)) }
{
    let mut len = bytes.len();
    while len > 0 && is_blank(bytes[len - 1]) {
        len -= 1;
    }
    &bytes[..len]
}
