// Parts of a line between signs.
ghost use Rattle.std.specs.Prelude.{◌≡◌, ◌+◌, ◌<◌, ◌≤◌, [], ◌∷◌, length, take, drop, slice_range, MatchOption, IfSome};
ghost use Rattle.moos_text.specs.Pairs.{parts_of};

use crate::line::is_quoted_after;
use memchr::memchr2;

/// One part of a text that gives several, between one `#` outside quotes and the next.
#[derive(Clone, Copy, Debug, PartialEq, Eq)]
pub struct Part {
    /// Where the part begins.
    pub from: usize,
    /// Where it ends.
    pub to: usize,
    /// Where the next part begins, behind the `#`, and None exactly if this is the last.
    pub next: Option<usize>,
}

/// The part that begins at this place of a text.
pub fn next_part(text: &[u8], from: usize) -> Part
    requires { from ≤ length text.now }
    ensures parts { let part = slice_range text.now result.from result.to in
        MatchOption result.next
        (parts_of (drop from text.now) ≡ part ∷ [])
        (λ next. parts_of (drop from text.now) ≡ part ∷ parts_of (drop next text.now)) }

    // It goes on from this place, and stays within the text.
    ensures start { result.from ≡ from }
    ensures order { (result.from ≤ result.to) × (result.to ≤ length text.now) }
    ensures further { IfSome result.next (λ next. (result.to < next) × (next ≤ length text.now)) }
{
    let to = from + part_len(&text[from..]);
    Part {
        from,
        to,
        next: if to < text.len() { Some(to + 1) } else { None },
    }
}

// Where the first `#` outside quotes is, or the end.
fn part_len(text: &[u8]) -> usize
    ensures within { result ≤ length text.now }
    ensures cut { result < length text.now → parts_of text.now ≡ take result text.now ∷ parts_of (drop (result + 1) text.now) }
    ensures last { result ≡ length text.now → parts_of text.now ≡ text.now ∷ [] }
{
    match memchr2(b'"', b'#', text) {
        Some(_) => part_len_by_bytes(text),
        None => text.len(),
    }
}

// The same byte by byte, for a text in which there is a quote or a `#`.
#[tactic(auto, using(crate::proofs::Parts::parts_begin, crate::proofs::Parts::part_more, crate::proofs::Parts::part_ends, crate::proofs::Parts::last_ends))]
fn part_len_by_bytes(text: &[u8]) -> usize
    ensures within { result ≤ length text.now }
    ensures cut { result < length text.now → parts_of text.now ≡ take result text.now ∷ parts_of (drop (result + 1) text.now) }
    ensures last { result ≡ length text.now → parts_of text.now ≡ text.now ∷ [] }
{
    let mut quoted = false;
    for (len, byte) in text.iter().enumerate() {
        if !quoted && *byte == b'#' {
            return len;
        }
        quoted = is_quoted_after(quoted, *byte);
    }
    text.len()
}
