// Words of a line.
ghost use Rattle.std.specs.Prelude.{◌≡◌, ◌==◌, ◌||◌, [], ◌∷◌, MatchOption, IfNone, IfSome};
ghost use Rattle.std.specs.List.{position, position_or_len};
ghost use Rattle.std.specs.Str.{str_eq_ignore_ascii_case};
ghost use Rattle.moos_text.specs.Lines.{is_blank, words_of, first_word, behind_word};

use crate::trim::without_front_blanks;

/// A blank is a space or a tab.
pub(crate) fn is_blank(byte: u8) -> bool
    ensures { result ≡ is_blank byte }
{
    byte == b' ' || byte == b'\t'
}

// Where the first blank is.
fn first_blank(text: &[u8]) -> Option<usize>
    ensures { result ≡ position is_blank text.now }
{
    text.iter().position(|&byte| is_blank(byte))
}

// How many bytes are before the first blank.
#[tactic(auto, using(crate::proofs::WordLemmas::position_or_len_of))]
fn bytes_before_blank(text: &[u8]) -> usize
    ensures { result ≡ position_or_len is_blank text.now }
{
    first_blank(text).unwrap_or(text.len())
}

/// The first word of a text, and what follows it; `None` exactly if no word is in the text.
pub fn next_word(text: &[u8]) -> Option<(&[u8], &[u8])>
    ensures words { MatchOption result (words_of text.now ≡ []) (λ found. words_of text.now ≡ found.0.now ∷ words_of found.1.now) }
    ensures none { IfNone result ((first_word text.now ≡ []) × (behind_word text.now ≡ [])) }
    ensures first { IfSome result (λ found. found.0.now ≡ first_word text.now) }
    ensures behind { IfSome result (λ found. found.1.now ≡ behind_word text.now) }
{
    let found = without_front_blanks(text);
    if found.is_empty() {
        return None;
    }
    Some(found.split_at(bytes_before_blank(found)))
}

/// The first word, empty if there is none, and what follows it.
pub fn split_word(text: &[u8]) -> (&[u8], &[u8])
    ensures first { result.0.now ≡ first_word text.now }
    ensures behind { result.1.now ≡ behind_word text.now }
{
    match next_word(text) {
        Some(split) => split,
        None => (b"".as_slice(), b"".as_slice()),
    }
}

/// Whether a word is this name, in letters of either case.
pub fn is_named(word: &[u8], name: &[u8]) -> bool
    ensures { result ≡ str_eq_ignore_ascii_case word.now name.now }
{
    word.eq_ignore_ascii_case(name)
}
