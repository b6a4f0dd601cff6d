// Numbers and places in a line of a problem.
ghost use Rattle.std.specs.Prelude.{◌≡◌, ◌≤◌, ◌+◌, ◌^◌, ◌==◌, ◌&&◌, Some, IsTrue, IfSome, min, int_le, neg_ℤ, pos, true};
ghost use Rattle.std.specs.List.{list_all};
ghost use Rattle.moos_post.specs.Words.{is_digit};
ghost use Rattle.moos_text.specs.Lines.{trimmed};
ghost use Rattle.moos_text.specs.Numbers.{digits_value};
ghost use Rattle.ivp_cert.specs.Words.{axis_of, integer_of, natural_of, place_of, without_prefix};

use axis_reader::four_fields;
use ivp_domain::Axis;
use moos_text::trimmed;

/// What counts of a line that is given without its end: it is trimmed, and then a `%% ` in front is dropped.
pub fn content_of(line: &[u8]) -> &[u8]
    ensures { result.now ≡ without_prefix (trimmed line.now) }
{
    without_prefix(trimmed(line))
}

fn without_prefix(line: &[u8]) -> &[u8]
    ensures { result.now ≡ without_prefix line.now }
{
    match line {
        [b'%', b'%', b' ', rest @ ..] => rest,
        _ => line,
    }
}

fn are_digits(word: &[u8]) -> bool
    ensures { result ≡ list_all is_digit word.now }
{
    word.iter().all(|byte| byte.is_ascii_digit())
}

// The number that digits spell, or one above the greatest that is allowed if it is more than that.
#[tactic(auto, using(moos_text::proofs::Numerals::value_more))]
fn capped_value(digits: &[u8], most: u64) -> u64
    requires digits { list_all is_digit digits.now ≡ true }
    requires most { most ≤ 10 ^ 14 }
    ensures { result ≡ min (digits_value digits.now) (most + 1) }
{
    let mut value = 0;
    for digit in digits {
        value = (value * 10 + (*digit - b'0') as u64).min(most + 1);
    }
    value
}

/// The number that digits alone spell, from 0 to the greatest that is allowed.
pub fn natural_of(word: &[u8], most: u64) -> Option<u64>
    requires { most ≤ 10 ^ 14 }
    ensures value { result ≡ natural_of most word.now }
    ensures within { IfSome result (λ n. n ≤ most) }
{
    if word.len() == 0 || !are_digits(word) {
        return None;
    }
    let value = capped_value(word, most);
    if value <= most { Some(value) } else { None }
}

/// A place on an axis.
pub fn place_of(word: &[u8]) -> Option<u32>
    ensures { result ≡ place_of word.now }
{
    match natural_of(word, u32::MAX as u64) {
        Some(place) => Some(place as u32),
        None => None,
    }
}

/// The number of at most so much either way that digits spell, behind a `-` or not.
pub fn integer_of(word: &[u8], most: u64) -> Option<i64>
    requires { most ≤ 10 ^ 14 }
    ensures value { result ≡ integer_of most word.now }
    ensures within { IfSome result (λ n. IsTrue (int_le (neg_ℤ (pos most)) n && int_le n (pos most))) }
{
    match word {
        [b'-', rest @ ..] => Some(-(natural_of(rest, most)? as i64)),
        _ => Some(natural_of(word, most)? as i64),
    }
}

/// The axis that a word NAME:LOW:HIGH:POINTS spells.
pub fn axis_of(word: &[u8]) -> Option<Axis>
    ensures { result ≡ axis_of word.now }
{
    axis_reader::axis_of(&four_fields(word)?)
}
