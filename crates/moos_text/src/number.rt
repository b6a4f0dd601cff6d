// Numbers, read.
ghost use Rattle.std.specs.Prelude.{◌≡◌, ℕ, ◌<◌, ◌≤◌, ◌-◌, ◌^◌, ◌++◌, min, take, codes, true, IsTrue, IfSome, IfNone, Some, None, pos, neg_ℤ, if◌then◌else◌};
ghost use Rattle.std.specs.List.{list_all};
ghost use Rattle.moos_post.specs.Words.{is_digit};
ghost use Rattle.moos_text.specs.Numbers.{digits_value, unsigned_of, unsigned_within, milli_of, whole_of, whole_part};
ghost use Rattle.moos_text.specs.Reading.{IsFront, IsParted};

use moos_post::Milli;

/// The number of thousandths that a text stands for: a sign or none, then digits with at most one point, at least one
/// digit in all. Decimals past the third are dropped.
///
/// None exactly if the text is no such number, or its value is beyond 10^12 thousandths either way.
pub fn read_milli(text: &[u8]) -> Option<Milli>
    ensures { result ≡ milli_of text.now }
{
    match text {
        [b'+', rest @ ..] => signed(false, read_size(rest)?),
        [b'-', rest @ ..] => signed(true, read_size(rest)?),
        _ => signed(false, read_size(text)?),
    }
}

// A number behind its sign.
fn read_size(text: &[u8]) -> Option<u64>
    ensures value { result ≡ unsigned_of text.now }
    ensures within { IfSome result (λ n. n ≤ 10 ^ 12) }
{
    read_unsigned(text, 1_000_000_000_000)
}

/// The whole number, not below zero, that a text stands for: a number without thousandths. None exactly if it is none.
pub fn read_whole(text: &[u8]) -> Option<u32>
    ensures { result ≡ whole_of text.now }
{
    whole_part(read_milli(text)?)
}

fn whole_part(thousandths: Milli) -> Option<u32>
    ensures { result ≡ whole_part thousandths }
{
    let thousandths = thousandths.get();
    if 0 <= thousandths && thousandths % 1000 == 0 {
        Some((thousandths / 1000) as u32)
    } else {
        None
    }
}

// The number of this many thousandths, below zero or not.
fn signed(negative: bool, thousandths: u64) -> Option<Milli>
    requires { thousandths ≤ 10 ^ 12 }
    ensures { result ≡ Some (if negative then neg_ℤ (pos thousandths) else pos thousandths) }
{
    let thousandths = thousandths as i64;
    Milli::new(if negative { -thousandths } else { thousandths })
}

/// The number of thousandths that a text without a sign stands for: digits with at most one point, at least one digit in
/// all. Decimals past the third are dropped.
///
/// None exactly if the text is no such number, or its value is above `most`.
pub fn read_unsigned(text: &[u8], most: u64) -> Option<u64>
    requires { most ≤ 10 ^ 15 }
    ensures value { result ≡ unsigned_within most text.now }
    ensures within { IfSome result (λ n. n ≤ most) }
{
    let whole = front_digits(text);
    let decimals = decimals_behind(text, whole.count)?;
    if !are_digits(decimals) || whole.count + decimals.len() == 0 {
        return None;
    }
    let thousandths = whole.value * 1000 + first_decimals(decimals);
    if thousandths <= most {
        Some(thousandths)
    } else {
        None
    }
}

// The bytes behind the point that follows the whole part, or none at the end of the text. Another byte than a point
// makes the text no number.
fn decimals_behind(text: &[u8], whole: usize) -> Option<&[u8]>
    requires { IsFront whole text.now }
    ensures some { IfSome result (λ decimals. IsParted text.now whole decimals.now) }
    ensures none { IfNone result ((most : ℕ) → unsigned_within most text.now ≡ None) }
{
    if whole == text.len() {
        return Some(&[]);
    }
    if text[whole] == b'.' {
        Some(&text[whole + 1..])
    } else {
        None
    }
}

// A value above any number's whole part.
const TOO_GREAT: u64 = 1_000_000_000_001;

// The digits at the front of a text: how many, and the value that they spell, or `TOO_GREAT` if it is more.
#[derive(Clone, Copy)]
struct Digits {
    count: usize,
    value: u64,
}

#[tactic(auto, using(crate::proofs::Numerals::value_more))]
fn front_digits(text: &[u8]) -> Digits
    ensures front { IsFront result.count text.now }
    ensures value { result.value ≡ min (digits_value (take result.count text.now)) TOO_GREAT }
{
    let mut value = 0;
    for (count, byte) in text.iter().enumerate() {
        if !byte.is_ascii_digit() {
            return Digits { count, value };
        }
        value = (value * 10 + (*byte - b'0') as u64).min(TOO_GREAT);
    }
    Digits {
        count: text.len(),
        value,
    }
}

fn are_digits(text: &[u8]) -> bool
    ensures { result ≡ list_all is_digit text.now }
{
    text.iter().all(|byte| byte.is_ascii_digit())
}

// The first three decimals, as thousandths.
fn first_decimals(decimals: &[u8]) -> u64
    requires { list_all is_digit decimals.now ≡ true }
    ensures value { result ≡ digits_value (take 3 (decimals.now ++ codes "000")) }
    ensures within { result < 1000 }
{
    match decimals {
        [] => 0,
        [tenths] => 100 * digit(*tenths),
        [tenths, hundredths] => 100 * digit(*tenths) + 10 * digit(*hundredths),
        [tenths, hundredths, thousandths, ..] => 100 * digit(*tenths)
            + 10 * digit(*hundredths)
            + digit(*thousandths),
    }
}

fn digit(byte: u8) -> u64
    requires { IsTrue (is_digit byte) }
    ensures value { result ≡ byte - 48 }
    ensures within { result < 10 }
{
    (byte - b'0') as u64
}
