// Numbers in thousandths, printed.
ghost use Rattle.std.specs.Prelude.{◌≡◌, ℕ, ◌<◌, ◌≤◌, drop, length, Some};
ghost use Rattle.moos_post.specs.Words.{IsMilli};
ghost use Rattle.moos_text.specs.Numbers.{decimals_text, unsigned_text, unsigned_within, milli_text, milli_of};

use itoa::write_digits;
use moos_post::Milli;
use std::marker::Model;

/// A number as it prints, at most 24 bytes, which take no memory. Contracts see the bytes.
#[derive(Debug, Drop)]
pub struct MilliText {
    // It is filled from its end: what was written is from `start` on.
    buffer: [u8; 24],
    start: usize,
}

impl Model for MilliText {
    ghost use Rattle.std.specs.Prelude.{List, ℕ, ◌≤◌, drop};

    ghost Value = { List ℕ };

    ghost view = { λ text. drop text.start text.buffer };

    ghost invariant = { λ text. text.start ≤ 24 };
}

impl MilliText {
    /// The bytes.
    pub fn bytes(&self) -> &[u8]
        ensures value { result.now ≡ self.now }
        ensures short { length result.now ≤ 24 }
    {
        &self.buffer[self.start..]
    }
}

/// The number as it prints: `-` if it is below zero, the whole part without leading zeros, and if the rest isn't
/// 0 a point and the decimals without trailing zeros. [`read_milli`](crate::read_milli) of it gives the number back.
#[inline]
#[tactic(auto, using(crate::proofs::RoundTrip::milli_back))]
pub fn print_milli(value: Milli) -> MilliText
    ensures text { result ≡ milli_text value }
    ensures read_back { milli_of result ≡ Some value }
{
    let mut buffer = [0; 24];
    let start = write_signed(value.get(), &mut buffer);
    MilliText { buffer, start }
}

/// Thousandths without a sign as they print, as milliseconds do in seconds: the whole part without leading zeros, and if
/// the rest isn't 0 a point and the decimals without trailing zeros. [`read_unsigned`](crate::read_unsigned) of it gives
/// them back.
#[inline]
#[tactic(auto, using(crate::proofs::RoundTrip::unsigned_back))]
pub fn print_unsigned(thousandths: u64) -> MilliText
    ensures text { result ≡ unsigned_text thousandths }
    ensures read_back { (most : ℕ) → thousandths ≤ most → unsigned_within most result ≡ Some thousandths }
{
    let mut buffer = [0; 24];
    let start = write_unsigned(thousandths, &mut buffer);
    MilliText { buffer, start }
}

/// The decimals of a number as they print: a point and the decimals without trailing zeros, and nothing if they are 0.
pub fn print_decimals(rest: u64) -> MilliText
    requires { rest < 1000 }
    ensures { result ≡ decimals_text rest }
{
    let mut buffer = [0; 24];
    let start = write_decimals(rest, &mut buffer);
    MilliText { buffer, start }
}

// Each of these writes a text so that it ends where the buffer ends, and gives the place where the text starts.

#[inline]
fn write_signed(thousandths: i64, buffer: &mut [u8; 24]) -> usize
    requires { IsMilli thousandths }
    ensures text { drop result buffer.new ≡ milli_text thousandths }
    ensures within { result ≤ 24 }
{
    let start = write_unsigned(thousandths.unsigned_abs(), buffer);
    if thousandths >= 0 {
        return start;
    }
    buffer[start - 1] = b'-';
    start - 1
}

// Thousandths without a sign as they print, with room for a sign in front.
#[inline]
fn write_unsigned(n: u64, buffer: &mut [u8; 24]) -> usize
    ensures text { drop result buffer.new ≡ unsigned_text n }
    ensures room { 0 < result }
    ensures within { result ≤ 24 }
{
    let point = write_decimals(n % 1000, buffer);
    write_digits(n / 1000, buffer, point)
}

// A number below 1,000 as a point and its decimals without trailing zeros, and nothing if it is 0.
fn write_decimals(rest: u64, buffer: &mut [u8; 24]) -> usize
    requires { rest < 1000 }
    ensures text { drop result buffer.new ≡ decimals_text rest }
    ensures room { 20 ≤ result }
    ensures within { result ≤ 24 }
{
    let tenths = b'0' + (rest / 100) as u8;
    let hundredths = b'0' + (rest / 10 % 10) as u8;
    let thousandths = b'0' + (rest % 10) as u8;
    if rest == 0 {
        return 24;
    }
    if rest % 100 == 0 {
        buffer[23] = tenths;
        buffer[22] = b'.';
        return 22;
    }
    if rest % 10 == 0 {
        buffer[23] = hundredths;
        buffer[22] = tenths;
        buffer[21] = b'.';
        return 21;
    }
    buffer[23] = thousandths;
    buffer[22] = hundredths;
    buffer[21] = tenths;
    buffer[20] = b'.';
    20
}
