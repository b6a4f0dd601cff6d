// A pair: a variable, the sign of equality, a value.
ghost use Rattle.std.specs.Prelude.{◌≡◌, ◌≢◌, true, false, Ok, Err, IfOk, IfErr, MatchOption, None, Some, position};
ghost use Rattle.moos_post.specs.Words.{is_name};
ghost use Rattle.moos_text.specs.declared.pair.PairFault.TheVariants.{BadName, NoEquals, NoMemory};
ghost use Rattle.moos_text.specs.Numbers.{milli_of};
ghost use Rattle.moos_text.specs.Pairs.{is_equals, is_quote, sides_of, text_value, quoted_value, plain_value, written_value, sides_pair, pair_of};

use crate::end::{ends_with, without_last};
use crate::number::read_milli;
use crate::trim::trimmed;
use moos_post::{Name, NameFault, Pair, Txt, Value, control_place};
use std::alloc::Global;
use thiserror::Error;

/// Why a text is made no pair.
#[derive(Clone, Copy, Debug, PartialEq, Eq, Error)]
pub enum PairFault {
    /// It has no `=`.
    #[error("no `=`")]
    NoEquals,
    /// What is before the first `=`, or before a `:` directly before it, is no name.
    #[error("not a name")]
    BadName,
    /// The value is empty and unquoted, or badly quoted, or holds a byte that a text can't hold.
    #[error("not a value")]
    BadValue,
    /// The value is a text of more than 4,096 bytes.
    #[error("a text above 4,096 bytes")]
    TooLong,
    /// No memory was left for it.
    #[error("no memory")]
    NoMemory,
}

/// The pair that a text stands for: `VAR=value`, where the value is a number if it is one and else a text, or
/// `VAR:=value`, if it is a text. A text may be between two `"`. Blanks around both sides are dropped.
///
/// A refusal is the first fault of the text in the order of [`PairFault`], or that no memory was left.
pub fn read_pair(alloc: Global, text: &[u8]) -> Result<Pair, PairFault>
    ensures pair { IfOk result (λ pair. pair_of text.now ≡ Ok pair) }
    ensures fault { IfErr result (λ fault. fault ≢ NoMemory → pair_of text.now ≡ Err fault) }
{
    match pair_sides(text) {
        Some(sides) => read_sides(alloc, sides.var, sides.as_text, sides.value),
        None => Err(PairFault::NoEquals),
    }
}

/// The two sides of a pair as they are written, without blanks at their ends.
#[derive(Clone, Copy)]
pub struct PairSides<'a> {
    /// What must be the variable's name.
    pub var: &'a [u8],
    /// Whether a `:` stands before the `=`, so that the value is a text.
    pub as_text: bool,
    /// What must be the value.
    pub value: &'a [u8],
}

/// The sides of the pair that a text stands for; None exactly if it has no `=`. It takes no memory, so a reader that
/// knows the variable makes no name of it.
pub fn pair_sides(text: &[u8]) -> Option<PairSides<'_>>
    ensures { MatchOption result (pair_of text.now ≡ Err NoEquals) (λ sides. pair_of text.now ≡ sides_pair sides.var.now sides.as_text sides.value.now) }
{
    match equals_at(text) {
        Some(equals) => {
            let side = &text[..equals];
            Some(PairSides {
                var: trimmed(without_last(side, b':')),
                as_text: ends_with(side, b':'),
                value: trimmed(&text[equals + 1..]),
            })
        }
        None => None,
    }
}

/// What is before the first `=` of a text and behind it, without blanks at the ends; None exactly if there is none.
pub fn cut_at_equals(text: &[u8]) -> Option<(&[u8], &[u8])>
    ensures { MatchOption result (sides_of text.now ≡ None) (λ cut. sides_of text.now ≡ Some (record { name = cut.0.now; value = cut.1.now })) }
{
    match equals_at(text) {
        Some(equals) => Some((trimmed(&text[..equals]), trimmed(&text[equals + 1..]))),
        None => None,
    }
}

fn equals_at(text: &[u8]) -> Option<usize>
    ensures { result ≡ position is_equals text.now }
{
    text.iter().position(|&byte| byte == b'=')
}

fn read_sides(alloc: Global, var: &[u8], as_text: bool, value: &[u8]) -> Result<Pair, PairFault>
    ensures pair { IfOk result (λ pair. sides_pair var.now as_text value.now ≡ Ok pair) }
    ensures fault { IfErr result (λ fault. fault ≢ NoMemory → sides_pair var.now as_text value.now ≡ Err fault) }
{
    let var = read_var(alloc, var)?;
    let value = read_value(alloc, as_text, value)?;
    Ok(Pair { var, value })
}

fn read_var(alloc: Global, bytes: &[u8]) -> Result<Name, PairFault>
    ensures name { IfOk result (λ name. (name ≡ bytes.now) × (is_name bytes.now ≡ true)) }
    ensures fault { IfErr result (λ fault. fault ≢ NoMemory → (fault ≡ BadName) × (is_name bytes.now ≡ false)) }
{
    match Name::new(alloc, bytes) {
        Ok(name) => Ok(name),
        Err(NameFault::BadName) => Err(PairFault::BadName),
        Err(NameFault::NoMemory) => Err(PairFault::NoMemory),
    }
}

/// The value that is written so: a text between two `"`; or else a number if it is one and isn't to be a text, or a text.
pub fn read_value(alloc: Global, as_text: bool, side: &[u8]) -> Result<Value, PairFault>
    ensures value { IfOk result (λ value. written_value as_text side.now ≡ Ok value) }
    ensures fault { IfErr result (λ fault. fault ≢ NoMemory → written_value as_text side.now ≡ Err fault) }
{
    match side {
        [] => Err(PairFault::BadValue),
        [b'"', rest @ ..] => read_quoted(alloc, rest),
        _ => if as_text {
            read_text(alloc, side)
        } else {
            read_plain(alloc, side)
        },
    }
}

fn read_quoted(alloc: Global, rest: &[u8]) -> Result<Value, PairFault>
    ensures value { IfOk result (λ value. quoted_value rest.now ≡ Ok value) }
    ensures fault { IfErr result (λ fault. fault ≢ NoMemory → quoted_value rest.now ≡ Err fault) }
{
    match quote_at(rest) {
        Some(quote) => if quote + 1 == rest.len() {
            read_text(alloc, &rest[..quote])
        } else {
            Err(PairFault::BadValue)
        },
        None => Err(PairFault::BadValue),
    }
}

fn quote_at(text: &[u8]) -> Option<usize>
    ensures { result ≡ position is_quote text.now }
{
    text.iter().position(|&byte| byte == b'"')
}

/// A value without quotes: a number if the bytes are one, and else a text.
pub fn read_plain(alloc: Global, side: &[u8]) -> Result<Value, PairFault>
    ensures value { IfOk result (λ value. plain_value (milli_of side.now) side.now ≡ Ok value) }
    ensures fault { IfErr result (λ fault. fault ≢ NoMemory → plain_value (milli_of side.now) side.now ≡ Err fault) }
{
    match read_milli(side) {
        Some(number) => Ok(Value::Num(number)),
        None => read_text(alloc, side),
    }
}

/// These bytes as a text.
pub fn read_text(alloc: Global, bytes: &[u8]) -> Result<Value, PairFault>
    ensures value { IfOk result (λ value. text_value bytes.now ≡ Ok value) }
    ensures fault { IfErr result (λ fault. fault ≢ NoMemory → text_value bytes.now ≡ Err fault) }
{
    if control_place(bytes).is_some() {
        return Err(PairFault::BadValue);
    }
    if bytes.len() > 4096 {
        return Err(PairFault::TooLong);
    }
    match Txt::new(alloc, bytes) {
        Ok(text) => Ok(Value::Text(text)),
        Err(_) => Err(PairFault::NoMemory),
    }
}
