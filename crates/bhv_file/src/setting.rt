// What the values of parameters say.
ghost use Rattle.std.specs.Prelude.{◌≡◌, IfOk};
ghost use Rattle.bhv_file.specs.Values.{contact_of, flag_of, templating_of, number_value, order_of, repeat_of, setting_of, piece_size_of, time_value, weight_of, duration_of};

use crate::places::{read_only_place, read_places, read_polygon};
use crate::spec::Spots;
use crate::table::ValueRange;
use helm_geo::Spot;
use moos_post::{Name, NameFault, NoMemory};
use moos_text::{read_milli, read_whole};
use std::alloc::{AllocError, Global};

/// A value of a parameter. A number is in thousandths, a time in milliseconds, and no number of repeats is for ever.
#[derive(Drop)]
pub enum Setting {
    Number(i64),
    Time(u64),
    Flag(bool),
    Repeat(Option<u32>),
    Places(Spots),
    Place(Spot),
    Contact(Name),
    Size(u32),
}

/// What a value of a parameter says; None exactly if it isn't in the range.
pub fn read_setting(
    alloc: Global,
    range: ValueRange,
    text: &[u8],
) -> Result<Option<Setting>, NoMemory>
    ensures { IfOk result (λ setting. setting ≡ setting_of range text.now) }
{
    Ok(match range {
        ValueRange::Number { low, high } => read_number(low, high, text).map(Setting::Number),
        ValueRange::Time => read_time(text).map(Setting::Time),
        ValueRange::Flag => read_flag(text).map(Setting::Flag),
        ValueRange::Order => read_order(text).map(Setting::Flag),
        ValueRange::Repeat => read_repeat(text).map(Setting::Repeat),
        ValueRange::Places => read_places(alloc, text)?.map(Setting::Places),
        ValueRange::Polygon => read_polygon(alloc, text)?.map(Setting::Places),
        ValueRange::Place => read_only_place(alloc, text)?.map(Setting::Place),
        ValueRange::Contact => read_contact(alloc, text)?.map(Setting::Contact),
        ValueRange::Size => read_size(text).map(Setting::Size),
    })
}

/// A number from `low` to `high`, in thousandths.
pub fn read_number(low: i64, high: i64, text: &[u8]) -> Option<i64>
    ensures { result ≡ number_value low high text.now }
{
    let number = read_milli(text)?.get();
    if low <= number && number <= high {
        Some(number)
    } else {
        None
    }
}

// A number of seconds up to 1,000,000, in milliseconds.
fn read_time(text: &[u8]) -> Option<u64>
    ensures { result ≡ time_value text.now }
{
    let number = read_number(0, 1_000_000_000, text)?;
    Some(number as u64)
}

/// How long a behaviour lasts, in milliseconds, if it isn't for ever.
pub fn read_duration(text: &[u8]) -> Option<Option<u64>>
    ensures { result ≡ duration_of text.now }
{
    if text == b"no-time-limit".as_slice() {
        Some(None)
    } else {
        Some(Some(read_time(text)?))
    }
}

/// A weight up to 10,000, in thousandths.
pub fn read_weight(text: &[u8]) -> Option<u32>
    ensures { result ≡ weight_of text.now }
{
    let number = read_number(0, 10_000_000, text)?;
    Some(number as u32)
}

/// `true` or `false`.
pub fn read_flag(text: &[u8]) -> Option<bool>
    ensures { result ≡ flag_of text.now }
{
    if text == b"true".as_slice() {
        Some(true)
    } else if text == b"false".as_slice() {
        Some(false)
    } else {
        None
    }
}

/// `spawn` for a template, or `disallowed`.
pub fn read_templating(text: &[u8]) -> Option<bool>
    ensures { result ≡ templating_of text.now }
{
    if text == b"spawn".as_slice() {
        Some(true)
    } else if text == b"disallowed".as_slice() {
        Some(false)
    } else {
        None
    }
}

// Whether places are taken from the last to the first.
fn read_order(text: &[u8]) -> Option<bool>
    ensures { result ≡ order_of text.now }
{
    if text == b"reverse".as_slice() || text == b"reversed".as_slice() {
        Some(true)
    } else if text == b"normal".as_slice() {
        Some(false)
    } else {
        None
    }
}

// How often places are begun again.
fn read_repeat(text: &[u8]) -> Option<Option<u32>>
    ensures { result ≡ repeat_of text.now }
{
    if text == b"forever".as_slice() {
        return Some(None);
    }
    let number = read_whole(text)?;
    if number <= 1_000_000 {
        Some(Some(number))
    } else {
        None
    }
}

// The name of a contact, of at most 32 bytes.
fn read_contact(alloc: Global, text: &[u8]) -> Result<Option<Name>, NoMemory>
    ensures { IfOk result (λ name. name ≡ contact_of text.now) }
{
    if text.len() > 32 {
        return Ok(None);
    }
    match Name::new(alloc, text) {
        Ok(name) => Ok(Some(name)),
        Err(NameFault::BadName) => Ok(None),
        Err(NameFault::NoMemory) => Err(AllocError),
    }
}

// How many places: a whole number from 1 to 268,435,456.
fn read_size(text: &[u8]) -> Option<u32>
    ensures { result ≡ piece_size_of text.now }
{
    let number = read_whole(text)?;
    if 1 <= number && number <= 268_435_456 {
        Some(number)
    } else {
        None
    }
}
