// A report of a node's position, read from a post.
ghost use Rattle.std.specs.Prelude.{IsTrue, ◌≡◌, ◌<◌, ◌≤◌, ◌∷◌, IfOk, IfSome, length, position};
ghost use Rattle.std.specs.List.{position_or_len};
ghost use Rattle.std.specs.Option.{option_map};
ghost use Rattle.helm_geo.specs.Plane.{is_spot};
ghost use Rattle.contact_avoid.specs.Contacts.{contact_place};
ghost use Rattle.contact_avoid.specs.Reports.{have_sides, contact_name, is_comma, has_sides, number_under, fields_left, report_fields, report_of, value_of, value_under};

use helm_geo::Spot;
use moos_post::{Copied, Milli, Name, NameFault, NoMemory};
use moos_text::{cut_at_equals, is_named, read_milli};
use std::alloc::{AllocError, Global};

/// What a good node report tells of a contact, in thousandths.
#[derive(Debug, Drop)]
pub struct Report {
    /// The contact's name, of at most 32 bytes.
    pub name: Name,
    /// How far east it is, in metres, within 1,000,000 either way.
    pub x: Milli,
    /// How far north it is, in the same unit.
    pub y: Milli,
    /// Its speed in metres a second, from 0 to 100.
    pub speed: Milli,
    /// Its heading in degrees, from 0 to 360.
    pub heading: Milli,
}

impl Report {
    // Where the contact is.
    pub(crate) fn place(&self) -> Spot
        ensures value { result ≡ contact_place self.now }
        ensures spot { IsTrue (is_spot result) }
    {
        Spot {
            x: self.x.get(),
            y: self.y.get(),
        }
    }
}

impl Copied for Report {
    fn copy(&self, alloc: Global) -> Result<Report, NoMemory> {
        let name = self.name.copy(alloc)?;
        Ok(Report {
            name,
            x: self.x,
            y: self.y,
            speed: self.speed,
            heading: self.heading,
        })
    }
}

/// The report that a text is, and None exactly if it is no good one. NoMemory is answered only if there is none for
/// the name.
pub fn read_report(alloc: Global, text: &[u8]) -> Result<Option<Report>, NoMemory>
    ensures { IfOk result (λ report. report ≡ report_of text.now) }
{
    if !have_sides(text) {
        return Ok(None);
    }
    let Some(x) = number_under(text, b"X", -1_000_000_000, 1_000_000_000) else {
        return Ok(None);
    };
    let Some(y) = number_under(text, b"Y", -1_000_000_000, 1_000_000_000) else {
        return Ok(None);
    };
    let Some(speed) = number_under(text, b"SPD", 0, 100_000) else {
        return Ok(None);
    };
    let Some(heading) = number_under(text, b"HDG", 0, 360_000) else {
        return Ok(None);
    };
    let Some(name) = contact_name(alloc, text)? else {
        return Ok(None);
    };
    Ok(Some(Report {
        name,
        x,
        y,
        speed,
        heading,
    }))
}

// Whether each field has an `=`.
fn have_sides(text: &[u8]) -> bool
    ensures { result ≡ have_sides text.now }
{
    let mut rest = Some(text);
    'fields: while let Some(left) = rest {
        let (field, after) = cut_at_comma(left);
        if !has_sides(field) {
            return false;
        }
        rest = after;
    }
    true
}

fn has_sides(field: &[u8]) -> bool
    ensures { result ≡ has_sides field.now }
{
    cut_at_equals(field).is_some()
}

// The number under this key, if it occurs once and is in its range.
fn number_under(text: &[u8], key: &[u8], low: i64, high: i64) -> Option<Milli>
    ensures { result ≡ number_under text.now key.now low high }
{
    let number = read_milli(value_of(text, key)?)?;
    if low <= number.get() && number.get() <= high {
        Some(number)
    } else {
        None
    }
}

// The name, if it occurs once and is one of at most 32 bytes.
fn contact_name(alloc: Global, text: &[u8]) -> Result<Option<Name>, NoMemory>
    ensures { IfOk result (λ name. name ≡ contact_name text.now) }
{
    let Some(bytes) = value_of(text, b"NAME") else {
        return Ok(None);
    };
    if bytes.len() > 32 {
        return Ok(None);
    }
    match Name::new(alloc, bytes) {
        Ok(name) => Ok(Some(name)),
        Err(NameFault::BadName) => Ok(None),
        Err(NameFault::NoMemory) => Err(AllocError),
    }
}

// The value under this key, if it occurs once.
fn value_of<'a>(text: &'a [u8], key: &[u8]) -> Option<&'a [u8]>
    ensures { option_map (λ value. value.now) result ≡ value_of key.now text.now }
{
    let mut found = None;
    let mut rest = Some(text);
    'fields: while let Some(left) = rest {
        let (field, after) = cut_at_comma(left);
        rest = after;
        if let Some(value) = value_under(field, key) {
            if found.is_some() {
                return None;
            }
            found = Some(value);
        }
    }
    found
}

// The value of a field with this key.
fn value_under<'a>(field: &'a [u8], key: &[u8]) -> Option<&'a [u8]>
    ensures { option_map (λ value. value.now) result ≡ value_under key.now field.now }
{
    let (name, value) = cut_at_equals(field)?;
    if is_named(name, key) {
        Some(value)
    } else {
        None
    }
}

// The first field, and what follows its comma, if it has one.
#[tactic(auto, using(crate::proofs::Fields::cut_at, crate::proofs::Fields::not_cut))]
fn cut_at_comma(text: &[u8]) -> (&[u8], Option<&[u8]>)
    ensures fields { report_fields text.now ≡ result.0.now ∷ fields_left result.1 }
    ensures shorter { IfSome result.1 (λ rest. length rest.now < length text.now) }
{
    let end = field_end(text);
    if end < text.len() {
        (&text[..end], Some(&text[end + 1..]))
    } else {
        (text, None)
    }
}

// Where the first comma is, or the end.
#[tactic(auto, using(crate::proofs::Fields::end_within))]
fn field_end(text: &[u8]) -> usize
    ensures end { result ≡ position_or_len is_comma text.now }
    ensures within { result ≤ length text.now }
{
    match comma(text) {
        Some(place) => place,
        None => text.len(),
    }
}

fn comma(text: &[u8]) -> Option<usize>
    ensures { result ≡ position is_comma text.now }
{
    text.iter().position(|&byte| byte == b',')
}
