// Places as text: `x,y`, and lists of them with `:` between.
ghost use Rattle.std.specs.Prelude.{◌≡◌, nat_le, ◌<◌, ◌==◌, ◌∷◌, [], length, IfOk, IfSome, MatchOption, IsTrue, position};
ghost use Rattle.std.specs.List.{slice_split};
ghost use Rattle.helm_geo.specs.Plane.{is_spot};
ghost use Rattle.helm_geo.specs.Polygons.{are_spots};
ghost use Rattle.bhv_file.specs.Values.{polygon_of, spot_of, spot_of_numbers, spot_of_parts, spot_of_text, spots_between, spots_of, without_blanks, without_pts, kept_if, only_spot};

use crate::spec::Spots;
use helm_geo::{Spot, convex};
use moos_post::{Milli, NoMemory};
use moos_text::{ends_with, read_milli, without_last};
use std::alloc::Global;

// The most places of a list.
const MOST_PLACES: usize = 64;

/// A list of 1 to 64 places; None exactly if the text is none.
pub fn read_places(alloc: Global, text: &[u8]) -> Result<Option<Spots>, NoMemory>
    ensures spots { IfOk result (λ spots. spots ≡ spots_of text.now) }
    ensures within { IfOk result (λ spots. IfSome spots (λ spots. IsTrue (are_spots spots))) }
{
    let kept = without_blanks(alloc, text)?;
    read_between(alloc, without_pts(&kept))
}

// The bytes of a text that are no blanks.
fn without_blanks(alloc: Global, text: &[u8]) -> Result<Vec<u8>, NoMemory>
    ensures { IfOk result (λ kept. kept.items ≡ without_blanks text.now) }
{
    text.iter()
        .copied()
        .filter(|byte| *byte != b' ' && *byte != b'\t')
        .collect(alloc)
}

// The text without a `pts={` in front and a `}` behind.
fn without_pts(text: &[u8]) -> &[u8]
    ensures { result.now ≡ without_pts text.now }
{
    if text.len() >= 5 && &text[..5] == b"pts={".as_slice() && ends_with(text, b'}') {
        without_last(&text[5..], b'}')
    } else {
        text
    }
}

// Up to 64 places with `:` between.
fn read_between(alloc: Global, text: &[u8]) -> Result<Option<Spots>, NoMemory>
    ensures spots { IfOk result (λ spots. spots ≡ kept_if (λ spots. nat_le (length spots) 64) (spots_between text.now)) }
    ensures within { IfOk result (λ spots. IfSome spots (λ spots. IsTrue (are_spots spots))) }
{
    let mut spots = Vec::new(alloc);
    let mut left = Some(text);
    while let Some(rest) = left {
        let (part, behind) = cut_at(rest, b':');
        let Some(spot) = read_spot(part) else {
            return Ok(None);
        };
        if spots.len() >= MOST_PLACES {
            return Ok(None);
        }
        spots.push(spot)?;
        left = behind;
    }
    Ok(Some(Spots::of(spots)))
}

/// The vertices of a convex polygon; None exactly if the text is none.
pub fn read_polygon(alloc: Global, text: &[u8]) -> Result<Option<Spots>, NoMemory>
    ensures { IfOk result (λ spots. spots ≡ polygon_of text.now) }
{
    match read_places(alloc, text)? {
        Some(spots) => Ok(if convex(spots.all()) {
            Some(spots)
        } else {
            None
        }),
        None => Ok(None),
    }
}

/// One place; None exactly if the text is none.
pub fn read_only_place(alloc: Global, text: &[u8]) -> Result<Option<Spot>, NoMemory>
    ensures { IfOk result (λ spot. spot ≡ spot_of text.now) }
{
    match read_places(alloc, text)? {
        Some(spots) => Ok(only_spot(spots.all())),
        None => Ok(None),
    }
}

// The one place of a list of one.
fn only_spot(spots: &[Spot]) -> Option<Spot>
    ensures { result ≡ only_spot spots.now }
{
    match spots {
        [spot] => Some(*spot),
        _ => None,
    }
}

// What is before the first such byte, and what follows it if there is one.
fn cut_at(text: &[u8], byte: u8) -> (&[u8], Option<&[u8]>)
    ensures cut { MatchOption result.1 (slice_split (λ b. b == byte) text.now ≡ result.0.now ∷ [])
        (λ behind. slice_split (λ b. b == byte) text.now ≡ result.0.now ∷ slice_split (λ b. b == byte) behind.now) }
    ensures shorter { IfSome result.1 (λ behind. length behind.now < length text.now) }
{
    match place_of(text, byte) {
        Some(place) => (&text[..place], Some(&text[place + 1..])),
        None => (text, None),
    }
}

// Where the first such byte is.
fn place_of(text: &[u8], byte: u8) -> Option<usize>
    ensures { result ≡ position (λ b. b == byte) text.now }
{
    text.iter().position(|&b| b == byte)
}

// A place: two numbers with a comma between.
fn read_spot(text: &[u8]) -> Option<Spot>
    ensures spot { result ≡ spot_of_text text.now }
    ensures within { IfSome result (λ spot. IsTrue (is_spot spot)) }
{
    let (x, behind) = cut_at(text, b',');
    match behind {
        Some(behind) => read_north(x, behind),
        None => None,
    }
}

// The same by what is before the first comma and behind it.
fn read_north(x: &[u8], behind: &[u8]) -> Option<Spot>
    ensures spot { result ≡ spot_of_parts (x.now ∷ slice_split (λ b. b == 44) behind.now) }
    ensures within { IfSome result (λ spot. IsTrue (is_spot spot)) }
{
    let (y, rest) = cut_at(behind, b',');
    match rest {
        Some(_) => None,
        None => spot_of_numbers(read_milli(x), read_milli(y)),
    }
}

// The place of two numbers, east and north.
fn spot_of_numbers(x: Option<Milli>, y: Option<Milli>) -> Option<Spot>
    ensures spot { result ≡ spot_of_numbers x y }
    ensures within { IfSome result (λ spot. IsTrue (is_spot spot)) }
{
    match (x, y) {
        (Some(x), Some(y)) => Some(Spot {
            x: x.get(),
            y: y.get(),
        }),
        _ => None,
    }
}
