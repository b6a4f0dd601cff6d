// The four fields of an axis, cut at the colons.
ghost use Rattle.std.specs.Prelude.{◌≡◌, ◌≢◌, ◌==◌, ◌∷◌, [], Some, length, position, MatchOption};
ghost use Rattle.axis_reader.specs.Fields.{axis_from, axis_with, fields_of};

use ivp_domain::{Axis, AxisName};
use moos_post::Milli;
use moos_text::{read_milli, read_whole};

/// The four fields that name an axis.
#[derive(Clone, Copy)]
pub struct Fields<'a> {
    pub name: &'a [u8],
    pub low: &'a [u8],
    pub high: &'a [u8],
    pub points: &'a [u8],
}

// Where the first `:` is.
fn first_colon(text: &[u8]) -> Option<usize>
    ensures { result ≡ position (λ byte. byte == 58) text.now }
{
    text.iter().position(|&byte| byte == b':')
}

// The first field of a text and what follows its `:`; `None` exactly if the text is one field.
#[tactic(auto, using(crate::proofs::Cuts::fields_one))]
fn cut_at_colon(text: &[u8]) -> Option<(&[u8], &[u8])>
    ensures { MatchOption result (fields_of text.now ≡ text.now ∷ []) (λ cut. fields_of text.now ≡ cut.0.now ∷ fields_of cut.1.now) }
{
    match first_colon(text) {
        Some(place) => Some((&text[..place], &text[place + 1..])),
        None => None,
    }
}

/// The fields of a text if they are four.
pub fn four_fields(text: &[u8]) -> Option<Fields<'_>>
    ensures { MatchOption result (length (fields_of text.now) ≢ 4) (λ fields.
        fields_of text.now ≡ fields.name.now ∷ fields.low.now ∷ fields.high.now ∷ fields.points.now ∷ []) }
{
    let (name, rest) = cut_at_colon(text)?;
    let (low, rest) = cut_at_colon(rest)?;
    let (high, points) = cut_at_colon(rest)?;
    match cut_at_colon(points) {
        Some(_) => None,
        None => Some(Fields {
            name,
            low,
            high,
            points,
        }),
    }
}

fn axis_with(name: &[u8], low: Milli, high: Milli, points: u32) -> Option<Axis>
    ensures { result ≡ axis_with name.now (Some low) (Some high) (Some points) }
{
    let name = AxisName::new(name)?;
    Some(Axis {
        name,
        low: low.get(),
        high: high.get(),
        points,
    })
}

/// The axis of four fields: a name, two numbers, and a whole number. None exactly if one of them is bad.
pub fn axis_of(fields: &Fields<'_>) -> Option<Axis>
    ensures { result ≡ axis_from (fields.now.name.now ∷ fields.now.low.now ∷ fields.now.high.now ∷ fields.now.points.now ∷ []) }
{
    let low = read_milli(fields.low)?;
    let high = read_milli(fields.high)?;
    let points = read_whole(fields.points)?;
    axis_with(fields.name, low, high, points)
}
