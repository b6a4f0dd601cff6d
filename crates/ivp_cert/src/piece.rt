// A piece, read from its line.
ghost use Rattle.std.specs.Prelude.{◌≡◌, ◌&&◌, IsTrue, IfSome, MatchOption, None, Some};
ghost use Rattle.moos_text.specs.Lines.{words_of};
ghost use Rattle.ivp_func.specs.Pieces.{is_base};
ghost use Rattle.ivp_cert.specs.Pieces.{are_slopes, is_slope_where, piece_of, range_of, slope_of, sloped, slopes_of};

use crate::words::{integer_of, place_of};
use ivp_domain::BoxN;
use ivp_func::{MOST_BASE, MOST_SLOPE, Piece};
use moos_text::next_word;

// Low and high on an axis that is there, and what follows the two words.
fn range_of(present: bool, text: &[u8]) -> Option<(u32, u32, &[u8])>
    ensures { MatchOption result (range_of present (words_of text.now) ≡ None)
        (λ range. range_of present (words_of text.now) ≡ Some (record { low = range.0; high = range.1; rest = words_of range.2.now })) }
{
    if !present {
        return Some((0, 0, text));
    }
    let (low, rest) = next_word(text)?;
    let (high, rest) = next_word(rest)?;
    Some((place_of(low)?, place_of(high)?, rest))
}

// The slope along an axis that is there, and what follows its word.
fn slope_of(present: bool, text: &[u8]) -> Option<(i64, &[u8])>
    ensures value { MatchOption result (slope_of present (words_of text.now) ≡ None)
        (λ slope. slope_of present (words_of text.now) ≡ Some (record { slope = slope.0; rest = words_of slope.1.now })) }
    ensures good { IfSome result (λ slope. IsTrue (is_slope_where present slope.0)) }
{
    if !present {
        return Some((0, text));
    }
    let (word, rest) = next_word(text)?;
    Some((integer_of(word, MOST_SLOPE as u64)?, rest))
}

// The slopes along the first `axes` axes, and no word behind them.
fn slopes_of(axes: u32, text: &[u8]) -> Option<[i64; 4]>
    ensures value { result ≡ slopes_of axes (words_of text.now) }
    ensures good { IfSome result (λ slopes. IsTrue (are_slopes axes slopes)) }
{
    let (one, rest) = slope_of(0 < axes, text)?;
    let (two, rest) = slope_of(1 < axes, rest)?;
    let (three, rest) = slope_of(2 < axes, rest)?;
    let (four, rest) = slope_of(3 < axes, rest)?;
    if next_word(rest).is_some() {
        return None;
    }
    Some([one, two, three, four])
}

// A piece on this box, with its base and its slopes.
fn sloped(axes: u32, area: BoxN, text: &[u8]) -> Option<Piece>
    ensures value { result ≡ sloped axes area (words_of text.now) }
    ensures good { IfSome result (λ piece. IsTrue (is_base piece.base && are_slopes axes piece.slope)) }
{
    let (word, rest) = next_word(text)?;
    let base = integer_of(word, MOST_BASE as u64)?;
    let slope = slopes_of(axes, rest)?;
    Some(Piece { area, base, slope })
}

/// The piece over `axes` axes that the words of a text spell.
pub fn piece_of(axes: u32, text: &[u8]) -> Option<Piece>
    ensures value { result ≡ piece_of axes (words_of text.now) }
    ensures good { IfSome result (λ piece. IsTrue (is_base piece.base && are_slopes axes piece.slope)) }
{
    let (low_one, high_one, rest) = range_of(0 < axes, text)?;
    let (low_two, high_two, rest) = range_of(1 < axes, rest)?;
    let (low_three, high_three, rest) = range_of(2 < axes, rest)?;
    let (low_four, high_four, rest) = range_of(3 < axes, rest)?;
    let area = BoxN {
        low: [low_one, low_two, low_three, low_four],
        high: [high_one, high_two, high_three, high_four],
    };
    sloped(axes, area, rest)
}
