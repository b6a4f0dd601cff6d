// The words of a line that stand for themselves: times and patterns.
ghost use Rattle.std.specs.Prelude.{◌≡◌, IfOk, ◌<◌};
ghost use Rattle.script_reader.specs.Script.{milliseconds_of, time_of, pattern_of, interval_of, source_of, with_none_behind};

use moos_post::{Milli, NoMemory, Pattern, PatternFault};
use moos_text::{Cause, read_milli};
use std::alloc::{AllocError, Global};

// The greatest stamp and the greatest interval, in milliseconds.
const LAST_TIME: i64 = 1_000_000_000;

/// The value in front of this word, which must be missing.
pub fn with_none_behind<T: Drop>(value: T, word: &[u8]) -> Result<T, Cause>
    ensures { result ≡ with_none_behind value word.now }
{
    match word {
        [] => Ok(value),
        _ => Err(Cause::S3),
    }
}

/// A stamp or an interval in milliseconds: None exactly if the word is no number of seconds from 0 to 1,000,000.
pub fn time_of(word: &[u8]) -> Option<u64>
    ensures { result ≡ time_of word.now }
{
    match read_milli(word) {
        Some(number) => milliseconds_of(number),
        None => None,
    }
}

fn milliseconds_of(number: Milli) -> Option<u64>
    ensures { result ≡ milliseconds_of number }
{
    let milliseconds = number.get();
    if 0 <= milliseconds && milliseconds <= LAST_TIME {
        Some(milliseconds as u64)
    } else {
        None
    }
}

/// The interval in milliseconds, 0 if the word is missing.
pub fn interval_of(word: &[u8]) -> Option<u64>
    ensures { result ≡ interval_of word.now }
{
    match word {
        [] => Some(0),
        _ => time_of(word),
    }
}

/// The pattern that the word is; None exactly if it is none.
pub fn pattern_of(alloc: Global, word: &[u8]) -> Result<Option<Pattern>, NoMemory>
    ensures { IfOk result (λ pattern. pattern ≡ pattern_of word.now) }
{
    match Pattern::read(alloc, word) {
        Ok(pattern) => Ok(Some(pattern)),
        Err(PatternFault::BadPattern) => Ok(None),
        Err(PatternFault::NoMemory) => Err(AllocError),
    }
}

/// The pattern of sources, `*` if the word is missing.
pub fn source_of(alloc: Global, word: &[u8]) -> Result<Option<Pattern>, NoMemory>
    ensures { IfOk result (λ pattern. pattern ≡ source_of word.now) }
{
    match word {
        [] => pattern_of(alloc, b"*"),
        _ => pattern_of(alloc, word),
    }
}
