// The two ranges that a contacts file may set, by name.
ghost use Rattle.std.specs.Prelude.{◌≡◌};
ghost use Rattle.contact_avoid.specs.RangeFiles.{range_distance, range_named};

use moos_text::is_named;

/// A range that a contacts file may set.
#[derive(Clone, Copy)]
pub(crate) enum RangeName {
    /// The one at which contacts come inside.
    Alert,
    /// The one at which they go outside.
    Clear,
}

impl RangeName {
    // The range of this name, in letters of either case.
    pub fn named(name: &[u8]) -> Option<RangeName>
        ensures { result ≡ range_named name.now }
    {
        if is_named(name, b"alert_range") {
            Some(RangeName::Alert)
        } else if is_named(name, b"clear_range") {
            Some(RangeName::Clear)
        } else {
            None
        }
    }
}

// A number of thousandths as a distance, if it is from 0 to 10,000,000.
pub(crate) fn distance(number: i64) -> Option<u32>
    ensures { result ≡ range_distance number }
{
    if 0 <= number && number <= 10_000_000 {
        Some(number.unsigned_abs() as u32)
    } else {
        None
    }
}
