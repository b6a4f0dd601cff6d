// The shape of a peak, as a mission gives it.

/// A peak along an axis, in thousandths: greatest at the number `summit`, `summitdelta` less at
/// `peakwidth` from it, and 0 at `basewidth` beyond.
#[derive(Clone, Copy, Debug, PartialEq, Eq)]
pub struct Peak {
    pub summit: i64,
    pub peakwidth: i64,
    pub basewidth: i64,
    pub summitdelta: i64,
    pub max: i64,
}
