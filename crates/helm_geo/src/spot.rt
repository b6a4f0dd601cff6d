// A spot in the plane, in millimetres.

/// A spot on the plane in thousandths, x east and y north. The calls on spots take those whose coordinates are each
/// within -10^12 to 10^12.
#[derive(Clone, Copy, Debug, PartialEq, Eq)]
pub struct Spot {
    pub x: i64,
    pub y: i64,
}
