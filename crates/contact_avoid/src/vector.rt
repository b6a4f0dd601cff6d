// A vector on the plane, x east and y north: a position in thousandths of a metre, or a velocity in units of 10^-7 metres
// a second.
#[derive(Clone, Copy)]
pub(crate) struct Vector {
    pub x: i64,
    pub y: i64,
}
