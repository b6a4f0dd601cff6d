// Why a function can't be built.

/// Why no function is built: `TooMany` if it would have more than 4,096 pieces.
#[derive(Clone, Copy, Debug, PartialEq, Eq)]
pub enum BuildFault {
    TooMany,
    NoMemory,
}
