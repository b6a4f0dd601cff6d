// What a step of a behaviour gives: a function, that it is done, or a fault.
use ivp_func::Func;

/// Why a behaviour wants all to stop.
#[derive(Clone, Copy, Debug, PartialEq, Eq)]
pub enum BhvFault {
    /// The own position isn't known, and the behaviour needs it.
    NoPosition,
    /// The own position is outside the operating region.
    OutsidePolygon,
    /// The own depth is above the greatest one.
    TooDeep,
    /// The time since the first step has reached its limit.
    TooLate,
}

/// What a step of a behaviour gives: a function over the domain or none, which of the axes that function mentions, whether
/// the behaviour is done, and a fault or none. If there is no function no axis is mentioned.
#[derive(Drop)]
pub struct Out {
    pub func: Option<Func>,
    pub course: bool,
    pub speed: bool,
    pub depth: bool,
    pub done: bool,
    pub fault: Option<BhvFault>,
}
