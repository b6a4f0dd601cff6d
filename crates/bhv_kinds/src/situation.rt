// What a step looks at.
use helm_geo::Spot;

/// What a step of a behaviour finds: as much of all that came before as any type needs.
#[derive(Clone, Copy)]
pub struct Situation {
    /// The own position, if it is known.
    pub here: Option<Spot>,
    /// The step captures the last target for the last time.
    pub finished: bool,
    /// How many points of a waypoint behaviour's list are captured now.
    pub captured: usize,
    /// The vertex that a loiter behaviour makes for now.
    pub vertex: Option<usize>,
    /// The first known position since the last fresh step.
    pub centre: Option<Spot>,
    /// The time since the first step, in milliseconds.
    pub time: u64,
}
