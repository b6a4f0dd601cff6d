// What a behaviour is in an iteration, what it does there, and what comes of it.

/// What a behaviour is in an iteration.
#[derive(Clone, Copy, Debug, PartialEq, Eq)]
pub enum BhvState {
    Idle,
    Running,
    Active,
    Completed,
}

/// What a behaviour does in an iteration: nothing, since it is idle; it is stepped, and `fresh` says that it wasn't in the
/// iteration before; it completes without a step, since its duration is over; nothing, since it completed for good.
#[derive(Clone, Copy, Debug, PartialEq, Eq)]
pub enum Phase {
    Idle,
    Run { fresh: bool },
    TimedOut,
    Completed,
}

/// What a behaviour is after an iteration, and which of its flags that raises: `run`, `idle`, `active` and `inactive` by its
/// states before and now, and `ended` if it completed in this very iteration.
#[derive(Clone, Copy, Debug, PartialEq, Eq)]
pub struct Outcome {
    pub now: BhvState,
    pub run: bool,
    pub idle: bool,
    pub active: bool,
    pub inactive: bool,
    pub ended: bool,
}
