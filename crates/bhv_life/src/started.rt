// A turn that was begun, and how it ends.
ghost use Rattle.std.specs.Prelude.{◌≡◌, true, false, ◌+◌, ◌≤◌, List, [], ◌++◌, ◌∷◌, if◌then◌else◌, Some, None};
ghost use Rattle.bhv_file.specs.declared.common.Common.{Common};
ghost use Rattle.bhv_life.specs.Lives.{Beginning, BhvPast, BhvTurn, latest_stamp, past_of, turn_after};
ghost use Rattle.bhv_life.specs.Outcomes.{is_active, is_idle, is_under_way, outcome_of};
ghost use Rattle.bhv_life.specs.Phases.{completes_in, runs_in, state_in, steps_in};
ghost use Rattle.bhv_life.specs.Standing.{HasBegun, IsLifeOf, Keeps};

use crate::life::{Life, span_from};
use crate::outcome::{BhvState, Outcome, Phase};

/// A turn that was begun: what the behaviour does in it.
#[derive(Clone, Copy, Debug, PartialEq, Eq)]
pub struct Started {
    pub phase: Phase,
    pub(crate) life: Life,
    pub(crate) stamp: u64,
}

fn is_idle(state: BhvState) -> bool
    ensures { result ≡ is_idle state }
{
    matches!(state, BhvState::Idle)
}

fn is_active(state: BhvState) -> bool
    ensures { result ≡ is_active state }
{
    matches!(state, BhvState::Active)
}

fn is_under_way(state: BhvState) -> bool
    ensures { result ≡ is_under_way state }
{
    matches!(state, BhvState::Running | BhvState::Active)
}

/// What an iteration brings, by the states before and now, and whether the behaviour completed in it.
fn outcome_of(before: BhvState, now: BhvState, ended: bool) -> Outcome
    ensures { result ≡ outcome_of before now ended }
{
    Outcome {
        now,
        run: is_under_way(now) && !is_under_way(before),
        idle: is_idle(now) && !is_idle(before),
        active: is_active(now) && !is_active(before),
        inactive: is_active(before) && !is_active(now),
        ended,
    }
}

/// Whether a behaviour runs in this phase.
fn runs_in(phase: Phase) -> bool
    ensures { result ≡ runs_in phase }
{
    matches!(phase, Phase::Run { .. } | Phase::TimedOut)
}

/// Whether it is stepped.
fn steps_in(phase: Phase) -> bool
    ensures { result ≡ steps_in phase }
{
    matches!(phase, Phase::Run { .. })
}

/// Whether it completes, by whether its step is done.
fn completes_in(phase: Phase, done: bool) -> bool
    ensures { result ≡ completes_in phase done }
{
    match phase {
        Phase::Run { .. } => done,
        Phase::TimedOut => true,
        Phase::Idle | Phase::Completed => false,
    }
}

/// What it comes to.
fn state_in(phase: Phase, gave: bool, done: bool) -> BhvState
    ensures { result ≡ state_in phase gave done }
{
    match phase {
        Phase::Run { .. } if !done && gave => BhvState::Active,
        Phase::Run { .. } if !done => BhvState::Running,
        Phase::Idle => BhvState::Idle,
        _ => BhvState::Completed,
    }
}

/// The stamp of a turn, if the behaviour ran in it.
fn stamp_if(ran: bool, stamp: u64) -> Option<u64>
    ensures { result ≡ (if ran then Some stamp else None) }
{
    if ran { Some(stamp) } else { None }
}

impl Started {
    /// The life with this turn, in which it completed.
    fn ended(&self, now: BhvState) -> Life
        ensures { (past : List BhvPast) (one : BhvPast) → one.outcome.ended ≡ true → one.outcome.now ≡ now → one.stepped ≡ steps_in self.now.phase → Keeps (past ++ one ∷ []) result }
    {
        Life {
            state: now,
            completed: true,
            stepped: steps_in(self.phase),
            since: None,
            time: 0,
            running: None,
        }
    }

    /// The life with this turn, in which it didn't complete.
    fn lasted(&self, now: BhvState) -> Life
        ensures { (past : List BhvPast) (one : BhvPast) → Keeps past self.now.life → latest_stamp past ≤ self.now.stamp → one.stamp ≡ self.now.stamp → one.outcome.ended ≡ false → one.outcome.now ≡ now → one.stepped ≡ steps_in self.now.phase → one.ran ≡ runs_in self.now.phase → Keeps (past ++ one ∷ []) result }
    {
        let ran = stamp_if(runs_in(self.phase), self.stamp);
        Life {
            state: now,
            completed: self.life.completed,
            stepped: steps_in(self.phase),
            since: self.life.since.or(ran),
            time: self
                .life
                .time
                .saturating_add(span_from(self.life.running, self.stamp)),
            running: ran,
        }
    }

    /// Ends the turn: `gave` says that the behaviour gave a function that counts in this iteration, `done` that its step is
    /// done. Neither matters if it wasn't stepped. Gives its life with this turn, and what came of it.
    pub fn finish(self, gave: bool, done: bool) -> (Life, Outcome)
        ensures life { (common : Common) (turns : List BhvTurn) (start : Beginning) → HasBegun common turns start self → IsLifeOf common (turns ++ record { start = start; gave = gave; done = done } ∷ []) result.0 }
        ensures outcome { (common : Common) (turns : List BhvTurn) (start : Beginning) → HasBegun common turns start self → result.1 ≡ (turn_after common (past_of common turns) (record { start = start; gave = gave; done = done })).outcome }
    {
        let now = state_in(self.phase, gave, done);
        let ended = completes_in(self.phase, done);
        let life = if ended {
            self.ended(now)
        } else {
            self.lasted(now)
        };
        (life, outcome_of(self.life.state, now, ended))
    }
}
