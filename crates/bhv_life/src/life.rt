// What is kept of a behaviour from one iteration to the next, and how its turn begins.
ghost use Rattle.std.specs.Prelude.{◌≡◌, ◌≤◌, List, []};
ghost use Rattle.std.specs.List.{list_all};
ghost use Rattle.bhv_file.specs.declared.common.Common.{Common};
ghost use Rattle.helm_cond.specs.Conditions.{holds};
ghost use Rattle.helm_cond.specs.Infos.{knowledge_of};
ghost use Rattle.bhv_life.specs.Lives.{BhvPast, BhvTurn, beginning_of, can_run, is_in_time, latest_stamp, passed_at, past_of, phase_at};
ghost use Rattle.bhv_life.specs.Standing.{HasBegun, IsLifeOf, Keeps, span_from};

use crate::outcome::{BhvState, Phase};
use crate::started::Started;
use bhv_file::Common;
use helm_cond::{Cond, Info};

/// What is kept of a behaviour's turns, one turn an iteration: as much as its next turn needs.
#[derive(Clone, Copy, Debug, PartialEq, Eq)]
pub struct Life {
    /// What it is in the last turn; idle before the first.
    pub(crate) state: BhvState,
    /// It completed in some turn.
    pub(crate) completed: bool,
    /// It was stepped in the last turn.
    pub(crate) stepped: bool,
    /// The stamp of the first turn since its last completion in which it ran.
    pub(crate) since: Option<u64>,
    /// The time since then from each turn in which it ran to the next turn, up to the last one.
    pub(crate) time: u64,
    /// The stamp of the last turn, if it ran in it and wasn't completed.
    pub(crate) running: Option<u64>,
}

/// The time from a stamp, if there is one, up to another.
pub(crate) fn span_from(from: Option<u64>, stamp: u64) -> u64
    ensures { result ≡ span_from from stamp }
{
    match from {
        Some(from) => stamp.saturating_sub(from),
        None => 0,
    }
}

/// Whether the time is below the duration, if there is one.
fn is_in_time(duration: Option<u64>, time: u64) -> bool
    ensures { result ≡ is_in_time duration time }
{
    match duration {
        Some(duration) => time < duration,
        None => true,
    }
}

/// Whether all conditions hold.
fn are_met(conds: &[Cond], info: &Info, mode: &[u8]) -> bool
    ensures { result ≡ list_all (holds (knowledge_of info.now) mode.now) conds.now }
{
    conds.iter().all(|cond| cond.holds(info, mode))
}

impl Life {
    /// The life of a behaviour that has had no turn.
    pub fn make() -> Life
        ensures { (common : Common) → IsLifeOf common [] result }
    {
        Life {
            state: BhvState::Idle,
            completed: false,
            stepped: false,
            since: None,
            time: 0,
            running: None,
        }
    }

    /// Whether it can run again: it never completed, or is perpetual.
    pub fn can_run(&self, common: &Common) -> bool
        ensures { (past : List BhvPast) → Keeps past self.now → result ≡ can_run common.now past }
    {
        common.perpetual || !self.completed
    }

    /// The time that counts against its duration.
    fn passed(&self, common: &Common, stamp: u64) -> u64
        ensures { (past : List BhvPast) → Keeps past self.now → latest_stamp past ≤ stamp → result ≡ passed_at common.now past stamp }
    {
        if common.idle_decay {
            span_from(self.since, stamp)
        } else {
            self.time.saturating_add(span_from(self.running, stamp))
        }
    }

    /// What it does in a turn before its step.
    fn phase(&self, common: &Common, parked: bool, held: bool, stamp: u64) -> Phase
        ensures { (past : List BhvPast) → Keeps past self.now → latest_stamp past ≤ stamp → result ≡ phase_at common.now past (record { parked = parked; held = held; stamp = stamp }) }
    {
        if !self.can_run(common) {
            Phase::Completed
        } else if parked || !held {
            Phase::Idle
        } else if is_in_time(common.duration, self.passed(common, stamp)) {
            Phase::Run {
                fresh: !self.stepped,
            }
        } else {
            Phase::TimedOut
        }
    }

    /// Begins a turn: what the behaviour does in it, by its conditions, whether the helm is parked, and the stamp in
    /// milliseconds, which is not below that of the turn before.
    pub fn start(
        self,
        common: &Common,
        info: &Info,
        mode: &[u8],
        parked: bool,
        stamp: u64,
    ) -> Started
        ensures { (turns : List BhvTurn) → IsLifeOf common.now turns self → latest_stamp (past_of common.now turns) ≤ stamp → HasBegun common.now turns (beginning_of common.now (knowledge_of info.now) mode.now parked stamp) result }
    {
        let held = are_met(common.conds.all(), info, mode);
        Started {
            phase: self.phase(common, parked, held, stamp),
            life: self,
            stamp,
        }
    }
}
