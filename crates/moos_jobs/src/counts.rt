// What is counted of a run, and of the helm's iterations in it as they come.
ghost use Rattle.std.specs.Prelude.{◌≡◌, ◌+◌, ◌*◌, ◌^◌, ◌<◌, ◌≤◌, ◌++◌, [], List, is_some, length, count_by, sum_by};
ghost use Rattle.helm_core.specs.declared.iteration.Iteration.{Iteration as Iterated};
ghost use Rattle.moos_jobs.specs.Summary.{AreBoundedCounts, counts_of, decided_sum, iterations_counted, letters_given};

use helm_core::Iteration;
use ivp_cert::Decision;
use moos_db::Db;

/// How much there was in the helm's iterations that were counted so far; the total counts thousandths. No sum of as many
/// numbers of 64 bits as a number of 64 bits can count is beyond 128 bits.
#[derive(Clone, Copy)]
pub struct IterationCounts {
    pub iterations: u64,
    pub decisions: u64,
    pub total: u128,
}

impl IterationCounts {
    /// The counts of no iterations.
    pub fn new() -> IterationCounts
        ensures none { result ≡ iterations_counted [] }
        ensures bounded { AreBoundedCounts result }
    {
        IterationCounts {
            iterations: 0,
            decisions: 0,
            total: 0,
        }
    }

    /// Counts these iterations too, which follow those that were counted before.
    pub fn add(&mut self, iterations: &[Iteration])
        requires few { self.old.iterations + length iterations.now < 2 ^ 64 }
        requires bounded { AreBoundedCounts self.old }
        ensures bounded { AreBoundedCounts self.new }
        ensures counted { (before : List Iterated) → self.old ≡ iterations_counted before → self.new ≡ iterations_counted (before ++ iterations.now) }
    {
        self.iterations += iterations.len() as u64;
        self.decisions += decisions_in(iterations);
        self.total += total_of(iterations);
    }
}

/// How much there was in a run; the total counts thousandths.
#[derive(Clone, Copy)]
pub struct RunCounts {
    pub entries: u64,
    pub posts: u64,
    pub mailed: u128,
    pub iterations: u64,
    pub decisions: u64,
    pub total: u128,
}

/// What is counted of a history, with what was counted of the helm's iterations in it.
pub fn counts_of(db: &Db, counted: &IterationCounts) -> RunCounts
    ensures { result ≡ counts_of db.now.names db.now.history counted.now }
{
    RunCounts {
        entries: db.entries(),
        posts: db.posts(),
        mailed: letters_given(db),
        iterations: counted.iterations,
        decisions: counted.decisions,
        total: counted.total,
    }
}

// How many letters all entries gave.
#[tactic(auto, using(crate::proofs::Counting::letters_more))]
fn letters_given(db: &Db) -> u128
    ensures { result ≡ letters_given db.now.names db.now.history (length db.now.history) }
{
    let mut given: u128 = 0;
    for k in 0..db.entries() {
        given += db.letters(k).len() as u128;
    }
    given
}

fn decisions_in(iterations: &[Iteration]) -> u64
    ensures count { result ≡ count_by (λ (iteration : Iterated). is_some iteration.decision) iterations.now }
    ensures few { result ≤ length iterations.now }
{
    let mut decisions = 0;
    for iteration in iterations {
        if iteration.decision.is_some() {
            decisions += 1;
        }
    }
    decisions
}

fn total_of(iterations: &[Iteration]) -> u128
    ensures sum { result ≡ sum_by (λ (iteration : Iterated). decided_sum iteration.decision) iterations.now }
    ensures few { result ≤ length iterations.now * 2 ^ 64 }
{
    let mut total: u128 = 0;
    for iteration in iterations {
        total += u128::from(decided_sum(&iteration.decision));
    }
    total
}

fn decided_sum(decision: &Option<Decision>) -> u64
    ensures { result ≡ decided_sum decision.now }
{
    match decision {
        Some(decision) => decision.claim.sum,
        None => 0,
    }
}
