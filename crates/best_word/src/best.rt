// The greatest known sum, in one word that all workers share.
ghost use Rattle.std.specs.Prelude.{◌≡◌, ℕ, ◌≤◌, max, [], Some, IfOk, IsTrue};
ghost use Rattle.ivp_domain.specs.Domains.{is_point};
ghost use Rattle.ivp_problem.specs.Found.{IsKnownSum};
ghost use Rattle.ivp_problem.specs.Problems.{WeightedSum};
ghost use Rattle.ivp_problem.specs.Sums.{sum_at};
ghost use Rattle.best_word.specs.Known.{first_scout, joined_scout};

use atomic_table::{Join, Play, Seat, Split, Table, TableRule};
use ivp_domain::Point;
use ivp_problem::Problem;
use std::alloc::{AllocError, Global};
use std::marker::Model;

/// What a scout knows: the problem that it is of, unless it is spent, and a sum that the word is at least. No value of it
/// is made: it is there for contracts and proofs alone.
pub struct View {
    pub about: Option<Problem>,
    pub low: u64,
}

/// A worker's place at the shared word. It has no bytes; contracts see its view.
pub type Scout = Seat<(), View>;

struct Greatest;

impl TableRule<(), View, Problem> for Greatest {
    ghost use Rattle.best_word.specs.Known.{first_scout, WordRule};

    ghost holds = { WordRule };

    ghost first = { first_scout };
}

/// The word is looked at.
struct Look;

impl Play<(), View> for Look {
    ghost use Rattle.best_word.specs.Known.{Looks};

    ghost then = { Looks };
}

/// A sum is offered.
struct Raise;

impl Play<(), View> for Raise {
    ghost use Rattle.best_word.specs.Known.{Raises};

    ghost then = { Raises };
}

/// A scout makes another one, which knows as much.
struct Fork;

impl Split<View> for Fork {
    ghost left = { λ v. v };

    ghost right = { λ v. v };
}

/// A scout takes another one in.
struct Merge;

impl Join<View> for Merge {
    ghost use Rattle.best_word.specs.Known.{joined_scout, spent_scout};

    ghost both = { joined_scout };

    ghost spent = { spent_scout };
}

/// The place of the only word.
const WORD: usize = 0;

/// The greatest sum that was offered so far, 0 while none was. Contracts see which word it is.
#[derive(Drop)]
pub struct Best {
    table: Table<(), View, Problem, Greatest, Global>,
}

impl Model for Best {
    ghost use Rattle.std.specs.Prelude.{◌≡◌};
    ghost use Rattle.atomic_table.specs.Seated.{TableId};

    ghost Value = { TableId };

    ghost view = { λ best. best.table.shared.table_id };

    ghost invariant = { λ best. best.table.shared.table_id.words ≡ 1 };
}

impl Best {
    /// A word for this problem, at 0, and its first scout.
    pub fn make(alloc: Global, problem: &Problem) -> Result<(Best, Scout), AllocError>
        ensures word { IfOk result (λ made. made.1.table_id ≡ made.0) }
        ensures scout { IfOk result (λ made. made.1.me ≡ (first_scout problem.now, [])) }
    {
        let (table, scout) = Table::of_words(alloc, &[0], problem)?;
        Ok((Best { table }, scout))
    }

    /// The greatest sum that was offered so far, 0 while none was: one load. It becomes what the scout knows.
    pub fn known(&self, scout: &mut Scout) -> u64
        requires word { scout.old.table_id ≡ self.now }
        requires problem { (problem : WeightedSum) × (scout.old.me.0.about ≡ Some problem) }
        ensures known { (problem : WeightedSum) → scout.old.me.0.about ≡ Some problem → IsKnownSum problem result }
        ensures later { scout.old.me.0.low ≤ result }
        ensures scout { (scout.new.table_id ≡ scout.old.table_id) × (scout.new.me ≡ (record scout.old.me.0 { low = result }, scout.old.me.1)) }
    {
        self.table.shared.load::<Look>(scout, WORD)
    }

    /// Offers the sum of a point: one step that keeps the greater of the sum and of what stood there. That is the answer,
    /// and becomes what the scout knows.
    pub fn offer(&self, scout: &mut Scout, problem: &Problem, p: &Point, sum: u64) -> u64
        requires word { scout.old.table_id ≡ self.now }
        requires problem { scout.old.me.0.about ≡ Some problem.now }
        requires point { IsTrue (is_point problem.now.axes p.now) × (sum_at problem.now p.now ≡ sum) }
        ensures greater { (found : ℕ) × (result ≡ max found sum) × (scout.old.me.0.low ≤ found) × IsKnownSum problem.now found }
        ensures known { IsKnownSum problem.now result }
        ensures scout { (scout.new.table_id ≡ scout.old.table_id) × (scout.new.me ≡ (record scout.old.me.0 { low = result }, scout.old.me.1)) }
    {
        let found = self.table.shared.fetch_max::<Raise>(scout, WORD, sum);
        if found < sum { sum } else { found }
    }

    /// Another scout of the same problem, which knows as much.
    pub fn split(&self, scout: &mut Scout) -> Scout
        requires word { scout.old.table_id ≡ self.now }
        ensures scout { (scout.new.table_id ≡ scout.old.table_id) × (scout.new.me ≡ scout.old.me) }
        ensures new { (result.table_id ≡ scout.old.table_id) × (result.me ≡ (scout.old.me.0, [])) }
    {
        self.table.shared.split_seat::<Fork>(scout)
    }

    /// Takes another scout of the same problem in, which ends. The greater of what both knew is what the scout knows.
    pub fn join(&self, scout: &mut Scout, other: Scout)
        requires word { (scout.old.table_id ≡ self.now) × (other.table_id ≡ self.now) × (other.me.1 ≡ []) }
        requires problem { (problem : WeightedSum) × (scout.old.me.0.about ≡ Some problem) × (other.me.0.about ≡ Some problem) }
        ensures { (scout.new.table_id ≡ scout.old.table_id) × (scout.new.me ≡ (joined_scout scout.old.me.0 other.me.0, scout.old.me.1)) }
    {
        self.table.shared.join_seat::<Merge>(scout, other);
    }
}
