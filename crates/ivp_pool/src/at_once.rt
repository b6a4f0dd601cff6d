// The whole tree closed at once.
ghost use Rattle.std.specs.Prelude.{◌≡◌, ◌≤◌, Some, IsTrue};
ghost use Rattle.ivp_domain.specs.Domains.{is_point};
ghost use Rattle.ivp_domain.specs.declared.boxes.Point.{Point};
ghost use Rattle.ivp_problem.specs.Found.{IsKnownSum, IsOwnKey};
ghost use Rattle.ivp_problem.specs.Sums.{key_at};
ghost use Rattle.ivp_pool.specs.Parts.{Outdoes};
ghost use Rattle.ivp_pool.specs.Solving.{IsSearched};

use crate::close::{Own, close_one};
use crate::team::NoTray;
use best_word::{Best, Scout};
use ivp_problem::{Problem, problem_law};

/// Closes the whole tree, each node at once and none by way of a deque: what a search comes to if every push is refused for want of
/// memory. Then no point has a key above what the scout and the worker know. The answer is how many nodes were closed. It takes no
/// memory and doesn't wait.
pub fn close_whole(problem: &Problem, best: &Best, scout: &mut Scout, own: &mut Own) -> u64
    requires word { scout.old.table_id ≡ best.now }
    requires problem { scout.old.me.0.about ≡ Some problem.now }
    requires own { IsOwnKey problem.now own.old.key }
    ensures searched { IsSearched problem.now (record { low = scout.new.me.0.low; own = own.new.key }) result }
    ensures most { (point : Point) → IsTrue (is_point problem.now.axes point) → Outdoes (record { low = scout.new.me.0.low; own = own.new.key }) (key_at problem.now point) }
    ensures known { IsKnownSum problem.now scout.new.me.0.low }
    ensures own { IsOwnKey problem.now own.new.key }
    ensures later { scout.old.me.0.low ≤ scout.new.me.0.low }
    ensures scout { (scout.new.table_id ≡ scout.old.table_id) × (scout.new.me ≡ (record scout.old.me.0 { low = scout.new.me.0.low }, scout.old.me.1)) }
{
    problem_law(problem);
    let mut none = NoTray { problem };
    close_one(problem, best, scout, own, problem.root(), &mut none)
}
