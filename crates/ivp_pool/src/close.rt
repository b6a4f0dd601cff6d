// A node of the tree closed.
ghost use Rattle.std.specs.Prelude.{◌≡◌, ◌↔◌, ◌≤◌, IsTrue, Some};
ghost use Rattle.ivp_domain.specs.Boxes.{has_point};
ghost use Rattle.ivp_problem.specs.declared.key.Key.{Key};
ghost use Rattle.ivp_problem.specs.Found.{IsKnownSum, IsOwnKey};
ghost use Rattle.ivp_problem.specs.Keys.{Reaches};
ghost use Rattle.ivp_problem.specs.Trees.{bound_of, IsNode};
ghost use Rattle.ivp_pool.specs.Closing.{AreCovered, Closed};
ghost use Rattle.ivp_pool.specs.Parts.{Outdoes};

use crate::tray::Tray;
use best_word::{Best, Scout};
use ivp_problem::{Key, Node, Problem, bound_of, greater_own, reaches};

/// The greatest key that a worker found, none while it found none.
#[derive(Clone, Copy, Debug)]
pub struct Own {
    pub key: Option<Key>,
}

// Whether no point below a bound is wanted: the bound's sum is below the known sum, or it is at most the own key.
fn is_outdone(low: u64, own: Option<Key>, bound: Key) -> bool
    ensures { IsTrue result ↔ Outdoes (record { low = low; own = own }) bound }
{
    bound.sum < low || reaches(own, bound)
}

/// Closes a node. It looks at the word first: if the node's bound's sum is below the sum there, or the bound is at most
/// the worker's own key, nothing below it can be better, and it is pruned. At full depth the sum of its best point is
/// offered, and its key becomes the own key if that is less. Else each child goes to the tray, pieces in order, and one
/// that comes back is closed at once. The answer is how many nodes were closed. It takes no memory of its own and doesn't
/// wait.
pub fn close_one<T: Tray>(
    problem: &Problem,
    best: &Best,
    scout: &mut Scout,
    own: &mut Own,
    node: Node,
    tray: &mut T,
) -> u64
    requires word { scout.old.table_id ≡ best.now }
    requires problem { scout.old.me.0.about ≡ Some problem.now }
    requires own { IsOwnKey problem.now own.old.key }
    requires tray { T.problem tray.old ≡ problem.now }
    requires node { IsNode problem.now node }
    ensures closed { Closed problem.now (record { low = scout.new.me.0.low; own = own.new.key }) (T.took tray.old) (T.took tray.new) node result }
    ensures covered { AreCovered problem.now (record { low = scout.new.me.0.low; own = own.new.key }) (T.took tray.old) (T.took tray.new) (has_point node.area) }
    ensures pruned { Outdoes (record { low = scout.old.me.0.low; own = own.old.key }) (bound_of problem.now node) → (result ≡ 1) × (T.took tray.new ≡ T.took tray.old) }
    ensures known { IsKnownSum problem.now scout.new.me.0.low }
    ensures own { IsOwnKey problem.now own.new.key }
    ensures later { scout.old.me.0.low ≤ scout.new.me.0.low }
    ensures greater { (key : Key) → Reaches own.old.key key → Reaches own.new.key key }
    ensures scout { (scout.new.table_id ≡ scout.old.table_id) × (scout.new.me ≡ (record scout.old.me.0 { low = scout.new.me.0.low }, scout.old.me.1)) }
    ensures tray { T.problem tray.new ≡ T.problem tray.old }
    ensures kept { T.kept tray.new ≡ T.kept tray.old }
{
    let len = problem.len();
    let known = best.known(scout);
    let bound = bound_of(problem, &node);
    if is_outdone(known, own.key, bound) {
        return 1;
    }
    if node.depth >= len {
        let corner = problem.best_corner(&node);
        let _ = best.offer(scout, problem, &corner, bound.sum);
        own.key = greater_own(own.key, Some(bound));
        return 1;
    }
    let mut closed = 1;
    let mut from = 0;
    while let Some(next) = problem.next_child(&node, from) {
        if let Some(child) = tray.push(next.node) {
            closed += close_one(problem, best, scout, own, child, tray);
        }
        from = next.piece + 1;
    }
    closed
}
