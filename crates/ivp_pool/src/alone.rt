// A search by one worker alone: nobody steals from it, so no node goes through a deque.
ghost use Rattle.std.specs.Prelude.{[], All, IsTrue};
ghost use Rattle.ivp_domain.specs.declared.boxes.Point.{Point};
ghost use Rattle.ivp_domain.specs.Domains.{is_point};
ghost use Rattle.ivp_problem.specs.Sums.{key_at};
ghost use Rattle.ivp_problem.specs.Trees.{IsNode};
ghost use Rattle.ivp_pool.specs.Parts.{Incumbent, KnowsMore, Outdoes};
ghost use Rattle.ivp_pool.specs.Roots.{child_nodes};
ghost use Rattle.ivp_pool.specs.Solving.{IsNew, IsSearched, IsWorker, knows_of, WentOn};

use crate::root::{Child, close_root};
use crate::team::{NoTray, Worker, close_next};
use best_word::Best;
use ivp_problem::{Problem, problem_law};
use moos_io::Gate;
use std::alloc::Global;

/// Closes the root's children one after the other, each with all that is below it.
fn close_all<G: Gate>(
    problem: &Problem,
    best: &Best,
    gate: &G,
    worker: &mut Worker,
    children: &[Child],
)
    requires worker { IsWorker problem.now best.now worker.old }
    requires nodes { All (λ child. IsNode problem.now child.node) children.now }
    ensures went { WentOn problem.now (child_nodes children.now) [] worker.old worker.new }
    ensures worker { IsWorker problem.now best.now worker.new }
{
    let mut none = NoTray { problem };
    for child in children {
        close_next(problem, best, gate, 0, worker, child.node, &mut none);
    }
}

/// Searches the whole tree by a new worker.
pub(crate) fn search_alone<G: Gate>(
    alloc: Global,
    problem: &Problem,
    best: &Best,
    gate: &G,
    worker: &mut Worker,
)
    requires { IsNew problem.now best.now worker.old }
    ensures worker { IsWorker problem.now best.now worker.new }

    // A key that the worker knows of is one that no point of the problem exceeds.
    ensures searched { (key : Incumbent) → KnowsMore (knows_of worker.new) key → IsSearched problem.now key worker.new.work.closed }
    ensures most { (key : Incumbent) → KnowsMore (knows_of worker.new) key → (p : Point) → IsTrue (is_point problem.now.axes p) → Outdoes key (key_at problem.now p) }
{
    problem_law(problem);
    let children = close_root(alloc, problem, best, gate, worker);
    close_all(problem, best, gate, worker, &children);
}
