// A problem solved by several workers.
ghost use Rattle.std.specs.Prelude.{◌≡◌, ◌≤◌, length, map, IfOk, IsTrue, Some};
ghost use Rattle.ivp_domain.specs.Domains.{is_point};
ghost use Rattle.ivp_problem.specs.Found.{IsOwnKey};
ghost use Rattle.ivp_problem.specs.Sums.{best_of, key_at};
ghost use Rattle.ivp_pool.specs.Parts.{knows_only, Outdoes};
ghost use Rattle.ivp_pool.specs.Solving.{IsSearched, total_of};
ghost use Rattle.ivp_pool.specs.Teams.{AreBelow, AreWorkers};

use crate::alone::search_alone;
use crate::close::Own;
use crate::rule::About;
use crate::search::search;
use crate::setup::team_of;
use crate::team::{Member, Worker};
use crate::work::Works;
use best_word::{Best, Scout};
use ivp_domain::Point;
use ivp_problem::{Key, Problem, best_law, greater_own, index_of_key, keys_law};
use moos_io::{Gate, NoMemory};
use std::alloc::{AllocError, Global};
use std::marker::Brand;
use std::sync::Wait;
use std::thread::Threads;

/// What a search of a problem found: its best point, the key of it, and how many nodes each worker closed.
#[derive(Debug, Drop)]
pub struct Solved {
    pub point: Point,
    pub key: Key,
    pub work: Works,
}

/// Finds the best point of a problem by 1 to 16 workers. Worker 0 closes the root, whose child `k` is dealt to worker `k`
/// modulo the number of workers; of those each begins with the greatest bound. Each worker, on a thread of its own if one can be
/// started, closes the nodes of its deque, to which their children go, and steals from the others when it has none; a child is
/// closed at once if 16 nodes wait there already or no memory is found for it, as each is if one worker is alone. They share the
/// greatest sum that any of them knows, and each keeps the greatest key that it found; the greatest of these is the best one. The
/// gate is told before each call for a worker's node. `Err` is want of memory for the word, for the workers, their deques or their
/// counts.
pub fn solve<R: Threads + Wait + Sync, G: Gate>(
    rt: &R,
    alloc: Global,
    problem: &Problem,
    workers: u32,
    gate: &G,
) -> Result<Solved, NoMemory>
    requires some { 1 ≤ workers }
    requires few { workers ≤ 16 }

    // Whatever the number of workers, the best point of all and its key.
    ensures point { IfOk result (λ solved. solved.point ≡ best_of problem.now) }
    ensures key { IfOk result (λ solved. solved.key ≡ key_at problem.now (best_of problem.now)) }

    // A number for each worker. They add up to the size of a part of the tree: each of its nodes has all its children there,
    // or none and a bound of at most the best key.
    ensures workers { IfOk result (λ solved. length solved.work ≡ workers) }
    ensures closed { IfOk result (λ solved. IsSearched problem.now (knows_only (key_at problem.now (best_of problem.now))) (total_of solved.work)) }
{
    if workers == 1 {
        return solve_alone(alloc, problem, gate);
    }
    solve_as::<Brand, R, G>(rt, alloc, problem, workers, gate)
}

/// The same by one worker alone.
fn solve_alone<G: Gate>(alloc: Global, problem: &Problem, gate: &G) -> Result<Solved, NoMemory>
    ensures point { IfOk result (λ solved. solved.point ≡ best_of problem.now) }
    ensures key { IfOk result (λ solved. solved.key ≡ key_at problem.now (best_of problem.now)) }
    ensures workers { IfOk result (λ solved. length solved.work ≡ 1) }
    ensures closed { IfOk result (λ solved. IsSearched problem.now (knows_only (key_at problem.now (best_of problem.now))) (total_of solved.work)) }
{
    let (best, scout) = Best::make(alloc, problem)?;
    let mut worker = Worker::new(scout);
    search_alone(alloc, problem, &best, gate, &mut worker);
    let mut work = Works::new(alloc);
    work.push(worker.work).map_err(|_| AllocError)?;
    let key = best_key(problem, &best, &mut worker.scout, worker.own.key);
    let point = best_point(problem, key);
    Ok(Solved { point, key, work })
}

/// The same, over deques whose rule names the problem.
fn solve_as<K: About + Send + Sync, R: Threads + Wait + Sync, G: Gate>(
    rt: &R,
    alloc: Global,
    problem: &Problem,
    workers: u32,
    gate: &G,
) -> Result<Solved, NoMemory>
    requires about { problem.now ≡ K.problem }
    requires some { 1 ≤ workers }
    requires few { workers ≤ 16 }
    ensures point { IfOk result (λ solved. solved.point ≡ best_of problem.now) }
    ensures key { IfOk result (λ solved. solved.key ≡ key_at problem.now (best_of problem.now)) }
    ensures workers { IfOk result (λ solved. length solved.work ≡ workers) }
    ensures closed { IfOk result (λ solved. IsSearched problem.now (knows_only (key_at problem.now (best_of problem.now))) (total_of solved.work)) }
{
    let (best, mut scout) = Best::make(alloc, problem)?;
    let mut team = team_of::<K>(alloc, problem, &best, &mut scout, workers)?;
    search(rt, alloc, problem, &best, gate, &mut team)?;
    let mut own = Own { key: None };
    let work = works_of(alloc, problem, &best, &mut scout, &mut own, team)?;
    let key = best_key(problem, &best, &mut scout, own.key);
    let point = best_point(problem, key);
    Ok(Solved { point, key, work })
}

/// Takes the workers' scouts and own keys in, and tells what each did.
fn works_of<K: About>(
    alloc: Global,
    problem: &Problem,
    best: &Best,
    scout: &mut Scout,
    own: &mut Own,
    team: Vec<Member<K>>,
) -> Result<Works, NoMemory>
    requires word { scout.old.table_id ≡ best.now }
    requires problem { scout.old.me.0.about ≡ Some problem.now }
    requires owned { IsOwnKey problem.now own.old.key }
    requires team { AreWorkers problem.now best.now team.items }
    ensures works { IfOk result (λ works. works ≡ map (λ member. member.worker.work) team.items) }
    ensures owned { IfOk result (λ _. IsOwnKey problem.now own.new.key) }
    ensures later { IfOk result (λ _. AreBelow (record { low = scout.new.me.0.low; own = own.new.key }) team.items) }
    ensures scout { (scout.new.table_id ≡ scout.old.table_id) × (scout.new.me.0.about ≡ Some problem.now) }
{
    let mut works = Works::new(alloc);
    for member in team {
        best.join(scout, member.worker.scout);
        own.key = greater_own(own.key, member.worker.own.key);
        works.push(member.worker.work).map_err(|_| AllocError)?;
    }
    Ok(works)
}

/// The best key, which is the greatest own key once the whole tree was searched.
fn best_key(problem: &Problem, best: &Best, scout: &mut Scout, own: Option<Key>) -> Key
    requires word { scout.old.table_id ≡ best.now }
    requires problem { scout.old.me.0.about ≡ Some problem.now }
    requires owned { IsOwnKey problem.now own }
    requires searched { (p : Point) → IsTrue (is_point problem.now.axes p) → Outdoes (record { low = scout.old.me.0.low; own = own }) (key_at problem.now p) }
    ensures best { result ≡ key_at problem.now (best_of problem.now) }
    ensures own { own ≡ Some result }
    ensures later { scout.old.me.0.low ≤ result.sum }
{
    keys_law(problem);
    // The word is 0 or the sum of a point, so no scout knows more than the best sum.
    let _ = best.known(scout);
    own.unwrap()
}

/// The best point, by its key.
fn best_point(problem: &Problem, key: Key) -> Point
    requires { key ≡ key_at problem.now (best_of problem.now) }
    ensures { result ≡ best_of problem.now }
{
    best_law(problem);
    problem.domain().point_at(index_of_key(key))
}
