// A whole search by a team: the root's children are dealt, all members work, and what is left is closed.
ghost use Rattle.std.specs.Prelude.{◌≡◌, ℕ, ◌+◌, ◌<◌, ◌≤◌, [], length, All, IfOk, IsTrue, Some};
ghost use Rattle.ivp_domain.specs.declared.boxes.Point.{Point};
ghost use Rattle.ivp_domain.specs.Domains.{is_point};
ghost use Rattle.ivp_problem.specs.declared.node.Node.{Node};
ghost use Rattle.ivp_problem.specs.Sums.{key_at};
ghost use Rattle.ivp_problem.specs.Trees.{IsNode};
ghost use Rattle.ivp_pool.specs.Roots.{child_nodes};
ghost use Rattle.ivp_pool.specs.Members.{Did, IsNewMember, put_in, taken_in};
ghost use Rattle.ivp_pool.specs.Parts.{Incumbent, Outdoes};
ghost use Rattle.ivp_pool.specs.Teams.{AllDid, deque_states, HasEmptied, door_rows, shapes_of, AreBelow, AreWorkers, closed_in};
ghost use Rattle.ivp_pool.specs.Solving.{IsSearched, IsWorker};

use crate::root::{Child, close_root};
use crate::rule::About;
use crate::setup::{open_doors, take_back};
use crate::team::{Member, NoTray, close_next, work};
use crate::tray::Tray;
use best_word::Best;
use ivp_problem::{Problem, problem_law};
use moos_io::{Gate, NoMemory};
use std::alloc::Global;
use std::sync::Wait;
use std::thread::{Threads, for_each_mut};

/// Deals the root's children, which are in the order of their bounds: the one at place `k` among the root's goes to the deque
/// of member `k` modulo their number. One that finds no memory there is closed at once. The last is dealt first: a member takes
/// first what was put into its deque last, so each begins with the greatest bound of its own children.
fn deal<K: About, G: Gate>(
    problem: &Problem,
    best: &Best,
    gate: &G,
    children: &[Child],
    members: &mut [Member<K>],
)
    requires problem { problem.now ≡ K.problem }
    requires nodes { All (λ child. IsNode problem.now child.node) children.now }
    requires some { 0 < length members.old }
    requires workers { AreWorkers problem.now best.now members.old }
    ensures did { AllDid problem.now best.now (child_nodes children.now) [] members.old members.new }
    ensures same { shapes_of members.new ≡ shapes_of members.old }
{
    let workers = members.len();
    let mut none = NoTray { problem };
    for next in (0..children.len()).rev() {
        let child = children[next];
        if let Some(node) = members[child.place % workers].deque.put(child.node) {
            close_next(
                problem,
                best,
                gate,
                0,
                &mut members[0].worker,
                node,
                &mut none,
            );
        }
    }
}

/// Lets all members work, on a thread of its own each if one can be started.
fn work_all<K: About + Send + Sync, R: Threads + Wait + Sync, G: Gate>(
    rt: &R,
    problem: &Problem,
    best: &Best,
    gate: &G,
    members: &mut [Member<K>],
)
    requires problem { problem.now ≡ K.problem }
    requires some { 0 < length members.old }
    requires few { length members.old ≤ 16 }
    requires workers { AreWorkers problem.now best.now members.old }
    requires doors { All (λ member. length member.doors.items ≡ length members.old) members.old }
    ensures did { AllDid problem.now best.now [] [] members.old members.new }
    ensures same { shapes_of members.new ≡ shapes_of members.old }
{
    let workers = members.len();
    let run = |number: usize, member: &mut Member<K>|
        requires { (problem.now ≡ K.problem) × IsWorker problem.now best.now member.now.worker × (number < length member.now.doors.items) × (length member.now.doors.items ≤ 16) }
        ensures { Did problem.entry.now member.entry.now member.exit.now }
    { work(rt, problem, best, gate, number, member) };
    for_each_mut(rt, members, workers, &run);
}

/// Closes what is left in a member's deque, as worker 0.
fn empty_deque<K: About, R: Wait, G: Gate>(
    rt: &R,
    problem: &Problem,
    best: &Best,
    gate: &G,
    number: usize,
    members: &mut [Member<K>],
)
    requires problem { problem.now ≡ K.problem }
    requires number { number < length members.old }
    requires workers { AreWorkers problem.now best.now members.old }
    ensures did { AllDid problem.now best.now [] [] members.old members.new }
    ensures doors { door_rows members.new ≡ door_rows members.old }
    ensures empty { HasEmptied number (deque_states members.old) (deque_states members.new) }
{
    let mut none = NoTray { problem };
    for _ in rt.forever() {
        match members[number].deque.pop() {
            Some(node) => close_next(
                problem,
                best,
                gate,
                0,
                &mut members[0].worker,
                node,
                &mut none,
            ),
            None => break,
        }
    }
}

/// Closes what is left in all deques, as worker 0.
fn finish<K: About, R: Wait, G: Gate>(
    rt: &R,
    problem: &Problem,
    best: &Best,
    gate: &G,
    members: &mut [Member<K>],
)
    requires problem { problem.now ≡ K.problem }
    requires workers { AreWorkers problem.now best.now members.old }
    requires parts { All (λ member. member.deque.hand.parts ≡ 1024) members.old }
    requires doors { All (λ member. member.doors.items ≡ []) members.old }
    ensures did { AllDid problem.now best.now [] [] members.old members.new }
    ensures settled { (weigh : Node → ℕ) → put_in weigh members.new ≡ taken_in weigh members.new }
{
    for number in 0..members.len() {
        empty_deque(rt, problem, best, gate, number, members);
    }
}

/// Searches the whole tree by a new team: the first worker closes the root, whose children are dealt, all work, and what is
/// left is closed. `Err` is want of memory for the doors.
pub(crate) fn search<K: About + Send + Sync, R: Threads + Wait + Sync, G: Gate>(
    rt: &R,
    alloc: Global,
    problem: &Problem,
    best: &Best,
    gate: &G,
    members: &mut [Member<K>],
) -> Result<(), NoMemory>
    requires problem { problem.now ≡ K.problem }
    requires new { All (IsNewMember problem.now best.now 0) members.old }
    requires some { 0 < length members.old }
    requires few { length members.old ≤ 16 }
    ensures len { IfOk result (λ _. length members.new ≡ length members.old) }
    ensures workers { IfOk result (λ _. AreWorkers problem.now best.now members.new) }

    // A key that all workers know of is one that no point of the problem exceeds.
    ensures searched { IfOk result (λ _. (key : Incumbent) → AreBelow key members.new → IsSearched problem.now key (closed_in members.new)) }
    ensures most { IfOk result (λ _. (key : Incumbent) → AreBelow key members.new → (p : Point) → IsTrue (is_point problem.now.axes p) → Outdoes key (key_at problem.now p)) }
{
    problem_law(problem);
    open_doors(alloc, problem, best, members)?;
    let children = close_root(alloc, problem, best, gate, &mut members[0].worker);
    deal(problem, best, gate, &children, members);
    work_all(rt, problem, best, gate, members);
    take_back(alloc, members);
    finish(rt, problem, best, gate, members);
    Ok(())
}
