// A team's deques and doors: how they are made, and how what went through them is taken back.
ghost use Rattle.std.specs.Prelude.{◌≡◌, ℕ, ◌+◌, ◌<◌, ◌≤◌, [], length, map, All, IfOk};
ghost use Rattle.best_word.specs.Known.{first_scout};
ghost use Rattle.ivp_problem.specs.declared.node.Node.{Node};
ghost use Rattle.ivp_pool.specs.Members.{absorbed, deques_of, doors_of, first_parts, IsNewMember, new_door, put_in, tag_of, taken_in, with_part_out, workers_of};

use crate::deque::{Deque, Door};
use crate::rule::About;
use crate::team::{Member, Worker};
use best_word::{Best, Scout};
use ivp_problem::Problem;
use moos_io::NoMemory;
use std::alloc::Global;
use std::mem;

/// A door to each member's deque, by the members' numbers.
fn row_of<K: About>(alloc: Global, members: &mut [Member<K>]) -> Result<Vec<Door<K>>, NoMemory>
    requires parts { All (λ member. 1 < member.deque.hand.parts) members.old }
    ensures row { IfOk result (λ row. row.items ≡ map new_door (deques_of members.old)) }
    ensures members { IfOk result (λ _. members.new ≡ map with_part_out members.old) }
{
    let mut row = Vec::with_capacity(alloc, members.len())?;
    for place in 0..members.len() {
        row.push(members[place].deque.door()?)?;
    }
    Ok(row)
}

/// A team of `workers` members, which have made no call yet, and have no doors.
pub(crate) fn team_of<K: About>(
    alloc: Global,
    problem: &Problem,
    best: &Best,
    scout: &mut Scout,
    workers: u32,
) -> Result<Vec<Member<K>>, NoMemory>
    requires word { scout.old.table_id ≡ best.now }
    requires scout { scout.old.me ≡ (first_scout problem.now, []) }
    ensures scout { (scout.new.table_id ≡ scout.old.table_id) × (scout.new.me ≡ scout.old.me) }
    ensures len { IfOk result (λ team. length team.items ≡ workers) }
    ensures new { IfOk result (λ team. All (IsNewMember problem.now best.now 0) team.items) }
{
    let mut team = Vec::with_capacity(alloc, workers as usize)?;
    for _ in 0..workers {
        team.push(Member {
            worker: Worker::new(best.split(scout)),
            deque: Deque::make(alloc)?,
            doors: Vec::new(alloc),
        })?;
    }
    Ok(team)
}

/// Gives each member of a new team its doors.
pub(crate) fn open_doors<K: About>(
    alloc: Global,
    problem: &Problem,
    best: &Best,
    members: &mut [Member<K>],
) -> Result<(), NoMemory>
    requires few { length members.old ≤ 16 }
    requires new { All (IsNewMember problem.now best.now 0) members.old }
    ensures len { IfOk result (λ _. length members.new ≡ length members.old) }
    ensures new { IfOk result (λ _. All (IsNewMember problem.now best.now (length members.new)) members.new) }
    ensures doors { IfOk result (λ _. All (λ member. member.doors.items ≡ map new_door (deques_of members.new)) members.new) }
{
    for place in 0..members.len() {
        let row = row_of(alloc, members)?;
        members[place].doors = row;
    }
    Ok(())
}

/// Takes a row of doors back, each by the deque that it leads to.
fn take_row<K: About>(members: &mut [Member<K>], mut row: Vec<Door<K>>)
    requires { map tag_of row.items ≡ first_parts (deques_of members.old) }
    ensures { members.new ≡ absorbed 0 row.items members.old }
{
    while let Some(door) = row.pop() {
        members[row.len()].deque.absorb(door);
    }
}

/// Takes all doors back, so that each deque has all its parts again.
pub(crate) fn take_back<K: About>(alloc: Global, members: &mut [Member<K>])
    requires doors { All (λ member. doors_of member ≡ first_parts (deques_of members.old)) members.old }
    requires parts { All (λ member. member.deque.hand.parts + length members.old ≡ 1024) members.old }
    ensures workers { workers_of members.new ≡ workers_of members.old }
    ensures parts { All (λ member. member.deque.hand.parts ≡ 1024) members.new }
    ensures doors { All (λ member. member.doors.items ≡ []) members.new }
    ensures put { (weigh : Node → ℕ) → put_in weigh members.new ≡ put_in weigh members.old }
    ensures taken { (weigh : Node → ℕ) → taken_in weigh members.new ≡ taken_in weigh members.old }
{
    for place in 0..members.len() {
        let row = mem::replace(&mut members[place].doors, Vec::new(alloc));
        take_row(members, row);
    }
}
