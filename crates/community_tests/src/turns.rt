// A journal of marks under a lock: each call once, and four threads and many beside each other.
ghost use Rattle.std.specs.Prelude.{◌≡◌, ◌≤◌, []};
ghost use Rattle.std.specs.List.{All};
ghost use Rattle.turn_lock.specs.Passes.{IsFree, IsOf, first_pass, met_with};

use std::alloc::Global;
use std::process::Abort;
use std::sync::Wait;
use std::thread::{Threads, for_each_mut, join, yield_now};
use turn_lock::{Journaled, Pass, TurnLock};

/// One event: who made it, and how many the same one had made before.
#[derive(Drop)]
struct Mark {
    by: u32,
    count: u64,
}

/// All events so far.
#[derive(Drop)]
struct Journal {
    marks: Vec<Mark>,
}

impl Journaled for Journal {
    type Event = Mark;

    type Base = ();

    ghost base = { λ _. tt };

    ghost history = { λ journal. journal.marks.items };

    ghost number = { λ mark. mark.by };
}

// Adds a mark in the pass's turn, and says whether it did: if no memory is left it gives the journal back as it was.
fn add<R: Wait>(rt: &R, lock: &TurnLock<Journal>, pass: &mut Pass<Journal>, count: u64) -> bool
    requires { IsOf lock.now pass.old × IsFree pass.old }
    ensures { pass.new ≡ record pass.old { seen = pass.new.seen; mine = pass.new.mine } }
{
    let by = pass.number();
    let mut held = lock.take(rt, pass);
    match held.value_mut().marks.push(Mark { by, count }) {
        Ok(()) => {
            lock.give(pass, held);
            true
        }
        Err(_) => {
            lock.give_back(pass, held);
            false
        }
    }
}

fn empty_journal(alloc: Global) -> Journal
    ensures { result.marks.items ≡ [] }
{
    Journal {
        marks: Vec::new(alloc),
    }
}

// A lock over an empty journal, which `passes` passes take in turns, and its first pass.
fn journal_of(rt: &impl Abort, alloc: Global, passes: u32) -> (TurnLock<Journal>, Pass<Journal>)
    requires { 1 ≤ passes }
    ensures { result.1 ≡ first_pass result.0 passes }
{
    match TurnLock::make(alloc, empty_journal(alloc), passes) {
        Ok(made) => made,
        Err(_) => panic!(rt; "memory"),
    }
}

// In its turn the pass has this number, and sees this many marks.
fn sees<R: Wait + Abort>(
    rt: &R,
    lock: &TurnLock<Journal>,
    pass: &mut Pass<Journal>,
    number: u32,
    marks: usize,
)
    requires { IsOf lock.now pass.old × IsFree pass.old }
    ensures { pass.new ≡ record pass.old { seen = pass.new.seen } }
{
    let held = lock.take(rt, pass);
    assert!(rt; held.number == number && held.value().marks.len() == marks);
    lock.give_back(pass, held);
}

// The marks are these: of each who made it, and how many the same one had made before.
fn are_marks(rt: &impl Abort, marks: &[Mark], wanted: &[(u32, u64)]) {
    assert!(rt; marks.len() == wanted.len());
    for (mark, (by, count)) in marks.iter().zip(wanted) {
        assert!(rt; mark.by == *by && mark.count == *count);
    }
}

#[test]
fn each_call_once(rt: HostRuntime) {
    let (lock, mut zero) = journal_of(&rt, rt.alloc(), 2);
    let mut one = lock.split(&mut zero);
    assert!(rt; (zero.number(), one.number()) == (0, 1));
    assert!(rt; add(&rt, &lock, &mut one, 0) && add(&rt, &lock, &mut zero, 0));
    lock.meet(&mut zero, one);
    let mut one = lock.part(&mut zero, 1);
    assert!(rt; add(&rt, &lock, &mut one, 1));
    sees(&rt, &lock, &mut one, 1, 3);
    lock.meet(&mut zero, one);
    let (journal, left) = lock.close(zero);
    assert!(rt; left.number() == 0);
    are_marks(&rt, journal.marks.as_slice(), &[(1, 0), (0, 0), (1, 1)]);
}

// Has a turn in which others run, so that those who ask meanwhile find the lock taken and go to sleep.
fn dawdle<R: Wait>(rt: &R, lock: &TurnLock<Journal>, pass: &mut Pass<Journal>)
    requires { IsOf lock.now pass.old × IsFree pass.old }
    ensures { pass.new ≡ record pass.old { seen = pass.new.seen; mine = pass.new.mine } }
{
    let held = lock.take(rt, pass);
    for _ in 0..5u32 {
        yield_now();
    }
    lock.give_back(pass, held);
}

// Adds `marks` marks in turn.
fn add_marks<R: Wait>(rt: &R, lock: &TurnLock<Journal>, pass: &mut Pass<Journal>, marks: u64)
    requires { IsOf lock.now pass.old × IsFree pass.old }
    ensures { pass.new ≡ record pass.old { seen = pass.new.seen; mine = pass.new.mine } }
{
    for count in 0..marks {
        dawdle(rt, lock, pass);
        add(rt, lock, pass, count);
    }
}

// The same, and hands the pass on.
fn add_all<R: Wait>(
    rt: &R,
    lock: &TurnLock<Journal>,
    mut pass: Pass<Journal>,
    marks: u64,
) -> Pass<Journal>
    requires { IsOf lock.now pass × IsFree pass }
    ensures { result ≡ record pass { seen = result.seen; mine = result.mine } }
{
    add_marks(rt, lock, &mut pass, marks);
    pass
}

// Two passes, each on a thread of its own.
fn add_beside<R: Threads + Wait + Sync>(
    rt: &R,
    lock: &TurnLock<Journal>,
    one: Pass<Journal>,
    other: Pass<Journal>,
    marks: u64,
) -> (Pass<Journal>, Pass<Journal>)
    requires one { IsOf lock.now one × IsFree one }
    requires other { IsOf lock.now other × IsFree other }
    ensures one { result.0 ≡ record one { seen = result.0.seen; mine = result.0.mine } }
    ensures other { result.1 ≡ record other { seen = result.1.seen; mine = result.1.mine } }
{
    join(
        rt,
        || -> Pass<Journal>
            requires { IsOf lock.now one × IsFree one }
            ensures { result ≡ record one { seen = result.seen; mine = result.mine } }
        { add_all(rt, lock, one, marks) },
        || -> Pass<Journal>
            requires { IsOf lock.now other × IsFree other }
            ensures { result ≡ record other { seen = result.seen; mine = result.mine } }
        { add_all(rt, lock, other, marks) },
    )
}

// Takes two passes in.
fn meet_both(
    lock: &TurnLock<Journal>,
    first: &mut Pass<Journal>,
    both: (Pass<Journal>, Pass<Journal>),
)
    requires first { IsOf lock.now first.old × IsFree first.old }
    requires one { IsOf lock.now both.0 × IsFree both.0 }
    requires other { IsOf lock.now both.1 × IsFree both.1 }
    ensures { first.new ≡ met_with (met_with first.old both.0) both.1 }
{
    let (one, other) = both;
    lock.meet(first, one);
    lock.meet(first, other);
}

// The pass of this number made `count` marks, in their order.
fn has_made(rt: &impl Abort, marks: &[Mark], by: u32, count: u64) {
    let mut next = 0u64;
    for mark in marks {
        if mark.by == by {
            assert!(rt; mark.count == next);
            next = next.saturating_add(1);
        }
    }
    assert!(rt; next == count);
}

#[test]
fn four_threads(rt: HostRuntime) {
    const MARKS: u64 = 1_000;
    let (lock, mut zero) = journal_of(&rt, rt.alloc(), 5);
    let one = lock.split(&mut zero);
    let two = lock.split(&mut zero);
    let three = lock.split(&mut zero);
    let four = lock.split(&mut zero);
    let (former, latter) = join(
        &rt,
        || -> (Pass<Journal>, Pass<Journal>)
            requires one { IsOf lock one × IsFree one }
            requires other { IsOf lock two × IsFree two }
            ensures one { result.0 ≡ record one { seen = result.0.seen; mine = result.0.mine } }
            ensures other { result.1 ≡ record two { seen = result.1.seen; mine = result.1.mine } }
        { add_beside(&rt, &lock, one, two, MARKS) },
        || -> (Pass<Journal>, Pass<Journal>)
            requires one { IsOf lock three × IsFree three }
            requires other { IsOf lock four × IsFree four }
            ensures one { result.0 ≡ record three { seen = result.0.seen; mine = result.0.mine } }
            ensures other { result.1 ≡ record four { seen = result.1.seen; mine = result.1.mine } }
        { add_beside(&rt, &lock, three, four, MARKS) },
    );
    meet_both(&lock, &mut zero, former);
    meet_both(&lock, &mut zero, latter);
    let (journal, _) = lock.close(zero);
    let marks = journal.marks.as_slice();
    assert!(rt; marks.len() == 4_000);
    for by in 1..5 {
        has_made(&rt, marks, by, MARKS);
    }
}

// So many passes, split off the first.
fn split_many(
    rt: &impl Abort,
    alloc: Global,
    lock: &TurnLock<Journal>,
    zero: &mut Pass<Journal>,
    passes: u32,
) -> Vec<Pass<Journal>>
    requires first { IsOf lock.now zero.old × IsFree zero.old }
    requires some { passes ≤ zero.old.left }
    ensures first { IsOf lock.now zero.new × IsFree zero.new }
    ensures passes { All (λ pass. IsOf lock.now pass × IsFree pass) result.items }
{
    let mut split = Vec::new(alloc);
    for nth in 0..passes {
        match split.push(lock.split(zero)) {
            Ok(()) => {}
            Err(_) => panic!(rt; "memory"),
        }
    }
    split
}

// Passes beside each other, each on a thread of its own.
fn add_by_each<R: Threads + Wait + Sync>(
    rt: &R,
    lock: &TurnLock<Journal>,
    passes: &mut Vec<Pass<Journal>>,
    marks: u64,
)
    requires { All (λ pass. IsOf lock.now pass × IsFree pass) passes.old.items }
{
    let threads = passes.len();
    if threads == 0 {
        return;
    }
    for_each_mut(
        rt,
        passes.as_mut_slice(),
        threads,
        &|_, pass: &mut Pass<Journal>|
            requires { IsOf lock.now pass.now × IsFree pass.now }
        { add_marks(rt, lock, pass, marks) },
    );
}

// Many threads, most of which sleep at any moment.
#[test]
fn many_threads(rt: HostRuntime) {
    let (lock, mut zero) = journal_of(&rt, rt.alloc(), 33);
    let mut passes = split_many(&rt, rt.alloc(), &lock, &mut zero, 32);
    add_by_each(&rt, &lock, &mut passes, 50);
    sees(&rt, &lock, &mut zero, 0, 1_600);
}
