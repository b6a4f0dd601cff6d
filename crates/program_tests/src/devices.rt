// Runs over a folder of which a load fails, and into sinks that fail or have just room.
use crate::files::{ALPHA, FIRST_SCRIPT, SAILED, SECOND_DECIDED};
use crate::runs::{PLAY, SOLVE, STEER, has_ended, parted, ran, run_into, sink};
use moos_io::{FirmSink, MemSink, NoGate};
use moos_jobs::Status;
use std::alloc::Global;
use std::process::Abort;
use std::sync::Wait;
use std::thread::Threads;

// The survey loads a script, a mission and a behaviour file.
#[test]
fn a_failed_load_is_told(rt: HostRuntime) {
    for nth in 0..3 {
        let mut out = sink(&rt, rt.alloc());
        let mark = Some(nth);
        let status = run_into(&rt, rt.alloc(), STEER, ALPHA, mark, &mut out, &NoGate);
        let is_told = has_ended(&rt, rt.alloc(), status, "load fault");
        assert!(rt; is_told && out.bytes().is_empty(), "{nth}");
    }
}

// A sink of which a put takes so many bytes at most, and the put with this number fails.
fn failing_sink(rt: &impl Abort, alloc: Global, limit: usize, nth: u64) -> MemSink {
    assert!(rt; limit > 0);
    let mut out = MemSink::make(alloc, 1_000_000, limit).expect(rt, "memory");
    out.fail_at(nth).expect(rt, "memory");
    out
}

// Whether a run is done. Else its write failed.
fn is_done_or_cut(rt: &impl Abort, alloc: Global, status: Status) -> bool {
    let is_done = has_ended(rt, alloc, status, "done");
    assert!(rt; is_done || has_ended(rt, alloc, status, "write fault"));
    is_done
}

// What was taken is a front of the whole, and it is all exactly if the run is done.
fn is_front(rt: &impl Abort, taken: &[u8], whole: &[u8], is_done: bool) {
    assert!(rt; whole.starts_with(taken));
    assert!(rt; (taken.len() == whole.len()) == is_done);
}

// Whether a run into such a sink is done.
fn is_done<R: Threads + Wait + Sync + Abort>(
    rt: &R,
    alloc: Global,
    line: &[&str],
    files: &[&str],
    whole: &[u8],
    limit: usize,
    nth: u64,
) -> bool {
    let mut out = failing_sink(rt, alloc, limit, nth);
    let status = run_into(rt, alloc, line, files, None, &mut out, &NoGate);
    let is_done = is_done_or_cut(rt, alloc, status);
    is_front(rt, out.bytes(), whole, is_done);
    is_done
}

// Each put of the run fails once, from the first to one behind the last. There are so many at least.
fn fails_at_each_put<R: Threads + Wait + Sync + Abort>(
    rt: &R,
    alloc: Global,
    line: &[&str],
    files: &[&str],
    whole: &[u8],
    limit: usize,
    least: u64,
) {
    for nth in 0..1000 {
        if is_done(rt, alloc, line, files, whole, limit, nth) {
            assert!(rt; nth >= least, "{nth}");
            return;
        }
    }
    panic!(rt; "never done")
}

// A run into a sink with this room fills it, and it is done exactly if that is all.
fn fits<R: Threads + Wait + Sync + Abort>(
    rt: &R,
    alloc: Global,
    line: &[&str],
    files: &[&str],
    whole: &[u8],
    room: usize,
) {
    let mut out = FirmSink::make(alloc, room).expect(rt, "memory");
    let status = run_into(rt, alloc, line, files, None, &mut out, &NoGate);
    let is_done = is_done_or_cut(rt, alloc, status);
    is_front(rt, out.bytes(), whole, is_done);
    assert!(rt; out.bytes().len() == room);
}

// Each sink that fails is left with a front of what the run writes, and one with just room takes it all.
fn leaves_a_front<R: Threads + Wait + Sync + Abort>(
    rt: &R,
    alloc: Global,
    line: &[&str],
    files: &[&str],
    limit: usize,
    least: u64,
) {
    let whole = ran(rt, alloc, line, files, "done");
    let whole = whole.as_bytes();
    fails_at_each_put(rt, alloc, line, files, whole, limit, least);
    fits(rt, alloc, line, files, whole, whole.len());
    fits(rt, alloc, line, files, whole, whole.len().saturating_sub(1));
}

// A put takes 7 bytes of 178 and of 211. Beside a vehicle there are seven puts at least: that of the opening, those of five rounds,
// and the last one.
#[test]
fn sinks_that_fail_are_left_with_a_front(rt: HostRuntime) {
    leaves_a_front(&rt, rt.alloc(), PLAY, &[FIRST_SCRIPT], 7, 26);
    let (problem, _) = parted(SECOND_DECIDED, "decision");
    leaves_a_front(&rt, rt.alloc(), SOLVE, &[problem], 7, 31);
    let line = ["simulate", "s.txt", "m.moos", "v.txt"];
    leaves_a_front(&rt, rt.alloc(), &line, SAILED, 10_000, 7);
}
