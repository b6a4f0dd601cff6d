// Runs over folders and sinks in memory, if memory is left, and rows that tell how each ends and what it writes.
use moos_files::MemFolder;
use moos_io::{Gate, MemSink, NoGate, Sink};
use moos_jobs::{Status, Word, Words, run};
use std::alloc::Global;
use std::process::Abort;
use std::str;
use std::sync::Wait;
use std::thread::Threads;

pub(crate) const PLAY: &[&str] = &["play", "s.txt"];

pub(crate) const RACE: &[&str] = &["play", "s.txt", "--race"];

pub(crate) const STEER: &[&str] = &["play", "s.txt", "m.moos"];

pub(crate) const SOLVE: &[&str] = &["solve", "s.txt"];

pub(crate) const CHECK: &[&str] = &["check", "s.txt"];

/// The words of a run, its files, how it ends, and what it writes, in which `~` stands for any text.
pub(crate) type Row = (
    &'static [&'static str],
    &'static [&'static str],
    &'static str,
    &'static str,
);

pub(crate) fn words_of(rt: &impl Abort, alloc: Global, line: &[&str]) -> Words {
    let mut words = Words::new(alloc);
    for word in line {
        let text = word.to_string(alloc).expect(rt, "memory");
        words.push(Word::new(text)).expect(rt, "memory");
    }
    words
}

// What the files of a run are called, in their order. The survey's mission names the third one.
const NAMES: &[&str] = &["s.txt", "m.moos", "alpha.bhv", "v.txt", "c.txt"];

// A folder with these files alone. If there is a mark, the load with this number fails.
fn folder_with(rt: &impl Abort, alloc: Global, files: &[&str], mark: Option<u64>) -> MemFolder {
    let mut folder = MemFolder::make(alloc);
    for (name, text) in NAMES.iter().zip(files) {
        assert!(rt; text.len() < 10_000);
        let added = folder.add(alloc, name.as_bytes(), text.as_bytes());
        added.expect(rt, "memory");
    }
    if let Some(nth) = mark {
        folder.fail_at(nth).expect(rt, "memory");
    }
    folder
}

/// Runs the job that the words name, beside these files, of which the load that is marked fails.
pub(crate) fn run_into<R: Threads + Wait + Sync + Abort, K: Sink, G: Gate>(
    rt: &R,
    alloc: Global,
    line: &[&str],
    files: &[&str],
    mark: Option<u64>,
    out: &mut K,
    gate: &G,
) -> Status {
    let words = words_of(rt, alloc, line);
    let mut folder = folder_with(rt, alloc, files, mark);
    run(rt, alloc, &words, &mut folder, out, gate)
}

/// A sink with room to spare.
pub(crate) fn sink(rt: &impl Abort, alloc: Global) -> MemSink {
    MemSink::make(alloc, 1_000_000, 10_000).expect(rt, "memory")
}

fn word_of(status: Status) -> &'static str {
    match status {
        Status::Done => "done",
        Status::CheckNo => "not accepted",
        Status::Usage => "usage",
        Status::LoadFault => "load fault",
        Status::WriteFault => "write fault",
        Status::Refused(_) => "refused",
        Status::NoMemory => "no memory",
    }
}

/// Whether a run ended so: as a word says, or refused with what is printed then.
pub(crate) fn has_ended(rt: &impl Abort, alloc: Global, status: Status, ended: &str) -> bool {
    match status {
        Status::Refused(refusal) => {
            let printed = format!(in alloc; "{refusal}").expect(rt, "memory");
            printed.as_str() == ended
        }
        other => word_of(other) == ended,
    }
}

/// Whether a text is like another one, in which `~` stands for any text.
pub(crate) fn is_like(text: &str, told: &str) -> bool {
    let (front, behind) = parted(told, "~");
    let Some(mut left) = text.strip_prefix(front) else {
        return false;
    };
    for part in behind.split("~") {
        match left.split_once(part) {
            Some((_, rest)) => left = rest,
            None => return false,
        }
    }
    left.is_empty() || told.ends_with("~")
}

/// What is before and behind the first of these words in a text.
pub(crate) fn parted<'a>(text: &'a str, words: &str) -> (&'a str, &'a str) {
    text.split_once(words).unwrap_or((text, ""))
}

// What is told of a run by these words beside these files.
fn check(rt: &impl Abort, told: bool, line: &[&str], files: &[&str]) {
    assert!(rt; told, "{line:?}: {files:?}");
}

fn written(rt: &impl Abort, alloc: Global, out: &MemSink) -> String {
    let text = str::from_utf8(out.bytes()).expect(rt, "a text");
    text.to_string(alloc).expect(rt, "memory")
}

/// What a run by these words beside these files writes, which ends so.
pub(crate) fn ran<R: Threads + Wait + Sync + Abort>(
    rt: &R,
    alloc: Global,
    line: &[&str],
    files: &[&str],
    ended: &str,
) -> String {
    let mut out = sink(rt, alloc);
    let status = run_into(rt, alloc, line, files, None, &mut out, &NoGate);
    check(rt, has_ended(rt, alloc, status, ended), line, files);
    written(rt, alloc, &out)
}

/// Such a run ends so, and writes what is like this.
pub(crate) fn writes<R: Threads + Wait + Sync + Abort>(
    rt: &R,
    alloc: Global,
    line: &[&str],
    files: &[&str],
    ended: &str,
    told: &str,
) {
    let text = ran(rt, alloc, line, files, ended);
    check(rt, is_like(text.as_str(), told), line, files);
}

/// Each run ends and writes as its row says.
pub(crate) fn rows_hold<R: Threads + Wait + Sync + Abort>(rt: &R, alloc: Global, rows: &[Row]) {
    for (line, files, ended, told) in rows {
        writes(rt, alloc, *line, *files, *ended, *told);
    }
}

/// By the words of each of these lines a run writes the same, which is like this.
pub(crate) fn all_write<R: Threads + Wait + Sync + Abort>(
    rt: &R,
    alloc: Global,
    lines: &[&[&str]],
    files: &[&str],
    told: &str,
) {
    let [first, others @ ..] = lines else {
        panic!(rt; "no line")
    };
    let text = ran(rt, alloc, *first, files, "done");
    check(rt, is_like(text.as_str(), told), *first, files);
    for line in others {
        writes(rt, alloc, *line, files, "done", text.as_str());
    }
}
