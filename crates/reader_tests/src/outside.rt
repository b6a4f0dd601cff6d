// Folders and sinks: in memory, and the real ones.
use crate::files::{append, check, joined};
use moos_files::*;
use moos_io::*;
use std::alloc::Global;
use std::fs;
use std::fs::{File, OpenFile};
use std::process::Abort;

// What a folder loads of each name behind a mark, and what is then there.
fn loads<F: Folder>(
    rt: &impl Abort,
    alloc: Global,
    folder: &mut F,
    rows: &[(&[u8], Result<(), LoadFault>, &str)],
) {
    for (name, answer, after) in rows {
        let mut into = joined(rt, alloc, &[b">"]);
        let found = folder.load(*name, &mut into);
        let is_so = found == *answer && into.as_slice() == after.as_bytes();
        assert!(rt; is_so, "{name:?}");
    }
}

const FILES: &[(&[u8], &[u8])] = &[(b"a", b"one"), (b"b", b""), (b"a", b"two")];

const LOADED: &[(&[u8], Result<(), LoadFault>, &str)] = &[
    (b"a", Ok(()), ">one"),
    (b"b", Ok(()), ">"),
    (b"ab", Err(LoadFault::Failed), ">"),
    (b"", Err(LoadFault::Failed), ">"),
];

#[test]
fn first_file_of_a_name_is_loaded(rt: HostRuntime) {
    let mut folder = MemFolder::make(rt.alloc());
    for (name, bytes) in FILES {
        let added = folder.add(rt.alloc(), *name, *bytes);
        added.expect(&rt, "memory");
    }
    loads(&rt, rt.alloc(), &mut folder, LOADED);
}

const REAL: &[(&[u8], Result<(), LoadFault>, &str)] = &[
    (b"moos_io_loaded", Ok(()), ">content\n"),
    (b"moos_io_absent", Err(LoadFault::Failed), ">"),
    (b" moos_io_loaded", Err(LoadFault::Failed), ">"),
    (b"moos_io_loaded ", Err(LoadFault::Failed), ">"),
    (b".", Err(LoadFault::Failed), ">"),
    (b"\xff", Err(LoadFault::Failed), ">"),
];

// A load of the file gives this answer, and then so many bytes are there.
fn loads_many<F: Folder>(
    rt: &impl Abort,
    alloc: Global,
    folder: &mut F,
    answer: Result<(), LoadFault>,
    after: usize,
) {
    let mut into = Vec::new(alloc);
    let found = folder.load(b"moos_io_loaded", &mut into);
    check(rt, found == answer, "a long file is loaded");
    check(rt, into.len() == after, "a long file is there");
}

#[test]
fn real_files_are_loaded_up_to_the_limit(rt: HostRuntime) {
    let alloc = rt.alloc();
    let path = "moos_io_loaded";
    fs::write(&rt, path, "content\n").expect(&rt, path);
    let mut folder = DirFolder::make(&rt);
    loads(&rt, alloc, &mut folder, REAL);
    let file = File::create(&rt, path).expect(&rt, path);
    file.set_len(16_777_216).expect(&rt, path);
    loads_many(&rt, alloc, &mut folder, Ok(()), 16_777_216);
    file.set_len(16_777_217).expect(&rt, path);
    loads_many(&rt, alloc, &mut folder, Err(LoadFault::Failed), 0);
    fs::remove_file(&rt, path).expect(&rt, path);
}

// A sink for `room` bytes, of which one put takes at most `limit`, and one put fails.
fn sink(rt: &impl Abort, alloc: Global, room: usize, limit: usize, mark: Option<u64>) -> MemSink {
    assert!(rt; 0 < limit);
    let mut sink = MemSink::make(alloc, room, limit).expect(rt, "memory");
    if let Some(nth) = mark {
        sink.fail_at(nth).expect(rt, "memory");
    }
    sink
}

// The piece is put, as a whole or not, and then the sink has these bytes.
fn puts(rt: &impl Abort, out: &mut MemSink, piece: &str, answer: Result<(), Failed>, after: &str) {
    let found = put_all(out, piece.as_bytes());
    check(rt, found == answer, piece);
    check(rt, out.bytes() == after.as_bytes(), piece);
}

// The room of a sink and the put that fails, what is put, what the puts answer, and what the sink then has.
const PUTS: &[(usize, Option<u64>, &str, Result<(), Failed>, &str)] = &[
    (5, None, "abcde", Ok(()), "abcde"),
    (5, None, "abcdef", Err(Failed), "abcde"),
    (5, Some(0), "abcde", Err(Failed), ""),
    (5, Some(1), "abcde", Err(Failed), "ab"),
    (5, Some(3), "abcde", Ok(()), "abcde"),
    (0, None, "", Ok(()), ""),
];

#[test]
fn sink_takes_what_room_and_marks_allow(rt: HostRuntime) {
    for (room, mark, piece, answer, after) in PUTS {
        let mut out = sink(&rt, rt.alloc(), *room, 2, *mark);
        puts(&rt, &mut out, *piece, *answer, *after);
    }
}

#[test]
fn marked_put_fails_once(rt: HostRuntime) {
    let mut out = sink(&rt, rt.alloc(), 5, 2, Some(1));
    puts(&rt, &mut out, "abc", Err(Failed), "ab");
    puts(&rt, &mut out, "cde", Ok(()), "abcde");
}

#[test]
fn what_never_fails(rt: HostRuntime) {
    let mut out = OutSink::make(&rt);
    put_all(&mut out, b"written by a test\n").expect(&rt, "a put");
    NoGate.at_node(0, 0);
    NoGate.at_call(0, 0);
}

// 4,000 times `word `, and then a piece that is longer than the buffer.
fn write_words(sink: &mut MemSink, long: &[u8]) -> Result<(), Failed> {
    let mut writer = BufferedWriter::new(sink);
    for _ in 0..4000 {
        writer.write(&[b"word".as_slice(), b" "]);
    }
    writer.write(&[b"long ".as_slice(), long, b"\n"]);
    writer.finish()
}

// All of those words, and then the pieces of the long one.
fn words_and_long(rt: &impl Abort, alloc: Global, long: &[u8]) -> Vec<u8> {
    let mut whole = Vec::new(alloc);
    for _ in 0..4000 {
        append(rt, &mut whole, &[b"word "]);
    }
    append(rt, &mut whole, &[b"long ", long, b"\n"]);
    whole
}

// The put that fails, what is answered, and how many bytes are put before.
const RUNS: &[(&str, u64, Result<(), Failed>, usize)] = &[
    ("no put", 4, Ok(()), 37006),
    ("the last put", 3, Err(Failed), 37005),
    ("the third put", 2, Err(Failed), 20005),
    ("the second put", 1, Err(Failed), 16384),
    ("the first put", 0, Err(Failed), 0),
];

#[test]
fn writer_passes_words_on_in_few_puts_until_one_fails(rt: HostRuntime) {
    let alloc = rt.alloc();
    let long = [b'x'; 17000];
    let whole = words_and_long(&rt, alloc, &long);
    for (row, mark, answer, len) in RUNS {
        let mut out = sink(&rt, alloc, 40000, 32768, Some(*mark));
        let found = write_words(&mut out, &long);
        check(&rt, found == *answer, *row);
        check(&rt, out.bytes().len() == *len, *row);
        check(&rt, whole.as_slice().starts_with(out.bytes()), *row);
    }
}
