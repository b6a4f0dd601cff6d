// A decision's text by several workers: each formats a chunk of the certificate's lines, and the texts go out in order.
ghost use Rattle.std.specs.Prelude.{◌≡◌, ◌≤◌, ◌<◌, ◌*◌, ◌+◌, ◌/◌, ◌%◌, ℕ, Option, IfOk, IfSome, drop, flat_map, length, min, take, slice_index_or};
ghost use Rattle.moos_io.specs.SinkState.{SinkState};
ghost use Rattle.moos_io.specs.BufferedWriting.{Delivers, Writes};
ghost use Rattle.ivp_cert.specs.Texts.{decision_lines, line_text};

use crate::cert::Line;
use crate::claim::Decision;
use crate::print::{put_lines, put_stated};
use moos_io::{BufferedWriter, Failed, MemSink, Sink};
use moos_post::NoMemory;
use std::alloc::Global;
use std::thread::{Threads, map_chunks};

// How many lines a worker formats at a time. A thread costs more than to format fewer.
const CHUNK: usize = 16_384;

// For how many bytes a worker takes memory: a line of a hard problem has some 125. A chunk with a longer text is formatted as it goes out.
const ROOM: usize = 256 * CHUNK;

/// Writes a decision, each line behind the prefix, as `print_decision` does. The lines of a long certificate are formatted by 1 to 16 workers,
/// each on a thread of its own if one can be started; if no memory is left for their texts, one after the other.
pub fn print_decision_by_workers<R: Threads + Sync, K: Sink>(
    rt: &R,
    alloc: Global,
    decision: &Decision,
    prefix: &[u8],
    workers: u32,
    out: &mut K,
) -> Result<(), Failed>
    requires some { 1 ≤ workers }
    requires few { workers ≤ 16 }
    ensures { Delivers K.taken K.faults out.old out.new result (decision_lines prefix.now decision.now) }
{
    let mut writer = BufferedWriter::new(out);
    put_decision(rt, alloc, prefix, decision, workers, &mut writer);
    writer.finish()
}

// The whole decision through a writer.
fn put_decision<R: Threads + Sync, K: Sink>(
    rt: &R,
    alloc: Global,
    prefix: &[u8],
    decision: &Decision,
    workers: u32,
    out: &mut BufferedWriter<'_, K>,
)
    requires some { 1 ≤ workers }
    requires few { workers ≤ 16 }
    ensures { Writes K.taken K.faults out.old out.new (decision_lines prefix.now decision.now) }
{
    let (lines, workers) = (decision.cert.all(), workers as usize);
    put_stated(prefix, decision, out);
    put_parts(rt, alloc, prefix, lines, workers, out);
    out.write(&[prefix, b"done\n"]);
}

// Lines: if there are several workers and chunks, each worker has a chunk at a time.
fn put_parts<R: Threads + Sync, K: Sink>(
    rt: &R,
    alloc: Global,
    prefix: &[u8],
    lines: &[Line],
    workers: usize,
    out: &mut BufferedWriter<'_, K>,
)
    requires some { 1 ≤ workers }
    requires few { workers ≤ 16 }
    ensures { Writes K.taken K.faults out.old out.new (flat_map (line_text prefix.now) lines.now) }
{
    if workers == 1 || lines.len() <= CHUNK {
        put_lines(prefix, lines, out);
        return;
    }
    let mut left = lines;
    while left.len() > 0 {
        if out.failed() {
            return;
        }
        let (part, later) = left.split_at(left.len().min(workers * CHUNK));
        put_part(rt, alloc, prefix, part, out);
        left = later;
    }
}

// Lines of which each chunk is formatted on a thread of its own, if one can be started.
fn put_part<R: Threads + Sync, K: Sink>(
    rt: &R,
    alloc: Global,
    prefix: &[u8],
    lines: &[Line],
    out: &mut BufferedWriter<'_, K>,
)
    ensures { Writes K.taken K.faults out.old out.new (flat_map (line_text prefix.now) lines.now) }
{
    let Ok(texts) = texts_of(rt, alloc, prefix, lines) else {
        put_lines(prefix, lines, out);
        return;
    };
    for number in 0..texts.len() {
        let chunk = chunk_of(lines, number);
        put_chunk(prefix, chunk, &texts[number], out);
    }
}

// The chunk of this number.
fn chunk_of(lines: &[Line], number: usize) -> &[Line]
    requires { number * CHUNK < length lines.now }
    ensures { result.now ≡ take CHUNK (drop (number * CHUNK) lines.now) }
{
    let (_, left) = lines.split_at(number * CHUNK);
    let (chunk, _) = left.split_at(CHUNK.min(left.len()));
    chunk
}

// A chunk of lines, by its text if a worker made it.
fn put_chunk<K: Sink>(
    prefix: &[u8],
    lines: &[Line],
    text: &Option<MemSink>,
    out: &mut BufferedWriter<'_, K>,
)
    requires { IfSome text.now (λ sink. sink.taken ≡ flat_map (line_text prefix.now) lines.now) }
    ensures { Writes K.taken K.faults out.old out.new (flat_map (line_text prefix.now) lines.now) }
{
    match text {
        Some(sink) => out.write(&[sink.bytes()]),
        None => put_lines(prefix, lines, out),
    }
}

// The text of each chunk, none if memory doesn't do.
fn texts_of<R: Threads + Sync>(
    rt: &R,
    alloc: Global,
    prefix: &[u8],
    lines: &[Line],
) -> Result<Vec<Option<MemSink>>, NoMemory>
    ensures many { IfOk result (λ texts. length texts.items ≡ length lines.now / CHUNK + min 1 (length lines.now % CHUNK)) }
    ensures each { IfOk result (λ texts. (number : ℕ) (d : Option SinkState) → number < length texts.items
        → IfSome (slice_index_or texts.items number d) (λ sink. sink.taken ≡ flat_map (line_text prefix.now) (take CHUNK (drop (number * CHUNK) lines.now)))) }
{
    let make = |_: usize, chunk: &[Line]| -> Option<MemSink>
        ensures { IfSome result (λ sink. sink.taken ≡ flat_map (line_text prefix.entry.now) chunk.now) }
    { text_of(alloc, prefix, chunk) };
    map_chunks(rt, alloc, lines, CHUNK, &make)
}

// The text of lines, if memory is left and it is no longer than that.
fn text_of(alloc: Global, prefix: &[u8], lines: &[Line]) -> Option<MemSink>
    ensures { IfSome result (λ sink. sink.taken ≡ flat_map (line_text prefix.now) lines.now) }
{
    let mut sink = MemSink::make(alloc, ROOM, ROOM).ok()?;
    let mut writer = BufferedWriter::new(&mut sink);
    put_lines(prefix, lines, &mut writer);
    writer.finish().ok()?;
    Some(sink)
}
