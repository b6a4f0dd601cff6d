// The lines of the report, each written in one or a few pieces.
ghost use Rattle.std.specs.Prelude.{◌≡◌, ◌<◌, ◌≤◌, [], ◌∷◌, ◌++◌, flat_map, length, take, slice_index, codes, IsTrue, decimal};
ghost use Rattle.std.specs.List.{concat};
ghost use Rattle.moos_io.specs.BufferedWriting.{Writes};
ghost use Rattle.moos_report.specs.Report.{client_text, reg_text, said_text, unused_text, value_text, is_sign, escaped};

use bhv_file::Unused;
use moos_io::{BufferedWriter, Sink};
use moos_post::{Name, Pair, Reg, Value};
use moos_text::{print_milli, print_unsigned};

// The client of this number and name.
pub(super) fn put_client<K: Sink>(number: u32, name: &Name, out: &mut BufferedWriter<'_, K>)
    ensures { Writes K.taken K.faults out.old out.new (client_text number name.now) }
{
    let mut digits = itoa::Buffer::new();
    let number = digits.format(number).as_bytes();
    out.write(&[b"%% client ", number, b" ", name.bytes(), b"\n"]);
}

// An unused parameter of the behaviour file, by its line and its name.
pub(super) fn put_unused<K: Sink>(unused: &Unused, out: &mut BufferedWriter<'_, K>)
    ensures { Writes K.taken K.faults out.old out.new (unused_text unused.now) }
{
    let mut digits = itoa::Buffer::new();
    let line = digits.format(unused.line).as_bytes();
    out.write(&[b"%% unused ", line, b" ", unused.name.bytes(), b"\n"]);
}

pub(super) fn put_reg<K: Sink>(reg: &Reg, out: &mut BufferedWriter<'_, K>)
    ensures { Writes K.taken K.faults out.old out.new (reg_text reg.now) }
{
    let interval = print_unsigned(reg.interval);
    let (var, source) = (reg.var.bytes(), reg.source.bytes());
    out.write(&[b"%% reg ", var, b" ", source, b" ", interval.bytes(), b"\n"]);
}

// The line of a post by the client with this name.
pub(super) fn put_post<K: Sink>(
    stamp: u64,
    source: &[u8],
    pair: &Pair,
    out: &mut BufferedWriter<'_, K>,
)
    ensures { Writes K.taken K.faults out.old out.new (said_text stamp source.now pair.now.var pair.now.value) }
{
    let stamp = print_unsigned(stamp);
    let var = pair.var.bytes();
    out.write(&[stamp.bytes(), b" ", var, b" ", source, b" "]);
    put_value(&pair.value, out);
}

// The line of a letter: the digits of the post's number, and the post by the client with this name.
pub(super) fn put_mail<'a, K: Sink>(
    digits: &'a [u8],
    stamp: u64,
    source: &'a [u8],
    pair: &Pair,
    out: &mut BufferedWriter<'_, K>,
)
    ensures { Writes K.taken K.faults out.old out.new (concat (codes "%% mail " ∷ digits.now ∷ codes " " ∷ []) ++ said_text stamp source.now pair.now.var pair.now.value) }
{
    let stamp = print_unsigned(stamp);
    let (seconds, var) = (stamp.bytes(), pair.var.bytes());
    out.write(&[
        b"%% mail ",
        digits,
        b" ",
        seconds,
        b" ",
        var,
        b" ",
        source,
        b" ",
    ]);
    put_value(&pair.value, out);
}

// The line at the end, which counts the entries and the posts.
pub(super) fn put_end<K: Sink>(entries: u64, posts: u64, out: &mut BufferedWriter<'_, K>)
    ensures { Writes K.taken K.faults out.old out.new (concat (codes "%% end " ∷ decimal entries ∷ codes " " ∷ decimal posts ∷ codes "\n" ∷ [])) }
{
    let (mut first, mut second) = (itoa::Buffer::new(), itoa::Buffer::new());
    let (entries, posts) = (
        first.format(entries).as_bytes(),
        second.format(posts).as_bytes(),
    );
    out.write(&[b"%% end ", entries, b" ", posts, b"\n"]);
}

// The line of a letter: the digits of the post's number, and its line.
pub(super) fn put_kept<'a, K: Sink>(
    digits: &'a [u8],
    line: &'a [u8],
    out: &mut BufferedWriter<'_, K>,
)
    ensures { Writes K.taken K.faults out.old out.new (concat (codes "%% mail " ∷ digits.now ∷ codes " " ∷ []) ++ line.now) }
{
    out.write(&[b"%% mail ", digits, b" ", line]);
}

// The value, which ends a line.
fn put_value<K: Sink>(value: &Value, out: &mut BufferedWriter<'_, K>)
    ensures { Writes K.taken K.faults out.old out.new (value_text value.now ++ codes "\n") }
{
    match value {
        Value::Num(number) => out.write(&[print_milli(*number).bytes(), b"\n"]),
        Value::Text(text) => put_quoted(text.bytes(), out),
    }
}

// The text between quotes, which ends a line.
fn put_quoted<K: Sink>(text: &[u8], out: &mut BufferedWriter<'_, K>)
    ensures { Writes K.taken K.faults out.old out.new (concat (codes "\"" ∷ flat_map escaped text.now ∷ codes "\"\n" ∷ [])) }
{
    out.write(&[b"\""]);
    put_escaped(text, out);
    out.write(&[b"\"\n"]);
}

// The text in runs up to each byte that gets a `\`.
fn put_escaped<K: Sink>(text: &[u8], out: &mut BufferedWriter<'_, K>)
    ensures { Writes K.taken K.faults out.old out.new (flat_map escaped text.now) }
{
    let mut rest = text;
    while rest.len() > 0 {
        let (plain, signs) = split_plain(rest);
        let [sign, later @ ..] = signs else {
            out.write(&[plain]);
            return;
        };
        out.write(&[plain, b"\\", &[*sign]]);
        rest = later;
    }
}

// What is before the first `"` or `\`, and the rest.
fn split_plain(text: &[u8]) -> (&[u8], &[u8])
    ensures parts { result.0.now ++ result.1.now ≡ text.now }
    ensures plain { flat_map escaped result.0.now ≡ result.0.now }
    ensures sign { 0 < length result.1.now → IsTrue (is_sign (slice_index result.1.now 0)) }
{
    text.split_at(plain_run(text))
}

// How many bytes are before the first `"` or `\`.
pub(super) fn plain_run(text: &[u8]) -> usize
    ensures within { result ≤ length text.now }
    ensures plain { flat_map escaped (take result text.now) ≡ take result text.now }
    ensures sign { result < length text.now → IsTrue (is_sign (slice_index text.now result)) }
{
    for (run, byte) in text.iter().enumerate() {
        if *byte == b'"' || *byte == b'\\' {
            return run;
        }
    }
    text.len()
}
