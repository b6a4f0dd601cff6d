// Posts by their lines, which are kept or not: those of a batch, and the letters of a fetch.
ghost use Rattle.std.specs.Prelude.{◌≡◌, ◌≤◌, ◌<◌, ◌+◌, ◌^◌, ◌++◌, [], ◌∷◌, Some, length, map, take, flat_map, codes, decimal, slice_get};
ghost use Rattle.std.specs.List.{concat};
ghost use Rattle.moos_io.specs.BufferedWriting.{Writes};
ghost use Rattle.moos_post.specs.History.{posts_of};
ghost use Rattle.moos_report.specs.Lines.{AreLinesFrom, IsLineOrNone, KeepsLines};
ghost use Rattle.moos_report.specs.Report.{said_text, letter_text, letters_text};

use super::kept::PostLines;
use super::lines::{put_kept, put_mail, put_post};
use super::name_of;
use super::numeral::Numeral;
use moos_db::Db;
use moos_io::{BufferedWriter, Sink};
use moos_post::{Call, Entry, Pair};

// Keeps the lines of the posts of entry `k`, if `first` posts are before it.
pub(super) fn keep_lines(db: &Db, k: u64, entry: &Entry, first: u64, lines: &mut PostLines)
    requires at { slice_get db.now.history k ≡ Some entry.now }
    requires behind { first ≡ length (posts_of (take k db.now.history)) }
    requires kept { KeepsLines db.now.names db.now.history lines.old }
    ensures { KeepsLines db.now.names db.now.history lines.new }
{
    let _ = db.posts();
    if let Call::Post(batch) = &entry.call {
        lines.keep_batch(first, entry.stamp, name_of(db, entry.client), batch.all());
    }
}

// A batch by the client with this name, whose first post has the number `first`.
pub(super) fn put_batch<K: Sink>(
    first: u64,
    stamp: u64,
    source: &[u8],
    pairs: &[Pair],
    lines: &PostLines,
    out: &mut BufferedWriter<'_, K>,
)
    requires few { first + length pairs.now < 2 ^ 64 }
    requires kept { AreLinesFrom first (map (λ pair. said_text stamp source.now pair.var pair.value) pairs.now) lines.now }
    ensures { Writes K.taken K.faults out.old out.new (concat (codes " post " ∷ decimal first ∷ codes " " ∷ decimal (length pairs.now) ∷ codes "\n" ∷ [])
        ++ flat_map (λ pair. said_text stamp source.now pair.var pair.value) pairs.now) }
{
    put_posting(first, pairs.len() as u64, out);
    put_pairs(first, stamp, source, pairs, lines, out);
}

fn put_posting<K: Sink>(first: u64, count: u64, out: &mut BufferedWriter<'_, K>)
    ensures { Writes K.taken K.faults out.old out.new (concat (codes " post " ∷ decimal first ∷ codes " " ∷ decimal count ∷ codes "\n" ∷ [])) }
{
    let (mut firsts, mut counts) = (itoa::Buffer::new(), itoa::Buffer::new());
    out.write(&[
        b" post ",
        firsts.format(first).as_bytes(),
        b" ",
        counts.format(count).as_bytes(),
        b"\n",
    ]);
}

// The posts of a batch, whose lines are kept or not.
fn put_pairs<K: Sink>(
    first: u64,
    stamp: u64,
    source: &[u8],
    pairs: &[Pair],
    lines: &PostLines,
    out: &mut BufferedWriter<'_, K>,
)
    requires few { first + length pairs.now < 2 ^ 64 }
    requires kept { AreLinesFrom first (map (λ pair. said_text stamp source.now pair.var pair.value) pairs.now) lines.now }
    ensures { Writes K.taken K.faults out.old out.new (flat_map (λ pair. said_text stamp source.now pair.var pair.value) pairs.now) }
{
    let mut number = first;
    for pair in pairs {
        put_pair(lines.line(number), stamp, source, pair, out);
        number += 1;
    }
}

// A post by the client with this name, by its line if that is kept.
fn put_pair<K: Sink>(
    line: &[u8],
    stamp: u64,
    source: &[u8],
    pair: &Pair,
    out: &mut BufferedWriter<'_, K>,
)
    requires { IsLineOrNone line.now (said_text stamp source.now pair.now.var pair.now.value) }
    ensures { Writes K.taken K.faults out.old out.new (said_text stamp source.now pair.now.var pair.now.value) }
{
    if line.len() > 0 {
        out.write(&[line]);
        return;
    }
    put_post(stamp, source, pair, out);
}

// The letters of these numbers, if `first` posts are before the fetch.
pub(super) fn put_fetch<K: Sink>(
    db: &Db,
    first: u64,
    letters: &[u64],
    lines: &PostLines,
    out: &mut BufferedWriter<'_, K>,
)
    requires within { first ≤ length (posts_of db.now.history) }
    requires kept { KeepsLines db.now.names db.now.history lines.now }
    ensures { Writes K.taken K.faults out.old out.new (codes " fetch\n" ++ letters_text db.now.names (take first (posts_of db.now.history)) letters.now) }
{
    out.write(&[b" fetch\n"]);
    put_letters(db, first, letters, lines, out);
}

fn put_letters<K: Sink>(
    db: &Db,
    first: u64,
    letters: &[u64],
    lines: &PostLines,
    out: &mut BufferedWriter<'_, K>,
)
    requires within { first ≤ length (posts_of db.now.history) }
    requires kept { KeepsLines db.now.names db.now.history lines.now }
    ensures { Writes K.taken K.faults out.old out.new (letters_text db.now.names (take first (posts_of db.now.history)) letters.now) }
{
    let mut numeral = Numeral::of(0);
    for &number in letters {
        numeral.go_to(number);
        put_letter(db, first, number, numeral.digits(), lines, out);
    }
}

// The letter of this number, which has these digits, if one of the first posts has it.
fn put_letter<K: Sink>(
    db: &Db,
    first: u64,
    number: u64,
    digits: &[u8],
    lines: &PostLines,
    out: &mut BufferedWriter<'_, K>,
)
    requires digits { digits.now ≡ decimal number }
    requires within { first ≤ length (posts_of db.now.history) }
    requires kept { KeepsLines db.now.names db.now.history lines.now }
    ensures { Writes K.taken K.faults out.old out.new (letter_text db.now.names number (slice_get (take first (posts_of db.now.history)) number)) }
{
    if number >= first {
        return;
    }
    let line = lines.line(number);
    if line.len() > 0 {
        put_kept(digits, line, out);
        return;
    }
    let (origin, pair) = (db.origin(number), db.pair(number));
    put_mail(digits, origin.stamp, name_of(db, origin.client), pair, out);
}
