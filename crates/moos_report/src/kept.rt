// What a report keeps of what it printed: the lines of posts, since what many hear is formatted once, and the last decision's text.
ghost use Rattle.std.specs.Prelude.{◌≡◌, ◌+◌, ◌<◌, ◌≤◌, ◌^◌, ◌++◌, ◌∷◌, ◌⊎◌, [], ℕ, List, Some, length, map, slice_get, take, unwrap_or};
ghost use Rattle.std.specs.List.{concat};
ghost use Rattle.moos_report.specs.Lines.{AreLines, IsLineOrNone, StandAt};
ghost use Rattle.moos_report.specs.Report.{said_text};

use crate::decided::LastText;
use crate::lines::plain_run;
use moos_post::{Pair, Value};
use moos_text::{print_milli, print_unsigned};
use std::alloc::Global;
use std::marker::Model;

// How long a line may be that is kept.
const ROOM: usize = 47;

// A post's line, or nothing if it is too long to be kept. Contracts see its bytes.
#[derive(Drop)]
struct PostLine {
    bytes: [u8; ROOM],
    len: u8,
}

impl Model for PostLine {
    ghost use Rattle.std.specs.Prelude.{List, ℕ, ◌≤◌, length, take};

    ghost Value = { List ℕ };

    ghost view = { λ line. take line.len line.bytes };

    ghost invariant = { λ line. line.len ≤ length line.bytes };
}

impl PostLine {
    // No line.
    fn none() -> PostLine
        ensures { result ≡ [] }
    {
        PostLine {
            bytes: [0; ROOM],
            len: 0,
        }
    }

    // The line that is these pieces, if there is room for them.
    #[inline(always)]
    fn joined(pieces: &[&[u8]]) -> PostLine
        ensures { IsLineOrNone result (concat (map (λ piece. piece.now) pieces.now)) }
    {
        let mut line = PostLine::none();
        for piece in pieces {
            if piece.len() > ROOM - line.len as usize {
                return PostLine::none();
            }
            line.add(piece);
        }
        line
    }

    fn bytes(&self) -> &[u8]
        ensures { result.now ≡ self.now }
    {
        &self.bytes[..self.len as usize]
    }

    // Adds a piece, for which there is room.
    #[inline(always)]
    fn add(&mut self, piece: &[u8])
        requires { length self.old + length piece.now ≤ ROOM }
        ensures { self.new ≡ self.old ++ piece.now }
    {
        let place = self.len as usize;
        put_at(&mut self.bytes, place, piece);
        self.len = (place + piece.len()) as u8;
    }

    // The line of a post by the client with this name. One with a text in which a byte gets a `\` isn't kept.
    fn of_post(stamp: u64, source: &[u8], pair: &Pair) -> PostLine
        ensures { IsLineOrNone result (said_text stamp source.now pair.now.var pair.now.value) }
    {
        let stamp = print_unsigned(stamp);
        let (seconds, var) = (stamp.bytes(), pair.var.bytes());
        match &pair.value {
            Value::Num(number) => PostLine::joined(&[
                seconds,
                b" ",
                var,
                b" ",
                source,
                b" ",
                print_milli(*number).bytes(),
                b"\n",
            ]),
            Value::Text(text) => {
                let text = text.bytes();
                if plain_run(text) < text.len() {
                    return PostLine::none();
                }
                PostLine::joined(&[
                    seconds, b" ", var, b" ", source, b" ", b"\"", text, b"\"", b"\n",
                ])
            }
        }
    }
}

// Writes the piece at this place, over what stood there.
#[inline(always)]
fn put_at(bytes: &mut [u8], place: usize, piece: &[u8])
    requires { place + length piece.now ≤ length bytes.old }
    ensures written { take (place + length piece.now) bytes.new ≡ take place bytes.old ++ piece.now }
    ensures same { length bytes.new ≡ length bytes.old }
{
    bytes[place..place + piece.len()].copy_from_slice(piece);
}

// The lines of the first posts of a database, as they were printed, 48 bytes for each. Memory is taken for them if there is some,
// and what isn't kept is formatted anew. Contracts see the lines; one that isn't kept is empty.
#[derive(Drop)]
pub(crate) struct PostLines {
    lines: Option<Vec<PostLine>>,
}

impl Model for PostLines {
    ghost use Rattle.std.specs.Prelude.{List, ℕ, [], unwrap_or, option_map};

    ghost Value = { List (List ℕ) };

    ghost view = { λ lines. unwrap_or (option_map (λ kept. kept.items) lines.lines) [] };
}

impl PostLines {
    // No lines, and none is ever kept.
    pub(crate) fn none() -> PostLines
        ensures { result ≡ [] }
    {
        PostLines { lines: None }
    }

    // No lines yet.
    pub(crate) fn new(alloc: Global) -> PostLines
        ensures { result ≡ [] }
    {
        PostLines {
            lines: Some(Vec::new(alloc)),
        }
    }

    // The line of the post with this number, or nothing if it isn't kept.
    pub(crate) fn line(&self, number: u64) -> &[u8]
        ensures { result.now ≡ unwrap_or (slice_get self.now number) [] }
    {
        let Some(lines) = &self.lines else {
            return &[];
        };
        match lines.get(number as usize) {
            Some(line) => line.bytes(),
            None => &[],
        }
    }

    // Keeps the line of the post with this number, if all before it are there, and there is memory.
    fn keep(&mut self, number: u64, line: PostLine)
        ensures { (self.new ≡ self.old) ⊎ ((number ≡ length self.old) × (self.new ≡ self.old ++ line ∷ [])) }
    {
        if let Some(lines) = &mut self.lines {
            if lines.len() as u64 == number {
                let _ = lines.push(line);
            }
        }
    }

    // Keeps the lines of a batch by the client with this name, whose first post has the number `first`. If none is ever kept,
    // none is made.
    pub(crate) fn keep_batch(&mut self, first: u64, stamp: u64, source: &[u8], pairs: &[Pair])
        requires { first + length pairs.now < 2 ^ 64 }
        // Of whatever lines they are.
        ensures { (texts : List (List ℕ)) → StandAt first (map (λ pair. said_text stamp source.now pair.var pair.value) pairs.now) texts
            → AreLines texts self.old → AreLines texts self.new }
    {
        if self.lines.is_none() {
            return;
        }
        let mut number = first;
        for pair in pairs {
            self.keep(number, PostLine::of_post(stamp, source, pair));
            number += 1;
        }
    }
}

/// What a report keeps of what it printed, so that it isn't formatted anew: the lines of posts, and the text of the last decision up to
/// 64 KiB. Memory is taken if there is some. Contracts see the lines of posts; one that isn't kept is empty.
#[derive(Drop)]
pub struct KeptText {
    pub(crate) lines: PostLines,
    pub(crate) last: LastText,
}

impl Model for KeptText {
    ghost use Rattle.std.specs.Prelude.{List, ℕ};

    ghost Value = { List (List ℕ) };

    ghost view = { λ kept. kept.lines };
}

impl KeptText {
    // Nothing, and nothing is ever kept.
    pub(crate) fn none() -> KeptText
        ensures { result ≡ [] }
    {
        KeptText {
            lines: PostLines::none(),
            last: LastText::none(),
        }
    }

    /// Nothing yet.
    pub fn new(alloc: Global) -> KeptText
        ensures { result ≡ [] }
    {
        KeptText {
            lines: PostLines::new(alloc),
            last: LastText::new(alloc),
        }
    }
}
