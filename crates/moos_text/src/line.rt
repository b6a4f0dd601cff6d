// Lines of a file, and those that say something.
ghost use Rattle.std.specs.Prelude.{◌≡◌, ◌+◌, ◌<◌, ◌≤◌, ◌==◌, [], ◌∷◌, IfNone, IfSome, false, length, take, drop, slice_range, position};
ghost use Rattle.std.specs.List.{position_or_len};
ghost use Rattle.moos_text.specs.Lines.{raw_lines, first_line, begins_comment, is_quoted_after, uncommented, content_of, is_unclosed, trimmed, without_return};

use crate::end::without_last;
use crate::trim::trimmed;
use memchr::{memchr, memchr2};

/// One line of a file.
#[derive(Clone, Copy, Debug, PartialEq, Eq)]
pub struct Line {
    /// Where the line begins.
    pub from: usize,
    /// Where what counts of it ends: before its comment, and before its end.
    pub to: usize,
    /// Whether a quote is open there.
    pub unclosed: bool,
    /// Where the next line begins, or the end of the file.
    pub next: usize,
}

/// The line that begins at this place of a file. At the end of the file there is no line, and it is empty.
#[tactic(auto, using(crate::proofs::LineSteps::lines_at, crate::proofs::LineSteps::last_line_at))]
pub fn next_line(bytes: &[u8], from: usize) -> Line
    requires { from ≤ length bytes.now }
    ensures content { slice_range bytes.now result.from result.to ≡ content_of (first_line (drop from bytes.now)) }
    ensures unclosed { result.unclosed ≡ is_unclosed (content_of (first_line (drop from bytes.now))) }
    ensures lines { from < length bytes.now →
        raw_lines (drop from bytes.now) ≡ first_line (drop from bytes.now) ∷ raw_lines (drop result.next bytes.now) }

    // It goes on from this place, and on to the end of the file.
    ensures start { result.from ≡ from }
    ensures order { (result.from ≤ result.to) × (result.to ≤ result.next) × (result.next ≤ length bytes.now) }
    ensures further { from < length bytes.now → from < result.next }
{
    let line = first_line(bytes, from);
    let content = content_of(without_last(line, b'\r'));
    let end = from + line.len();
    Line {
        from,
        to: from + content.len,
        unclosed: content.unclosed,
        next: if end < bytes.len() {
            end + 1
        } else {
            bytes.len()
        },
    }
}

/// The first line of a text, without its end and with all that may be a comment, and what follows it; `None`
/// exactly if the text is empty.
pub fn next_whole_line(text: &[u8]) -> Option<(&[u8], &[u8])>
    ensures none { IfNone result (text.now ≡ []) }
    ensures line { IfSome result (λ found. found.0.now ≡ without_return (first_line text.now)) }
    ensures lines { IfSome result (λ found. raw_lines text.now ≡ first_line text.now ∷ raw_lines found.1.now) }
    ensures shorter { IfSome result (λ found. length found.1.now < length text.now) }
{
    if text.len() == 0 {
        return None;
    }
    let line = first_line(text, 0);
    Some((without_last(line, b'\r'), behind_first(text, line.len())))
}

/// What the first line of a text says, and what follows it.
#[derive(Clone, Copy)]
pub struct Said<'a> {
    /// What counts of the line, without blanks at its ends; empty if it says nothing.
    pub text: &'a [u8],
    /// Whether it leaves a quote open.
    pub unclosed: bool,
    /// The lines behind it.
    pub rest: &'a [u8],
}

/// What the first line of a text says; `None` exactly if the text is empty.
#[tactic(auto, using(crate::proofs::Quotes::trimmed_quotes))]
pub fn next_said(text: &[u8]) -> Option<Said<'_>>
    ensures none { IfNone result (text.now ≡ []) }
    ensures said { IfSome result (λ said. said.text.now ≡ trimmed (content_of (first_line text.now))) }
    ensures unclosed { IfSome result (λ said. said.unclosed ≡ is_unclosed said.text.now) }
    ensures lines { IfSome result (λ said. raw_lines text.now ≡ first_line text.now ∷ raw_lines said.rest.now) }
    ensures shorter { IfSome result (λ said. length said.rest.now < length text.now) }
{
    if text.len() == 0 {
        return None;
    }
    let line = next_line(text, 0);
    Some(Said {
        text: trimmed(&text[..line.to]),
        unclosed: line.unclosed,
        rest: &text[line.next..],
    })
}

// What follows the first line, which has so many bytes without its end.
fn behind_first(text: &[u8], len: usize) -> &[u8]
    requires some { 0 < length text.now }
    requires len { len ≡ length (first_line text.now) }
    requires within { len ≤ length text.now }
    ensures lines { raw_lines text.now ≡ first_line text.now ∷ raw_lines result.now }
    ensures shorter { length result.now < length text.now }
{
    if len < text.len() {
        &text[len + 1..]
    } else {
        &text[len..]
    }
}

// The bytes before the first line feed from this place on.
fn first_line(bytes: &[u8], from: usize) -> &[u8]
    requires { from ≤ length bytes.now }
    ensures value { result.now ≡ first_line (drop from bytes.now) }
    ensures front { result.now ≡ take (length result.now) (drop from bytes.now) }
    ensures within { from + length result.now ≤ length bytes.now }
{
    let rest = &bytes[from..];
    &rest[..line_end(rest)]
}

// Where the first line feed is, or the end.
#[tactic(auto, using(crate::proofs::LineSteps::line_end_within))]
fn line_end(bytes: &[u8]) -> usize
    ensures end { result ≡ position_or_len (λ byte. byte == 10) bytes.now }
    ensures within { result ≤ length bytes.now }
{
    match line_feed(bytes) {
        Some(place) => place,
        None => bytes.len(),
    }
}

#[tactic(auto, using(crate::proofs::Finding::first_place))]
fn line_feed(bytes: &[u8]) -> Option<usize>
    ensures { result ≡ position (λ byte. byte == 10) bytes.now }
{
    memchr(b'\n', bytes)
}

// How many bytes of a line count, and whether a quote is open behind them.
#[derive(Clone, Copy)]
struct Content {
    len: usize,
    unclosed: bool,
}

fn content_of(line: &[u8]) -> Content
    ensures content { take result.len line.now ≡ uncommented false line.now }
    ensures unclosed { result.unclosed ≡ is_unclosed (uncommented false line.now) }
    ensures within { result.len ≤ length line.now }
{
    match memchr2(b'"', b'/', line) {
        Some(_) => content_by_bytes(line),
        None => Content {
            len: line.len(),
            unclosed: false,
        },
    }
}

// The same byte by byte, for a line in which there may be a quote or a comment.
#[tactic(auto, using(crate::proofs::LineSteps::without_comment, crate::proofs::LineSteps::byte_more))]
fn content_by_bytes(line: &[u8]) -> Content
    ensures content { take result.len line.now ≡ uncommented false line.now }
    ensures unclosed { result.unclosed ≡ is_unclosed (uncommented false line.now) }
    ensures within { result.len ≤ length line.now }
{
    let mut quoted = false;
    for (len, byte) in line.iter().enumerate() {
        if !quoted && begins_comment(&line[len..]) {
            return Content {
                len,
                unclosed: false,
            };
        }
        quoted = is_quoted_after(quoted, *byte);
    }
    Content {
        len: line.len(),
        unclosed: quoted,
    }
}

fn begins_comment(bytes: &[u8]) -> bool
    ensures { result ≡ begins_comment bytes.now }
{
    matches!(bytes, [b'/', b'/', ..])
}

pub(crate) fn is_quoted_after(quoted: bool, byte: u8) -> bool
    ensures { result ≡ is_quoted_after quoted byte }
{
    if byte == b'"' { !quoted } else { quoted }
}
