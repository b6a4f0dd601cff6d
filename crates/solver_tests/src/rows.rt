// Rows of text, of which each says a case of a test: what they say, read word by word.
use moos_text::ReadFault;
use std::alloc::Global;
use std::process::Abort;

/// The number that stands at a place of a row.
pub(crate) fn number_at(rt: &impl Abort, row: &str, place: usize) -> i64 {
    let word = row.split_whitespace().nth(place).unwrap_or("");
    word.parse::<i64>().ok().expect(rt, "a number")
}

/// The count that stands at a place of a row.
pub(crate) fn count_at(rt: &impl Abort, row: &str, place: usize) -> u32 {
    let word = row.split_whitespace().nth(place).unwrap_or("");
    word.parse::<u32>().ok().expect(rt, "a count")
}

/// A text, and behind it what a row says from this word on, in which `|` stands for the end of a line.
pub(crate) fn text_of(
    rt: &impl Abort,
    alloc: Global,
    front: &[u8],
    row: &str,
    words: usize,
) -> Vec<u8> {
    let said = row
        .splitn(words.saturating_add(1), ' ')
        .nth(words)
        .unwrap_or("");
    let mut text = Vec::from_slice(alloc, front).expect(rt, "memory");
    for byte in said.as_bytes() {
        let byte = if *byte == b'|' { b'\n' } else { *byte };
        text.push(byte).expect(rt, "memory");
    }
    text
}

/// A text is refused at the line, and for the cause, with which its row begins.
pub(crate) fn is_refused(rt: &impl Abort, fault: Option<ReadFault>, row: &str) {
    let cause = row.split_whitespace().nth(1);
    let is_so = match fault {
        Some(ReadFault::At { line, cause: told }) => {
            line == count_at(rt, row, 0) && told.text().split_whitespace().next() == cause
        }
        _ => false,
    };
    assert!(rt; is_so, "{row}");
}
