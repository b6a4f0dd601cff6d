// What the kinds of files share: how each is refused, and texts that are made of pieces.
ghost use Rattle.std.specs.Prelude.{◌<◌, ◌^◌, length};

use bhv_reader::{BhvFile, read_behaviors};
use contact_avoid::Ranges;
use ivp_domain::{Axis, AxisName, Domain};
use mission_reader::read_mission;
use moos_post::Milli;
use moos_share::read_bridge;
use moos_text::{ReadFault, print_milli, print_unsigned};
use script_reader::read_script;
use sim_vehicle::Craft;
use std::alloc::Global;
use std::process::Abort;

/// A kind of file.
#[derive(Clone, Copy)]
pub(crate) enum Kind {
    Script,
    Mission,
    /// Behaviours over a domain of course, speed and depth.
    Behaviors,
    /// Behaviours over a domain of courses alone.
    OnCourse,
    Vehicle,
    Contacts,
    Bridge,
}

fn axis(rt: &impl Abort, name: &[u8]) -> Axis {
    let name = AxisName::new(name).expect(rt, "a name");
    Axis {
        name,
        low: 0,
        high: 4000,
        points: 41,
    }
}

fn read_over(
    rt: &impl Abort,
    alloc: Global,
    text: &[u8],
    axes: &[Axis],
) -> Result<BhvFile, ReadFault> {
    assert!(rt; text.len() < 4_000_000_000);
    assert!(rt; 0 < axes.len() && axes.len() <= 4);
    let domain = Domain::make(axes).expect(rt, "a domain");
    read_behaviors(alloc, text, &domain)
}

/// A behaviour file over a domain of course, speed and depth.
pub(crate) fn read_over_three(
    rt: &impl Abort,
    alloc: Global,
    text: &[u8],
) -> Result<BhvFile, ReadFault> {
    let axes = [axis(rt, b"course"), axis(rt, b"speed"), axis(rt, b"depth")];
    read_over(rt, alloc, text, &axes)
}

// What is said of a text that is refused.
fn refusal(rt: &impl Abort, alloc: Global, kind: Kind, text: &[u8]) -> Option<ReadFault> {
    assert!(rt; text.len() < 4_000_000_000);
    match kind {
        Kind::Script => read_script(alloc, text).err(),
        Kind::Mission => read_mission(alloc, text).err(),
        Kind::Behaviors => read_over_three(rt, alloc, text).err(),
        Kind::OnCourse => read_over(rt, alloc, text, &[axis(rt, b"course")]).err(),
        Kind::Vehicle => Craft::read(text).err(),
        Kind::Contacts => Ranges::read(text).err(),
        Kind::Bridge => read_bridge(alloc, text).err(),
    }
}

// Whether a row says this line and this cause, which it gives by its code, or by its name if that is a limit of a script.
fn says(row: &str, line: u32, cause: &str) -> bool {
    let mut words = row.split_whitespace();
    let number = words.next().unwrap_or("").parse::<u32>().ok();
    let wanted = words.next();
    let mut told = cause.split_whitespace();
    number == Some(line) && (told.next() == wanted || told.next() == wanted)
}

// What a row says behind its line and its cause, with the same beginning; `|` stands for the end of a line.
fn text_of(rt: &impl Abort, alloc: Global, beginning: &[u8], row: &str) -> Vec<u8> {
    let said = row.splitn(3, ' ').nth(2).unwrap_or("");
    let mut text = Vec::from_slice(alloc, beginning).expect(rt, "memory");
    for byte in said.as_bytes() {
        let byte = if *byte == b'|' { b'\n' } else { *byte };
        text.push(byte).expect(rt, "memory");
    }
    text
}

// A text is judged as its row says.
fn is_judged(rt: &impl Abort, fault: Option<ReadFault>, row: &str) {
    let is_so = match fault {
        Some(ReadFault::At { line, cause }) => says(row, line, cause.text()),
        Some(ReadFault::NoMemory) => false,
        None => says(row, 0, "good"),
    };
    check(rt, is_so, row);
}

/// What each row says behind its first two words is, with the same beginning, refused at this line for this cause; or it is good, if
/// they are `0 good`.
pub(crate) fn are_judged(rt: &impl Abort, alloc: Global, kind: Kind, beginning: &[u8], rows: &str) {
    for row in rows.lines() {
        let text = text_of(rt, alloc, beginning, row);
        is_judged(rt, refusal(rt, alloc, kind, &text), row);
    }
}

/// What is found of a text is as it is wanted.
pub(crate) fn check(rt: &impl Abort, is_so: bool, text: &str) {
    assert!(rt; is_so, "{text:?}");
}

/// The bytes of a text, which are few.
pub(crate) fn bytes_of<'a>(rt: &impl Abort, text: &'a str) -> &'a [u8]
    ensures { length result.now < 2 ^ 32 }
{
    assert!(rt; text.len() < 1000);
    text.as_bytes()
}

/// What is shown of a text is as it is wanted.
pub(crate) fn is_shown(rt: &impl Abort, shown: &[u8], wanted: &str, text: &str) {
    check(rt, shown == wanted.as_bytes(), text);
}

/// Appends the pieces.
pub(crate) fn append(rt: &impl Abort, text: &mut Vec<u8>, pieces: &[&[u8]]) {
    for piece in pieces {
        text.extend_from_slice(*piece).expect(rt, "memory");
    }
}

/// The pieces, one behind the other.
pub(crate) fn joined(rt: &impl Abort, alloc: Global, pieces: &[&[u8]]) -> Vec<u8> {
    let mut text = Vec::new(alloc);
    append(rt, &mut text, pieces);
    text
}

/// Appends a number behind what is before it.
pub(crate) fn append_milli(rt: &impl Abort, text: &mut Vec<u8>, before: &[u8], number: Milli) {
    append(rt, text, &[before, print_milli(number).bytes()]);
}

/// Appends thousandths without a sign behind what is before them.
pub(crate) fn append_unsigned(
    rt: &impl Abort,
    text: &mut Vec<u8>,
    before: &[u8],
    thousandths: u64,
) {
    append(rt, text, &[before, print_unsigned(thousandths).bytes()]);
}

/// Appends a count between what is before it and behind it.
pub(crate) fn append_number(
    rt: &impl Abort,
    text: &mut Vec<u8>,
    before: &[u8],
    number: u32,
    behind: &[u8],
) {
    append_unsigned(rt, text, before, number as u64 * 1000);
    append(rt, text, &[behind]);
}
