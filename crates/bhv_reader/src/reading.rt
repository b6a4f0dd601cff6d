// A behaviour file line by line. Most lines are in a block and set a number of its type: what such a line goes through is
// inlined into the loop over the lines, and what fewer of them need isn't.
ghost use Rattle.std.specs.Prelude.{◌≡◌, ◌<◌, ◌≤◌, ◌^◌, Ok, Err, IfOk, OnOk, IfErr, List, length, true, false, if◌then◌else◌, codes, bytes_eq};
ghost use Rattle.moos_text.specs.Lines.{ends_with, is_unclosed};
ghost use Rattle.moos_text.specs.Pairs.{pair_of, sides_of};
ghost use Rattle.moos_text.specs.Refusals.{IsFirst, IsLineFault};
ghost use Rattle.moos_text.specs.Standing.{after_statement, after_text, at_end, Outside};
ghost use Rattle.bhv_reader.specs.Behaviors.{OfBehavior as BehaviorOpen, begins_behavior, begins_by_brace, behavior_form, behind_close, block_closed, with_opening};
ghost use Rattle.bhv_reader.specs.Places.{behavior_block, behavior_in, is_within, IsRanged, IsRangedAt, open_block, standing_at};
ghost use Rattle.moos_text.specs.Sections.{Statement};
ghost use Rattle.bhv_file.specs.declared.file.BhvFile.{BhvFile};
ghost use Rattle.ivp_domain.specs.declared.axis.Axis.{Axis};

use crate::behavior::UnclosedBehavior;
use crate::mode::{UnclosedMode, begin_mode};
use bhv_file::BhvFile;
use ivp_domain::Domain;
use moos_post::Pair;
use moos_text::{
    Cause, LineFault, PairFault, ReadFault, cut_at_equals, ends_with, is_named, read_pair,
    split_word, trimmed, without_last,
};
use std::alloc::Global;
use std::mem;

// The most opening pairs.
const MOST_PAIRS: usize = 256;

/// A block that isn't closed yet: of a mode or of a behaviour. A behaviour is boxed, since it is large and goes on from line
/// to line.
#[derive(Drop)]
pub enum Unclosed {
    OfMode(UnclosedMode),
    OfBehavior(Box<UnclosedBehavior>),
}

/// Where the lines have come: outside blocks, behind a line that opens one, or between its braces.
#[derive(Drop)]
pub enum Position {
    Loose,
    Headed(Unclosed),
    Braced(Unclosed),
}

/// Reads one line more, which has this number and says this; nothing if it is blank. Behind a refusal it isn't said if
/// the lines are.
#[inline(always)]
pub fn after_line(
    alloc: Global,
    domain: &Domain,
    file: &mut BhvFile,
    place: &mut Position,
    line: u32,
    text: &[u8],
    unclosed: bool,
) -> Result<(), ReadFault>
    requires ranged { IsRangedAt place.old }
    requires quotes { unclosed ≡ is_unclosed text.now }
    requires text { length text.now < 2 ^ 32 }
    requires few { length file.old.decls ≤ 256 }
    ensures read { IfOk result (λ _. after_text (behavior_form domain.now) line (standing_at file.old place.old) text.now ≡ Ok (standing_at file.new place.new)) }
    ensures refused { IfErr result (λ fault. IsFirst fault (after_text (behavior_form domain.now) line (standing_at file.old place.old) text.now)) }
    ensures few { OnOk result (length file.new.decls ≤ 256) }
{
    if text.len() == 0 {
        return Ok(());
    }
    if unclosed {
        return Err(ReadFault::At {
            line,
            cause: Cause::B1,
        });
    }
    match after_statement(alloc, domain, file, place, line, text) {
        Ok(()) => Ok(()),
        Err(fault) => Err(fault.at(line)),
    }
}

// The same of a line that says something and leaves no quote open.
#[inline(always)]
fn after_statement(
    alloc: Global,
    domain: &Domain,
    file: &mut BhvFile,
    place: &mut Position,
    line: u32,
    text: &[u8],
) -> Result<(), LineFault>
    requires ranged { IsRangedAt place.old }
    requires text { length text.now < 2 ^ 32 }
    requires few { length file.old.decls ≤ 256 }
    ensures read { IfOk result (λ _. after_statement (behavior_form domain.now) (standing_at file.old place.old) (record { line = line; text = text.now }) ≡ Ok (standing_at file.new place.new)) }
    ensures refused { IfErr result (λ fault. IsLineFault fault (after_statement (behavior_form domain.now) (standing_at file.old place.old) (record { line = line; text = text.now }))) }
    ensures few { OnOk result (length file.new.decls ≤ 256) }
{
    if is_within(place, text) {
        return read_within(alloc, file, place, line, text);
    }
    pass_edge(alloc, domain, file, place, line, text)
}

// The same of a line that isn't within a block or closes it: where the lines are moves.
#[inline(never)]
fn pass_edge(
    alloc: Global,
    domain: &Domain,
    file: &mut BhvFile,
    place: &mut Position,
    line: u32,
    text: &[u8],
) -> Result<(), LineFault>
    requires ranged { IsRangedAt place.old }
    requires edge { is_within place.old text.now ≡ false }
    requires few { length file.old.decls ≤ 256 }
    ensures read { IfOk result (λ _. after_statement (behavior_form domain.now) (standing_at file.old place.old) (record { line = line; text = text.now }) ≡ Ok (standing_at file.new place.new)) }
    ensures refused { IfErr result (λ fault. IsLineFault fault (after_statement (behavior_form domain.now) (standing_at file.old place.old) (record { line = line; text = text.now }))) }
    ensures few { OnOk result (length file.new.decls ≤ 256) }
{
    let before = mem::replace(place, Position::Loose);
    *place = read_at_edge(alloc, domain, file, before, line, text)?;
    Ok(())
}

// Whether a line is in a block and doesn't close it.
fn is_within(place: &Position, text: &[u8]) -> bool
    ensures { result ≡ is_within place.now text.now }
{
    match place {
        Position::Braced(_) => !begins_by_brace(text),
        _ => false,
    }
}

fn begins_by_brace(text: &[u8]) -> bool
    ensures { result ≡ begins_by_brace text.now }
{
    matches!(text, [b'}', ..])
}

// A line that is in a block and doesn't close it changes the block in its place.
#[inline(always)]
fn read_within(
    alloc: Global,
    file: &mut BhvFile,
    place: &mut Position,
    line: u32,
    text: &[u8],
) -> Result<(), LineFault>
    requires within { is_within place.old text.now ≡ true }
    requires text { length text.now < 2 ^ 32 }
    requires few { length file.old.decls ≤ 256 }
    ensures read { (domain : List Axis) → IfOk result (λ _. after_statement (behavior_form domain) (standing_at file.old place.old) (record { line = line; text = text.now }) ≡ Ok (standing_at file.new place.new)) }
    ensures refused { (domain : List Axis) → IfErr result (λ fault. IsLineFault fault (after_statement (behavior_form domain) (standing_at file.old place.old) (record { line = line; text = text.now }))) }
    ensures few { OnOk result (length file.new.decls ≤ 256) }
{
    match place {
        Position::Braced(Unclosed::OfMode(mode)) => mode.add_condition(alloc, file, text),
        Position::Braced(Unclosed::OfBehavior(behavior)) => {
            behavior.read_line(alloc, file, line, text)
        },
        // Elsewhere no line is in a block.
        Position::Loose | Position::Headed(_) => Ok(()),
    }
}

// A line outside blocks, the one behind a line that opens a block, or one that closes a block.
fn read_at_edge(
    alloc: Global,
    domain: &Domain,
    file: &mut BhvFile,
    place: Position,
    line: u32,
    text: &[u8],
) -> Result<Position, LineFault>
    requires ranged { IsRangedAt place }
    requires edge { is_within place text.now ≡ false }
    requires few { length file.old.decls ≤ 256 }
    ensures read { IfOk result (λ next. after_statement (behavior_form domain.now) (standing_at file.old place) (record { line = line; text = text.now }) ≡ Ok (standing_at file.new next)) }
    ensures refused { IfErr result (λ fault. IsLineFault fault (after_statement (behavior_form domain.now) (standing_at file.old place) (record { line = line; text = text.now }))) }
    ensures few { OnOk result (length file.new.decls ≤ 256) }
{
    match place {
        Position::Loose => after_loose(alloc, domain, file, line, text),
        Position::Headed(block) => Ok(braced(block, text)?),
        Position::Braced(block) => {
            close(alloc, domain, file, block, behind_close(text))?;
            Ok(Position::Loose)
        },
    }
}

// The end of a block, behind whose `}` this is.
fn close(
    alloc: Global,
    domain: &Domain,
    file: &mut BhvFile,
    block: Unclosed,
    behind: &[u8],
) -> Result<(), LineFault>
    requires ranged { IsRanged block }
    requires few { length file.old.decls ≤ 256 }
    ensures read { (said : Statement) → behind_close said.text ≡ behind.now → IfOk result (λ _. block_closed domain.now (open_block file.old block) said ≡ Ok file.new) }
    ensures refused { (said : Statement) → behind_close said.text ≡ behind.now → IfErr result (λ fault. IsLineFault fault (block_closed domain.now (open_block file.old block) said)) }
    ensures few { OnOk result (length file.new.decls ≤ 256) }
{
    match block {
        Unclosed::OfMode(mode) => mode.close(alloc, file, behind),
        Unclosed::OfBehavior(behavior) => Box::into_inner(behavior).close(domain, file, behind),
    }
}

// A line outside blocks.
fn after_loose(
    alloc: Global,
    domain: &Domain,
    file: &mut BhvFile,
    line: u32,
    text: &[u8],
) -> Result<Position, LineFault>
    ensures read { IfOk result (λ next. after_statement (behavior_form domain.now) (Outside file.old) (record { line = line; text = text.now }) ≡ Ok (standing_at file.new next)) }
    ensures refused { IfErr result (λ fault. IsLineFault fault (after_statement (behavior_form domain.now) (Outside file.old) (record { line = line; text = text.now }))) }
    ensures decls { file.new.decls ≡ file.old.decls }
{
    let (word, rest) = split_word(text);
    if is_named(word, b"set") {
        let mode = begin_mode(alloc, file, rest)?;
        return Ok(behind_head(text, Unclosed::OfMode(mode)));
    }
    if is_named(word, b"initialize") {
        let pair = pair_in(alloc, rest)?;
        add_pair(file, pair)?;
        return Ok(Position::Loose);
    }
    match begin_behavior(alloc, text) {
        Ok(behavior) => {
            let block = boxed(alloc, behavior)?;
            Ok(behind_head(text, block))
        },
        Err(cause) => Err(LineFault::Refused(cause)),
    }
}

// The behaviour that a line `Behavior = TYPE` begins. Other lines are refused.
fn begin_behavior(alloc: Global, text: &[u8]) -> Result<UnclosedBehavior, Cause>
    ensures { result ≡ (if begins_behavior (sides_of text.now) then behavior_in (sides_of text.now) else Err Cause.B1) }
{
    let Some((name, value)) = cut_at_equals(text) else {
        return Err(Cause::B1);
    };
    if !is_named(name, b"Behavior") {
        return Err(Cause::B1);
    }
    let behavior = UnclosedBehavior::begin(alloc, trimmed(without_last(value, b'{')))?;
    Ok(behavior)
}

// A behaviour as a block that isn't closed yet.
fn boxed(alloc: Global, behavior: UnclosedBehavior) -> Result<Unclosed, LineFault>
    ensures block { (file : BhvFile) → IfOk result (λ block. open_block file block ≡ BehaviorOpen (behavior_block file behavior)) }
    ensures refused { IfErr result (λ fault. fault ≡ LineFault.NoMemory) }
{
    match Box::new(alloc, behavior) {
        Ok(behavior) => Ok(Unclosed::OfBehavior(behavior)),
        Err(_) => Err(LineFault::NoMemory),
    }
}

// Where the lines are behind one that opens a block.
fn behind_head(text: &[u8], block: Unclosed) -> Position
    ensures { result ≡ (if ends_with 123 text.now then Position.Braced block else Position.Headed block) }
{
    if ends_with(text, b'{') {
        Position::Braced(block)
    } else {
        Position::Headed(block)
    }
}

// After a line that opens a block comes its `{`.
fn braced(block: Unclosed, text: &[u8]) -> Result<Position, Cause>
    ensures { result ≡ (if bytes_eq text.now (codes "{") then Ok (Position.Braced block) else Err Cause.B1) }
{
    if text == b"{".as_slice() {
        Ok(Position::Braced(block))
    } else {
        Err(Cause::B1)
    }
}

// What follows the `}` that a line begins with.
fn behind_close(text: &[u8]) -> &[u8]
    ensures { result.now ≡ behind_close text.now }
{
    match text {
        [] => text,
        [_, rest @ ..] => trimmed(rest),
    }
}

fn pair_in(alloc: Global, text: &[u8]) -> Result<Pair, LineFault>
    ensures pair { IfOk result (λ pair. pair_of text.now ≡ Ok pair) }
    ensures refused { (file : BhvFile) → IfErr result (λ fault. IsLineFault fault (with_opening file (pair_of text.now))) }
{
    match read_pair(alloc, text) {
        Ok(pair) => Ok(pair),
        Err(PairFault::NoMemory) => Err(LineFault::NoMemory),
        Err(_) => Err(LineFault::Refused(Cause::B1)),
    }
}

// One opening pair more.
fn add_pair(file: &mut BhvFile, pair: Pair) -> Result<(), LineFault>
    ensures read { IfOk result (λ _. with_opening file.old (Ok pair) ≡ Ok file.new) }
    ensures refused { IfErr result (λ fault. IsLineFault fault (with_opening file.old (Ok pair))) }
    ensures decls { file.new.decls ≡ file.old.decls }
{
    if file.opening.len() >= MOST_PAIRS {
        return Err(LineFault::Refused(Cause::B9));
    }
    file.opening.add(pair)?;
    Ok(())
}

/// The file, if the lines end outside blocks; else its last line is refused.
pub fn whole_file(
    domain: &Domain,
    file: BhvFile,
    place: Position,
    last: u32,
) -> Result<BhvFile, ReadFault>
    ensures { result ≡ at_end (behavior_form domain.now) last (standing_at file place) }
{
    match place {
        Position::Loose => Ok(file),
        Position::Headed(_) | Position::Braced(_) => Err(ReadFault::At {
            line: last,
            cause: Cause::B2,
        }),
    }
}
