// The pairs of a post line.
ghost use Rattle.std.specs.Prelude.{◌≡◌, [], Ok, Err, IfOk, IfErr, bytes_eq};
ghost use Rattle.std.specs.List.{list_any};
ghost use Rattle.moos_text.specs.Pairs.{pair_of, parts_of, sides_pair, with_value, written_value};
ghost use Rattle.moos_text.specs.Refusals.{IsLineFault};
ghost use Rattle.moos_text.specs.declared.pair.PairFault.TheVariants.{NoMemory};
ghost use Rattle.script_reader.specs.Script.{posting, with_pair, with_part, with_parts, with_cause, with_known, cause_of};

use crate::variables::{Found, PostedVariables};
use moos_post::{Batch, Name, Pair};
use moos_text::{Cause, Limit, LineFault, PairFault, next_part, pair_sides, read_value};
use std::alloc::Global;

// The most pairs of a post.
const MAX_PAIRS: usize = 64;

/// The pairs of a post, in which `variables` gains its variables; or the first refusal of them.
pub fn read_batch(
    alloc: Global,
    variables: &mut PostedVariables,
    text: &[u8],
) -> Result<Batch, LineFault>
    ensures read { IfOk result (λ pairs. with_parts (posting variables.old []) (parts_of text.now) ≡ Ok (posting variables.new pairs)) }
    ensures refused { IfErr result (λ fault. IsLineFault fault (with_parts (posting variables.old []) (parts_of text.now))) }
{
    let mut batch = Batch::new(alloc);
    let mut from = 0;
    loop {
        let part = next_part(text, from);
        add_part(alloc, variables, &mut batch, &text[part.from..part.to])?;
        match part.next {
            Some(next) => from = next,
            None => {
                batch.shrink_to_fit();
                return Ok(batch);
            }
        }
    }
}

fn add_part(
    alloc: Global,
    variables: &mut PostedVariables,
    batch: &mut Batch,
    part: &[u8],
) -> Result<(), LineFault>
    ensures read { IfOk result (λ _. with_part (posting variables.old batch.old) part.now ≡ Ok (posting variables.new batch.new)) }
    ensures refused { IfErr result (λ fault. IsLineFault fault (with_part (posting variables.old batch.old) part.now)) }
{
    let read = pair_of(alloc, variables, part)?;
    add_pair(alloc, variables, batch, read)
}

// A pair, and whether its variable was posted before.
#[derive(Drop)]
struct ReadPair {
    pair: Pair,
    is_known: bool,
}

fn pair_of(alloc: Global, variables: &PostedVariables, part: &[u8]) -> Result<ReadPair, LineFault>
    ensures pair { IfOk result (λ read. with_cause (pair_of part.now) ≡ Ok read.pair) }
    ensures known { IfOk result (λ read. read.is_known ≡ list_any (bytes_eq read.pair.var) variables.now) }
    ensures refused { IfErr result (λ fault. IsLineFault fault (with_cause (pair_of part.now))) }
{
    match pair_sides(part) {
        Some(sides) => pair_of_sides(alloc, variables, sides.var, sides.as_text, sides.value),
        None => Err(LineFault::Refused(Cause::S5)),
    }
}

fn pair_of_sides(
    alloc: Global,
    variables: &PostedVariables,
    var: &[u8],
    as_text: bool,
    value: &[u8],
) -> Result<ReadPair, LineFault>
    ensures pair { IfOk result (λ read. with_cause (sides_pair var.now as_text value.now) ≡ Ok read.pair) }
    ensures known { IfOk result (λ read. read.is_known ≡ list_any (bytes_eq read.pair.var) variables.now) }
    ensures refused { IfErr result (λ fault. IsLineFault fault (with_cause (sides_pair var.now as_text value.now))) }
{
    match variables.name_of(alloc, var) {
        Ok(Found { name, is_known }) => {
            let pair = pair_with(alloc, name, as_text, value)?;
            Ok(ReadPair { pair, is_known })
        }
        Err(fault) => Err(fault),
    }
}

fn pair_with(alloc: Global, var: Name, as_text: bool, side: &[u8]) -> Result<Pair, LineFault>
    ensures pair { IfOk result (λ pair. with_cause (with_value var (written_value as_text side.now)) ≡ Ok pair) }
    ensures var { IfOk result (λ pair. pair.var ≡ var) }
    ensures refused { IfErr result (λ fault. IsLineFault fault (with_cause (with_value var (written_value as_text side.now)))) }
{
    match read_value(alloc, as_text, side) {
        Ok(value) => Ok(Pair { var, value }),
        Err(PairFault::NoMemory) => Err(LineFault::NoMemory),
        Err(fault) => Err(LineFault::Refused(cause_of(fault))),
    }
}

fn cause_of(fault: PairFault) -> Cause
    ensures { result ≡ cause_of fault }
{
    match fault {
        PairFault::BadName => Cause::S4,
        PairFault::NoEquals | PairFault::BadValue | PairFault::NoMemory => Cause::S5,
        PairFault::TooLong => Cause::S8(Limit::Text),
    }
}

fn add_pair(
    alloc: Global,
    variables: &mut PostedVariables,
    batch: &mut Batch,
    read: ReadPair,
) -> Result<(), LineFault>
    requires { read.is_known ≡ list_any (bytes_eq read.pair.var) variables.old }
    ensures read { IfOk result (λ _. with_pair (posting variables.old batch.old) read.pair ≡ Ok (posting variables.new batch.new)) }
    ensures refused { IfErr result (λ fault. IsLineFault fault (with_pair (posting variables.old batch.old) read.pair)) }
{
    if batch.len() >= MAX_PAIRS {
        return Err(LineFault::Refused(Cause::S8(Limit::Batch)));
    }
    let ReadPair { pair, is_known } = read;
    know(alloc, variables, &pair.var, is_known)?;
    batch.add(pair)?;
    Ok(())
}

// The variable is posted, which was so before if it is known.
fn know(
    alloc: Global,
    variables: &mut PostedVariables,
    var: &Name,
    is_known: bool,
) -> Result<(), LineFault>
    requires { is_known ≡ list_any (bytes_eq var.now) variables.old }
    ensures read { IfOk result (λ _. with_known variables.old var.now ≡ Ok variables.new) }
    ensures refused { IfErr result (λ fault. IsLineFault fault (with_known variables.old var.now)) }
{
    if is_known {
        return Ok(());
    }
    variables.add(alloc, var)
}
