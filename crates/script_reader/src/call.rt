// What the words after the client ask for.
ghost use Rattle.std.specs.Prelude.{◌≡◌, [], Ok, IfOk, IfErr};
ghost use Rattle.moos_text.specs.Lines.{words_of};
ghost use Rattle.moos_text.specs.Refusals.{IsLineFault};
ghost use Rattle.script_reader.specs.Script.{reg_of, register_one, register_of, withdrawal_of, unregister_of, post_of_text, call_of};
ghost use Rattle.script_reader.specs.Counts.{with_call_variables, pairs_in};

use crate::batch::read_batch;
use crate::variables::PostedVariables;
use crate::word::{interval_of, pattern_of, source_of, with_none_behind};
use moos_post::{Call, Pattern, Reg, Regs};
use moos_text::{Cause, Limit, LineFault, split_word};
use std::alloc::Global;

// The most registrations of a client.
const MAX_REGISTRATIONS: u32 = 256;

/// The call that the words ask for, of a client that has made `made` registrations. `variables` gains those of a post.
pub fn call_of(
    alloc: Global,
    made: u32,
    variables: &mut PostedVariables,
    text: &[u8],
) -> Result<Call, LineFault>
    ensures call { IfOk result (λ call. call_of made variables.old text.now ≡ Ok call) }
    ensures refused { IfErr result (λ fault. IsLineFault fault (call_of made variables.old text.now)) }
    ensures variables { IfOk result (λ call. variables.new ≡ with_call_variables variables.old call) }
{
    let (verb, rest) = split_word(text);
    if verb == b"register".as_slice() {
        return register_of(alloc, made, rest);
    }
    if verb == b"unregister".as_slice() {
        return unregister_of(alloc, rest);
    }
    if verb == b"post".as_slice() {
        return post_of(alloc, variables, rest);
    }
    if verb == b"fetch".as_slice() {
        let (more, _) = split_word(rest);
        return Ok(with_none_behind(Call::Fetch, more)?);
    }
    Err(LineFault::Refused(Cause::S3))
}

// VARPATTERN [INTERVAL [SOURCEPATTERN]]
#[tactic(auto, using(crate::proofs::WordsAt::first_at, crate::proofs::WordsAt::second_at, crate::proofs::WordsAt::third_at, crate::proofs::WordsAt::fourth_at))]
fn register_of(alloc: Global, made: u32, text: &[u8]) -> Result<Call, LineFault>
    ensures call { IfOk result (λ call. register_of made (words_of text.now) ≡ Ok call) }
    ensures refused { IfErr result (λ fault. IsLineFault fault (register_of made (words_of text.now))) }
    ensures variables { IfOk result (λ call. pairs_in call ≡ []) }
{
    let (var, rest) = split_word(text);
    let (interval, rest) = split_word(rest);
    let (source, rest) = split_word(rest);
    let (more, _) = split_word(rest);
    let var = pattern_of(alloc, var)?;
    let source = source_of(alloc, source)?;
    let reg = reg_of(var, interval_of(interval), source)?;
    let call = register_one(alloc, made, reg)?;
    Ok(with_none_behind(call, more)?)
}

fn reg_of(
    var: Option<Pattern>,
    interval: Option<u64>,
    source: Option<Pattern>,
) -> Result<Reg, Cause>
    ensures { result ≡ reg_of var interval source }
{
    let var = var.ok_or(Cause::S6)?;
    let interval = interval.ok_or(Cause::S7)?;
    let source = source.ok_or(Cause::S6)?;
    Ok(Reg {
        var,
        source,
        interval,
    })
}

// One registration more of a client that has made `made`.
fn register_one(alloc: Global, made: u32, reg: Reg) -> Result<Call, LineFault>
    ensures call { IfOk result (λ call. register_one made reg ≡ Ok call) }
    ensures refused { IfErr result (λ fault. IsLineFault fault (register_one made reg)) }
{
    if made >= MAX_REGISTRATIONS {
        return Err(LineFault::Refused(Cause::S8(Limit::Registrations)));
    }
    let mut regs = Regs::of(Vec::with_capacity(alloc, 1)?);
    regs.add(reg)?;
    Ok(Call::Register(regs))
}

// VARPATTERN [SOURCEPATTERN]
#[tactic(auto, using(crate::proofs::WordsAt::first_at, crate::proofs::WordsAt::second_at, crate::proofs::WordsAt::third_at))]
fn unregister_of(alloc: Global, text: &[u8]) -> Result<Call, LineFault>
    ensures call { IfOk result (λ call. unregister_of (words_of text.now) ≡ Ok call) }
    ensures refused { IfErr result (λ fault. IsLineFault fault (unregister_of (words_of text.now))) }
    ensures variables { IfOk result (λ call. pairs_in call ≡ []) }
{
    let (var, rest) = split_word(text);
    let (source, rest) = split_word(rest);
    let (more, _) = split_word(rest);
    let var = pattern_of(alloc, var)?;
    let source = source_of(alloc, source)?;
    let call = withdrawal_of(var, source)?;
    Ok(with_none_behind(call, more)?)
}

fn withdrawal_of(var: Option<Pattern>, source: Option<Pattern>) -> Result<Call, Cause>
    ensures { result ≡ withdrawal_of var source }
{
    let var = var.ok_or(Cause::S6)?;
    let source = source.ok_or(Cause::S6)?;
    Ok(Call::Unregister(var, source))
}

// PAIR [# PAIR]
fn post_of(alloc: Global, variables: &mut PostedVariables, text: &[u8]) -> Result<Call, LineFault>
    ensures call { IfOk result (λ call. post_of_text variables.old text.now ≡ Ok call) }
    ensures refused { IfErr result (λ fault. IsLineFault fault (post_of_text variables.old text.now)) }
    ensures variables { IfOk result (λ call. variables.new ≡ with_call_variables variables.old call) }
{
    let batch = read_batch(alloc, variables, text)?;
    Ok(Call::Post(batch))
}
