// What the value of a common parameter says, and one element more of a behaviour.
ghost use Rattle.std.specs.Prelude.{◌≡◌, ◌++◌, ◌∷◌, [], length, nat_le, ok_or, Ok, Err, IfOk, OnOk, IfErr, if◌then◌else◌};
ghost use Rattle.moos_text.specs.Pairs.{pair_of};
ghost use Rattle.moos_text.specs.Refusals.{IsLineFault};
ghost use Rattle.bhv_reader.specs.Blocks.{flag_value, name_value};

use bhv_file::Conds;
use helm_cond::Cond;
use moos_post::{Batch, Name, NameFault, Pair};
use moos_text::{Cause, LineFault, PairFault, read_pair};
use std::alloc::Global;

// The most conditions of a behaviour.
const MOST_CONDITIONS: usize = 64;

/// What a value says, if it is a good one.
pub fn good<T: Drop>(value: Option<T>) -> Result<T, LineFault>
    ensures { result ≡ ok_or value (LineFault.Refused Cause.B6) }
{
    value.ok_or(LineFault::Refused(Cause::B6))
}

/// A name as a value.
pub fn name_in(alloc: Global, value: &[u8]) -> Result<Name, LineFault>
    ensures name { IfOk result (λ name. name_value value.now ≡ Ok name) }
    ensures refused { IfErr result (λ fault. IsLineFault fault (name_value value.now)) }
{
    match Name::new(alloc, value) {
        Ok(name) => Ok(name),
        Err(NameFault::BadName) => Err(LineFault::Refused(Cause::B6)),
        Err(NameFault::NoMemory) => Err(LineFault::NoMemory),
    }
}

/// A flag as a value.
pub fn flag_in(alloc: Global, value: &[u8]) -> Result<Pair, LineFault>
    ensures pair { IfOk result (λ pair. flag_value (pair_of value.now) ≡ Ok pair) }
    ensures refused { IfErr result (λ fault. IsLineFault fault (flag_value (pair_of value.now))) }
{
    match read_pair(alloc, value) {
        Ok(pair) => Ok(pair),
        Err(PairFault::NoMemory) => Err(LineFault::NoMemory),
        Err(_) => Err(LineFault::Refused(Cause::B6)),
    }
}

/// One condition more, if there is room.
pub fn add_cond(conds: &mut Conds, cond: Cond) -> Result<(), LineFault>
    ensures ok { OnOk result ((if nat_le 64 (length conds.old) then Err Cause.B9 else Ok (conds.old ++ cond ∷ [])) ≡ Ok conds.new) }
    ensures refused { IfErr result (λ fault. IsLineFault fault (if nat_le 64 (length conds.old) then Err Cause.B9 else Ok (conds.old ++ cond ∷ []))) }
{
    if conds.len() >= MOST_CONDITIONS {
        return Err(LineFault::Refused(Cause::B9));
    }
    conds.add(cond)?;
    Ok(())
}

/// One flag more of a kind.
pub fn add_flag(flags: &mut Batch, pair: Pair) -> Result<(), LineFault>
    ensures ok { OnOk result (flags.new ≡ flags.old ++ pair ∷ []) }
    ensures refused { IfErr result (λ fault. fault ≡ LineFault.NoMemory) }
{
    flags.add(pair)?;
    Ok(())
}
