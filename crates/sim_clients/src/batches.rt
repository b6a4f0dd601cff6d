// Registrations and pairs, one by one.
ghost use Rattle.std.specs.Prelude.{◌≡◌, ◌++◌, ◌∷◌, [], IfOk, IsTrue, OnOk};
ghost use Rattle.moos_post.specs.Words.{IsMilli, is_name, is_pattern};
ghost use Rattle.sim_clients.specs.Clients.{pair_numbered, reg_simple};

use moos_post::{Batch, Milli, Name, NoMemory, Pair, Pattern, Reg, Regs, Value};
use std::alloc::{AllocError, Global};

/// Adds a registration for a variable. Its name is a pattern, so nothing but memory is ever missing.
pub(crate) fn add_reg(alloc: Global, regs: &mut Regs, var: &[u8]) -> Result<(), NoMemory>
    requires { IsTrue (is_pattern var.now) }
    ensures { OnOk result (regs.new ≡ regs.old ++ reg_simple var.now ∷ []) }
{
    let var = pattern_of(alloc, var)?;
    let source = pattern_of(alloc, b"*")?;
    regs.add(Reg {
        var,
        source,
        interval: 0,
    })
}

fn pattern_of(alloc: Global, bytes: &[u8]) -> Result<Pattern, NoMemory>
    requires { IsTrue (is_pattern bytes.now) }
    ensures { IfOk result (λ pattern. pattern ≡ bytes.now) }
{
    let Ok(pattern) = Pattern::read(alloc, bytes) else {
        return Err(AllocError);
    };
    Ok(pattern)
}

/// Adds a variable and a number. It is a name and a number, so nothing but memory is ever missing.
pub(crate) fn add_number(
    alloc: Global,
    batch: &mut Batch,
    var: &[u8],
    number: i64,
) -> Result<(), NoMemory>
    requires var { IsTrue (is_name var.now) }
    requires number { IsMilli number }
    ensures { OnOk result (batch.new ≡ batch.old ++ pair_numbered var.now number ∷ []) }
{
    let Ok(var) = Name::new(alloc, var) else {
        return Err(AllocError);
    };
    let Some(number) = Milli::new(number) else {
        unreachable!()
    };
    batch.add(Pair {
        var,
        value: Value::Num(number),
    })
}
