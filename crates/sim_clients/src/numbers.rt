// The latest number of a variable.
ghost use Rattle.std.specs.Prelude.{◌≡◌, IfSome};
ghost use Rattle.moos_post.specs.Words.{IsMilli};
ghost use Rattle.bhv_file.specs.Known.{as_number};
ghost use Rattle.sim_clients.specs.Keeping.{number_after, number_with, pairs_in_mail};

use moos_db::Letter;
use moos_post::{Milli, Name, Value};

/// The number of this variable once these letters were heard, if it was another one before.
pub(crate) fn number_after(var: &[u8], letters: &[Letter], before: Option<Milli>) -> Option<Milli>
    ensures { result ≡ number_after var.now before (pairs_in_mail letters.now) }
{
    let mut number = before;
    for letter in letters {
        number = number_with(var, &letter.post.var, &letter.post.value, number);
    }
    number
}

fn number_with(var: &[u8], name: &Name, value: &Value, before: Option<Milli>) -> Option<Milli>
    ensures { result ≡ number_with var.now before (record { var = name.now; value = value.now }) }
{
    if var == name.bytes() {
        as_number(value)
    } else {
        before
    }
}

fn as_number(value: &Value) -> Option<Milli>
    ensures { result ≡ as_number value.now }
{
    match value {
        Value::Num(number) => Some(*number),
        Value::Text(_) => None,
    }
}

/// A number in thousandths, if it is known.
pub(crate) fn thousandths(number: Option<Milli>) -> Option<i64>
    ensures value { result ≡ number }
    ensures within { IfSome result IsMilli }
{
    match number {
        Some(number) => Some(number.get()),
        None => None,
    }
}
