// Whether a comparison holds. Each function is the definition of its name.
ghost use Rattle.std.specs.Prelude.{◌≡◌, option_copied, int_lt, int_le};
ghost use Rattle.helm_cond.specs.Conditions.{is_of_mode, same_value, in_order, compares, is_mode, mode_compares, mode_named, comparison_holds};
ghost use Rattle.helm_cond.specs.Infos.{knowledge_of};

use crate::comparison::Comparison;
use crate::info::Info;
use crate::mode::stands_in_mode;
use crate::operator::Operator;
use moos_post::Value;
use moos_text::is_named;

impl Comparison {
    pub(crate) fn holds(&self, info: &Info, mode: &[u8]) -> bool
        ensures { result ≡ comparison_holds (knowledge_of info.now) mode.now self.now }
    {
        if self.is_of_mode() {
            return mode_compares(self.operator, mode, &self.literal);
        }
        match info.get(self.var.bytes()) {
            Some(value) => compares(self.operator, value, &self.literal),
            None => false,
        }
    }

    fn is_of_mode(&self) -> bool
        ensures { result ≡ is_of_mode self.now }
    {
        self.var.bytes() == b"MODE".as_slice()
    }

    // The literal of a comparison for equality with the mode.
    pub(crate) fn mode_named(&self) -> Option<&Value>
        ensures { option_copied result ≡ mode_named self.now self.now.operator }
    {
        match self.operator {
            Operator::Equal if self.is_of_mode() => Some(&self.literal),
            _ => None,
        }
    }
}

fn compares(operator: Operator, value: &Value, literal: &Value) -> bool
    ensures { result ≡ compares operator value.now literal.now }
{
    match operator {
        Operator::Equal => same_value(value, literal),
        Operator::Unequal => !same_value(value, literal),
        Operator::Below => is_below(value, literal),
        Operator::AtMost => is_at_most(value, literal),
        Operator::Above => is_below(literal, value),
        Operator::AtLeast => is_at_most(literal, value),
    }
}

fn same_value(value: &Value, literal: &Value) -> bool
    ensures { result ≡ same_value value.now literal.now }
{
    match (value, literal) {
        (Value::Num(a), Value::Num(b)) => a.get() == b.get(),
        (Value::Text(a), Value::Text(b)) => is_named(a.bytes(), b.bytes()),
        _ => false,
    }
}

fn is_below(value: &Value, literal: &Value) -> bool
    ensures { result ≡ in_order int_lt value.now literal.now }
{
    match (value, literal) {
        (Value::Num(a), Value::Num(b)) => a.get() < b.get(),
        _ => false,
    }
}

fn is_at_most(value: &Value, literal: &Value) -> bool
    ensures { result ≡ in_order int_le value.now literal.now }
{
    match (value, literal) {
        (Value::Num(a), Value::Num(b)) => a.get() <= b.get(),
        _ => false,
    }
}

fn mode_compares(operator: Operator, mode: &[u8], literal: &Value) -> bool
    ensures { result ≡ mode_compares operator mode.now literal.now }
{
    match operator {
        Operator::Equal => is_mode(mode, literal),
        Operator::Unequal => !is_mode(mode, literal),
        _ => false,
    }
}

fn is_mode(mode: &[u8], literal: &Value) -> bool
    ensures { result ≡ is_mode mode.now literal.now }
{
    match literal {
        Value::Num(_) => false,
        Value::Text(text) => stands_in_mode(text.bytes(), mode),
    }
}
