// From tokens to symbols of a condition.
ghost use Rattle.std.specs.Prelude.{◌≡◌, ◌<◌, ◌≤◌, Some, None, [], ◌∷◌, length, MatchOption, IfOk, IfSome, IsErrOf};
ghost use Rattle.helm_cond.specs.Grammar.{Word, operator_of, literal_of, connective_of, comparison_of, with_symbol, symbols_of, tokens_of};
ghost use Rattle.helm_cond.specs.Tokens.{token_said};

use crate::comparison::Comparison;
use crate::fault::CondFault;
use crate::operator::Operator;
use crate::symbol::Symbol;
use crate::token::{NextToken, TokenKind, next_token};
use moos_post::{Name, Value};
use moos_text::{is_named, read_plain, read_text};
use std::alloc::Global;

// A symbol, and what follows it.
#[derive(Drop)]
pub(crate) struct NextSymbol<'a> {
    pub symbol: Symbol,
    pub rest: &'a [u8],
}

// The first symbol of a text; `None` exactly if the text has no token.
pub(crate) fn next_symbol(alloc: Global, text: &[u8]) -> Result<Option<NextSymbol<'_>>, CondFault>
    ensures symbol { IfOk result (λ found. MatchOption found
        (tokens_of text.now ≡ [])
        (λ next. symbols_of (tokens_of text.now) ≡ with_symbol (Some next.symbol) (symbols_of (tokens_of next.rest.now)))) }
    ensures shorter { IfOk result (λ found. IfSome found (λ next. length next.rest.now < length text.now)) }
    ensures bad { IsErrOf result CondFault.BadCondition → symbols_of (tokens_of text.now) ≡ None }
{
    let Some(token) = next_token(text) else {
        return Ok(None);
    };
    let rest = token.rest;
    match token.kind {
        TokenKind::Opening => Ok(Some(NextSymbol {
            symbol: Symbol::Open,
            rest,
        })),
        TokenKind::Closing => Ok(Some(NextSymbol {
            symbol: Symbol::Close,
            rest,
        })),
        TokenKind::Word => match read_word(alloc, token.bytes, rest) {
            Ok(next) => Ok(Some(next)),
            Err(fault) => Err(fault),
        },
        _ => Err(CondFault::BadCondition),
    }
}

// The symbol that a word makes with what follows it.
fn read_word<'a>(alloc: Global, word: &[u8], text: &'a [u8]) -> Result<NextSymbol<'a>, CondFault>
    ensures symbol { IfOk result (λ next. symbols_of (Word word.now ∷ tokens_of text.now) ≡ with_symbol (Some next.symbol) (symbols_of (tokens_of next.rest.now))) }
    ensures within { IfOk result (λ next. length next.rest.now ≤ length text.now) }
    ensures bad { IsErrOf result CondFault.BadCondition → symbols_of (Word word.now ∷ tokens_of text.now) ≡ None }
{
    match connective_of(word) {
        Some(symbol) => Ok(NextSymbol { symbol, rest: text }),
        None => read_comparison(alloc, word, text),
    }
}

// The comparison of a variable, if an operator and a literal follow it.
fn read_comparison<'a>(
    alloc: Global,
    var: &[u8],
    text: &'a [u8],
) -> Result<NextSymbol<'a>, CondFault>
    requires { connective_of var.now ≡ None }
    ensures symbol { IfOk result (λ next. symbols_of (Word var.now ∷ tokens_of text.now) ≡ with_symbol (Some next.symbol) (symbols_of (tokens_of next.rest.now))) }
    ensures within { IfOk result (λ next. length next.rest.now ≤ length text.now) }
    ensures bad { IsErrOf result CondFault.BadCondition → symbols_of (Word var.now ∷ tokens_of text.now) ≡ None }
{
    let Some(sign) = next_token(text) else {
        return Err(CondFault::BadCondition);
    };
    let TokenKind::Sign = sign.kind else {
        return Err(CondFault::BadCondition);
    };
    let Some(literal) = next_token(sign.rest) else {
        return Err(CondFault::BadCondition);
    };
    match comparison_of(alloc, var, sign.bytes, &literal) {
        Ok(comparison) => Ok(NextSymbol {
            symbol: Symbol::Test(comparison),
            rest: literal.rest,
        }),
        Err(fault) => Err(fault),
    }
}

fn comparison_of(
    alloc: Global,
    var: &[u8],
    sign: &[u8],
    literal: &NextToken<'_>,
) -> Result<Comparison, CondFault>
    requires { connective_of var.now ≡ None }
    ensures ok { IfOk result (λ comparison. comparison_of var.now sign.now (token_said literal.now.kind literal.now.bytes.now) ≡ Some (Symbol.Test comparison)) }
    ensures bad { IsErrOf result CondFault.BadCondition → comparison_of var.now sign.now (token_said literal.now.kind literal.now.bytes.now) ≡ None }
{
    let var = Name::new(alloc, var)?;
    let Some(operator) = operator_of(sign) else {
        return Err(CondFault::BadCondition);
    };
    let literal = literal_of(alloc, literal)?;
    Ok(Comparison {
        var,
        operator,
        literal,
    })
}

fn literal_of(alloc: Global, token: &NextToken<'_>) -> Result<Value, CondFault>
    ensures ok { IfOk result (λ value. literal_of (token_said token.now.kind token.now.bytes.now) ≡ Some value) }
    ensures bad { IsErrOf result CondFault.BadCondition → literal_of (token_said token.now.kind token.now.bytes.now) ≡ None }
{
    match token.kind {
        TokenKind::Quoted => {
            let value = read_text(alloc, token.bytes)?;
            Ok(value)
        }
        TokenKind::Word => {
            let value = read_plain(alloc, token.bytes)?;
            Ok(value)
        }
        _ => Err(CondFault::BadCondition),
    }
}

// Each is the definition of its name.
fn connective_of(word: &[u8]) -> Option<Symbol>
    ensures { result ≡ connective_of word.now }
{
    if is_named(word, b"or") {
        Some(Symbol::Or)
    } else if is_named(word, b"and") {
        Some(Symbol::And)
    } else if is_named(word, b"not") {
        Some(Symbol::Not)
    } else {
        None
    }
}

fn operator_of(sign: &[u8]) -> Option<Operator>
    ensures { result ≡ operator_of sign.now }
{
    if sign == b"=".as_slice() || sign == b"==".as_slice() {
        Some(Operator::Equal)
    } else if sign == b"!=".as_slice() {
        Some(Operator::Unequal)
    } else if sign == b"<".as_slice() {
        Some(Operator::Below)
    } else if sign == b"<=".as_slice() {
        Some(Operator::AtMost)
    } else if sign == b">".as_slice() {
        Some(Operator::Above)
    } else if sign == b">=".as_slice() {
        Some(Operator::AtLeast)
    } else {
        None
    }
}
