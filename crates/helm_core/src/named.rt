// What a letter says to a template: the name of a behaviour, and pairs.
ghost use Rattle.std.specs.Prelude.{◌≡◌, IfOk, IsTrue, position, option_and_then};
ghost use Rattle.std.specs.List.{before_first};
ghost use Rattle.moos_post.specs.Words.{is_text};
ghost use Rattle.moos_text.specs.Pairs.{sides_of};
ghost use Rattle.helm_core.specs.Templates.{behind_hash, is_hash, name_said, named_pairs, said_by};

use moos_post::{Name, NameFault, NoMemory, Txt, Value};
use moos_text::{cut_at_equals, is_named};
use std::alloc::{AllocError, Global};

// The name that a letter to a template begins with, and the pairs behind it, if there are some.
#[derive(Drop)]
pub(crate) struct NamedPairs {
    pub name: Name,
    pub pairs: Option<Txt>,
}

// What a value says to a template, or None if it says nothing.
pub(crate) fn said_by(alloc: Global, value: &Value) -> Result<Option<NamedPairs>, NoMemory>
    ensures { IfOk result (λ said. said ≡ said_by value.now) }
{
    match value {
        Value::Num(_) => Ok(None),
        Value::Text(text) => named_pairs(alloc, text.bytes()),
    }
}

// What a text says to one: its first part is `name=N`, and what follows it are pairs.
fn named_pairs(alloc: Global, text: &[u8]) -> Result<Option<NamedPairs>, NoMemory>
    requires { IsTrue (is_text text.now) }
    ensures { IfOk result (λ said. said ≡ named_pairs text.now) }
{
    match name_in(alloc, first_part(text))? {
        Some(name) => {
            let pairs = pairs_behind(alloc, text)?;
            Ok(Some(NamedPairs { name, pairs }))
        },
        None => Ok(None),
    }
}

// What is before the first `#`.
fn first_part(text: &[u8]) -> &[u8]
    ensures { result.now ≡ before_first is_hash text.now }
{
    match hash_at(text) {
        Some(hash) => &text[..hash],
        None => text,
    }
}

fn hash_at(text: &[u8]) -> Option<usize>
    ensures { result ≡ position is_hash text.now }
{
    text.iter().position(|&byte| byte == b'#')
}

// The name in a part `name=N`.
fn name_in(alloc: Global, part: &[u8]) -> Result<Option<Name>, NoMemory>
    ensures { IfOk result (λ name. name ≡ option_and_then name_said (sides_of part.now)) }
{
    match cut_at_equals(part) {
        Some((key, value)) => name_said(alloc, key, value),
        None => Ok(None),
    }
}

fn name_said(alloc: Global, key: &[u8], value: &[u8]) -> Result<Option<Name>, NoMemory>
    ensures { IfOk result (λ name. name ≡ name_said (record { name = key.now; value = value.now })) }
{
    if !is_named(key, b"name") {
        return Ok(None);
    }
    match Name::new(alloc, value) {
        Ok(name) => Ok(Some(name)),
        Err(NameFault::BadName) => Ok(None),
        Err(NameFault::NoMemory) => Err(AllocError),
    }
}

// The pairs behind the first `#`, if there is one.
fn pairs_behind(alloc: Global, text: &[u8]) -> Result<Option<Txt>, NoMemory>
    requires { IsTrue (is_text text.now) }
    ensures { IfOk result (λ pairs. pairs ≡ behind_hash text.now) }
{
    match hash_at(text) {
        Some(hash) => {
            let pairs = text_of(alloc, &text[hash + 1..])?;
            Ok(Some(pairs))
        },
        None => Ok(None),
    }
}

fn text_of(alloc: Global, bytes: &[u8]) -> Result<Txt, NoMemory>
    requires { IsTrue (is_text bytes.now) }
    ensures { IfOk result (λ text. text ≡ bytes.now) }
{
    // It is a text, so nothing but memory is ever missing.
    let Ok(text) = Txt::new(alloc, bytes) else {
        return Err(AllocError);
    };
    Ok(text)
}
