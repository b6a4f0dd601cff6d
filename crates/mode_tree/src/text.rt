// A mode's text, part by part.
ghost use Rattle.std.specs.Prelude.{◌≡◌, ◌++◌, true, IfOk, OnOk};
ghost use Rattle.mode_tree.specs.Modes.{path_text};
ghost use Rattle.mode_tree.specs.Paths.{parts_by, are_declared, part_bytes};

use bhv_file::Decl;
use moos_post::{NoMemory, Txt};
use std::alloc::{AllocError, Global};

// The text of these bytes. The names of a path are at most 16 of 64 bytes each, all of which a text can hold, so nothing
// but memory is ever missing.
pub(crate) fn text_of(alloc: Global, bytes: &[u8]) -> Result<Txt, NoMemory>
    ensures { IfOk result (λ text. text ≡ bytes.now) }
{
    match Txt::new(alloc, bytes) {
        Ok(text) => Ok(text),
        Err(_) => Err(AllocError),
    }
}

// What the parts that these numbers give print as, the last one by its OTHER name if `other` is true.
pub(crate) fn path_bytes(
    alloc: Global,
    decls: &[Decl],
    numbers: &[u32],
    other: bool,
) -> Result<Vec<u8>, NoMemory>
    requires { are_declared decls.now numbers.now ≡ true }
    ensures { IfOk result (λ text. text.items ≡ path_text decls.now (parts_by other numbers.now)) }
{
    let mut text = Vec::new(alloc);
    let mut left = numbers;
    'parts: while let [number, rest @ ..] = left {
        append_part(&mut text, &decls[*number as usize], rest.len() == 0, other)?;
        left = rest;
    }
    Ok(text)
}

// Appends a declaration's name as a part with another behind it, or its last name.
fn append_part(text: &mut Vec<u8>, decl: &Decl, last: bool, other: bool) -> Result<(), NoMemory>
    ensures { OnOk result (text.new.items ≡ text.old.items ++ part_bytes decl.now last other) }
{
    if last {
        text.extend_from_slice(last_name(decl, other))?;
        return Ok(());
    }
    text.extend_from_slice(decl.name.bytes())?;
    text.push(b':')?;
    Ok(())
}

fn last_name(decl: &Decl, other: bool) -> &[u8]
    ensures { result.now ≡ part_bytes decl.now true other }
{
    match &decl.other {
        Some(name) if other => name.bytes(),
        None if other => b"",
        _ => decl.name.bytes(),
    }
}
