// One mode declaration, line by line.
ghost use Rattle.std.specs.Prelude.{◌≡◌, ◌<◌, ◌≤◌, ◌^◌, length, Ok, Err, Some, IfOk, IfErr, ok_or, true, if◌then◌else◌};
ghost use Rattle.moos_text.specs.Pairs.{sides_of};
ghost use Rattle.moos_text.specs.Refusals.{and_then, IsLineFault};
ghost use Rattle.moos_post.specs.Words.{is_name};
ghost use Rattle.helm_cond.specs.Conditions.{parent_of};
ghost use Rattle.helm_cond.specs.Grammar.{condition_of};
ghost use Rattle.bhv_file.specs.Validity.{fits_mode, has_parent_line, names_mode};
ghost use Rattle.bhv_reader.specs.Behaviors.{mode_begun, other_of, with_condition, with_decl};
ghost use Rattle.bhv_reader.specs.Places.{mode_block, parent_behind};

use crate::parent::{parent_of, path_len};
use bhv_file::{BhvFile, Conds, Decl};
use helm_cond::{Cond, CondFault};
use moos_post::{Name, NameFault, NoMemory};
use moos_text::{Cause, LineFault, cut_at_equals, trimmed, without_last};
use std::alloc::{AllocError, Global};

// The most conditions of a mode, the most names of a path, and the most modes.
const MOST_CONDITIONS: usize = 64;

const LONGEST_PATH: usize = 16;

const MOST_MODES: usize = 256;

/// A mode declaration whose block isn't closed yet.
#[derive(Drop)]
pub struct UnclosedMode {
    pub name: Name,
    pub parent: Option<u32>,
    pub conds: Conds,
}

/// Begins the mode that a text `MODE = NAME` declares.
pub fn begin_mode(alloc: Global, file: &BhvFile, text: &[u8]) -> Result<UnclosedMode, LineFault>
    ensures begun { IfOk result (λ mode. mode_begun file.now (sides_of text.now) ≡ Ok (mode_block file.now mode)) }
    ensures refused { IfErr result (λ fault. IsLineFault fault (mode_begun file.now (sides_of text.now))) }
{
    let Some((variable, value)) = cut_at_equals(text) else {
        return Err(LineFault::Refused(Cause::B1));
    };
    if variable != b"MODE".as_slice() {
        return Err(LineFault::Refused(Cause::B1));
    }
    let name = name_of(alloc, trimmed(without_last(value, b'{')))?;
    Ok(UnclosedMode {
        name,
        parent: None,
        conds: Conds::new(alloc),
    })
}

impl UnclosedMode {
    /// One condition more.
    pub fn add_condition(
        &mut self,
        alloc: Global,
        file: &BhvFile,
        text: &[u8],
    ) -> Result<(), LineFault>
        requires text { length text.now < 2 ^ 32 }
        requires few { length file.now.decls ≤ 256 }
        ensures read { IfOk result (λ _. with_condition (mode_block file.now self.old) (condition_of text.now) ≡ Ok (mode_block file.now self.new)) }
        ensures refused { IfErr result (λ fault. IsLineFault fault (with_condition (mode_block file.now self.old) (condition_of text.now))) }
    {
        let cond = condition_in(alloc, text)?;
        if !fits_mode(self.conds.all(), &cond) {
            return Err(LineFault::Refused(Cause::B5));
        }
        if self.conds.len() >= MOST_CONDITIONS {
            return Err(LineFault::Refused(Cause::B9));
        }
        let parent = match parent_behind(file, self.parent, &cond) {
            Ok(parent) => parent,
            Err(cause) => return Err(LineFault::Refused(cause)),
        };
        self.conds.add(cond)?;
        self.parent = parent;
        Ok(())
    }

    /// The declaration, by what follows the `}` that closes its block.
    pub fn close(self, alloc: Global, file: &mut BhvFile, text: &[u8]) -> Result<(), LineFault>
        ensures read { IfOk result (λ _. and_then (with_decl (mode_block file.old self)) (other_of text.now) ≡ Ok file.new) }
        ensures refused { IfErr result (λ fault. IsLineFault fault (and_then (with_decl (mode_block file.old self)) (other_of text.now))) }
    {
        let other = other_of(alloc, text)?;
        if file.decls.len() >= MOST_MODES {
            return Err(LineFault::Refused(Cause::B9));
        }
        let UnclosedMode {
            name,
            parent,
            conds,
        } = self;
        let decl = Decl {
            name,
            parent,
            conds,
            other,
        };
        file.decls.add(decl)?;
        Ok(())
    }
}

// The parent with what a condition says of it, if that is a parent line.
fn parent_behind(file: &BhvFile, parent: Option<u32>, cond: &Cond) -> Result<Option<u32>, Cause>
    requires { length file.now.decls ≤ 256 }
    ensures { result ≡ parent_behind file.now.decls parent (parent_of cond.now) }
{
    let Some(literal) = cond.parent() else {
        return Ok(parent);
    };
    let decls = file.decls.all();
    let number = parent_of(decls, literal)?;
    if path_len(decls, number as usize) >= LONGEST_PATH {
        return Err(Cause::B9);
    }
    Ok(Some(number))
}

/// The condition that a text says.
pub fn condition_in(alloc: Global, text: &[u8]) -> Result<Cond, LineFault>
    requires { length text.now < 2 ^ 32 }
    ensures cond { IfOk result (λ cond. condition_of text.now ≡ Some cond) }
    ensures refused { IfErr result (λ fault. IsLineFault fault (ok_or (condition_of text.now) Cause.B5)) }
{
    match Cond::read(alloc, text) {
        Ok(cond) => Ok(cond),
        Err(CondFault::BadCondition) => Err(LineFault::Refused(Cause::B5)),
        Err(CondFault::NoMemory) => Err(LineFault::NoMemory),
    }
}

// A condition that names MODE is a parent line, and the only one.
fn fits_mode(conds: &[Cond], cond: &Cond) -> bool
    ensures { result ≡ fits_mode conds.now cond.now }
{
    !names_mode(cond) || (cond.parent().is_some() && !has_parent_line(conds))
}

fn has_parent_line(conds: &[Cond]) -> bool
    ensures { result ≡ has_parent_line conds.now }
{
    conds.iter().any(|cond| cond.parent().is_some())
}

fn names_mode(cond: &Cond) -> bool
    ensures { result ≡ names_mode cond.now }
{
    for place in 0..cond.variables() {
        if cond.variable(place).bytes() == b"MODE".as_slice() {
            return true;
        }
    }
    false
}

fn name_of(alloc: Global, bytes: &[u8]) -> Result<Name, LineFault>
    ensures name { IfOk result (λ name. (name ≡ bytes.now) × (is_name bytes.now ≡ true)) }
    ensures refused { IfErr result (λ fault. IsLineFault fault (if is_name bytes.now then Ok bytes.now else Err Cause.B1)) }
{
    match Name::new(alloc, bytes) {
        Ok(name) => Ok(name),
        Err(NameFault::BadName) => Err(LineFault::Refused(Cause::B1)),
        Err(NameFault::NoMemory) => Err(LineFault::NoMemory),
    }
}

fn other_of(alloc: Global, text: &[u8]) -> Result<Option<Name>, LineFault>
    ensures other { IfOk result (λ other. other_of text.now ≡ Ok other) }
    ensures refused { IfErr result (λ fault. IsLineFault fault (other_of text.now)) }
{
    match text {
        [] => Ok(None),
        _ => Ok(Some(name_of(alloc, text)?)),
    }
}
