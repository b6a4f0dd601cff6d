// Which declaration a parent line means.
ghost use Rattle.std.specs.Prelude.{◌≡◌, ◌<◌, ◌+◌, ◌^◌, [], ◌∷◌, ◌++◌, length, drop, false, reverse, slice_index, slice_index_or, MatchOption, IfSome, IfNone};
ghost use Rattle.std.specs.List.{list_any};
ghost use Rattle.helm_cond.specs.Conditions.{begins_with, mode_names};
ghost use Rattle.bhv_file.specs.Paths.{the_one, above_of, is_colon, meant_by, named_from, paths_of};

use bhv_file::Decl;
use moos_post::Value;
use moos_text::{Cause, is_named};

/// The number of the one declaration that a parent line with this literal means, or why there isn't one.
pub fn parent_of(decls: &[Decl], literal: &Value) -> Result<u32, Cause>
    requires { length decls.now < 2 ^ 32 }
    ensures { result ≡ the_one (meant_by decls.now literal.now) }
{
    match literal {
        Value::Num(_) => Err(Cause::B7),
        Value::Text(text) => named(decls, text.bytes()),
    }
}

// The same by the parts of the parent's name.
fn named(decls: &[Decl], text: &[u8]) -> Result<u32, Cause>
    requires { length decls.now < 2 ^ 32 }
    ensures { result ≡ the_one (named_from 0 (reverse (mode_names text.now)) (paths_of decls.now)) }
{
    let mut found = None;
    for number in 0..decls.len() {
        if ends_with_parts(decls, number, text) {
            if found.is_some() {
                return Err(Cause::B8);
            }
            found = Some(number as u32);
        }
    }
    found.ok_or(Cause::B7)
}

// Whether the path of this declaration ends with the parts of a name.
fn ends_with_parts(decls: &[Decl], number: usize, text: &[u8]) -> bool
    requires { number < length decls.now }
    ensures { result ≡ begins_with (reverse (mode_names text.now)) (slice_index_or (paths_of decls.now) number []) }
{
    let mut at = number;
    let mut left = text;
    loop {
        let decl = &decls[at];
        let (front, last) = cut_last(left);
        if !is_named(last, decl.name.bytes()) {
            return false;
        }
        match front {
            None => return true,
            Some(front) => match above(decl, at) {
                Some(parent) => {
                    at = parent;
                    left = front;
                },
                None => return false,
            },
        }
    }
}

/// How many names the path of this declaration has.
pub fn path_len(decls: &[Decl], number: usize) -> usize
    requires { number < length decls.now }
    ensures { result ≡ length (slice_index_or (paths_of decls.now) number []) }
{
    let mut at = number;
    let mut len = 1;
    while let Some(parent) = above(&decls[at], at) {
        at = parent;
        len += 1;
    }
    len
}

// The parent of a declaration with this number, which is an earlier one.
fn above(decl: &Decl, number: usize) -> Option<usize>
    ensures { result ≡ above_of number decl.now.parent }
{
    match decl.parent {
        Some(parent) => if (parent as usize) < number {
            Some(parent as usize)
        } else {
            None
        },
        None => None,
    }
}

// The last part of a name, and what is before its `:`, if it has several.
fn cut_last(text: &[u8]) -> (Option<&[u8]>, &[u8])
    ensures cut { MatchOption result.0 (mode_names text.now ≡ result.1.now ∷ []) (λ front. mode_names text.now ≡ mode_names front.now ++ result.1.now ∷ []) }
    ensures shorter { IfSome result.0 (λ front. length front.now < length text.now) }
{
    match last_colon(text) {
        Some(place) => (Some(&text[..place]), &text[place + 1..]),
        None => (None, text),
    }
}

// Where the last `:` is.
fn last_colon(text: &[u8]) -> Option<usize>
    ensures none { IfNone result (list_any is_colon text.now ≡ false) }
    ensures place { IfSome result (λ place. (place < length text.now) × (slice_index text.now place ≡ 58) × (list_any is_colon (drop (place + 1) text.now) ≡ false)) }
{
    let mut at = text.len();
    while at > 0 {
        at -= 1;
        if text[at] == b':' {
            return Some(at);
        }
    }
    None
}
