// Modes and their parts between colons.
ghost use Rattle.std.specs.Prelude.{◌≡◌, ◌==◌, ◌<◌, [], ◌∷◌, length, position, IfNone, IfSome};
ghost use Rattle.std.specs.List.{before_first, position_or_len};
ghost use Rattle.helm_cond.specs.Conditions.{mode_names, mode_parts, begins_with, stands_in};
ghost use Rattle.helm_cond.specs.Modes.{ends_part, begins_text};

// Whether the parts of a text, between its `:`, are one behind the other in the mode's.
pub(crate) fn stands_in_mode(text: &[u8], mode: &[u8]) -> bool
    ensures { result ≡ stands_in (mode_names text.now) (mode_parts mode.now) }
{
    mode.len() > 0 && stands_in_names(text, mode)
}

#[tactic(auto, using(crate::proofs::Parts::part_ends, crate::proofs::Parts::last_part, crate::proofs::Parts::stands_first))]
fn stands_in_names(text: &[u8], mode: &[u8]) -> bool
    ensures { result ≡ stands_in (mode_names text.now) (mode_names mode.now) }
{
    let mut rest = mode;
    'parts: while !begins_with(text, rest) {
        match behind_name(rest) {
            Some(behind) => rest = behind,
            None => return false,
        }
    }
    true
}

// Whether the parts of a text are the first of a mode's: the mode begins with the text, letters apart, and a part of it
// ends there.
#[tactic(auto, using(crate::proofs::Parts::begins_is))]
fn begins_with(text: &[u8], mode: &[u8]) -> bool
    ensures { result ≡ begins_with (mode_names text.now) (mode_names mode.now) }
{
    begins_text(text, mode)
}

fn begins_text(text: &[u8], mode: &[u8]) -> bool
    ensures { result ≡ begins_text text.now mode.now }
{
    let mut left = text;
    let mut rest = mode;
    'bytes: while let [byte, more @ ..] = left {
        let [other, behind @ ..] = rest else {
            return false;
        };
        if !byte.eq_ignore_ascii_case(other) {
            return false;
        }
        left = more;
        rest = behind;
    }
    ends_part(rest)
}

fn ends_part(rest: &[u8]) -> bool
    ensures { result ≡ ends_part rest.now }
{
    match rest {
        [] => true,
        [byte, ..] => *byte == b':',
    }
}

fn first_colon(text: &[u8]) -> Option<usize>
    ensures { result ≡ position (λ byte. byte == 58) text.now }
{
    text.iter().position(|&byte| byte == b':')
}

#[tactic(auto, using(moos_text::proofs::WordLemmas::position_or_len_of))]
fn bytes_before_colon(text: &[u8]) -> usize
    ensures { result ≡ position_or_len (λ byte. byte == 58) text.now }
{
    first_colon(text).unwrap_or(text.len())
}

// What follows the first name of a mode, if another follows.
fn behind_name(mode: &[u8]) -> Option<&[u8]>
    ensures last { IfNone result (mode_names mode.now ≡ mode.now ∷ []) }
    ensures next { IfSome result (λ behind. mode_names mode.now ≡ before_first (λ byte. byte == 58) mode.now ∷ mode_names behind.now) }
    ensures shorter { IfSome result (λ behind. length behind.now < length mode.now) }
{
    let name = bytes_before_colon(mode);
    if name < mode.len() {
        Some(&mode[name + 1..])
    } else {
        None
    }
}
