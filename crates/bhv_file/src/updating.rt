// What the text of an update makes of a behaviour's parameters.
ghost use Rattle.std.specs.Prelude.{◌≡◌, ◌==◌, ◌<◌, ◌&&◌, List, ◌∷◌, [], false, true, length, position, Some, None, IfOk, IfSome, MatchOption, fold, if◌then◌else◌};
ghost use Rattle.std.specs.List.{list_any};
ghost use Rattle.moos_text.specs.Pairs.{sides_of};
ghost use Rattle.ivp_domain.specs.declared.axis.Axis.{Axis};
ghost use Rattle.bhv_file.specs.Params.{is_avoid};
ghost use Rattle.bhv_file.specs.Ranges.{InRanges, KeepsRanges};
ghost use Rattle.bhv_file.specs.Validity.{IsValidSpec};
ghost use Rattle.bhv_file.specs.Updates.{is_consistent, is_good_over, is_of_places, update_parts, updated, with_update_part};

use crate::put::set_param;
use crate::relations::{keeps_relations, lacks_places};
use crate::serving::has_few_boxes;
use crate::spec::{Shape, Spec};
use ivp_domain::Domain;
use moos_post::{Copied, NoMemory};
use moos_text::{cut_at_equals, is_named};
use std::alloc::Global;

/// The parameters after an update over a domain: None exactly if one of its pairs isn't good or, after all of them, a
/// relation between parameters fails or the boxes of a piece size are more than 4,096.
#[tactic(auto, using(crate::proofs::Pairwise::judged, crate::proofs::Pairwise::good_valid))]
pub fn updated(
    alloc: Global,
    domain: &Domain,
    spec: &Spec,
    text: &[u8],
) -> Result<Option<Spec>, NoMemory>
    requires { IsValidSpec spec.now }
    ensures spec { IfOk result (λ after. after ≡ updated domain.now spec.now text.now) }
    ensures valid { IfOk result (λ after. IfSome after IsValidSpec) }
{
    let mut after = spec.copy(alloc)?;
    if set_pairs(alloc, &mut after, text)? && is_good_over(domain, &after.shape) {
        Ok(Some(after))
    } else {
        Ok(None)
    }
}

/// The same if the behaviour doesn't keep clear of a contact, so that a domain makes no difference.
#[tactic(auto, using(crate::proofs::Pairwise::judged_anywhere, crate::proofs::Pairwise::consistent, crate::proofs::Pairwise::pairs_other))]
pub fn updated_anywhere(alloc: Global, spec: &Spec, text: &[u8]) -> Result<Option<Spec>, NoMemory>
    requires valid { IsValidSpec spec.now }
    requires other { is_avoid spec.now.shape ≡ false }
    ensures spec { IfOk result (λ after. (axes : List Axis) → after ≡ updated axes spec.now text.now) }
    ensures valid { IfOk result (λ after. IfSome after IsValidSpec) }
    ensures other { IfOk result (λ after. IfSome after (λ params. is_avoid params.shape ≡ false)) }
{
    let mut after = spec.copy(alloc)?;
    if set_pairs(alloc, &mut after, text)? && is_consistent(&after.shape) {
        Ok(Some(after))
    } else {
        Ok(None)
    }
}

// Sets the parameters of each pair in an update, one after the other. False exactly if one of them isn't good.
#[tactic(auto, using(crate::proofs::Pairwise::none_after, crate::proofs::Pairwise::pairs_behind))]
fn set_pairs(alloc: Global, spec: &mut Spec, text: &[u8]) -> Result<bool, NoMemory>
    ensures good { IfOk result (λ good. fold with_update_part (Some spec.old) (update_parts text.now) ≡ (if good then Some spec.new else None)) }
    ensures ranges { IfOk result (λ _. KeepsRanges spec.old → KeepsRanges spec.new) }
{
    let mut left = Some(text);
    while let Some(rest) = left {
        let (pair, behind) = cut_pair(rest);
        if !set_pair(alloc, spec, pair)? {
            return Ok(false);
        }
        left = behind;
    }
    Ok(true)
}

// The first pair of an update, and what follows the `#` that ends it if one does.
fn cut_pair(text: &[u8]) -> (&[u8], Option<&[u8]>)
    ensures cut { MatchOption result.1 (update_parts text.now ≡ result.0.now ∷ [])
        (λ behind. update_parts text.now ≡ result.0.now ∷ update_parts behind.now) }
    ensures shorter { IfSome result.1 (λ behind. length behind.now < length text.now) }
{
    match pair_end(text) {
        Some(end) => (&text[..end], Some(&text[end + 1..])),
        None => (text, None),
    }
}

// Where the first `#` is.
fn pair_end(text: &[u8]) -> Option<usize>
    ensures { result ≡ position (λ byte. byte == 35) text.now }
{
    text.iter().position(|byte| *byte == b'#')
}

// Sets the parameter of one pair.
fn set_pair(alloc: Global, spec: &mut Spec, pair: &[u8]) -> Result<bool, NoMemory>
    ensures good { IfOk result (λ good. with_update_part (Some spec.old) pair.now ≡ (if good then Some spec.new else None)) }
    ensures ranges { IfOk result (λ _. KeepsRanges spec.old → KeepsRanges spec.new) }
{
    match cut_at_equals(pair) {
        Some((name, value)) => set_param(alloc, spec, name, value),
        None => Ok(false),
    }
}

/// Whether a pair of an update names the places that a behaviour goes to.
#[tactic(auto, using(crate::proofs::Pairwise::pairs_behind))]
pub fn names_places(text: &[u8]) -> bool
    ensures { result ≡ list_any (λ part. is_of_places (sides_of part)) (update_parts text.now) }
{
    let mut left = Some(text);
    while let Some(rest) = left {
        let (pair, behind) = cut_pair(rest);
        if is_of_places(pair) {
            return true;
        }
        left = behind;
    }
    false
}

fn is_of_places(pair: &[u8]) -> bool
    ensures { result ≡ is_of_places (sides_of pair.now) }
{
    match cut_at_equals(pair) {
        Some((name, _)) => {
            is_named(name, b"points") || is_named(name, b"point") || is_named(name, b"polygon")
        },
        None => false,
    }
}

// Whether the relations between parameters hold, and the boxes of a piece size are few.
fn is_good_over(domain: &Domain, shape: &Shape) -> bool
    requires { InRanges true shape.now }
    ensures { result ≡ is_good_over domain.now shape.now }
{
    is_consistent(shape) && has_few_boxes(domain, shape)
}

// Whether all relations between parameters hold, and the places that must be given are.
fn is_consistent(shape: &Shape) -> bool
    ensures { result ≡ is_consistent shape.now }
{
    keeps_relations(shape) && !lacks_places(shape)
}
