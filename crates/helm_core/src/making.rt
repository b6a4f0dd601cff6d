// What one letter to a template makes or changes.
ghost use Rattle.std.specs.Prelude.{◌≡◌, ℕ, ◌<◌, ◌&&◌, [], List, length, slice_get, Some, bytes_eq, position, true, IfOk, IfSome, is_some};
ghost use Rattle.std.specs.List.{AllZip, count_by, list_any};
ghost use Rattle.bhv_file.specs.declared.file.Block.{Block};
ghost use Rattle.bhv_file.specs.declared.spec.Spec.{Spec};
ghost use Rattle.bhv_file.specs.declared.common.Common.{Common};
ghost use Rattle.helm_core.specs.Doers.{IsDoerOf};
ghost use Rattle.bhv_kinds.specs.Changes.{KindChange, params_at};
ghost use Rattle.bhv_life.specs.Standing.{IsLifeOf};
ghost use Rattle.helm_core.specs.Plans.{is_template};
ghost use Rattle.helm_core.specs.Standings.{AreFew, HasSpawned, HasAnswered, IsKept, MaySpawn, is_kept_called};
ghost use Rattle.helm_core.specs.Templates.{Spawning, are_good, heard_known, heard_new, heard_said, is_template_named, may_make, said_by, with_said};

use crate::behavior::{Behavior, BoxedDoer};
use crate::doer::Doer;
use crate::iteration::How;
use crate::named::{NamedPairs, said_by};
use bhv_file::Block;
use bhv_life::Life;
use ivp_domain::Domain;
use moos_post::{Copied, Name, NoMemory, Txt, Value};
use std::alloc::Global;

// A letter to the template at this place, which has this value: what becomes of it.
pub(crate) fn hear_said(
    alloc: Global,
    domain: &Domain,
    blocks: &[Block],
    place: usize,
    template: &Block,
    value: &Value,
    kept: &mut Vec<Behavior>,
) -> Result<How, NoMemory>
    requires at { slice_get blocks.now place ≡ Some template.now }
    requires may { MaySpawn blocks.now kept.old.items }
    ensures heard { IfOk result (λ how. (clock at : ℕ) (before : Spawning) → AllZip (IsKept blocks.now clock) before.ones kept.old.items
        → HasAnswered blocks.now clock template.now before (heard_said domain.now blocks.now at template.now before (said_by value.now)) kept.new.items how) }
    ensures more { IfOk result (λ _. HasSpawned domain.now blocks.now kept.old.items kept.new.items) }
{
    let heard = said_by(alloc, value)?;
    let Some(said) = heard else {
        return Ok(How::Refused);
    };
    let how = hear_named(alloc, domain, blocks, place, template, &said, kept)?;
    Ok(how)
}

// A letter with a name.
fn hear_named(
    alloc: Global,
    domain: &Domain,
    blocks: &[Block],
    place: usize,
    template: &Block,
    said: &NamedPairs,
    kept: &mut Vec<Behavior>,
) -> Result<How, NoMemory>
    requires at { slice_get blocks.now place ≡ Some template.now }
    requires may { MaySpawn blocks.now kept.old.items }
    ensures heard { IfOk result (λ how. (clock at : ℕ) (before : Spawning) → AllZip (IsKept blocks.now clock) before.ones kept.old.items
        → HasAnswered blocks.now clock template.now before (heard_said domain.now blocks.now at template.now before (Some said.now)) kept.new.items how) }
    ensures more { IfOk result (λ _. HasSpawned domain.now blocks.now kept.old.items kept.new.items) }
{
    match place_of(kept.as_slice(), said.name.bytes()) {
        Some(known) => {
            let how = hear_known(alloc, domain, blocks, template, said, known, kept)?;
            Ok(how)
        },
        None => {
            let how = hear_new(alloc, domain, blocks, place, template, said, kept)?;
            Ok(how)
        },
    }
}

// Where the behaviour of this name is in the list.
fn place_of(kept: &[Behavior], name: &[u8]) -> Option<usize>
    ensures { result ≡ position (is_kept_called name.now) kept.now }
{
    kept.iter().position(|one| one.name.bytes() == name)
}

// A letter with a name that none in the list has.
fn hear_new(
    alloc: Global,
    domain: &Domain,
    blocks: &[Block],
    place: usize,
    template: &Block,
    said: &NamedPairs,
    kept: &mut Vec<Behavior>,
) -> Result<How, NoMemory>
    requires at { slice_get blocks.now place ≡ Some template.now }
    requires may { MaySpawn blocks.now kept.old.items }
    ensures heard { IfOk result (λ how. (clock at : ℕ) (before : Spawning) → AllZip (IsKept blocks.now clock) before.ones kept.old.items
        → HasAnswered blocks.now clock template.now before (heard_new domain.now blocks.now at template.now before said.now) kept.new.items how) }
    ensures more { IfOk result (λ _. HasSpawned domain.now blocks.now kept.old.items kept.new.items) }
{
    if !may_make(blocks, said.name.bytes(), kept.as_slice()) {
        return Ok(How::Refused);
    }
    let spec = template.spec.copy(alloc)?;
    let blank = Doer::make(spec);
    let taken = doer_with(alloc, domain, blank, &said.pairs)?;
    let Some(doer) = taken else {
        return Ok(How::Refused);
    };
    let one = made(alloc, &said.name, place, doer)?;
    kept.push(one)?;
    let name = said.name.copy(alloc)?;
    Ok(How::Spawned(name))
}

// Whether a behaviour of this name may be made beside these.
fn may_make(blocks: &[Block], name: &[u8], kept: &[Behavior]) -> bool
    requires few { AreFew blocks.now (length kept.now) }
    ensures { result ≡ may_make blocks.now name.now (length kept.now) }
{
    !is_template_named(blocks, name) && templates(blocks) + kept.len() < 64
}

// Whether a template has this name.
fn is_template_named(blocks: &[Block], name: &[u8]) -> bool
    ensures { result ≡ list_any (is_template_named name.now) blocks.now }
{
    blocks.iter().any(|block| is_template(block) && block.common.name.bytes() == name)
}

// Whether the block is a template, which never runs itself.
pub(crate) fn is_template(block: &Block) -> bool
    ensures { result ≡ is_template block.now }
{
    block.common.template
}

// How many templates the file has.
fn templates(blocks: &[Block]) -> usize
    ensures { result ≡ count_by is_template blocks.now }
{
    blocks.iter().filter(|block| is_template(block)).count()
}

// What is kept of a behaviour that a letter makes of the block at this place.
fn made(alloc: Global, name: &Name, block: usize, doer: BoxedDoer) -> Result<Behavior, NoMemory>
    ensures named { IfOk result (λ one. one.name ≡ name.now) }
    ensures of { IfOk result (λ one. one.block ≡ block) }
    ensures by_letter { IfOk result (λ one. one.made ≡ true) }
    ensures doer { IfOk result (λ one. one.doer ≡ doer) }
    ensures fresh { IfOk result (λ one. (common : Common) → IsLifeOf common [] one.life) }
{
    let name = name.copy(alloc)?;
    Ok(Behavior {
        name,
        block,
        made: true,
        doer,
        life: Life::make(),
    })
}

// The doer with these pairs too, if there are some, or None if they aren't good as a whole.
fn doer_with(
    alloc: Global,
    domain: &Domain,
    doer: Doer,
    pairs: &Option<Txt>,
) -> Result<Option<BoxedDoer>, NoMemory>
    ensures good { IfOk result (λ taken. (spec : Spec) (changes : List KindChange) → IsDoerOf spec changes doer → is_some taken ≡ are_good domain.now (params_at spec changes) pairs.now) }
    ensures stands { IfOk result (λ taken. IfSome taken (λ after. (spec : Spec) (changes : List KindChange) → IsDoerOf spec changes doer → IsDoerOf spec (with_said domain.now changes pairs.now) after)) }
{
    let mut after = doer;
    if !take_pairs(alloc, domain, &mut after, pairs)? {
        return Ok(None);
    }
    let boxed = BoxedDoer::of(alloc, after)?;
    Ok(Some(boxed))
}

// Takes pairs, if there are some. False exactly if they aren't good as a whole.
fn take_pairs(
    alloc: Global,
    domain: &Domain,
    doer: &mut Doer,
    pairs: &Option<Txt>,
) -> Result<bool, NoMemory>
    ensures good { IfOk result (λ good. (spec : Spec) (changes : List KindChange) → IsDoerOf spec changes doer.old → good ≡ are_good domain.now (params_at spec changes) pairs.now) }
    ensures stands { IfOk result (λ _. (spec : Spec) (changes : List KindChange) → IsDoerOf spec changes doer.old → IsDoerOf spec (with_said domain.now changes pairs.now) doer.new) }
{
    match pairs {
        Some(pairs) => {
            let good = doer.update(alloc, domain, pairs)?;
            Ok(good)
        },
        None => Ok(true),
    }
}

// A letter with the name of the behaviour at this place of the list.
fn hear_known(
    alloc: Global,
    domain: &Domain,
    blocks: &[Block],
    template: &Block,
    said: &NamedPairs,
    place: usize,
    kept: &mut Vec<Behavior>,
) -> Result<How, NoMemory>
    requires place { place < length kept.old.items }
    requires may { MaySpawn blocks.now kept.old.items }
    ensures heard { IfOk result (λ how. (clock : ℕ) (before : Spawning) → AllZip (IsKept blocks.now clock) before.ones kept.old.items
        → HasAnswered blocks.now clock template.now before (heard_known domain.now template.now before said.now place (slice_get before.ones place)) kept.new.items how) }
    ensures more { IfOk result (λ _. HasSpawned domain.now blocks.now kept.old.items kept.new.items) }
{
    let one = &kept[place];
    if !is_made_of(blocks, template, one) {
        return Ok(How::Refused);
    }
    let before = one.doer.lent().copy(alloc)?;
    let taken = doer_with(alloc, domain, before, &said.pairs)?;
    let Some(doer) = taken else {
        return Ok(How::Refused);
    };
    kept[place].doer = doer;
    Ok(How::Changed)
}

// Whether it was made of this template: a letter made it, and its block has the template's name.
fn is_made_of(blocks: &[Block], template: &Block, one: &Behavior) -> bool
    requires within { one.now.block < length blocks.now }
    ensures { (block : Block) → slice_get blocks.now one.now.block ≡ Some block → result ≡ (one.now.made && bytes_eq block.common.name template.now.common.name) }
{
    one.made && blocks[one.block].common.name.bytes() == template.common.name.bytes()
}
