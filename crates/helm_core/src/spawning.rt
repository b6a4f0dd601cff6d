// What letters to templates make of the behaviours: the ones that they make, and the ones that they change.
ghost use Rattle.std.specs.Prelude.{◌≡◌, ℕ, ◌<◌, List, length, fold, slice_get, Some, OnOk, bytes_eq};
ghost use Rattle.std.specs.List.{list_any};
ghost use Rattle.std.specs.Option.{option_eq};
ghost use Rattle.bhv_file.specs.declared.file.Block.{Block};
ghost use Rattle.moos_db.specs.declared.mail.Letter.{Letter as LetterNow};
ghost use Rattle.moos_db.specs.Database.{pair_posted};
ghost use Rattle.helm_core.specs.Behaviors.{BhvSoFar};
ghost use Rattle.helm_core.specs.Standings.{HasSpawned, IsSpawning, MaySpawn, is_called_in};
ghost use Rattle.helm_core.specs.Templates.{Spawning, heard_by, heard_to, none_spawned, spawned};
ghost use Rattle.helm_core.specs.Ticks.{pairs_mailed};

use crate::behavior::Behavior;
use crate::iteration::{Update, Updates};
use crate::judging::is_for;
use crate::making::{hear_said, is_template};
use bhv_file::Block;
use ivp_domain::Domain;
use moos_db::Letter;
use moos_post::{Copied, Name, NoMemory};
use std::alloc::Global;

// Whether one of these letters is to a template of the file.
pub(crate) fn calls_some(blocks: &[Block], letters: &[Letter]) -> bool
    ensures { result ≡ list_any (is_called_in (pairs_mailed letters.now)) blocks.now }
{
    blocks.iter().any(|block| is_heard(block, letters))
}

// Whether the block is a template, and one of these letters is to it.
fn is_heard(block: &Block, letters: &[Letter]) -> bool
    ensures { result ≡ is_called_in (pairs_mailed letters.now) block.now }
{
    is_template(block) && is_mailed(&block.common.updates, letters)
}

// Whether one of these letters is of this variable for updates.
fn is_mailed(updates: &Option<Name>, letters: &[Letter]) -> bool
    ensures { result ≡ list_any (λ (letter : LetterNow). option_eq bytes_eq updates.now (Some letter.post.var)) letters.now }
{
    letters
        .iter()
        .any(|letter| is_for(updates, &letter.post.var))
}

// The letters to all templates of the file, in its order: what they make of what is kept, and the answers.
pub(crate) fn spawn_all(
    alloc: Global,
    domain: &Domain,
    blocks: &[Block],
    letters: &[Letter],
    kept: &mut Vec<Behavior>,
    answers: &mut Updates,
) -> Result<(), NoMemory>
    requires may { MaySpawn blocks.now kept.old.items }
    ensures spawned { OnOk result ((clock at : ℕ) (ones : List BhvSoFar) → IsSpawning blocks.now clock (none_spawned ones) kept.old.items answers.old
        → IsSpawning blocks.now clock (spawned domain.now blocks.now at (pairs_mailed letters.now) ones) kept.new.items answers.new) }
    ensures more { OnOk result (HasSpawned domain.now blocks.now kept.old.items kept.new.items) }
{
    for place in 0..blocks.len() {
        hear_by(alloc, domain, blocks, place, letters, kept, answers)?;
    }
    Ok(())
}

// The letters to the block at this place, if it is a template.
fn hear_by(
    alloc: Global,
    domain: &Domain,
    blocks: &[Block],
    place: usize,
    letters: &[Letter],
    kept: &mut Vec<Behavior>,
    answers: &mut Updates,
) -> Result<(), NoMemory>
    requires place { place < length blocks.now }
    requires may { MaySpawn blocks.now kept.old.items }
    ensures heard { OnOk result ((clock at : ℕ) (before : Spawning) (block : Block) → slice_get blocks.now place ≡ Some block → IsSpawning blocks.now clock before kept.old.items answers.old
        → IsSpawning blocks.now clock (heard_by domain.now blocks.now at (pairs_mailed letters.now) before block) kept.new.items answers.new) }
    ensures more { OnOk result (HasSpawned domain.now blocks.now kept.old.items kept.new.items) }
{
    let block = &blocks[place];
    if !is_template(block) {
        return Ok(());
    }
    hear_all(alloc, domain, blocks, place, block, letters, kept, answers)?;
    Ok(())
}

// The letters to the template at this place.
fn hear_all(
    alloc: Global,
    domain: &Domain,
    blocks: &[Block],
    place: usize,
    template: &Block,
    letters: &[Letter],
    kept: &mut Vec<Behavior>,
    answers: &mut Updates,
) -> Result<(), NoMemory>
    requires at { slice_get blocks.now place ≡ Some template.now }
    requires may { MaySpawn blocks.now kept.old.items }
    ensures heard { OnOk result ((clock at : ℕ) (before : Spawning) → IsSpawning blocks.now clock before kept.old.items answers.old
        → IsSpawning blocks.now clock (fold (heard_to domain.now blocks.now at template.now) before (pairs_mailed letters.now)) kept.new.items answers.new) }
    ensures more { OnOk result (HasSpawned domain.now blocks.now kept.old.items kept.new.items) }
{
    for letter in letters {
        hear(
            alloc, domain, blocks, place, template, letter, kept, answers,
        )?;
    }
    Ok(())
}

// A letter, which is one to the template if it is of its variable.
fn hear(
    alloc: Global,
    domain: &Domain,
    blocks: &[Block],
    place: usize,
    template: &Block,
    letter: &Letter,
    kept: &mut Vec<Behavior>,
    answers: &mut Updates,
) -> Result<(), NoMemory>
    requires at { slice_get blocks.now place ≡ Some template.now }
    requires may { MaySpawn blocks.now kept.old.items }
    ensures heard { OnOk result ((clock at : ℕ) (before : Spawning) → IsSpawning blocks.now clock before kept.old.items answers.old
        → IsSpawning blocks.now clock (heard_to domain.now blocks.now at template.now before (pair_posted letter.now.post)) kept.new.items answers.new) }
    ensures more { OnOk result (HasSpawned domain.now blocks.now kept.old.items kept.new.items) }
{
    if !is_for(&template.common.updates, &letter.post.var) {
        return Ok(());
    }
    let value = &letter.post.value;
    let name = template.common.name.copy(alloc)?;
    let how = hear_said(alloc, domain, blocks, place, template, value, kept)?;
    answers.add(Update { name, how })?;
    Ok(())
}
