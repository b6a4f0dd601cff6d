// What an iteration says of the behaviours.
ghost use Rattle.std.specs.Prelude.{◌≡◌, ◌++◌, ◌∷◌, [], map, bytes_eq, if◌then◌else◌, IfOk, OnOk};
ghost use Rattle.std.specs.List.{filter, flat_map};
ghost use Rattle.std.specs.Option.{option_to_list};
ghost use Rattle.helm_core.specs.declared.iteration.Update.{Update as UpdateNow};
ghost use Rattle.helm_core.specs.Iterations.{all_faults, all_states, all_updates, fault_of, heard_by_block, how_taken, state_of, update_of, updates_of};
ghost use Rattle.helm_core.specs.Posts.{flags_raised};

use crate::iteration::{BhvError, BhvNow, Faults, How, States, Update, Updates};
use crate::posts::add_pairs;
use crate::showing::TurnShown;
use bhv_file::Block;
use moos_post::{Batch, Copied, Name, NoMemory};
use std::alloc::Global;

// The updates, the states and the faults of all behaviours, if these are the answers to letters to templates.
pub(crate) fn told_of(
    alloc: Global,
    blocks: &[Block],
    answers: Updates,
    showings: &[TurnShown],
) -> Result<(Updates, States, Faults), NoMemory>
    ensures updates { IfOk result (λ told. told.0 ≡ all_updates blocks.now answers showings.now) }
    ensures states { IfOk result (λ told. told.1 ≡ all_states showings.now) }
    ensures faults { IfOk result (λ told. told.2 ≡ all_faults showings.now) }
{
    let updates = updates_of(alloc, blocks, answers, showings)?;
    let states = states_of(alloc, showings)?;
    let faults = faults_of(alloc, showings)?;
    Ok((updates, states, faults))
}

// The updates of all behaviours and templates, in file order.
fn updates_of(
    alloc: Global,
    blocks: &[Block],
    answers: Updates,
    showings: &[TurnShown],
) -> Result<Updates, NoMemory>
    ensures { IfOk result (λ updates. updates ≡ all_updates blocks.now answers showings.now) }
{
    let heard = heard_by_all(alloc, answers, showings)?;
    let updates = in_file_order(alloc, blocks, heard.all())?;
    Ok(updates)
}

// These updates, by the blocks that heard them.
fn in_file_order(alloc: Global, blocks: &[Block], heard: &[Update]) -> Result<Updates, NoMemory>
    ensures { IfOk result (λ updates. updates ≡ flat_map (heard_by_block heard.now) blocks.now) }
{
    let mut updates = Updates::new(alloc);
    for block in blocks {
        add_heard(alloc, &mut updates, &block.common.name, heard)?;
    }
    Ok(updates)
}

// The answers to letters to templates, and then the updates of the behaviours.
fn heard_by_all(
    alloc: Global,
    answers: Updates,
    showings: &[TurnShown],
) -> Result<Updates, NoMemory>
    ensures { IfOk result (λ heard. heard ≡ answers ++ flat_map updates_of showings.now) }
{
    let mut heard = answers;
    for showing in showings {
        add_updates(alloc, &mut heard, &showing.name, showing.taken.all())?;
    }
    Ok(heard)
}

// Adds those of these updates that the behaviour or the template of this name heard.
fn add_heard(
    alloc: Global,
    updates: &mut Updates,
    name: &Name,
    heard: &[Update],
) -> Result<(), NoMemory>
    ensures { OnOk result (updates.new ≡ updates.old ++ filter (λ (update : UpdateNow). bytes_eq update.name name.now) heard.now) }
{
    for update in heard {
        let is_own = update.name.bytes() == name.bytes();
        add_own(alloc, updates, update, is_own)?;
    }
    Ok(())
}

// Adds an update, if it is of the behaviour or the template that is told of.
fn add_own(
    alloc: Global,
    updates: &mut Updates,
    update: &Update,
    is_own: bool,
) -> Result<(), NoMemory>
    ensures { OnOk result (updates.new ≡ updates.old ++ (if is_own then update.now ∷ [] else [])) }
{
    if is_own {
        updates.add(update.copy(alloc)?)?;
    }
    Ok(())
}

fn add_updates(
    alloc: Global,
    updates: &mut Updates,
    name: &Name,
    taken: &[bool],
) -> Result<(), NoMemory>
    ensures { OnOk result (updates.new ≡ updates.old ++ map (update_of name.now) taken.now) }
{
    for answer in taken {
        let name = name.copy(alloc)?;
        let how = how_taken(*answer);
        updates.add(Update { name, how })?;
    }
    Ok(())
}

// What became of an update that was good or not.
fn how_taken(taken: bool) -> How
    ensures { result ≡ how_taken taken }
{
    if taken { How::Changed } else { How::Refused }
}

// What each behaviour is.
fn states_of(alloc: Global, showings: &[TurnShown]) -> Result<States, NoMemory>
    ensures { IfOk result (λ states. states ≡ all_states showings.now) }
{
    let mut states = States::new(alloc);
    for showing in showings {
        states.add(state_of(alloc, showing)?)?;
    }
    Ok(states)
}

fn state_of(alloc: Global, showing: &TurnShown) -> Result<BhvNow, NoMemory>
    ensures { IfOk result (λ state. state ≡ state_of showing.now) }
{
    let name = showing.name.copy(alloc)?;
    Ok(BhvNow {
        name,
        state: showing.outcome.now,
    })
}

// The faults that behaviours raised, in the order of the list.
fn faults_of(alloc: Global, showings: &[TurnShown]) -> Result<Faults, NoMemory>
    ensures { IfOk result (λ faults. faults ≡ all_faults showings.now) }
{
    let mut faults = Faults::new(alloc);
    for showing in showings {
        add_fault(alloc, &mut faults, showing)?;
    }
    Ok(faults)
}

fn add_fault(alloc: Global, faults: &mut Faults, showing: &TurnShown) -> Result<(), NoMemory>
    ensures { OnOk result (faults.new ≡ faults.old ++ option_to_list (fault_of showing.now)) }
{
    let Some(fault) = showing.out.fault else {
        return Ok(());
    };
    let name = showing.name.copy(alloc)?;
    faults.add(BhvError { name, fault })
}

// Adds the flags of all behaviours, in the order of the list.
pub(crate) fn add_flags(
    alloc: Global,
    posts: &mut Batch,
    showings: &[TurnShown],
) -> Result<(), NoMemory>
    ensures { OnOk result (posts.new ≡ posts.old ++ flags_raised showings.now) }
{
    for showing in showings {
        add_pairs(alloc, posts, showing.flags.all())?;
    }
    Ok(())
}
