// How the turns of all behaviours end in an iteration.
ghost use Rattle.std.specs.Prelude.{◌≡◌, ◌++◌, ◌∷◌, [], List, length, if◌then◌else◌, IfOk, OnOk};
ghost use Rattle.bhv_file.specs.declared.file.Block.{Block};
ghost use Rattle.std.specs.List.{All, AllZip, list_any};
ghost use Rattle.ivp_domain.specs.declared.axis.Axis.{Axis};
ghost use Rattle.helm_core.specs.Behaviors.{TurnSoFar};
ghost use Rattle.helm_core.specs.Kept.{IsTurned, IsTurnedWith, AreFit};
ghost use Rattle.helm_core.specs.Standings.{IsBegun, IsFitBegun, raised_fault};
ghost use Rattle.helm_core.specs.Ticks.{Seen};

use crate::begun::{TurnBegun, TurnEnded};
use crate::behavior::Behavior;
use crate::showing::TurnShown;
use moos_post::NoMemory;
use std::alloc::Global;

// What the helm keeps of the behaviours that stay in the list, and what the iteration says of each of the list, in its order.
#[derive(Drop)]
pub(crate) struct TurnsEnded {
    pub kept: Vec<Behavior>,
    pub showings: Vec<TurnShown>,
}

// Ends the turns: none is active if a behaviour raised a fault.
pub(crate) fn finish_all(alloc: Global, begun: Vec<TurnBegun<'_>>) -> Result<TurnsEnded, NoMemory>
    ensures turned { IfOk result (λ turned. (blocks : List Block) (seen : Seen) (ones : List TurnSoFar) → AllZip (IsBegun blocks seen) ones begun.entry.items → IsTurned blocks seen ones turned) }
    ensures fit { IfOk result (λ turned. (axes : List Axis) (blocks : List Block) → All (IsFitBegun axes blocks) begun.entry.items → AreFit axes blocks (length begun.entry.items) turned) }
{
    let fault = some_fault(&begun);
    finish_each(alloc, begun, fault)
}

// Whether a step raised a fault.
fn some_fault(begun: &[TurnBegun<'_>]) -> bool
    ensures { result ≡ list_any raised_fault begun.now }
{
    begun.iter().any(|one| one.has_fault())
}

// Ends the turns, by whether any behaviour raised a fault.
fn finish_each(
    alloc: Global,
    begun: Vec<TurnBegun<'_>>,
    fault: bool,
) -> Result<TurnsEnded, NoMemory>
    ensures turned { IfOk result (λ turned. (blocks : List Block) (seen : Seen) (ones : List TurnSoFar) → AllZip (IsBegun blocks seen) ones begun.entry.items → IsTurnedWith blocks fault seen ones turned) }
    ensures fit { IfOk result (λ turned. (axes : List Axis) (blocks : List Block) → All (IsFitBegun axes blocks) begun.entry.items → AreFit axes blocks (length begun.entry.items) turned) }
{
    let mut turned = none_ended(alloc, begun.len())?;
    for one in begun {
        let ended = one.finish(alloc, fault)?;
        add(&mut turned, ended)?;
    }
    Ok(turned)
}

// Before the first turn has ended, with room for so many.
fn none_ended(alloc: Global, count: usize) -> Result<TurnsEnded, NoMemory>
    ensures kept { IfOk result (λ turned. turned.kept.items ≡ []) }
    ensures showings { IfOk result (λ turned. turned.showings.items ≡ []) }
{
    let kept = Vec::with_capacity(alloc, count)?;
    let showings = Vec::with_capacity(alloc, count)?;
    Ok(TurnsEnded { kept, showings })
}

// Adds what a turn came to.
fn add(turned: &mut TurnsEnded, ended: TurnEnded) -> Result<(), NoMemory>
    ensures kept { OnOk result (turned.new.kept.items ≡ turned.old.kept.items ++ (if ended.stays then ended.kept ∷ [] else [])) }
    ensures showings { OnOk result (turned.new.showings.items ≡ turned.old.showings.items ++ ended.showing ∷ []) }
{
    turned.showings.push(ended.showing)?;
    keep(&mut turned.kept, ended.kept, ended.stays)
}

// Keeps a behaviour, if it stays in the list.
fn keep(kept: &mut Vec<Behavior>, one: Behavior, stays: bool) -> Result<(), NoMemory>
    ensures { OnOk result (kept.new.items ≡ kept.old.items ++ (if stays then one ∷ [] else [])) }
{
    if stays {
        kept.push(one)?;
    }
    Ok(())
}
