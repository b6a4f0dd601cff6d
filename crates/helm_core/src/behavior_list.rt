// The behaviours of the helm.
ghost use Rattle.std.specs.Prelude.{◌≡◌, ◌+◌, ◌<◌, ◌≤◌, List, length, slice_get, Some, false, IfOk};
ghost use Rattle.bhv_file.specs.declared.file.Block.{Block};
ghost use Rattle.std.specs.List.{All, AllZip, count_by, list_any};
ghost use Rattle.helm_core.specs.Behaviors.{unstarted};
ghost use Rattle.helm_core.specs.Kept.{AreFewFit, AreFit, HasHeardAndTurned, HasTurned};
ghost use Rattle.helm_core.specs.Lists.{first_list};
ghost use Rattle.helm_core.specs.Plans.{is_template};
ghost use Rattle.helm_core.specs.Standings.{AreFew, HasAllBegun, behavior_list_of, IsBehaviorListOf, IsFitBegun, IsFitKept, IsKept, MayStep, is_called_in};
ghost use Rattle.helm_core.specs.Ticks.{pairs_mailed};

use crate::begun::{TurnBegun, begin};
use crate::behavior::{Behavior, BoxedDoer};
use crate::doer::Doer;
use crate::helm_view::HelmView;
use crate::iteration::Updates;
use crate::making::is_template;
use crate::spawning::{calls_some, spawn_all};
use crate::turned::{TurnsEnded, finish_all};
use bhv_file::{Block, Blocks};
use bhv_life::Life;
use ivp_domain::Domain;
use moos_db::Letter;
use moos_post::{Copied, NoMemory};
use std::alloc::Global;
use std::marker::Model;

// The behaviours of the helm: the domain of their functions, what the file says of behaviours, and what is kept of each of the
// list.
#[derive(Drop)]
pub(crate) struct BehaviorList {
    domain: Domain,
    blocks: Blocks,
    kept: Vec<Behavior>,
}

impl Model for BehaviorList {
    ghost use Rattle.helm_cond.specs.contracts.cond.Cond as cond;
    ghost use Rattle.helm_core.specs.Standings.{BehaviorListState, IsBehaviorList};
    ghost use Rattle.std.specs.Coded.{codes};

    ghost Value = { BehaviorListState };

    ghost coded = { Prim.hlevel (codes, cond.the_row.coded) };

    ghost view = { λ behavior_list. record { axes = behavior_list.domain; blocks = behavior_list.blocks; kept = behavior_list.kept.items } };

    ghost invariant = { λ behavior_list. IsBehaviorList (record { axes = behavior_list.domain; blocks = behavior_list.blocks; kept = behavior_list.kept.items }) };
}

impl BehaviorList {
    // The behaviours of a file, before their first turns.
    pub fn make(alloc: Global, domain: Domain, blocks: Blocks) -> Result<BehaviorList, NoMemory>
        requires few { length blocks ≤ 64 }
        requires may_step { All (MayStep domain) blocks }
        ensures axes { IfOk result (λ behavior_list. behavior_list.axes ≡ domain) }
        ensures blocks { IfOk result (λ behavior_list. behavior_list.blocks ≡ blocks) }
        ensures stands { IfOk result (IsBehaviorListOf 0 (first_list blocks)) }
    {
        let kept = first_kept(alloc, &domain, blocks.all())?;
        Ok(BehaviorList {
            domain,
            blocks,
            kept,
        })
    }

    // The domain.
    pub fn domain(&self) -> Domain
        ensures { result ≡ self.now.axes }
    {
        self.domain
    }

    // What the file says of behaviours.
    pub fn blocks(&self) -> &[Block]
        ensures { result.now ≡ self.now.blocks }
    {
        self.blocks.all()
    }

    // What the letters of an iteration to templates make of them, with the answers, and then their turns.
    pub fn turned(
        &self,
        alloc: Global,
        stamp: u64,
        letters: &[Letter],
        now: &HelmView,
    ) -> Result<(Updates, TurnsEnded), NoMemory>
        ensures turned { IfOk result (λ made. HasHeardAndTurned self.now stamp (pairs_mailed letters.now) now.now made.0 made.1) }
        ensures fit { IfOk result (λ made. AreFewFit self.now.axes self.now.blocks made.1) }
    {
        if calls_some(self.blocks.all(), letters) {
            self.turned_called(alloc, stamp, letters, now)
        } else {
            self.turned_uncalled(alloc, stamp, letters, now)
        }
    }

    // If some letter is to a template: what is kept is as it was, since a copy of it is led by the letters.
    fn turned_called(
        &self,
        alloc: Global,
        stamp: u64,
        letters: &[Letter],
        now: &HelmView,
    ) -> Result<(Updates, TurnsEnded), NoMemory>
        ensures turned { IfOk result (λ made. HasHeardAndTurned self.now stamp (pairs_mailed letters.now) now.now made.0 made.1) }
        ensures fit { IfOk result (λ made. AreFewFit self.now.axes self.now.blocks made.1) }
    {
        let blocks = self.blocks.all();
        let mut kept = copy_all(alloc, self.kept.as_slice())?;
        let mut answers = Updates::new(alloc);
        spawn_all(
            alloc,
            &self.domain,
            blocks,
            letters,
            &mut kept,
            &mut answers,
        )?;
        let turned = turn_all(
            alloc,
            &self.domain,
            blocks,
            kept.as_slice(),
            stamp,
            letters,
            now,
        )?;
        Ok((answers, turned))
    }

    // If none is.
    fn turned_uncalled(
        &self,
        alloc: Global,
        stamp: u64,
        letters: &[Letter],
        now: &HelmView,
    ) -> Result<(Updates, TurnsEnded), NoMemory>
        requires uncalled { list_any (is_called_in (pairs_mailed letters.now)) self.now.blocks ≡ false }
        ensures turned { IfOk result (λ made. HasHeardAndTurned self.now stamp (pairs_mailed letters.now) now.now made.0 made.1) }
        ensures fit { IfOk result (λ made. AreFewFit self.now.axes self.now.blocks made.1) }
    {
        let blocks = self.blocks.all();
        let kept = self.kept.as_slice();
        let turned = turn_all(alloc, &self.domain, blocks, kept, stamp, letters, now)?;
        Ok((Updates::new(alloc), turned))
    }

    // Keeps what their last turns came to.
    pub fn go_on(&mut self, kept: Vec<Behavior>)
        requires few { AreFew self.old.blocks (length kept.items) }
        requires fit { All (IsFitKept self.old.axes self.old.blocks) kept.items }
        ensures { self.new ≡ record self.old { kept = kept.items } }
    {
        self.kept = kept;
    }
}

// The turns of these behaviours.
fn turn_all(
    alloc: Global,
    domain: &Domain,
    blocks: &[Block],
    kept: &[Behavior],
    stamp: u64,
    letters: &[Letter],
    now: &HelmView,
) -> Result<TurnsEnded, NoMemory>
    requires fit { All (IsFitKept domain.now blocks.now) kept.now }
    ensures turned { IfOk result (HasTurned (behavior_list_of domain.now blocks.now kept.now) stamp (pairs_mailed letters.now) now.now) }
    ensures fit { IfOk result (AreFit domain.now blocks.now (length kept.now)) }
{
    let begun = begin_all(alloc, domain, blocks, kept, stamp, letters, now)?;
    finish_all(alloc, begun)
}

// Equal ones of these.
fn copy_all(alloc: Global, kept: &[Behavior]) -> Result<Vec<Behavior>, NoMemory>
    ensures { IfOk result (λ copies. copies.items ≡ kept.now) }
{
    let mut copies = Vec::with_capacity(alloc, kept.len())?;
    for one in kept {
        copies.push(one.copy(alloc)?)?;
    }
    Ok(copies)
}

// The turns of these behaviours up to the ends of their steps.
fn begin_all<'a>(
    alloc: Global,
    domain: &Domain,
    blocks: &'a [Block],
    kept: &[Behavior],
    stamp: u64,
    letters: &[Letter],
    now: &HelmView,
) -> Result<Vec<TurnBegun<'a>>, NoMemory>
    requires fit { All (IsFitKept domain.now blocks.now) kept.now }
    ensures begun { IfOk result (λ begun. HasAllBegun (behavior_list_of domain.now blocks.now kept.now) stamp (pairs_mailed letters.now) now.now begun.items) }
    ensures fit { IfOk result (λ begun. All (IsFitBegun domain.now blocks.now) begun.items) }
    ensures one_each { IfOk result (λ begun. length begun.items ≡ length kept.now) }
{
    let mut begun = Vec::with_capacity(alloc, kept.len())?;
    for one in kept {
        let common = &blocks[one.block].common;
        begun.push(begin(alloc, domain, common, one, stamp, letters, now)?)?;
    }
    Ok(begun)
}

// What is kept of each behaviour at first: a template is none.
fn first_kept(alloc: Global, domain: &Domain, blocks: &[Block]) -> Result<Vec<Behavior>, NoMemory>
    requires may_step { All (MayStep domain.now) blocks.now }
    ensures stands { IfOk result (λ kept. AllZip (IsKept blocks.now 0) (first_list blocks.now) kept.items) }
    ensures fit { IfOk result (λ kept. All (IsFitKept domain.now blocks.now) kept.items) }
    ensures few { IfOk result (λ kept. count_by is_template blocks.now + length kept.items ≡ length blocks.now) }
{
    let mut kept = Vec::with_capacity(alloc, blocks.len())?;
    for (place, block) in blocks.iter().enumerate() {
        if !is_template(block) {
            kept.push(kept_first(alloc, domain, place, block)?)?;
        }
    }
    Ok(kept)
}

// What is kept at first of the behaviour whose block is at this place.
fn kept_first(
    alloc: Global,
    domain: &Domain,
    place: usize,
    block: &Block,
) -> Result<Behavior, NoMemory>
    requires may_step { MayStep domain.now block.now }
    ensures stands { IfOk result (λ kept. (blocks : List Block) → slice_get blocks place ≡ Some block.now → IsKept blocks 0 (unstarted block.now) kept) }
    ensures fit { IfOk result (λ kept. (blocks : List Block) → place < length blocks → IsFitKept domain.now blocks kept) }
{
    let spec = block.spec.copy(alloc)?;
    let doer = BoxedDoer::of(alloc, Doer::make(spec))?;
    let name = block.common.name.copy(alloc)?;
    Ok(Behavior {
        name,
        block: place,
        made: false,
        doer,
        life: Life::make(),
    })
}
