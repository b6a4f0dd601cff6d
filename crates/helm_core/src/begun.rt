// The turn of a behaviour in an iteration.
ghost use Rattle.std.specs.Prelude.{◌≡◌, ℕ, ◌<◌, ◌≤◌, List, [], ◌++◌, ◌&&◌, length, not, nat_lt, is_some, if◌then◌else◌, None, IfOk, OnOk};
ghost use Rattle.bhv_file.specs.declared.file.Block.{Block};
ghost use Rattle.helm_cond.specs.Infos.{knowledge_of};
ghost use Rattle.ivp_domain.specs.declared.axis.Axis.{Axis};
ghost use Rattle.bhv_life.specs.Outcomes.{flags_at, raised};
ghost use Rattle.helm_core.specs.Behaviors.{TurnSoFar, BhvSoFar};
ghost use Rattle.helm_core.specs.Standings.{BeginsTurn, HasJudgedAndStepped, IsBegun, IsEnded, IsFitBegun, IsFitEnded, IsKept, IsReady, SeesView};
ghost use Rattle.helm_core.specs.Ticks.{Seen, pairs_mailed};

use crate::behavior::{Behavior, BoxedDoer};
use crate::doer::Doer;
use crate::helm_view::HelmView;
use crate::judging::judge_own;
use crate::posts::add_pairs;
use crate::showing::TurnShown;
use crate::stepping::step_in;
use bhv_file::Common;
use bhv_kinds::Out;
use bhv_life::{Outcome, Phase, Started};
use helm_cond::Info;
use ivp_domain::Domain;
use moos_db::Letter;
use moos_post::{Batch, Copied, List, Name, NoMemory};
use std::alloc::Global;

// A turn of a behaviour after its step: which of its updates were good, and what the step gave.
#[derive(Drop)]
pub(crate) struct TurnBegun<'a> {
    pub name: Name,
    pub block: usize,
    pub made: bool,
    pub common: &'a Common,
    pub doer: BoxedDoer,
    pub started: Started,
    pub taken: List<bool>,
    pub out: Out,
}

// What the helm keeps of a behaviour after its turn, what the iteration says of it, and whether it stays in the list.
#[derive(Drop)]
pub(crate) struct TurnEnded {
    pub kept: Behavior,
    pub showing: TurnShown,
    pub stays: bool,
}

// Begins the turn of a behaviour: its updates come first, and then its step.
pub(crate) fn begin<'a>(
    alloc: Global,
    domain: &Domain,
    common: &'a Common,
    kept: &Behavior,
    stamp: u64,
    letters: &[Letter],
    now: &HelmView,
) -> Result<TurnBegun<'a>, NoMemory>
    requires ready { IsReady domain.now kept.now.doer }
    ensures begins { IfOk result (λ begun. (blocks : List Block) (clock : ℕ) (seen : Seen) (one : BhvSoFar) → clock ≤ stamp → SeesView seen stamp (pairs_mailed letters.now) now.now → one.block.common ≡ common.now → IsKept blocks clock one kept.now → BeginsTurn domain.now blocks seen one begun) }
    ensures fit { IfOk result (λ begun. (blocks : List Block) → kept.now.block < length blocks → IsFitBegun domain.now blocks begun) }
{
    let started = kept
        .life
        .start(common, &now.info, now.mode.bytes(), now.parked, stamp);
    let name = kept.name.copy(alloc)?;
    let mut doer = kept.doer.lent().copy(alloc)?;
    let (taken, out) = lead(
        alloc,
        domain,
        kept.made,
        started.phase,
        &common.updates,
        &now.info,
        stamp,
        letters,
        &mut doer,
    )?;
    let doer = BoxedDoer::of(alloc, doer)?;
    Ok(TurnBegun {
        name,
        block: kept.block,
        made: kept.made,
        common,
        doer,
        started,
        taken,
        out,
    })
}

// Judges the updates of a behaviour, and then steps it, if its phase says so. Gives which were good, and what the step gave.
fn lead(
    alloc: Global,
    domain: &Domain,
    made: bool,
    phase: Phase,
    updates: &Option<Name>,
    info: &Info,
    stamp: u64,
    letters: &[Letter],
    doer: &mut Doer,
) -> Result<(List<bool>, Out), NoMemory>
    requires ready { IsReady domain.now doer.old }
    ensures led { IfOk result (λ gave. HasJudgedAndStepped domain.now (if made then None else updates.now) phase (pairs_mailed letters.now) (knowledge_of info.now) stamp doer.old doer.new gave.0 gave.1) }
{
    let taken = judge_own(alloc, domain, made, phase, updates, letters, doer)?;
    let out = step_in(alloc, phase, domain, info, stamp, doer)?;
    Ok((taken, out))
}

impl<'a> TurnBegun<'a> {
    // Whether its step raised a fault.
    pub fn has_fault(&self) -> bool
        ensures { result ≡ is_some self.now.out.fault }
    {
        self.out.fault.is_some()
    }

    // What the iteration says of it beside what it has: its name, and the flags that this outcome raises.
    fn told(&self, alloc: Global, outcome: Outcome) -> Result<(Name, Batch), NoMemory>
        ensures name { IfOk result (λ told. told.0 ≡ self.now.name) }
        ensures flags { IfOk result (λ told. told.1 ≡ flags_at self.now.common.now outcome) }
    {
        let name = self.name.copy(alloc)?;
        let flags = flags_at(alloc, self.common, outcome)?;
        Ok((name, flags))
    }

    // Ends the turn, by whether any behaviour raised a fault.
    pub fn finish(self, alloc: Global, fault: bool) -> Result<TurnEnded, NoMemory>
        ensures ends { IfOk result (λ ended. (blocks : List Block) (seen : Seen) (one : TurnSoFar) → IsBegun blocks seen one self.entry → IsEnded blocks seen fault one ended) }
        ensures fit { IfOk result (λ ended. (axes : List Axis) (blocks : List Block) → IsFitBegun axes blocks self.entry → IsFitEnded axes blocks ended) }
    {
        let weight = self.doer.lent().weight();
        let active = is_active(&self.out, weight, fault);
        let (life, outcome) = self.started.finish(active, self.out.done);
        let (name, flags) = self.told(alloc, outcome)?;
        let stays = stays(self.made, life.can_run(self.common));
        Ok(TurnEnded {
            kept: Behavior {
                name: self.name,
                block: self.block,
                made: self.made,
                doer: self.doer,
                life,
            },
            showing: TurnShown {
                name,
                taken: self.taken,
                out: self.out,
                weight,
                active,
                outcome,
                flags,
            },
            stays,
        })
    }
}

// Whether a behaviour stays in the list: one that a letter made leaves it when it can't run again.
fn stays(made: bool, can_run: bool) -> bool
    ensures { result ≡ not (made && not can_run) }
{
    !made || can_run
}

// Whether a behaviour with this weight is active: its step gave a function, its weight is above 0, and no behaviour raised
// a fault.
fn is_active(out: &Out, weight: u32, fault: bool) -> bool
    ensures { result ≡ (is_some out.now.func && nat_lt 0 weight && not fault) }
{
    out.func.is_some() && weight > 0 && !fault
}

// The flags that an outcome raises, in order.
fn flags_at(alloc: Global, common: &Common, outcome: Outcome) -> Result<Batch, NoMemory>
    ensures { IfOk result (λ flags. flags ≡ flags_at common.now outcome) }
{
    let mut flags = Batch::new(alloc);
    raise_all(alloc, common, outcome, &mut flags)?;
    Ok(flags)
}

// Adds them to a list that is empty.
fn raise_all(
    alloc: Global,
    common: &Common,
    outcome: Outcome,
    flags: &mut Batch,
) -> Result<(), NoMemory>
    requires { flags.old ≡ [] }
    ensures { OnOk result (flags.new ≡ flags_at common.now outcome) }
{
    raise(alloc, outcome.inactive, &common.inactiveflags, flags)?;
    raise(alloc, outcome.idle, &common.idleflags, flags)?;
    raise(alloc, outcome.run, &common.runflags, flags)?;
    raise(alloc, outcome.active, &common.activeflags, flags)?;
    raise(alloc, outcome.ended, &common.endflags, flags)
}

// Adds flags, if they are raised.
fn raise(alloc: Global, is_raised: bool, pairs: &Batch, flags: &mut Batch) -> Result<(), NoMemory>
    ensures { OnOk result (flags.new ≡ flags.old ++ raised is_raised pairs.now) }
{
    if is_raised {
        add_pairs(alloc, flags, pairs.all())?;
    }
    Ok(())
}
