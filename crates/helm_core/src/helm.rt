// The helm: made of a mission and a behaviour file, it hears a mail and makes an iteration.
ghost use Rattle.std.specs.Prelude.{◌≡◌, ◌≤◌, ◌++◌, [], codes, fold, length, IfOk, IfSome, OnErr, OnOk, IsTrue, option_copied, option_map, unwrap_or};
ghost use Rattle.std.specs.List.{All, flat_map};
ghost use Rattle.bhv_file.specs.Validity.{IsValidFile, serves};
ghost use Rattle.mission_reader.specs.Validity.{IsValidMission};
ghost use Rattle.ivp_domain.specs.Domains.{is_point};
ghost use Rattle.helm_core.specs.Plans.{block_names, decl_names, plan_made, wants_of, with_wanted};
ghost use Rattle.helm_core.specs.Iterations.{all_faults, all_states, all_updates};
ghost use Rattle.helm_core.specs.Posts.{allstop_by, changed, desired, desired_speed};
ghost use Rattle.helm_core.specs.Standings.{AreFew, IsFit, IsFitKept};
ghost use Rattle.helm_core.specs.Helms.{allstop_text, clock_of, plan_of, HasLearnt, IsHelmView, IsTicked, StandsFor};
ghost use Rattle.helm_core.specs.Kept.{first_posts, IsIterationOfTurns, helm_after, iteration_by, said_before};
ghost use Rattle.helm_core.specs.Ticks.{pairs_mailed};

use crate::allstop::{Allstop, mentions_course, mentions_depth, mentions_speed};
use crate::behavior::Behavior;
use crate::behavior_list::BehaviorList;
use crate::decided::Decided;
use crate::decision::{add_depth, add_heading, add_speed, decision_made};
use crate::helm_view::HelmView;
use crate::iteration::{Faults, Iteration, States, Updates};
use crate::own_names::OwnNames;
use crate::posts::add_changed;
use crate::showing::TurnShown;
use crate::telling::{add_flags, told_of};
use crate::turned::TurnsEnded;
use crate::wanted::Wanted;
use bhv_file::BhvFile;
use ivp_cert::Decision;
use mission_reader::Mission;
use mode_tree::ModeTree;
use moos_db::{Letter, Mail};
use moos_io::Gate;
use moos_post::{Batch, Copied, NoMemory, Regs, Txt};
use std::alloc::Global;
use std::mem;
use std::sync::Wait;
use std::thread::Threads;

/// The helm: what it was made of, and what it keeps of the mails that it has heard. Contracts see the mails: it stands for
/// a list of them, each with the stamp of the iteration that heard it.
#[derive(Drop)]
pub struct Helm {
    own: Box<OwnNames>,
    opening: Batch,
    modes: ModeTree,
    behavior_list: BehaviorList,
    helm_view: HelmView,
    // Why the vehicle had to stop in the last iteration, if it had to, or None before the first.
    allstop: Option<Allstop>,
    // When the last iteration was, in milliseconds, or 0 before the first.
    clock: u64,
    decided: Decided,
}

// The names that the helm itself posts, and what it makes of no letters.
fn names_and_view(alloc: Global, modes: &ModeTree) -> Result<(Box<OwnNames>, HelmView), NoMemory>
    ensures { IfOk result (λ parts. IsHelmView modes.now [] parts.1) }
{
    let own = OwnNames::boxed(alloc)?;
    let helm_view = HelmView::blank(alloc, modes)?;
    Ok((own, helm_view))
}

// What an iteration tells before it decides: its parts but for the decision, with the posts so far.
#[derive(Drop)]
struct Told {
    mode: Txt,
    updates: Updates,
    states: States,
    faults: Faults,
    posts: Batch,
}

impl Helm {
    /// The helm of a mission and its behaviour file, which has heard nothing. The mission's domain has the axes that the
    /// behaviours need. NoMemory is answered only if memory is missing.
    pub fn make(alloc: Global, mission: &Mission, file: BhvFile) -> Result<Helm, NoMemory>
        requires mission { IsValidMission mission.now }
        requires file { IsValidFile file }
        requires served { IsTrue (serves mission.now.domain file.blocks) }
        ensures plan { IfOk result (λ helm. plan_of helm ≡ plan_made mission.now file) }
        ensures stands { IfOk result (λ helm. StandsFor helm []) }
    {
        let BhvFile {
            opening,
            decls,
            blocks,
            ..
        } = file;
        let modes = ModeTree::make(decls);
        let behavior_list = BehaviorList::make(alloc, mission.domain, blocks)?;
        let (own, helm_view) = names_and_view(alloc, &modes)?;
        Ok(Helm {
            own,
            opening,
            modes,
            behavior_list,
            helm_view,
            allstop: None,
            clock: 0,
            decided: Decided::nothing(),
        })
    }

    /// What the helm registers for, each variable once: the override in both spellings, the position (NAV_X, NAV_Y and
    /// NAV_DEPTH), the variables of the modes' conditions, and of each behaviour those of its conditions and the one of its
    /// updates. MODE is never among them, as it is the helm's own. NoMemory is answered only if memory is missing.
    pub fn wants(&self, alloc: Global) -> Result<Regs, NoMemory>
        ensures { IfOk result (λ regs. regs ≡ wants_of (plan_of self.now)) }
    {
        let mut wanted = Wanted::always(alloc)?;
        self.want_all(alloc, &mut wanted)?;
        wanted.regs(alloc)
    }

    // Those of the modes and of the behaviours too.
    fn want_all(&self, alloc: Global, wanted: &mut Wanted) -> Result<(), NoMemory>
        ensures { OnOk result (wanted.new ≡ fold with_wanted wanted.old (flat_map decl_names self.now.modes ++ flat_map block_names self.now.behavior_list.blocks)) }
    {
        for decl in self.modes.decls() {
            wanted.want_decl(alloc, decl)?;
        }
        for block in self.behavior_list.blocks() {
            wanted.want_block(alloc, block)?;
        }
        Ok(())
    }

    /// The pairs that the helm posts before its first iteration. NoMemory is answered only if memory is missing.
    pub fn opening(&self, alloc: Global) -> Result<Batch, NoMemory>
        ensures { IfOk result (λ pairs. pairs ≡ (plan_of self.now).opening) }
    {
        self.opening.copy(alloc)
    }

    /// One iteration at a stamp, in milliseconds, that isn't before the last one's: the helm learns the mail, sees whether
    /// it is parked, finds its mode, updates its behaviours, steps those that run, decides by the functions of the active
    /// ones, and lists what it posts. It has 1 to 16 workers for what it solves. If no memory is left the helm has
    /// heard what it had heard before.
    pub fn tick<R: Threads + Wait + Sync, G: Gate>(
        &mut self,
        rt: &R,
        alloc: Global,
        stamp: u64,
        mail: &Mail,
        workers: u32,
        gate: &G,
    ) -> Result<Iteration, NoMemory>
        requires stamp { clock_of self.old ≤ stamp }
        requires some_worker { 1 ≤ workers }
        requires few_workers { workers ≤ 16 }
        ensures same { OnErr result (self.new ≡ self.old) }
        ensures ticked { IfOk result (IsTicked self.old self.new stamp mail.now) }
    {
        let fresh = self.helm_view_after(alloc, mail.all())?;
        // If memory is missing it is let go, which gives some back.
        let mut decided = mem::replace(&mut self.decided, Decided::nothing());
        let now = self.now(&fresh);
        let (iteration, kept, allstop) = self.iterate(
            rt,
            alloc,
            stamp,
            mail.all(),
            now,
            &mut decided,
            workers,
            gate,
        )?;
        self.end(stamp, fresh, kept, allstop, decided);
        Ok(iteration)
    }

    // The turns of the behaviours at this view: the iteration that they come to, what is kept of them, and why the vehicle
    // has to stop.
    fn iterate<R: Threads + Wait + Sync, G: Gate>(
        &self,
        rt: &R,
        alloc: Global,
        stamp: u64,
        letters: &[Letter],
        now: &HelmView,
        decided: &mut Decided,
        workers: u32,
        gate: &G,
    ) -> Result<(Iteration, Vec<Behavior>, Allstop), NoMemory>
        requires some_worker { 1 ≤ workers }
        requires few_workers { workers ≤ 16 }
        ensures iterated { IfOk result (λ made. IsIterationOfTurns self.now stamp (pairs_mailed letters.now) now.now made.0 made.1.items made.2) }
        ensures few { IfOk result (λ made. AreFew self.now.behavior_list.blocks (length made.1.items)) }
        ensures fit { IfOk result (λ made. All (IsFitKept self.now.behavior_list.axes self.now.behavior_list.blocks) made.1.items) }
    {
        let (answers, turned) = self.behavior_list.turned(alloc, stamp, letters, now)?;
        let TurnsEnded { kept, showings } = turned;
        let allstop = Allstop::of(
            &self.behavior_list.domain(),
            now.parked,
            showings.as_slice(),
        );
        let iteration = self.iteration(
            rt, alloc, stamp, now, answers, showings, allstop, decided, workers, gate,
        )?;
        Ok((iteration, kept, allstop))
    }

    // What the helm makes of these letters too, or None if there is none and all stays as it is.
    fn helm_view_after(
        &self,
        alloc: Global,
        letters: &[Letter],
    ) -> Result<Option<HelmView>, NoMemory>
        ensures { IfOk result (λ fresh. HasLearnt self.now.modes letters.now self.now.helm_view (unwrap_or fresh self.now.helm_view)) }
    {
        if letters.len() == 0 {
            return Ok(None);
        }
        let helm_view = self.helm_view.with(alloc, &self.modes, letters)?;
        Ok(Some(helm_view))
    }

    // The view of this iteration.
    fn now<'a>(&'a self, fresh: &'a Option<HelmView>) -> &'a HelmView
        ensures { result.now ≡ unwrap_or fresh.now self.now.helm_view }
    {
        match fresh {
            Some(helm_view) => helm_view,
            None => &self.helm_view,
        }
    }

    // Keeps what the next iteration asks of this one.
    fn end(
        &mut self,
        stamp: u64,
        fresh: Option<HelmView>,
        kept: Vec<Behavior>,
        allstop: Allstop,
        decided: Decided,
    )
        requires few { AreFew self.old.behavior_list.blocks (length kept.items) }
        requires fit { All (IsFitKept self.old.behavior_list.axes self.old.behavior_list.blocks) kept.items }
        ensures { self.new ≡ helm_after self.old stamp (unwrap_or fresh self.old.helm_view) kept.items allstop }
    {
        self.behavior_list.go_on(kept);
        if let Some(helm_view) = fresh {
            self.helm_view = helm_view;
        }
        self.allstop = Some(allstop);
        self.clock = stamp;
        self.decided = decided;
    }

    // The iteration at this view, if these are the answers to letters to templates and it says this of the behaviours.
    fn iteration<R: Threads + Wait + Sync, G: Gate>(
        &self,
        rt: &R,
        alloc: Global,
        stamp: u64,
        now: &HelmView,
        answers: Updates,
        showings: Vec<TurnShown>,
        allstop: Allstop,
        decided: &mut Decided,
        workers: u32,
        gate: &G,
    ) -> Result<Iteration, NoMemory>
        requires some_worker { 1 ≤ workers }
        requires few_workers { workers ≤ 16 }
        requires few { length showings.items ≤ 64 }
        requires fit { All (IsFit self.now.behavior_list.axes) showings.items }
        requires allstop { allstop_text allstop ≡ allstop_by self.now.behavior_list.axes now.now.parked showings.items }
        ensures { IfOk result (λ iteration. iteration ≡ iteration_by self.now stamp now.now answers showings.items) }
    {
        let all = showings.as_slice();
        let mut told = self.told(alloc, now, answers, all)?;
        let (course, speed, depth) = (
            mentions_course(all),
            mentions_speed(all),
            mentions_depth(all),
        );
        let domain = self.behavior_list.domain();
        let decision = decision_made(rt, alloc, domain, showings, decided, workers, gate)?;
        self.add_decided(
            alloc,
            &mut told.posts,
            allstop,
            course,
            speed,
            depth,
            &decision,
        )?;
        Ok(Iteration {
            stamp,
            parked: now.parked,
            mode: told.mode,
            updates: told.updates,
            states: told.states,
            faults: told.faults,
            decision,
            posts: told.posts,
        })
    }

    // What the iteration tells before it decides.
    fn told(
        &self,
        alloc: Global,
        now: &HelmView,
        answers: Updates,
        showings: &[TurnShown],
    ) -> Result<Told, NoMemory>
        ensures mode { IfOk result (λ told. told.mode ≡ now.now.mode) }
        ensures updates { IfOk result (λ told. told.updates ≡ all_updates self.now.behavior_list.blocks answers showings.now) }
        ensures states { IfOk result (λ told. told.states ≡ all_states showings.now) }
        ensures faults { IfOk result (λ told. told.faults ≡ all_faults showings.now) }
        ensures posts { IfOk result (λ told. told.posts ≡ first_posts self.now now.now showings.now) }
    {
        let mode = now.mode.copy(alloc)?;
        let posts = self.first_posts(alloc, now, showings)?;
        let blocks = self.behavior_list.blocks();
        let (updates, states, faults) = told_of(alloc, blocks, answers, showings)?;
        Ok(Told {
            mode,
            updates,
            states,
            faults,
            posts,
        })
    }

    // Adds the numbers that are decided on, if functions mention them, and the reason to stop, if it changed.
    fn add_decided(
        &self,
        alloc: Global,
        posts: &mut Batch,
        allstop: Allstop,
        course: bool,
        speed: bool,
        depth: bool,
        decision: &Option<Decision>,
    ) -> Result<(), NoMemory>
        requires point { IfSome decision.now (λ made. IsTrue (is_point made.problem.axes made.claim.point)) }
        ensures { OnOk result (posts.new ≡ posts.old ++ desired (codes "DESIRED_HEADING") (codes "course") course decision.now ++ desired_speed (allstop_text allstop) speed decision.now ++ desired (codes "DESIRED_DEPTH") (codes "depth") depth decision.now ++ changed (codes "IVPHELM_ALLSTOP") (option_map allstop_text self.now.allstop) (allstop_text allstop)) }
    {
        let own = &self.own;
        add_heading(alloc, posts, own, course, decision)?;
        add_speed(alloc, posts, own, allstop, speed, decision)?;
        add_depth(alloc, posts, own, depth, decision)?;
        let before = self.last_allstop();
        add_changed(alloc, posts, own.allstop(), before, allstop.text())
    }

    // What is posted before the numbers that are decided on.
    fn first_posts(
        &self,
        alloc: Global,
        now: &HelmView,
        showings: &[TurnShown],
    ) -> Result<Batch, NoMemory>
        ensures { IfOk result (λ posts. posts ≡ first_posts self.now now.now showings.now) }
    {
        let state = self.said(self.helm_view.state());
        let mode = self.said(self.helm_view.mode.bytes());
        let mut posts = Batch::new(alloc);
        let own = &self.own;
        add_changed(alloc, &mut posts, own.state(), state, now.state())?;
        if self.modes.decls().len() > 0 {
            add_changed(alloc, &mut posts, own.mode(), mode, now.mode.bytes())?;
        }
        add_flags(alloc, &mut posts, showings)?;
        Ok(posts)
    }

    // A text of the last iteration, if there was one.
    fn said<'a>(&self, text: &'a [u8]) -> Option<&'a [u8]>
        ensures { option_copied result ≡ said_before self.now text.now }
    {
        if self.allstop.is_some() {
            Some(text)
        } else {
            None
        }
    }

    // Why the vehicle had to stop in the last iteration, if there was one.
    fn last_allstop(&self) -> Option<&[u8]>
        ensures { option_copied result ≡ option_map allstop_text self.now.allstop }
    {
        match &self.allstop {
            Some(allstop) => Some(allstop.text()),
            None => None,
        }
    }
}
