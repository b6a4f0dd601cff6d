// What the active behaviours decide together.
ghost use Rattle.std.specs.Prelude.{◌≡◌, ◌<◌, ◌≤◌, ◌++◌, codes, length, IfOk, IfSome, IsTrue, OnOk};
ghost use Rattle.std.specs.List.{All, filter_map};
ghost use Rattle.std.specs.Option.{option_to_list};
ghost use Rattle.moos_post.specs.Words.{IsMilli};
ghost use Rattle.ivp_domain.specs.Domains.{is_point};
ghost use Rattle.helm_core.specs.Decisions.{IsFitTerm, active_term, decision_made, number_on};
ghost use Rattle.helm_core.specs.Helms.{allstop_text};
ghost use Rattle.helm_core.specs.Posts.{desired, desired_speed};
ghost use Rattle.helm_core.specs.Standings.{IsFit};

use crate::allstop::{Allstop, some_active};
use crate::decided::Decided;
use crate::own_names::OwnNames;
use crate::posts::add_number;
use crate::showing::TurnShown;
use bhv_file::axis_named;
use ivp_cert::Decision;
use ivp_domain::{Domain, Point};
use ivp_problem::{Problem, Term};
use moos_io::Gate;
use moos_post::{Batch, Name, NoMemory};
use std::alloc::Global;
use std::sync::Wait;
use std::thread::Threads;

// The decision, or None exactly if no behaviour is active.
pub(crate) fn decision_made<R: Threads + Wait + Sync, G: Gate>(
    rt: &R,
    alloc: Global,
    domain: Domain,
    showings: Vec<TurnShown>,
    decided: &mut Decided,
    workers: u32,
    gate: &G,
) -> Result<Option<Decision>, NoMemory>
    requires some_worker { 1 ≤ workers }
    requires few_workers { workers ≤ 16 }
    requires few { length showings.items ≤ 64 }
    requires fit { All (IsFit domain) showings.items }
    ensures made { IfOk result (λ decision. decision ≡ decision_made domain showings.items) }
    ensures point { IfOk result (λ decision. IfSome decision (λ made. IsTrue (is_point made.problem.axes made.claim.point))) }
{
    if !some_active(showings.as_slice()) {
        return Ok(None);
    }
    let terms = active_terms(alloc, showings)?;
    let problem = problem_of(domain, terms);
    let decision = decided.decide(rt, alloc, problem, workers, gate)?;
    Ok(Some(decision))
}

// The functions of the active behaviours with their weights, in the order of the list.
fn active_terms(alloc: Global, showings: Vec<TurnShown>) -> Result<Vec<Term>, NoMemory>
    ensures { IfOk result (λ terms. terms.items ≡ filter_map active_term showings.items) }
{
    let mut terms = Vec::with_capacity(alloc, showings.len())?;
    for showing in showings {
        add_term(&mut terms, showing)?;
    }
    Ok(terms)
}

fn add_term(terms: &mut Vec<Term>, showing: TurnShown) -> Result<(), NoMemory>
    ensures { OnOk result (terms.new.items ≡ terms.old.items ++ option_to_list (active_term showing)) }
{
    let TurnShown {
        active,
        out,
        weight,
        ..
    } = showing;
    if !active {
        return Ok(());
    }
    if let Some(func) = out.func {
        terms.push(Term { weight, func })?;
    }
    Ok(())
}

// The problem that these terms make: none is refused.
fn problem_of(domain: Domain, terms: Vec<Term>) -> Problem
    requires some { 0 < length terms.items }
    requires few { length terms.items ≤ 64 }
    requires fit { All (IsFitTerm domain) terms.items }
    ensures { result ≡ record { axes = domain; terms = terms.items } }
{
    match Problem::make(domain, terms) {
        Ok(problem) => problem,
        Err(_) => unreachable!(),
    }
}

// Adds the decided course, if an active behaviour's function mentions it.
pub(crate) fn add_heading(
    alloc: Global,
    posts: &mut Batch,
    own: &OwnNames,
    mentioned: bool,
    decision: &Option<Decision>,
) -> Result<(), NoMemory>
    requires point { IfSome decision.now (λ made. IsTrue (is_point made.problem.axes made.claim.point)) }
    ensures { OnOk result (posts.new ≡ posts.old ++ desired (codes "DESIRED_HEADING") (codes "course") mentioned decision.now) }
{
    add_desired(alloc, posts, own.heading(), b"course", mentioned, decision)
}

// Adds the decided depth, if an active behaviour's function mentions it.
pub(crate) fn add_depth(
    alloc: Global,
    posts: &mut Batch,
    own: &OwnNames,
    mentioned: bool,
    decision: &Option<Decision>,
) -> Result<(), NoMemory>
    requires point { IfSome decision.now (λ made. IsTrue (is_point made.problem.axes made.claim.point)) }
    ensures { OnOk result (posts.new ≡ posts.old ++ desired (codes "DESIRED_DEPTH") (codes "depth") mentioned decision.now) }
{
    add_desired(alloc, posts, own.depth(), b"depth", mentioned, decision)
}

// Adds the speed: 0 if the vehicle must stop, else the decided one if it is mentioned.
pub(crate) fn add_speed(
    alloc: Global,
    posts: &mut Batch,
    own: &OwnNames,
    allstop: Allstop,
    mentioned: bool,
    decision: &Option<Decision>,
) -> Result<(), NoMemory>
    requires point { IfSome decision.now (λ made. IsTrue (is_point made.problem.axes made.claim.point)) }
    ensures { OnOk result (posts.new ≡ posts.old ++ desired_speed (allstop_text allstop) mentioned decision.now) }
{
    match allstop {
        Allstop::Clear => add_desired(alloc, posts, own.speed(), b"speed", mentioned, decision),
        _ => add_number(alloc, posts, own.speed(), 0),
    }
}

// Adds the decided number of an axis, if an active behaviour's function mentions it.
fn add_desired(
    alloc: Global,
    posts: &mut Batch,
    var: &Name,
    name: &[u8],
    mentioned: bool,
    decision: &Option<Decision>,
) -> Result<(), NoMemory>
    requires point { IfSome decision.now (λ made. IsTrue (is_point made.problem.axes made.claim.point)) }
    ensures { OnOk result (posts.new ≡ posts.old ++ desired var.now name.now mentioned decision.now) }
{
    match decision {
        Some(made) if mentioned => {
            let domain = made.problem.domain();
            let number = number_on(&domain, name, &made.claim.point);
            add_number(alloc, posts, var, number)
        },
        _ => Ok(()),
    }
}

// The number that a point has on the axis of this name, 0 if there is none.
fn number_on(domain: &Domain, name: &[u8], point: &Point) -> i64
    requires point { IsTrue (is_point domain.now point.now) }
    ensures number { result ≡ number_on domain.now name.now point.now }
    ensures within { IsMilli result }
{
    match axis_named(domain, name) {
        Some(place) => domain.value(place as u32, point.at[place]),
        None => 0,
    }
}
