// A problem: a domain and weighted functions over it.
ghost use Rattle.std.specs.Prelude.{◌≡◌, ℕ, ◌+◌, ◌*◌, ◌^◌, ◌<◌, ◌≤◌, List, length, Some, IsTrue, IfNone, IfOk, IfSome, slice_get, drop};
ghost use Rattle.std.specs.List.{sum_by};
ghost use Rattle.ivp_domain.specs.declared.axis.Axis.{Axis};
ghost use Rattle.ivp_domain.specs.Domains.{is_point};
ghost use Rattle.ivp_func.specs.Functions.{IsFunction};
ghost use Rattle.ivp_problem.specs.Problems.{AreOver, bad_weight, IsProblem, is_weight, other_domain, problem_from, same_domain};
ghost use Rattle.ivp_problem.specs.Sums.{sum_at, weighted_at};
ghost use Rattle.ivp_problem.specs.Trees.{AreTops, top_of};

use crate::same::same_domain;
use crate::term::{ProblemFault, Term};
use ivp_domain::{Domain, Point, Steps};
use ivp_func::{Func, func_law};
use std::alloc::{AllocError, Global};
use std::marker::{Brand, Model};
use std::sync::ledger::{Blank, Ledger};

/// The most functions that a problem may have.
pub const MOST_FUNCTIONS: usize = 64;

/// The greatest weight, in thousandths.
pub const MOST_WEIGHT: u32 = 10_000_000;

/// A problem: what is maximized over a domain is the weighted sum of 1 to 64 functions.
#[derive(Debug, Drop)]
pub struct Problem {
    domain: Domain,
    terms: Vec<Term>,
    /// The sums of the weighted tops from each number on, so that no bound adds them up anew.
    tops: [u64; MOST_FUNCTIONS + 1],
}

impl Model for Problem {
    ghost use Rattle.ivp_problem.specs.Problems.{IsProblem, WeightedSum};
    ghost use Rattle.ivp_problem.specs.Trees.{AreTops};

    ghost Value = { WeightedSum };

    ghost view = { λ p. record { axes = p.domain; terms = p.terms.items } };

    ghost invariant = { λ p. IsProblem (record { axes = p.domain; terms = p.terms.items }) × AreTops p.terms.items p.tops };
}

/// From 1 to 10,000,000 thousandths.
fn good_weight(weight: u32) -> bool
    ensures { result ≡ is_weight weight }
{
    1 <= weight && weight <= MOST_WEIGHT
}

/// The place of the first term whose weight is out of range.
fn bad_weight(terms: &[Term]) -> Option<usize>
    ensures { result ≡ bad_weight terms.now }
{
    terms.iter().position(|term| !good_weight(term.weight))
}

/// Whether the function is over the domain. Either way it is a function.
fn is_over(domain: &Domain, func: &Func) -> bool
    ensures same { result ≡ same_domain domain.now func.now.axes }
    ensures function { IsFunction func.now }
{
    func_law(func);
    same_domain(domain, &func.domain())
}

/// The place of the first term whose function is over another domain.
fn other_domain(domain: &Domain, terms: &[Term]) -> Option<usize>
    ensures place { result ≡ other_domain domain.now terms.now }
    ensures none { IfNone result ((place : ℕ) (term : Term) → slice_get terms.now place ≡ Some term → IsFunction term.func) }
{
    for (place, term) in terms.iter().enumerate() {
        if !is_over(domain, &term.func) {
            return Some(place);
        }
    }
    None
}

/// What a term adds at a point: its weight times the value.
fn weighted_value<L: Ledger>(term: &Term, p: &Point, steps: &mut Steps<L>) -> u64
    requires point { IsTrue (is_point term.now.func.axes p.now) }
    requires weight { IsTrue (is_weight term.now.weight) }
    ensures value { result ≡ weighted_at p.now term.now }
    ensures range { result ≤ 10 ^ 12 }
{
    let value = term.func.value_at(p, steps);
    term.weight as u64 * value as u64
}

/// The weighted top of a term: its weight times the greatest value.
fn top(term: &Term) -> u64
    requires weight { IsTrue (is_weight term.now.weight) }
    requires function { IsFunction term.now.func }
    ensures top { result ≡ top_of term.now.func.axes term.now }
    ensures range { result ≤ 10 ^ 12 }
{
    let value = term.func.top();
    term.weight as u64 * value as u64
}

/// The sums of the weighted tops of the terms from each number on.
fn tops_of(terms: &[Term]) -> [u64; MOST_FUNCTIONS + 1]
    requires few { length terms.now ≤ 64 }
    requires terms { (place : ℕ) (term : Term) → slice_get terms.now place ≡ Some term → IsTrue (is_weight term.weight) × IsFunction term.func }
    ensures { AreTops terms.now result }
{
    let mut tops = [0; MOST_FUNCTIONS + 1];
    for place in (0..terms.len()).rev() {
        tops[place] = tops[place + 1] + top(&terms[place]);
    }
    tops
}

/// Equal ones of these terms.
fn shared_terms(alloc: Global, terms: &[Term]) -> Result<Vec<Term>, AllocError>
    ensures { IfOk result (λ shared. shared.items ≡ terms.now) }
{
    let mut shared = Vec::with_capacity(alloc, terms.len())?;
    for term in terms {
        shared.push(term.share()?)?;
    }
    Ok(shared)
}

/// Whether the terms, over one domain, are the same.
fn are_same(a: &[Term], b: &[Term]) -> bool
    ensures { IsTrue result → (axes : List Axis) → AreOver axes a.now → AreOver axes b.now → a.now ≡ b.now }
{
    if a.len() != b.len() {
        return false;
    }
    for place in 0..a.len() {
        if !a[place].is_same(&b[place]) {
            return false;
        }
    }
    true
}

/// What holds of every problem. It does nothing.
pub fn problem_law(problem: &Problem)
    ensures { IsProblem problem.now }
{
    let _ = problem.terms.len();
}

impl Problem {
    /// The problem of these terms over the domain, or the first refusal: `NoFunction` if there is
    /// none; `TooMany` above 64; `BadWeight` at the first weight outside 1 to 10,000,000; `OtherDomain`
    /// at the first function over another domain. No memory is taken.
    pub fn make(domain: Domain, terms: Vec<Term>) -> Result<Problem, ProblemFault>
        ensures { result ≡ problem_from domain terms.items }
    {
        if terms.len() == 0 {
            return Err(ProblemFault::NoFunction);
        }
        if terms.len() > MOST_FUNCTIONS {
            return Err(ProblemFault::TooMany);
        }
        if let Some(place) = bad_weight(&terms) {
            return Err(ProblemFault::BadWeight(place as u32));
        }
        if let Some(place) = other_domain(&domain, &terms) {
            return Err(ProblemFault::OtherDomain(place as u32));
        }
        let tops = tops_of(&terms);
        Ok(Problem {
            domain,
            terms,
            tops,
        })
    }

    /// An equal one, whose functions share their pieces and their grids with those of this one.
    pub fn copy(&self, alloc: Global) -> Result<Problem, AllocError>
        ensures { IfOk result (λ problem. problem ≡ self.now) }
    {
        let terms = shared_terms(alloc, self.terms.as_slice())?;
        Ok(Problem {
            domain: self.domain,
            terms,
            tops: self.tops,
        })
    }

    /// Whether the other one is the same. Only a problem over the same domain, with the same weights and the same pieces of
    /// functions, all in the same order, passes.
    pub fn is_same(&self, other: &Problem) -> bool
        ensures { IsTrue result → self.now ≡ other.now }
    {
        if !same_domain(&self.domain, &other.domain) {
            return false;
        }
        are_same(self.terms.as_slice(), other.terms.as_slice())
    }

    /// The domain.
    pub fn domain(&self) -> Domain
        ensures { result ≡ self.now.axes }
    {
        self.domain
    }

    /// The domain, lent.
    pub(crate) fn lent_domain(&self) -> &Domain
        ensures { result.now ≡ self.now.axes }
    {
        &self.domain
    }

    /// How many functions there are.
    pub fn len(&self) -> u32
        ensures len { result ≡ length self.now.terms }
        ensures problem { IsProblem self.now }
    {
        self.terms.len() as u32
    }

    /// The weight of a function by its number, from 0.
    pub fn weight(&self, i: u32) -> u32
        requires { i < length self.now.terms }
        ensures weight { IfSome (slice_get self.now.terms i) (λ term. result ≡ term.weight) }
        ensures range { IsTrue (is_weight result) }
    {
        self.terms[i as usize].weight
    }

    /// A function by its number, from 0.
    pub fn func(&self, i: u32) -> &Func
        requires { i < length self.now.terms }
        ensures func { IfSome (slice_get self.now.terms i) (λ term. result.now ≡ term.func) }
        ensures function { IsFunction result.now }
        ensures domain { result.now.axes ≡ self.now.axes }
    {
        &self.terms[i as usize].func
    }

    /// The weighted sum at a point, with its values counted by a ledger of its own.
    fn sum_with<L: Ledger>(&self, p: &Point, blank: Blank) -> u64
        requires point { IsTrue (is_point self.now.axes p.now) }
        requires name { blank.name ≡ L.name }
        requires parts { blank.parts ≡ L.parts }
        requires some { 0 < blank.parts }
        ensures sum { result ≡ sum_at self.now p.now }
        ensures range { result ≤ 64 * 10 ^ 12 }
    {
        let mut steps = Steps::<L>::new(blank);
        let mut sum = 0;
        for term in &self.terms {
            sum += weighted_value(term, p, &mut steps);
        }
        sum
    }

    /// The sum of weight times value at a point of the domain. It counts one step: the values that
    /// it looks up are counted apart, by a counter of its own.
    pub fn sum_at<L: Ledger>(&self, p: &Point, steps: &mut Steps<L>) -> u64
        requires { IsTrue (is_point self.now.axes p.now) }
        ensures sum { result ≡ sum_at self.now p.now }
        ensures range { result ≤ 64 * 10 ^ 12 }
        ensures counted { steps.new ≡ steps.old + 1 }
    {
        steps.tick();
        self.sum_with::<Brand>(p, Blank::new(1))
    }

    /// The sum of the weighted tops of the functions from this number on.
    pub(crate) fn tops_from(&self, from: u32) -> u64
        requires { from ≤ length self.now.terms }
        ensures { result ≡ sum_by (top_of self.now.axes) (drop from self.now.terms) }
    {
        self.tops[from as usize]
    }
}
