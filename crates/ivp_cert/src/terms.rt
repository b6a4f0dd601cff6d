// The functions of a problem that were read so far.
ghost use Rattle.std.specs.Prelude.{◌≡◌, ◌<◌, [], ◌∷◌, ◌++◌, length, IsTrue, OnOk};
ghost use Rattle.ivp_problem.specs.Problems.{is_weight};

use ivp_domain::Domain;
use ivp_problem::{Problem, Term};
use std::alloc::{AllocError, Global};
use std::marker::Model;

/// The finished functions of a problem that is being read, over its domain.
#[derive(Drop)]
pub struct Terms {
    domain: Domain,
    terms: Vec<Term>,
}

impl Model for Terms {
    ghost use Rattle.std.specs.Prelude.{◌≡◌, ◌≤◌, length, true};
    ghost use Rattle.std.specs.List.{list_all};
    ghost use Rattle.ivp_problem.specs.Problems.{is_weight, same_domain, WeightedSum};

    ghost Value = { WeightedSum };

    ghost view = { λ t. record { axes = t.domain; terms = t.terms.items } };

    ghost invariant = { λ t.
        (length t.terms.items ≤ 64)
        × (list_all (λ term. is_weight term.weight) t.terms.items ≡ true)
        × (list_all (λ term. same_domain t.domain term.func.axes) t.terms.items ≡ true) };
}

impl Terms {
    /// No function yet over this domain.
    pub fn new(alloc: Global, domain: Domain) -> Terms
        ensures { result ≡ record { axes = domain; terms = [] } }
    {
        Terms {
            domain,
            terms: Vec::new(alloc),
        }
    }

    /// How many functions there are.
    pub fn len(&self) -> usize
        ensures { result ≡ length self.now.terms }
    {
        self.terms.len()
    }

    /// The domain.
    pub fn domain(&self) -> &Domain
        ensures { result.now ≡ self.now.axes }
    {
        &self.domain
    }

    /// One function more.
    pub fn push(&mut self, term: Term) -> Result<(), AllocError>
        requires few { length self.old.terms < 64 }
        requires weight { IsTrue (is_weight term.weight) }
        requires domain { term.func.axes ≡ self.old.axes }
        ensures { OnOk result (self.new ≡ record { axes = self.old.axes; terms = self.old.terms ++ term ∷ [] }) }
    {
        self.terms.push(term)?;
        Ok(())
    }

    /// The problem that the functions make.
    pub fn into_problem(self) -> Problem
        requires { 0 < length self.terms }
        ensures { result ≡ self }
    {
        match Problem::make(self.domain, self.terms) {
            Ok(problem) => problem,
            Err(_) => unreachable!(),
        }
    }
}
