// A weighted function of a problem, and why terms make none.
ghost use Rattle.std.specs.Prelude.{◌≡◌, IfOk, IsTrue};

use ivp_func::Func;
use std::alloc::AllocError;

/// A function with its weight, in thousandths, from 1 to 10,000,000 in a problem.
#[derive(Debug, Drop)]
pub struct Term {
    pub weight: u32,
    pub func: Func,
}

impl Term {
    /// An equal one, which shares the function's pieces and grid.
    pub(crate) fn share(&self) -> Result<Term, AllocError>
        ensures { IfOk result (λ term. term ≡ self.now) }
    {
        let func = self.func.share()?;
        Ok(Term {
            weight: self.weight,
            func,
        })
    }

    /// Whether the other one, over the same domain, is the same. Only one of the same weight and pieces passes.
    pub(crate) fn is_same(&self, other: &Term) -> bool
        ensures { IsTrue result → self.now.func.axes ≡ other.now.func.axes → self.now ≡ other.now }
    {
        self.weight == other.weight && self.func.has_pieces_of(&other.func)
    }
}

/// Why terms make no problem. A place is the number of a term, from 0.
#[derive(Clone, Copy, Debug, PartialEq, Eq)]
pub enum ProblemFault {
    NoFunction,
    TooMany,
    BadWeight(u32),
    OtherDomain(u32),
}
