// The function of a want: made anew, or kept from the step before.
ghost use Rattle.std.specs.Prelude.{◌≡◌, IfOk, IfSome, IsTrue};
ghost use Rattle.bhv_kinds.specs.Utilities.{function_of};
ghost use Rattle.bhv_kinds.specs.Wants.{CanMake, IsMade, utility_of};

use crate::steady::{at_most_deep, peak_on};
use crate::steering::{hold, travel};
use crate::want::Want;
use ivp_build::Peak;
use ivp_domain::{Axis, Domain};
use ivp_func::Func;
use moos_post::NoMemory;
use std::alloc::Global;
use std::marker::Model;

/// A function, and what it was made of.
#[derive(Drop)]
pub struct Made {
    pub want: Want,
    pub func: Func,
}

/// The function that was made last, if any is kept. It only saves the making of it: contracts don't see which one it is.
#[derive(Drop)]
pub struct KeptFunction {
    last: Option<Made>,
}

impl Model for KeptFunction {
    ghost use Rattle.std.specs.Prelude.{IfSome};
    ghost use Rattle.bhv_kinds.specs.Wants.{IsMade};

    ghost Value = { Unit {0} };

    ghost view = { λ _. tt };

    ghost invariant = { λ kept. IfSome kept.last IsMade };
}

impl KeptFunction {
    /// No function is kept.
    pub fn nothing() -> KeptFunction {
        KeptFunction { last: None }
    }

    /// The same function.
    pub fn copy(&self) -> KeptFunction {
        let last = match &self.last {
            Some(made) => keep(&made.want, &made.func),
            None => None,
        };
        KeptFunction { last }
    }

    /// The function of a want over a domain: the kept one, if it was made of the same, or else a new one, which is kept
    /// from now on.
    pub fn function(
        &mut self,
        alloc: Global,
        domain: &Domain,
        want: &Want,
    ) -> Result<Func, NoMemory>
        requires { CanMake domain.now want.now }
        ensures { IfOk result (λ func. func ≡ function_of domain.now (utility_of want.now)) }
    {
        if let Some(func) = self.find(domain, want) {
            return Ok(func);
        }
        let func = make(alloc, domain, want)?;
        self.last = keep(want, &func);
        Ok(func)
    }

    // The kept function, if it is that of this want over this domain.
    fn find(&self, domain: &Domain, want: &Want) -> Option<Func>
        ensures { IfSome result (λ func. func ≡ function_of domain.now (utility_of want.now)) }
    {
        match &self.last {
            Some(made) if is_of(made, domain, want) => made.func.share().ok(),
            _ => None,
        }
    }
}

// Keeps a function, and none if it is shared too often already.
fn keep(want: &Want, func: &Func) -> Option<Made>
    requires { func.now ≡ function_of func.now.axes (utility_of want.now) }
    ensures { IfSome result IsMade }
{
    match func.share() {
        Ok(func) => Some(Made { want: *want, func }),
        Err(_) => None,
    }
}

// The function of a want, made anew.
fn make(alloc: Global, domain: &Domain, want: &Want) -> Result<Func, NoMemory>
    requires { CanMake domain.now want.now }
    ensures { IfOk result (λ func. func ≡ function_of domain.now (utility_of want.now)) }
{
    match want {
        Want::OnCourse(peak) => {
            let func = peak_on(alloc, domain, b"course", peak)?;
            Ok(func)
        },
        Want::OnSpeed(peak) => {
            let func = peak_on(alloc, domain, b"speed", peak)?;
            Ok(func)
        },
        Want::OnDepth(peak) => {
            let func = peak_on(alloc, domain, b"depth", peak)?;
            Ok(func)
        },
        Want::AtMostDeep { limit, basewidth } => {
            let func = at_most_deep(alloc, domain, *limit, *basewidth)?;
            Ok(func)
        },
        Want::Travel { degree, speed } => {
            let func = travel(alloc, domain, *degree, *speed)?;
            Ok(func)
        },
        Want::Stay => {
            let func = hold(alloc, domain)?;
            Ok(func)
        },
    }
}

// Whether a function was made of this want over this domain.
fn is_of(made: &Made, domain: &Domain, want: &Want) -> bool
    ensures want { IsTrue result → made.now.want ≡ want.now }
    ensures domain { IsTrue result → made.now.func.axes ≡ domain.now }
{
    same_want(&made.want, want) && same_axes(made.func.domain().all(), domain.all())
}

// Only wants that are the same in all pass.
fn same_want(a: &Want, b: &Want) -> bool
    ensures { IsTrue result → a.now ≡ b.now }
{
    match (a, b) {
        (Want::OnCourse(p), Want::OnCourse(q)) => same_peak(p, q),
        (Want::OnSpeed(p), Want::OnSpeed(q)) => same_peak(p, q),
        (Want::OnDepth(p), Want::OnDepth(q)) => same_peak(p, q),
        (
            Want::AtMostDeep { limit, basewidth },
            Want::AtMostDeep {
                limit: other,
                basewidth: width,
            },
        ) => limit == other && basewidth == width,
        (
            Want::Travel { degree, speed },
            Want::Travel {
                degree: other,
                speed: fast,
            },
        ) => degree == other && speed == fast,
        (Want::Stay, Want::Stay) => true,
        _ => false,
    }
}

fn same_peak(a: &Peak, b: &Peak) -> bool
    ensures { IsTrue result → a.now ≡ b.now }
{
    a.summit == b.summit
        && a.peakwidth == b.peakwidth
        && a.basewidth == b.basewidth
        && a.summitdelta == b.summitdelta
        && a.max == b.max
}

// Only axes that are the same in all pass.
fn same_axes(a: &[Axis], b: &[Axis]) -> bool
    ensures { IsTrue result → a.now ≡ b.now }
{
    match (a, b) {
        ([], []) => true,
        ([x, xs @ ..], [y, ys @ ..]) => same_axis(x, y) && same_axes(xs, ys),
        _ => false,
    }
}

fn same_axis(a: &Axis, b: &Axis) -> bool
    ensures { IsTrue result → a.now ≡ b.now }
{
    a.name.bytes() == b.name.bytes() && a.low == b.low && a.high == b.high && a.points == b.points
}
