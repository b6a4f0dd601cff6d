// The behaviour that keeps clear of a contact: made, weighed, copied, updated, stepped.
ghost use Rattle.std.specs.Prelude.{◌≡◌, ◌≤◌, ◌^◌, pos, false, true, if◌then◌else◌, Some, None, IfOk, IsTrue, OnErr};
ghost use Rattle.helm_cond.specs.Infos.{knowledge_of};
ghost use Rattle.helm_geo.specs.Plane.{is_spot};
ghost use Rattle.ivp_domain.specs.Domains.{is_point};
ghost use Rattle.bhv_file.specs.Updates.{updated};
ghost use Rattle.contact_avoid.specs.Avoids.{avoid_out, avoid_utility, CanServe, has_track, IsAvoid};

use crate::clearance::{clearance_at, clearance_function, track_in};
use bhv_file::{Avoidance, BhvFault, Out, Shape, Spec, position, updated};
use helm_cond::Info;
use helm_geo::Spot;
use ivp_domain::{Domain, Point};
use ivp_func::Func;
use moos_post::{Copied, NoMemory, Txt};
use std::alloc::Global;
use std::marker::Model;

/// A behaviour of the type `BHV_AvoidCollision`. It keeps its parameters alone, and contracts see these.
#[derive(Drop)]
pub struct Avoid {
    weight: u32,
    avoidance: Avoidance,
}

impl Model for Avoid {
    ghost use Rattle.bhv_file.specs.declared.spec.Shape.TheVariants.{AvoidCollision};
    ghost use Rattle.bhv_file.specs.declared.spec.Spec.{Spec};
    ghost use Rattle.contact_avoid.specs.Avoids.{IsAvoid};

    ghost Value = { Spec };

    ghost view = { λ avoid. record { weight = avoid.weight; shape = AvoidCollision avoid.avoidance } };

    ghost invariant = { λ avoid. IsAvoid (record { weight = avoid.weight; shape = AvoidCollision avoid.avoidance }) };
}

impl Avoid {
    /// A behaviour with these parameters.
    pub fn make(spec: Spec) -> Avoid
        requires { IsAvoid spec }
        ensures { result ≡ spec }
    {
        let Spec { weight, shape } = spec;
        match shape {
            Shape::AvoidCollision(avoidance) => Avoid { weight, avoidance },
            _ => unreachable!(),
        }
    }

    /// An equal one.
    pub fn copy(&self, alloc: Global) -> Result<Avoid, NoMemory>
        ensures { IfOk result (λ avoid. avoid ≡ self.now) }
    {
        let avoidance = self.avoidance.copy(alloc)?;
        Ok(Avoid {
            weight: self.weight,
            avoidance,
        })
    }

    /// Its weight beside the other behaviours, in thousandths: at most 10,000,000.
    pub fn weight(&self) -> u32
        ensures weight { result ≡ self.now.weight }
        ensures most { result ≤ 10 ^ 7 }
    {
        self.weight
    }

    // Its parameters.
    fn params(&self, alloc: Global) -> Result<Spec, NoMemory>
        ensures same { IfOk result (λ spec. spec ≡ self.now) }
        ensures is { IfOk result IsAvoid }
    {
        let avoidance = self.avoidance.copy(alloc)?;
        Ok(Spec {
            weight: self.weight,
            shape: Shape::AvoidCollision(avoidance),
        })
    }

    /// Takes an update over a domain: pairs of a parameter and its value with `#` between. False exactly if one of them
    /// isn't good or, after all of them, the far distance isn't above the near one or the boxes of the piece size are more
    /// than 4,096; then nothing changed, nor if no memory was left.
    pub fn update(&mut self, alloc: Global, domain: &Domain, text: &Txt) -> Result<bool, NoMemory>
        ensures good { IfOk result (λ good. updated domain.now self.old text.now ≡ (if good then Some self.new else None)) }
        ensures bad { IfOk result (λ good. good ≡ false → self.new ≡ self.old) }
        ensures same { OnErr result (self.new ≡ self.old) }
    {
        let before = self.params(alloc)?;
        let Some(after) = updated(alloc, domain, &before, text.bytes())? else {
            return Ok(false);
        };
        *self = Avoid::make(after);
        Ok(true)
    }

    /// Makes a step over a domain, by what is known. Nothing changes.
    pub fn step(
        &mut self,
        alloc: Global,
        domain: &Domain,
        info: &Info,
        _stamp: u64,
    ) -> Result<Out, NoMemory>
        requires { CanServe domain.now self.old }
        ensures out { IfOk result (λ out. out ≡ avoid_out domain.now self.old.shape (knowledge_of info.now)) }
        ensures same { self.new ≡ self.old }
    {
        if self.avoidance.resolved {
            return Ok(ends(true, None));
        }
        let Some(own) = position(info) else {
            return Ok(ends(false, Some(BhvFault::NoPosition)));
        };
        let Some(track) = track_in(&self.avoidance) else {
            return Ok(ends(false, None));
        };
        let func = clearance_function(alloc, domain, &self.avoidance, &own, &track)?;
        Ok(gives(func))
    }
}

// No function.
fn ends(done: bool, fault: Option<BhvFault>) -> Out
    ensures { result ≡ record { func = None; course = false; speed = false; depth = false; done = done; fault = fault } }
{
    Out {
        func: None,
        course: false,
        speed: false,
        depth: false,
        done,
        fault,
    }
}

// A function of course and speed.
fn gives(func: Func) -> Out
    ensures { result ≡ record { func = Some func; course = true; speed = true; depth = false; done = false; fault = None } }
{
    Out {
        func: Some(func),
        course: true,
        speed: true,
        depth: false,
        done: false,
        fault: None,
    }
}

/// The utility of a point, in thousandths of 0 to 100, if the own ship is here.
pub fn utility(avoid: &Avoid, domain: &Domain, own: &Spot, p: &Point) -> i64
    requires serves { CanServe domain.now avoid.now }
    requires track { IsTrue (has_track avoid.now.shape) }
    requires own { IsTrue (is_spot own.now) }
    requires point { IsTrue (is_point domain.now p.now) }
    ensures { result ≡ pos (avoid_utility domain.now avoid.now.shape own.now p.now) }
{
    match track_in(&avoid.avoidance) {
        Some(track) => clearance_at(domain, &avoid.avoidance, own, &track, p),
        None => unreachable!(),
    }
}
