// What a behaviour of the list runs, of whichever type.
ghost use Rattle.std.specs.Prelude.{◌≡◌, ◌≤◌, ◌^◌, List, [], ◌∷◌, IfOk, IsTrue, is_some};
ghost use Rattle.helm_cond.specs.Infos.{knowledge_of};
ghost use Rattle.bhv_file.specs.declared.spec.Spec.{Spec as SpecNow};
ghost use Rattle.bhv_file.specs.Params.{is_avoid};
ghost use Rattle.bhv_file.specs.Updates.{updated};
ghost use Rattle.bhv_file.specs.Validity.{IsValidSpec};
ghost use Rattle.bhv_kinds.specs.Giving.{out_at};
ghost use Rattle.bhv_kinds.specs.Changes.{KindChange, Stepped, Updated, params_at, step_of};
ghost use Rattle.helm_core.specs.Doers.{IsDoerOf, serves_doer};

use bhv_file::{Out, Shape, Spec};
use bhv_kinds::Kind;
use contact_avoid::Avoid;
use helm_cond::Info;
use ivp_domain::Domain;
use moos_post::{NoMemory, Txt};
use std::alloc::Global;

// A behaviour by its type: one of the nine of kinds, or one that keeps clear of a contact.
#[derive(Drop)]
pub(crate) enum Doer {
    Kind(Kind),
    Avoid(Avoid),
}

impl Doer {
    // A behaviour with these parameters that had no update and no step.
    pub fn make(spec: Spec) -> Doer
        requires { IsValidSpec spec }
        ensures { IsDoerOf spec [] result }
    {
        if is_avoid(&spec.shape) {
            Doer::Avoid(Avoid::make(spec))
        } else {
            Doer::Kind(Kind::make(spec))
        }
    }

    // An equal one.
    pub fn copy(&self, alloc: Global) -> Result<Doer, NoMemory>
        ensures { IfOk result (λ doer. doer ≡ self.now) }
    {
        match self {
            Doer::Kind(kind) => {
                let kind = kind.copy(alloc)?;
                Ok(Doer::Kind(kind))
            },
            Doer::Avoid(avoid) => {
                let avoid = avoid.copy(alloc)?;
                Ok(Doer::Avoid(avoid))
            },
        }
    }

    // Its weight beside the other behaviours, in thousandths.
    pub fn weight(&self) -> u32
        ensures weight { (spec : SpecNow) (changes : List KindChange) → IsDoerOf spec changes self.now → result ≡ (params_at spec changes).weight }
        ensures most { (spec : SpecNow) (changes : List KindChange) → IsDoerOf spec changes self.now → result ≤ 10 ^ 7 }
    {
        match self {
            Doer::Kind(kind) => kind.weight(),
            Doer::Avoid(avoid) => avoid.weight(),
        }
    }

    // Takes an update over a domain. False exactly if it isn't good as a whole; then nothing changed.
    pub fn update(&mut self, alloc: Global, domain: &Domain, text: &Txt) -> Result<bool, NoMemory>
        ensures good { IfOk result (λ good. (spec : SpecNow) (changes : List KindChange) → IsDoerOf spec changes self.old → good ≡ is_some (updated domain.now (params_at spec changes) text.now)) }
        ensures stands { IfOk result (λ _. (spec : SpecNow) (changes : List KindChange) → IsDoerOf spec changes self.old → IsDoerOf spec (Updated domain.now text.now ∷ changes) self.new) }
    {
        match self {
            Doer::Kind(kind) => kind.update(alloc, text),
            Doer::Avoid(avoid) => avoid.update(alloc, domain, text),
        }
    }

    // Makes a step at a stamp in milliseconds, by what is known. `fresh` says that it wasn't stepped in the iteration before.
    pub fn step(
        &mut self,
        alloc: Global,
        domain: &Domain,
        info: &Info,
        stamp: u64,
        fresh: bool,
    ) -> Result<Out, NoMemory>
        requires served { IsTrue (serves_doer domain.now self.old) }
        ensures out { IfOk result (λ out. (spec : SpecNow) (changes : List KindChange) → IsDoerOf spec changes self.old → out ≡ out_at spec changes (step_of domain.now (knowledge_of info.now) stamp fresh)) }
        ensures stands { IfOk result (λ _. (spec : SpecNow) (changes : List KindChange) → IsDoerOf spec changes self.old → IsDoerOf spec (Stepped (step_of domain.now (knowledge_of info.now) stamp fresh) ∷ changes) self.new) }
    {
        match self {
            Doer::Kind(kind) => kind.step(alloc, domain, info, stamp, fresh),
            Doer::Avoid(avoid) => avoid.step(alloc, domain, info, stamp),
        }
    }
}

// Whether a behaviour keeps clear of a contact.
fn is_avoid(shape: &Shape) -> bool
    ensures { result ≡ is_avoid shape.now }
{
    matches!(shape, Shape::AvoidCollision(_))
}
