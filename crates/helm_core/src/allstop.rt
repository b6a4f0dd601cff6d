// The allstop: why a helm asks for no motion.
ghost use Rattle.std.specs.Prelude.{◌≡◌, IsTrue};
ghost use Rattle.moos_post.specs.Words.{is_text};
ghost use Rattle.helm_core.specs.Decisions.{some_active};
ghost use Rattle.helm_core.specs.Helms.{allstop_text};
ghost use Rattle.helm_core.specs.Posts.{allstop_by, lacks_decision, mentions_course, mentions_depth, mentions_speed, some_fault};

use crate::showing::TurnShown;
use bhv_file::has_axis;
use ivp_domain::Domain;

// Why the vehicle must stop, or that it need not.
#[derive(Clone, Copy, Debug, PartialEq, Eq)]
pub(crate) enum Allstop {
    ManualOverride,
    BehaviorError,
    NothingToDo,
    MissingDecVars,
    Clear,
}

impl Allstop {
    // The reason, by whether the helm is parked and by the behaviours.
    pub fn of(domain: &Domain, parked: bool, showings: &[TurnShown]) -> Allstop
        ensures { allstop_text result ≡ allstop_by domain.now parked showings.now }
    {
        if parked {
            Allstop::ManualOverride
        } else if some_fault(showings) {
            Allstop::BehaviorError
        } else if !some_active(showings) {
            Allstop::NothingToDo
        } else if lacks_decision(domain, showings) {
            Allstop::MissingDecVars
        } else {
            Allstop::Clear
        }
    }

    // What it is posted as.
    pub fn text(&self) -> &'static [u8]
        ensures reason { result.now ≡ allstop_text self.now }
        ensures text { IsTrue (is_text result.now) }
    {
        match self {
            Allstop::ManualOverride => b"ManualOverride",
            Allstop::BehaviorError => b"BehaviorError",
            Allstop::NothingToDo => b"NothingToDo",
            Allstop::MissingDecVars => b"MissingDecVars",
            Allstop::Clear => b"clear",
        }
    }
}

// Whether a behaviour raised a fault.
fn some_fault(showings: &[TurnShown]) -> bool
    ensures { result ≡ some_fault showings.now }
{
    showings.iter().any(|one| one.out.fault.is_some())
}

// Whether a behaviour is active.
pub(crate) fn some_active(showings: &[TurnShown]) -> bool
    ensures { result ≡ some_active showings.now }
{
    showings.iter().any(|one| one.active)
}

// Whether the domain has course or speed, and no active behaviour's function mentions it.
fn lacks_decision(domain: &Domain, showings: &[TurnShown]) -> bool
    ensures { result ≡ lacks_decision domain.now showings.now }
{
    has_axis(domain, b"course") && !mentions_course(showings)
        || has_axis(domain, b"speed") && !mentions_speed(showings)
}

pub(crate) fn mentions_course(showings: &[TurnShown]) -> bool
    ensures { result ≡ mentions_course showings.now }
{
    showings.iter().any(|one| one.active && one.out.course)
}

pub(crate) fn mentions_speed(showings: &[TurnShown]) -> bool
    ensures { result ≡ mentions_speed showings.now }
{
    showings.iter().any(|one| one.active && one.out.speed)
}

pub(crate) fn mentions_depth(showings: &[TurnShown]) -> bool
    ensures { result ≡ mentions_depth showings.now }
{
    showings.iter().any(|one| one.active && one.out.depth)
}
