// What an iteration tells: updates, behaviours, errors, the decision.
ghost use Rattle.std.specs.Prelude.{◌≡◌, IfOk};

use bhv_kinds::BhvFault;
use bhv_life::BhvState;
use ivp_cert::Decision;
use moos_post::{Batch, Copied, List, Name, NoMemory, Txt};
use std::alloc::Global;

/// What became of an update: it was refused, it changed a behaviour, or, as a letter to a template, it made the behaviour of this
/// name.
#[derive(Drop)]
pub enum How {
    Refused,
    Changed,
    Spawned(Name),
}

/// An update, by the name of the behaviour or the template that heard it, and what became of it.
#[derive(Drop)]
pub struct Update {
    pub name: Name,
    pub how: How,
}

impl Update {
    // An equal one.
    pub(crate) fn copy(&self, alloc: Global) -> Result<Update, NoMemory>
        ensures { IfOk result (λ copy. copy ≡ self.now) }
    {
        let name = self.name.copy(alloc)?;
        let how = self.how.copy(alloc)?;
        Ok(Update { name, how })
    }
}

impl How {
    // An equal one.
    fn copy(&self, alloc: Global) -> Result<How, NoMemory>
        ensures { IfOk result (λ copy. copy ≡ self.now) }
    {
        match self {
            How::Refused => Ok(How::Refused),
            How::Changed => Ok(How::Changed),
            How::Spawned(name) => {
                let name = name.copy(alloc)?;
                Ok(How::Spawned(name))
            },
        }
    }
}

/// What a behaviour is, by its name.
#[derive(Drop)]
pub struct BhvNow {
    pub name: Name,
    pub state: BhvState,
}

/// A behaviour that raised a fault, by its name.
#[derive(Drop)]
pub struct BhvError {
    pub name: Name,
    pub fault: BhvFault,
}

/// The updates of an iteration, in file order, and of one behaviour or template in the order of the mail.
pub type Updates = List<Update>;

/// What each behaviour of the list is, in its order.
pub type States = List<BhvNow>;

/// The faults of an iteration, in the order of the list.
pub type Faults = List<BhvError>;

/// What an iteration of the helm came to.
#[derive(Drop)]
pub struct Iteration {
    /// When it was, in milliseconds.
    pub stamp: u64,
    /// Whether the vehicle is not the helm's to drive.
    pub parked: bool,
    /// The mode's text, empty if there is no mode.
    pub mode: Txt,
    /// The updates of the behaviours, and the letters to templates.
    pub updates: Updates,
    /// What each behaviour is.
    pub states: States,
    /// The faults that behaviours raised.
    pub faults: Faults,
    /// What the active behaviours decide together, with its certificate; None if none is active.
    pub decision: Option<Decision>,
    /// What the helm posts, in order.
    pub posts: Batch,
}
