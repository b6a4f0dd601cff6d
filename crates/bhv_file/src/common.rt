// The parameters that every behaviour has.
use crate::decl::Conds;
use moos_post::{Batch, Copied, Name, NoMemory};
use std::alloc::Global;

/// The parameters that all types of behaviours have, without the weight.
#[derive(Drop)]
pub struct Common {
    pub name: Name,
    /// Its conditions, of which all are required.
    pub conds: Conds,
    /// What is posted when it begins to run.
    pub runflags: Batch,
    /// What is posted when it becomes idle.
    pub idleflags: Batch,
    /// What is posted when it becomes active.
    pub activeflags: Batch,
    /// What is posted when it is no longer active.
    pub inactiveflags: Batch,
    /// What is posted when it is completed.
    pub endflags: Batch,
    /// The variable whose mail changes its parameters.
    pub updates: Option<Name>,
    /// How long it lasts, in milliseconds; None is for ever.
    pub duration: Option<u64>,
    /// Whether its time goes on while it is idle.
    pub idle_decay: bool,
    /// Whether it begins anew when it was completed.
    pub perpetual: bool,
    /// Whether it never runs, and letters make behaviours of it.
    pub template: bool,
}

impl Copied for Common {
    fn copy(&self, alloc: Global) -> Result<Common, NoMemory> {
        let name = self.name.copy(alloc)?;
        let conds = self.conds.copy(alloc)?;
        let runflags = self.runflags.copy(alloc)?;
        let idleflags = self.idleflags.copy(alloc)?;
        let activeflags = self.activeflags.copy(alloc)?;
        let inactiveflags = self.inactiveflags.copy(alloc)?;
        let endflags = self.endflags.copy(alloc)?;
        let updates = match &self.updates {
            Some(updates) => Some(updates.copy(alloc)?),
            None => None,
        };
        Ok(Common {
            name,
            conds,
            runflags,
            idleflags,
            activeflags,
            inactiveflags,
            endflags,
            updates,
            duration: self.duration,
            idle_decay: self.idle_decay,
            perpetual: self.perpetual,
            template: self.template,
        })
    }
}
