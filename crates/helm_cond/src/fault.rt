// Why a text is no condition.
use moos_post::NameFault;
use moos_text::PairFault;
use std::alloc::AllocError;
use thiserror::Error;

/// Why bytes are made no condition.
#[derive(Clone, Copy, Debug, PartialEq, Eq, Error)]
pub enum CondFault {
    /// They are outside the grammar of conditions.
    #[error("not a condition")]
    BadCondition,
    /// No memory was left for it.
    #[error("no memory")]
    NoMemory,
}

impl From<AllocError> for CondFault {
    ghost use Rattle.helm_cond.specs.declared.fault.CondFault.TheVariants.{NoMemory};
    ghost use Rattle.std.specs.Prelude.{◌≡◌};

    ghost from_gives = { λ _ fault. fault ≡ NoMemory };

    fn from(_error: AllocError) -> CondFault {
        CondFault::NoMemory
    }
}

// What is no name or no value makes no condition.

impl From<NameFault> for CondFault {
    ghost use Rattle.helm_cond.specs.Faults.{of_name};
    ghost use Rattle.std.specs.Prelude.{◌≡◌};

    ghost from_gives = { λ name fault. fault ≡ of_name name };

    fn from(fault: NameFault) -> CondFault {
        match fault {
            NameFault::BadName => CondFault::BadCondition,
            NameFault::NoMemory => CondFault::NoMemory,
        }
    }
}

impl From<PairFault> for CondFault {
    ghost use Rattle.helm_cond.specs.Faults.{of_value};
    ghost use Rattle.std.specs.Prelude.{◌≡◌};

    ghost from_gives = { λ value fault. fault ≡ of_value value };

    fn from(fault: PairFault) -> CondFault {
        match fault {
            PairFault::NoMemory => CondFault::NoMemory,
            _ => CondFault::BadCondition,
        }
    }
}
