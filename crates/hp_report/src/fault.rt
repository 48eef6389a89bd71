//! Why a run ends early.

ghost use Rattle.std.specs.Prelude.{◌≡◌};
ghost use Rattle.hp_report.specs.Faults.{read_fault, write_fault};
ghost use Rattle.hp_report.specs.declared.fault.Fault.TheVariants.{NoMemory};

use crate::input::ReadFault;
use crate::output::WriteFault;
use std::alloc::{AllocError, AllocFailed};
use thiserror::Error;

/// Why a run ended before all was written. The writer then has a prefix of the text.
#[derive(Clone, Copy, Debug, PartialEq, Eq, Error)]
pub enum Fault {
    /// An allocation was refused.
    #[error("fault F1")]
    NoMemory,
    /// A read failed.
    #[error("fault F2")]
    Read,
    /// A write failed, or wrote nothing of a piece that isn't empty.
    #[error("fault F3")]
    Write,
}

impl From<AllocError> for Fault {
    ghost from_gives = { λ _ f. f ≡ NoMemory };

    fn from(_error: AllocError) -> Fault {
        Fault::NoMemory
    }
}

impl<T: Drop> From<AllocFailed<T>> for Fault {
    ghost from_gives = { λ _ f. f ≡ NoMemory };

    fn from(_error: AllocFailed<T>) -> Fault {
        Fault::NoMemory
    }
}

impl From<ReadFault> for Fault {
    ghost from_gives = { λ r f. f ≡ read_fault r };

    fn from(fault: ReadFault) -> Fault {
        match fault {
            ReadFault::Read => Fault::Read,
            ReadFault::NoMemory => Fault::NoMemory,
        }
    }
}

impl From<WriteFault> for Fault {
    ghost from_gives = { λ w f. f ≡ write_fault w };

    fn from(fault: WriteFault) -> Fault {
        match fault {
            WriteFault::Write => Fault::Write,
            WriteFault::NoMemory => Fault::NoMemory,
        }
    }
}
