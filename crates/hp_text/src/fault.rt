//! Why reading stops before the end.

ghost use Rattle.std.specs.Prelude.{◌≡◌};
ghost use Rattle.hp_text.specs.declared.fault.Stop.TheVariants.{Memory};

use std::alloc::{AllocError, AllocFailed};

/// Why a part of a text is not read.
#[derive(Debug, Drop)]
pub(crate) enum Stop {
    /// The text is no script. The first fault is this many bytes from the beginning.
    Fault(usize),
    /// Memory ran out.
    Memory,
}

impl From<AllocError> for Stop {
    ghost from_gives = { λ _ stop. stop ≡ Memory };

    fn from(_error: AllocError) -> Stop {
        Stop::Memory
    }
}

impl<T: Drop> From<AllocFailed<T>> for Stop {
    ghost from_gives = { λ _ stop. stop ≡ Memory };

    fn from(_error: AllocFailed<T>) -> Stop {
        Stop::Memory
    }
}
