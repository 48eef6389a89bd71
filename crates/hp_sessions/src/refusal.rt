//! Why a unit isn't committed.

use hp_view::Seen;
use std::alloc::AllocError;

/// Why a unit isn't committed. The book is then as before.
#[derive(Clone, Copy, Debug)]
pub enum Refusal {
    /// The body's library isn't equal to the book's.
    OtherLibrary,
    /// The history has this many units, which is the limit.
    HistoryFull(usize),
    /// A read of the unit no longer holds.
    Stale {
        /// The number of units in the history.
        entries: usize,
        /// What the first read that doesn't hold was of.
        cell: Seen,
    },
    /// Memory ran out, or an `Arc` could not be cloned.
    NoMemory,
}

impl From<AllocError> for Refusal {
    ghost use Rattle.std.specs.Prelude.{◌≡◌};
    ghost use Rattle.hp_sessions.specs.declared.refusal.Refusal.TheVariants.{NoMemory};

    ghost from_gives = { λ _ e. e ≡ NoMemory };

    fn from(_error: AllocError) -> Refusal {
        Refusal::NoMemory
    }
}
