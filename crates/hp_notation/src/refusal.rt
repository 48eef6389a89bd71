//! Why a text is refused, and where.

ghost use Rattle.std.specs.Prelude.{◌≡◌};
ghost use Rattle.hp_notation.specs.declared.refusal.TextError.TheVariants.{Memory};

use hp_script::Refusal;
use hp_text::Place;
use std::alloc::{AllocError, AllocFailed};
use std::error::Error;

/// Why a text is refused.
#[derive(Debug, Drop)]
pub struct TextRefusal {
    /// What is refused of the value that the text stands for, as in JSON. `S1` says that it stands for none, since the
    /// notation has no such text.
    pub refusal: Refusal,
    /// Where the refused value begins, or where the text has its first fault. A limit and an unknown version have no
    /// place.
    pub place: Option<Place>,
}

impl Error for TextRefusal {}

/// Why a text was not decoded.
#[derive(Debug, Drop, thiserror::Error)]
pub enum TextError {
    /// The text is refused.
    #[error("the text is refused: {0}")]
    Refused(TextRefusal),
    /// Memory ran out.
    #[error("out of memory")]
    Memory,
}

impl From<AllocError> for TextError {
    ghost from_gives = { λ _ e. e ≡ Memory };

    fn from(_e: AllocError) -> TextError {
        TextError::Memory
    }
}

impl<T: Drop> From<AllocFailed<T>> for TextError {
    ghost from_gives = { λ _ e. e ≡ Memory };

    fn from(_e: AllocFailed<T>) -> TextError {
        TextError::Memory
    }
}
