//! Why a script is refused, and where.

ghost use Rattle.std.specs.Prelude.{◌≡◌};
ghost use Rattle.hp_model.specs.Refusals.{wrong_shape, bad_number, bad_name, shaped, known};
ghost use Rattle.hp_rule.specs.Places.{steps};
ghost use Rattle.hp_script.specs.Mapped.{Gives, IsRefusal};
ghost use Rattle.hp_script.specs.declared.refusal.DecodeError.TheVariants.{Memory};

use hp_rule::{Limit, PathStep, Place};
use std::alloc::{AllocError, AllocFailed, Global};
use std::error::Error;

/// Why a script is refused. A path leads from the root to the refused value.
///
/// The checks of one value come in this order: its form, its number, its limit, its name. Then its parts are checked,
/// from left to right. This order is this project's own choice.
#[derive(Debug, PartialEq, Eq, Drop)]
pub enum Refusal {
    /// The bytes are not a JSON text in UTF-8.
    S1,
    /// A value doesn't have the form that the grammar requires.
    S2(Vec<PathStep>),
    /// A number is not a signed 64-bit integer.
    S3(Vec<PathStep>),
    /// A name is unknown or taken, or fields are missing.
    S4(Vec<PathStep>),
    /// A limit is exceeded.
    S5(Limit),
    /// The version is unknown.
    S6,
}

impl Error for Refusal {}

/// Why a script was not decoded.
#[derive(Debug, Drop, thiserror::Error)]
pub enum DecodeError {
    /// The script is refused.
    #[error("the script is refused: {0}")]
    Refused(Refusal),
    /// Memory ran out.
    #[error("out of memory")]
    Memory,
}

impl From<AllocError> for DecodeError {
    ghost from_gives = { λ _ e. e ≡ Memory };

    fn from(_e: AllocError) -> DecodeError {
        DecodeError::Memory
    }
}

impl<T: Drop> From<AllocFailed<T>> for DecodeError {
    ghost from_gives = { λ _ e. e ≡ Memory };

    fn from(_e: AllocFailed<T>) -> DecodeError {
        DecodeError::Memory
    }
}

/// The refusal of a value that doesn't have the form that the grammar requires here.
pub(crate) fn wrong_shape(alloc: Global, place: &Place<'_>) -> DecodeError
    ensures { IsRefusal result (wrong_shape (steps place.now)) }
{
    match place.path(alloc) {
        Ok(path) => DecodeError::Refused(Refusal::S2(path)),
        Err(_) => DecodeError::Memory,
    }
}

/// The refusal of a number that is not a signed 64-bit integer.
pub(crate) fn bad_number(alloc: Global, place: &Place<'_>) -> DecodeError
    ensures { IsRefusal result (bad_number (steps place.now)) }
{
    match place.path(alloc) {
        Ok(path) => DecodeError::Refused(Refusal::S3(path)),
        Err(_) => DecodeError::Memory,
    }
}

/// The refusal of a name that is unknown or taken, or of a list that lacks one.
pub fn bad_name(alloc: Global, place: &Place<'_>) -> DecodeError
    ensures { IsRefusal result (bad_name (steps place.now)) }
{
    match place.path(alloc) {
        Ok(path) => DecodeError::Refused(Refusal::S4(path)),
        Err(_) => DecodeError::Memory,
    }
}

/// What was found at a place, or the refusal of a value that doesn't have the required form.
pub fn shaped<T>(alloc: Global, place: &Place<'_>, found: Option<T>) -> Result<T, DecodeError>
    ensures { Gives (λ x. x) result (shaped (steps place.now) found) }
{
    match found {
        Some(found) => Ok(found),
        None => Err(wrong_shape(alloc, place)),
    }
}

/// What the name at a place means, or the refusal of an unknown name.
pub(crate) fn known<T>(alloc: Global, place: &Place<'_>, meant: Option<T>) -> Result<T, DecodeError>
    ensures { Gives (λ x. x) result (known (steps place.now) meant) }
{
    match meant {
        Some(meant) => Ok(meant),
        None => Err(bad_name(alloc, place)),
    }
}
