//! Why a library or a body isn't well formed.

ghost use Rattle.std.specs.Prelude.{◌≡◌, ◌≢◌};
ghost use Rattle.hp_model.specs.Refusals.{wrong_shape, bad_name, over_limit};
ghost use Rattle.hp_rule.specs.Faults.{limit, IsFault};
ghost use Rattle.hp_rule.specs.Places.{steps};
ghost use Rattle.hp_rule.specs.declared.fault.CheckError.TheVariants.{Memory};

use crate::place::{PathStep, Place};
use std::alloc::{AllocError, AllocFailed, Global};

/// A limit of the script language.
#[derive(Clone, Copy, Debug, PartialEq, Eq)]
pub enum Limit {
    /// 1,048,576 bytes of a script.
    Size,
    /// 64 classes.
    Classes,
    /// 32 fields of a class.
    Fields,
    /// 256 rules.
    Rules,
    /// 16 levels of an expression.
    Expression,
    /// 16 levels of an event.
    Event,
    /// 16 levels of statements.
    Nesting,
    /// 1,024 bytes of a text.
    Text,
    /// The depth of firings: 1 to 16.
    Depth,
    /// 32 arguments of a signal.
    Arguments,
    /// 1,000 moments of one move of the clock.
    Moments,
}

/// Why a library or a body isn't well formed. A path leads to the fault, from the root of the script or from the body.
/// These faults and their order are this project's own choice.
#[derive(Debug, PartialEq, Eq, Drop)]
pub enum CheckFault {
    /// S2: a name isn't spelled as a name, a period is 0, or a veto stands outside an action.
    Shape(Vec<PathStep>),
    /// S4: a name or a number of a class or rule is unknown, a name is duplicated or not new, or fields are missing.
    Name(Vec<PathStep>),
    /// S5: a limit is exceeded.
    Limit(Limit),
}

/// Why a check failed.
#[derive(Debug, Drop)]
pub enum CheckError {
    /// What was checked is not well formed.
    Fault(CheckFault),
    /// Memory ran out: the check didn't finish.
    Memory,
}

impl From<AllocError> for CheckError {
    ghost from_gives = { λ _ e. e ≡ Memory };

    fn from(_e: AllocError) -> CheckError {
        CheckError::Memory
    }
}

impl<T: Drop> From<AllocFailed<T>> for CheckError {
    ghost from_gives = { λ _ e. e ≡ Memory };

    fn from(_e: AllocFailed<T>) -> CheckError {
        CheckError::Memory
    }
}

/// The fault of a part that doesn't have the required form.
pub(crate) fn wrong_shape(alloc: Global, place: &Place<'_>) -> CheckError
    ensures { IsFault result (wrong_shape (steps place.now)) }
{
    match place.path(alloc) {
        Ok(path) => CheckError::Fault(CheckFault::Shape(path)),
        Err(_) => CheckError::Memory,
    }
}

/// The fault of a name that isn't allowed here.
pub(crate) fn bad_name(alloc: Global, place: &Place<'_>) -> CheckError
    ensures { IsFault result (bad_name (steps place.now)) }
{
    match place.path(alloc) {
        Ok(path) => CheckError::Fault(CheckFault::Name(path)),
        Err(_) => CheckError::Memory,
    }
}

/// The fault of an exceeded limit.
pub(crate) fn over_limit(exceeded: Limit) -> CheckError
    ensures fault { IsFault result (over_limit (limit exceeded)) }
    ensures memory { result ≢ CheckError.Memory }
{
    CheckError::Fault(CheckFault::Limit(exceeded))
}
