//! Why an expression or a statement is refused, and where.

ghost use Rattle.std.specs.Prelude.{◌≡◌, ⊤, OnOk};
ghost use Rattle.hp_rule.specs.Places.{steps};
ghost use Rattle.hp_analysis.specs.Findings as model;
ghost use Rattle.hp_analysis.specs.Kinded.{IsFinding, Passes, Notes, reason};
ghost use Rattle.hp_analysis.specs.declared.kinds.finding.KindError.TheVariants.{Memory};

use crate::kinds::sort::Sort;
use hp_rule::{PathStep, Place};
use hp_value::Kind;
use std::alloc::{AllocError, AllocFailed, Global};

/// What an expression must be where it stands.
#[derive(Clone, Copy, Debug, PartialEq, Eq)]
pub enum Wanted {
    /// A value of this kind.
    Kind(Kind),
    /// A value of a known kind, since it is compared with another one.
    KnownKind,
    /// An integer or a text, since it is ordered.
    OrderedKind,
}

/// Why an expression or a statement is refused.
#[derive(Clone, Copy, Debug, PartialEq, Eq)]
pub enum Reason {
    /// The expression has another sort than is wanted where it stands.
    Unsuited {
        /// What is wanted.
        wanted: Wanted,
        /// What the expression is.
        given: Sort,
    },
    /// The expression reads an occurrence, and the body of a script has none.
    NoOccurrence,
    /// Not each occurrence of the rule's event has the part that the expression reads.
    NoSuchPart,
    /// The part that the expression reads may be of a form that has no such value: `new` reads objects that were
    /// created or updated, `old` those that were updated or deleted, `id` all three, `arg` signals and `time` moments.
    OtherForm,
    /// The class has no field of this name.
    NoSuchField,
    /// The signal is declared without the argument that the expression reads.
    NoSuchArgument,
    /// The statement gives a signal fewer arguments than are declared, which are those that rules use.
    TooFewArguments,
    /// The statement creates an object without a value for each field.
    UnsetField,
    /// No row, no query or no value of this name is known.
    UnknownName,
    /// The statement fires a rule that isn't one of the declared ones: the rule reads parts of its occurrence, and a
    /// rule that a statement fires has an occurrence without parts.
    NotFired,
}

/// An expression or a statement that is refused.
#[derive(Debug, PartialEq, Eq, Drop)]
pub struct Finding {
    /// The path to it, from the root of the script or from the body.
    pub path: Vec<PathStep>,
    /// Why it is refused.
    pub reason: Reason,
}

/// Why a check of kinds failed.
#[derive(Debug, Drop)]
pub enum KindError {
    /// An expression, an aggregate or an assignment is refused; this is the first finding in it.
    Found(Finding),
    /// Memory ran out: the check didn't finish.
    Memory,
}

impl From<AllocError> for KindError {
    ghost from_gives = { λ _ e. e ≡ Memory };

    fn from(_e: AllocError) -> KindError {
        KindError::Memory
    }
}

impl<T: Drop> From<AllocFailed<T>> for KindError {
    ghost from_gives = { λ _ e. e ≡ Memory };

    fn from(_e: AllocFailed<T>) -> KindError {
        KindError::Memory
    }
}

/// The finding at a place.
pub(crate) fn found(alloc: Global, place: &Place<'_>, why: Reason) -> KindError
    ensures { IsFinding result (record { path = steps place.now; reason = reason why }) }
{
    match place.path(alloc) {
        Ok(path) => KindError::Found(Finding { path, reason: why }),
        Err(_) => KindError::Memory,
    }
}

/// Adds the finding of a check, if it failed. An error means that memory ran out.
pub(crate) fn note(
    found: &mut Vec<Finding>,
    checked: Result<(), KindError>,
) -> Result<(), AllocError>
    ensures { (check : model.Judged ⊤) → Passes checked check →
        OnOk result (Notes found.old found.new (model.found check)) }
{
    match checked {
        Ok(()) => Ok(()),
        Err(KindError::Found(finding)) => {
            found.push(finding)?;
            Ok(())
        }
        Err(KindError::Memory) => Err(AllocError),
    }
}
