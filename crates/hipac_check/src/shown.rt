//! Reasons as text.

ghost use Rattle.std.specs.Prelude.{◌≡◌, Some};
ghost use Rattle.hp_analysis.specs.Kinded as kinded;
ghost use Rattle.hp_analysis.specs.Checking.{kind_word, sort_word, wanted_word, reason_text};
ghost use Rattle.hp_value.specs.Mapped as mapped;

use hp_analysis::{Reason, Sort, Wanted};
use hp_value::Kind;
use std::fmt;

/// The word of a kind.
fn kind_word(kind: Kind) -> &'static str
    ensures { result.now ≡ kind_word (mapped.kind kind) }
{
    match kind {
        Kind::Int => "int",
        Kind::Bool => "bool",
        Kind::Text => "text",
    }
}

/// The word of a sort.
fn sort_word(sort: Sort) -> &'static str
    ensures { result.now ≡ sort_word (kinded.sort sort) }
{
    match sort {
        Sort::Only(kind) => kind_word(kind),
        Sort::Any => "any",
    }
}

/// The word of what is wanted.
fn wanted_word(wanted: Wanted) -> &'static str
    ensures { result.now ≡ wanted_word (kinded.wanted wanted) }
{
    match wanted {
        Wanted::Kind(kind) => kind_word(kind),
        Wanted::KnownKind => "known",
        Wanted::OrderedKind => "ordered",
    }
}

/// A reason.
#[derive(Clone, Copy)]
pub(crate) struct Why(pub Reason);

impl fmt::Display for Why {
    ghost output = { λ w. Some (reason_text (kinded.reason w.0)) };

    fn fmt<W: fmt::Write>(&self, f: &mut fmt::Formatter<W>) -> fmt::Result {
        match self.0 {
            Reason::Unsuited { wanted, given } => {
                let wanted = wanted_word(wanted);
                let given = sort_word(given);
                write!(f, "wanted {wanted} given {given}")
            }
            Reason::NoOccurrence => write!(f, "no_occurrence"),
            Reason::NoSuchPart => write!(f, "no_such_part"),
            Reason::OtherForm => write!(f, "other_form"),
            Reason::NoSuchField => write!(f, "no_such_field"),
            Reason::NoSuchArgument => write!(f, "no_such_argument"),
            Reason::TooFewArguments => write!(f, "too_few_arguments"),
            Reason::UnsetField => write!(f, "unset_field"),
            Reason::UnknownName => write!(f, "unknown_name"),
            Reason::NotFired => write!(f, "not_fired"),
        }
    }
}
