//! The names of rows and values that an expression or a statement may use.

ghost use Rattle.std.specs.Prelude.{◌≡◌};
ghost use Rattle.serde_json.specs.View.{view};
ghost use Rattle.hp_model.specs.Scopes.{row_at, let_at, new_row_at, no_names};
ghost use Rattle.hp_rule.specs.Named.{names_in};
ghost use Rattle.hp_rule.specs.Places.{steps};
ghost use Rattle.hp_script.specs.Mapped.{Gives};

use crate::name::name_at;
use crate::refusal::{DecodeError, bad_name};
use hp_rule::{KnownNames, Place};
use serde_json::Value;
use std::alloc::Global;

/// The name of a row, at a place.
#[tactic(auto, using(hp_model::proofs::WellFormedParts::known_same), unfolding(hp_model::specs::Scopes::row_at))]
pub(crate) fn row_at<'a>(
    alloc: Global,
    place: &Place<'_>,
    names: &KnownNames<'_>,
    value: &'a Value,
) -> Result<&'a str, DecodeError>
    ensures { Gives (λ x. x.now) result (row_at (names_in names.now) (steps place.now) (view value.entry.now)) }
{
    let name = name_at(alloc, place, value)?;
    if names.knows_row(name) {
        Ok(name)
    } else {
        Err(bad_name(alloc, place))
    }
}

/// The name of a value, at a place.
#[tactic(auto, using(hp_model::proofs::WellFormedParts::known_same), unfolding(hp_model::specs::Scopes::let_at))]
pub(crate) fn let_at<'a>(
    alloc: Global,
    place: &Place<'_>,
    names: &KnownNames<'_>,
    value: &'a Value,
) -> Result<&'a str, DecodeError>
    ensures { Gives (λ x. x.now) result (let_at (names_in names.now) (steps place.now) (view value.entry.now)) }
{
    let name = name_at(alloc, place, value)?;
    if names.knows_value(name) {
        Ok(name)
    } else {
        Err(bad_name(alloc, place))
    }
}

/// The name of a new row or value, at a place: no known name.
#[tactic(auto, using(hp_model::proofs::WellFormedParts::known_same), unfolding(hp_model::specs::Scopes::new_row_at))]
pub(crate) fn new_row_at<'a>(
    alloc: Global,
    place: &Place<'_>,
    names: &KnownNames<'_>,
    value: &'a Value,
) -> Result<&'a str, DecodeError>
    ensures { Gives (λ x. x.now) result (new_row_at (names_in names.now) (steps place.now) (view value.entry.now)) }
{
    let name = name_at(alloc, place, value)?;
    if names.is_taken(name) {
        return Err(bad_name(alloc, place));
    }
    Ok(name)
}

/// The names at the beginning of a transaction's body: none.
pub(crate) fn no_names<'a>() -> KnownNames<'a>
    ensures { names_in result ≡ no_names }
{
    KnownNames::Entries(&[])
}
