//! Classes, rules and queries by their names.

ghost use Rattle.std.specs.Prelude.{◌≡◌, map};
ghost use Rattle.serde_json.specs.View.{view};
ghost use Rattle.hp_model.specs.Parts.{place_of, place_at};
ghost use Rattle.hp_model.specs.Scopes.{class_names, field_names, fields_of, is_known};
ghost use Rattle.hp_model.specs.StatementGrammar.{query_at};
ghost use Rattle.hp_value.specs.Mapped.{field};
ghost use Rattle.hp_rule.specs.Places.{steps};
ghost use Rattle.hp_script.specs.Forms.{scope_view};
ghost use Rattle.hp_script.specs.Mapped.{Gives};

use crate::name::name_at;
use crate::names::class_place;
use crate::refusal::{DecodeError, bad_name, known};
use crate::scope::Scope;
use hp_rule::{KnownNames, Place};
use hp_value::{ClassNo, Field, RuleNo};
use serde_json::Value;
use std::alloc::Global;

/// The number of the class of this name.
fn class_number(scope: &Scope<'_>, name: &str) -> Option<ClassNo>
    ensures { result ≡ place_of (class_names (scope_view scope.entry.now).classes) name.now }
{
    let place = class_place(scope.classes, name)?;
    Some(place as ClassNo)
}

/// The number of the rule of this name.
fn rule_number(scope: &Scope<'_>, name: &str) -> Option<RuleNo>
    ensures { result ≡ place_of (scope_view scope.entry.now).rules name.now }
{
    let place = scope.rules.place(name)?;
    Some(place as RuleNo)
}

/// The class that is named at a place.
#[tactic(auto, unfolding(hp_model::specs::Parts::place_at))]
pub(crate) fn class_at(
    alloc: Global,
    place: &Place<'_>,
    scope: &Scope<'_>,
    value: &Value,
) -> Result<ClassNo, DecodeError>
    ensures { Gives (λ n. n) result
        (place_at (class_names (scope_view scope.entry.now).classes) (steps place.now) (view value.now)) }
{
    let name = name_at(alloc, place, value)?;
    known(alloc, place, class_number(scope, name))
}

/// The rule that is named at a place.
#[tactic(auto, unfolding(hp_model::specs::Parts::place_at))]
pub(crate) fn rule_at(
    alloc: Global,
    place: &Place<'_>,
    scope: &Scope<'_>,
    value: &Value,
) -> Result<RuleNo, DecodeError>
    ensures { Gives (λ n. n) result
        (place_at (scope_view scope.entry.now).rules (steps place.now) (view value.now)) }
{
    let name = name_at(alloc, place, value)?;
    known(alloc, place, rule_number(scope, name))
}

/// Whether a query of the rule has this name.
fn is_query(scope: &Scope<'_>, name: &str) -> bool
    ensures { result ≡ is_known (scope_view scope.entry.now).queries name.now }
{
    KnownNames::Entries(scope.condition).knows_row(name)
}

/// The name of a query of the rule, at a place.
#[tactic(auto, unfolding(hp_model::specs::StatementGrammar::query_at))]
pub(crate) fn query_at<'a>(
    alloc: Global,
    place: &Place<'_>,
    scope: &Scope<'_>,
    value: &'a Value,
) -> Result<&'a str, DecodeError>
    ensures { Gives (λ x. x.now) result
        (query_at (scope_view scope.entry.now) (steps place.now) (view value.entry.now)) }
{
    let name = name_at(alloc, place, value)?;
    if is_query(scope, name) {
        Ok(name)
    } else {
        Err(bad_name(alloc, place))
    }
}

/// The fields of a class.
pub(crate) fn fields_of<'a>(scope: &Scope<'a>, class: ClassNo) -> &'a [Field]
    ensures { field_names (map field result.now) ≡ fields_of (scope_view scope.entry.now) class }
{
    match scope.classes.get(class as usize) {
        Some(class) => class.fields.as_slice(),
        None => &[],
    }
}
