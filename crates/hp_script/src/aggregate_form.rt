//! The forms of aggregates.

ghost use Rattle.std.specs.Prelude.{◌≡◌, [], ◌∷◌, map, option_map, option_and_then};
ghost use Rattle.serde_json.specs.View.{view};
ghost use Rattle.hp_model.specs.Json as J;
ghost use Rattle.hp_model.specs.AggregateGrammar.{aggregate_form, names_aggregate, is_aggregate, aggregate_form_at};
ghost use Rattle.hp_rule.specs.Places.{steps};
ghost use Rattle.hp_script.specs.Aggregates.{aggregate_form_view};
ghost use Rattle.hp_script.specs.Forms.{form_view};
ghost use Rattle.hp_script.specs.Mapped.{Gives};

use crate::query::QueryForm;
use crate::refusal::{DecodeError, shaped};
use crate::shape::{Form, form_of};
use hp_rule::Place;
use serde_json::Value;
use std::alloc::Global;

/// An aggregate over rows, or a next key, whose parts are still JSON.
#[derive(Clone, Copy)]
pub(crate) enum AggregateForm<'a> {
    Count(QueryForm<'a>),
    Sum(QueryForm<'a>, &'a Value),
    Least(QueryForm<'a>, &'a Value),
    Greatest(QueryForm<'a>, &'a Value),
    Next(&'a Value),
}

/// A form of four parts.
fn aggregate_form_of_four<'a>(
    word: &str,
    rows: QueryForm<'a>,
    term: &'a Value,
) -> Option<AggregateForm<'a>>
    ensures { option_map aggregate_form_view result ≡ aggregate_form word.now
        (view rows.entry.name.now ∷ view rows.entry.class.now ∷ view rows.entry.predicate.now
        ∷ view term.entry.now ∷ []) }
{
    match word {
        "sum" => Some(AggregateForm::Sum(rows, term)),
        "least" => Some(AggregateForm::Least(rows, term)),
        "greatest" => Some(AggregateForm::Greatest(rows, term)),
        _ => None,
    }
}

/// An aggregate of this word and these parts.
fn aggregate_form<'a>(word: &str, parts: &'a [Value]) -> Option<AggregateForm<'a>>
    ensures { option_map aggregate_form_view result ≡ aggregate_form word.now (map view parts.entry.now) }
{
    match parts {
        [class] => if word == "next" {
            Some(AggregateForm::Next(class))
        } else {
            None
        },
        [name, class, predicate] => {
            let rows = QueryForm {
                name,
                class,
                predicate,
            };
            if word == "count" {
                Some(AggregateForm::Count(rows))
            } else {
                None
            }
        }
        [name, class, predicate, term] => {
            let rows = QueryForm {
                name,
                class,
                predicate,
            };
            aggregate_form_of_four(word, rows, term)
        }
        _ => None,
    }
}

/// Whether the form is of an aggregate over rows, or of a next key. `["count"]` is an expression.
fn names_aggregate(form: Form<'_>) -> bool
    ensures { result ≡ names_aggregate (form_view form.entry) }
{
    match form.word {
        "sum" | "least" | "greatest" | "next" => true,
        "count" => !form.parts.is_empty(),
        _ => false,
    }
}

/// Whether a value is the form of an aggregate over rows, or of a next key.
pub(crate) fn is_aggregate(value: &Value) -> bool
    ensures { result ≡ is_aggregate (view value.now) }
{
    match form_of(value) {
        Some(form) => names_aggregate(form),
        None => false,
    }
}

/// The form of the aggregate in a value.
fn aggregate_form_of(value: &Value) -> Option<AggregateForm<'_>>
    ensures { option_map aggregate_form_view result
        ≡ option_and_then (λ (form : J.Form). aggregate_form form.word form.parts) (J.form_of (view value.now)) }
{
    let Form { word, parts } = form_of(value)?;
    aggregate_form(word, parts)
}

/// The form of the aggregate at a place.
pub(crate) fn aggregate_form_at<'a>(
    alloc: Global,
    place: &Place<'_>,
    value: &'a Value,
) -> Result<AggregateForm<'a>, DecodeError>
    ensures { Gives aggregate_form_view result (aggregate_form_at (steps place.now) (view value.entry.now)) }
{
    shaped(alloc, place, aggregate_form_of(value))
}
