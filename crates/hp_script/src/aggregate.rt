//! Aggregates: what a `let` computes.

ghost use Rattle.serde_json.specs.View.{view};
ghost use Rattle.hp_model.specs.Scopes.{class_names};
ghost use Rattle.hp_model.specs.AggregateGrammar.{over_at, terms_at, aggregate_from, single_at, aggregate_at};
ghost use Rattle.hp_value.specs.Mapped.{expression};
ghost use Rattle.hp_query.specs.Mapped.{aggregate};
ghost use Rattle.hp_rule.specs.Places.{steps};
ghost use Rattle.hp_script.specs.Aggregates.{over, aggregate_form_view};
ghost use Rattle.hp_script.specs.Forms.{scope_view};
ghost use Rattle.hp_script.specs.Mapped.{Gives};
ghost use Rattle.hp_script.specs.Settings.{setting_view};

use crate::aggregate_form::{AggregateForm, aggregate_form_at, is_aggregate};
use crate::expression::boxed_expression_at;
use crate::query::{QueryForm, query_at};
use crate::reference::class_at;
use crate::refusal::DecodeError;
use crate::scope::Scope;
use crate::setting::Setting;
use hp_rule::{Aggregate, Place, Query};
use hp_value::Expr;
use serde_json::Value;
use std::alloc::Global;

/// The rows of the aggregate at a place: its variable, its class and its predicate.
fn over_at(
    alloc: Global,
    place: &Place<'_>,
    scope: &Scope<'_>,
    setting: &Setting<'_>,
    rows: QueryForm<'_>,
) -> Result<Query, DecodeError>
    ensures { Gives over result
        (over_at (class_names (scope_view scope.entry.now).classes) (setting_view setting.entry.now)
        (steps place.entry.now)
        (view rows.entry.name.now) (view rows.entry.class.now) (view rows.entry.predicate.now)) }
{
    query_at(alloc, place, 1, scope, setting, rows)
}

/// The rows of the aggregate at a place, and its term, which may use the variable.
#[tactic(auto, unfolding(hp_model::specs::AggregateGrammar::terms_at))]
fn terms_at(
    alloc: Global,
    place: &Place<'_>,
    scope: &Scope<'_>,
    setting: &Setting<'_>,
    rows: QueryForm<'_>,
    term: &Value,
) -> Result<(Query, Box<Expr>), DecodeError>
    ensures { Gives (λ p. (over p.0, expression p.1.value)) result
        (terms_at (class_names (scope_view scope.entry.now).classes) (setting_view setting.entry.now)
        (steps place.entry.now)
        (view rows.entry.name.now) (view rows.entry.class.now) (view rows.entry.predicate.now) (view term.now)) }
{
    let rows = over_at(alloc, place, scope, setting, rows)?;
    let inner = setting.with_row(rows.name.as_str());
    let term = boxed_expression_at(alloc, &place.item(4), &inner, term)?;
    Ok((rows, term))
}

/// The aggregate at a place of a form.
fn aggregate_from(
    alloc: Global,
    place: &Place<'_>,
    scope: &Scope<'_>,
    setting: &Setting<'_>,
    form: AggregateForm<'_>,
) -> Result<Aggregate, DecodeError>
    ensures { Gives aggregate result
        (aggregate_from (class_names (scope_view scope.entry.now).classes) (setting_view setting.entry.now)
        (steps place.entry.now) (aggregate_form_view form.entry)) }
{
    match form {
        AggregateForm::Count(rows) => {
            let rows = over_at(alloc, place, scope, setting, rows)?;
            Ok(Aggregate::Count(rows))
        }
        AggregateForm::Sum(rows, term) => {
            let (rows, term) = terms_at(alloc, place, scope, setting, rows, term)?;
            Ok(Aggregate::Sum { rows, term })
        }
        AggregateForm::Least(rows, term) => {
            let (rows, term) = terms_at(alloc, place, scope, setting, rows, term)?;
            Ok(Aggregate::Least { rows, term })
        }
        AggregateForm::Greatest(rows, term) => {
            let (rows, term) = terms_at(alloc, place, scope, setting, rows, term)?;
            Ok(Aggregate::Greatest { rows, term })
        }
        AggregateForm::Next(class) => {
            let class = class_at(alloc, &place.item(1), scope, class)?;
            Ok(Aggregate::Next(class))
        }
    }
}

/// The expression at a place, as an aggregate.
#[tactic(auto, unfolding(hp_model::specs::AggregateGrammar::single_at))]
fn single_at(
    alloc: Global,
    place: &Place<'_>,
    setting: &Setting<'_>,
    value: &Value,
) -> Result<Aggregate, DecodeError>
    ensures { Gives aggregate result (single_at (setting_view setting.now) (steps place.now) (view value.now)) }
{
    let value = boxed_expression_at(alloc, place, setting, value)?;
    Ok(Aggregate::Single(value))
}

/// The aggregate at a place. What is of no form of an aggregate is an expression.
#[tactic(auto, unfolding(hp_model::specs::AggregateGrammar::aggregate_at))]
pub(crate) fn aggregate_at(
    alloc: Global,
    place: &Place<'_>,
    scope: &Scope<'_>,
    setting: &Setting<'_>,
    value: &Value,
) -> Result<Aggregate, DecodeError>
    ensures { Gives aggregate result
        (aggregate_at (class_names (scope_view scope.entry.now).classes) (setting_view setting.entry.now)
        (steps place.entry.now) (view value.now)) }
{
    if !is_aggregate(value) {
        return single_at(alloc, place, setting, value);
    }
    let form = aggregate_form_at(alloc, place, value)?;
    aggregate_from(alloc, place, scope, setting, form)
}
