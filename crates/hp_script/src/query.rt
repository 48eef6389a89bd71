//! Queries.

ghost use Rattle.std.specs.Prelude.{◌≤◌, ◌+◌};
ghost use Rattle.serde_json.specs.View.{view};
ghost use Rattle.hp_model.specs.Refusals.{item_at};
ghost use Rattle.hp_model.specs.Scopes.{class_names};
ghost use Rattle.hp_model.specs.Decode.{query_at};
ghost use Rattle.hp_query.specs.Mapped.{query};
ghost use Rattle.hp_rule.specs.Places.{steps};
ghost use Rattle.hp_script.specs.Forms.{scope_view};
ghost use Rattle.hp_script.specs.Mapped.{Gives};
ghost use Rattle.hp_script.specs.Settings.{setting_view};

use crate::expression::boxed_expression_at;
use crate::known::new_row_at;
use crate::reference::class_at;
use crate::refusal::DecodeError;
use crate::scope::Scope;
use crate::setting::Setting;
use hp_rule::{Place, Query};
use serde_json::Value;
use std::alloc::Global;

/// The parts of a query, as JSON.
#[derive(Clone, Copy)]
pub(crate) struct QueryForm<'a> {
    pub name: &'a Value,
    pub class: &'a Value,
    pub predicate: &'a Value,
}

/// The query in the form at a place, where its name is the item `first`, which its class and its predicate follow. The
/// predicate may use the query's own row.
#[tactic(auto, unfolding(hp_model::specs::Decode::query_at))]
pub(crate) fn query_at(
    alloc: Global,
    place: &Place<'_>,
    first: usize,
    scope: &Scope<'_>,
    setting: &Setting<'_>,
    form: QueryForm<'_>,
) -> Result<Query, DecodeError>
    requires { first ≤ 1 }
    ensures { Gives query result
        (query_at (class_names (scope_view scope.entry.now).classes) (setting_view setting.entry.now)
        (item_at (steps place.entry.now) first) (item_at (steps place.entry.now) (first + 1))
        (item_at (steps place.entry.now) (first + 2))
        (view form.entry.name.now) (view form.entry.class.now) (view form.entry.predicate.now)) }
{
    let name = new_row_at(alloc, &place.item(first), &setting.names, form.name)?;
    let class = class_at(alloc, &place.item(first + 1), scope, form.class)?;
    let inner = setting.with_row(name);
    let predicate = boxed_expression_at(alloc, &place.item(first + 2), &inner, form.predicate)?;
    let name = String::from_str(alloc, name)?;
    Ok(Query {
        name,
        class,
        predicate,
    })
}
