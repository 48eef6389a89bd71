//! Conditions and their entries.

ghost use Rattle.std.specs.Prelude.{map};
ghost use Rattle.serde_json.specs.View.{view};
ghost use Rattle.hp_model.specs.Scopes.{class_names};
ghost use Rattle.hp_model.specs.Decode.{let_entry_at, entry_from, entry_at, condition_at};
ghost use Rattle.hp_query.specs.Mapped.{entry};
ghost use Rattle.hp_rule.specs.Places.{steps};
ghost use Rattle.hp_script.specs.Entries.{entry_form_view};
ghost use Rattle.hp_script.specs.Forms.{scope_view};
ghost use Rattle.hp_script.specs.Mapped.{Gives};
ghost use Rattle.hp_script.specs.Settings.{setting_view};
ghost use Rattle.hp_script.specs.Versions.{version_view};

use crate::aggregate::aggregate_at;
use crate::entry_form::{EntryForm, entry_form_of};
use crate::known::new_row_at;
use crate::list::list_at;
use crate::query::query_at;
use crate::refusal::{DecodeError, shaped};
use crate::scope::Scope;
use crate::setting::Setting;
use hp_rule::{Entry, KnownNames, Place};
use serde_json::Value;
use std::alloc::Global;

/// The value in the form `let` at a place. Its name isn't known in its own aggregate.
#[tactic(auto, unfolding(hp_model::specs::Decode::let_entry_at))]
fn let_entry_at(
    alloc: Global,
    place: &Place<'_>,
    scope: &Scope<'_>,
    setting: &Setting<'_>,
    name: &Value,
    aggregate: &Value,
) -> Result<Entry, DecodeError>
    ensures { Gives entry result
        (let_entry_at (class_names (scope_view scope.entry.now).classes) (setting_view setting.entry.now)
        (steps place.entry.now) (view name.now) (view aggregate.now)) }
{
    let name = new_row_at(alloc, &place.item(1), &setting.names, name)?;
    let aggregate = aggregate_at(alloc, &place.item(2), scope, setting, aggregate)?;
    let name = String::from_str(alloc, name)?;
    Ok(Entry::Let { name, aggregate })
}

/// The entry at a place of a form.
fn entry_from(
    alloc: Global,
    place: &Place<'_>,
    scope: &Scope<'_>,
    setting: &Setting<'_>,
    form: EntryForm<'_>,
) -> Result<Entry, DecodeError>
    ensures { Gives entry result
        (entry_from (class_names (scope_view scope.entry.now).classes) (setting_view setting.entry.now)
        (steps place.entry.now) (entry_form_view form.entry)) }
{
    match form {
        EntryForm::Query(form) => {
            let query = query_at(alloc, place, 0, scope, setting, form)?;
            Ok(Entry::Query(query))
        }
        EntryForm::No(form) => {
            let query = query_at(alloc, place, 1, scope, setting, form)?;
            Ok(Entry::No(query))
        }
        EntryForm::Let(name, aggregate) => let_entry_at(
            alloc, place, scope, setting, name, aggregate,
        ),
    }
}

/// The entry at a place, which may use what the entries before it name.
#[tactic(auto, unfolding(hp_model::specs::Decode::entry_at))]
fn entry_at(
    alloc: Global,
    place: &Place<'_>,
    scope: &Scope<'_>,
    before: &[Entry],
    value: &Value,
) -> Result<Entry, DecodeError>
    ensures { Gives entry result
        (entry_at (version_view scope.entry.now.version) (class_names (scope_view scope.entry.now).classes)
        (map entry before.now) (steps place.now) (view value.now)) }
{
    let form = shaped(alloc, place, entry_form_of(scope.version, value))?;
    let setting = Setting {
        version: scope.version,
        names: KnownNames::Entries(before),
    };
    entry_from(alloc, place, scope, &setting, form)
}

/// The condition at a place.
#[tactic(auto, unfolding(hp_model::specs::Decode::condition_at))]
pub(crate) fn condition_at(
    alloc: Global,
    place: &Place<'_>,
    scope: &Scope<'_>,
    value: &Value,
) -> Result<Vec<Entry>, DecodeError>
    ensures { Gives (λ entries. map entry entries.items) result
        (condition_at (version_view scope.entry.now.version) (class_names (scope_view scope.entry.now).classes)
        (steps place.now) (view value.now)) }
{
    let values = list_at(alloc, place, value)?;
    let mut entries = Vec::with_capacity(alloc, values.len())?;
    for (i, value) in values.iter().enumerate() {
        let entry = entry_at(alloc, &place.item(i), scope, entries.as_slice(), value)?;
        entries.push(entry)?;
    }
    Ok(entries)
}
