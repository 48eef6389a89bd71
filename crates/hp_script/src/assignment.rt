//! Assignments: a field of a class and its new value.

ghost use Rattle.std.specs.Prelude.{map};
ghost use Rattle.serde_json.specs.View.{view};
ghost use Rattle.hp_model.specs.Scopes.{field_names};
ghost use Rattle.hp_model.specs.StatementGrammar.{assigned_names, assigned_field_at};
ghost use Rattle.hp_model.specs.StatementGrammar.{assignment_at, assignments_at, all_assignments_at};
ghost use Rattle.hp_value.specs.Mapped.{field};
ghost use Rattle.hp_rule.specs.Mapped.{assignment};
ghost use Rattle.hp_rule.specs.Places.{steps};
ghost use Rattle.hp_script.specs.Mapped.{Gives};
ghost use Rattle.hp_script.specs.Settings.{setting_view};

use crate::expression::expression_at;
use crate::list::list_at;
use crate::names::{Names, new_name_at};
use crate::refusal::{DecodeError, bad_name, shaped};
use crate::setting::Setting;
use crate::shape::pair_of;
use hp_rule::{Assignment, Place};
use hp_value::Field;
use serde_json::Value;
use std::alloc::Global;

/// The name of a field of the class that no assignment before sets.
#[tactic(auto, unfolding(hp_model::specs::StatementGrammar::assigned_field_at))]
fn assigned_field_at<'a>(
    alloc: Global,
    place: &Place<'_>,
    fields: &[Field],
    before: &[Assignment],
    value: &'a Value,
) -> Result<&'a str, DecodeError>
    ensures { Gives (λ x. x.now) result
        (assigned_field_at (field_names (map field fields.now)) (assigned_names (map assignment before.now))
        (steps place.now) (view value.entry.now)) }
{
    let name = new_name_at(alloc, place, Names::Assignments(before), value)?;
    if Names::Fields(fields).place(name).is_none() {
        return Err(bad_name(alloc, place));
    }
    Ok(name)
}

#[tactic(auto, unfolding(hp_model::specs::StatementGrammar::assignment_at))]
fn assignment_at(
    alloc: Global,
    place: &Place<'_>,
    fields: &[Field],
    setting: &Setting<'_>,
    before: &[Assignment],
    value: &Value,
) -> Result<Assignment, DecodeError>
    ensures { Gives assignment result
        (assignment_at (field_names (map field fields.now)) (setting_view setting.now) (map assignment before.now)
        (steps place.now) (view value.now)) }
{
    let (name, value) = shaped(alloc, place, pair_of(value))?;
    let name = assigned_field_at(alloc, &place.item(0), fields, before, name)?;
    let value = expression_at(alloc, &place.item(1), setting, value)?;
    let field = String::from_str(alloc, name)?;
    Ok(Assignment { field, value })
}

/// The assignments of an `update`: to some of the fields, at most one to each.
#[tactic(auto, unfolding(hp_model::specs::StatementGrammar::assignments_at))]
pub(crate) fn assignments_at(
    alloc: Global,
    place: &Place<'_>,
    fields: &[Field],
    setting: &Setting<'_>,
    value: &Value,
) -> Result<Vec<Assignment>, DecodeError>
    ensures { Gives (λ pairs. map assignment pairs.items) result
        (assignments_at (field_names (map field fields.now)) (setting_view setting.now)
        (steps place.now) (view value.now)) }
{
    let values = list_at(alloc, place, value)?;
    let mut pairs = Vec::with_capacity(alloc, values.len())?;
    for (i, value) in values.iter().enumerate() {
        let pair = assignment_at(
            alloc,
            &place.item(i),
            fields,
            setting,
            pairs.as_slice(),
            value,
        )?;
        pairs.push(pair)?;
    }
    Ok(pairs)
}

/// The assignments of a `create`: one to each of the fields.
#[tactic(auto, unfolding(hp_model::specs::StatementGrammar::all_assignments_at))]
pub(crate) fn all_assignments_at(
    alloc: Global,
    place: &Place<'_>,
    fields: &[Field],
    setting: &Setting<'_>,
    value: &Value,
) -> Result<Vec<Assignment>, DecodeError>
    ensures { Gives (λ pairs. map assignment pairs.items) result
        (all_assignments_at (field_names (map field fields.now)) (setting_view setting.now)
        (steps place.now) (view value.now)) }
{
    let pairs = assignments_at(alloc, place, fields, setting, value)?;
    if pairs.len() < fields.len() {
        return Err(bad_name(alloc, place));
    }
    Ok(pairs)
}
