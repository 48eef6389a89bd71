//! Classes and their fields.

ghost use Rattle.std.specs.Prelude.{◌≡◌, ◌≤◌, length, map, option_map, IfOk};
ghost use Rattle.serde_json.specs.View.{view};
ghost use Rattle.hp_model.specs.Decode.{kind_of_word, kind_at, field_at, fields_at, class_at, classes_at};
ghost use Rattle.hp_value.specs.Mapped.{kind, field, class_def};
ghost use Rattle.hp_rule.specs.Places.{steps};
ghost use Rattle.hp_script.specs.Mapped.{Gives};

use crate::list::short_list_at;
use crate::names::{Names, new_name_at};
use crate::refusal::{DecodeError, shaped};
use crate::shape::pair_of;
use hp_rule::{Limit, Place};
use hp_value::{ClassDef, Field, Kind};
use serde_json::Value;
use std::alloc::Global;
use std::sync::Arc;

/// The most fields that a class may have.
const MAX_FIELDS: usize = 32;

/// The most classes that a script may have.
const MAX_CLASSES: usize = 64;

fn kind_of_word(word: &str) -> Option<Kind>
    ensures { option_map kind result ≡ kind_of_word word.now }
{
    match word {
        "int" => Some(Kind::Int),
        "bool" => Some(Kind::Bool),
        "text" => Some(Kind::Text),
        _ => None,
    }
}

fn kind_at(alloc: Global, place: &Place<'_>, value: &Value) -> Result<Kind, DecodeError>
    ensures { Gives kind result (kind_at (steps place.now) (view value.now)) }
{
    let word = shaped(alloc, place, value.as_str())?;
    shaped(alloc, place, kind_of_word(word))
}

#[tactic(auto, unfolding(hp_model::specs::Decode::field_at))]
fn field_at(
    alloc: Global,
    place: &Place<'_>,
    before: &[Field],
    value: &Value,
) -> Result<Field, DecodeError>
    ensures { Gives field result (field_at (map field before.now) (steps place.now) (view value.now)) }
{
    let (name, kind) = shaped(alloc, place, pair_of(value))?;
    let name = new_name_at(alloc, &place.item(0), Names::Fields(before), name)?;
    let kind = kind_at(alloc, &place.item(1), kind)?;
    let name = String::from_str(alloc, name)?;
    Ok(Field { name, kind })
}

#[tactic(auto, unfolding(hp_model::specs::Decode::fields_at))]
fn fields_at(alloc: Global, place: &Place<'_>, value: &Value) -> Result<Vec<Field>, DecodeError>
    ensures { Gives (λ fields. map field fields.items) result (fields_at (steps place.now) (view value.now)) }
{
    let values = short_list_at(alloc, place, MAX_FIELDS, Limit::Fields, value)?;
    let mut fields = Vec::with_capacity(alloc, values.len())?;
    for (i, value) in values.iter().enumerate() {
        let field = field_at(alloc, &place.item(i), fields.as_slice(), value)?;
        fields.push(field)?;
    }
    Ok(fields)
}

#[tactic(auto, unfolding(hp_model::specs::Decode::class_at))]
fn class_at(
    alloc: Global,
    place: &Place<'_>,
    before: &[ClassDef],
    value: &Value,
) -> Result<ClassDef, DecodeError>
    ensures { Gives class_def result (class_at (map class_def before.now) (steps place.now) (view value.now)) }
{
    let (name, fields) = shaped(alloc, place, pair_of(value))?;
    let name = new_name_at(alloc, &place.item(0), Names::Classes(before), name)?;
    let fields = fields_at(alloc, &place.item(1), fields)?;
    let fields = Arc::new(alloc, fields)?;
    let name = String::from_str(alloc, name)?;
    Ok(ClassDef { name, fields })
}

/// The classes at a place.
#[tactic(auto, unfolding(hp_model::specs::Decode::classes_at))]
pub(crate) fn classes_at(
    alloc: Global,
    place: &Place<'_>,
    value: &Value,
) -> Result<Vec<ClassDef>, DecodeError>
    ensures reads { Gives (λ classes. map class_def classes.items) result
        (classes_at (steps place.now) (view value.now)) }
    ensures few { IfOk result (λ classes. length classes.items ≤ 64) }
{
    let values = short_list_at(alloc, place, MAX_CLASSES, Limit::Classes, value)?;
    let mut classes = Vec::with_capacity(alloc, values.len())?;
    for (i, value) in values.iter().enumerate() {
        let class = class_at(alloc, &place.item(i), classes.as_slice(), value)?;
        classes.push(class)?;
    }
    Ok(classes)
}
