//! Classes and their fields.

ghost use Rattle.std.specs.Prelude.{◌≡◌, map};
ghost use Rattle.hp_value.specs.Mapped.{class_def, field};
ghost use Rattle.hp_model.specs.Checked.{is_known, class_names, field_names, field_definition_check, fields_check};
ghost use Rattle.hp_model.specs.Checked.{class_definition_check, classes_check};
ghost use Rattle.hp_rule.specs.Faults.{Passes};
ghost use Rattle.hp_rule.specs.Places.{steps};

use crate::check::name::{check_limit, check_unless};
use crate::fault::{CheckError, Limit};
use crate::place::Place;
use hp_value::{ClassDef, Field};
use std::alloc::Global;

const MAX_CLASSES: usize = 64;

const MAX_FIELDS: usize = 32;

/// Whether a field has this name.
pub(crate) fn has_field(fields: &[Field], name: &str) -> bool
    ensures { result ≡ is_known (field_names (map field fields.now)) name.now }
{
    fields.iter().any(|field| field.name.as_str() == name)
}

/// Whether a class has this name.
fn has_class(classes: &[ClassDef], name: &str) -> bool
    ensures { result ≡ is_known (class_names (map class_def classes.now)) name.now }
{
    classes.iter().any(|class| class.name.as_str() == name)
}

#[tactic(auto, unfolding(hp_model::specs::Checked::field_definition_check))]
fn check_field(
    alloc: Global,
    place: &Place<'_>,
    before: &[Field],
    defined: &Field,
) -> Result<(), CheckError>
    ensures { Passes result (field_definition_check (map field before.now) (steps place.now) (field defined.now)) }
{
    let name = defined.name.as_str();
    check_unless(alloc, &place.item(0), name, has_field(before, name))
}

#[tactic(auto, unfolding(hp_model::specs::Checked::fields_check))]
fn check_fields(alloc: Global, place: &Place<'_>, fields: &[Field]) -> Result<(), CheckError>
    ensures { Passes result (fields_check (steps place.now) (map field fields.now)) }
{
    check_limit(MAX_FIELDS, Limit::Fields, fields.len())?;
    for (i, field) in fields.iter().enumerate() {
        check_field(alloc, &place.item(i), &fields[..i], field)?;
    }
    Ok(())
}

#[tactic(auto, unfolding(hp_model::specs::Checked::class_definition_check))]
fn check_class(
    alloc: Global,
    place: &Place<'_>,
    before: &[ClassDef],
    class: &ClassDef,
) -> Result<(), CheckError>
    ensures { Passes result
        (class_definition_check (map class_def before.now) (steps place.now) (class_def class.now)) }
{
    let name = class.name.as_str();
    check_unless(alloc, &place.item(0), name, has_class(before, name))?;
    check_fields(alloc, &place.item(1), &class.fields)
}

/// Checks the classes of a library.
#[tactic(auto, unfolding(hp_model::specs::Checked::classes_check))]
pub(crate) fn check_classes(
    alloc: Global,
    place: &Place<'_>,
    classes: &[ClassDef],
) -> Result<(), CheckError>
    ensures { Passes result (classes_check (steps place.now) (map class_def classes.now)) }
{
    check_limit(MAX_CLASSES, Limit::Classes, classes.len())?;
    for (i, class) in classes.iter().enumerate() {
        check_class(alloc, &place.item(i), &classes[..i], class)?;
    }
    Ok(())
}
