//! Assignments: pairs of a field and the expression that it is set to.

ghost use Rattle.std.specs.Prelude.{◌≡◌, map};
ghost use Rattle.hp_value.specs.Mapped.{field};
ghost use Rattle.hp_rule.specs.Statements.{assignment};
ghost use Rattle.hp_model.specs.Checked.{is_known, field_names, assigned_names, assigned_check, assignment_check};
ghost use Rattle.hp_model.specs.Checked.{assignments_check};
ghost use Rattle.hp_rule.specs.Faults.{Passes};
ghost use Rattle.hp_rule.specs.Named.{names_in};
ghost use Rattle.hp_rule.specs.Places.{steps};

use crate::check::classes::has_field;
use crate::check::expr::check_expr;
use crate::check::name::check_unless;
use crate::fault::{CheckError, bad_name};
use crate::known_names::KnownNames;
use crate::place::Place;
use crate::stmt::Assignment;
use hp_value::Field;
use std::alloc::Global;

/// Whether an assignment sets this field.
fn is_assigned(pairs: &[Assignment], field: &str) -> bool
    ensures { result ≡ is_known (assigned_names (map assignment pairs.now)) field.now }
{
    pairs.iter().any(|pair| pair.field.as_str() == field)
}

/// Checks that the field of an assignment is one of the class, and isn't set by an earlier one.
#[tactic(auto, unfolding(hp_model::specs::Checked::assigned_check))]
fn check_assigned(
    alloc: Global,
    place: &Place<'_>,
    fields: &[Field],
    before: &[Assignment],
    name: &str,
) -> Result<(), CheckError>
    ensures { Passes result
        (assigned_check (field_names (map field fields.now)) (assigned_names (map assignment before.now))
        (steps place.now) name.now) }
{
    check_unless(alloc, place, name, is_assigned(before, name))?;
    if !has_field(fields, name) {
        return Err(bad_name(alloc, place));
    }
    Ok(())
}

#[tactic(auto, unfolding(hp_model::specs::Checked::assignment_check))]
fn check_pair(
    alloc: Global,
    place: &Place<'_>,
    fields: &[Field],
    names: &KnownNames<'_>,
    before: &[Assignment],
    pair: &Assignment,
) -> Result<(), CheckError>
    ensures { Passes result
        (assignment_check (map field fields.now) (names_in names.now) (map assignment before.now) (steps place.now)
        (assignment pair.now)) }
{
    check_assigned(alloc, &place.item(0), fields, before, pair.field.as_str())?;
    check_expr(alloc, &place.item(1), names, &pair.value)
}

/// Checks the assignments of a statement on an object with these fields.
pub(crate) fn check_pairs(
    alloc: Global,
    place: &Place<'_>,
    fields: &[Field],
    names: &KnownNames<'_>,
    pairs: &[Assignment],
) -> Result<(), CheckError>
    ensures { Passes result
        (assignments_check (map field fields.now) (names_in names.now) (steps place.now)
        (map assignment pairs.now)) }
{
    for (i, pair) in pairs.iter().enumerate() {
        check_pair(alloc, &place.item(i), fields, names, &pairs[..i], pair)?;
    }
    Ok(())
}
