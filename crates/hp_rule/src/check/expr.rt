//! Expressions.

ghost use Rattle.hp_value.specs.Mapped.{value, expression};
ghost use Rattle.hp_model.specs.Checked.{constant_check, field_check, operands_check, known_name_check};
ghost use Rattle.hp_model.specs.Checked.{expression_check, whole_expression_check};
ghost use Rattle.hp_rule.specs.Faults.{Passes};
ghost use Rattle.hp_rule.specs.Named.{names_in};
ghost use Rattle.hp_rule.specs.Places.{steps};

use crate::check::name::{check_limit, check_name, check_unless};
use crate::fault::{CheckError, Limit, over_limit};
use crate::known_names::KnownNames;
use crate::place::Place;
use hp_value::{Expr, Value};
use std::alloc::Global;

const MAX_LEVELS: usize = 16;

const MAX_TEXT: usize = 1_024;

fn check_constant(constant: &Value) -> Result<(), CheckError>
    ensures { Passes result (constant_check (value constant.now)) }
{
    match constant {
        Value::Text(text) => check_limit(MAX_TEXT, Limit::Text, text.len()),
        Value::Int(_) | Value::Bool(_) => Ok(()),
    }
}

/// Checks that the name of a row is in scope.
fn check_row(
    alloc: Global,
    place: &Place<'_>,
    names: &KnownNames<'_>,
    variable: &str,
) -> Result<(), CheckError>
    ensures { Passes result (known_name_check (names_in names.now).rows (steps place.now) variable.now) }
{
    check_unless(alloc, place, variable, !names.knows_row(variable))
}

/// Checks that the name of a value is in scope.
fn check_value(
    alloc: Global,
    place: &Place<'_>,
    names: &KnownNames<'_>,
    name: &str,
) -> Result<(), CheckError>
    ensures { Passes result (known_name_check (names_in names.now).values (steps place.now) name.now) }
{
    check_unless(alloc, place, name, !names.knows_value(name))
}

#[tactic(auto, unfolding(hp_model::specs::Checked::field_check))]
fn check_field(
    alloc: Global,
    place: &Place<'_>,
    names: &KnownNames<'_>,
    variable: &str,
    field: &str,
) -> Result<(), CheckError>
    ensures { Passes result (field_check (names_in names.now) (steps place.now) variable.now field.now) }
{
    check_row(alloc, &place.item(1), names, variable)?;
    check_name(alloc, &place.item(2), field)
}

/// Checks an expression of at most `levels` levels.
#[cycle(expr)]
#[tactic(auto, unfolding(hp_model::specs::Checked::expression_check))]
fn check_levels(
    alloc: Global,
    place: &Place<'_>,
    names: &KnownNames<'_>,
    levels: usize,
    expr: &Expr,
) -> Result<(), CheckError>
    ensures { Passes result (expression_check (names_in names.now) levels (steps place.now) (expression expr.now)) }
{
    if levels == 0 {
        return Err(over_limit(Limit::Expression));
    }
    let levels = levels - 1;
    match expr {
        Expr::Constant(constant) => check_constant(constant.value()),
        Expr::Arithmetic(_, a, b) | Expr::Comparison(_, a, b) | Expr::And(a, b) | Expr::Or(a, b) =>
            { check_operands(alloc, place, names, levels, a, b) }
        Expr::Negated(a) | Expr::Not(a) => check_levels(alloc, &place.item(1), names, levels, a),
        Expr::FieldOf { variable, field } => check_field(
            alloc,
            place,
            names,
            variable.as_str(),
            field.as_str(),
        ),
        Expr::KeyOf { variable } => check_row(alloc, &place.item(1), names, variable.as_str()),
        Expr::NewField { field, .. } | Expr::OldField { field, .. } => check_name(
            alloc,
            &place.item(2),
            field.as_str(),
        ),
        Expr::ValueOf { name } => check_value(alloc, &place.item(1), names, name.as_str()),
        Expr::KeyIn { .. }
        | Expr::Argument { .. }
        | Expr::TimeOf { .. }
        | Expr::Count
        | Expr::Now => Ok(()),
    }
}

#[cycle(expr)]
#[tactic(auto, unfolding(hp_model::specs::Checked::operands_check))]
fn check_operands(
    alloc: Global,
    place: &Place<'_>,
    names: &KnownNames<'_>,
    levels: usize,
    left: &Expr,
    right: &Expr,
) -> Result<(), CheckError>
    ensures { Passes result
        (operands_check (expression_check (names_in names.now) levels) (steps place.now) (expression left.now)
        (expression right.now)) }
{
    check_levels(alloc, &place.item(1), names, levels, left)?;
    check_levels(alloc, &place.item(2), names, levels, right)
}

/// Checks an expression.
pub(crate) fn check_expr(
    alloc: Global,
    place: &Place<'_>,
    names: &KnownNames<'_>,
    expr: &Expr,
) -> Result<(), CheckError>
    ensures { Passes result (whole_expression_check (names_in names.now) (steps place.now) (expression expr.now)) }
{
    check_levels(alloc, place, names, MAX_LEVELS, expr)
}
