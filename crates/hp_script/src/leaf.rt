//! Expressions without operands.

ghost use Rattle.serde_json.specs.Data.{Data};
ghost use Rattle.serde_json.specs.View.{view};
ghost use Rattle.hp_model.specs.Expressions.{Expression};
ghost use Rattle.hp_model.specs.Refusals.{Path, Decoded};
ghost use Rattle.hp_model.specs.ExpressionGrammar.{text_at, field_of_at, key_of_at, key_in_at, argument_at};
ghost use Rattle.hp_model.specs.ExpressionGrammar.{time_of_at, value_named_at, expression_from};
ghost use Rattle.hp_value.specs.Mapped.{expression};
ghost use Rattle.hp_rule.specs.Places.{steps};
ghost use Rattle.hp_script.specs.Forms.{leaf_form_view};
ghost use Rattle.hp_script.specs.Mapped.{Gives};
ghost use Rattle.hp_script.specs.Settings.{setting_view};
ghost use Rattle.hp_script.specs.Sides.{side_field_at};

use crate::expression_form::LeafForm;
use crate::known::{let_at, row_at};
use crate::name::name_at;
use crate::number::index_at;
use crate::refusal::{DecodeError, Refusal};
use crate::setting::Setting;
use hp_rule::{Limit, Place};
use hp_value::{Expr, Value as Constant};
use serde_json::Value;
use std::alloc::Global;

/// The most bytes that a text may have.
const MAX_TEXT: usize = 1_024;

/// The row after a change, or the row before it.
#[derive(Clone, Copy)]
pub(crate) enum Side {
    New,
    Old,
}

#[tactic(auto, unfolding(hp_model::specs::ExpressionGrammar::text_at))]
fn text_at(alloc: Global, text: &str) -> Result<Expr, DecodeError>
    ensures { Gives expression result (text_at text.now) }
{
    if text.len() > MAX_TEXT {
        return Err(DecodeError::Refused(Refusal::S5(Limit::Text)));
    }
    let text = String::from_str(alloc, text)?;
    let text = Box::new(alloc, text)?;
    Ok(Expr::literal(Constant::Text(text)))
}

#[tactic(auto, unfolding(hp_model::specs::ExpressionGrammar::field_of_at))]
fn field_of_at(
    alloc: Global,
    place: &Place<'_>,
    setting: &Setting<'_>,
    variable: &Value,
    field: &Value,
) -> Result<Expr, DecodeError>
    ensures { Gives expression result
        (field_of_at (setting_view setting.now) (steps place.now) (view variable.now) (view field.now)) }
{
    let variable = row_at(alloc, &place.item(1), &setting.names, variable)?;
    let field = name_at(alloc, &place.item(2), field)?;
    let variable = String::from_str(alloc, variable)?;
    let field = String::from_str(alloc, field)?;
    Ok(Expr::FieldOf { variable, field })
}

#[tactic(auto, unfolding(hp_model::specs::ExpressionGrammar::key_of_at))]
fn key_of_at(
    alloc: Global,
    place: &Place<'_>,
    setting: &Setting<'_>,
    variable: &Value,
) -> Result<Expr, DecodeError>
    ensures { Gives expression result (key_of_at (setting_view setting.now) (steps place.now) (view variable.now)) }
{
    let variable = row_at(alloc, &place.item(1), &setting.names, variable)?;
    let variable = String::from_str(alloc, variable)?;
    Ok(Expr::KeyOf { variable })
}

#[tactic(auto, unfolding(hp_model::specs::ExpressionGrammar::new_field_at, hp_model::specs::ExpressionGrammar::old_field_at))]
fn side_field_at(
    alloc: Global,
    place: &Place<'_>,
    side: Side,
    part: &Value,
    field: &Value,
) -> Result<Expr, DecodeError>
    ensures { Gives expression result (side_field_at side (steps place.now) (view part.now) (view field.now)) }
{
    let part = index_at(alloc, &place.item(1), part)?;
    let field = name_at(alloc, &place.item(2), field)?;
    let field = String::from_str(alloc, field)?;
    match side {
        Side::New => Ok(Expr::NewField { part, field }),
        Side::Old => Ok(Expr::OldField { part, field }),
    }
}

#[tactic(auto, unfolding(hp_model::specs::ExpressionGrammar::key_in_at))]
fn key_in_at(alloc: Global, place: &Place<'_>, part: &Value) -> Result<Expr, DecodeError>
    ensures { Gives expression result (key_in_at (steps place.now) (view part.now)) }
{
    let part = index_at(alloc, &place.item(1), part)?;
    Ok(Expr::KeyIn { part })
}

#[tactic(auto, unfolding(hp_model::specs::ExpressionGrammar::argument_at))]
fn argument_at(
    alloc: Global,
    place: &Place<'_>,
    part: &Value,
    position: &Value,
) -> Result<Expr, DecodeError>
    ensures { Gives expression result (argument_at (steps place.now) (view part.now) (view position.now)) }
{
    let part = index_at(alloc, &place.item(1), part)?;
    let position = index_at(alloc, &place.item(2), position)?;
    Ok(Expr::Argument {
        part,
        place: position,
    })
}

#[tactic(auto, unfolding(hp_model::specs::ExpressionGrammar::time_of_at))]
fn time_of_at(alloc: Global, place: &Place<'_>, part: &Value) -> Result<Expr, DecodeError>
    ensures { Gives expression result (time_of_at (steps place.now) (view part.now)) }
{
    let part = index_at(alloc, &place.item(1), part)?;
    Ok(Expr::TimeOf { part })
}

#[tactic(auto, unfolding(hp_model::specs::ExpressionGrammar::value_named_at))]
fn value_named_at(
    alloc: Global,
    place: &Place<'_>,
    setting: &Setting<'_>,
    name: &Value,
) -> Result<Expr, DecodeError>
    ensures { Gives expression result (value_named_at (setting_view setting.now) (steps place.now) (view name.now)) }
{
    let name = let_at(alloc, &place.item(1), &setting.names, name)?;
    let name = String::from_str(alloc, name)?;
    Ok(Expr::ValueOf { name })
}

/// The expression at a place of a form without operands.
pub(crate) fn leaf_at(
    alloc: Global,
    place: &Place<'_>,
    setting: &Setting<'_>,
    form: LeafForm<'_>,
) -> Result<Expr, DecodeError>
    ensures { (operand : Path → Data → Decoded Expression) → Gives expression result
        (expression_from (setting_view setting.now) operand (steps place.now) (leaf_form_view form.entry)) }
{
    match form {
        LeafForm::Integer(integer) => Ok(Expr::literal(Constant::Int(integer))),
        LeafForm::Truth(truth) => Ok(Expr::literal(Constant::Bool(truth))),
        LeafForm::Text(text) => text_at(alloc, text),
        LeafForm::FieldOf(variable, field) => field_of_at(alloc, place, setting, variable, field),
        LeafForm::KeyOf(variable) => key_of_at(alloc, place, setting, variable),
        LeafForm::NewField(part, field) => side_field_at(alloc, place, Side::New, part, field),
        LeafForm::OldField(part, field) => side_field_at(alloc, place, Side::Old, part, field),
        LeafForm::KeyIn(part) => key_in_at(alloc, place, part),
        LeafForm::Argument(part, position) => argument_at(alloc, place, part, position),
        LeafForm::TimeOf(part) => time_of_at(alloc, place, part),
        LeafForm::Count => Ok(Expr::Count),
        LeafForm::Now => Ok(Expr::Now),
        LeafForm::ValueOf(name) => value_named_at(alloc, place, setting, name),
    }
}
