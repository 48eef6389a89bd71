//! Expressions.

ghost use Rattle.std.specs.Prelude.{◌≡◌, Ok, IfSome};
ghost use Rattle.serde_json.specs.View.{view};
ghost use Rattle.hp_model.specs.Values as V;
ghost use Rattle.hp_model.specs.Expressions.{constant};
ghost use Rattle.hp_model.specs.Refusals.{Path};
ghost use Rattle.hp_model.specs.Scopes as S;
ghost use Rattle.hp_model.specs.ExpressionGrammar.{operands_at, expression_from, expression_within, expression_at};
ghost use Rattle.hp_value.specs.Mapped.{expression};
ghost use Rattle.hp_rule.specs.Places.{steps};
ghost use Rattle.hp_script.specs.Forms.{expression_form_view};
ghost use Rattle.hp_script.specs.Mapped.{Gives};
ghost use Rattle.hp_script.specs.Settings.{setting_view};

use crate::expression_form::{ExpressionForm, expression_form_at};
use crate::leaf::leaf_at;
use crate::refusal::{DecodeError, Refusal};
use crate::setting::Setting;
use hp_rule::{Limit, Place};
use hp_value::{Expr, Value as Constant};
use serde_json::Value;
use std::alloc::Global;

/// The most levels that an expression may have.
const MAX_LEVELS: usize = 16;

/// The integer in a value, if it is an expression of at most `levels` levels. Most operands of scripts are integers,
/// and so need no form.
#[tactic(auto, using(crate::proofs::Integers::integer_read))]
fn plain_integer(levels: usize, value: &Value) -> Option<i64>
    ensures { IfSome result (λ z. (setting : S.Setting) (path : Path) →
        expression_within setting levels path (view value.now) ≡ Ok (constant (V.integer z))) }
{
    if levels == 0 {
        return None;
    }
    value.as_i64()
}

/// The expression at a place of a form, each of whose operands has at most `levels` levels.
#[cycle(expression)]
fn expression_from(
    alloc: Global,
    place: &Place<'_>,
    setting: &Setting<'_>,
    levels: usize,
    form: ExpressionForm<'_>,
) -> Result<Expr, DecodeError>
    ensures { let setting = setting_view setting.now in Gives expression result
        (expression_from setting (expression_within setting levels) (steps place.now)
        (expression_form_view form.entry)) }
{
    match form {
        ExpressionForm::Arithmetic(operator, left, right) => {
            let (left, right) = operands_at(alloc, place, setting, levels, left, right)?;
            Ok(Expr::Arithmetic(operator, left, right))
        }
        ExpressionForm::Comparison(operator, left, right) => {
            let (left, right) = operands_at(alloc, place, setting, levels, left, right)?;
            Ok(Expr::Comparison(operator, left, right))
        }
        ExpressionForm::Negated(operand) => {
            let operand = operand_at(alloc, &place.item(1), setting, levels, operand)?;
            Ok(Expr::Negated(operand))
        }
        ExpressionForm::Not(operand) => {
            let operand = operand_at(alloc, &place.item(1), setting, levels, operand)?;
            Ok(Expr::Not(operand))
        }
        ExpressionForm::And(left, right) => {
            let (left, right) = operands_at(alloc, place, setting, levels, left, right)?;
            Ok(Expr::And(left, right))
        }
        ExpressionForm::Or(left, right) => {
            let (left, right) = operands_at(alloc, place, setting, levels, left, right)?;
            Ok(Expr::Or(left, right))
        }
        ExpressionForm::Leaf(form) => leaf_at(alloc, place, setting, form),
    }
}

/// The expression at a place, which has at most `levels` levels.
#[cycle(expression)]
#[tactic(auto, unfolding(hp_model::specs::ExpressionGrammar::expression_within))]
fn expression_within(
    alloc: Global,
    place: &Place<'_>,
    setting: &Setting<'_>,
    levels: usize,
    value: &Value,
) -> Result<Expr, DecodeError>
    ensures { Gives expression result
        (expression_within (setting_view setting.now) levels (steps place.now) (view value.now)) }
{
    let form = expression_form_at(alloc, place, setting.version, value)?;
    if levels == 0 {
        return Err(DecodeError::Refused(Refusal::S5(Limit::Expression)));
    }
    expression_from(alloc, place, setting, levels - 1, form)
}

#[cycle(expression)]
fn operand_at(
    alloc: Global,
    place: &Place<'_>,
    setting: &Setting<'_>,
    levels: usize,
    value: &Value,
) -> Result<Box<Expr>, DecodeError>
    ensures { Gives (λ e. expression e.value) result
        (expression_within (setting_view setting.now) levels (steps place.now) (view value.now)) }
{
    if let Some(integer) = plain_integer(levels, value) {
        return Ok(Box::new(alloc, Expr::literal(Constant::Int(integer)))?);
    }
    let operand = expression_within(alloc, place, setting, levels, value)?;
    Ok(Box::new(alloc, operand)?)
}

/// The two operands of the form at a place.
#[cycle(expression)]
#[tactic(auto, unfolding(hp_model::specs::ExpressionGrammar::operands_at))]
fn operands_at(
    alloc: Global,
    place: &Place<'_>,
    setting: &Setting<'_>,
    levels: usize,
    left: &Value,
    right: &Value,
) -> Result<(Box<Expr>, Box<Expr>), DecodeError>
    ensures { Gives (λ p. (expression p.0.value, expression p.1.value)) result
        (operands_at (expression_within (setting_view setting.now) levels) (steps place.now)
        (view left.now) (view right.now)) }
{
    let left = operand_at(alloc, &place.item(1), setting, levels, left)?;
    let right = operand_at(alloc, &place.item(2), setting, levels, right)?;
    Ok((left, right))
}

/// The expression at a place.
pub(crate) fn expression_at(
    alloc: Global,
    place: &Place<'_>,
    setting: &Setting<'_>,
    value: &Value,
) -> Result<Expr, DecodeError>
    ensures { Gives expression result
        (expression_at (setting_view setting.now) (steps place.now) (view value.now)) }
{
    if let Some(integer) = plain_integer(MAX_LEVELS, value) {
        return Ok(Expr::literal(Constant::Int(integer)));
    }
    expression_within(alloc, place, setting, MAX_LEVELS, value)
}

/// The expression at a place, in a box.
pub(crate) fn boxed_expression_at(
    alloc: Global,
    place: &Place<'_>,
    setting: &Setting<'_>,
    value: &Value,
) -> Result<Box<Expr>, DecodeError>
    ensures { Gives (λ e. expression e.value) result
        (expression_at (setting_view setting.now) (steps place.now) (view value.now)) }
{
    operand_at(alloc, place, setting, MAX_LEVELS, value)
}
