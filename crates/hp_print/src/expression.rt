//! Expressions.

ghost use Rattle.std.specs.Prelude.{◌≡◌, OnOk, map};
ghost use Rattle.serde_json.specs.View.{view};
ghost use Rattle.hp_model.specs.NotationForms as F;
ghost use Rattle.hp_model.specs.NotationPrint.{expression_pieces, expression_in, enclosed_if, apart_from};
ghost use Rattle.hp_model.specs.Json.{beside};
ghost use Rattle.hp_model.specs.NotationValues.{of_one, of_two, chosen};
ghost use Rattle.hp_model.specs.NotationValues.{expression_of, any_expression, expressions_of_two};
ghost use Rattle.hp_model.specs.NotationValues.{expression_of_one, expression_of_two, expression_of_form};
ghost use Rattle.hp_print.specs.Written.{gap_view, step, Writes};
ghost use Rattle.hp_print.specs.Forms.{operator_view, text_of, literal_of};
ghost use Rattle.hp_print.specs.Openings.{opening_view};

use crate::level::{Opening, begins, level, negated_level};
use crate::names::value_name;
use crate::operand::{
    Image, argument, field_of, image_field, integer, key_in, key_of, time_of, word_alone,
};
use crate::operator::{Operator, operator_of};
use crate::shape::{Form, form_of};
use crate::token::{Gap, Token};
use crate::writer::Writer;
use hp_text::Mark;
use serde_json::Value;
use std::alloc::AllocError;

/// The most levels that an expression may have.
const MAX_LEVELS: usize = 32;

/// Writes the expression in a value, in parentheses or not.
#[cycle(expression)]
fn enclosed(
    w: &mut Writer,
    levels: usize,
    gap: Gap,
    is_enclosed: bool,
    value: &Value,
) -> Result<(), AllocError>
    ensures { OnOk result (Writes w.old w.new
        (step (λ e. enclosed_if is_enclosed (expression_pieces e) (gap_view gap)) (expression_of levels
        (view value.now)))) }
{
    if is_enclosed {
        w.mark(gap, Mark::OpenParenthesis)?;
        expression(w, levels, Gap::Tight, value)?;
        return w.mark(Gap::Tight, Mark::CloseParenthesis);
    }
    expression(w, levels, gap, value)
}

/// Writes the expression in a value, in parentheses if its level is below `least`.
#[cycle(expression)]
fn operand(
    w: &mut Writer,
    levels: usize,
    gap: Gap,
    least: usize,
    value: &Value,
) -> Result<(), AllocError>
    ensures { OnOk result (Writes w.old w.new
        (step (λ e. expression_in least e (gap_view gap)) (expression_of levels (view value.now)))) }
{
    enclosed(w, levels, gap, level(value) < least, value)
}

/// Writes two operands and the operator between them.
#[cycle(expression)]
fn operation(
    w: &mut Writer,
    levels: usize,
    gap: Gap,
    operator: Operator,
    left: &Value,
    right: &Value,
) -> Result<(), AllocError>
    ensures { OnOk result (Writes w.old w.new (step (λ e. expression_pieces e (gap_view gap))
        (of_two (F.operation (operator_view operator)) (expression_of levels (view left.now))
        (expression_of levels (view right.now))))) }
{
    operand(w, levels, gap, operator.left_level(), left)?;
    w.mark(Gap::Space, operator.sign())?;
    operand(w, levels, Gap::Space, operator.right_level(), right)
}

/// Writes `not` and its operand.
#[cycle(expression)]
fn inverted(w: &mut Writer, levels: usize, gap: Gap, value: &Value) -> Result<(), AllocError>
    ensures { OnOk result (Writes w.old w.new (step (λ e. expression_pieces e (gap_view gap))
        (of_one F.inverted (expression_of levels (view value.now))))) }
{
    w.mark(gap, Mark::Not)?;
    operand(w, levels, Gap::Space, 3, value)
}

/// Writes a minus and its operand.
#[cycle(expression)]
fn negated(w: &mut Writer, levels: usize, gap: Gap, value: &Value) -> Result<(), AllocError>
    ensures { OnOk result (Writes w.old w.new (step (λ e. expression_pieces e (gap_view gap))
        (of_one F.negated (expression_of levels (view value.now))))) }
{
    w.mark(gap, Mark::Minus)?;
    enclosed(w, levels, Gap::Tight, negated_level(value) < 8, value)
}

/// Writes the expression of a word and a part.
#[cycle(expression)]
fn of_one(
    w: &mut Writer,
    levels: usize,
    gap: Gap,
    word: &str,
    part: &Value,
) -> Result<(), AllocError>
    ensures { OnOk result (Writes w.old w.new (step (λ e. expression_pieces e (gap_view gap))
        (expression_of_one (expression_of levels) word.now (view part.now)))) }
{
    match word {
        "not" => inverted(w, levels, gap, part),
        "neg" => negated(w, levels, gap, part),
        "key" => key_of(w, gap, part),
        "value" => value_name(w, gap, part),
        "id" => key_in(w, gap, part),
        "time" => time_of(w, gap, part),
        _ => {
            w.refuse();
            Ok(())
        }
    }
}

/// Writes the expression of a word and two parts that are no operands.
fn parts(
    w: &mut Writer,
    gap: Gap,
    word: &str,
    first: &Value,
    second: &Value,
) -> Result<(), AllocError>
    ensures { OnOk result (Writes w.old w.new (step (λ e. expression_pieces e (gap_view gap))
        (chosen (beside word.now (expressions_of_two (view first.now) (view second.now)))))) }
{
    match word {
        "of" => field_of(w, gap, first, second),
        "new" => image_field(w, gap, Image::New, first, second),
        "old" => image_field(w, gap, Image::Old, first, second),
        "arg" => argument(w, gap, first, second),
        _ => {
            w.refuse();
            Ok(())
        }
    }
}

/// Writes the expression of a word and two parts.
#[cycle(expression)]
fn of_two(
    w: &mut Writer,
    levels: usize,
    gap: Gap,
    word: &str,
    first: &Value,
    second: &Value,
) -> Result<(), AllocError>
    ensures { OnOk result (Writes w.old w.new (step (λ e. expression_pieces e (gap_view gap))
        (expression_of_two (expression_of levels) word.now (view first.now) (view second.now)))) }
{
    match operator_of(word) {
        Some(operator) => operation(w, levels, gap, operator, first, second),
        None => parts(w, gap, word, first, second),
    }
}

/// Writes the expression that a form is.
#[cycle(expression)]
fn of_form(w: &mut Writer, levels: usize, gap: Gap, form: Form<'_>) -> Result<(), AllocError>
    ensures { OnOk result (Writes w.old w.new (step (λ e. expression_pieces e (gap_view gap))
        (expression_of_form (expression_of levels) form.entry.word.now (map view form.entry.parts.now)))) }
{
    match form.parts {
        [] => word_alone(w, gap, form.word),
        [part] => of_one(w, levels, gap, form.word, part),
        [first, second] => of_two(w, levels, gap, form.word, first, second),
        _ => {
            w.refuse();
            Ok(())
        }
    }
}

/// Writes a text.
fn text(w: &mut Writer, gap: Gap, string: &str) -> Result<(), AllocError>
    ensures { OnOk result (Writes w.old w.new
        (step (λ e. expression_pieces e (gap_view gap)) (text_of string.now))) }
{
    w.put(gap, Token::Text(string))
}

/// Writes the expression in a value that is no list, if it is one.
fn literal(w: &mut Writer, gap: Gap, value: &Value) -> Result<(), AllocError>
    ensures { OnOk result (Writes w.old w.new
        (step (λ e. expression_pieces e (gap_view gap)) (literal_of (view value.now)))) }
{
    if let Some(number) = value.as_i64() {
        return integer(w, gap, number);
    }
    if let Some(truth) = value.as_bool() {
        return w.mark(gap, if truth { Mark::True } else { Mark::False });
    }
    match value.as_str() {
        Some(string) => text(w, gap, string),
        None => {
            w.refuse();
            Ok(())
        }
    }
}

/// Writes the expression in a value, which has at most `levels` levels.
#[cycle(expression)]
#[tactic(auto, unfolding(hp_model::specs::NotationValues::expression_of))]
fn expression(w: &mut Writer, levels: usize, gap: Gap, value: &Value) -> Result<(), AllocError>
    ensures { OnOk result (Writes w.old w.new
        (step (λ e. expression_pieces e (gap_view gap)) (expression_of levels (view value.now)))) }
{
    if levels == 0 {
        w.refuse();
        return Ok(());
    }
    match form_of(value) {
        Some(form) => of_form(w, levels - 1, gap, form),
        None => literal(w, gap, value),
    }
}

/// Writes the expression in a value.
pub(crate) fn any_expression(w: &mut Writer, gap: Gap, value: &Value) -> Result<(), AllocError>
    ensures { OnOk result (Writes w.old w.new
        (step (λ e. expression_pieces e (gap_view gap)) (any_expression (view value.now)))) }
{
    expression(w, MAX_LEVELS, gap, value)
}

/// Writes the value in a `set`, in parentheses if it is a relation or holds together more loosely.
pub(crate) fn sum(w: &mut Writer, gap: Gap, value: &Value) -> Result<(), AllocError>
    ensures { OnOk result (Writes w.old w.new
        (step (λ e. expression_in 5 e (gap_view gap)) (any_expression (view value.now)))) }
{
    operand(w, MAX_LEVELS, gap, 5, value)
}

/// Writes the expression in a value, in parentheses if it begins with a word that has another meaning here.
pub(crate) fn apart_from(
    w: &mut Writer,
    gap: Gap,
    opening: Opening,
    value: &Value,
) -> Result<(), AllocError>
    ensures { OnOk result (Writes w.old w.new
        (step (λ e. apart_from (opening_view opening) e (gap_view gap)) (any_expression (view value.now)))) }
{
    enclosed(
        w,
        MAX_LEVELS,
        gap,
        begins(opening, MAX_LEVELS, value),
        value,
    )
}
