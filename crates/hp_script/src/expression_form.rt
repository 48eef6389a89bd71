//! The forms of expressions.

ghost use Rattle.std.specs.Prelude.{◌≡◌, map, option_map, option_and_then};
ghost use Rattle.serde_json.specs.View.{view};
ghost use Rattle.hp_model.specs.Json as J;
ghost use Rattle.hp_model.specs.ExpressionGrammar.{arithmetic_of, comparison_of, form_of_one, other_form_of_two};
ghost use Rattle.hp_model.specs.ExpressionGrammar.{form_of_two, common_form, new_expression_form};
ghost use Rattle.hp_model.specs.ExpressionGrammar.{expression_form, expression_form_at};
ghost use Rattle.hp_value.specs.Mapped.{arithmetic, comparison};
ghost use Rattle.hp_rule.specs.Places.{steps};
ghost use Rattle.hp_script.specs.Forms.{expression_form_view};
ghost use Rattle.hp_script.specs.Versions.{version_view};
ghost use Rattle.hp_script.specs.Mapped.{Gives};

use crate::refusal::{DecodeError, bad_number, shaped};
use crate::shape::{Form, form_of};
use crate::version::{Version, is_fourth};
use hp_rule::Place;
use hp_value::{Arithmetic, Comparison};
use serde_json::Value;
use std::alloc::Global;

/// An expression without operands, whose parts are still JSON.
#[derive(Clone, Copy)]
pub(crate) enum LeafForm<'a> {
    Integer(i64),
    Truth(bool),
    Text(&'a str),
    FieldOf(&'a Value, &'a Value),
    KeyOf(&'a Value),
    NewField(&'a Value, &'a Value),
    OldField(&'a Value, &'a Value),
    KeyIn(&'a Value),
    Argument(&'a Value, &'a Value),
    TimeOf(&'a Value),
    Count,
    Now,
    ValueOf(&'a Value),
}

/// An expression whose parts are still JSON.
#[derive(Clone, Copy)]
pub(crate) enum ExpressionForm<'a> {
    Arithmetic(Arithmetic, &'a Value, &'a Value),
    Comparison(Comparison, &'a Value, &'a Value),
    Negated(&'a Value),
    Not(&'a Value),
    And(&'a Value, &'a Value),
    Or(&'a Value, &'a Value),
    Leaf(LeafForm<'a>),
}

fn arithmetic_of(word: &str) -> Option<Arithmetic>
    ensures { option_map arithmetic result ≡ arithmetic_of word.now }
{
    match word {
        "+" => Some(Arithmetic::Plus),
        "-" => Some(Arithmetic::Minus),
        "*" => Some(Arithmetic::Times),
        "/" => Some(Arithmetic::Quotient),
        "%" => Some(Arithmetic::Remainder),
        _ => None,
    }
}

fn comparison_of(word: &str) -> Option<Comparison>
    ensures { option_map comparison result ≡ comparison_of word.now }
{
    match word {
        "=" => Some(Comparison::Equal),
        "!=" => Some(Comparison::Unequal),
        "<" => Some(Comparison::Less),
        "<=" => Some(Comparison::AtMost),
        ">" => Some(Comparison::Greater),
        ">=" => Some(Comparison::AtLeast),
        _ => None,
    }
}

fn form_of_one<'a>(word: &str, part: &'a Value) -> Option<ExpressionForm<'a>>
    ensures { option_map expression_form_view result ≡ form_of_one word.now (view part.entry.now) }
{
    match word {
        "neg" => Some(ExpressionForm::Negated(part)),
        "not" => Some(ExpressionForm::Not(part)),
        "key" => Some(ExpressionForm::Leaf(LeafForm::KeyOf(part))),
        "id" => Some(ExpressionForm::Leaf(LeafForm::KeyIn(part))),
        "time" => Some(ExpressionForm::Leaf(LeafForm::TimeOf(part))),
        _ => None,
    }
}

fn other_form_of_two<'a>(
    word: &str,
    first: &'a Value,
    second: &'a Value,
) -> Option<ExpressionForm<'a>>
    ensures { option_map expression_form_view result
        ≡ other_form_of_two word.now (view first.entry.now) (view second.entry.now) }
{
    match word {
        "and" => Some(ExpressionForm::And(first, second)),
        "or" => Some(ExpressionForm::Or(first, second)),
        "of" => Some(ExpressionForm::Leaf(LeafForm::FieldOf(first, second))),
        "new" => Some(ExpressionForm::Leaf(LeafForm::NewField(first, second))),
        "old" => Some(ExpressionForm::Leaf(LeafForm::OldField(first, second))),
        "arg" => Some(ExpressionForm::Leaf(LeafForm::Argument(first, second))),
        _ => None,
    }
}

fn form_of_two<'a>(word: &str, first: &'a Value, second: &'a Value) -> Option<ExpressionForm<'a>>
    ensures { option_map expression_form_view result
        ≡ form_of_two word.now (view first.entry.now) (view second.entry.now) }
{
    if let Some(operator) = arithmetic_of(word) {
        return Some(ExpressionForm::Arithmetic(operator, first, second));
    }
    if let Some(operator) = comparison_of(word) {
        return Some(ExpressionForm::Comparison(operator, first, second));
    }
    other_form_of_two(word, first, second)
}

/// A form of all versions.
fn common_form<'a>(word: &str, parts: &'a [Value]) -> Option<ExpressionForm<'a>>
    ensures { option_map expression_form_view result ≡ common_form word.now (map view parts.entry.now) }
{
    match parts {
        [] => if word == "count" {
            Some(ExpressionForm::Leaf(LeafForm::Count))
        } else {
            None
        },
        [part] => form_of_one(word, part),
        [first, second] => form_of_two(word, first, second),
        _ => None,
    }
}

/// A form of version 4 alone.
fn new_expression_form<'a>(word: &str, parts: &'a [Value]) -> Option<ExpressionForm<'a>>
    ensures { option_map expression_form_view result ≡ new_expression_form word.now (map view parts.entry.now) }
{
    match parts {
        [] => if word == "now" {
            Some(ExpressionForm::Leaf(LeafForm::Now))
        } else {
            None
        },
        [part] => if word == "value" {
            Some(ExpressionForm::Leaf(LeafForm::ValueOf(part)))
        } else {
            None
        },
        _ => None,
    }
}

fn expression_form(version: Version, value: &Value) -> Option<ExpressionForm<'_>>
    ensures { option_map expression_form_view result ≡ option_and_then
        (λ (form : J.Form). expression_form (version_view version) form.word form.parts) (J.form_of (view value.now)) }
{
    let Form { word, parts } = form_of(value)?;
    if let Some(form) = common_form(word, parts) {
        return Some(form);
    }
    if is_fourth(version) {
        new_expression_form(word, parts)
    } else {
        None
    }
}

/// The form of the expression at a place.
pub(crate) fn expression_form_at<'a>(
    alloc: Global,
    place: &Place<'_>,
    version: Version,
    value: &'a Value,
) -> Result<ExpressionForm<'a>, DecodeError>
    ensures { Gives expression_form_view result
        (expression_form_at (version_view version) (steps place.now) (view value.entry.now)) }
{
    if let Some(number) = value.as_number() {
        return match number.as_i64() {
            Some(integer) => Ok(ExpressionForm::Leaf(LeafForm::Integer(integer))),
            None => Err(bad_number(alloc, place)),
        };
    }
    if let Some(truth) = value.as_bool() {
        return Ok(ExpressionForm::Leaf(LeafForm::Truth(truth)));
    }
    if let Some(text) = value.as_str() {
        return Ok(ExpressionForm::Leaf(LeafForm::Text(text)));
    }
    shaped(alloc, place, expression_form(version, value))
}
