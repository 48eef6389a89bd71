//! How tightly an expression holds together, and what it begins with.

ghost use Rattle.std.specs.Prelude.{◌≡◌, ℕ, IfSome, Option, map};
ghost use Rattle.serde_json.specs.Data.{Data};
ghost use Rattle.serde_json.specs.View.{view};
ghost use Rattle.hp_model.specs.NotationForms.{Expression};
ghost use Rattle.hp_model.specs.NotationPrint.{integer_level, expression_level, negated_level};
ghost use Rattle.hp_model.specs.Json.{beside};
ghost use Rattle.hp_model.specs.NotationValues.{chosen, expression_of};
ghost use Rattle.hp_model.specs.NotationValues.{expression_of_form, expression_of_one, expressions_of_two};
ghost use Rattle.hp_print.specs.Written.{token_view};
ghost use Rattle.hp_print.specs.Openings.{opening_view, begins};

use crate::names::{name_token, value_token};
use crate::operator::operator_of;
use crate::shape::{Form, form_of, name_of};
use crate::token::Token;
use serde_json::Value;

/// The level of what is no operation.
const PRIMARY: usize = 8;

/// The level of the expression that a form is, if it is one.
fn level_of_form(form: Form<'_>) -> usize
    ensures { (operand : Data → Option Expression) →
        IfSome (expression_of_form operand form.entry.word.now (map view form.entry.parts.now))
        (λ e. result ≡ expression_level e) }
{
    match form.parts {
        [_] => match form.word {
            "not" => 3,
            "neg" => 7,
            _ => PRIMARY,
        },
        [_, _] => match operator_of(form.word) {
            Some(operator) => operator.level(),
            None => PRIMARY,
        },
        _ => PRIMARY,
    }
}

/// The level of an integer: a negative one begins with a minus.
fn integer_level(integer: i64) -> usize
    ensures { result ≡ integer_level integer }
{
    if integer < 0 { 7 } else { PRIMARY }
}

/// The level of the expression that a value is, if it is one: from 1 of `or` to 8 of what needs no parentheses.
pub(crate) fn level(value: &Value) -> usize
    ensures { (n : ℕ) → IfSome (expression_of n (view value.now)) (λ e. result ≡ expression_level e) }
{
    match form_of(value) {
        Some(form) => level_of_form(form),
        None => match value.as_i64() {
            Some(number) => integer_level(number),
            None => PRIMARY,
        },
    }
}

/// The level of a value after the minus of a `neg`, where an integer would be read as a negative number.
pub(crate) fn negated_level(value: &Value) -> usize
    ensures { (n : ℕ) → IfSome (expression_of n (view value.now)) (λ e. result ≡ negated_level e) }
{
    match value.as_number() {
        Some(_) => 0,
        None => level(value),
    }
}

/// A place at which some words have a meaning of their own before they are names.
#[derive(Clone, Copy)]
pub(crate) enum Opening {
    /// The value of a `let`.
    Aggregate,
    /// After `veto`.
    Let,
}

/// Whether a token has such a meaning.
fn has_meaning(opening: Opening, token: Token<'_>) -> bool
    ensures { result ≡ opening_view opening (token_view token.entry) }
{
    let Token::Word(word) = token else {
        return false;
    };
    match opening {
        Opening::Aggregate => matches!(word, "count" | "sum" | "least" | "greatest" | "next"),
        Opening::Let => word == "let",
    }
}

/// Whether the expression of a word and a part begins with a word of another meaning.
fn begins_alone(opening: Opening, word: &str, part: &Value) -> bool
    ensures { (operand : Data → Option Expression) →
        IfSome (expression_of_one operand word.now (view part.now)) (λ e. result ≡ begins opening e) }
{
    let Some(name) = name_of(part) else {
        return false;
    };
    match word {
        "value" => has_meaning(opening, value_token(name)),
        "key" => has_meaning(opening, name_token(name)),
        _ => false,
    }
}

/// Whether the expression of a word and two parts that are no operands begins with a word of another meaning.
fn begins_row(opening: Opening, word: &str, first: &Value) -> bool
    ensures { (second : Data) →
        IfSome (chosen (beside word.now (expressions_of_two (view first.now) second)))
        (λ e. result ≡ begins opening e) }
{
    let Some(name) = name_of(first) else {
        return false;
    };
    match word {
        "of" => has_meaning(opening, name_token(name)),
        _ => false,
    }
}

/// Whether the expression that a value is begins with a word of another meaning.
#[tactic(auto, unfolding(hp_model::specs::NotationValues::expression_of))]
pub(crate) fn begins(opening: Opening, levels: usize, value: &Value) -> bool
    ensures { IfSome (expression_of levels (view value.now)) (λ e. result ≡ begins opening e) }
{
    if levels == 0 {
        return false;
    }
    let Some(form) = form_of(value) else {
        return false;
    };
    match form.parts {
        [part] => begins_alone(opening, form.word, part),
        [left, _] => match operator_of(form.word) {
            Some(operator) => {
                if level(left) < operator.left_level() {
                    return false;
                }
                begins(opening, levels - 1, left)
            }
            None => begins_row(opening, form.word, left),
        },
        _ => false,
    }
}
