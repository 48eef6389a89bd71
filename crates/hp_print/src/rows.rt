//! Rows, aggregates and queries.

ghost use Rattle.std.specs.Prelude.{◌≡◌, ◌∷◌, [], OnOk, option_map, option_and_then};
ghost use Rattle.serde_json.specs.Find.{as_bool, as_str};
ghost use Rattle.serde_json.specs.View.{view};
ghost use Rattle.hp_model.specs.Parts.{name_of};
ghost use Rattle.hp_model.specs.NotationForms as F;
ghost use Rattle.hp_model.specs.NotationPrint.{binding_pieces, aggregate_pieces};
ghost use Rattle.hp_model.specs.NotationPrint.{query_pieces, rows_pieces, predicate_pieces};
ghost use Rattle.hp_model.specs.NotationValues as V;
ghost use Rattle.hp_model.specs.NotationValues.{of_one, of_two, of_three};
ghost use Rattle.hp_model.specs.NotationValues.{any_expression, aggregate_of, fold_named, query_of};
ghost use Rattle.hp_print.specs.Written.{step, Writes};
ghost use Rattle.hp_print.specs.Rows.{rows_form, fold_view, query_in, no_rows_of, said};

use crate::expression::{any_expression, apart_from};
use crate::level::Opening;
use crate::names::{name, value_name};
use crate::shape::{form_of, list_of};
use crate::token::Gap;
use crate::writer::Writer;
use hp_text::Mark;
use serde_json::Value;
use std::alloc::AllocError;

/// The parts of rows, which are still JSON.
#[derive(Clone, Copy)]
pub(crate) struct RowParts<'a> {
    pub name: &'a Value,
    pub class: &'a Value,
    pub predicate: &'a Value,
}

/// Rows of these parts.
fn rows_of<'a>(name: &'a Value, class: &'a Value, predicate: &'a Value) -> RowParts<'a>
    ensures { rows_form result ≡ V.rows_of (view name.entry.now) (view class.entry.now) (view predicate.entry.now) }
{
    RowParts {
        name,
        class,
        predicate,
    }
}

/// Whether a value is `true`.
fn is_true(value: &Value) -> bool
    ensures { result ≡ said (as_bool (view value.now)) }
{
    match value.as_bool() {
        Some(truth) => truth,
        None => false,
    }
}

/// Writes a predicate, which is left out where it is `true`.
fn predicate(w: &mut Writer, value: &Value) -> Result<(), AllocError>
    ensures { OnOk result (Writes w.old w.new (step predicate_pieces (any_expression (view value.now)))) }
{
    if is_true(value) {
        return Ok(());
    }
    w.mark(Gap::Space, Mark::Where)?;
    any_expression(w, Gap::Space, value)
}

/// Writes a class, the name of its row, and a predicate.
pub(crate) fn rows(w: &mut Writer, parts: RowParts<'_>) -> Result<(), AllocError>
    ensures { OnOk result (Writes w.old w.new (step rows_pieces (rows_form parts.entry))) }
{
    name(w, Gap::Space, parts.class)?;
    name(w, Gap::Space, parts.name)?;
    predicate(w, parts.predicate)
}

/// What is made of many values.
#[derive(Clone, Copy)]
enum Fold {
    Total,
    Least,
    Greatest,
}

impl Fold {
    fn spelling(self) -> &'static str
        ensures { result.now ≡ F.fold_word (fold_view self) }
    {
        match self {
            Fold::Total => "sum",
            Fold::Least => "least",
            Fold::Greatest => "greatest",
        }
    }
}

fn fold_named(word: &str) -> Option<Fold>
    ensures { option_map fold_view result ≡ fold_named word.now }
{
    match word {
        "sum" => Some(Fold::Total),
        "least" => Some(Fold::Least),
        "greatest" => Some(Fold::Greatest),
        _ => None,
    }
}

/// Writes what is made of a value of rows.
fn fold_of(w: &mut Writer, fold: Fold, parts: RowParts<'_>, value: &Value) -> Result<(), AllocError>
    ensures { OnOk result (Writes w.old w.new (step aggregate_pieces
        (of_two (F.fold_of (fold_view fold)) (rows_form parts.entry) (any_expression (view value.now))))) }
{
    w.word(Gap::Space, fold.spelling())?;
    any_expression(w, Gap::Space, value)?;
    w.word(Gap::Space, "over")?;
    rows(w, parts)
}

/// Writes the number of rows.
fn count_of(w: &mut Writer, parts: RowParts<'_>) -> Result<(), AllocError>
    ensures { OnOk result (Writes w.old w.new (step aggregate_pieces (of_one F.count_of (rows_form parts.entry)))) }
{
    w.word(Gap::Space, "count")?;
    rows(w, parts)
}

/// Writes the next key of a class.
fn next_key(w: &mut Writer, class: &Value) -> Result<(), AllocError>
    ensures { OnOk result (Writes w.old w.new (step aggregate_pieces
        (of_one F.next_key (name_of (view class.now))))) }
{
    w.word(Gap::Space, "next")?;
    name(w, Gap::Space, class)
}

/// Writes an aggregate that is an expression.
fn plain(w: &mut Writer, value: &Value) -> Result<(), AllocError>
    ensures { OnOk result (Writes w.old w.new (step aggregate_pieces
        (of_one F.plain (any_expression (view value.now))))) }
{
    apart_from(w, Gap::Space, Opening::Aggregate, value)
}

/// Writes what is made of a value of rows, if the word says what.
fn folded(w: &mut Writer, word: &str, parts: RowParts<'_>, value: &Value) -> Result<(), AllocError>
    ensures { OnOk result (Writes w.old w.new (step aggregate_pieces
        (option_and_then (λ f. of_two (F.fold_of f) (rows_form parts.entry) (any_expression (view value.now)))
        (fold_named word.now)))) }
{
    match fold_named(word) {
        Some(fold) => fold_of(w, fold, parts, value),
        None => {
            w.refuse();
            Ok(())
        }
    }
}

/// Writes the aggregate in a value.
pub(crate) fn aggregate(w: &mut Writer, value: &Value) -> Result<(), AllocError>
    ensures { OnOk result (Writes w.old w.new (step aggregate_pieces (aggregate_of (view value.now)))) }
{
    let Some(form) = form_of(value) else {
        return plain(w, value);
    };
    let parts = form.parts;
    if parts.len() == 1 {
        if form.word == "next" {
            return next_key(w, &parts[0]);
        }
        return plain(w, value);
    }
    if parts.len() == 3 {
        if form.word == "count" {
            return count_of(w, rows_of(&parts[0], &parts[1], &parts[2]));
        }
        return plain(w, value);
    }
    if parts.len() == 4 {
        return folded(
            w,
            form.word,
            rows_of(&parts[0], &parts[1], &parts[2]),
            &parts[3],
        );
    }
    plain(w, value)
}

/// Writes the name of a value, `=`, and its aggregate.
pub(crate) fn binding(w: &mut Writer, name: &Value, value: &Value) -> Result<(), AllocError>
    ensures { OnOk result (Writes w.old w.new
        (λ rest. of_three binding_pieces (name_of (view name.now)) (aggregate_of (view value.now)) rest)) }
{
    value_name(w, Gap::Space, name)?;
    w.mark(Gap::Space, Mark::Equal)?;
    aggregate(w, value)
}

/// Writes a query for the rows that there are.
fn some_rows(w: &mut Writer, parts: RowParts<'_>) -> Result<(), AllocError>
    ensures { OnOk result (Writes w.old w.new (step query_pieces (of_one F.some_rows (rows_form parts.entry)))) }
{
    w.word(Gap::Space, "some")?;
    rows(w, parts)
}

/// Writes a query that no row answers.
fn no_rows(w: &mut Writer, parts: RowParts<'_>) -> Result<(), AllocError>
    ensures { OnOk result (Writes w.old w.new (step query_pieces (of_one F.no_rows (rows_form parts.entry)))) }
{
    w.word(Gap::Space, "no")?;
    rows(w, parts)
}

/// Writes a query that names a value.
fn named_value(w: &mut Writer, name: &Value, value: &Value) -> Result<(), AllocError>
    ensures { OnOk result (Writes w.old w.new (step query_pieces
        (of_two F.named_value (name_of (view name.now)) (aggregate_of (view value.now))))) }
{
    w.word(Gap::Space, "let")?;
    binding(w, name, value)
}

/// Writes a query of three items. With `lets`, the word `let` names a value.
fn query_of_three(
    w: &mut Writer,
    lets: bool,
    first: &Value,
    second: &Value,
    third: &Value,
) -> Result<(), AllocError>
    ensures { OnOk result (Writes w.old w.new (step query_pieces
        (query_in lets (view first.now ∷ view second.now ∷ view third.now ∷ [])))) }
{
    let Some(word) = first.as_str() else {
        w.refuse();
        return Ok(());
    };
    if lets && word == "let" {
        return named_value(w, second, third);
    }
    some_rows(w, rows_of(first, second, third))
}

/// Writes a query of four items, of which the first is a word.
fn query_of_four(w: &mut Writer, first: &Value, parts: RowParts<'_>) -> Result<(), AllocError>
    ensures { OnOk result (Writes w.old w.new (step query_pieces
        (no_rows_of (as_str (view first.now)) (rows_form parts.entry)))) }
{
    match first.as_str() {
        Some("no") => no_rows(w, parts),
        _ => {
            w.refuse();
            Ok(())
        }
    }
}

/// Writes the query in a value. With `lets`, three parts that begin with `let` name a value.
pub(crate) fn query(w: &mut Writer, lets: bool, value: &Value) -> Result<(), AllocError>
    ensures { OnOk result (Writes w.old w.new (step query_pieces (query_of lets (view value.now)))) }
{
    let Some(items) = list_of(value) else {
        w.refuse();
        return Ok(());
    };
    if items.len() == 3 {
        return query_of_three(w, lets, &items[0], &items[1], &items[2]);
    }
    if items.len() == 4 {
        return query_of_four(w, &items[0], rows_of(&items[1], &items[2], &items[3]));
    }
    w.refuse();
    Ok(())
}
