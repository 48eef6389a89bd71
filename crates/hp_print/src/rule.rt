//! Classes, rules and items.

ghost use Rattle.std.specs.Prelude.{◌≡◌, ◌≤◌, OnOk, length, map};
ghost use Rattle.serde_json.specs.View.{view};
ghost use Rattle.hp_model.specs.Json.{beside};
ghost use Rattle.hp_model.specs.NotationForms as F;
ghost use Rattle.hp_model.specs.NotationPrint as P;
ghost use Rattle.hp_model.specs.NotationValues as V;
ghost use Rattle.hp_model.specs.NotationValues.{list_form, class_form, rule_form, item_form, mode_of};
ghost use Rattle.hp_print.specs.Written.{gap_view, step, Writes};
ghost use Rattle.hp_print.specs.Rules.{conditions_pieces};

use crate::body::any_body;
use crate::event::any_event;
use crate::lists::fields;
use crate::names::{name, natural};
use crate::rows::query;
use crate::shape::{form_of, list_of, pair_of};
use crate::token::Gap;
use crate::writer::Writer;
use hp_text::Mark;
use serde_json::Value;
use std::alloc::AllocError;

/// Writes a class.
pub(crate) fn class(w: &mut Writer, gap: Gap, value: &Value) -> Result<(), AllocError>
    ensures { OnOk result (Writes w.old w.new (step (λ c. P.class_pieces c (gap_view gap)) (class_form
        (view value.now)))) }
{
    match pair_of(value) {
        Some((class, its_fields)) => {
            w.word(gap, "class")?;
            name(w, Gap::Space, class)?;
            w.mark(Gap::Space, Mark::OpenBrace)?;
            fields(w, its_fields)
        }
        None => {
            w.refuse();
            Ok(())
        }
    }
}

/// Writes a mode, which is left out where it is `immediate`.
fn mode(w: &mut Writer, value: &Value) -> Result<(), AllocError>
    ensures { OnOk result (Writes w.old w.new (step P.mode_pieces (mode_of (view value.now)))) }
{
    match value.as_str() {
        Some("immediate") => Ok(()),
        Some("deferred") => w.mark(Gap::Space, Mark::Deferred),
        Some("separate") => w.mark(Gap::Space, Mark::Separate),
        Some("dependent") => w.mark(Gap::Space, Mark::Dependent),
        Some("exclusive") => w.mark(Gap::Space, Mark::Exclusive),
        _ => {
            w.refuse();
            Ok(())
        }
    }
}

/// Writes that a rule is closed, if it is.
fn closed(w: &mut Writer, values: &[Value]) -> Result<(), AllocError>
    ensures { OnOk result (Writes w.old w.new (step P.closed_pieces (V.closed_of (map view values.now)))) }
{
    match values {
        [] => Ok(()),
        [value] => match value.as_str() {
            Some("closed") => w.word(Gap::Space, "closed"),
            _ => {
                w.refuse();
                Ok(())
            }
        },
        _ => {
            w.refuse();
            Ok(())
        }
    }
}

/// Writes a query of a condition.
fn condition(w: &mut Writer, lets: bool, value: &Value) -> Result<(), AllocError>
    ensures { OnOk result (Writes w.old w.new (step P.condition_pieces (V.query_of lets (view value.now)))) }
{
    w.mark(Gap::Line(1), Mark::If)?;
    query(w, lets, value)
}

/// Writes the queries of a condition, one after another.
fn conditions(w: &mut Writer, lets: bool, value: &Value) -> Result<(), AllocError>
    ensures { OnOk result (Writes w.old w.new
        (step conditions_pieces (list_form (V.query_of lets) (view value.now)))) }
{
    match list_of(value) {
        Some(values) => each_condition(w, lets, values),
        None => {
            w.refuse();
            Ok(())
        }
    }
}

/// Writes some queries.
fn each_condition(w: &mut Writer, lets: bool, values: &[Value]) -> Result<(), AllocError>
    ensures { OnOk result (Writes w.old w.new
        (step conditions_pieces (V.each_of (V.query_of lets) (map view values.now)))) }
{
    for value in values {
        condition(w, lets, value)?;
    }
    Ok(())
}

/// Writes a rule of these items, of which there are six at least.
fn rule_of(w: &mut Writer, lets: bool, items: &[Value]) -> Result<(), AllocError>
    requires { 6 ≤ length items.now }
    ensures { OnOk result (Writes w.old w.new (step P.rule_pieces (V.rule_in lets (map view items.now)))) }
{
    w.word(Gap::Paragraph, "rule")?;
    name(w, Gap::Space, &items[0])?;
    closed(w, &items[6..])?;
    w.mark(Gap::Space, Mark::On)?;
    any_event(w, Gap::Space, &items[1])?;
    mode(w, &items[2])?;
    conditions(w, lets, &items[3])?;
    w.mark(Gap::Line(1), Mark::Do)?;
    mode(w, &items[4])?;
    any_body(w, 1, &items[5])
}

/// Writes a rule. With `lets`, its condition may name values.
pub(crate) fn rule(w: &mut Writer, lets: bool, value: &Value) -> Result<(), AllocError>
    ensures { OnOk result (Writes w.old w.new (step P.rule_pieces (rule_form lets (view value.now)))) }
{
    let Some(items) = list_of(value) else {
        w.refuse();
        return Ok(());
    };
    if items.len() < 6 {
        w.refuse();
        return Ok(());
    }
    rule_of(w, lets, items)
}

/// Writes a transaction.
fn transaction(w: &mut Writer, gap: Gap, body: &Value) -> Result<(), AllocError>
    ensures { OnOk result (Writes w.old w.new (step (λ i. P.item_pieces i (gap_view gap))
        (V.of_one F.transaction (V.any_body (view body.now))))) }
{
    w.word(gap, "transaction")?;
    any_body(w, 0, body)
}

/// Writes a move of the clock.
fn clock(w: &mut Writer, gap: Gap, time: &Value) -> Result<(), AllocError>
    ensures { OnOk result (Writes w.old w.new (step (λ i. P.item_pieces i (gap_view gap))
        (V.of_one F.clock (V.natural_of (view time.now))))) }
{
    w.word(gap, "clock")?;
    natural(w, Gap::Space, time)
}

/// Writes the item of a word and its parts.
fn item_of(w: &mut Writer, gap: Gap, word: &str, part: &Value) -> Result<(), AllocError>
    ensures { OnOk result (Writes w.old w.new (step (λ i. P.item_pieces i (gap_view gap))
        (V.chosen (beside word.now (V.items_of_one (view part.now)))))) }
{
    match word {
        "tx" => transaction(w, gap, part),
        "clock" => clock(w, gap, part),
        _ => {
            w.refuse();
            Ok(())
        }
    }
}

/// Writes an item.
#[tactic(auto, unfolding(hp_model::specs::NotationValues::item_form))]
pub(crate) fn item(w: &mut Writer, gap: Gap, value: &Value) -> Result<(), AllocError>
    ensures { OnOk result (Writes w.old w.new (step (λ i. P.item_pieces i (gap_view gap)) (item_form
        (view value.now)))) }
{
    let Some(form) = form_of(value) else {
        w.refuse();
        return Ok(());
    };
    match form.parts {
        [part] => item_of(w, gap, form.word, part),
        _ => {
            w.refuse();
            Ok(())
        }
    }
}
