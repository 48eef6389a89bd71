//! Lists with commas between their parts.

ghost use Rattle.std.specs.Prelude.{◌≡◌, OnOk, map, option_and_then};
ghost use Rattle.serde_json.specs.Find.{as_str};
ghost use Rattle.serde_json.specs.View.{view};
ghost use Rattle.hp_model.specs.NotationForms as F;
ghost use Rattle.hp_model.specs.NotationPrint as P;
ghost use Rattle.hp_model.specs.NotationValues as V;
ghost use Rattle.hp_model.specs.NotationValues.{list_form, assignment_of, field_form};
ghost use Rattle.hp_print.specs.Written.{step, Writes};
ghost use Rattle.hp_print.specs.Lists.{steps, part_step, comma_step};

use crate::expression::{any_expression, sum};
use crate::names::name;
use crate::shape::{list_of, pair_of};
use crate::token::Gap;
use crate::writer::Writer;
use hp_text::Mark;
use serde_json::Value;
use std::alloc::AllocError;

/// Writes a field and what it is set to.
fn assignment(w: &mut Writer, value: &Value) -> Result<(), AllocError>
    ensures { OnOk result (Writes w.old w.new (step P.assignment_pieces (assignment_of (view value.now)))) }
{
    match pair_of(value) {
        Some((field, set)) => {
            name(w, Gap::Space, field)?;
            w.mark(Gap::Space, Mark::Equal)?;
            sum(w, Gap::Space, set)
        }
        None => {
            w.refuse();
            Ok(())
        }
    }
}

/// Writes the kind of a field.
fn kind(w: &mut Writer, value: &Value) -> Result<(), AllocError>
    ensures { OnOk result (Writes w.old w.new
        (step (λ k. P.free P.space (F.kind_word k)) (option_and_then V.kind_named (as_str (view value.now))))) }
{
    match value.as_str() {
        Some("int") => w.word(Gap::Space, "int"),
        Some("bool") => w.word(Gap::Space, "bool"),
        Some("text") => w.word(Gap::Space, "text"),
        _ => {
            w.refuse();
            Ok(())
        }
    }
}

/// Writes a field of a class.
fn field(w: &mut Writer, value: &Value) -> Result<(), AllocError>
    ensures { OnOk result (Writes w.old w.new (step P.field_pieces (field_form (view value.now)))) }
{
    match pair_of(value) {
        Some((field, its_kind)) => {
            name(w, Gap::Space, field)?;
            w.mark(Gap::Tight, Mark::Colon)?;
            kind(w, its_kind)
        }
        None => {
            w.refuse();
            Ok(())
        }
    }
}

/// What a list with commas consists of.
#[derive(Clone, Copy)]
pub(crate) enum Part {
    Assignment,
    Argument,
    Field,
}

/// Writes one part.
fn put_part(w: &mut Writer, part: Part, value: &Value) -> Result<(), AllocError>
    ensures { OnOk result (Writes w.old w.new (part_step part (view value.now))) }
{
    match part {
        Part::Assignment => assignment(w, value),
        Part::Argument => any_expression(w, Gap::Space, value),
        Part::Field => field(w, value),
    }
}

/// Writes parts with a comma before each.
fn more_parts(w: &mut Writer, kind: Part, values: &[Value]) -> Result<(), AllocError>
    ensures { OnOk result (Writes w.old w.new (steps (comma_step kind) (map view values.now))) }
{
    for value in values {
        w.mark(Gap::Tight, Mark::Comma)?;
        put_part(w, kind, value)?;
    }
    Ok(())
}

/// Writes what `set` assigns. Nothing is written if that is nothing.
pub(crate) fn assignments(w: &mut Writer, value: &Value) -> Result<(), AllocError>
    ensures { OnOk result (Writes w.old w.new (step P.assignments_pieces (list_form assignment_of (view value.now)))) }
{
    match list_of(value) {
        None => {
            w.refuse();
            Ok(())
        }
        Some([]) => Ok(()),
        Some([first, others @ ..]) => {
            w.mark(Gap::Space, Mark::Set)?;
            assignment(w, first)?;
            more_parts(w, Part::Assignment, others)
        }
    }
}

/// Writes arguments in parentheses. Nothing is written if there are none.
pub(crate) fn arguments(w: &mut Writer, value: &Value) -> Result<(), AllocError>
    ensures { OnOk result (Writes w.old w.new (step P.arguments_pieces (list_form V.any_expression (view value.now)))) }
{
    match list_of(value) {
        None => {
            w.refuse();
            Ok(())
        }
        Some([]) => Ok(()),
        Some([first, others @ ..]) => {
            w.mark(Gap::Tight, Mark::OpenParenthesis)?;
            any_expression(w, Gap::Tight, first)?;
            more_parts(w, Part::Argument, others)?;
            w.mark(Gap::Tight, Mark::CloseParenthesis)
        }
    }
}

/// Writes the fields of a class, and the brace after them.
pub(crate) fn fields(w: &mut Writer, value: &Value) -> Result<(), AllocError>
    ensures { OnOk result (Writes w.old w.new (step P.fields_pieces (list_form field_form (view value.now)))) }
{
    match list_of(value) {
        None => {
            w.refuse();
            Ok(())
        }
        Some([]) => w.mark(Gap::Tight, Mark::CloseBrace),
        Some([first, others @ ..]) => {
            field(w, first)?;
            more_parts(w, Part::Field, others)?;
            w.mark(Gap::Space, Mark::CloseBrace)
        }
    }
}
