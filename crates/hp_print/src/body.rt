//! Statements and bodies.

ghost use Rattle.std.specs.Prelude.{◌≡◌, ◌+◌, ◌≤◌, ℕ, suc, true, OnOk, Some, IfSome, map, option_and_then};
ghost use Rattle.serde_json.specs.View.{view};
ghost use Rattle.hp_model.specs.Json.{form_of};
ghost use Rattle.hp_model.specs.Parts.{name_of};
ghost use Rattle.hp_model.specs.NotationForms as F;
ghost use Rattle.hp_model.specs.NotationForms.{empty};
ghost use Rattle.hp_model.specs.NotationPrint.{statement_pieces, statements_pieces, body_pieces, body_after, is_empty};
ghost use Rattle.hp_model.specs.NotationValues as V;
ghost use Rattle.hp_model.specs.NotationValues.{body_of, body_in, any_body, aggregate_of, statement_of_form};
ghost use Rattle.hp_text.specs.Mapped.{mark_view};
ghost use Rattle.hp_print.specs.Written.{step, Writes};
ghost use Rattle.hp_print.specs.Rows.{rows_form};
ghost use Rattle.hp_print.specs.Statements.{IsShallow, statement_within, statements_within};

use crate::expression::any_expression;
use crate::names::name;
use crate::rows::{RowParts, binding, rows};
use crate::shape::{form_of, list_of};
use crate::statement::{Setting, delete, object, of_none, of_one, set_object, signal};
use crate::token::Gap;
use crate::writer::Writer;
use hp_text::Mark;
use serde_json::Value;
use std::alloc::AllocError;

/// The most levels that a body may have.
const MAX_LEVELS: usize = 64;

/// Where a statement or a body stands.
#[derive(Clone, Copy)]
pub(crate) struct Nest {
    /// How many levels of bodies may nest here.
    pub levels: usize,
    /// The indentation of its last line.
    pub depth: usize,
}

/// Writes a branch on a test.
#[cycle(body)]
fn when(
    w: &mut Writer,
    nest: Nest,
    test: &Value,
    then_body: &Value,
    else_body: &Value,
) -> Result<(), AllocError>
    requires { IsShallow nest }
    ensures { OnOk result (Writes w.old w.new (step (λ s. statement_pieces s nest.depth)
        (V.of_three F.when (V.any_expression (view test.now)) (body_of nest.levels (view then_body.now))
        (body_of nest.levels (view else_body.now))))) }
{
    w.mark(Gap::Line(nest.depth), Mark::If)?;
    any_expression(w, Gap::Space, test)?;
    body(w, nest, then_body)?;
    other_body(w, nest, Mark::Else, else_body)
}

/// Writes a body that runs for each of some rows.
#[cycle(body)]
fn each(w: &mut Writer, nest: Nest, parts: RowParts<'_>, inner: &Value) -> Result<(), AllocError>
    requires { IsShallow nest }
    ensures { OnOk result (Writes w.old w.new (step (λ s. statement_pieces s nest.depth)
        (V.of_two F.each (rows_form parts.entry) (body_of nest.levels (view inner.now))))) }
{
    w.mark(Gap::Line(nest.depth), Mark::Each)?;
    rows(w, parts)?;
    body(w, nest, inner)
}

/// Writes a body that runs for each answer of a query.
#[cycle(body)]
fn for_answer(w: &mut Writer, nest: Nest, query: &Value, inner: &Value) -> Result<(), AllocError>
    requires { IsShallow nest }
    ensures { OnOk result (Writes w.old w.new (step (λ s. statement_pieces s nest.depth)
        (V.of_two F.for_answer (name_of (view query.now)) (body_of nest.levels (view inner.now))))) }
{
    w.mark(Gap::Line(nest.depth), Mark::For)?;
    name(w, Gap::Space, query)?;
    body(w, nest, inner)
}

/// A name, a class, and a value, which are still JSON.
#[derive(Clone, Copy)]
struct Head<'a> {
    name: &'a Value,
    class: &'a Value,
    value: &'a Value,
}

/// Writes a body that knows an object by a name.
#[cycle(body)]
fn with_object(w: &mut Writer, nest: Nest, head: Head<'_>, inner: &Value) -> Result<(), AllocError>
    requires { IsShallow nest }
    ensures { OnOk result (Writes w.old w.new (step (λ s. statement_pieces s nest.depth)
        (option_and_then (λ x. V.of_three (F.with_object x) (name_of (view head.entry.class.now))
        (V.any_expression (view head.entry.value.now)) (body_of nest.levels (view inner.now)))
        (name_of (view head.entry.name.now))))) }
{
    w.mark(Gap::Line(nest.depth), Mark::With)?;
    object(w, head.class, head.value)?;
    w.mark(Gap::Space, Mark::As)?;
    name(w, Gap::Space, head.name)?;
    body(w, nest, inner)
}

/// Writes a body that knows a value by a name.
#[cycle(body)]
fn with_value(
    w: &mut Writer,
    nest: Nest,
    name: &Value,
    value: &Value,
    inner: &Value,
) -> Result<(), AllocError>
    requires { IsShallow nest }
    ensures { OnOk result (Writes w.old w.new (step (λ s. statement_pieces s nest.depth)
        (V.of_three F.with_value (name_of (view name.now)) (aggregate_of (view value.now))
        (body_of nest.levels (view inner.now))))) }
{
    w.word(Gap::Line(nest.depth), "let")?;
    binding(w, name, value)?;
    body(w, nest, inner)
}

/// Writes a subtransaction.
#[cycle(body)]
fn subtransaction(
    w: &mut Writer,
    nest: Nest,
    inner: &Value,
    otherwise: &Value,
) -> Result<(), AllocError>
    requires { IsShallow nest }
    ensures { OnOk result (Writes w.old w.new (step (λ s. statement_pieces s nest.depth)
        (V.of_two F.subtransaction (body_of nest.levels (view inner.now))
        (body_of nest.levels (view otherwise.now))))) }
{
    w.mark(Gap::Line(nest.depth), Mark::Sub)?;
    body(w, nest, inner)?;
    other_body(w, nest, Mark::Otherwise, otherwise)
}

/// Writes the statement of a word and two parts.
#[cycle(body)]
fn of_two(
    w: &mut Writer,
    nest: Nest,
    word: &str,
    first: &Value,
    second: &Value,
) -> Result<(), AllocError>
    requires { IsShallow nest }
    ensures { OnOk result (Writes w.old w.new (step (λ s. statement_pieces s nest.depth)
        (V.statement_of_two (body_of nest.levels) word.now (view first.now) (view second.now)))) }
{
    match word {
        "delete" => delete(w, nest.depth, first, second),
        "signal" => signal(w, nest.depth, first, second),
        "for" => for_answer(w, nest, first, second),
        "sub" => subtransaction(w, nest, first, second),
        _ => {
            w.refuse();
            Ok(())
        }
    }
}

/// Writes the statement of a word and three parts.
#[cycle(body)]
fn of_three(
    w: &mut Writer,
    nest: Nest,
    word: &str,
    first: &Value,
    second: &Value,
    third: &Value,
) -> Result<(), AllocError>
    requires { IsShallow nest }
    ensures { OnOk result (Writes w.old w.new (step (λ s. statement_pieces s nest.depth)
        (V.statement_of_three (body_of nest.levels) word.now (view first.now) (view second.now)
        (view third.now)))) }
{
    match word {
        "create" => set_object(w, nest.depth, Setting::Create, first, second, third),
        "update" => set_object(w, nest.depth, Setting::Update, first, second, third),
        "if" => when(w, nest, first, second, third),
        "let" => with_value(w, nest, first, second, third),
        _ => {
            w.refuse();
            Ok(())
        }
    }
}

/// Writes the statement of a word and four parts.
#[cycle(body)]
fn of_four(
    w: &mut Writer,
    nest: Nest,
    word: &str,
    head: Head<'_>,
    inner: &Value,
) -> Result<(), AllocError>
    requires { IsShallow nest }
    ensures { OnOk result (Writes w.old w.new (step (λ s. statement_pieces s nest.depth)
        (V.statement_of_four (body_of nest.levels) word.now (view head.entry.name.now)
        (view head.entry.class.now) (view head.entry.value.now) (view inner.now)))) }
{
    match word {
        "each" => {
            let parts = RowParts {
                name: head.name,
                class: head.class,
                predicate: head.value,
            };
            each(w, nest, parts, inner)
        }
        "with" => with_object(w, nest, head, inner),
        _ => {
            w.refuse();
            Ok(())
        }
    }
}

/// Writes the statement of a word and its parts.
#[cycle(body)]
fn of_form(w: &mut Writer, nest: Nest, word: &str, parts: &[Value]) -> Result<(), AllocError>
    requires { IsShallow nest }
    ensures { OnOk result (Writes w.old w.new (step (λ s. statement_pieces s nest.depth)
        (statement_of_form (body_of nest.levels) word.now (map view parts.now)))) }
{
    match parts {
        [] => of_none(w, nest.depth, word),
        [part] => of_one(w, nest.depth, word, part),
        [first, second] => of_two(w, nest, word, first, second),
        [first, second, third] => of_three(w, nest, word, first, second, third),
        [name, class, value, inner] => {
            let head = Head { name, class, value };
            of_four(w, nest, word, head, inner)
        }
        _ => {
            w.refuse();
            Ok(())
        }
    }
}

/// Writes the statement in a value.
#[cycle(body)]
fn statement(w: &mut Writer, nest: Nest, value: &Value) -> Result<(), AllocError>
    requires { IsShallow nest }
    ensures { OnOk result (Writes w.old w.new (step (λ s. statement_pieces s nest.depth)
        (statement_within nest.levels (view value.now)))) }
{
    match form_of(value) {
        Some(form) => of_form(w, nest, form.word, form.parts),
        None => {
            w.refuse();
            Ok(())
        }
    }
}

/// Writes statements, each on a line of its own.
#[cycle(body)]
fn statements(w: &mut Writer, nest: Nest, values: &[Value]) -> Result<(), AllocError>
    requires { IsShallow nest }
    ensures { OnOk result (Writes w.old w.new (step (λ ss. statements_pieces (body_in ss) nest.depth)
        (statements_within nest.levels (map view values.now)))) }
{
    for value in values {
        statement(w, nest, value)?;
    }
    Ok(())
}

/// Writes the statements of a body in braces.
#[cycle(body)]
fn braced(w: &mut Writer, nest: Nest, values: &[Value]) -> Result<(), AllocError>
    requires { nest.depth + nest.levels ≤ 64 }
    ensures { OnOk result (Writes w.old w.new (step (λ ss. body_pieces (body_in ss) nest.depth)
        (statements_within nest.levels (map view values.now)))) }
{
    w.mark(Gap::Space, Mark::OpenBrace)?;
    if values.len() == 0 {
        return w.mark(Gap::Tight, Mark::CloseBrace);
    }
    let inner = Nest {
        levels: nest.levels,
        depth: nest.depth + 1,
    };
    statements(w, inner, values)?;
    w.mark(Gap::Line(nest.depth), Mark::CloseBrace)
}

/// Writes the body in a value.
#[cycle(body)]
#[tactic(auto, unfolding(hp_model::specs::NotationValues::body_of))]
fn body(w: &mut Writer, nest: Nest, value: &Value) -> Result<(), AllocError>
    requires { IsShallow nest }
    ensures { OnOk result (Writes w.old w.new (step (λ b. body_pieces b nest.depth)
        (body_of nest.levels (view value.now)))) }
{
    let Some(values) = list_of(value) else {
        w.refuse();
        return Ok(());
    };
    if nest.levels == 0 {
        w.refuse();
        return Ok(());
    }
    let inner = Nest {
        levels: nest.levels - 1,
        depth: nest.depth,
    };
    braced(w, inner, values)
}

/// Whether a value is an empty list.
fn is_empty_list(value: &Value) -> bool
    ensures each { (n : ℕ) → IfSome (body_of n (view value.now)) (λ b. result ≡ is_empty b) }
    ensures empty { result ≡ true → (n : ℕ) → body_of (suc n) (view value.now) ≡ Some empty }
{
    let Some(values) = list_of(value) else {
        return false;
    };
    match values {
        [] => true,
        [_, ..] => false,
    }
}

/// Writes a word and the body in a value, or nothing if it is empty.
#[cycle(body)]
fn other_body(w: &mut Writer, nest: Nest, mark: Mark, value: &Value) -> Result<(), AllocError>
    requires { IsShallow nest }
    ensures { OnOk result (Writes w.old w.new
        (step (λ b. body_after (mark_view mark) (is_empty b) (body_pieces b nest.depth))
        (body_of nest.levels (view value.now)))) }
{
    if nest.levels == 0 {
        w.refuse();
        return Ok(());
    }
    if is_empty_list(value) {
        return Ok(());
    }
    w.mark(Gap::Space, mark)?;
    body(w, nest, value)
}

/// Writes the body in a value, whose last line has this indentation, of at most one step.
pub(crate) fn any_body(w: &mut Writer, depth: usize, value: &Value) -> Result<(), AllocError>
    requires { depth ≤ 1 }
    ensures { OnOk result (Writes w.old w.new (step (λ b. body_pieces b depth) (any_body (view value.now)))) }
{
    let nest = Nest {
        levels: MAX_LEVELS,
        depth,
    };
    body(w, nest, value)
}
