//! Statements without bodies.

ghost use Rattle.std.specs.Prelude.{◌≡◌, OnOk, option_map};
ghost use Rattle.serde_json.specs.View.{view};
ghost use Rattle.hp_model.specs.Json.{beside};
ghost use Rattle.hp_model.specs.Parts.{name_of};
ghost use Rattle.hp_model.specs.NotationForms as F;
ghost use Rattle.hp_model.specs.NotationPrint as P;
ghost use Rattle.hp_model.specs.NotationPrint.{statement_pieces};
ghost use Rattle.hp_model.specs.NotationValues as V;
ghost use Rattle.hp_model.specs.NotationValues.{of_one, of_two, of_three, any_expression, list_form, assignment_of};
ghost use Rattle.hp_text.specs.Mapped.{mark_view};
ghost use Rattle.hp_print.specs.Written.{step, Writes};
ghost use Rattle.hp_print.specs.Statements.{setting_view, operation_view};

use crate::expression::{any_expression, apart_from};
use crate::level::Opening;
use crate::lists::{arguments, assignments};
use crate::names::name;
use crate::token::Gap;
use crate::writer::Writer;
use hp_text::Mark;
use serde_json::Value;
use std::alloc::AllocError;

/// Writes a class and a key in parentheses.
pub(crate) fn object(w: &mut Writer, class: &Value, key: &Value) -> Result<(), AllocError>
    ensures { OnOk result (Writes w.old w.new
        (of_three P.object_pieces (name_of (view class.now)) (any_expression (view key.now)))) }
{
    name(w, Gap::Space, class)?;
    w.mark(Gap::Tight, Mark::OpenParenthesis)?;
    any_expression(w, Gap::Tight, key)?;
    w.mark(Gap::Tight, Mark::CloseParenthesis)
}

/// The statements that set fields of an object.
#[derive(Clone, Copy)]
pub(crate) enum Setting {
    Create,
    Update,
}

impl Setting {
    fn sign(self) -> Mark
        ensures { mark_view result ≡ F.setting_mark (setting_view self) }
    {
        match self {
            Setting::Create => Mark::Create,
            Setting::Update => Mark::Update,
        }
    }
}

/// Writes a statement that sets fields of an object.
pub(crate) fn set_object(
    w: &mut Writer,
    depth: usize,
    setting: Setting,
    class: &Value,
    key: &Value,
    pairs: &Value,
) -> Result<(), AllocError>
    ensures { OnOk result (Writes w.old w.new (step (λ s. statement_pieces s depth)
        (of_three (F.set_object (setting_view setting)) (name_of (view class.now)) (any_expression (view key.now))
        (list_form assignment_of (view pairs.now))))) }
{
    w.mark(Gap::Line(depth), setting.sign())?;
    object(w, class, key)?;
    assignments(w, pairs)
}

/// Writes the deletion of an object.
pub(crate) fn delete(
    w: &mut Writer,
    depth: usize,
    class: &Value,
    key: &Value,
) -> Result<(), AllocError>
    ensures { OnOk result (Writes w.old w.new (step (λ s. statement_pieces s depth)
        (of_two F.delete (name_of (view class.now)) (any_expression (view key.now))))) }
{
    w.mark(Gap::Line(depth), Mark::Delete)?;
    object(w, class, key)
}

/// Writes a signal with its arguments.
pub(crate) fn signal(
    w: &mut Writer,
    depth: usize,
    signal: &Value,
    values: &Value,
) -> Result<(), AllocError>
    ensures { OnOk result (Writes w.old w.new (step (λ s. statement_pieces s depth)
        (of_two F.signal (name_of (view signal.now)) (list_form V.any_expression (view values.now))))) }
{
    w.mark(Gap::Line(depth), Mark::Signal)?;
    name(w, Gap::Space, signal)?;
    arguments(w, values)
}

/// Writes an emission.
fn emit(w: &mut Writer, depth: usize, value: &Value) -> Result<(), AllocError>
    ensures { OnOk result (Writes w.old w.new (step (λ s. statement_pieces s depth)
        (of_one F.emit (any_expression (view value.now))))) }
{
    w.mark(Gap::Line(depth), Mark::Emit)?;
    any_expression(w, Gap::Space, value)
}

/// Writes a veto with a message.
fn veto_with(w: &mut Writer, depth: usize, message: &Value) -> Result<(), AllocError>
    ensures { OnOk result (Writes w.old w.new (step (λ s. statement_pieces s depth)
        (of_one F.veto_with (any_expression (view message.now))))) }
{
    w.mark(Gap::Line(depth), Mark::Veto)?;
    apart_from(w, Gap::Space, Opening::Let, message)
}

/// What is done to a rule.
#[derive(Clone, Copy)]
enum RuleOperation {
    Install,
    Enable,
    Disable,
    Remove,
    Fire,
}

fn rule_operation_of(word: &str) -> Option<RuleOperation>
    ensures { option_map operation_view result ≡ V.rule_operation_of word.now }
{
    match word {
        "install" => Some(RuleOperation::Install),
        "enable" => Some(RuleOperation::Enable),
        "disable" => Some(RuleOperation::Disable),
        "remove" => Some(RuleOperation::Remove),
        "fire" => Some(RuleOperation::Fire),
        _ => None,
    }
}

impl RuleOperation {
    fn sign(self) -> Mark
        ensures { mark_view result ≡ F.operation_mark (operation_view self) }
    {
        match self {
            RuleOperation::Install => Mark::Install,
            RuleOperation::Enable => Mark::Enable,
            RuleOperation::Disable => Mark::Disable,
            RuleOperation::Remove => Mark::Remove,
            RuleOperation::Fire => Mark::Fire,
        }
    }
}

/// Writes what is done to a rule.
fn on_rule(
    w: &mut Writer,
    depth: usize,
    operation: RuleOperation,
    rule: &Value,
) -> Result<(), AllocError>
    ensures { OnOk result (Writes w.old w.new (step (λ s. statement_pieces s depth)
        (of_one (F.on_rule (operation_view operation)) (name_of (view rule.now))))) }
{
    w.mark(Gap::Line(depth), operation.sign())?;
    name(w, Gap::Space, rule)
}

/// Writes the statement of a word alone.
pub(crate) fn of_none(w: &mut Writer, depth: usize, word: &str) -> Result<(), AllocError>
    ensures { OnOk result (Writes w.old w.new
        (step (λ s. statement_pieces s depth) (V.statement_of_none word.now))) }
{
    match word {
        "abort" => w.mark(Gap::Line(depth), Mark::Abort),
        "veto" => w.mark(Gap::Line(depth), Mark::Veto),
        _ => {
            w.refuse();
            Ok(())
        }
    }
}

/// Writes the statement of a word and an expression.
fn of_expression(w: &mut Writer, depth: usize, word: &str, value: &Value) -> Result<(), AllocError>
    ensures { OnOk result (Writes w.old w.new (step (λ s. statement_pieces s depth)
        (V.chosen (beside word.now (V.statements_of_one (view value.now)))))) }
{
    match word {
        "emit" => emit(w, depth, value),
        "veto" => veto_with(w, depth, value),
        _ => {
            w.refuse();
            Ok(())
        }
    }
}

/// Writes the statement of a word and a part.
pub(crate) fn of_one(
    w: &mut Writer,
    depth: usize,
    word: &str,
    part: &Value,
) -> Result<(), AllocError>
    ensures { OnOk result (Writes w.old w.new
        (step (λ s. statement_pieces s depth) (V.statement_of_one word.now (view part.now)))) }
{
    match rule_operation_of(word) {
        Some(operation) => on_rule(w, depth, operation, part),
        None => of_expression(w, depth, word, part),
    }
}
