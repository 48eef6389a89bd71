//! The forms of statements.

ghost use Rattle.std.specs.Prelude.{◌≡◌, map, option_map, option_and_then};
ghost use Rattle.serde_json.specs.View.{view};
ghost use Rattle.hp_model.specs.Json as J;
ghost use Rattle.hp_model.specs.StatementGrammar.{statement_form_of_none, statement_form_of_one};
ghost use Rattle.hp_model.specs.StatementGrammar.{statement_form_of_two, statement_form_of_three};
ghost use Rattle.hp_model.specs.StatementGrammar.{statement_form_of_four, common_statement_form};
ghost use Rattle.hp_model.specs.StatementGrammar.{new_statement_form, statement_form, is_veto, statement_form_at};
ghost use Rattle.hp_rule.specs.Places.{steps};
ghost use Rattle.hp_script.specs.Forms.{scope_view, statement_form_view};
ghost use Rattle.hp_script.specs.Mapped.{Gives};
ghost use Rattle.hp_script.specs.Versions.{version_view};

use crate::refusal::{DecodeError, shaped, wrong_shape};
use crate::scope::Scope;
use crate::shape::{Form, form_of};
use crate::version::{Version, is_fourth};
use hp_rule::{Place, RuleOperation};
use serde_json::Value;
use std::alloc::Global;

/// A statement with no statement inside, whose parts are still JSON.
#[derive(Clone, Copy)]
pub(crate) enum OperationForm<'a> {
    Create(&'a Value, &'a Value, &'a Value),
    Update(&'a Value, &'a Value, &'a Value),
    Delete(&'a Value, &'a Value),
    Signal(&'a Value, &'a Value),
    Emit(&'a Value),
    Abort,
    Veto,
    VetoWith(&'a Value),
    OnRule(RuleOperation, &'a Value),
    Fire(&'a Value),
}

/// A statement whose parts are still JSON.
#[derive(Clone, Copy)]
pub(crate) enum StatementForm<'a> {
    If(&'a Value, &'a Value, &'a Value),
    Each(&'a Value, &'a Value, &'a Value, &'a Value),
    For(&'a Value, &'a Value),
    With(&'a Value, &'a Value, &'a Value, &'a Value),
    Sub(&'a Value, &'a Value),
    Let(&'a Value, &'a Value, &'a Value),
    Operation(OperationForm<'a>),
}

fn statement_form_of_none<'a>(word: &str) -> Option<StatementForm<'a>>
    ensures { option_map statement_form_view result ≡ statement_form_of_none word.now }
{
    match word {
        "abort" => Some(StatementForm::Operation(OperationForm::Abort)),
        "veto" => Some(StatementForm::Operation(OperationForm::Veto)),
        _ => None,
    }
}

fn statement_form_of_one<'a>(word: &str, part: &'a Value) -> Option<StatementForm<'a>>
    ensures { option_map statement_form_view result ≡ statement_form_of_one word.now (view part.entry.now) }
{
    match word {
        "emit" => Some(StatementForm::Operation(OperationForm::Emit(part))),
        "install" => Some(StatementForm::Operation(OperationForm::OnRule(
            RuleOperation::Install,
            part,
        ))),
        "enable" => Some(StatementForm::Operation(OperationForm::OnRule(
            RuleOperation::Enable,
            part,
        ))),
        "disable" => Some(StatementForm::Operation(OperationForm::OnRule(
            RuleOperation::Disable,
            part,
        ))),
        "remove" => Some(StatementForm::Operation(OperationForm::OnRule(
            RuleOperation::Remove,
            part,
        ))),
        "fire" => Some(StatementForm::Operation(OperationForm::Fire(part))),
        _ => None,
    }
}

fn statement_form_of_two<'a>(
    word: &str,
    first: &'a Value,
    second: &'a Value,
) -> Option<StatementForm<'a>>
    ensures { option_map statement_form_view result
        ≡ statement_form_of_two word.now (view first.entry.now) (view second.entry.now) }
{
    match word {
        "delete" => Some(StatementForm::Operation(OperationForm::Delete(first, second))),
        "signal" => Some(StatementForm::Operation(OperationForm::Signal(first, second))),
        "for" => Some(StatementForm::For(first, second)),
        "sub" => Some(StatementForm::Sub(first, second)),
        _ => None,
    }
}

fn statement_form_of_three<'a>(
    word: &str,
    first: &'a Value,
    second: &'a Value,
    third: &'a Value,
) -> Option<StatementForm<'a>>
    ensures { option_map statement_form_view result
        ≡ statement_form_of_three word.now (view first.entry.now) (view second.entry.now) (view third.entry.now) }
{
    match word {
        "create" => Some(StatementForm::Operation(OperationForm::Create(first, second, third))),
        "update" => Some(StatementForm::Operation(OperationForm::Update(first, second, third))),
        "if" => Some(StatementForm::If(first, second, third)),
        _ => None,
    }
}

fn statement_form_of_four<'a>(
    word: &str,
    first: &'a Value,
    second: &'a Value,
    third: &'a Value,
    fourth: &'a Value,
) -> Option<StatementForm<'a>>
    ensures { option_map statement_form_view result
        ≡ statement_form_of_four word.now (view first.entry.now) (view second.entry.now) (view third.entry.now)
        (view fourth.entry.now) }
{
    match word {
        "each" => Some(StatementForm::Each(first, second, third, fourth)),
        "with" => Some(StatementForm::With(first, second, third, fourth)),
        _ => None,
    }
}

/// A form of all versions.
fn common_statement_form<'a>(word: &str, parts: &'a [Value]) -> Option<StatementForm<'a>>
    ensures { option_map statement_form_view result ≡ common_statement_form word.now (map view parts.entry.now) }
{
    match parts {
        [] => statement_form_of_none(word),
        [part] => statement_form_of_one(word, part),
        [first, second] => statement_form_of_two(word, first, second),
        [first, second, third] => statement_form_of_three(word, first, second, third),
        [first, second, third, fourth] => statement_form_of_four(
            word, first, second, third, fourth,
        ),
        _ => None,
    }
}

/// A form of version 4 alone.
fn new_statement_form<'a>(word: &str, parts: &'a [Value]) -> Option<StatementForm<'a>>
    ensures { option_map statement_form_view result ≡ new_statement_form word.now (map view parts.entry.now) }
{
    match parts {
        [message] => if word == "veto" {
            Some(StatementForm::Operation(OperationForm::VetoWith(message)))
        } else {
            None
        },
        [name, aggregate, body] => if word == "let" {
            Some(StatementForm::Let(name, aggregate, body))
        } else {
            None
        },
        _ => None,
    }
}

fn statement_form(version: Version, value: &Value) -> Option<StatementForm<'_>>
    ensures { option_map statement_form_view result ≡ option_and_then
        (λ (form : J.Form). statement_form (version_view version) form.word form.parts) (J.form_of (view value.now)) }
{
    let Form { word, parts } = form_of(value)?;
    if let Some(form) = common_statement_form(word, parts) {
        return Some(form);
    }
    if is_fourth(version) {
        new_statement_form(word, parts)
    } else {
        None
    }
}

fn is_veto(form: StatementForm<'_>) -> bool
    ensures { result ≡ is_veto (statement_form_view form.entry) }
{
    matches!(
        form,
        StatementForm::Operation(OperationForm::Veto | OperationForm::VetoWith(_))
    )
}

/// The form of the statement at a place. A veto is allowed only in a rule's action.
#[tactic(auto, unfolding(hp_model::specs::StatementGrammar::statement_form_at))]
pub(crate) fn statement_form_at<'a>(
    alloc: Global,
    place: &Place<'_>,
    scope: &Scope<'_>,
    value: &'a Value,
) -> Result<StatementForm<'a>, DecodeError>
    ensures { Gives statement_form_view result
        (statement_form_at (version_view scope.entry.now.version) (scope_view scope.entry.now)
        (steps place.now) (view value.entry.now)) }
{
    let form = shaped(alloc, place, statement_form(scope.version, value))?;
    if is_veto(form) && !scope.in_action {
        return Err(wrong_shape(alloc, place));
    }
    Ok(form)
}
