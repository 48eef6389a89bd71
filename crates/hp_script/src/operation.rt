//! Statements with no statement inside.

ghost use Rattle.std.specs.Prelude.{ℕ, map};
ghost use Rattle.serde_json.specs.View.{view};
ghost use Rattle.hp_model.specs.StatementGrammar.{delete_form, signal_form, emit_form, veto_with_form, rule_form};
ghost use Rattle.hp_model.specs.StatementGrammar.{fire_form, arguments_at};
ghost use Rattle.hp_value.specs.Mapped.{expression};
ghost use Rattle.hp_rule.specs.Mapped.{rule_operation, statement};
ghost use Rattle.hp_rule.specs.Places.{steps};
ghost use Rattle.hp_script.specs.Contexts.{form_here};
ghost use Rattle.hp_script.specs.Forms.{operation_form_view};
ghost use Rattle.hp_script.specs.Mapped.{Gives};
ghost use Rattle.hp_script.specs.Settings.{setting_view};
ghost use Rattle.hp_script.specs.Writes.{write_form};

use crate::assignment::{all_assignments_at, assignments_at};
use crate::expression::{boxed_expression_at, expression_at};
use crate::list::short_list_at;
use crate::name::name_at;
use crate::reference::{class_at, fields_of, rule_at};
use crate::refusal::DecodeError;
use crate::scope::Scope;
use crate::setting::{Setting, setting_of};
use crate::statement_form::OperationForm;
use hp_rule::{Context, Limit, Place, RuleOperation, Stmt};
use hp_value::Expr;
use serde_json::Value;
use std::alloc::Global;

/// The most arguments that a signal may have.
const MAX_ARGUMENTS: usize = 32;

/// The statements that set the fields of an object.
#[derive(Clone, Copy)]
pub(crate) enum Write {
    Create,
    Update,
}

#[tactic(auto, unfolding(hp_model::specs::StatementGrammar::create_at, hp_model::specs::StatementGrammar::update_at))]
fn write_at(
    context: &Context<'_, Scope<'_>>,
    write: Write,
    class: &Value,
    key: &Value,
    pairs: &Value,
) -> Result<Stmt, DecodeError>
    ensures { Gives statement result
        (form_here context.entry.now 0 (write_form write (view class.now) (view key.now) (view pairs.now))) }
{
    let alloc = context.alloc;
    let setting = setting_of(context);
    let class = class_at(alloc, &context.place.item(1), &context.scope, class)?;
    let key = boxed_expression_at(alloc, &context.place.item(2), &setting, key)?;
    let place = context.place.item(3);
    let fields = fields_of(&context.scope, class);
    match write {
        Write::Create => {
            let pairs = all_assignments_at(alloc, &place, fields, &setting, pairs)?;
            Ok(Stmt::Create { class, key, pairs })
        }
        Write::Update => {
            let pairs = assignments_at(alloc, &place, fields, &setting, pairs)?;
            Ok(Stmt::Update { class, key, pairs })
        }
    }
}

#[tactic(auto, unfolding(hp_model::specs::StatementGrammar::delete_at))]
fn delete_at(
    context: &Context<'_, Scope<'_>>,
    class: &Value,
    key: &Value,
) -> Result<Stmt, DecodeError>
    ensures { Gives statement result (form_here context.entry.now 0 (delete_form (view class.now) (view key.now))) }
{
    let alloc = context.alloc;
    let setting = setting_of(context);
    let class = class_at(alloc, &context.place.item(1), &context.scope, class)?;
    let key = boxed_expression_at(alloc, &context.place.item(2), &setting, key)?;
    Ok(Stmt::Delete { class, key })
}

#[tactic(auto, unfolding(hp_model::specs::StatementGrammar::arguments_at))]
fn arguments_at(
    alloc: Global,
    place: &Place<'_>,
    setting: &Setting<'_>,
    value: &Value,
) -> Result<Vec<Expr>, DecodeError>
    ensures { Gives (λ es. map expression es.items) result
        (arguments_at (setting_view setting.now) (steps place.now) (view value.now)) }
{
    let values = short_list_at(alloc, place, MAX_ARGUMENTS, Limit::Arguments, value)?;
    let mut arguments = Vec::with_capacity(alloc, values.len())?;
    for (i, value) in values.iter().enumerate() {
        let argument = expression_at(alloc, &place.item(i), setting, value)?;
        arguments.push(argument)?;
    }
    Ok(arguments)
}

#[tactic(auto, unfolding(hp_model::specs::StatementGrammar::signal_at))]
fn signal_at(
    context: &Context<'_, Scope<'_>>,
    name: &Value,
    arguments: &Value,
) -> Result<Stmt, DecodeError>
    ensures { Gives statement result
        (form_here context.entry.now 0 (signal_form (view name.now) (view arguments.now))) }
{
    let alloc = context.alloc;
    let name = name_at(alloc, &context.place.item(1), name)?;
    let setting = setting_of(context);
    let arguments = arguments_at(alloc, &context.place.item(2), &setting, arguments)?;
    let name = String::from_str(alloc, name)?;
    Ok(Stmt::Signal { name, arguments })
}

#[tactic(auto, unfolding(hp_model::specs::StatementGrammar::emit_at))]
fn emit_at(context: &Context<'_, Scope<'_>>, value: &Value) -> Result<Stmt, DecodeError>
    ensures { Gives statement result (form_here context.entry.now 0 (emit_form (view value.now))) }
{
    let setting = setting_of(context);
    let value = boxed_expression_at(context.alloc, &context.place.item(1), &setting, value)?;
    Ok(Stmt::Emit(value))
}

#[tactic(auto, unfolding(hp_model::specs::StatementGrammar::veto_with_at))]
fn veto_with_at(context: &Context<'_, Scope<'_>>, message: &Value) -> Result<Stmt, DecodeError>
    ensures { Gives statement result (form_here context.entry.now 0 (veto_with_form (view message.now))) }
{
    let setting = setting_of(context);
    let message = boxed_expression_at(context.alloc, &context.place.item(1), &setting, message)?;
    Ok(Stmt::Veto(Some(message)))
}

#[tactic(auto, unfolding(hp_model::specs::StatementGrammar::on_rule_at))]
fn on_rule_at(
    context: &Context<'_, Scope<'_>>,
    operation: RuleOperation,
    rule: &Value,
) -> Result<Stmt, DecodeError>
    ensures { Gives statement result
        (form_here context.entry.now 0 (rule_form (rule_operation operation) (view rule.now))) }
{
    let rule = rule_at(context.alloc, &context.place.item(1), &context.scope, rule)?;
    Ok(Stmt::OnRule { operation, rule })
}

#[tactic(auto, unfolding(hp_model::specs::StatementGrammar::fire_at))]
fn fire_at(context: &Context<'_, Scope<'_>>, rule: &Value) -> Result<Stmt, DecodeError>
    ensures { Gives statement result (form_here context.entry.now 0 (fire_form (view rule.now))) }
{
    let rule = rule_at(context.alloc, &context.place.item(1), &context.scope, rule)?;
    Ok(Stmt::Fire(rule))
}

/// The statement here of a form with no statement inside.
pub(crate) fn operation_at(
    context: &Context<'_, Scope<'_>>,
    form: OperationForm<'_>,
) -> Result<Stmt, DecodeError>
    ensures { (levels : ℕ) →
        Gives statement result (form_here context.entry.now levels (operation_form_view form.entry)) }
{
    match form {
        OperationForm::Create(class, key, pairs) => {
            write_at(context, Write::Create, class, key, pairs)
        }
        OperationForm::Update(class, key, pairs) => {
            write_at(context, Write::Update, class, key, pairs)
        }
        OperationForm::Delete(class, key) => delete_at(context, class, key),
        OperationForm::Signal(name, arguments) => signal_at(context, name, arguments),
        OperationForm::Emit(value) => emit_at(context, value),
        OperationForm::Abort => Ok(Stmt::Abort),
        OperationForm::Veto => Ok(Stmt::Veto(None)),
        OperationForm::VetoWith(message) => veto_with_at(context, message),
        OperationForm::OnRule(operation, rule) => on_rule_at(context, operation, rule),
        OperationForm::Fire(rule) => fire_at(context, rule),
    }
}
