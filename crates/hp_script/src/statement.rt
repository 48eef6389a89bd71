//! Statements and bodies.

ghost use Rattle.std.specs.Prelude.{map};
ghost use Rattle.serde_json.specs.View.{view};
ghost use Rattle.hp_model.specs.StatementGrammar.{if_form, each_form, for_form, with_form, sub_form, let_form};
ghost use Rattle.hp_model.specs.StatementGrammar.{statements_at};
ghost use Rattle.hp_rule.specs.Mapped.{statement};
ghost use Rattle.hp_rule.specs.Places.{steps};
ghost use Rattle.hp_script.specs.Contexts.{form_here, statement_here, statements_here};
ghost use Rattle.hp_script.specs.Forms.{scope_view, statement_form_view};
ghost use Rattle.hp_script.specs.Mapped.{Gives};
ghost use Rattle.hp_script.specs.Settings.{setting_in};

use crate::aggregate::aggregate_at;
use crate::expression::boxed_expression_at;
use crate::known::new_row_at;
use crate::list::list_at;
use crate::operation::operation_at;
use crate::reference::{class_at, query_at};
use crate::refusal::{DecodeError, Refusal};
use crate::scope::Scope;
use crate::setting::setting_of;
use crate::statement_form::{StatementForm, statement_form_at};
use hp_rule::{Context, KnownNames, Limit, Place, Stmt};
use serde_json::Value;
use std::alloc::Global;

/// The most levels of statements in statements.
const MAX_LEVELS: usize = 16;

#[cycle(statement)]
#[tactic(auto, using(crate::proofs::Bodies::if_statement), unfolding(hp_model::specs::StatementGrammar::if_at))]
fn if_at(
    context: &Context<'_, Scope<'_>>,
    levels: usize,
    test: &Value,
    then_body: &Value,
    else_body: &Value,
) -> Result<Stmt, DecodeError>
    ensures { Gives statement result
        (form_here context.entry.now levels (if_form (view test.now) (view then_body.now) (view else_body.now))) }
{
    let setting = setting_of(context);
    let condition = boxed_expression_at(context.alloc, &context.place.item(1), &setting, test)?;
    let then_body = statements_within(&context.item(2), levels, then_body)?;
    let else_body = statements_within(&context.item(3), levels, else_body)?;
    Ok(Stmt::If {
        condition,
        then_body,
        else_body,
    })
}

#[cycle(statement)]
#[tactic(auto, unfolding(hp_model::specs::StatementGrammar::each_at))]
fn each_at(
    context: &Context<'_, Scope<'_>>,
    levels: usize,
    variable: &Value,
    class: &Value,
    predicate: &Value,
    body: &Value,
) -> Result<Stmt, DecodeError>
    ensures { Gives statement result
        (form_here context.entry.now levels
        (each_form (view variable.now) (view class.now) (view predicate.now) (view body.now))) }
{
    let alloc = context.alloc;
    let variable = new_row_at(alloc, &context.place.item(1), &context.names, variable)?;
    let class = class_at(alloc, &context.place.item(2), &context.scope, class)?;
    let inner = (&*context).with_row(variable);
    let setting = setting_of(&inner);
    let predicate = boxed_expression_at(alloc, &inner.place.item(3), &setting, predicate)?;
    let body = statements_within(&inner.item(4), levels, body)?;
    let variable = String::from_str(alloc, variable)?;
    Ok(Stmt::Each {
        variable,
        class,
        predicate,
        body,
    })
}

#[cycle(statement)]
#[tactic(auto, unfolding(hp_model::specs::StatementGrammar::for_at))]
fn for_at(
    context: &Context<'_, Scope<'_>>,
    levels: usize,
    query: &Value,
    body: &Value,
) -> Result<Stmt, DecodeError>
    ensures { Gives statement result (form_here context.entry.now levels (for_form (view query.now) (view body.now))) }
{
    let alloc = context.alloc;
    let query = query_at(alloc, &context.place.item(1), &context.scope, query)?;
    let body = statements_within(&context.item(2), levels, body)?;
    let query = String::from_str(alloc, query)?;
    Ok(Stmt::For { query, body })
}

#[cycle(statement)]
#[tactic(auto, unfolding(hp_model::specs::StatementGrammar::with_at))]
fn with_at(
    context: &Context<'_, Scope<'_>>,
    levels: usize,
    variable: &Value,
    class: &Value,
    key: &Value,
    body: &Value,
) -> Result<Stmt, DecodeError>
    ensures { Gives statement result
        (form_here context.entry.now levels
        (with_form (view variable.now) (view class.now) (view key.now) (view body.now))) }
{
    let alloc = context.alloc;
    let variable = new_row_at(alloc, &context.place.item(1), &context.names, variable)?;
    let class = class_at(alloc, &context.place.item(2), &context.scope, class)?;
    let setting = setting_of(context);
    let key = boxed_expression_at(alloc, &context.place.item(3), &setting, key)?;
    let inner = (&*context).with_row(variable);
    let body = statements_within(&inner.item(4), levels, body)?;
    let variable = String::from_str(alloc, variable)?;
    Ok(Stmt::With {
        variable,
        class,
        key,
        body,
    })
}

#[cycle(statement)]
#[tactic(auto, using(crate::proofs::Bodies::sub_statement), unfolding(hp_model::specs::StatementGrammar::sub_at))]
fn sub_at(
    context: &Context<'_, Scope<'_>>,
    levels: usize,
    body: &Value,
    otherwise: &Value,
) -> Result<Stmt, DecodeError>
    ensures { Gives statement result
        (form_here context.entry.now levels (sub_form (view body.now) (view otherwise.now))) }
{
    let body = statements_within(&context.item(1), levels, body)?;
    let otherwise = statements_within(&context.item(2), levels, otherwise)?;
    Ok(Stmt::Sub { body, otherwise })
}

/// The statement `let`. Its value isn't known in its own aggregate.
#[cycle(statement)]
#[tactic(auto, unfolding(hp_model::specs::StatementGrammar::let_value_at))]
fn let_at(
    context: &Context<'_, Scope<'_>>,
    levels: usize,
    name: &Value,
    aggregate: &Value,
    body: &Value,
) -> Result<Stmt, DecodeError>
    ensures { Gives statement result
        (form_here context.entry.now levels (let_form (view name.now) (view aggregate.now) (view body.now))) }
{
    let alloc = context.alloc;
    let setting = setting_of(context);
    let name = new_row_at(alloc, &context.place.item(1), &context.names, name)?;
    let place = context.place.item(2);
    let aggregate = aggregate_at(alloc, &place, &context.scope, &setting, aggregate)?;
    let inner = (&*context).with_value(name);
    let body = statements_within(&inner.item(3), levels, body)?;
    let name = String::from_str(alloc, name)?;
    Ok(Stmt::Let {
        name,
        aggregate,
        body,
    })
}

/// The statement here of a form, each of whose statements has at most `levels` levels.
#[cycle(statement)]
fn statement_from(
    context: &Context<'_, Scope<'_>>,
    levels: usize,
    form: StatementForm<'_>,
) -> Result<Stmt, DecodeError>
    ensures { Gives statement result (form_here context.entry.now levels (statement_form_view form.entry)) }
{
    match form {
        StatementForm::If(test, then_body, else_body) => {
            if_at(context, levels, test, then_body, else_body)
        }
        StatementForm::Each(variable, class, predicate, body) => {
            each_at(context, levels, variable, class, predicate, body)
        }
        StatementForm::For(query, body) => for_at(context, levels, query, body),
        StatementForm::With(variable, class, key, body) => {
            with_at(context, levels, variable, class, key, body)
        }
        StatementForm::Sub(body, otherwise) => sub_at(context, levels, body, otherwise),
        StatementForm::Let(name, aggregate, body) => {
            let_at(context, levels, name, aggregate, body)
        }
        StatementForm::Operation(form) => operation_at(context, form),
    }
}

/// The statement here, which has at most `levels` levels.
#[cycle(statement)]
#[tactic(auto, unfolding(hp_model::specs::StatementGrammar::statement_within))]
fn statement_within(
    context: &Context<'_, Scope<'_>>,
    levels: usize,
    value: &Value,
) -> Result<Stmt, DecodeError>
    ensures { Gives statement result (statement_here context.entry.now levels (view value.now)) }
{
    let form = statement_form_at(context.alloc, &context.place, &context.scope, value)?;
    if levels == 0 {
        return Err(DecodeError::Refused(Refusal::S5(Limit::Nesting)));
    }
    statement_from(context, levels - 1, form)
}

/// The statements of the body here, each of which has at most `levels` levels.
#[cycle(statement)]
#[tactic(auto, unfolding(hp_model::specs::StatementGrammar::statements_by))]
fn statements_within(
    context: &Context<'_, Scope<'_>>,
    levels: usize,
    value: &Value,
) -> Result<Vec<Stmt>, DecodeError>
    ensures { Gives (λ body. map statement body.items) result
        (statements_here context.entry.now levels (view value.now)) }
{
    let values = list_at(context.alloc, &context.place, value)?;
    let mut body = Vec::with_capacity(context.alloc, values.len())?;
    for (i, value) in values.iter().enumerate() {
        let statement = statement_within(&context.item(i), levels, value)?;
        body.push(statement)?;
    }
    Ok(body)
}

/// The statements of the body at a place.
pub(crate) fn statements_at(
    alloc: Global,
    place: &Place<'_>,
    scope: &Scope<'_>,
    names: &KnownNames<'_>,
    value: &Value,
) -> Result<Vec<Stmt>, DecodeError>
    ensures { Gives (λ body. map statement body.items) result
        (statements_at (scope_view scope.entry.now) (setting_in scope.entry.now names.now) (steps place.now)
        (view value.now)) }
{
    let context = Context {
        alloc,
        place: *place,
        scope: *scope,
        names: *names,
    };
    statements_within(&context, MAX_LEVELS, value)
}
