//! Statements and bodies.

ghost use Rattle.std.specs.Prelude.{◌≡◌, map};
ghost use Rattle.hp_value.specs.Mapped.{expression, field};
ghost use Rattle.hp_query.specs.Mapped.{aggregate};
ghost use Rattle.hp_rule.specs.Statements.{assignment, statement, body_in};
ghost use Rattle.hp_model.specs.Refusals.{item_at};
ghost use Rattle.hp_model.specs.Scopes.{taken};
ghost use Rattle.hp_model.specs.Checked.{number_check, class_check, new_name_check, whole_expression_check};
ghost use Rattle.hp_model.specs.Checked.{assignments_check};
ghost use Rattle.hp_model.specs.Checked.{create_check, update_check, delete_check, arguments_check, signal_check};
ghost use Rattle.hp_model.specs.Checked.{when_check, each_row_check, for_answer_check, with_object_check};
ghost use Rattle.hp_model.specs.Checked.{subtransaction_check, let_value_check};
ghost use Rattle.hp_model.specs.Checked.{is_veto, veto_check, statement_parts_check, statement_check, body_check};
ghost use Rattle.hp_model.specs.Checked.{whole_body_check};
ghost use Rattle.hp_rule.specs.Faults.{Passes};
ghost use Rattle.hp_rule.specs.Named.{names_in};
ghost use Rattle.hp_rule.specs.Places.{steps};
ghost use Rattle.hp_rule.specs.Scopes.{scope_of};

use crate::check::aggregate::check_aggregate;
use crate::check::expr::check_expr;
use crate::check::name::{check_limit, check_name, check_number, check_unless};
use crate::check::pairs::check_pairs;
use crate::check::scope::Scope;
use crate::context::Context;
use crate::fault::{CheckError, Limit, bad_name, over_limit, wrong_shape};
use crate::known_names::is_query;
use crate::stmt::{Assignment, Stmt};
use hp_query::Aggregate;
use hp_value::{ClassNo, Expr, Field, RuleNo};

const MAX_ARGUMENTS: usize = 32;

const MAX_LEVELS: usize = 16;

/// Checks the number of a class, which is the statement's part at an index.
fn check_class(
    context: &Context<'_, Scope<'_>>,
    position: usize,
    class: ClassNo,
) -> Result<(), CheckError>
    ensures { Passes result
        (class_check (scope_of context.now.scope) (item_at (steps context.now.place) position) class) }
{
    let classes = context.scope.classes.len();
    check_number(context.alloc, &context.place.item(position), classes, class)
}

/// Checks the number of a rule, which is the statement's first part.
fn check_rule(context: &Context<'_, Scope<'_>>, rule: RuleNo) -> Result<(), CheckError>
    ensures { Passes result
        (number_check (scope_of context.now.scope).rules (item_at (steps context.now.place) 1) rule) }
{
    let rules = context.scope.rules;
    check_number(context.alloc, &context.place.item(1), rules, rule)
}

/// Checks an expression, which is the statement's part at an index.
fn check_value(
    context: &Context<'_, Scope<'_>>,
    position: usize,
    expr: &Expr,
) -> Result<(), CheckError>
    ensures { Passes result
        (whole_expression_check (names_in context.now.names) (item_at (steps context.now.place) position)
        (expression expr.now)) }
{
    check_expr(
        context.alloc,
        &context.place.item(position),
        &context.names,
        expr,
    )
}

/// Checks that a name isn't in scope yet. It is the statement's first part.
fn check_variable(context: &Context<'_, Scope<'_>>, variable: &str) -> Result<(), CheckError>
    ensures { Passes result
        (new_name_check (taken (names_in context.now.names)) (item_at (steps context.now.place) 1) variable.now) }
{
    let is_taken = context.names.is_taken(variable);
    check_unless(context.alloc, &context.place.item(1), variable, is_taken)
}

/// Checks the assignments, which are the statement's third part.
fn check_assignments(
    context: &Context<'_, Scope<'_>>,
    fields: &[Field],
    pairs: &[Assignment],
) -> Result<(), CheckError>
    ensures { Passes result
        (assignments_check (map field fields.now) (names_in context.now.names) (item_at (steps context.now.place) 3)
        (map assignment pairs.now)) }
{
    check_pairs(
        context.alloc,
        &context.place.item(3),
        fields,
        &context.names,
        pairs,
    )
}

#[tactic(auto, unfolding(hp_model::specs::Checked::create_check))]
fn check_create(
    context: &Context<'_, Scope<'_>>,
    class: ClassNo,
    key: &Expr,
    pairs: &[Assignment],
) -> Result<(), CheckError>
    ensures { Passes result
        (create_check (scope_of context.now.scope) (names_in context.now.names) (steps context.now.place) class
        (expression key.now) (map assignment pairs.now)) }
{
    check_class(context, 1, class)?;
    check_value(context, 2, key)?;
    let fields = context.scope.fields_of(class);
    check_assignments(context, fields, pairs)?;
    if pairs.len() < fields.len() {
        return Err(bad_name(context.alloc, &context.place.item(3)));
    }
    Ok(())
}

#[tactic(auto, unfolding(hp_model::specs::Checked::update_check))]
fn check_update(
    context: &Context<'_, Scope<'_>>,
    class: ClassNo,
    key: &Expr,
    pairs: &[Assignment],
) -> Result<(), CheckError>
    ensures { Passes result
        (update_check (scope_of context.now.scope) (names_in context.now.names) (steps context.now.place) class
        (expression key.now) (map assignment pairs.now)) }
{
    check_class(context, 1, class)?;
    check_value(context, 2, key)?;
    check_assignments(context, context.scope.fields_of(class), pairs)
}

#[tactic(auto, unfolding(hp_model::specs::Checked::delete_check))]
fn check_delete(
    context: &Context<'_, Scope<'_>>,
    class: ClassNo,
    key: &Expr,
) -> Result<(), CheckError>
    ensures { Passes result
        (delete_check (scope_of context.now.scope) (names_in context.now.names) (steps context.now.place) class
        (expression key.now)) }
{
    check_class(context, 1, class)?;
    check_value(context, 2, key)
}

#[tactic(auto, unfolding(hp_model::specs::Checked::arguments_check))]
fn check_arguments(context: &Context<'_, Scope<'_>>, arguments: &[Expr]) -> Result<(), CheckError>
    ensures { Passes result
        (arguments_check (names_in context.now.names) (steps context.now.place) (map expression arguments.now)) }
{
    check_limit(MAX_ARGUMENTS, Limit::Arguments, arguments.len())?;
    for (i, argument) in arguments.iter().enumerate() {
        check_value(context, i, argument)?;
    }
    Ok(())
}

#[tactic(auto, unfolding(hp_model::specs::Checked::signal_check))]
fn check_signal(
    context: &Context<'_, Scope<'_>>,
    signal: &str,
    arguments: &[Expr],
) -> Result<(), CheckError>
    ensures { Passes result
        (signal_check (names_in context.now.names) (steps context.now.place) signal.now
        (map expression arguments.now)) }
{
    check_name(context.alloc, &context.place.item(1), signal)?;
    check_arguments(&context.item(2), arguments)
}

fn is_veto(s: &Stmt) -> bool
    ensures { result ≡ is_veto (statement s.now) }
{
    match s {
        Stmt::Veto(_) => true,
        _ => false,
    }
}

/// Checks that a veto stands in an action.
fn check_veto(context: &Context<'_, Scope<'_>>, s: &Stmt) -> Result<(), CheckError>
    ensures { Passes result (veto_check (scope_of context.now.scope) (steps context.now.place) (statement s.now)) }
{
    if is_veto(s) && !context.scope.in_action {
        return Err(wrong_shape(context.alloc, &context.place));
    }
    Ok(())
}

#[cycle(statement)]
#[tactic(auto, unfolding(hp_model::specs::Checked::when_check))]
fn check_if(
    context: &Context<'_, Scope<'_>>,
    levels: usize,
    condition: &Expr,
    then_body: &[Stmt],
    else_body: &[Stmt],
) -> Result<(), CheckError>
    ensures { Passes result
        (when_check (statement_check (scope_of context.now.scope) levels) (names_in context.now.names)
        (steps context.now.place) (expression condition.now) (body_in then_body.now) (body_in else_body.now)) }
{
    check_value(context, 1, condition)?;
    check_body(&context.item(2), levels, then_body)?;
    check_body(&context.item(3), levels, else_body)
}

#[cycle(statement)]
#[tactic(auto, unfolding(hp_model::specs::Checked::each_row_check))]
fn check_each(
    context: &Context<'_, Scope<'_>>,
    levels: usize,
    variable: &str,
    class: ClassNo,
    predicate: &Expr,
    body: &[Stmt],
) -> Result<(), CheckError>
    ensures { Passes result
        (each_row_check (scope_of context.now.scope) (statement_check (scope_of context.now.scope) levels)
        (names_in context.now.names) (steps context.now.place) variable.now class (expression predicate.now)
        (body_in body.now)) }
{
    check_variable(context, variable)?;
    check_class(context, 2, class)?;
    let inner = (&*context).with_row(variable);
    check_value(&inner, 3, predicate)?;
    check_body(&inner.item(4), levels, body)
}

#[cycle(statement)]
#[tactic(auto, unfolding(hp_model::specs::Checked::for_answer_check))]
fn check_for(
    context: &Context<'_, Scope<'_>>,
    levels: usize,
    query: &str,
    body: &[Stmt],
) -> Result<(), CheckError>
    ensures { Passes result
        (for_answer_check (scope_of context.now.scope) (statement_check (scope_of context.now.scope) levels)
        (names_in context.now.names) (steps context.now.place) query.now (body_in body.now)) }
{
    let is_unknown = !is_query(context.scope.condition, query);
    check_unless(context.alloc, &context.place.item(1), query, is_unknown)?;
    check_body(&context.item(2), levels, body)
}

#[cycle(statement)]
#[tactic(auto, unfolding(hp_model::specs::Checked::with_object_check))]
fn check_with(
    context: &Context<'_, Scope<'_>>,
    levels: usize,
    variable: &str,
    class: ClassNo,
    key: &Expr,
    body: &[Stmt],
) -> Result<(), CheckError>
    ensures { Passes result
        (with_object_check (scope_of context.now.scope) (statement_check (scope_of context.now.scope) levels)
        (names_in context.now.names) (steps context.now.place) variable.now class (expression key.now)
        (body_in body.now)) }
{
    check_variable(context, variable)?;
    check_class(context, 2, class)?;
    check_value(context, 3, key)?;
    let inner = (&*context).with_row(variable);
    check_body(&inner.item(4), levels, body)
}

#[cycle(statement)]
#[tactic(auto, unfolding(hp_model::specs::Checked::subtransaction_check))]
fn check_sub(
    context: &Context<'_, Scope<'_>>,
    levels: usize,
    body: &[Stmt],
    otherwise: &[Stmt],
) -> Result<(), CheckError>
    ensures { Passes result
        (subtransaction_check (statement_check (scope_of context.now.scope) levels) (names_in context.now.names)
        (steps context.now.place) (body_in body.now) (body_in otherwise.now)) }
{
    check_body(&context.item(1), levels, body)?;
    check_body(&context.item(2), levels, otherwise)
}

#[cycle(statement)]
#[tactic(auto, unfolding(hp_model::specs::Checked::let_value_check))]
fn check_let(
    context: &Context<'_, Scope<'_>>,
    levels: usize,
    name: &str,
    computed: &Aggregate,
    body: &[Stmt],
) -> Result<(), CheckError>
    ensures { Passes result
        (let_value_check (scope_of context.now.scope) (statement_check (scope_of context.now.scope) levels)
        (names_in context.now.names) (steps context.now.place) name.now (aggregate computed.now) (body_in body.now)) }
{
    check_variable(context, name)?;
    let classes = context.scope.classes.len();
    let place = context.place.item(2);
    check_aggregate(context.alloc, &place, classes, &context.names, computed)?;
    let inner = (&*context).with_value(name);
    check_body(&inner.item(3), levels, body)
}

/// Checks the parts of a statement. The statements in it have at most `levels` levels.
#[cycle(statement)]
fn check_parts(context: &Context<'_, Scope<'_>>, levels: usize, s: &Stmt) -> Result<(), CheckError>
    ensures { Passes result
        (statement_parts_check (scope_of context.now.scope) (statement_check (scope_of context.now.scope) levels)
        (names_in context.now.names) (steps context.now.place) (statement s.now)) }
{
    match s {
        Stmt::Create { class, key, pairs } => check_create(context, *class, key, pairs),
        Stmt::Update { class, key, pairs } => check_update(context, *class, key, pairs),
        Stmt::Delete { class, key } => check_delete(context, *class, key),
        Stmt::Signal { name, arguments } => check_signal(context, name.as_str(), arguments),
        Stmt::Emit(value) => check_value(context, 1, value),
        Stmt::If {
            condition,
            then_body,
            else_body,
        } => check_if(context, levels, condition, then_body, else_body),
        Stmt::Each {
            variable,
            class,
            predicate,
            body,
        } => check_each(context, levels, variable.as_str(), *class, predicate, body),
        Stmt::For { query, body } => check_for(context, levels, query.as_str(), body),
        Stmt::With {
            variable,
            class,
            key,
            body,
        } => check_with(context, levels, variable.as_str(), *class, key, body),
        Stmt::Sub { body, otherwise } => check_sub(context, levels, body, otherwise),
        Stmt::Let {
            name,
            aggregate: computed,
            body,
        } => check_let(context, levels, name.as_str(), computed, body),
        Stmt::Abort | Stmt::Veto(None) => Ok(()),
        Stmt::Veto(Some(message)) => check_value(context, 1, message),
        Stmt::OnRule { rule, .. } | Stmt::Fire(rule) => check_rule(context, *rule),
    }
}

/// Checks a statement of at most `levels` levels.
#[cycle(statement)]
#[tactic(auto, unfolding(hp_model::specs::Checked::statement_check))]
fn check_statement(
    context: &Context<'_, Scope<'_>>,
    levels: usize,
    s: &Stmt,
) -> Result<(), CheckError>
    ensures { Passes result
        (statement_check (scope_of context.now.scope) levels (names_in context.now.names) (steps context.now.place)
        (statement s.now)) }
{
    check_veto(context, s)?;
    if levels == 0 {
        return Err(over_limit(Limit::Nesting));
    }
    check_parts(context, levels - 1, s)
}

#[cycle(statement)]
fn check_body(
    context: &Context<'_, Scope<'_>>,
    levels: usize,
    body: &[Stmt],
) -> Result<(), CheckError>
    ensures { Passes result
        (body_check (statement_check (scope_of context.now.scope) levels) (names_in context.now.names)
        (steps context.now.place) (body_in body.now)) }
{
    for (i, s) in body.iter().enumerate() {
        check_statement(&context.item(i), levels, s)?;
    }
    Ok(())
}

/// Checks a body.
pub(crate) fn check_whole_body(
    context: &Context<'_, Scope<'_>>,
    body: &[Stmt],
) -> Result<(), CheckError>
    ensures { Passes result
        (whole_body_check (scope_of context.now.scope) (names_in context.now.names) (steps context.now.place)
        (body_in body.now)) }
{
    check_body(context, MAX_LEVELS, body)
}
