//! What is refused of statements and bodies.

ghost use Rattle.std.specs.Prelude.{◌≡◌, IfOk, OnOk, map, option_map, unwrap_or, bytes_eq};
ghost use Rattle.std.specs.List.{list_any};
ghost use Rattle.std.specs.Map.{lookup};
ghost use Rattle.hp_value.specs.Mapped.{expression, field, kind};
ghost use Rattle.hp_query.specs.Mapped.{aggregate};
ghost use Rattle.hp_model.specs.Firing.{kind_in};
ghost use Rattle.hp_model.specs.Rules as rules;
ghost use Rattle.hp_rule.specs.Statements.{assignment, statement, body_in};
ghost use Rattle.hp_rule.specs.Places.{steps};
ghost use Rattle.hp_model.specs.Kinds as kinds;
ghost use Rattle.hp_analysis.specs.Findings as model;
ghost use Rattle.hp_analysis.specs.Kinded.{sort, Gives, Passes, Notes};
ghost use Rattle.hp_analysis.specs.Scopes.{library, declared, scope_in, queries, single_there, own_there};
ghost use Rattle.hp_analysis.specs.Scopes.{inner_there, body_there};

use crate::kinds::aggregate::aggregate_sort;
use crate::kinds::expr::{check_kind, check_suits, sort_of};
use crate::kinds::finding::{Finding, KindError, Reason, found, note};
use crate::kinds::part::{fields_of, kind_in};
use crate::kinds::rows::first_class;
use crate::kinds::scope::Scope;
use crate::kinds::sort::Sort;
use crate::kinds::test::find_in_test;
use hp_query::Aggregate;
use hp_rule::{Assignment, Place, Stmt};
use hp_value::{ClassNo, Expr, Field, Kind};
use std::alloc::{AllocError, Global};

/// Checks that a sort meets a demand, if there is one.
fn check_demand(
    alloc: Global,
    place: &Place<'_>,
    demand: Option<Sort>,
    given: Sort,
) -> Result<(), KindError>
    ensures { Passes result (model.demanded (option_map sort demand) (steps place.now) (sort given)) }
{
    match demand {
        Some(Sort::Only(wanted)) => check_suits(alloc, place, wanted, given),
        Some(Sort::Any) | None => Ok(()),
    }
}

/// Checks an argument of a signal.
#[tactic(auto, unfolding(crate::specs::Findings::argument_check))]
fn check_argument(
    scope: &Scope<'_>,
    place: &Place<'_>,
    demand: Option<Sort>,
    argument: &Expr,
) -> Result<(), KindError>
    ensures { Passes result (model.argument_check (library scope.now) (declared scope.now) (scope_in scope.now)
        (option_map sort demand) (steps place.now) (expression argument.now)) }
{
    let given = sort_of(scope, place, argument)?;
    check_demand(scope.alloc, place, demand, given)
}

/// The sort that is declared of the next argument.
fn next_demand(demands: &[Sort]) -> Option<Sort>
    ensures { option_map sort result ≡ model.next_demand (map sort demands.now) }
{
    match demands {
        [first, ..] => Some(*first),
        [] => None,
    }
}

/// The sorts that are declared of the arguments after the next one.
fn later_demands(demands: &[Sort]) -> &[Sort]
    ensures { map sort result.now ≡ model.later_demands (map sort demands.now) }
{
    match demands {
        [_, others @ ..] => others,
        [] => demands,
    }
}

/// Checks that no argument is missing.
fn check_none_missing(alloc: Global, place: &Place<'_>, demands: &[Sort]) -> Result<(), KindError>
    ensures { Passes result (model.none_missing (steps place.now) (map sort demands.now)) }
{
    match demands {
        [] => Ok(()),
        [..] => Err(found(alloc, place, Reason::TooFewArguments)),
    }
}

/// Adds what is refused of the arguments of a signal.
fn find_in_arguments(
    scope: &Scope<'_>,
    place: &Place<'_>,
    signature: &[Sort],
    arguments: &[Expr],
    notes: &mut Vec<Finding>,
) -> Result<(), AllocError>
    ensures { OnOk result (Notes notes.old notes.new
        (model.arguments_findings (library scope.now) (declared scope.now) (scope_in scope.now)
        (steps place.now) 0 (map sort signature.now) (map expression arguments.now))) }
{
    let list = place.item(2);
    let mut demands = signature;
    for (i, argument) in arguments.iter().enumerate() {
        note(
            notes,
            check_argument(scope, &list.item(i), next_demand(demands), argument),
        )?;
        demands = later_demands(demands);
    }
    note(notes, check_none_missing(scope.alloc, place, demands))
}

/// The kind of the field that an assignment sets.
fn assigned_kind(
    alloc: Global,
    place: &Place<'_>,
    fields: &[Field],
    name: &str,
) -> Result<Kind, KindError>
    ensures { Gives kind result (model.placed (steps place.now)
        (model.reasoned model.no_such_field (kind_in (map field fields.now) name.now))) }
{
    match kind_in(fields, name) {
        Some(kind) => Ok(kind),
        None => Err(found(alloc, place, Reason::NoSuchField)),
    }
}

/// Checks an assignment of a statement on an object with these fields.
#[tactic(auto, unfolding(crate::specs::Findings::assignment_check))]
fn check_assignment(
    scope: &Scope<'_>,
    place: &Place<'_>,
    fields: &[Field],
    pair: &Assignment,
) -> Result<(), KindError>
    ensures { Passes result (model.assignment_check (library scope.now) (declared scope.now) (scope_in scope.now)
        (map field fields.now) (steps place.now) (assignment pair.now)) }
{
    let wanted = assigned_kind(scope.alloc, &place.item(0), fields, pair.field.as_str())?;
    check_kind(scope, &place.item(1), wanted, &pair.value)
}

/// Adds what is refused of the assignments of a statement on an object with these fields.
fn find_in_assignments(
    scope: &Scope<'_>,
    place: &Place<'_>,
    fields: &[Field],
    pairs: &[Assignment],
    notes: &mut Vec<Finding>,
) -> Result<(), AllocError>
    ensures { OnOk result (Notes notes.old notes.new
        (model.assignments_findings (library scope.now) (declared scope.now) (scope_in scope.now)
        (map field fields.now) (steps place.now) 0 (map assignment pairs.now))) }
{
    for (i, pair) in pairs.iter().enumerate() {
        note(notes, check_assignment(scope, &place.item(i), fields, pair))?;
    }
    Ok(())
}

/// Adds what is refused of the key and the assignments of a statement.
fn find_in_update(
    scope: &Scope<'_>,
    place: &Place<'_>,
    class: ClassNo,
    key: &Expr,
    pairs: &[Assignment],
    notes: &mut Vec<Finding>,
) -> Result<(), AllocError>
    ensures { OnOk result (Notes notes.old notes.new
        (model.update_findings (library scope.now) (declared scope.now) (scope_in scope.now)
        (steps place.now) class (expression key.now) (map assignment pairs.now))) }
{
    note(notes, check_kind(scope, &place.item(2), Kind::Int, key))?;
    let fields = fields_of(scope.library, class);
    find_in_assignments(scope, &place.item(3), fields, pairs, notes)
}

/// Whether an assignment sets this field.
fn is_assigned(pairs: &[Assignment], name: &str) -> bool
    ensures { result ≡ list_any (λ a. bytes_eq name.now a.field) (map assignment pairs.now) }
{
    for pair in pairs {
        if name == pair.field.as_str() {
            return true;
        }
    }
    false
}

/// Whether each field is assigned.
fn are_all_assigned(fields: &[Field], pairs: &[Assignment]) -> bool
    ensures { result ≡ kinds.all_assigned (map field fields.now) (map assignment pairs.now) }
{
    for defined in fields {
        if !is_assigned(pairs, defined.name.as_str()) {
            return false;
        }
    }
    true
}

/// Checks that each field is set.
fn check_all_set(
    alloc: Global,
    place: &Place<'_>,
    fields: &[Field],
    pairs: &[Assignment],
) -> Result<(), KindError>
    ensures { Passes result
        (model.all_set (steps place.now) (map field fields.now) (map assignment pairs.now)) }
{
    if are_all_assigned(fields, pairs) {
        return Ok(());
    }
    Err(found(alloc, place, Reason::UnsetField))
}

/// Adds what is refused of a statement that creates an object.
fn find_in_create(
    scope: &Scope<'_>,
    place: &Place<'_>,
    class: ClassNo,
    key: &Expr,
    pairs: &[Assignment],
    notes: &mut Vec<Finding>,
) -> Result<(), AllocError>
    ensures { OnOk result (Notes notes.old notes.new
        (model.create_findings (library scope.now) (declared scope.now) (scope_in scope.now)
        (steps place.now) class (expression key.now) (map assignment pairs.now))) }
{
    find_in_update(scope, place, class, key, pairs, notes)?;
    let fields = fields_of(scope.library, class);
    note(
        notes,
        check_all_set(scope.alloc, &place.item(3), fields, pairs),
    )
}

/// Checks that an emitted expression has a sort.
#[tactic(auto, unfolding(crate::specs::Findings::emission_check))]
fn check_emission(scope: &Scope<'_>, place: &Place<'_>, emitted: &Expr) -> Result<(), KindError>
    ensures { Passes result (model.emission_check (library scope.now) (declared scope.now) (scope_in scope.now)
        (steps place.now) (expression emitted.now)) }
{
    sort_of(scope, &place.item(1), emitted)?;
    Ok(())
}

/// Checks that an aggregate has a sort.
#[tactic(auto, unfolding(crate::specs::Findings::value_check))]
pub(crate) fn check_value(
    scope: &Scope<'_>,
    place: &Place<'_>,
    computed: &Aggregate,
) -> Result<(), KindError>
    ensures { Passes result (model.value_check (library scope.now) (declared scope.now) (scope_in scope.now)
        (steps place.now) (aggregate computed.now)) }
{
    aggregate_sort(scope, place, computed)?;
    Ok(())
}

/// The sort of an aggregate's value in its statement's body; any sort if the aggregate is refused.
#[tactic(auto, using(crate::proofs::Judging::aggregate_given))]
pub(crate) fn held_sort(
    scope: &Scope<'_>,
    place: &Place<'_>,
    computed: &Aggregate,
) -> Result<Sort, AllocError>
    ensures { IfOk result (λ s. sort s ≡ unwrap_or
        (kinds.aggregate_sort (library scope.now) (declared scope.now) (scope_in scope.now) (aggregate computed.now))
        kinds.any) }
{
    match aggregate_sort(scope, place, computed) {
        Ok(given) => Ok(given),
        Err(KindError::Found(_)) => Ok(Sort::Any),
        Err(KindError::Memory) => Err(AllocError),
    }
}

/// Checks that a statement may fire a rule.
fn check_fire(scope: &Scope<'_>, place: &Place<'_>, rule: u32) -> Result<(), KindError>
    ensures { Passes result (single_there scope.now (steps place.now) (rules.fire rule)) }
{
    if scope.declared.is_fired(rule as usize) {
        return Ok(());
    }
    Err(found(scope.alloc, place, Reason::NotFired))
}

/// Checks the name of a query that a statement goes over.
fn check_query_name(scope: &Scope<'_>, place: &Place<'_>, query: &str) -> Result<(), KindError>
    ensures { Passes result
        (model.query_known (steps place.now) (lookup (bytes_eq query.now) (queries scope.now))) }
{
    match first_class(scope.condition, query) {
        Some(_) => Ok(()),
        None => Err(found(scope.alloc, place, Reason::UnknownName)),
    }
}

/// Checks what a statement itself evaluates or names, where that is one thing and no test.
fn check_single(s: &Stmt, scope: &Scope<'_>, place: &Place<'_>) -> Result<(), KindError>
    ensures { Passes result (single_there scope.now (steps place.now) (statement s.now)) }
{
    match s {
        Stmt::Delete { key, .. } => check_kind(scope, &place.item(2), Kind::Int, key),
        Stmt::Emit(value) | Stmt::Veto(Some(value)) => check_emission(scope, place, value),
        Stmt::For { query, .. } => check_query_name(scope, &place.item(1), query),
        Stmt::With { key, .. } => check_kind(scope, &place.item(3), Kind::Int, key),
        Stmt::Let { aggregate, .. } => check_value(scope, &place.item(2), aggregate),
        Stmt::Fire(rule) => check_fire(scope, place, *rule),
        Stmt::Create { .. } | Stmt::Update { .. } | Stmt::Signal { .. } => Ok(()),
        Stmt::If { .. } | Stmt::Each { .. } => Ok(()),
        Stmt::Sub { .. } | Stmt::Abort | Stmt::Veto(None) | Stmt::OnRule { .. } => Ok(()),
    }
}

/// Adds what is refused of what a statement itself evaluates and names: all but the statements in it.
fn find_own(
    s: &Stmt,
    scope: &Scope<'_>,
    place: &Place<'_>,
    notes: &mut Vec<Finding>,
) -> Result<(), AllocError>
    ensures { OnOk result (Notes notes.old notes.new
        (own_there scope.now (steps place.now) (statement s.now))) }
{
    match s {
        Stmt::Create { class, key, pairs } => {
            find_in_create(scope, place, *class, key, pairs, notes)
        }
        Stmt::Update { class, key, pairs } => {
            find_in_update(scope, place, *class, key, pairs, notes)
        }
        Stmt::Signal { name, arguments } => {
            let signature = scope.declared.signature(name);
            find_in_arguments(scope, place, signature, arguments, notes)
        }
        Stmt::If { condition, .. } => find_in_test(scope, &place.item(1), condition, notes),
        Stmt::Each {
            variable,
            class,
            predicate,
            ..
        } => {
            let inner = (&*scope).bound(variable, *class);
            find_in_test(&inner, &place.item(3), predicate, notes)
        }
        _ => note(notes, check_single(s, scope, place)),
    }
}

/// Adds what is refused of the statements in a statement.
#[cycle(kinded)]
fn find_inside(
    s: &Stmt,
    scope: &Scope<'_>,
    place: &Place<'_>,
    notes: &mut Vec<Finding>,
) -> Result<(), AllocError>
    ensures { OnOk result (Notes notes.old notes.new
        (inner_there scope.now (steps place.now) (statement s.now))) }
{
    match s {
        Stmt::If {
            then_body,
            else_body,
            ..
        } => {
            find_in_body(then_body, scope, &place.item(2), notes)?;
            find_in_body(else_body, scope, &place.item(3), notes)
        }
        Stmt::Each {
            variable,
            class,
            body,
            ..
        } => {
            let inner = (&*scope).bound(variable.as_str(), *class);
            find_in_body(body, &inner, &place.item(4), notes)
        }
        Stmt::For { query, body } => {
            let class = first_class(scope.condition, query.as_str()).unwrap_or(0);
            let inner = (&*scope).bound(query.as_str(), class);
            find_in_body(body, &inner, &place.item(2), notes)
        }
        Stmt::With {
            variable,
            class,
            body,
            ..
        } => {
            let inner = (&*scope).bound(variable.as_str(), *class);
            find_in_body(body, &inner, &place.item(4), notes)
        }
        Stmt::Let {
            name,
            aggregate: computed,
            body,
        } => {
            let given = held_sort(scope, &place.item(2), computed)?;
            let inner = (&*scope).holding(name.as_str(), given);
            find_in_body(body, &inner, &place.item(3), notes)
        }
        Stmt::Sub { body, otherwise } => {
            find_in_body(body, scope, &place.item(1), notes)?;
            find_in_body(otherwise, scope, &place.item(2), notes)
        }
        _ => Ok(()),
    }
}

/// Adds what is refused of the statements of a body.
#[cycle(kinded)]
pub(crate) fn find_in_body(
    body: &[Stmt],
    scope: &Scope<'_>,
    place: &Place<'_>,
    notes: &mut Vec<Finding>,
) -> Result<(), AllocError>
    ensures { OnOk result (Notes notes.old notes.new
        (body_there scope.now (steps place.now) (body_in body.now))) }
{
    for (i, s) in body.iter().enumerate() {
        let here = place.item(i);
        find_own(s, scope, &here, notes)?;
        find_inside(s, scope, &here, notes)?;
    }
    Ok(())
}
