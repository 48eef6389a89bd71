//! Expressions, conditions and actions that no arithmetic ends, by the constants in them.

ghost use Rattle.std.specs.Prelude.{◌≡◌, ◌+◌, ◌*◌, ◌&&◌, ◌∷◌, [], Some, None, map};
ghost use Rattle.std.specs.List.{list_all};
ghost use Rattle.hp_model.specs.Kinds as model;
ghost use Rattle.hp_model.specs.Expressions as expressions;
ghost use Rattle.hp_model.specs.Rules as rules;
ghost use Rattle.hp_value.specs.Mapped.{value, arithmetic, expression};
ghost use Rattle.hp_query.specs.Mapped.{aggregate, entry};
ghost use Rattle.hp_rule.specs.Statements.{assignment, statement, body_in};
ghost use Rattle.hp_analysis.specs.Measures.{small, result_measure, if_both, measured, IsWithin, IsMeasured};

use hp_query::{Aggregate, Entry};
use hp_rule::{Assignment, Stmt};
use hp_value::{Arithmetic, Constant, Expr, Value};

/// How far from 0 an integer may be that is read of an object or of an occurrence.
const FARTHEST: u128 = 1 << 63;

/// A bound, if each integer within it has 64 bits, whatever its sign is.
fn small(bound: Option<u128>) -> Option<Option<u128>>
    ensures value { result ≡ small bound }
    ensures within { IsMeasured result }
{
    match bound {
        Some(most) if most < FARTHEST => Some(bound),
        _ => None,
    }
}

/// The bound of a sum or of a difference.
fn sum_bound(left: Option<u128>, right: Option<u128>) -> Option<u128>
    requires left { IsWithin left }
    requires right { IsWithin right }
    ensures { result ≡ model.bounded_by ◌+◌ left right }
{
    match (left, right) {
        (Some(m), Some(n)) => Some(m + n),
        _ => None,
    }
}

/// The bound of a product.
fn product_bound(left: Option<u128>, right: Option<u128>) -> Option<u128>
    requires left { IsWithin left }
    requires right { IsWithin right }
    ensures { result ≡ model.bounded_by ◌*◌ left right }
{
    match (left, right) {
        (Some(m), Some(n)) => Some(m * n),
        _ => None,
    }
}

/// The bound of a quotient, by the divisor's distance from 0 where it is a constant.
fn quotient_bound(left: Option<u128>, divisor: Option<u128>) -> Option<u128>
    ensures { result ≡ model.quotient_bound left divisor }
{
    match (left, divisor) {
        (Some(most), Some(by)) if by != 0 => Some(most / by),
        _ => left,
    }
}

/// The bound of what an operation gives, if it neither overflows nor divides by zero.
fn result_bound(
    op: Arithmetic,
    left: Option<u128>,
    right: Option<u128>,
    divisor: Option<u128>,
) -> Option<Option<u128>>
    requires left { IsWithin left }
    requires right { IsWithin right }
    ensures value { result ≡ result_measure (arithmetic op) left right divisor }
    ensures within { IsMeasured result }
{
    match op {
        Arithmetic::Plus | Arithmetic::Minus => small(sum_bound(left, right)),
        Arithmetic::Times => small(product_bound(left, right)),
        Arithmetic::Quotient => quotient_result(left, divisor),
        Arithmetic::Remainder => {
            quotient_result(left, divisor)?;
            Some(right)
        }
    }
}

/// The bound of a quotient, if it neither overflows nor divides by zero.
fn quotient_result(left: Option<u128>, divisor: Option<u128>) -> Option<Option<u128>>
    ensures value { result ≡ result_measure expressions.quotient left left divisor }
    ensures within { IsMeasured result }
{
    match divisor {
        None | Some(0) => None,
        Some(_) => small(quotient_bound(left, divisor)),
    }
}

/// The distance from 0 of a literal that is an integer.
fn literal_bound(literal: &Value) -> Option<u128>
    ensures value { result ≡ model.magnitude (expressions.constant (value literal.now)) }
{
    match literal {
        Value::Int(number) => Some(u128::from(number.unsigned_abs())),
        Value::Bool(_) | Value::Text(_) => None,
    }
}

/// The divisor's distance from 0, where it is a constant.
fn known_divisor(divisor: &Expr) -> Option<u128>
    ensures { result ≡ model.known_divisor (expression divisor.now) }
{
    match divisor {
        Expr::Constant(literal) => literal_bound(literal.value()),
        _ => None,
    }
}

/// The bound of a constant's value.
fn constant_bound(literal: &Constant) -> Option<u128>
    ensures value { result ≡ model.magnitude (expressions.constant (value literal.now.value)) }
    ensures within { IsWithin result }
{
    literal_bound(literal.value())
}

/// The bound of an arithmetic expression's value, if the expression is calm.
#[cycle(measure)]
fn measure_arithmetic(op: Arithmetic, left: &Expr, right: &Expr) -> Option<Option<u128>>
    ensures value { result ≡ if_both (measured (expression left.now)) (measured (expression right.now))
        (λ x y. result_measure (arithmetic op) x y (model.known_divisor (expression right.now))) }
    ensures within { IsMeasured result }
{
    let first = measure(left)?;
    let second = measure(right)?;
    result_bound(op, first, second, known_divisor(right))
}

/// Without a bound, if both expressions are calm.
#[cycle(measure)]
fn measure_both(left: &Expr, right: &Expr) -> Option<Option<u128>>
    ensures value { result ≡ if_both (measured (expression left.now)) (measured (expression right.now))
        (λ x y. Some None) }
    ensures within { IsMeasured result }
{
    measure(left)?;
    measure(right)?;
    Some(None)
}

/// The bound of an expression's value, if it is known; nothing, if the expression isn't calm.
#[cycle(measure)]
fn measure(expr: &Expr) -> Option<Option<u128>>
    ensures value { result ≡ measured (expression expr.now) }
    ensures within { IsMeasured result }
{
    match expr {
        Expr::Constant(literal) => Some(constant_bound(literal)),
        Expr::Arithmetic(op, a, b) => measure_arithmetic(*op, a, b),
        Expr::Negated(a) => small(measure(a)?),
        Expr::Not(a) => {
            measure(a)?;
            Some(None)
        }
        Expr::And(a, b) | Expr::Or(a, b) | Expr::Comparison(_, a, b) => measure_both(a, b),
        Expr::FieldOf { .. }
        | Expr::KeyOf { .. }
        | Expr::NewField { .. }
        | Expr::OldField { .. }
        | Expr::KeyIn { .. }
        | Expr::Argument { .. }
        | Expr::TimeOf { .. }
        | Expr::Now => Some(Some(FARTHEST)),
        Expr::Count => None,
        Expr::ValueOf { .. } => Some(None),
    }
}

/// Whether an expression is calm: no value that it gives overflows or divides by zero, and it counts no occurrences.
#[tactic(auto, using(crate::proofs::Measuring::measured_calm))]
fn is_calm(expr: &Expr) -> bool
    ensures { result ≡ model.is_calm (expression expr.now) }
{
    measure(expr).is_some()
}

/// Whether all expressions are calm.
fn are_calm(exprs: &[Expr]) -> bool
    ensures { result ≡ list_all model.is_calm (map expression exprs.now) }
{
    for expr in exprs {
        if !is_calm(expr) {
            return false;
        }
    }
    true
}

/// Whether all values of assignments are calm.
fn are_values_calm(pairs: &[Assignment]) -> bool
    ensures { result ≡ list_all (λ (a : rules.Assignment). model.is_calm a.value) (map assignment pairs.now) }
{
    for pair in pairs {
        if !is_calm(&pair.value) {
            return false;
        }
    }
    true
}

/// Whether an aggregate is calm. A sum may overflow, and so may the next key.
fn is_aggregate_calm(computed: &Aggregate) -> bool
    ensures { result ≡ model.is_aggregate_calm (aggregate computed.now) }
{
    match computed {
        Aggregate::Count(rows) => is_calm(&rows.predicate),
        Aggregate::Least { rows, term } | Aggregate::Greatest { rows, term } => {
            is_calm(&rows.predicate) && is_calm(term)
        }
        Aggregate::Sum { .. } | Aggregate::Next(_) => false,
        Aggregate::Single(single) => is_calm(single),
    }
}

/// Whether an operation on an object is calm.
fn is_operation_calm(key: &Expr, pairs: &[Assignment]) -> bool
    ensures { result ≡ (model.is_calm (expression key.now)
        && list_all (λ (a : rules.Assignment). model.is_calm a.value) (map assignment pairs.now)) }
{
    is_calm(key) && are_values_calm(pairs)
}

/// Whether both are true.
fn both(first: bool, second: bool) -> bool
    ensures { result ≡ (first && second) }
{
    first && second
}

/// Whether a statement is calm; of a `sub` the body that follows its abort.
#[cycle(calm)]
fn is_statement_calm(s: &Stmt) -> bool
    ensures { result ≡ model.is_statement_calm (statement s.now) }
{
    match s {
        Stmt::Create { key, pairs, .. } | Stmt::Update { key, pairs, .. } => {
            is_operation_calm(key, pairs)
        }
        Stmt::Delete { key, .. } => is_calm(key),
        Stmt::Signal { arguments, .. } => are_calm(arguments),
        Stmt::Emit(emitted) => is_calm(emitted),
        Stmt::If {
            condition,
            then_body,
            else_body,
        } => {
            let first = is_body_calm(then_body);
            let second = is_body_calm(else_body);
            let bodies = both(first, second);
            both(is_calm(condition), bodies)
        }
        Stmt::Each {
            predicate,
            body,
            ..
        } => {
            let inside = is_body_calm(body);
            both(is_calm(predicate), inside)
        }
        Stmt::For { body, .. } => is_body_calm(body),
        Stmt::With { key, body, .. } => {
            let inside = is_body_calm(body);
            both(is_calm(key), inside)
        }
        Stmt::Sub { otherwise, .. } => is_body_calm(otherwise),
        Stmt::Let {
            aggregate: computed,
            body,
            ..
        } => {
            let inside = is_body_calm(body);
            both(is_aggregate_calm(computed), inside)
        }
        Stmt::Veto(Some(message)) => is_calm(message),
        Stmt::Veto(None) | Stmt::Abort | Stmt::OnRule { .. } | Stmt::Fire(_) => true,
    }
}

/// Whether a body is calm: no arithmetic ends it.
#[cycle(calm)]
pub(crate) fn is_body_calm(body: &[Stmt]) -> bool
    ensures { result ≡ model.is_body_calm (body_in body.now) }
{
    for s in body {
        if !is_statement_calm(s) {
            return false;
        }
    }
    true
}

/// Whether an entry of a condition is calm.
fn is_entry_calm(asked: &Entry) -> bool
    ensures { result ≡ model.is_condition_calm (entry asked.now ∷ []) }
{
    match asked {
        Entry::Query(rows) | Entry::No(rows) => is_calm(&rows.predicate),
        Entry::Let {
            aggregate: computed,
            ..
        } => is_aggregate_calm(computed),
    }
}

/// Whether a condition is calm: no arithmetic ends it.
pub(crate) fn is_condition_calm(entries: &[Entry]) -> bool
    ensures { result ≡ model.is_condition_calm (map entry entries.now) }
{
    for entry in entries {
        if !is_entry_calm(entry) {
            return false;
        }
    }
    true
}
