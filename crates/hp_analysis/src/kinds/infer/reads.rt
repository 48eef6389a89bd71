//! Whether a rule reads parts of its occurrence.

use hp_query::{Aggregate, Entry};
use hp_rule::{Assignment, Rule, Stmt};
use hp_value::Expr;

/// Whether an expression reads a part of the occurrence.
fn reads(expr: &Expr) -> bool {
    match expr {
        Expr::NewField { .. }
        | Expr::OldField { .. }
        | Expr::KeyIn { .. }
        | Expr::Argument { .. }
        | Expr::TimeOf { .. } => true,
        Expr::Arithmetic(_, a, b) | Expr::Comparison(_, a, b) => reads(a) || reads(b),
        Expr::And(a, b) | Expr::Or(a, b) => reads(a) || reads(b),
        Expr::Negated(a) | Expr::Not(a) => reads(a),
        Expr::Constant(_) | Expr::FieldOf { .. } | Expr::KeyOf { .. } => false,
        Expr::Count | Expr::ValueOf { .. } | Expr::Now => false,
    }
}

/// Whether the key or a value of a row reads a part.
fn row_reads(key: &Expr, pairs: &[Assignment]) -> bool {
    reads(key) || pairs.iter().any(|pair| reads(&pair.value))
}

/// Whether an aggregate reads a part.
fn aggregate_reads(aggregate: &Aggregate) -> bool {
    match aggregate {
        Aggregate::Count(rows) => reads(&rows.predicate),
        Aggregate::Sum { rows, term }
        | Aggregate::Least { rows, term }
        | Aggregate::Greatest { rows, term } => reads(&rows.predicate) || reads(term),
        Aggregate::Next(_) => false,
        Aggregate::Single(single) => reads(single),
    }
}

/// Whether an entry of a condition reads a part.
fn entry_reads(entry: &Entry) -> bool {
    match entry {
        Entry::Query(asked) | Entry::No(asked) => reads(&asked.predicate),
        Entry::Let { aggregate, .. } => aggregate_reads(aggregate),
    }
}

/// Whether what a statement itself evaluates reads a part.
fn own_reads(s: &Stmt) -> bool {
    match s {
        Stmt::Create { key, pairs, .. } | Stmt::Update { key, pairs, .. } => row_reads(key, pairs),
        Stmt::Delete { key, .. } | Stmt::With { key, .. } => reads(key),
        Stmt::Signal { arguments, .. } => arguments.iter().any(|argument| reads(argument)),
        Stmt::Emit(value) | Stmt::Veto(Some(value)) => reads(value),
        Stmt::Let { aggregate, .. } => aggregate_reads(aggregate),
        Stmt::If { condition, .. } => reads(condition),
        Stmt::Each { predicate, .. } => reads(predicate),
        Stmt::For { .. } | Stmt::Sub { .. } | Stmt::Abort | Stmt::Veto(None) => false,
        Stmt::OnRule { .. } | Stmt::Fire(_) => false,
    }
}

/// Whether a statement reads a part, or one in it does.
#[cycle(reading)]
fn statement_reads(s: &Stmt) -> bool {
    if own_reads(s) {
        return true;
    }
    match s {
        Stmt::If {
            then_body,
            else_body,
            ..
        } => body_reads(then_body) || body_reads(else_body),
        Stmt::Each { body, .. }
        | Stmt::For { body, .. }
        | Stmt::With { body, .. }
        | Stmt::Let { body, .. } => body_reads(body),
        Stmt::Sub { body, otherwise } => body_reads(body) || body_reads(otherwise),
        _ => false,
    }
}

#[cycle(reading)]
fn body_reads(body: &[Stmt]) -> bool {
    for s in body {
        if statement_reads(s) {
            return true;
        }
    }
    false
}

/// Whether the condition or the action of a rule reads a part of the rule's occurrence. If a statement fires the rule,
/// the occurrence has no parts.
pub(crate) fn reads_parts(rule: &Rule) -> bool {
    let condition = rule.condition.iter().any(|entry| entry_reads(entry));
    condition || body_reads(&rule.action)
}
