//! Predicates that begin with a test of the key.

ghost use Rattle.std.specs.Prelude.{IsTrue, IfOk, IfSome, IsOk, None, ◌≡◌, is_some, option_map};
ghost use Rattle.hp_model.specs.Expressions.{compared, equal, key_of};
ghost use Rattle.hp_value.specs.Mapped.{environment, expression};
ghost use Rattle.hp_query.specs.ByKey.{IsFalseElsewhere, AsksFor, first_test, key_asked, key_equated};
ghost use Rattle.hp_query.specs.ByKey as by_key;

use hp_value::{Comparison, Env, Expr, Halt, Key, Value};
use std::alloc::{AllocError, Global};

/// The only key for which a predicate can be true, where the predicate begins by comparing the key of its row with an
/// expression that doesn't depend on the row. For all other rows it is then false, without a fault.
///
/// `None` where this isn't so or isn't recognized. It is also `None` where the expression isn't an integer or has a
/// fault, since the predicate then has that fault on the first row too.
pub(crate) fn asked_key(
    alloc: Global,
    name: &str,
    predicate: &Expr,
    env: &Env,
) -> Result<Option<Key>, AllocError>
    ensures key { IfOk result (λ asked.
        asked ≡ key_asked (environment env.now) name.now (expression predicate.now)) }
    ensures elsewhere { IfOk result (λ asked. IfSome asked (λ key.
        IsFalseElsewhere (environment env.now) name.now (expression predicate.now) key)) }
    ensures none { key_equated name.now (first_test (expression predicate.now)) ≡ None → IsOk result }
{
    let Some(wanted) = wanted_key(name, predicate) else {
        return Ok(None);
    };
    // The expression is evaluated before a row is bound, so its name must not mean another row.
    let Err(_) = env.row(name) else {
        return Ok(None);
    };
    match wanted.eval(alloc, env) {
        Ok(Value::Int(key)) => Ok(Some(key)),
        Err(Halt::Memory) => Err(AllocError),
        _ => Ok(None),
    }
}

/// Whether a predicate begins by comparing the key. A query then mostly looks at one row, whatever the size of the
/// class.
pub(crate) fn asks_key(name: &str, predicate: &Expr) -> bool
    ensures { result ≡ is_some (key_equated name.now (first_test (expression predicate.now))) }
{
    wanted_key(name, predicate).is_some()
}

// The expression with which a predicate compares the key of the row of this name, if it begins so.
fn wanted_key<'e>(name: &str, predicate: &'e Expr) -> Option<&'e Expr>
    ensures wanted { option_map (λ wanted. expression wanted.now) result
        ≡ key_equated name.now (first_test (expression predicate.now)) }
    ensures asks { IfSome result (λ wanted.
        AsksFor name.now (expression predicate.now) (expression wanted.now)) }
{
    match predicate {
        Expr::And(first, _) => wanted_key(name, first),
        Expr::Comparison(Comparison::Equal, a, b) => other_side(name, a, b),
        _ => None,
    }
}

// The other side of an equation, if one side is the key of the row of this name.
fn other_side<'e>(name: &str, a: &'e Expr, b: &'e Expr) -> Option<&'e Expr>
    ensures side { option_map (λ wanted. expression wanted.now) result
        ≡ by_key.other_side name.now (expression a.now) (expression b.now) }
    ensures asks { IfSome result (λ wanted.
        AsksFor name.now (compared equal (expression a.now) (expression b.now)) (expression wanted.now)) }
{
    if is_key_of(name, a) {
        return Some(b);
    }
    if is_key_of(name, b) {
        return Some(a);
    }
    None
}

/// Whether an expression is the key of the row of this name.
pub(crate) fn is_key_of(name: &str, expr: &Expr) -> bool
    ensures test { result ≡ by_key.is_key_of name.now (expression expr.now) }
    ensures told { IsTrue result → expression expr.now ≡ key_of name.now }
{
    match expr {
        Expr::KeyOf { variable } => variable.as_str() == name,
        _ => false,
    }
}
