//! Guards: rules that may veto; and which of them may let pass what they are to veto.

ghost use Rattle.std.specs.Prelude.{◌≡◌, ◌||◌, map, option_map, is_none};
ghost use Rattle.std.specs.List.{list_all};
ghost use Rattle.hp_rule.specs.Statements.{statement, body_in, rule};
ghost use Rattle.hp_analysis.specs.Guards as model;
ghost use Rattle.hp_analysis.specs.Openings.{opening};

use crate::calm::{is_body_calm, is_condition_calm};
use hp_rule::{Rule, Stmt};

/// What of a guard arithmetic may end, so that the guard doesn't veto.
#[derive(Clone, Copy, Debug, PartialEq, Eq)]
pub enum Opening {
    /// Its condition.
    Condition,
    /// Its action.
    Action,
}

/// Whether one of the two is true.
fn either(first: bool, second: bool) -> bool
    ensures { result ≡ (first || second) }
{
    first || second
}

/// Whether a statement vetoes, or has one in it that does.
#[cycle(vetoing)]
fn is_veto(s: &Stmt) -> bool
    ensures { result ≡ model.statement_vetoes (statement s.now) }
{
    match s {
        Stmt::If {
            then_body,
            else_body,
            ..
        } => {
            let first = may_veto(then_body);
            let second = may_veto(else_body);
            either(first, second)
        }
        Stmt::Each { body, .. } => may_veto(body),
        Stmt::For { body, .. } => may_veto(body),
        Stmt::With { body, .. } => may_veto(body),
        Stmt::Sub { body, otherwise } => {
            let first = may_veto(body);
            let second = may_veto(otherwise);
            either(first, second)
        }
        Stmt::Let { body, .. } => may_veto(body),
        Stmt::Veto(_) => true,
        _ => false,
    }
}

/// Whether a body may veto.
#[cycle(vetoing)]
fn may_veto(body: &[Stmt]) -> bool
    ensures { result ≡ model.body_vetoes (body_in body.now) }
{
    for s in body {
        if is_veto(s) {
            return true;
        }
    }
    false
}

/// The first part of a guard that arithmetic may end, so that it doesn't veto: its condition or its action. A rule that
/// never vetoes has none, and a closed one neither: it vetoes then.
///
/// In a kinded script no cause ends the condition of a guard without an opening, and none of arithmetic its action
/// (`laws::guards_hold`).
pub fn opening_of(guard: &Rule) -> Option<Opening>
    ensures { option_map opening result ≡ model.opening (rule guard.now) }
{
    if guard.closed || !may_veto(&guard.action) {
        return None;
    }
    if !is_condition_calm(&guard.condition) {
        return Some(Opening::Condition);
    }
    if !is_body_calm(&guard.action) {
        return Some(Opening::Action);
    }
    None
}

/// Whether a rule is no guard, or one without an opening.
fn has_no_opening(guard: &Rule) -> bool
    ensures { result ≡ is_none (model.opening (rule guard.now)) }
{
    opening_of(guard).is_none()
}

/// Whether no guard has an opening.
pub fn have_no_opening(rules: &[Rule]) -> bool
    ensures { result ≡ list_all (λ r. is_none (model.opening r)) (map rule rules.now) }
{
    for rule in rules {
        if !has_no_opening(rule) {
            return false;
        }
    }
    true
}
