//! Forms of statements, events and rules.

ghost use Rattle.std.specs.Prelude.{◌≡◌};
ghost use Rattle.hp_model.specs.Chains as model;
ghost use Rattle.hp_model.specs.Rules as rules;
ghost use Rattle.hp_detect.specs.Mapped.{event};
ghost use Rattle.hp_value.specs.Mapped.{coupling, primitive};
ghost use Rattle.hp_rule.specs.Statements.{statement, rule};
ghost use Rattle.hp_analysis.specs.Listeners.{is_plain};

use hp_rule::{Coupling, EventExpr, Rule, Stmt};
use hp_value::Prim;

/// Whether an occurrence of the event may end with this one.
pub(crate) fn completes(expr: &EventExpr, prim: &Prim) -> bool
    ensures { result ≡ model.completes (event expr.now) (primitive prim.now) }
{
    match expr {
        EventExpr::One(pattern) => pattern.matches(prim),
        EventExpr::Or(a, b) => completes(a, prim) || completes(b, prim),
        EventExpr::Seq(_, b) | EventExpr::Closure(_, b) => completes(b, prim),
    }
}

/// Whether a task of this mode is a transaction of its own.
pub(crate) fn is_detached(place: Coupling) -> bool
    ensures { result ≡ rules.is_detached (coupling place) }
{
    match place {
        Coupling::Immediate | Coupling::Deferred => false,
        Coupling::Separate | Coupling::Dependent | Coupling::Exclusive => true,
    }
}

/// Whether a task of the rule may be a transaction of its own.
pub(crate) fn may_detach(followed: &Rule) -> bool
    ensures { result ≡ model.may_detach (rule followed.now) }
{
    is_detached(followed.ec) || is_detached(followed.ca)
}

/// Whether the statement has no statement in it, and fires no rule.
pub(crate) fn is_plain(s: &Stmt) -> bool
    ensures { result ≡ is_plain (statement s.now) }
{
    match s {
        Stmt::If { .. }
        | Stmt::Each { .. }
        | Stmt::For { .. }
        | Stmt::With { .. }
        | Stmt::Sub { .. }
        | Stmt::Let { .. }
        | Stmt::Fire(_) => false,
        _ => true,
    }
}
