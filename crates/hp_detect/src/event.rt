//! Composite events.

ghost use Rattle.std.specs.Prelude.{◌≡◌, ◌∷◌, true, option_map, IfOk, OnErr};
ghost use Rattle.hp_model.specs.Events as model;
ghost use Rattle.hp_model.specs.Occurrences.{History};
ghost use Rattle.hp_value.specs.Mapped.{primitive, occurrence};
ghost use Rattle.hp_detect.specs.Mapped.{event};

use crate::parts::single;
use hp_event::Pattern;
use hp_value::{Occurrence, Prim};
use std::alloc::{AllocError, Global};

/// An event: a pattern of primitive occurrences, or HiPAC's disjunction, sequence or closure of two events.
///
/// When a composite event occurs and with which parts is this project's own choice.
#[derive(Debug, Drop)]
pub enum EventExpr {
    /// It occurs where the pattern matches.
    One(Pattern),
    /// It occurs where an arm does. Its parts and count are those of the first arm that does.
    Or(Box<EventExpr>, Box<EventExpr>),
    /// It occurs where the second arm does, if the first arm has an earlier occurrence that no occurrence of this
    /// sequence has taken. It takes the oldest one. Its parts are that one's followed by the second arm's, and its
    /// count is the sum.
    Seq(Box<EventExpr>, Box<EventExpr>),
    /// It occurs where its end, the second arm, does, if its body, the first arm, has occurred since the end's previous
    /// occurrence. It occurs once: its parts are those of the body's last such occurrence followed by the end's, and
    /// its count is the sum of the counts of all of them.
    Closure(Box<EventExpr>, Box<EventExpr>),
}

impl PartialEq for EventExpr {
    ghost use Rattle.std.specs.Ordering.{on};
    ghost use Rattle.std.specs.Cmp.{on_equiv, partial_equiv_from_equiv};
    ghost use Rattle.hp_detect.specs.Mapped.{event};
    ghost use Rattle.hp_detect.specs.Same.{event_same, event_equiv};

    ghost eq = { on event event_same };

    ghost laws = { partial_equiv_from_equiv (on_equiv event event_equiv) };

    fn eq(&self, other: &EventExpr) -> bool {
        match (self, other) {
            (EventExpr::One(p), EventExpr::One(q)) => p == q,
            (EventExpr::Or(a, b), EventExpr::Or(c, d)) => **a == **c && **b == **d,
            (EventExpr::Seq(a, b), EventExpr::Seq(c, d)) => **a == **c && **b == **d,
            (EventExpr::Closure(a, b), EventExpr::Closure(c, d)) => **a == **c && **b == **d,
            _ => false,
        }
    }
}

impl Eq for EventExpr {
    ghost use Rattle.std.specs.Cmp.{on_equiv};
    ghost use Rattle.hp_detect.specs.Mapped.{event};
    ghost use Rattle.hp_detect.specs.Same.{event_equiv};

    ghost laws = { on_equiv event event_equiv };
}

impl EventExpr {
    /// Whether a pattern of the event matches. If none does, the event doesn't occur and its detector doesn't change.
    /// It allocates nothing.
    pub fn mentions(&self, prim: &Prim) -> bool
        ensures { result ≡ model.mentions (event self.now) (primitive prim.now) }
    {
        match self {
            EventExpr::One(pattern) => pattern.matches(prim),
            EventExpr::Or(a, b) | EventExpr::Seq(a, b) | EventExpr::Closure(a, b) => {
                a.mentions(prim) || b.mentions(prim)
            }
        }
    }
}

/// Whether the event consists of patterns and disjunctions alone. Then the past doesn't matter, and a detector keeps
/// nothing. It allocates nothing.
pub fn is_pure(expr: &EventExpr) -> bool
    ensures { result ≡ model.is_pure (event expr.now) }
{
    match expr {
        EventExpr::One(_) => true,
        EventExpr::Or(a, b) => is_pure(a) && is_pure(b),
        EventExpr::Seq(_, _) | EventExpr::Closure(_, _) => false,
    }
}

/// The occurrence of a pure event where this is signalled, if it occurs there. It is the same after each past.
///
/// If no pattern of the event matches, nothing is allocated.
pub fn occurs_now(
    alloc: Global,
    expr: &EventExpr,
    prim: &Prim,
) -> Result<Option<Occurrence>, AllocError>
    requires { model.is_pure (event expr.now) ≡ true }
    ensures occurs { IfOk result (λ o. (past : History) →
        option_map occurrence o ≡ model.occurrence_of (event expr.now) (primitive prim.now ∷ past)) }
    ensures unmentioned { OnErr result (model.mentions (event expr.now) (primitive prim.now) ≡ true) }
{
    if !expr.mentions(prim) {
        return Ok(None);
    }
    Ok(Some(single(alloc, prim)?))
}
