//! A detector's step.

ghost use Rattle.std.specs.Prelude.{◌≡◌, option_map, IfOk, None};
ghost use Rattle.hp_value.specs.Mapped.{primitive, occurrence};
ghost use Rattle.hp_event.specs.Mapped.{pattern};
ghost use Rattle.hp_detect.specs.Mapped.{event, known, step};
ghost use Rattle.hp_detect.specs.Stepped as model;

use crate::event::EventExpr;
use crate::known::Known;
use crate::parts::{closed, gathered, joined, single};
use crate::queue::Queue;
use hp_event::Pattern;
use hp_value::{Occurrence, Prim};
use std::alloc::{AllocError, Global};
use std::sync::Arc;

/// The result of a step.
#[derive(Drop)]
pub struct Step {
    /// The occurrence of the event, if it occurs.
    pub occurrence: Option<Occurrence>,
    /// What is known after the step.
    pub known: Arc<Known>,
}

/// One step: what occurs where this is signalled next, and what is known then. `before` is unchanged.
pub fn advance(
    alloc: Global,
    expr: &EventExpr,
    before: &Arc<Known>,
    prim: &Prim,
) -> Result<Step, AllocError>
    ensures { IfOk result (λ s. step s ≡ model.stepped (event expr.now) (known before.now.value) (primitive prim.now)) }
{
    match (expr, &**before) {
        (EventExpr::One(pattern), _) => pattern_step(alloc, pattern, before, prim),
        (EventExpr::Or(a, b), Known::Either(k, l)) => {
            let first = advance(alloc, a, k, prim)?;
            let second = advance(alloc, b, l, prim)?;
            either_step(alloc, first, second)
        }
        (EventExpr::Seq(a, b), Known::Sequence(k, l, waiting)) => {
            let first = advance(alloc, a, k, prim)?;
            let second = advance(alloc, b, l, prim)?;
            sequence_step(alloc, waiting, first, second)
        }
        (EventExpr::Closure(a, t), Known::Closed(k, l, unfinished)) => {
            let body = advance(alloc, a, k, prim)?;
            let end = advance(alloc, t, l, prim)?;
            closure_step(alloc, unfinished, body, end)
        }
        // Unreachable: a detector keeps what its event needs.
        _ => idle_step(before),
    }
}

/// The step at which nothing occurs and nothing changes.
fn idle_step(before: &Arc<Known>) -> Result<Step, AllocError>
    ensures { IfOk result (λ s. step s ≡ (None, known before.now.value)) }
{
    Ok(Step {
        occurrence: None,
        known: Arc::try_clone(before)?,
    })
}

fn pattern_step(
    alloc: Global,
    matched: &Pattern,
    before: &Arc<Known>,
    prim: &Prim,
) -> Result<Step, AllocError>
    ensures { IfOk result (λ s.
        step s ≡ model.pattern_step (pattern matched.now) (known before.now.value) (primitive prim.now)) }
{
    if !matched.matches(prim) {
        return idle_step(before);
    }
    Ok(Step {
        occurrence: Some(single(alloc, prim)?),
        known: Arc::try_clone(before)?,
    })
}

fn either_step(alloc: Global, first: Step, second: Step) -> Result<Step, AllocError>
    ensures { IfOk result (λ s. step s ≡ model.either_step (step first) (step second)) }
{
    Ok(Step {
        occurrence: first.occurrence.or(second.occurrence),
        known: Arc::new(alloc, Known::Either(first.known, second.known))?,
    })
}

fn sequence_step(
    alloc: Global,
    waiting: &Queue,
    first: Step,
    second: Step,
) -> Result<Step, AllocError>
    ensures { IfOk result (λ s. step s ≡ model.sequence_step waiting.now (step first) (step second)) }
{
    let left = waiting.after(alloc, second.occurrence.is_some(), first.occurrence)?;
    Ok(Step {
        occurrence: joined(alloc, waiting.first(), second.occurrence)?,
        known: Arc::new(alloc, Known::Sequence(first.known, second.known, left))?,
    })
}

fn closure_step(
    alloc: Global,
    unfinished: &Option<Arc<Occurrence>>,
    body: Step,
    end: Step,
) -> Result<Step, AllocError>
    ensures { IfOk result (λ s.
        step s ≡ model.closure_step (option_map (λ o. occurrence o.value) unfinished.now) (step body) (step end)) }
{
    let left = gathered(alloc, end.occurrence.is_some(), body.occurrence, unfinished)?;
    Ok(Step {
        occurrence: closed(alloc, unfinished.as_deref(), end.occurrence)?,
        known: Arc::new(alloc, Known::Closed(body.known, end.known, left))?,
    })
}
