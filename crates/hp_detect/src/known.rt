//! What a detector knows of the past.

ghost use Rattle.std.specs.Prelude.{◌≡◌, IfOk, []};
ghost use Rattle.hp_model.specs.Knowledge as model;
ghost use Rattle.hp_detect.specs.Mapped.{event, known};

use crate::event::EventExpr;
use crate::queue::Queue;
use hp_value::Occurrence;
use std::alloc::{AllocError, Global};
use std::sync::Arc;

/// What of the past matters for an event's later occurrences, for each part of the event. Clones share their parts.
#[derive(Debug, Drop)]
pub enum Known {
    /// For a pattern nothing matters.
    Nothing,
    /// For a disjunction: what matters for its arms.
    Either(Arc<Known>, Arc<Known>),
    /// For a sequence: what matters for its arms, and the occurrences of the first arm that are not yet taken.
    Sequence(Arc<Known>, Arc<Known>, Queue),
    /// For a closure: what matters for its body and its end, and what was gathered since the last end. That is the
    /// parts of the body's last occurrence, with the sum of the counts of all its occurrences.
    Closed(Arc<Known>, Arc<Known>, Option<Arc<Occurrence>>),
}

impl PartialEq for Known {
    ghost use Rattle.std.specs.Ordering.{on};
    ghost use Rattle.std.specs.Cmp.{on_equiv, partial_equiv_from_equiv};
    ghost use Rattle.hp_detect.specs.Mapped.{known};
    ghost use Rattle.hp_detect.specs.Same.{knowledge_same, knowledge_equiv};

    ghost eq = { on known knowledge_same };

    ghost laws = { partial_equiv_from_equiv (on_equiv known knowledge_equiv) };

    fn eq(&self, other: &Known) -> bool {
        match (self, other) {
            (Known::Nothing, Known::Nothing) => true,
            (Known::Either(k, l), Known::Either(m, n)) => **k == **m && **l == **n,
            (Known::Sequence(k, l, waiting), Known::Sequence(m, n, others)) => {
                **k == **m && **l == **n && waiting == others
            }
            (Known::Closed(k, l, unfinished), Known::Closed(m, n, other)) => {
                **k == **m && **l == **n && unfinished == other
            }
            _ => false,
        }
    }
}

/// What is known of an empty past.
pub fn fresh(alloc: Global, expr: &EventExpr) -> Result<Arc<Known>, AllocError>
    ensures { IfOk result (λ k. known k.value ≡ model.knowledge (event expr.now) []) }
{
    let known = match expr {
        EventExpr::One(_) => Known::Nothing,
        EventExpr::Or(a, b) => Known::Either(fresh(alloc, a)?, fresh(alloc, b)?),
        EventExpr::Seq(a, b) => Known::Sequence(fresh(alloc, a)?, fresh(alloc, b)?, Queue::new()),
        EventExpr::Closure(a, t) => Known::Closed(fresh(alloc, a)?, fresh(alloc, t)?, None),
    };
    Ok(Arc::new(alloc, known)?)
}
