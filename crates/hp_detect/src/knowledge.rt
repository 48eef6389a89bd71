//! What is known of a past, apart from its event.

ghost use Rattle.std.specs.Prelude.{◌≡◌, option_map, IfOk, [], ◌∷◌};
ghost use Rattle.hp_model.specs.Events as model;
ghost use Rattle.hp_model.specs.Occurrences.{History};
ghost use Rattle.hp_model.specs.Knowledge.{knowledge};
ghost use Rattle.hp_value.specs.Mapped.{primitive, occurrence};
ghost use Rattle.hp_detect.specs.Mapped.{event};

use crate::event::EventExpr;
use crate::known::{Known, fresh};
use crate::stepping::advance;
use hp_value::{Occurrence, Prim};
use std::alloc::{AllocError, Global};
use std::marker::Model;
use std::sync::Arc;

/// What of a past matters for an event's later occurrences: what a detector keeps, without the event. The rule has the
/// event, which so isn't kept twice.
#[derive(Debug, Drop)]
pub struct Knowledge {
    kept: Arc<Known>,
}

impl Model for Knowledge {
    ghost use Rattle.hp_model.specs.Knowledge as model;
    ghost use Rattle.hp_detect.specs.Codes.{knowledge_code};

    ghost Value = { model.Knowledge };

    ghost coded = { knowledge_code };

    ghost use Rattle.hp_detect.specs.Mapped.{known};

    ghost view = { λ k. known k.kept.value };
}

impl Knowledge {
    /// What is known of an empty past.
    pub fn fresh(alloc: Global, expr: &EventExpr) -> Result<Knowledge, AllocError>
        ensures { IfOk result (λ k. k ≡ knowledge (event expr.now) []) }
    {
        Ok(Knowledge {
            kept: fresh(alloc, expr)?,
        })
    }

    /// One step: the occurrence of the event where `prim` is signalled next, if it occurs there, and what is known
    /// then. If this is what is known of a past, the answer is that of this past followed by `prim`.
    pub fn step(
        &self,
        alloc: Global,
        expr: &EventExpr,
        prim: &Prim,
    ) -> Result<(Option<Occurrence>, Knowledge), AllocError>
        ensures answers { IfOk result (λ r. (past : History) → self.now ≡ knowledge (event expr.now) past
            → option_map occurrence r.0 ≡ model.occurrence_of (event expr.now) (primitive prim.now ∷ past)) }
        ensures learns { IfOk result (λ r. (past : History) → self.now ≡ knowledge (event expr.now) past
            → r.1 ≡ knowledge (event expr.now) (primitive prim.now ∷ past)) }
    {
        let next = advance(alloc, expr, &self.kept, prim)?;
        Ok((next.occurrence, Knowledge { kept: next.known }))
    }
}

impl PartialEq for Knowledge {
    ghost use Rattle.std.specs.Prelude.{◌≡◌, ◌↔◌, IsTrue};
    ghost use Rattle.std.specs.Cmp.{partial_equiv_from_equiv};
    ghost use Rattle.hp_detect.specs.Same.{knowledge_same, knowledge_equiv};

    ghost eq = { knowledge_same };

    ghost laws = { partial_equiv_from_equiv knowledge_equiv };

    /// Whether two know the same. It allocates nothing.
    fn eq(&self, other: &Knowledge) -> bool
        ensures test { result ≡ knowledge_same self.now other.now }
        ensures same { IsTrue result ↔ (self.now ≡ other.now) }
    {
        *self.kept == *other.kept
    }
}

impl Eq for Knowledge {
    ghost use Rattle.hp_detect.specs.Same.{knowledge_equiv};

    ghost laws = { knowledge_equiv };
}

impl Clone for Knowledge {
    ghost is_clone = { λ k l. l ≡ k };

    /// Shares this knowledge. It allocates nothing.
    ///
    /// An error means that an `Arc` could not be cloned.
    fn clone(&self) -> Result<Knowledge, AllocError> {
        Ok(Knowledge {
            kept: Arc::try_clone(&self.kept)?,
        })
    }
}
