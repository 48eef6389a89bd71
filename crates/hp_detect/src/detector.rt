//! Detectors.

ghost use Rattle.std.specs.Prelude.{◌≡◌, map, option_map, IfOk, OnOk, OnErr, [], ◌∷◌, Ok, None, true, false};
ghost use Rattle.hp_model.specs.Events as model;
ghost use Rattle.hp_model.specs.Occurrences.{History};
ghost use Rattle.hp_model.specs.Knowledge.{knowledge};
ghost use Rattle.hp_value.specs.Mapped.{primitive, occurrence};
ghost use Rattle.hp_detect.specs.Mapped.{event};
ghost use Rattle.hp_detect.specs.DetectorState.{Knows, occurrences_along};

use crate::event::{EventExpr, is_pure};
use crate::known::{Known, fresh};
use crate::parts::single;
use crate::stepping::advance;
use hp_value::{Occurrence, Prim};
use std::alloc::{AllocError, Global};
use std::marker::Model;
use std::sync::Arc;

/// An event, with what of the past matters for its later occurrences.
///
/// The specification defines the detector. The engine keeps only a rule's `Knowledge`, since the rule has the event.
///
/// In contracts a detector is its event and what it knows (`specs/DetectorState.antt`). It keeps no more than that: for
/// a sequence the occurrences of the first arm that are not yet taken, for a closure what it has gathered since its
/// last end, and for a pure event nothing.
#[derive(Debug, Drop)]
pub struct Detector {
    expr: Arc<EventExpr>,
    // `None` for a pure event.
    kept: Option<Arc<Known>>,
}

impl Model for Detector {
    ghost use Rattle.hp_detect.specs.DetectorState.{DetectorState, detector_code};

    ghost Value = { DetectorState };

    ghost coded = { detector_code };

    ghost use Rattle.std.specs.Prelude.{◌≡◌, is_none};
    ghost use Rattle.hp_model.specs.Events.{is_pure};
    ghost use Rattle.hp_detect.specs.Mapped.{event, known_of};

    ghost view = { λ d. record { event = event d.expr.value; known = known_of (event d.expr.value) d.kept } };

    ghost invariant = { λ d. is_none d.kept ≡ is_pure (event d.expr.value) };
}

impl Detector {
    /// A detector of the event, with an empty past.
    ///
    /// It shares the event. For a pure event it allocates nothing.
    pub fn fresh(alloc: Global, expr: &Arc<EventExpr>) -> Result<Detector, AllocError>
        ensures event { IfOk result (λ d. d.event ≡ event expr.now.value) }
        ensures knows { IfOk result (λ d. Knows d []) }

        // A pure event needs no knowledge of the past.
        ensures pure { IfOk result (λ d. model.is_pure d.event ≡ true → (past : History) → Knows d past) }
    {
        let kept = if is_pure(expr) {
            None
        } else {
            Some(fresh(alloc, expr)?)
        };
        Ok(Detector {
            expr: Arc::try_clone(expr)?,
            kept,
        })
    }

    /// One step: the occurrence of the event where `prim` is signalled next, if it occurs there.
    ///
    /// Whatever past the detector knew before, the answer is that of this past followed by `prim`, and the detector
    /// then knows the longer past. If no pattern of the event matches, the answer is `None`, nothing changes and
    /// nothing is allocated. An error means that memory ran out; the detector is then as before.
    pub fn step(&mut self, alloc: Global, prim: &Prim) -> Result<Option<Occurrence>, AllocError>
        ensures event { self.new.event ≡ self.old.event }
        ensures answers { IfOk result (λ o. (past : History) → Knows self.old past
            → option_map occurrence o ≡ model.occurrence_of self.old.event (primitive prim.now ∷ past)) }
        ensures learns { OnOk result ((past : History) →
            Knows self.old past → Knows self.new (primitive prim.now ∷ past)) }
        ensures unmentioned { model.mentions self.old.event (primitive prim.now) ≡ false
            → (result ≡ Ok None) × (self.new ≡ self.old) }
        ensures err { OnErr result (self.new ≡ self.old) }
    {
        if !self.expr.mentions(prim) {
            return Ok(None);
        }
        let Some(kept) = &self.kept else {
            return Ok(Some(single(alloc, prim)?));
        };
        let next = advance(alloc, &self.expr, kept, prim)?;
        self.kept = Some(next.known);
        Ok(next.occurrence)
    }
}

impl PartialEq for Detector {
    ghost use Rattle.std.specs.Prelude.{◌≡◌, ◌↔◌, IsTrue};
    ghost use Rattle.std.specs.Cmp.{partial_equiv_from_equiv};
    ghost use Rattle.hp_detect.specs.Same.{detector_same, detector_equiv};

    ghost eq = { detector_same };

    ghost laws = { partial_equiv_from_equiv detector_equiv };

    /// Whether two detectors have the same event and know the same. It allocates nothing.
    fn eq(&self, other: &Detector) -> bool
        ensures test { result ≡ detector_same self.now other.now }
        ensures same { IsTrue result ↔ (self.now ≡ other.now) }
    {
        self.expr == other.expr && self.kept == other.kept
    }
}

impl Eq for Detector {
    ghost use Rattle.hp_detect.specs.Same.{detector_equiv};

    ghost laws = { detector_equiv };
}

impl Clone for Detector {
    ghost is_clone = { λ d e. e ≡ d };

    /// A clone that shares all that the detector keeps, and allocates nothing.
    ///
    /// An error means that an `Arc` could not be cloned.
    fn clone(&self) -> Result<Detector, AllocError> {
        let kept = match &self.kept {
            Some(kept) => Some(Arc::try_clone(kept)?),
            None => None,
        };
        Ok(Detector {
            expr: Arc::try_clone(&self.expr)?,
            kept,
        })
    }
}

/// What a fresh detector answers, step by step, when these are signalled: at each step the event's occurrence at the
/// end of the list so far.
pub fn detect(
    alloc: Global,
    expr: &Arc<EventExpr>,
    signalled: &[Prim],
) -> Result<Vec<Option<Occurrence>>, AllocError>
    ensures { IfOk result (λ answers. map (option_map occurrence) answers.items
        ≡ occurrences_along (event expr.now.value) [] (map primitive signalled.now)) }
{
    let mut detector = Detector::fresh(alloc, expr)?;
    let mut answers = Vec::with_capacity(alloc, signalled.len())?;
    for prim in signalled {
        answers.push(detector.step(alloc, prim)?)?;
    }
    Ok(answers)
}
