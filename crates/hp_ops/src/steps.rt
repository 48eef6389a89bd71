//! Steps of detectors that are written together.

ghost use Rattle.std.specs.Prelude.{◌≡◌, IfOk, OnOk, OnErr};
ghost use Rattle.hp_store.specs.Changes.{changes};
ghost use Rattle.hp_view.specs.Seeing.{GoesOn, IsSame, TakesIn};
ghost use Rattle.hp_ops.specs.Notified.{with_step};
ghost use Rattle.hp_ops.specs.Stepped.{entries};

use hp_detect::Knowledge;
use hp_store::{CellValue, Layer};
use hp_value::{Cell, RuleNo};
use hp_view::View;
use std::alloc::{AllocError, Global};

/// Steps of detectors that aren't written yet: what each detector knows next.
///
/// There is mostly one. A layer is made for two or more.
#[derive(Drop)]
pub(crate) enum DetectorSteps {
    Nothing,
    One(RuleNo, Knowledge),
    Several(Layer),
}

impl DetectorSteps {
    /// The steps with one more, if the rule's detector was stepped.
    ///
    /// An error means that memory ran out.
    pub(crate) fn and(
        self,
        alloc: Global,
        number: RuleNo,
        next: Option<Knowledge>,
    ) -> Result<DetectorSteps, AllocError>
        ensures { IfOk result (λ steps. changes (entries steps) ≡ with_step (changes (entries self)) number next) }
    {
        let Some(next) = next else {
            return Ok(self);
        };
        match self {
            DetectorSteps::Nothing => Ok(DetectorSteps::One(number, next)),
            DetectorSteps::One(first, known) => {
                let mut layer = Layer::new(alloc);
                layer.insert(Cell::Detector(first), Some(CellValue::Detector(known)))?;
                layer.insert(Cell::Detector(number), Some(CellValue::Detector(next)))?;
                Ok(DetectorSteps::Several(layer))
            }
            DetectorSteps::Several(layer) => {
                let mut more = layer;
                more.insert(Cell::Detector(number), Some(CellValue::Detector(next)))?;
                Ok(DetectorSteps::Several(more))
            }
        }
    }

    /// Writes the steps, all at once.
    ///
    /// An error means that memory ran out; no cell of the view has then changed.
    pub(crate) fn write(self, view: &mut View) -> Result<(), AllocError>
        ensures ok { OnOk result (TakesIn view.old view.new (entries self)) }
        ensures goes_on { GoesOn view.old view.new }
        ensures err { OnErr result (IsSame view.old view.new) }
    {
        match self {
            DetectorSteps::Nothing => {}
            DetectorSteps::One(number, next) => {
                view.put(Cell::Detector(number), CellValue::Detector(next))?;
            }
            DetectorSteps::Several(layer) => view.take_in(&layer)?,
        }
        Ok(())
    }
}
