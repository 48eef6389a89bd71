//! Statements that end without effects.

ghost use Rattle.std.specs.Prelude.{OnOk};
ghost use Rattle.hp_model.specs.Rules.{Library};
ghost use Rattle.hp_model.specs.Soundness.{Answer};
ghost use Rattle.hp_model.specs.Transactions.{Work};
ghost use Rattle.hp_view.specs.Seeing.{Seeing};
ghost use Rattle.hp_fire.specs.Mapped.{course as course_in};
ghost use Rattle.hp_fire.specs.Runs.{Adds, Steps};

use crate::course::{Course, End};
use hp_value::Halt;
use std::alloc::AllocError;

/// If a cause ended a statement before it had any effect, ends the course with that cause.
pub(crate) fn or_aborted(course: &mut Course, given: Result<(), Halt>) -> Result<(), AllocError>
    ensures { OnOk result ((library : Library) (work : Work) (old new : Seeing) (before : Answer)
        → Steps library work old new before (course_in course.old) given
        → Adds library work old new before (course_in course.new)) }
{
    match given {
        Ok(()) => Ok(()),
        Err(Halt::Cause(cause)) => {
            course.end_with(End::Abort(cause));
            Ok(())
        }
        Err(Halt::Memory) => Err(AllocError),
    }
}
