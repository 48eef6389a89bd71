//! The end of top-level transactions.

ghost use Rattle.std.specs.Prelude.{◌≤◌, IfOk, length};
ghost use Rattle.hp_fire.specs.Mapped.{course as course_of};
ghost use Rattle.hp_top.specs.Mapped.{top_of};
ghost use Rattle.hp_top.specs.Runs.{Closes};

use crate::top::Top;
use hp_fire::{Course, detached_after, end_transaction, ending};
use hp_view::{Mark, View};
use std::alloc::{AllocError, Global};

/// Ends a top-level transaction that began at the mark. If its course is done, its writes stay. Otherwise they are
/// undone, and of the tasks that it detached only the separate ones remain, and the exclusive ones, which are released.
pub(crate) fn close(
    alloc: Global,
    view: &mut View,
    mark: Mark,
    course: Course,
) -> Result<Top, AllocError>
    requires { mark ≤ length view.old.undo }
    ensures { IfOk result (λ t. Closes mark view.old view.new (course_of course) (top_of t)) }
{
    let Course {
        end: how,
        queued: _,
        detached,
        items,
    } = course;
    end_transaction(view, mark, &how)?;
    let detached = detached_after(alloc, &how, detached)?;
    Ok(Top {
        end: ending(how),
        tree: items,
        detached,
    })
}
