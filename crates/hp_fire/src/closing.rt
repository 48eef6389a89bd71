//! The ends of nested transactions.

ghost use Rattle.std.specs.Prelude.{◌≡◌, ◌≤◌, IfOk, IsOk, OnOk, OnErr, map, length, option_map, false};
ghost use Rattle.hp_model.specs.Transactions as model;
ghost use Rattle.hp_model.specs.Soundness.{Answer};
ghost use Rattle.hp_model.specs.Answers.{detached_at, closing, followed, is_done};
ghost use Rattle.hp_rule.specs.Mapped.{library, task as task_of, detached as detached_of};
ghost use Rattle.hp_model.specs.Tree.{node, no_items};
ghost use Rattle.hp_tree.specs.Mapped.{what as what_of, ending as ending_of, before, items_in};
ghost use Rattle.hp_model.specs.Answers as answers;
ghost use Rattle.hp_view.specs.Seeing.{Seeing, GoesOn};
ghost use Rattle.hp_fire.specs.Mapped as mapped;
ghost use Rattle.hp_fire.specs.Mapped.{course as course_in};
ghost use Rattle.hp_fire.specs.Joined.{IsPart, leaving};
ghost use Rattle.hp_fire.specs.Runs.{Closes, ActionEnds, SubEnds, SubGoesOn};

use crate::course::{Around, Course, End, append};
use crate::engine::Engine;
use crate::placing::stopped_by;
use crate::vetoes::action_veto;
use hp_rule::{Detached, Task};
use hp_tree::{Ending, Item, Node, What};
use hp_value::Coupling;
use hp_view::{Mark, View};
use std::alloc::{AllocError, Global};
use std::mem::replace;

/// Ends the transaction that began at a mark: if it is done, its writes stay; otherwise they are undone (Moss).
///
/// After an error the view is as before.
pub fn end_transaction(view: &mut View, mark: Mark, how: &End) -> Result<(), AllocError>
    requires { mark ≤ length view.old.undo }
    ensures closes { OnOk result ((first : Seeing) → GoesOn first view.old → length first.undo ≡ mark
        → Closes first view.old view.new (mapped.end how.now)) }
    ensures err { OnErr result (view.new ≡ view.old) }
    ensures nothing { mark ≡ length view.old.undo → IsOk result }
{
    match how {
        End::Done => {
            view.commit(mark);
            Ok(())
        }
        End::Abort(_) | End::Vetoed(_) | End::Veto(_) => view.abort(mark),
    }
}

/// The ending of a transaction whose course ends so. That of a veto names its rule, and has its message.
pub fn ending(how: End) -> Ending
    ensures { ending_of result ≡ answers.ending_of (mapped.end how) }
{
    match how {
        End::Done => Ending::Committed,
        End::Abort(cause) => Ending::Aborted(cause),
        End::Vetoed(veto) | End::Veto(veto) => Ending::Vetoed(veto),
    }
}

/// The tasks that a transaction leaves detached: if it aborts, the separate ones, and the exclusive ones, which the
/// abort releases.
pub fn detached_after(
    alloc: Global,
    how: &End,
    detached: Vec<Detached>,
) -> Result<Vec<Detached>, AllocError>
    ensures { IfOk result (λ ds. map detached_of ds.items
        ≡ detached_at (mapped.end how.now) (map detached_of detached.items)) }
{
    match how {
        End::Done => Ok(detached),
        End::Abort(_) | End::Vetoed(_) | End::Veto(_) => left_after_abort(alloc, detached),
    }
}

/// The detached tasks that remain when the transaction around them aborts.
fn left_after_abort(alloc: Global, detached: Vec<Detached>) -> Result<Vec<Detached>, AllocError>
    ensures { IfOk result (λ ds. map detached_of ds.items ≡ model.survivors (map detached_of detached.items)) }
{
    let mut left = Vec::new(alloc);
    for d in detached {
        if let Some(kept) = after_abort(d) {
            left.push(kept)?;
        }
    }
    Ok(left)
}

/// A detached task when the transaction around it aborts, if it remains.
fn after_abort(d: Detached) -> Option<Detached>
    ensures { option_map detached_of result ≡ model.survivor_by (detached_of d).task.place (detached_of d) }
{
    match d.task.place {
        Coupling::Separate => Some(d),
        Coupling::Exclusive => Some(Detached {
            task: d.task,
            released: true,
        }),
        Coupling::Immediate | Coupling::Deferred | Coupling::Dependent => None,
    }
}

/// Ends a nested transaction that began in a course, which then ends as `after` says: adds its node, and keeps the
/// tasks that it leaves queued and detached. After an error the course is only to be dropped.
pub(crate) fn end_part(
    alloc: Global,
    course: &mut Course,
    what: What,
    around: Around,
    after: End,
) -> Result<(), AllocError>
    ensures { OnOk result ((outer a : Answer) → IsPart around outer a (course_in course.old)
        → course_in course.new ≡ followed outer (closing (what_of what) a (mapped.end after))) }
{
    leave_tasks(alloc, course, &around)?;
    let items = replace(&mut course.items, around.items);
    let how = replace(&mut course.end, after);
    course.put(node_of(what, how, items))
}

/// The node of a nested transaction, which ended so, with its items.
pub(crate) fn node_of(what: What, how: End, items: Vec<Item>) -> Item
    ensures { before result no_items
        ≡ node (what_of what) (answers.ending_of (mapped.end how)) (items_in items.items) no_items }
{
    Item::Node(Node {
        what,
        end: ending(how),
        items,
    })
}

/// Drops the tasks that a nested transaction doesn't leave queued or detached. After an error the course is only to be
/// dropped.
fn leave_tasks(alloc: Global, course: &mut Course, around: &Around) -> Result<(), AllocError>
    ensures { OnOk result ((outer a : Answer) → IsPart around.now outer a (course_in course.old)
        → course_in course.new ≡ leaving outer a) }
{
    if course.is_done() {
        return Ok(());
    }
    leave_after_abort(alloc, course, around)
}

/// Drops the tasks that a nested transaction that aborted doesn't leave queued or detached.
#[inline(never)]
fn leave_after_abort(alloc: Global, course: &mut Course, around: &Around) -> Result<(), AllocError>
    requires { is_done (course_in course.old).end ≡ false }
    ensures { OnOk result ((outer a : Answer) → IsPart around.now outer a (course_in course.old)
        → course_in course.new ≡ leaving outer a) }
{
    course.queued.truncate(around.queued);
    let begun = around.detached.min(course.detached.len());
    let inside = course.detached.split_off(begun)?;
    append(&mut course.detached, left_after_abort(alloc, inside)?)
}

impl<W> Engine<'_, W> {
    /// Ends the action of a task, which began at a mark of the view and in this course, and adds the firing to the
    /// course. Its veto aborts the transaction around it.
    pub(crate) fn close_action(
        &self,
        view: &mut View,
        mark: Mark,
        task: &Task,
        what: What,
        around: Around,
        course: &mut Course,
    ) -> Result<(), AllocError>
        requires { mark ≤ length view.old.undo }
        ensures { let t = task_of task.now in
            OnOk result (ActionEnds (library self.now.lib.now) t mark (what_of what) view.old view.new around
            (course_in course.old) (course_in course.new)) }
    {
        end_transaction(view, mark, &course.end)?;
        let veto = action_veto(self.alloc, self.lib, task.rule, &course.end)?;
        end_part(self.alloc, course, what, around, stopped_by(veto))
    }
}

/// Ends the body of a statement `sub`, which began at a mark of the view and in this course. Says whether it aborted,
/// so that the other body follows. A veto passes outward.
pub(crate) fn close_sub(
    alloc: Global,
    view: &mut View,
    mark: Mark,
    around: Around,
    course: &mut Course,
) -> Result<bool, AllocError>
    requires { mark ≤ length view.old.undo }
    ensures { IfOk result (SubEnds mark view.old view.new around (course_in course.old) (course_in course.new)) }
{
    end_transaction(view, mark, &course.end)?;
    let (after, aborted) = after_sub(&course.end)?;
    end_part(alloc, course, What::Sub, around, after)?;
    Ok(aborted)
}

/// The end of a statement `sub` whose body ended so, and whether the body aborted, so that the other body follows.
fn after_sub(how: &End) -> Result<(End, bool), AllocError>
    ensures { IfOk result (λ r. SubGoesOn (mapped.end how.now) (mapped.end r.0) r.1) }
{
    match how {
        End::Done => Ok((End::Done, false)),
        End::Abort(_) | End::Vetoed(_) => Ok((End::Done, true)),
        End::Veto(veto) => Ok((End::Veto(veto.clone()?), false)),
    }
}
