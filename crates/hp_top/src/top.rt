//! Top-level transactions.

ghost use Rattle.std.specs.Prelude.{◌≡◌, ◌≤◌, IfOk, length, option_map};
ghost use Rattle.hp_model.specs.Cascade.{now_in, top, unit_work, task_work, veto_end};
ghost use Rattle.hp_model.proofs.FaithfulTops.{task_answer};
ghost use Rattle.hp_value.specs.Mapped.{veto as veto_of};
ghost use Rattle.hp_rule.specs.Mapped.{library, task as task_of, unit as unit_of};
ghost use Rattle.hp_attempt.specs.Mapped.{firing};
ghost use Rattle.hp_fire.specs.Mapped.{course as course_of, end as end_of};
ghost use Rattle.hp_top.specs.Mapped.{top_of};
ghost use Rattle.hp_top.specs.Runs.{RunsTop, Finishes};

use crate::closing::close;
use crate::runner::Runner;
use hp_attempt::Outcome;
use hp_fire::{Course, End, Past, Workers};
use hp_rule::{Detached, Library, Task, Unit};
use hp_tree::{Ending, Item};
use hp_value::{Prim, Veto};
use hp_view::{Mark, View};
use std::alloc::{AllocError, Global};

impl<W: Workers> Runner<'_, W> {
    /// Runs a unit's own transaction on the view: the script's body, or the signal of the moment, then the commit event
    /// and the deferred rounds. All of it runs at the clock's moment in the unit.
    pub(crate) fn run_top(&self, view: &mut View, unit: &Unit) -> Result<Top, AllocError>
        requires ready { W.ready self.now.engine.workers.now }
        ensures { IfOk result (λ t.
            RunsTop (library self.now.engine.lib.now)
            (top (library self.now.engine.lib.now) (now_in (unit_of unit.now)) 0
            (unit_work (library self.now.engine.lib.now) (unit_of unit.now))) view.old view.new (top_of t)) }
    {
        let mark = view.enter();
        match unit {
            Unit::Transaction { time, body } => {
                let course = self.engine.run_body(view, body.statements(), 0, *time)?;
                let top = self.finish(view, mark, course, 0, *time)?;
                Ok(top)
            }
            Unit::Moment(time) => {
                let course = self.engine.run_signal(view, &Prim::Time(*time), 0, *time)?;
                let top = self.finish(view, mark, course, 0, *time)?;
                Ok(top)
            }
        }
    }

    /// Runs a detached task on the view as a top-level transaction of its own, at the task's depth and moment. Its veto
    /// aborts the transaction.
    pub(crate) fn run_detached(&self, view: &mut View, task: &Task) -> Result<Top, AllocError>
        requires ready { W.ready self.now.engine.workers.now }
        ensures { IfOk result (λ t.
            RunsTop (library self.now.engine.lib.now)
            (top (library self.now.engine.lib.now) (task_of task.now).now (task_of task.now).depth
            (task_work (library self.now.engine.lib.now) (task_of task.now))) view.old view.new (top_of t)) }
    {
        let mark = view.enter();
        let outcome = self.engine.run_firing(view, task)?;
        let course = task_course(outcome);
        let top = self.finish(view, mark, course, task.depth, task.time)?;
        Ok(top)
    }

    /// Completes and ends a transaction after its work.
    fn finish(
        &self,
        view: &mut View,
        mark: Mark,
        course: Course,
        depth: u8,
        time: u64,
    ) -> Result<Top, AllocError>
        requires ready { W.ready self.now.engine.workers.now }
        requires mark { mark ≤ length view.old.undo }
        ensures { IfOk result (λ t.
            Finishes (library self.now.engine.lib.now) time depth mark view.old view.new
            (course_of course) (top_of t)) }
    {
        let all = self.complete(view, course, depth, time)?;
        let top = close(self.alloc(), view, mark, all)?;
        Ok(top)
    }
}

/// The result of a top-level transaction, besides its writes.
#[derive(Debug, Drop)]
pub struct Top {
    /// How it ended.
    pub end: Ending,
    /// What it did up to its end, in order of time.
    pub tree: Vec<Item>,
    /// The tasks that it detached, in order; if it aborted, those that remain.
    pub detached: Vec<Detached>,
}

/// Runs a unit's own transaction on a view: the script's body, or the signal of the moment, then the commit event and
/// the deferred rounds. The answer has the view after it.
///
/// Groups of firings use at most `width` threads. Programs call `run_unit`, which goes on with the cascade; the
/// specification of the crates names this call, too, as the meaning of a top-level transaction.
///
/// An error means that memory ran out; the view, which may have a part of the effects by then, is dropped.
pub fn run_top<W: Workers>(
    workers: &W,
    alloc: Global,
    lib: &Library,
    mut view: View,
    unit: &Unit,
    width: usize,
) -> Result<(Top, View), AllocError>
    requires ready { W.ready workers.now }
    ensures { IfOk result (λ r.
        RunsTop (library lib.now)
        (top (library lib.now) (now_in (unit_of unit.now)) 0 (unit_work (library lib.now) (unit_of unit.now)))
        view r.1 (top_of r.0)) }
{
    let past = Past::new(alloc, lib, width);
    let top = Runner::new(workers, alloc, lib, width, &past).run_top(&mut view, unit)?;
    Ok((top, view))
}

/// A firing as the whole work of a transaction. Its veto aborts the transaction.
fn task_course(outcome: Outcome) -> Course
    ensures { course_of result ≡ task_answer (firing outcome) }
{
    let Outcome {
        end,
        queued,
        detached,
        tree,
    } = outcome;
    Course {
        end: vetoed_end(end),
        queued,
        detached,
        items: tree,
    }
}

/// The end of a transaction whose whole work is a firing with this veto, if it vetoes.
fn vetoed_end(veto: Option<Veto>) -> End
    ensures { end_of result ≡ veto_end (option_map veto_of veto) }
{
    match veto {
        Some(veto) => End::Veto(veto),
        None => End::Done,
    }
}
