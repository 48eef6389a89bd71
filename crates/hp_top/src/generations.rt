//! Cascades: the detached tasks of a unit, in generations.

ghost use Rattle.std.specs.Prelude.{◌≡◌, IfOk, map};
ghost use Rattle.hp_model.specs.Cascade as model;
ghost use Rattle.hp_value.specs.Mapped.{coupling};
ghost use Rattle.hp_rule.specs.Mapped.{library, task as task_of, detached as detached_of};
ghost use Rattle.hp_tree.specs.Mapped.{top_report};
ghost use Rattle.hp_top.specs.Mapped.{generation_of};
ghost use Rattle.hp_top.specs.Runs.{RunsGeneration, RunsCascade};

use crate::rounds::most_rounds;
use crate::runner::Runner;
use hp_fire::{Past, Workers};
use hp_rule::{Detached, Library, Task};
use hp_tree::TopReport;
use hp_value::Coupling;
use hp_view::View;
use std::alloc::{AllocError, Global};

impl<W: Workers> Runner<'_, W> {
    /// Runs the cascade of detached tasks on the view. A generation runs each task as a top-level transaction, in
    /// order. The next one runs the tasks that these have detached and that are due. The answer is the report of each
    /// transaction.
    ///
    /// In HiPAC separate firings run in transactions of their own.
    pub(crate) fn cascade(
        &self,
        view: &mut View,
        tasks: Vec<Task>,
    ) -> Result<Vec<TopReport>, AllocError>
        requires ready { W.ready self.now.engine.workers.now }
        ensures { IfOk result (λ reports.
            RunsCascade (library self.now.engine.lib.now) (map task_of tasks.items) view.old view.new
            (map top_report reports.items)) }
    {
        let most = most_rounds(self.engine.lib);
        let mut reports = Vec::new(self.alloc());
        let mut next = tasks;
        for _ in 0..most {
            if next.is_empty() {
                return Ok(reports);
            }
            let mut generation = self.run_generation(view, &next)?;
            reports.append(&mut generation.tops)?;
            next = due(self.alloc(), generation.detached)?;
        }
        Ok(reports)
    }

    /// Runs a generation: each task as a top-level transaction, in order.
    fn run_generation(&self, view: &mut View, tasks: &[Task]) -> Result<Generation, AllocError>
        requires ready { W.ready self.now.engine.workers.now }
        ensures { IfOk result (λ g.
            RunsGeneration (library self.now.engine.lib.now) (map task_of tasks.now) view.old view.new
            (generation_of g)) }
    {
        let mut tops = Vec::new(self.alloc());
        let mut detached = Vec::new(self.alloc());
        for task in tasks {
            let mut top = self.run_detached(view, task)?;
            detached.append(&mut top.detached)?;
            tops.push(TopReport {
                task: Some((task.rule, task.place)),
                end: top.end,
                tree: top.tree,
            })?;
        }
        Ok(Generation { tops, detached })
    }
}

/// The result of a generation, besides its writes.
#[derive(Debug, Drop)]
pub(crate) struct Generation {
    /// The reports of its transactions, in order.
    pub(crate) tops: Vec<TopReport>,
    /// The tasks that they detached, in order.
    pub(crate) detached: Vec<Detached>,
}

/// Runs the cascade of detached tasks on a view. A generation runs each task as a top-level transaction, in order. The
/// next one runs the tasks that these have detached and that are due. The answer is the report of each transaction, and
/// the view after the last.
///
/// In HiPAC separate firings run in transactions of their own. Groups of firings use at most `width` threads. Programs
/// call `run_unit`, of which this is the second part; the specification of the crates names this call, too.
///
/// An error means that memory ran out; the view, which may have a part of the effects by then, is dropped.
pub fn cascade<W: Workers>(
    workers: &W,
    alloc: Global,
    lib: &Library,
    mut view: View,
    tasks: Vec<Task>,
    width: usize,
) -> Result<(Vec<TopReport>, View), AllocError>
    requires ready { W.ready workers.now }
    ensures { IfOk result (λ r.
        RunsCascade (library lib.now) (map task_of tasks.items) view r.1 (map top_report r.0.items)) }
{
    let past = Past::new(alloc, lib, width);
    let reports = Runner::new(workers, alloc, lib, width, &past).cascade(&mut view, tasks)?;
    Ok((reports, view))
}

/// The detached tasks that are due, in order: an exclusive one only if it was released.
pub(crate) fn due(alloc: Global, detached: Vec<Detached>) -> Result<Vec<Task>, AllocError>
    ensures { IfOk result (λ ts. map task_of ts.items ≡ model.due (map detached_of detached.items)) }
{
    let mut tasks = Vec::new(alloc);
    for one in detached {
        if is_due(one.task.place, one.released) {
            tasks.push(one.task)?;
        }
    }
    Ok(tasks)
}

/// Whether a detached task is due.
fn is_due(place: Coupling, released: bool) -> bool
    ensures { result ≡ model.due_by (coupling place) released }
{
    match place {
        Coupling::Immediate | Coupling::Deferred => false,
        Coupling::Separate | Coupling::Dependent => true,
        Coupling::Exclusive => released,
    }
}
