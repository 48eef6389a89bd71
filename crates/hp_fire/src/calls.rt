//! The calls for the layers above.

ghost use Rattle.std.specs.Prelude.{◌≡◌, ◌+◌, ◌<◌, ◌≤◌, IfOk, map, length};
ghost use Rattle.std.specs.Thread.{IsSync};
ghost use Rattle.hp_fire.specs.Trying.{MayTry, HasTried};
ghost use Rattle.hp_model.specs.Cells.{Holds};
ghost use Rattle.hp_model.specs.Firing as model;
ghost use Rattle.hp_model.specs.Firing.{level_at, siblings, fire_task, signal_in};
ghost use Rattle.hp_model.specs.Cascade.{no_context};
ghost use Rattle.hp_model.specs.Soundness.{IsSound};
ghost use Rattle.hp_value.specs.Mapped.{primitive};
ghost use Rattle.hp_rule.specs.Mapped.{body_in, library, task as task_of};
ghost use Rattle.hp_store.specs.Stack.{cells_in};
ghost use Rattle.hp_attempt.specs.Mapped.{attempt as attempt_of, firing as firing_of};
ghost use Rattle.hp_fire.specs.Mapped.{course, group as group_of};
ghost use Rattle.hp_fire.specs.Runs.{Runs, RunsFiring, RunsGroup};

use crate::attempting::attempt_on;
use crate::context::Context;
use crate::course::{Course, End, GroupOutcome};
use crate::engine::Engine;
use crate::halting::or_aborted;
use crate::speculate::{
    Alone, By, ByThreads, Found, Gate, Gated, Job, Past, Progress, Receiver, Wave, Workers,
};
use hp_attempt::{Attempt, Outcome};
use hp_board::Seat;
use hp_ops::trigger;
use hp_rule::{Library, Stmt, Task};
use hp_store::Snapshot;
use hp_value::Prim;
use hp_view::View;
use std::alloc::{AllocError, Global};
use std::thread::Threads;

impl<W: Workers> Engine<'_, W> {
    /// Runs the body of a script in a transaction of depth `depth`, at the moment `time` of the clock: its statements
    /// in order, up to the first that isn't done.
    ///
    /// While a group of firings inside has workers, this thread sleeps.
    pub fn run_body(
        &self,
        view: &mut View,
        body: &[Stmt],
        depth: u8,
        time: u64,
    ) -> Result<Course, AllocError>
        requires ready { W.ready self.now.workers.now }
        ensures { let level = level_at (library self.now.lib.now) time depth in
            IfOk result (λ c. Runs (library self.now.lib.now)
            (model.run_body (body_in body.now) level (no_context time)) view.old view.new (course c)) }
    {
        let context = Context::of_script(depth, time);
        let mut course = Course::ended(self.alloc, End::Done);
        self.statements(view, body, &context, &mut course)?;
        Ok(course)
    }

    /// Signals an occurrence in a transaction of depth `depth`, at the moment `time` of the clock: the rules that it
    /// triggers are placed, and the immediate ones fire as siblings.
    ///
    /// While a group of firings has workers, this thread sleeps.
    pub fn run_signal(
        &self,
        view: &mut View,
        prim: &Prim,
        depth: u8,
        time: u64,
    ) -> Result<Course, AllocError>
        requires ready { W.ready self.now.workers.now }
        ensures { let level = level_at (library self.now.lib.now) time depth in
            IfOk result (λ c. Runs (library self.now.lib.now)
            (signal_in level (primitive prim.now)) view.old view.new (course c)) }
    {
        let tasks = trigger(self.alloc, view, self.lib, prim, depth, time);
        let mut course = Course::ended(self.alloc, End::Done);
        let started = self.start(view, tasks, depth, &mut course);
        or_aborted(&mut course, started)?;
        Ok(course)
    }

    /// Fires a task on the view, as a subtransaction.
    ///
    /// While a group of firings inside has workers, this thread sleeps.
    pub fn run_firing(&self, view: &mut View, task: &Task) -> Result<Outcome, AllocError>
        requires ready { W.ready self.now.workers.now }
        ensures { IfOk result (λ o. RunsFiring (library self.now.lib.now)
            (λ S. fire_task (library self.now.lib.now) S (task_of task.now)) view.old view.new (firing_of o)) }
    {
        self.fire_task(view, task)
    }

    /// Fires the tasks of a group on the view, as siblings. If `stop_at_veto` is set, nothing fires after a vetoed
    /// task.
    ///
    /// Workers are started only where they pay. While there are any, this thread sleeps.
    pub fn run_siblings(
        &self,
        view: &mut View,
        tasks: &[Task],
        stop_at_veto: bool,
    ) -> Result<GroupOutcome, AllocError>
        requires ready { W.ready self.now.workers.now }
        ensures { IfOk result (λ g. RunsGroup (library self.now.lib.now)
            (siblings (fire_task (library self.now.lib.now)) stop_at_veto (map task_of tasks.now))
            view.old view.new (group_of g)) }
    {
        self.fire_group(view, tasks, self.lib.depth_limit(), stop_at_veto, false)
    }
}

/// Fires the tasks of a group on the view, as siblings. In HiPAC the rules that one event triggers fire as sibling
/// subtransactions, whose effect is that of some serial order. Here it is the order of the tasks. If `stop_at_veto` is
/// set, nothing fires after a vetoed task.
///
/// If there are at least two tasks and `width` is at least two, up to `width` workers, at most 64, try the tasks ahead
/// of their turn on threads of their own, while this thread sleeps. An attempt is accepted if it still holds; otherwise
/// the task is tried again or run by the caller. So threads don't change the outcome. The gate is notified of each task
/// that a worker starts and ends, by its index in the group. A worker that runs out of memory leaves its task to the
/// caller.
///
/// Programs call `Engine::run_siblings`, which has no gate; the specification of the crates names this call, too.
pub fn run_group<R: Threads + Sync, G: Gate + Sync>(
    rt: &R,
    alloc: Global,
    lib: &Library,
    view: &mut View,
    tasks: &[Task],
    stop_at_veto: bool,
    width: usize,
    gate: &G,
) -> Result<GroupOutcome, AllocError>
    ensures runs { IfOk result (λ g. RunsGroup (library lib.now)
        (siblings (fire_task (library lib.now)) stop_at_veto (map task_of tasks.now)) view.old view.new (group_of g)) }
    ensures counted { IfOk result (λ g. g.accepted + g.reran ≡ length g.outcomes.items) }
    ensures waves { IfOk result (λ g. g.waves ≤ g.reran + 1) }
    ensures alone { width < 2 → IfOk result (λ g. g.waves ≡ 0) }
{
    let past = Past::new(alloc, lib, width);
    let gated = Gated { rt, gate };
    let plain = ByThreads::new(rt);
    let tries = |engine: &Engine<'_, Alone>, wave: &Wave<'_>, seats: (
        Seat,
        Vec<Job<'_>>,
    ), view: &mut View, progress: &mut Progress, receivers: &mut Vec<Receiver<'_>>| -> Found
        requires { IsSync R.row × IsSync G.row
            × MayTry (library engine.now.lib.now) wave.now seats progress.old receivers.old }
        ensures { HasTried (library engine.now.lib.now) wave.now view.old view.new
            progress.old progress.new receivers.new result }
    {
        if wave.eager {
            gated.try_outside(engine, wave, seats, view, progress, receivers)
        } else {
            plain.try_all(engine, wave, seats, view, progress, receivers)
        }
    };
    let workers = By { tries: &tries };
    let engine = Engine::new(&workers, alloc, lib, width, &past);
    engine.fire_group(view, tasks, lib.depth_limit(), stop_at_veto, true)
}

/// Tries a task on a snapshot. The attempt stands for the task's firing on each state in which its reads hold.
///
/// A group of firings inside uses at most `width` threads, while this thread sleeps. Programs call `Engine`, which
/// makes its attempts in the same way; the specification of the crates names this call, too.
pub fn run_task<W: Workers>(
    workers: &W,
    alloc: Global,
    lib: &Library,
    snapshot: Snapshot,
    task: &Task,
    width: usize,
) -> Result<Attempt, AllocError>
    requires ready { W.ready workers.now }
    ensures sound { IfOk result (λ a. IsSound (library lib.now) (attempt_of a)) }
    ensures reads_held { IfOk result (λ a. Holds (cells_in snapshot) a.reads) }
    ensures task { IfOk result (λ a. task_of a.task ≡ task_of task.now) }
{
    let past = Past::new(alloc, lib, width);
    let engine = Engine::new(workers, alloc, lib, width, &past);
    let mut view = View::new(alloc, snapshot)?;
    let outcome = engine.fire_task(&mut view, task)?;
    attempt_on(view, task, outcome)
}
