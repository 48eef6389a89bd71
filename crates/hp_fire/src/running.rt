//! The tasks of signals, groups and firings. They call the statements in `statement`, which call them.

ghost use Rattle.std.specs.Prelude.{◌≡◌, ◌+◌, ◌<◌, ◌≤◌, IfOk, OnOk, All, map, length};
ghost use Rattle.hp_model.specs.Firing.{fire_task};
ghost use Rattle.hp_model.specs.Transactions.{Work};
ghost use Rattle.hp_rule.specs.Mapped.{library, task as task_of};
ghost use Rattle.hp_view.specs.Seeing.{Seeing};
ghost use Rattle.hp_fire.specs.Mapped.{course as course_in};
ghost use Rattle.hp_fire.specs.Runs.{AddsFiring, AreReady, Steps};
ghost use Rattle.hp_fire.specs.Statements.{TasksStart, SiblingsFire, TaskFires};
ghost use Rattle.hp_fire.specs.Weights.{deepest, levels, left};

use crate::context::Context;
use crate::course::{Course, End, GroupOutcome};
use crate::deciding::{Decision, action_of, add_standing};
use crate::engine::Engine;
use crate::placing::{add_placed, place_tasks, single_immediate};
use crate::speculate::{Effort, FIRING, Group, Workers};
use hp_attempt::Outcome;
use hp_rule::Task;
use hp_value::Halt;
use hp_view::View;
use std::alloc::AllocError;

impl<W: Workers> Engine<'_, W> {
    /// Starts the tasks of a signal, or of a statement that fires a rule: places them, and fires the immediate ones as
    /// siblings. A cause for which there are no tasks ends the signal or the statement.
    #[cycle(fire)]
    pub(crate) fn start(
        &self,
        view: &mut View,
        tasks: Result<Vec<Task>, Halt>,
        depth: u8,
        course: &mut Course,
    ) -> Result<(), Halt>
        requires ready { W.ready self.now.workers.now }
        requires tasks { IfOk tasks (λ ts. AreReady (library self.now.lib.now) depth (map task_of ts.items)) }
        ensures { (work : Work) (before : Seeing) → TasksStart self.now.lib.now depth work before view.old tasks
            → Steps (library self.now.lib.now) work before view.new (course_in course.old) (course_in course.new)
            result }
    {
        let tasks = tasks?;
        if tasks.is_empty() {
            course.end_with(End::Done);
            return Ok(());
        }
        let tasks = match single_immediate(tasks) {
            Ok(task) => {
                self.fire_in(view, &task, course)?;
                return Ok(());
            }
            Err(tasks) => tasks,
        };
        let placed = place_tasks(self.alloc, tasks)?;
        let nested = self
            .lib
            .depth_limit()
            .saturating_sub(depth)
            .saturating_sub(1);
        let group = self.fire_group(view, &placed.immediate, nested, true, false)?;
        add_placed(course, placed, group)?;
        Ok(())
    }

    /// Fires tasks as siblings, in each of which at most `nested` firings may nest. If `stop_at_veto` is set, nothing
    /// fires after a vetoed task. With several tasks and threads, and enough work, workers try tasks ahead of their
    /// turn; if `eager` is set, as many as tasks and threads allow, even if they don't pay.
    // Inlined, its temporaries would be cleared for each signal that fires a single task, too.
    #[cycle(fire)]
    #[inline(never)]
    pub(crate) fn fire_group(
        &self,
        view: &mut View,
        tasks: &[Task],
        nested: u8,
        stop_at_veto: bool,
        eager: bool,
    ) -> Result<GroupOutcome, AllocError>
        requires ready { W.ready self.now.workers.now }
        requires tasks { let lib = self.now.lib.now in
            All (λ t. left lib (levels lib t.depth) (deepest lib) ≤ left lib nested (deepest lib)) tasks.now }
        ensures runs { IfOk result (SiblingsFire self.now.lib.now stop_at_veto tasks.now view.old view.new) }
        ensures counted { IfOk result (λ g. g.accepted + g.reran ≡ length g.outcomes.items) }
        ensures waves { IfOk result (λ g. g.waves ≤ g.reran + 1) }
        ensures alone { self.now.width < 2 → IfOk result (λ g. g.waves ≡ 0) }
    {
        let fire = |view: &mut View, task: &Task, effort: &Effort, width: usize| -> Result<
            Outcome,
            AllocError,
        >
            requires { let lib = self.now.lib.now in W.ready self.now.workers.now
                × (left lib (levels lib task.now.depth) (deepest lib) ≤ left lib nested (deepest lib)) }
            ensures { IfOk result (TaskFires self.entry.now.lib.now task.now view.old view.new) }
        {
            let _nested = nested;
            self.inside(effort, width).fire_task(view, task)
        };
        let group = Group {
            engine: *self,
            tasks,
            stop_at_veto,
            eager,
            fire: &fire,
        };
        group.run(view)
    }

    /// Fires a task. Its rule's action runs as a subtransaction.
    #[cycle(fire)]
    pub(crate) fn fire_task(&self, view: &mut View, task: &Task) -> Result<Outcome, AllocError>
        requires ready { W.ready self.now.workers.now }
        ensures { IfOk result (TaskFires self.now.lib.now task.now view.old view.new) }
    {
        let mut course = Course::ended(self.alloc, End::Done);
        self.fire_in(view, task, &mut course)?;
        Ok(course.into_outcome())
    }

    /// Fires a task without siblings, and adds the firing to the course of the transaction around it, which its veto
    /// aborts.
    #[cycle(fire)]
    fn fire_in(&self, view: &mut View, task: &Task, course: &mut Course) -> Result<(), AllocError>
        requires ready { W.ready self.now.workers.now }
        ensures { OnOk result (AddsFiring (library self.now.lib.now)
            (λ S. fire_task (library self.now.lib.now) S (task_of task.now)) view.old view.new
            (course_in course.old) (course_in course.new)) }
    {
        self.effort.add(FIRING);
        match self.decide(view, task)? {
            Decision::Over(over) => add_standing(self.alloc, course, over),
            Decision::Acts(what, found) => {
                let mark = view.enter();
                let context = Context::of_action(task, found.findings());
                let around = course.begin_part(self.alloc);
                let action = action_of(self.lib, task.rule);
                self.statements(view, action, &context, course)?;
                self.close_action(view, mark, task, what, around, course)
            }
        }
    }
}
