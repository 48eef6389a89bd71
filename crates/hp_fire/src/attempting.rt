//! Attempts at tasks, from the views on which the tasks fired.

ghost use Rattle.std.specs.Prelude.{◌≡◌, IfOk, []};
ghost use Rattle.hp_model.specs.Cells.{Holds};
ghost use Rattle.hp_model.specs.Firing.{fire_task};
ghost use Rattle.hp_model.specs.Rules.{Library};
ghost use Rattle.hp_model.specs.Soundness.{IsSound};
ghost use Rattle.hp_rule.specs.Mapped.{task as task_of};
ghost use Rattle.hp_store.specs.Stack.{cells_in};
ghost use Rattle.hp_view.specs.Seeing.{Seeing};
ghost use Rattle.hp_attempt.specs.Mapped.{attempt as attempt_of, firing as firing_of};
ghost use Rattle.hp_fire.specs.Runs.{RunsFiring};

use hp_attempt::{Attempt, Outcome};
use hp_rule::Task;
use hp_view::View;
use std::alloc::AllocError;

/// The attempt at a task, from the view on which the task fired. Its reads held in the cells beneath the view.
pub(crate) fn attempt_on(view: View, task: &Task, outcome: Outcome) -> Result<Attempt, AllocError>
    ensures sound { IfOk result (λ a. (library : Library) (first : Seeing) → first.writes ≡ []
        → RunsFiring library (λ S. fire_task library S (task_of task.now)) first view (firing_of outcome)
        → IsSound library (attempt_of a)) }
    ensures reads_held { IfOk result (λ a. Holds (cells_in view.base) a.reads) }
    ensures task { IfOk result (λ a. task_of a.task ≡ task_of task.now) }
{
    let copy = task.clone()?;
    let (reads, layer) = view.into_parts();
    Ok(Attempt {
        task: copy,
        reads,
        layer,
        outcome,
    })
}
