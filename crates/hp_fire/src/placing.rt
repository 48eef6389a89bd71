//! Places new tasks.

ghost use Rattle.std.specs.List.{list_all};
ghost use Rattle.std.specs.Prelude.{◌≡◌, IfOk, IfErr, OnOk, [], ◌∷◌, map, option_map, filter, true};
ghost use Rattle.hp_model.specs.Rules.{is_immediate};
ghost use Rattle.hp_model.specs.Tree.{Task as ModelTask, no_items};
ghost use Rattle.hp_model.specs.Soundness.{Answer};
ghost use Rattle.hp_model.specs.Answers.{followed, group_answer};
ghost use Rattle.hp_model.specs.Transactions.{deferred_of, detached_of as detached_tasks, done, unreleased};
ghost use Rattle.hp_model.specs.Firing.{end_of};
ghost use Rattle.hp_value.specs.Mapped.{veto as veto_in};
ghost use Rattle.hp_rule.specs.Mapped.{task as task_of, detached as detached_of};
ghost use Rattle.hp_fire.specs.Mapped.{course as course_in, group as group_in};
ghost use Rattle.hp_fire.specs.Mapped as mapped;
ghost use Rattle.hp_attempt.specs.Mapped.{firing};
ghost use Rattle.hp_fire.specs.Joined.{with_firings};

use crate::course::{Course, End, GroupOutcome, append};
use hp_attempt::Outcome;
use hp_rule::{Detached, Task};
use hp_value::{Coupling, Veto};
use std::alloc::{AllocError, Global};

/// New tasks by where they run.
#[derive(Drop)]
pub(crate) struct Placed {
    /// Tasks that fire at once.
    pub(crate) immediate: Vec<Task>,
    /// Tasks for the deferred rounds.
    pub(crate) queued: Vec<Task>,
    /// Tasks for transactions of their own.
    pub(crate) detached: Vec<Detached>,
}

/// Divides new tasks by their coupling modes. The order within each kind stays.
#[inline(never)]
pub(crate) fn place_tasks(alloc: Global, tasks: Vec<Task>) -> Result<Placed, AllocError>
    ensures immediate { IfOk result (λ p. map task_of p.immediate.items
        ≡ filter (λ (t : ModelTask). is_immediate t.place) (map task_of tasks.items)) }
    ensures queued { IfOk result (λ p. map task_of p.queued.items ≡ deferred_of (map task_of tasks.items)) }
    ensures detached { IfOk result (λ p. map detached_of p.detached.items
        ≡ map unreleased (detached_tasks (map task_of tasks.items))) }
{
    if !are_immediate(&tasks) {
        return sort_tasks(alloc, tasks);
    }
    Ok(Placed {
        immediate: tasks,
        queued: Vec::new(alloc),
        detached: Vec::new(alloc),
    })
}

/// Divides new tasks, not all immediate, by their coupling modes.
fn sort_tasks(alloc: Global, tasks: Vec<Task>) -> Result<Placed, AllocError>
    ensures immediate { IfOk result (λ p. map task_of p.immediate.items
        ≡ filter (λ (t : ModelTask). is_immediate t.place) (map task_of tasks.items)) }
    ensures queued { IfOk result (λ p. map task_of p.queued.items ≡ deferred_of (map task_of tasks.items)) }
    ensures detached { IfOk result (λ p. map detached_of p.detached.items
        ≡ map unreleased (detached_tasks (map task_of tasks.items))) }
{
    let mut immediate = Vec::new(alloc);
    let mut queued = Vec::new(alloc);
    let mut detached = Vec::new(alloc);
    for task in tasks {
        match task.place {
            Coupling::Immediate => immediate.push(task)?,
            Coupling::Deferred => queued.push(task)?,
            Coupling::Separate | Coupling::Dependent | Coupling::Exclusive => {
                detached.push(Detached {
                    task,
                    released: false,
                })?
            }
        }
    }
    Ok(Placed {
        immediate,
        queued,
        detached,
    })
}

/// Whether all tasks fire at once, as most do.
fn are_immediate(tasks: &[Task]) -> bool
    ensures { result ≡ list_all (λ (t : ModelTask). is_immediate t.place) (map task_of tasks.now) }
{
    for task in tasks {
        if task.place != Coupling::Immediate {
            return false;
        }
    }
    true
}

/// The only task of a list, if it fires at once; otherwise the list, unchanged.
///
/// The list is freed, so that it holds no memory while its task fires.
pub(crate) fn single_immediate(mut tasks: Vec<Task>) -> Result<Task, Vec<Task>>
    ensures one { IfOk result (λ t. (tasks.items ≡ t ∷ [])
        × (list_all (λ (u : ModelTask). is_immediate u.place) (map task_of tasks.items) ≡ true)) }
    ensures others { IfErr result (λ ts. ts.items ≡ tasks.items) }
{
    if tasks.len() != 1 || !are_immediate(&tasks) {
        return Err(tasks);
    }
    match tasks.pop() {
        Some(task) => Ok(task),
        None => Err(tasks),
    }
}

/// A list of one task.
pub(crate) fn one_task(alloc: Global, task: Task) -> Result<Vec<Task>, AllocError>
    ensures { IfOk result (λ ts. ts.items ≡ task ∷ []) }
{
    let mut tasks = Vec::with_capacity(alloc, 1)?;
    tasks.push_reserved(task);
    Ok(tasks)
}

/// A group of firings as a part of the transaction around it. A veto that stopped the group aborts the transaction.
pub fn group_course(alloc: Global, group: GroupOutcome) -> Result<Course, AllocError>
    ensures { IfOk result (λ c. course_in c ≡ group_answer (group_in group)) }
{
    let mut course = Course::ended(alloc, End::Done);
    add_group(&mut course, group)?;
    Ok(course)
}

/// Adds a group of firings to the course of the transaction around it. A veto that stopped the group aborts the
/// transaction. After an error a part may have been added.
fn add_group(course: &mut Course, group: GroupOutcome) -> Result<(), AllocError>
    ensures { OnOk result (course_in course.new ≡ followed (course_in course.old) (group_answer (group_in group))) }
{
    course.end = stopped_by(group.end);
    for outcome in group.outcomes {
        add_firing(course, outcome)?;
    }
    Ok(())
}

/// Adds what a signal did to a course: the tasks that it queued and detached, and then its group. After an error a part
/// may have been added.
#[inline(never)]
pub(crate) fn add_placed(
    course: &mut Course,
    placed: Placed,
    group: GroupOutcome,
) -> Result<(), AllocError>
    ensures { let queued = map task_of placed.queued.items in let detached = map detached_of placed.detached.items in
        let before : Answer = record { end = done; queued = queued; detached = detached; items = no_items } in
        OnOk result (course_in course.new
        ≡ followed (course_in course.old) (followed before (group_answer (group_in group)))) }
{
    let Placed {
        immediate: _,
        queued,
        detached,
    } = placed;
    append(&mut course.queued, queued)?;
    append(&mut course.detached, detached)?;
    add_group(course, group)
}

/// Adds a firing to a course. After an error a part may have been added.
fn add_firing(course: &mut Course, outcome: Outcome) -> Result<(), AllocError>
    ensures { OnOk result (course_in course.new ≡ with_firings (course_in course.old) (firing outcome ∷ [])) }
{
    let Outcome {
        end: _,
        queued,
        detached,
        tree,
    } = outcome;
    append(&mut course.queued, queued)?;
    append(&mut course.detached, detached)?;
    append(&mut course.items, tree)?;
    Ok(())
}

/// The end of the transaction around a group that this veto stopped; `Done` if none did.
pub(crate) fn stopped_by(veto: Option<Veto>) -> End
    ensures { mapped.end result ≡ end_of (option_map veto_in veto) }
{
    match veto {
        None => End::Done,
        Some(veto) => End::Vetoed(veto),
    }
}
