//! Tasks.

ghost use Rattle.std.specs.Prelude.{◌≡◌};
ghost use Rattle.hp_value.specs.Mapped as mapped;
ghost use Rattle.hp_value.specs.Same.{occurrence_same};
ghost use Rattle.hp_query.specs.Mapped.{findings};
ghost use Rattle.hp_query.specs.Same.{findings_same};

use hp_query::Findings;
use hp_value::{Coupling, Occurrence, RuleNo};
use std::alloc::AllocError;
use std::sync::Arc;

/// The part of a rule that a task runs.
#[derive(Debug, Drop)]
pub enum Step {
    /// The condition.
    Condition,
    /// The action, with what the condition found.
    Action(Arc<Findings>),
}

/// A condition or an action of a rule that is to run. A clone shares the occurrence and the findings.
#[derive(Debug, Drop)]
pub struct Task {
    /// The rule.
    pub rule: RuleNo,
    /// The part that runs.
    pub step: Step,
    /// The coupling mode that placed the task. It determines the transaction in which the task runs.
    pub place: Coupling,
    /// The number of firings from the body of a script or a moment down to the task, each triggered by the one above
    /// it. It is at most the library's depth limit.
    pub depth: u8,
    /// The clock's moment while its unit runs.
    pub time: u64,
    /// The occurrence of the rule's event. A condition and its later action share it.
    pub occurrence: Arc<Occurrence>,
}

/// A task that runs as a top-level transaction of its own, after the one that detached it.
#[derive(Debug, Drop)]
pub struct Detached {
    /// The task.
    pub task: Task,
    /// Whether a transaction around it has aborted since. An exclusive task runs only if one has.
    pub released: bool,
}

impl PartialEq for Step {
    ghost use Rattle.std.specs.Ordering.{on};
    ghost use Rattle.std.specs.Cmp.{on_equiv, partial_equiv_from_equiv};
    ghost use Rattle.hp_rule.specs.Mapped.{step};
    ghost use Rattle.hp_rule.specs.SameTasks.{step_same, step_equiv};

    ghost eq = { on step step_same };

    ghost laws = { partial_equiv_from_equiv (on_equiv step step_equiv) };

    fn eq(&self, other: &Step) -> bool {
        match (self, other) {
            (Step::Condition, Step::Condition) => true,
            (Step::Action(found), Step::Action(others)) => are_same(found, others),
            _ => false,
        }
    }
}

/// Whether findings are equal.
fn are_same(found: &Arc<Findings>, others: &Arc<Findings>) -> bool
    ensures { result ≡ findings_same (findings found.now.value) (findings others.now.value) }
{
    let found: &Findings = found;
    let others: &Findings = others;
    found == others
}

impl PartialEq for Task {
    ghost use Rattle.std.specs.Ordering.{on};
    ghost use Rattle.std.specs.Cmp.{on_equiv, partial_equiv_from_equiv};
    ghost use Rattle.hp_rule.specs.Mapped.{task};
    ghost use Rattle.hp_rule.specs.SameTasks.{task_same, task_equiv};

    ghost eq = { on task task_same };

    ghost laws = { partial_equiv_from_equiv (on_equiv task task_equiv) };

    /// Whether two tasks are equal. It allocates nothing.
    fn eq(&self, other: &Task) -> bool {
        self.rule == other.rule
            && self.step == other.step
            && self.place == other.place
            && self.depth == other.depth
            && self.time == other.time
            && is_same(&self.occurrence, &other.occurrence)
    }
}

/// Whether occurrences are equal.
fn is_same(occurrence: &Arc<Occurrence>, other: &Arc<Occurrence>) -> bool
    ensures { result ≡ occurrence_same (mapped.occurrence occurrence.now.value) (mapped.occurrence other.now.value) }
{
    let occurrence: &Occurrence = occurrence;
    let other: &Occurrence = other;
    occurrence == other
}

impl Clone for Task {
    ghost use Rattle.std.specs.Prelude.{◌≡◌};
    ghost use Rattle.hp_rule.specs.Mapped.{task};

    ghost is_clone = { λ t u. task u ≡ task t };

    /// A clone, which shares the occurrence and the findings.
    ///
    /// An error means that an `Arc` could not be cloned.
    fn clone(&self) -> Result<Task, AllocError> {
        let step = match &self.step {
            Step::Condition => Step::Condition,
            Step::Action(found) => Step::Action(Arc::try_clone(found)?),
        };
        Ok(Task {
            rule: self.rule,
            step,
            place: self.place,
            depth: self.depth,
            time: self.time,
            occurrence: Arc::try_clone(&self.occurrence)?,
        })
    }
}
