//! The part of a firing before its action runs.

ghost use Rattle.std.specs.Prelude.{◌≡◌, ◌≤◌, IfOk, OnOk, map, option_map, [], ◌∷◌};
ghost use Rattle.hp_model.specs.Rules.{rule_at};
ghost use Rattle.hp_model.specs.Conditions.{satisfied};
ghost use Rattle.hp_model.specs.Tree.{condition_step, fire_node, with_later_action};
ghost use Rattle.hp_model.specs.Firing.{action_task};
ghost use Rattle.hp_model.specs.Answers as answers;
ghost use Rattle.hp_model.specs.Answers.{followed};
ghost use Rattle.hp_value.specs.Mapped.{coupling, veto as veto_in};
ghost use Rattle.hp_query.specs.Mapped.{entry, findings as findings_in, verdict as verdict_of};
ghost use Rattle.hp_rule.specs.declared.stmt.Stmt.{size-Stmt};
ghost use Rattle.hp_rule.specs.Mapped.{body_in, library, task as task_of};
ghost use Rattle.hp_tree.specs.Mapped.{what as what_of, condition as condition_end};
ghost use Rattle.hp_fire.specs.Mapped.{course as course_in};
ghost use Rattle.hp_fire.specs.Joined.{alone};
ghost use Rattle.hp_fire.specs.Decides.{Decides, FindsVerdict, Follows, found_in, standing_in};
ghost use Rattle.hp_fire.specs.Weights.{deepest};
ghost use denote.Param.Weighed.{most};

use crate::closing::node_of;
use crate::counting::Counting;
use crate::course::{Course, End, append};
use crate::engine::Engine;
use crate::placing::{one_task, place_tasks, stopped_by};
use crate::vetoes::fault_veto;
use hp_query::{Entry, Findings, Verdict, evaluate_condition};
use hp_rule::{Detached, Library, Step, Stmt, Task};
use hp_tree::{ConditionEnd, What};
use hp_value::{Coupling, RuleNo, Veto};
use hp_view::View;
use std::alloc::{AllocError, Global};
use std::sync::Arc;

/// A firing that is over and has changed nothing.
#[derive(Drop)]
pub(crate) struct Standing {
    /// Its node, which has no items.
    pub(crate) what: What,
    /// Its veto, if it vetoes.
    pub(crate) veto: Option<Veto>,
    /// The task of its action, if that is queued for the deferred rounds.
    pub(crate) queued: Vec<Task>,
    /// The task of its action, if that is detached.
    pub(crate) detached: Vec<Detached>,
}

/// What remains of a task's firing.
#[derive(Drop)]
pub(crate) enum Decision {
    /// Nothing: the firing is over.
    Over(Standing),
    /// The action runs, as this node, with what the condition found.
    Acts(What, Found),
}

/// What a satisfied condition found.
#[derive(Drop)]
pub(crate) enum Found {
    /// It belongs to the firing alone.
    Own(Findings),
    /// The task of a later action shares it.
    Shared(Arc<Findings>),
}

impl Found {
    /// The findings.
    pub(crate) fn findings(&self) -> &Findings
        ensures { result.now ≡ found_in self.now }
    {
        match self {
            Found::Own(findings) => findings,
            Found::Shared(findings) => findings,
        }
    }
}

impl<W> Engine<'_, W> {
    /// Begins the firing of a task: evaluates a condition, and if it is satisfied, runs its action at once or places
    /// it.
    pub(crate) fn decide(&self, view: &mut View, task: &Task) -> Result<Decision, AllocError>
        ensures { IfOk result (λ d. Decides (library self.now.lib.now) (task_of task.now) view.old view.new d) }
    {
        match &task.step {
            Step::Condition => self.decide_condition(view, task),
            Step::Action(findings) => {
                let what = What::Act {
                    rule: task.rule,
                    place: task.place,
                };
                let findings = Arc::try_clone(findings)?;
                Ok(Decision::Acts(what, Found::Shared(findings)))
            }
        }
    }

    /// Begins the firing of a condition.
    fn decide_condition(&self, view: &mut View, task: &Task) -> Result<Decision, AllocError>
        requires { (task_of task.now).step ≡ condition_step }
        ensures { IfOk result (λ d. Decides (library self.now.lib.now) (task_of task.now) view.old view.new d) }
    {
        let verdict = self.condition_verdict(view, task)?;
        self.follow(task, verdict)
    }

    /// The verdict on the condition of a task's rule.
    fn condition_verdict(&self, view: &mut View, task: &Task) -> Result<Verdict, AllocError>
        ensures { let t = task_of task.now in
            IfOk result (λ v. FindsVerdict (library self.now.lib.now) t view.old view.new (verdict_of v)) }
    {
        let entries = condition_of(self.lib, task.rule);
        let mut look = Counting::new(view);
        let verdict = evaluate_condition(
            self.alloc,
            entries,
            &task.occurrence,
            task.time,
            &mut look,
        )?;
        look.add_condition(entries, self.effort);
        Ok(verdict)
    }

    /// What follows from a verdict.
    fn follow(&self, task: &Task, verdict: Verdict) -> Result<Decision, AllocError>
        ensures { IfOk result (Follows (library self.now.lib.now) (task_of task.now) (verdict_of verdict)) }
    {
        match verdict {
            Verdict::Satisfied(found) => self.follow_satisfied(task, found),
            Verdict::Unsatisfied => {
                let what = node_for(task, ConditionEnd::WithoutAction);
                Ok(Decision::Over(without_effects(self.alloc, what, None)))
            }
            Verdict::Faulty(cause) => {
                let what = node_for(task, ConditionEnd::WithFault(cause));
                let veto = fault_veto(self.alloc, self.lib, task.rule)?;
                Ok(Decision::Over(without_effects(self.alloc, what, veto)))
            }
        }
    }

    /// What follows from a satisfied condition: its action at once, or a task for its action.
    fn follow_satisfied(&self, task: &Task, found: Findings) -> Result<Decision, AllocError>
        ensures { let satisfied = satisfied (findings_in found) in
            IfOk result (Follows (library self.now.lib.now) (task_of task.now) satisfied) }
    {
        match action_coupling(self.lib, task.rule) {
            Coupling::Immediate => {
                let what = node_for(task, ConditionEnd::WithAction);
                Ok(Decision::Acts(what, Found::Own(found)))
            }
            place => {
                let over = later(self.alloc, task, place, found)?;
                Ok(Decision::Over(over))
            }
        }
    }
}

/// The node of a condition's firing.
fn node_for(task: &Task, condition: ConditionEnd) -> What
    ensures { what_of result ≡ fire_node task.now.rule (coupling task.now.place) (condition_end condition) }
{
    What::Fire {
        rule: task.rule,
        place: task.place,
        condition,
    }
}

/// A firing that only has its node, and perhaps a veto.
fn without_effects(alloc: Global, what: What, veto: Option<Veto>) -> Standing
    ensures { standing_in result ≡ answers.standing (what_of what) (option_map veto_in veto) }
{
    Standing {
        what,
        veto,
        queued: Vec::new(alloc),
        detached: Vec::new(alloc),
    }
}

/// The firing of a satisfied condition whose action is queued or detached.
#[inline(never)]
fn later(
    alloc: Global,
    task: &Task,
    place: Coupling,
    found: Findings,
) -> Result<Standing, AllocError>
    ensures { let node = fire_node task.now.rule (coupling task.now.place) with_later_action in
        let action = action_task (coupling place) (task_of task.now) (findings_in found) in
        IfOk result (λ s. standing_in s ≡ answers.handing_on node (action ∷ [])) }
{
    let findings = Arc::new(alloc, found)?;
    let occurrence = Arc::try_clone(&task.occurrence)?;
    let action = Task {
        rule: task.rule,
        step: Step::Action(findings),
        place,
        depth: task.depth,
        time: task.time,
        occurrence,
    };
    let placed = place_tasks(alloc, one_task(alloc, action)?)?;
    Ok(Standing {
        what: node_for(task, ConditionEnd::WithLaterAction),
        veto: None,
        queued: placed.queued,
        detached: placed.detached,
    })
}

/// Adds a firing that is over to the course of the transaction around it. Its veto aborts the transaction. After an
/// error a part may have been added.
#[inline(never)]
pub(crate) fn add_standing(
    alloc: Global,
    course: &mut Course,
    over: Standing,
) -> Result<(), AllocError>
    ensures { OnOk result (course_in course.new ≡ followed (course_in course.old) (alone (standing_in over))) }
{
    let Standing {
        what,
        veto,
        queued,
        detached,
    } = over;
    append(&mut course.queued, queued)?;
    append(&mut course.detached, detached)?;
    course.end = stopped_by(veto);
    course.put(node_of(what, End::Done, Vec::new(alloc)))
}

/// The entries of a rule's condition. A rule that the library lacks has none.
fn condition_of(lib: &Library, rule: RuleNo) -> &[Entry]
    ensures { map entry result.now ≡ (rule_at (library lib.now) rule).condition }
{
    match lib.rule(rule) {
        Some(rule) => &rule.condition,
        None => &[],
    }
}

/// The coupling mode of a rule's action. For a rule that the library lacks it is immediate.
fn action_coupling(lib: &Library, rule: RuleNo) -> Coupling
    ensures { coupling result ≡ (rule_at (library lib.now) rule).action_coupling }
{
    match lib.rule(rule) {
        Some(rule) => rule.ca,
        None => Coupling::Immediate,
    }
}

/// The action of a rule. For a rule that the library lacks it is empty.
pub(crate) fn action_of(lib: &Library, rule: RuleNo) -> &[Stmt]
    ensures action { body_in result.now ≡ (rule_at (library lib.now) rule).action }
    ensures depth { most size-Stmt result.now ≤ deepest lib.now }
{
    match lib.rule(rule) {
        Some(rule) => &rule.action,
        None => &[],
    }
}
