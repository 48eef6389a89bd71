//! How the front of a row of attempts is accepted.

ghost use Rattle.std.specs.Prelude.{◌≡◌, ℕ, not, IfOk, IfSome, IfNone, OnErr, map, drop, length};
ghost use Rattle.hp_model.proofs.FaithfulFirings.{goes_on};
ghost use Rattle.hp_rule.specs.Mapped.{task as task_of};
ghost use Rattle.hp_view.specs.Seeing.{now_in, GoesOn, IsSame};
ghost use Rattle.hp_attempt.specs.Mapped.{veto_in};
ghost use Rattle.hp_attempt.specs.Fronts.{stopped_by, IsLongest, FrontIs, FrontIsFor};
ghost use Rattle.hp_attempt.specs.Fronts.{TakesSome, AreOutcomes, TakesFirst, LeavesFirst};

use crate::outcome::{Attempt, Outcome};
use crate::settling::{Settled, settle};
use hp_rule::Task;
use hp_view::View;
use std::alloc::{AllocError, Global};
use std::collections::VecDeque;

/// Takes in attempts at tasks that are siblings, from the first on: up to a task that has none, or whose attempt
/// `settle` rejects, or past one that ended with a veto where `stop_at_veto` is set.
///
/// `attempts` has a place for each task, in the same order; extra entries of the longer list are
/// ignored. The answer is the outcomes of the accepted attempts, and the places that are left, as they were: a
/// rejected attempt stays in its place.
///
/// An error means that memory ran out. Some of the front's first attempts have then been accepted, and nothing else.
pub fn settle_front(
    alloc: Global,
    view: &mut View,
    tasks: &[Task],
    mut attempts: VecDeque<Option<Attempt>>,
    stop_at_veto: bool,
) -> Result<(Vec<Outcome>, VecDeque<Option<Attempt>>), AllocError>
    ensures left { IfOk result (λ r. r.1.items ≡ drop (length r.0.items) attempts.items) }
    ensures longest { IfOk result (λ r.
        IsLongest (stopped_by stop_at_veto r.0.items) (now_in view.new)
        (drop (length r.0.items) (map task_of tasks.now)) r.1.items) }
    ensures front { IfOk result (λ r.
        FrontIs stop_at_veto (map task_of tasks.now) attempts.items r.0.items view.old view.new) }
    ensures for_states { let all = map task_of tasks.now in
        IfOk result (λ r. FrontIsFor stop_at_veto all attempts.items r.0.items view.old view.new) }
    ensures taken { IfOk result (λ r. TakesSome (length r.0.items) attempts.items view.old view.new) }
    ensures outcomes { IfOk result (λ r. AreOutcomes r.0.items attempts.items) }
    ensures goes_on { GoesOn view.old view.new }
    ensures err { OnErr result ((n : ℕ) × TakesSome n attempts.items view.old view.new) }
{
    let mut outcomes = Vec::new(alloc);
    for task in tasks {
        let Some(outcome) = settle_first(alloc, view, task, &mut attempts)? else {
            return Ok((outcomes, attempts));
        };
        let stops = stops_at(&outcome, stop_at_veto);
        outcomes.push(outcome)?;
        if stops {
            return Ok((outcomes, attempts));
        }
    }
    Ok((outcomes, attempts))
}

// Whether no sibling follows this outcome.
fn stops_at(outcome: &Outcome, stop_at_veto: bool) -> bool
    ensures { result ≡ not (goes_on stop_at_veto (veto_in outcome.now)) }
{
    stop_at_veto && outcome.end.is_some()
}

// Takes in the first attempt, if it may stand for the firing of this task, and gives its outcome. Else it stays.
fn settle_first(
    alloc: Global,
    view: &mut View,
    task: &Task,
    attempts: &mut VecDeque<Option<Attempt>>,
) -> Result<Option<Outcome>, AllocError>
    ensures taken { IfOk result (λ taken. IfSome taken (λ outcome.
        TakesFirst (task_of task.now) view.old view.new attempts.old.items attempts.new.items outcome)) }
    ensures left { IfOk result (λ taken. IfNone taken (
        LeavesFirst (task_of task.now) view.old view.new attempts.old.items attempts.new.items)) }
    ensures goes_on { GoesOn view.old view.new }
    ensures err { OnErr result (IsSame view.old view.new) }
{
    let Some(Some(attempt)) = attempts.front() else {
        return Ok(None);
    };
    match settle(alloc, view, task, attempt)? {
        Settled::Accepted => {}
        Settled::Rejected => return Ok(None),
    }
    let Some(Some(attempt)) = attempts.pop_front() else {
        unreachable!();
    };
    Ok(Some(attempt.outcome))
}
