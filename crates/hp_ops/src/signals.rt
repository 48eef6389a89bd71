//! Signals, and the statement that fires a rule.

ghost use Rattle.std.specs.Prelude.{◌≡◌, IfOk};
ghost use Rattle.hp_model.specs.Cells.{rule_cell};
ghost use Rattle.hp_model.specs.Occurrences.{no_occurrence};
ghost use Rattle.hp_value.specs.Mapped.{occurrence as occurrence_of, primitive};
ghost use Rattle.hp_rule.specs.Mapped.{library};
ghost use Rattle.hp_view.specs.Adding.{AddsReads};
ghost use Rattle.hp_view.specs.Seeing.{GoesOn, OnlyReads};
ghost use Rattle.hp_ops.specs.Reading.{IsReadOf, IsReadOfMentioned};
ghost use Rattle.hp_ops.specs.Triggers.{Triggers, Fires};

use crate::finding::find_status;
use crate::notifying::{new_task, notify_all};
use hp_rule::{Library, Task};
use hp_value::{Cause, Halt, Occurrence, Prim, RuleNo};
use hp_view::View;
use smallvec::SmallVec;
use std::alloc::{AllocError, Global};
use std::sync::Arc;

/// Signals an occurrence in a transaction of depth `depth`, at the moment `time` of the clock: steps the detectors of
/// the enabled rules that it concerns. The answer is the tasks of those whose event occurs, in rule order.
///
/// Nothing is read but the statuses and detectors of rules whose event has a pattern that matches the occurrence.
///
/// `Depth` means that a rule is triggered whose firing would exceed the depth limit. `Memory` means that memory ran
/// out: nothing is then written, and no detector is stepped.
pub fn trigger(
    alloc: Global,
    view: &mut View,
    lib: &Library,
    prim: &Prim,
    depth: u8,
    time: u64,
) -> Result<Vec<Task>, Halt>
    ensures triggers { Triggers (library lib.now) time depth (primitive prim.now) view.old view.new result }
    ensures reads { AddsReads (IsReadOfMentioned (library lib.now) (primitive prim.now))
        view.old.reads view.new.reads }
    ensures goes_on { GoesOn view.old view.new }
{
    let tasks = notify_all(alloc, view, lib, prim, depth.saturating_add(1), time)?;
    if tasks.is_empty() {
        return Ok(tasks);
    }
    if depth >= lib.depth_limit() {
        return Err(Halt::Cause(Cause::Depth));
    }
    Ok(tasks)
}

/// The task of a rule that the statement `fire` names, in a transaction of depth `depth`, at the moment `time` of the
/// clock. No event has occurred.
///
/// `Missing` means that the rule is absent, `Depth` that its firing would exceed the depth limit; `Missing` comes
/// first. Nothing is written, and only the rule's status is read.
pub fn fire(
    alloc: Global,
    view: &mut View,
    lib: &Library,
    rule: RuleNo,
    depth: u8,
    time: u64,
) -> Result<Task, Halt>
    ensures fires { Fires (library lib.now) time depth rule view.new result }
    ensures reads { AddsReads (IsReadOf (rule_cell rule)) view.old.reads view.new.reads }
    ensures only { OnlyReads view.old view.new }
    ensures goes_on { GoesOn view.old view.new }
{
    let status = find_status(view, rule)?;
    let Some(known) = lib.rule(rule) else {
        return Err(Halt::Cause(Cause::Missing));
    };
    if status.is_none() {
        return Err(Halt::Cause(Cause::Missing));
    }
    if depth >= lib.depth_limit() {
        return Err(Halt::Cause(Cause::Depth));
    }
    let occurrence = nothing(alloc)?;
    Ok(new_task(rule, known.ec, depth + 1, time, occurrence))
}

/// The occurrence without parts, of a rule that the statement `fire` names.
fn nothing(alloc: Global) -> Result<Arc<Occurrence>, AllocError>
    ensures { IfOk result (λ o. occurrence_of o.value ≡ no_occurrence) }
{
    let occurrence = Occurrence {
        parts: SmallVec::new(alloc),
        count: 0,
    };
    let occurrence = Arc::new(alloc, occurrence)?;
    Ok(occurrence)
}
