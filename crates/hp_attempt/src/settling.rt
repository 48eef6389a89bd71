//! How an attempt is accepted.

ghost use Rattle.std.specs.Prelude.{◌≡◌, ◌↔◌, true, false, IsTrue, IsOk, IfOk, OnOk, OnErr};
ghost use Rattle.hp_model.specs.Rules.{Library};
ghost use Rattle.hp_model.specs.Cells.{Holds, part_read};
ghost use Rattle.hp_model.specs.Firing.{fire_task};
ghost use Rattle.hp_model.specs.Soundness.{IsSound};
ghost use Rattle.hp_model.specs.Answers.{FaithfulFiring};
ghost use Rattle.hp_model.proofs.BridgesCells.{stacked};
ghost use Rattle.hp_rule.specs.Mapped.{task as task_of};
ghost use Rattle.hp_store.specs.Changes.{changes};
ghost use Rattle.hp_view.specs.Mapped.{read, class_read, part_found, objects_found};
ghost use Rattle.hp_view.specs.Adding.{AddsReads, IsOfPart};
ghost use Rattle.hp_view.specs.Parts.{number_of};
ghost use Rattle.hp_view.specs.Seeing.{beneath, now_in, written, IsSame, OnlyReads, ReadsMore, GoesOn, Restores};
ghost use Rattle.hp_view.specs.Seeing.{number_was_read};
ghost use Rattle.hp_attempt.specs.Mapped.{firing, attempt as attempt_of};
ghost use Rattle.hp_attempt.specs.Fronts.{StandsFor};
ghost use Rattle.hp_attempt.specs.Holding.{IsFor, IsForAny, IsReadAgain, IsAccepted, Covers, bounds_keys};

use crate::holding::holds;
use crate::outcome::Attempt;
use hp_rule::Task;
use hp_value::ClassNo;
use hp_view::{Found, Reads, Seen, View};
use std::alloc::{AllocError, Global};

/// Whether an attempt was accepted.
#[derive(Clone, Copy, Debug, PartialEq, Eq)]
pub enum Settled {
    /// It was: the view is as if the task had fired on it.
    Accepted,
    /// It wasn't, since it is for another task, or since something that it read has changed.
    Rejected,
}

/// Takes in an attempt, if it is for this task and its reads hold in the view's cells. Else the view stays as it is.
///
/// What an accepted attempt read is then read by the view, and what it wrote is written over the view's writes, so that
/// the view is as if the task had fired on it.
///
/// A rejection allocates nothing. An error means that memory ran out as the attempt was accepted; the view is then as
/// before.
pub fn settle(
    alloc: Global,
    view: &mut View,
    task: &Task,
    attempt: &Attempt,
) -> Result<Settled, AllocError>
    ensures accepted { IfOk result (λ r.
        (r ≡ Settled.Accepted)
        ↔ ((task_of attempt.now.task ≡ task_of task.now) × Holds (now_in view.old) attempt.now.reads)) }
    ensures rejected { IfOk result (λ r. r ≡ Settled.Rejected → view.new ≡ view.old) }
    ensures spares { ((task_of attempt.now.task ≡ task_of task.now) × Holds (now_in view.old) attempt.now.reads → ⊥)
        → IsOk result }
    ensures faithful { IfOk result (λ r.
        r ≡ Settled.Accepted → (library : Library) → IsSound library (attempt_of attempt.now) →
        FaithfulFiring library (λ S. fire_task library S (task_of task.now)) view.new.reads (written view.old)
        (written view.new) (firing attempt.now.outcome)) }
    ensures for_states { let wanted = task_of task.now in
        IfOk result (λ r. r ≡ Settled.Accepted → StandsFor wanted attempt.now view.old view.new) }
    ensures takes { IfOk result (λ r.
        r ≡ Settled.Accepted → written view.new ≡ stacked (written view.old) (changes attempt.now.layer.value)) }
    ensures reads { IfOk result (λ r.
        r ≡ Settled.Accepted →
        AddsReads (IsForAny (written view.old) attempt.now.reads) view.old.reads view.new.reads) }
    ensures reads_held { IfOk result (λ r. r ≡ Settled.Accepted → Holds (beneath view.new) view.new.reads) }
    ensures goes_on { GoesOn view.old view.new }
    ensures unchanged { OnErr result (IsSame view.old view.new) }
    ensures err { OnErr result (Restores view.old view.new) }
{
    if !may_stand(attempt, view, task) {
        return Ok(Settled::Rejected);
    }
    let before = view.read_count();
    match take_in(alloc, view, attempt) {
        Ok(()) => Ok(Settled::Accepted),
        Err(refused) => {
            view.forget_reads(before);
            Err(refused)
        }
    }
}

// Takes in an attempt whose reads hold. An error means that memory ran out; some of what it read may have been
// recorded.
fn take_in(alloc: Global, view: &mut View, attempt: &Attempt) -> Result<(), AllocError>
    requires { Holds (now_in view.old) attempt.now.reads }
    ensures ok { OnOk result (IsAccepted view.old view.new attempt.now.reads attempt.now.layer.value) }
    ensures goes_on { GoesOn view.old view.new }
    ensures err { OnErr result (ReadsMore view.old view.new) }
{
    record(alloc, view, &attempt.reads)?;
    view.take_in(&attempt.layer)?;
    Ok(())
}

// Whether an attempt may stand for the firing of this task on the view. It allocates nothing.
fn may_stand(attempt: &Attempt, view: &View, task: &Task) -> bool
    ensures { IsTrue result
        ↔ ((task_of attempt.now.task ≡ task_of task.now) × Holds (now_in view.now) attempt.now.reads) }
{
    attempt.task == *task && holds(&attempt.reads, view)
}

// Reads what an attempt read, so that the attempt's reads hold under the view's writes wherever the view's reads hold.
fn record(alloc: Global, view: &mut View, reads: &Reads) -> Result<(), AllocError>
    requires { Holds (now_in view.old) reads.now }
    ensures reads { AddsReads (IsForAny (written view.old) reads.now) view.old.reads view.new.reads }
    ensures only { OnlyReads view.old view.new }
    ensures goes_on { GoesOn view.old view.new }
    ensures covers { OnOk result (Covers view.new reads.now) }
{
    for (seen, found) in reads.iter() {
        read_again(alloc, view, seen, found)?;
    }
    Ok(())
}

// Reads what was read there, in the same way.
fn read_again(alloc: Global, view: &mut View, seen: &Seen, found: &Found) -> Result<(), AllocError>
    ensures reads { AddsReads (IsFor (written view.old) (read (seen.now, found.now))) view.old.reads view.new.reads }
    ensures only { OnlyReads view.old view.new }
    ensures goes_on { GoesOn view.old view.new }
    ensures again { OnOk result (IsReadAgain view.old view.new (read (seen.now, found.now))) }
{
    match seen {
        Seen::Cell(cell) => view.read(*cell),
        Seen::Keys(class) => read_class_again(alloc, view, *class, found),
        Seen::Greatest(class) => view.read_greatest_key(alloc, *class),
        Seen::Count(class) => view.read_class_count(alloc, *class),
        Seen::Part(class, _) => read_part_again(alloc, view, *class, found),
    }
}

// Reads a class again: with the rows of its objects, where they were read with it.
fn read_class_again(
    alloc: Global,
    view: &mut View,
    class: ClassNo,
    found: &Found,
) -> Result<(), AllocError>
    ensures reads { AddsReads (IsFor (written view.old) (class_read class found.now)) view.old.reads view.new.reads }
    ensures only { OnlyReads view.old view.new }
    ensures goes_on { GoesOn view.old view.new }
    ensures again { OnOk result (IsReadAgain view.old view.new (class_read class found.now)) }
{
    match found {
        Found::Objects(_) => view.read_objects(alloc, class),
        Found::Keys(_) => view.read_keys(alloc, class),
        Found::Value(_) => view.read_keys(alloc, class),
        Found::Greatest(_) => view.read_keys(alloc, class),
        Found::Count(_) => view.read_keys(alloc, class),
        Found::Part(_) => view.read_keys(alloc, class),
    }
}

// Reads a part of a class again. Where the view can't read the part alone, it reads all of the class.
fn read_part_again(
    alloc: Global,
    view: &mut View,
    class: ClassNo,
    found: &Found,
) -> Result<(), AllocError>
    ensures reads { AddsReads
        (IsFor (written view.old)
        (part_read class (part_found found.now) (objects_found found.now))) view.old.reads view.new.reads }
    ensures only { OnlyReads view.old view.new }
    ensures goes_on { GoesOn view.old view.new }
    ensures again { OnOk result (
        IsReadAgain view.old view.new (part_read class (part_found found.now) (objects_found found.now))) }
    ensures alone { bounds_keys (part_found found.now) ≡ true →
        number_was_read view.old.reads class (number_of (part_found found.now)) ≡ false →
        AddsReads (IsOfPart class (part_found found.now)) view.old.reads view.new.reads }
{
    if view.read_part(alloc, class, &found.part())? {
        return Ok(());
    }
    view.read_objects(alloc, class)
}
