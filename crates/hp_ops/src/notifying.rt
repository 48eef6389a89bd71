//! Notifies rules of an occurrence.

ghost use Rattle.std.specs.Prelude.{◌≡◌, ◌↔◌, ◌∷◌, ◌++◌, true, Some, IsTrue, IfOk, OnOk, OnErr};
ghost use Rattle.std.specs.Prelude.{map, option_map, option_to_list};
ghost use Rattle.hp_model.specs.Cells.{detector_cell};
ghost use Rattle.hp_model.specs.Events.{is_pure as model_is_pure, occurrence_of as model_occurrence};
ghost use Rattle.hp_model.specs.Occurrences.{History};
ghost use Rattle.hp_model.specs.Rules.{Library as ModelLibrary, rule_at};
ghost use Rattle.hp_model.specs.State.{enabled};
ghost use Rattle.hp_model.proofs.FaithfulFirings.{AreAt};
ghost use Rattle.hp_value.specs.Mapped.{coupling as coupling_of, occurrence as occurrence_of, primitive};
ghost use Rattle.hp_detect.specs.Mapped.{event as event_of};
ghost use Rattle.hp_store.specs.Mapped.{cell_value};
ghost use Rattle.hp_rule.specs.declared.task.Task.{Task as AnyTask};
ghost use Rattle.hp_rule.specs.Mapped.{library, rule as rule_of, task as task_of};
ghost use Rattle.hp_view.specs.Adding.{AddsReads};
ghost use Rattle.hp_view.specs.Seeing.{GoesOn, OnlyReads, ReadsMore};
ghost use Rattle.hp_ops.specs.Performs.{status_of};
ghost use Rattle.hp_ops.specs.Reading.{IsReadOf, IsReadOfRule, IsReadOfMentioned};
ghost use Rattle.hp_ops.specs.Notified.{AllNotified, GoesOnePlace, Notified, NotifiedEnabled};
ghost use Rattle.hp_ops.specs.Notified.{OnlySteps, Shares, StepsOn, condition_task};

use crate::finding::find_status;
use crate::steps::DetectorSteps;
use hp_detect::{EventExpr, Knowledge, is_pure, occurs_now};
use hp_rule::{Library, Rule, Step, Task};
use hp_store::{CellValue, Status};
use hp_value::{Cell, Coupling, Occurrence, Prim, RuleNo};
use hp_view::View;
use std::alloc::{AllocError, Global};
use std::sync::Arc;

/// What rules are notified of: an occurrence, and the depth and the moment of the firings that it causes.
#[derive(Clone, Copy)]
struct Notice<'a> {
    prim: &'a Prim,
    depth: u8,
    time: u64,
}

/// What a rule makes of an occurrence: its task, if it is enabled and its event occurs, and what its detector knows
/// next, if it is stepped.
struct Heard {
    task: Option<Task>,
    next: Option<Knowledge>,
}

/// Notifies all rules that an occurrence concerns, at the moment `time` of the clock. The answer is the tasks, of depth
/// `depth`, of the enabled rules whose event occurs, in rule order.
///
/// Nothing is written but detectors. They are written last and all at once, so that after an error nothing is written.
pub(crate) fn notify_all(
    alloc: Global,
    view: &mut View,
    lib: &Library,
    prim: &Prim,
    depth: u8,
    time: u64,
) -> Result<Vec<Task>, AllocError>
    ensures heard { IfOk result (λ tasks.
        AllNotified (library lib.now) time (primitive prim.now) view.old view.new (map task_of tasks.items)) }
    ensures depth { IfOk result (λ tasks. AreAt depth (map task_of tasks.items)) }
    ensures writes { OnlySteps view.old view.new }
    ensures err { OnErr result (ReadsMore view.old view.new) }
    ensures reads { AddsReads (IsReadOfMentioned (library lib.now) (primitive prim.now))
        view.old.reads view.new.reads }
    ensures goes_on { GoesOn view.old view.new }
{
    let notice = Notice { prim, depth, time };
    let mut tasks = Vec::new(alloc);
    let mut steps = DetectorSteps::Nothing;
    let mut shared = None;
    for number in lib.listed(prim) {
        if !lib.is_mentioned(*number, prim) {
            continue;
        }
        let Heard { task, next } = notify(alloc, view, lib, *number, &notice, &mut shared)?;
        steps = steps.and(alloc, *number, next)?;
        add(&mut tasks, task)?;
    }
    steps.write(view)?;
    Ok(tasks)
}

/// Appends a task, if there is one. The first one reserves space for itself alone, since there is mostly one.
fn add(tasks: &mut Vec<Task>, task: Option<Task>) -> Result<(), AllocError>
    ensures { OnOk result (tasks.new.items ≡ tasks.old.items ++ option_to_list task) }
{
    let Some(task) = task else {
        return Ok(());
    };
    if tasks.is_empty() {
        tasks.reserve_exact(1)?;
    }
    tasks.push(task)?;
    Ok(())
}

/// Notifies a rule. The answer is its task, of the notice's depth, if the rule is enabled and its event occurs, and the
/// step of its detector, which isn't written.
///
/// Rules whose events don't look back share one occurrence, which is made for the first of them.
fn notify(
    alloc: Global,
    view: &mut View,
    lib: &Library,
    number: RuleNo,
    notice: &Notice<'_>,
    shared: &mut Option<Arc<Occurrence>>,
) -> Result<Heard, AllocError>
    requires shared { Shares (primitive notice.now.prim.now) (option_map (λ o. occurrence_of o.value) shared.old) }
    ensures shared { Shares (primitive notice.now.prim.now) (option_map (λ o. occurrence_of o.value) shared.new) }
    ensures notified { IfOk result (λ heard.
        Notified (library lib.now) notice.now.time (primitive notice.now.prim.now) number view.old view.new
        (option_map task_of heard.task) heard.next) }
    ensures depth { IfOk result (λ heard. (t : AnyTask) → heard.task ≡ Some t → t.depth ≡ notice.now.depth) }
    ensures reads { AddsReads (IsReadOfRule number) view.old.reads view.new.reads }
    ensures only { OnlyReads view.old view.new }
    ensures goes_on { GoesOn view.old view.new }
{
    let status = find_status(view, number)?;
    if !is_enabled(status) {
        return Ok(Heard {
            task: None,
            next: None,
        });
    }
    let Some(rule) = lib.rule(number) else {
        return Ok(Heard {
            task: None,
            next: None,
        });
    };
    let (made, next) = notify_enabled(alloc, view, number, rule, notice.prim, shared)?;
    let Some(occurrence) = made else {
        return Ok(Heard { task: None, next });
    };
    let task = new_task(number, rule.ec, notice.depth, notice.time, occurrence);
    Ok(Heard {
        task: Some(task),
        next,
    })
}

fn is_enabled(status: Option<Status>) -> bool
    ensures { IsTrue result ↔ (status_of status ≡ enabled) }
{
    matches!(status, Some(Status::Enabled))
}

/// Notifies an enabled rule of an occurrence. The answer is the occurrence of the rule's event, if it occurs, and what
/// its detector knows next, if the event looks back.
fn notify_enabled(
    alloc: Global,
    view: &mut View,
    number: RuleNo,
    rule: &Rule,
    prim: &Prim,
    shared: &mut Option<Arc<Occurrence>>,
) -> Result<(Option<Arc<Occurrence>>, Option<Knowledge>), AllocError>
    requires shared { Shares (primitive prim.now) (option_map (λ o. occurrence_of o.value) shared.old) }
    ensures shared { Shares (primitive prim.now) (option_map (λ o. occurrence_of o.value) shared.new) }
    ensures notified { IfOk result (λ r. (lib : ModelLibrary) →
        rule_at lib number ≡ rule_of rule.now →
        NotifiedEnabled lib (primitive prim.now) number view.old view.new
        (option_map (λ a. occurrence_of a.value) r.0) r.1) }
    ensures reads { AddsReads (IsReadOf (detector_cell number)) view.old.reads view.new.reads }
    ensures only { OnlyReads view.old view.new }
    ensures goes_on { GoesOn view.old view.new }
{
    if is_pure(&rule.event) {
        let occurrence = share(alloc, &rule.event, prim, shared)?;
        return Ok((occurrence, None));
    }
    let (occurrence, next) = step_detector(alloc, view, number, &rule.event, prim)?;
    Ok((occurrence, Some(next)))
}

/// The occurrence of an event that doesn't look back, if it occurs: the shared one, which is made here if it is the
/// first.
fn share(
    alloc: Global,
    event: &EventExpr,
    prim: &Prim,
    shared: &mut Option<Arc<Occurrence>>,
) -> Result<Option<Arc<Occurrence>>, AllocError>
    requires pure { model_is_pure (event_of event.now) ≡ true }
    requires shared { Shares (primitive prim.now) (option_map (λ o. occurrence_of o.value) shared.old) }
    ensures shared { Shares (primitive prim.now) (option_map (λ o. occurrence_of o.value) shared.new) }
    ensures occurs { IfOk result (λ o. (past : History) →
        option_map (λ a. occurrence_of a.value) o ≡ model_occurrence (event_of event.now) (primitive prim.now ∷ past)) }
{
    if !event.mentions(prim) {
        return Ok(None);
    }
    if let Some(known) = shared {
        return Ok(Some(Arc::try_clone(known)?));
    }
    let now = occurs_now(alloc, event, prim)?;
    let Some(occurrence) = now else {
        return Ok(None);
    };
    let made = Arc::new(alloc, occurrence)?;
    *shared = Some(Arc::try_clone(&made)?);
    Ok(Some(made))
}

/// Steps a rule's detector. The answer is the occurrence of its event, if it occurs, and what the detector knows next.
///
/// The detector's cell is read, and not written.
// Inlined, its temporaries would be cleared for each event that doesn't look back, too.
#[inline(never)]
fn step_detector(
    alloc: Global,
    view: &mut View,
    number: RuleNo,
    event: &EventExpr,
    prim: &Prim,
) -> Result<(Option<Arc<Occurrence>>, Knowledge), AllocError>
    ensures steps { IfOk result (λ r.
        StepsOn (event_of event.now) (primitive prim.now) number view.new
        (option_map (λ a. occurrence_of a.value) r.0) r.1) }
    ensures reads { AddsReads (IsReadOf (detector_cell number)) view.old.reads view.new.reads }
    ensures only { OnlyReads view.old view.new }
    ensures goes_on { GoesOn view.old view.new }
{
    view.read(Cell::Detector(number))?;
    let known = view.peek(Cell::Detector(number));
    let (occurrence, next) = stepped(alloc, known, event, prim)?;
    let made = to_share(alloc, occurrence)?;
    Ok((made, next))
}

/// Puts an occurrence, if there is one, into an `Arc` for tasks to share.
fn to_share(
    alloc: Global,
    occurrence: Option<Occurrence>,
) -> Result<Option<Arc<Occurrence>>, AllocError>
    ensures { IfOk result (λ o. option_map (λ a. occurrence_of a.value) o ≡ option_map occurrence_of occurrence) }
{
    match occurrence {
        Some(occurrence) => Ok(Some(Arc::new(alloc, occurrence)?)),
        None => Ok(None),
    }
}

/// One step of a detector's cell: the occurrence of its event, if it occurs, and what is known then. An empty cell,
/// which no enabled rule has, counts as an empty past.
fn stepped(
    alloc: Global,
    value: Option<&CellValue>,
    event: &EventExpr,
    prim: &Prim,
) -> Result<(Option<Occurrence>, Knowledge), AllocError>
    ensures { IfOk result (λ r.
        GoesOnePlace (event_of event.now) (primitive prim.now) (option_map (λ v. cell_value v.now) value.entry)
        (option_map occurrence_of r.0) r.1) }
{
    match value {
        Some(CellValue::Detector(known)) => {
            let next = known.step(alloc, event, prim)?;
            Ok(next)
        }
        _ => {
            let known = Knowledge::fresh(alloc, event)?;
            let next = known.step(alloc, event, prim)?;
            Ok(next)
        }
    }
}

/// The task of a rule's condition, for an occurrence of its event.
pub(crate) fn new_task(
    rule: RuleNo,
    place: Coupling,
    depth: u8,
    time: u64,
    occurrence: Arc<Occurrence>,
) -> Task
    ensures { task_of result ≡ condition_task rule (coupling_of place) time depth (occurrence_of occurrence.value) }
{
    Task {
        rule,
        step: Step::Condition,
        place,
        depth,
        time,
        occurrence,
    }
}
