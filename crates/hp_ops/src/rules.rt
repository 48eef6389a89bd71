//! Operations on rules.

ghost use Rattle.std.specs.Prelude.{◌≡◌, IfOk, OnErr};
ghost use Rattle.hp_model.specs.Cells.{rule_cell, status_in};
ghost use Rattle.hp_model.specs.Operations as model;
ghost use Rattle.hp_detect.specs.Mapped.{event as event_of};
ghost use Rattle.hp_store.specs.Changes.{changes};
ghost use Rattle.hp_store.specs.Mapped.{change};
ghost use Rattle.hp_rule.specs.Mapped.{library, rule as rule_of, rule_operation};
ghost use Rattle.hp_view.specs.Adding.{AddsReads};
ghost use Rattle.hp_view.specs.Seeing.{GoesOn, Restores};
ghost use Rattle.hp_ops.specs.Performs.{Performs, status_of, new_status, rule_changes, new_knowledge};
ghost use Rattle.hp_ops.specs.Reading.{IsReadOf};

use crate::finding::find_status;
use hp_detect::{EventExpr, Knowledge, is_pure};
use hp_rule::{Library, Rule, RuleOperation};
use hp_store::{CellValue, Layer, Status};
use hp_value::{Cause, Cell, Halt, RuleNo};
use hp_view::View;
use std::alloc::{AllocError, Global};

/// Installs, enables, disables or removes a rule. A rule that becomes enabled begins with an empty past.
///
/// Only the rule's status is read. `Missing` means that the operation enables or disables an absent rule. After an
/// error no cell has changed.
pub fn set_rule(
    alloc: Global,
    view: &mut View,
    lib: &Library,
    operation: RuleOperation,
    rule: RuleNo,
) -> Result<(), Halt>
    ensures operation { Performs (λ _. tt) (library lib.now) (model.set_rule (rule_operation operation) rule)
        view.old view.new result }
    ensures reads { AddsReads (IsReadOf (rule_cell rule)) view.old.reads view.new.reads }
    ensures goes_on { GoesOn view.old view.new }
    ensures refused { OnErr result (Restores view.old view.new) }
{
    let status = find_status(view, rule)?;
    let Some(new) = changed_status(operation, status)? else {
        return Ok(());
    };
    let Some(known) = lib.rule(rule) else {
        return Ok(());
    };
    // Both cells are written at once, so that an error leaves both as they were.
    let layer = changed_cells(alloc, known, rule, new)?;
    view.take_in(&layer)?;
    Ok(())
}

/// The cells of a rule after a change of its status. Only a rule whose event looks back has a detector's cell.
fn changed_cells(
    alloc: Global,
    rule: &Rule,
    number: RuleNo,
    status: Option<Status>,
) -> Result<Layer, AllocError>
    ensures { IfOk result (λ layer. changes layer ≡ rule_changes (rule_of rule.now) number (status_of status)) }
{
    let mut layer = Layer::new(alloc);
    layer.insert(Cell::Rule(number), status_value(status))?;
    if is_pure(&rule.event) {
        return Ok(layer);
    }
    let detector = new_detector(alloc, &rule.event, status)?;
    layer.insert(Cell::Detector(number), detector)?;
    Ok(layer)
}

/// The value of a rule's cell for a status; `None` for an absent rule.
fn status_value(status: Option<Status>) -> Option<CellValue>
    ensures { change result ≡ status_in (status_of status) }
{
    match status {
        Some(status) => Some(CellValue::Status(status)),
        None => None,
    }
}

/// The value of a detector's cell after a change of its rule's status: for an enabled rule, what is known of an empty
/// past.
fn new_detector(
    alloc: Global,
    event: &EventExpr,
    status: Option<Status>,
) -> Result<Option<CellValue>, AllocError>
    ensures { IfOk result (λ value. change value ≡ new_knowledge (event_of event.now) (status_of status)) }
{
    match status {
        Some(Status::Enabled) => {
            let known = Knowledge::fresh(alloc, event)?;
            Ok(Some(CellValue::Detector(known)))
        }
        _ => Ok(None),
    }
}

/// The new status of a rule after an operation, or `None` if it doesn't change. `Missing` means that an absent rule
/// can't be enabled or disabled. The table is this project's own choice.
fn changed_status(
    operation: RuleOperation,
    status: Option<Status>,
) -> Result<Option<Option<Status>>, Cause>
    ensures { new_status result ≡ model.new_status (rule_operation operation) (status_of status) }
{
    match (operation, status) {
        (RuleOperation::Install, None) => Ok(Some(Some(Status::Enabled))),
        (RuleOperation::Install, Some(_)) => Ok(None),
        (RuleOperation::Enable, None) => Err(Cause::Missing),
        (RuleOperation::Enable, Some(Status::Enabled)) => Ok(None),
        (RuleOperation::Enable, Some(Status::Disabled)) => Ok(Some(Some(Status::Enabled))),
        (RuleOperation::Disable, None) => Err(Cause::Missing),
        (RuleOperation::Disable, Some(Status::Enabled)) => Ok(Some(Some(Status::Disabled))),
        (RuleOperation::Disable, Some(Status::Disabled)) => Ok(None),
        (RuleOperation::Remove, None) => Ok(None),
        (RuleOperation::Remove, Some(_)) => Ok(Some(None)),
    }
}
