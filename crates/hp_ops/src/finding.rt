//! Objects and rules as a view shows them.

ghost use Rattle.std.specs.Prelude.{◌≡◌, IfOk, OnOk, OnErr, option_map};
ghost use Rattle.hp_model.specs.Rules.{Library};
ghost use Rattle.hp_model.specs.State as model;
ghost use Rattle.hp_model.specs.Cells.{Cells, object_cell, rule_cell, over, Holds};
ghost use Rattle.hp_model.specs.Answers.{Finds};
ghost use Rattle.hp_model.proofs.BridgesReads.{row_at, status_at};
ghost use Rattle.hp_store.specs.Mapped.{cell_value};
ghost use Rattle.hp_view.specs.Adding.{AddsReads};
ghost use Rattle.hp_view.specs.Seeing.{written, read_cell, GoesOn, OnlyReads};
ghost use Rattle.hp_ops.specs.Performs.{status_of};
ghost use Rattle.hp_ops.specs.Reading.{IsReadOf};

use hp_store::{CellValue, Status};
use hp_value::{Cell, ClassNo, Key, Row, RuleNo};
use hp_view::View;
use std::alloc::{AllocError, Global};

/// The row of an object, or `None` if there is no such object. The row is shared.
///
/// Only the object's cell is read. After an error the read may have been recorded.
pub fn find_object(
    alloc: Global,
    view: &mut View,
    class: ClassNo,
    key: Key,
) -> Result<Option<Row>, AllocError>
    ensures finds { IfOk result (λ row. (lib : Library) →
        Finds lib (λ S. model.find_object S.objects class key) view.new.reads (written view.new) row) }
    ensures reads { AddsReads (IsReadOf (object_cell class key)) view.old.reads view.new.reads }
    ensures only { OnlyReads view.old view.new }
    ensures goes_on { GoesOn view.old view.new }
{
    let value = view.fetch(Cell::Object(class, key))?;
    Ok(row_in(value))
}

/// The row in an object's cell.
fn row_in(value: Option<CellValue>) -> Option<Row>
    ensures { result ≡ row_at (option_map (λ v. cell_value v) value) }
{
    match value {
        Some(CellValue::Row(row)) => Some(row),
        _ => None,
    }
}

/// The status of a rule, or `None` if it is absent.
///
/// Only the rule's cell is read. After an error the view is as before.
pub fn find_status(view: &mut View, rule: RuleNo) -> Result<Option<Status>, AllocError>
    ensures finds { IfOk result (λ status. (lib : Library) →
        Finds lib (λ S. (model.rule_state S rule).status) view.new.reads (written view.new) (status_of status)) }
    ensures shows { IfOk result (λ status. (base : Cells) →
        Holds base view.new.reads → status_at (over base (written view.new) (rule_cell rule)) ≡ status_of status) }
    ensures reads { OnOk result (view.new ≡ record view.old { reads = read_cell view.old (rule_cell rule) }) }
    ensures err { OnErr result (view.new ≡ view.old) }
    ensures only { OnlyReads view.old view.new }
    ensures goes_on { GoesOn view.old view.new }
{
    let value = view.fetch(Cell::Rule(rule))?;
    Ok(status_in(value))
}

/// The status in a rule's cell.
fn status_in(value: Option<CellValue>) -> Option<Status>
    ensures { status_of result ≡ status_at (option_map (λ v. cell_value v) value) }
{
    match value {
        Some(CellValue::Status(status)) => Some(status),
        _ => None,
    }
}
