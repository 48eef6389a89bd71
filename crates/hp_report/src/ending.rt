//! The statuses of rules in a store.

ghost use Rattle.std.specs.Prelude.{◌≡◌, IfOk, map};
ghost use Rattle.hp_model.specs.Cells.{rule_cell};
ghost use Rattle.hp_store.specs.Stack.{cells_in};
ghost use Rattle.hp_report.specs.Ending.{status_from, AreStatuses};
ghost use Rattle.hp_report.specs.Mapped as model;

use crate::report::RuleStatus;
use hp_rule::{Library, rule_number};
use hp_store::{CellValue, Store};
use hp_value::{Cell, RuleNo};
use std::alloc::{AllocError, Global};

/// The status of each rule in a store, by the rules' numbers.
///
/// An error means that memory ran out, or that there are more rules than there are rule numbers.
pub(crate) fn final_statuses(
    alloc: Global,
    lib: &Library,
    store: &Store,
) -> Result<Vec<RuleStatus>, AllocError>
    ensures { IfOk result (λ statuses.
        AreStatuses (model.library lib.now) (cells_in store.now) (map model.status statuses.items)) }
{
    let mut statuses = Vec::new(alloc);
    for place in 0..lib.rules().len() {
        statuses.push(status_of(store, rule_number(place)?))?;
    }
    Ok(statuses)
}

/// The status of a rule in a store.
fn status_of(store: &Store, rule: RuleNo) -> RuleStatus
    ensures { model.status result ≡ status_from (cells_in store.now (rule_cell rule)) }
{
    match store.get(Cell::Rule(rule)) {
        Some(CellValue::Status(hp_store::Status::Enabled)) => RuleStatus::Enabled,
        Some(CellValue::Status(hp_store::Status::Disabled)) => RuleStatus::Disabled,
        Some(CellValue::Row(_) | CellValue::Detector(_)) | None => RuleStatus::Absent,
    }
}
