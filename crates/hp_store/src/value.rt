//! What a cell holds.

use hp_detect::Knowledge;
use hp_value::Row;
use std::alloc::AllocError;

/// Whether a rule that is there fires. A rule that isn't there has no cell.
#[derive(Clone, Copy, Debug, PartialEq, Eq)]
pub enum Status {
    /// It fires where its event occurs.
    Enabled,
    /// It doesn't, and keeps no past.
    Disabled,
}

/// What a cell holds. A clone shares it.
#[derive(Debug, Drop)]
pub enum CellValue {
    /// An object's row.
    Row(Row),
    /// A rule's status.
    Status(Status),
    /// What a rule's event remembers of the rule's past.
    Detector(Knowledge),
}

impl Clone for CellValue {
    ghost use Rattle.std.specs.Prelude.{◌≡◌};

    ghost is_clone = { λ v w. w ≡ v };

    /// A copy that shares what the value has: no value of a row is copied.
    ///
    /// An error means that std refused a copy of an `Arc`.
    fn clone(&self) -> Result<CellValue, AllocError> {
        match self {
            CellValue::Row(row) => Ok(CellValue::Row(row.clone()?)),
            CellValue::Status(status) => Ok(CellValue::Status(*status)),
            CellValue::Detector(known) => Ok(CellValue::Detector(known.clone()?)),
        }
    }
}

impl PartialEq for CellValue {
    ghost use Rattle.std.specs.Prelude.{◌≡◌, ◌↔◌, IsTrue};
    ghost use Rattle.std.specs.Cmp.{partial_equiv_from_equiv};
    ghost use Rattle.hp_store.specs.Mapped.{cell_value};
    ghost use Rattle.hp_store.specs.Same.{held_same, held_equiv};

    ghost eq = { held_same };

    ghost laws = { partial_equiv_from_equiv held_equiv };

    /// Whether two cells hold the same: two rows with the same values under the same names, one status, or the same
    /// knowledge of a past.
    ///
    /// It allocates nothing.
    fn eq(&self, other: &CellValue) -> bool
        ensures test { result ≡ held_same self.now other.now }
        ensures same { IsTrue result ↔ (cell_value self.now ≡ cell_value other.now) }
    {
        match (self, other) {
            (CellValue::Row(row), CellValue::Row(other)) => row == other,
            (CellValue::Status(status), CellValue::Status(other)) => status == other,
            (CellValue::Detector(known), CellValue::Detector(other)) => known == other,
            _ => false,
        }
    }
}

impl Eq for CellValue {
    ghost use Rattle.hp_store.specs.Same.{held_equiv};

    ghost laws = { held_equiv };
}
