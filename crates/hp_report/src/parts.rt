//! The lines of units as a separate text.

ghost use Rattle.std.specs.Prelude.{◌≡◌, ◌+◌, ◌<◌, ◌^◌, IfOk, length, map, string_bytes};
ghost use Rattle.hp_model.specs.Report.{units_text};
ghost use Rattle.hp_report.specs.Mapped as model;

use crate::names::Names;
use crate::text::put_units;
use hp_rule::Library;
use hp_tree::UnitReport;
use std::alloc::{AllocError, Global};

/// The lines of a report for units, numbered from `first` on. With `with_tree` the trees of their transactions follow.
///
/// An error means that memory ran out.
pub fn units_text(
    alloc: Global,
    library: &Library,
    with_tree: bool,
    first: usize,
    units: &[UnitReport],
) -> Result<String, AllocError>
    requires { first + length units.now < 2 ^ 64 }
    ensures { IfOk result (λ text. string_bytes text
        ≡ units_text (model.library library.now) with_tree first (map model.unit_report units.now)) }
{
    let names = Names {
        classes: library.classes(),
        rules: library.rules(),
    };
    // Room for the line of one unit and the end of an answer, so that a short answer doesn't grow step by step.
    let mut out = String::with_capacity(alloc, 64)?;
    put_units(alloc, &mut out, &names, with_tree, first, units)?;
    Ok(out)
}
