//! Reports and how they are written.

ghost use Rattle.std.specs.Prelude.{◌≡◌, ◌↔◌, OnOk, IfOk, map, string_bytes, true, false};
ghost use Rattle.std.specs.Io.KnownBytes.{Appends};
ghost use Rattle.hp_model.specs.Report.{report_text};
ghost use Rattle.hp_store.specs.Stack.{cells_in};
ghost use Rattle.hp_report.specs.Device.{Begins};
ghost use Rattle.hp_report.specs.Mapped as model;
ghost use Rattle.hp_report.specs.Stored.{IsReportText, OfEach};

use crate::device::Sink;
use crate::output::{WriteFault, write_text};
use crate::parts::units_text;
use crate::text::put_final;
use hp_rule::Library;
use hp_store::Store;
use hp_tree::UnitReport;
use std::alloc::{AllocError, Global};
use std::sync::Arc;

/// Whether a rule fires when its event occurs. That a report shows it is this project's own choice.
#[derive(Clone, Copy, Debug, PartialEq, Eq)]
pub enum RuleStatus {
    /// The rule is not installed.
    Absent,
    /// The rule is installed and fires.
    Enabled,
    /// The rule is installed and doesn't fire.
    Disabled,
}

/// What the units of a script did, and the state after the last one.
#[derive(Debug, Drop)]
pub struct Report {
    /// The script's classes and rules.
    pub library: Arc<Library>,
    /// A report for each unit, in the order in which they ran.
    pub units: Vec<UnitReport>,
    /// The objects and the rules' statuses after the last unit.
    pub store: Store,
}

/// The whole text of a report.
fn text_of(alloc: Global, report: &Report, with_tree: bool) -> Result<String, AllocError>
    ensures { IfOk result (λ text. IsReportText (model.library report.now.library.value) (cells_in report.now.store)
        with_tree (map model.unit_report report.now.units.items) (string_bytes text)) }
{
    let mut out = units_text(alloc, &report.library, with_tree, 1, &report.units)?;
    put_final(alloc, &mut out, &report.library, &report.store)?;
    Ok(out)
}

/// Writes the text of a report, in as many writes as the device needs: that of its units and of each ordered state that
/// has the cells of its store. With `with_tree` it has the trees of the transactions.
///
/// The whole text is made before the first write, so nothing is written where memory runs out. It stops at the first
/// write that fails, and a beginning of the text was written.
pub fn write_report<W: Sink>(
    alloc: Global,
    report: &Report,
    with_tree: bool,
    writer: &mut W,
) -> Result<(), WriteFault>
    requires { W.has_failed writer.old ≡ false }
    ensures ok { let lib = model.library report.now.library.value in
        OnOk result (OfEach lib (cells_in report.now.store) (λ S.
        Appends (W.contents writer.old) (W.contents writer.new)
        (report_text lib with_tree (model.evaluation report.now S)))) }

    // Whatever the result, what was written is a beginning of the text.
    ensures begins { let lib = model.library report.now.library.value in
        OfEach lib (cells_in report.now.store) (λ S. Begins (W.contents writer.old) (W.contents writer.new)
        (report_text lib with_tree (model.evaluation report.now S))) }

    ensures write { result ≡ Err WriteFault.Write ↔ (W.has_failed writer.new ≡ true) }
    ensures memory { result ≡ Err WriteFault.NoMemory → writer.new ≡ writer.old }
{
    let text = text_of(alloc, report, with_tree)?;
    write_text(writer, text.as_bytes())
}
