//! The lines of units.

ghost use Rattle.std.specs.Prelude.{◌++◌, ◌+◌, ◌<◌, ◌^◌, length, map, flat_map, option_map, OnOk};
ghost use Rattle.hp_model.specs.Report.{words, line, heading, ending_words, outcome_text, transaction_text, units_text};
ghost use Rattle.hp_report.specs.Mapped as model;
ghost use Rattle.hp_report.specs.Text.{Gains, emit_lines};

use crate::names::Names;
use crate::text::tree::{put_emit, put_items};
use crate::text::words::{mode_word, put_ending};
use hp_tree::{Ending, TopReport, UnitReport, emits};
use hp_value::{Coupling, RuleNo, Value};
use std::alloc::{AllocError, Global};
use std::fmt::Write;

/// A line for each emitted value.
fn put_emits(alloc: Global, out: &mut String, values: &[&Value]) -> Result<(), AllocError>
    ensures { OnOk result (Gains out.old out.new (emit_lines (model.values_behind values.now))) }
{
    for value in values {
        put_emit(alloc, out, 0, value)?;
    }
    Ok(())
}

/// The values that a top-level transaction emitted, if it committed.
fn put_committed(alloc: Global, out: &mut String, top: &TopReport) -> Result<(), AllocError>
    ensures { OnOk result (Gains out.old out.new (emit_lines (model.committed_emits (model.top_report top.now)))) }
{
    match &top.end {
        Ending::Committed => put_emits(alloc, out, &emits(alloc, &top.tree)?),
        Ending::Aborted(_) | Ending::Vetoed(_) => Ok(()),
    }
}

/// The values that a top-level transaction emitted, if it committed, and its tree if that is wanted.
fn put_outcome(
    alloc: Global,
    out: &mut String,
    names: &Names<'_>,
    with_tree: bool,
    top: &TopReport,
) -> Result<(), AllocError>
    ensures { let t = model.top_report top.now in
        OnOk result (Gains out.old out.new (outcome_text (model.library_of names.now) with_tree t.ending t.items)) }
{
    put_committed(alloc, out, top)?;
    if with_tree {
        put_items(alloc, out, names, 2, &top.tree)?;
    }
    Ok(())
}

/// The beginning of a top-level transaction's line: the unit's number and moment, or its task's mode and rule.
fn put_heading(
    out: &mut String,
    names: &Names<'_>,
    number: usize,
    moment: Option<u64>,
    task: Option<(RuleNo, Coupling)>,
) -> Result<(), AllocError>
    ensures { OnOk result (Gains out.old out.new
        (words (heading (model.library_of names.now) number moment (option_map model.task task)))) }
{
    match (task, moment) {
        (Some((rule, mode)), _) => {
            let mode = mode_word(mode);
            let name = names.rule(rule);
            write!(out, "{mode} {name}")
        }
        (None, Some(moment)) => write!(out, "unit {number} time {moment}"),
        (None, None) => write!(out, "unit {number}"),
    }
}

/// The line of a top-level transaction.
fn put_top_line(
    alloc: Global,
    out: &mut String,
    names: &Names<'_>,
    number: usize,
    moment: Option<u64>,
    top: &TopReport,
) -> Result<(), AllocError>
    ensures { let library = model.library_of names.now in let t = model.top_report top.now in
        OnOk result (Gains out.old out.new
        (line 0 (heading library number moment t.task ++ ending_words library t.ending))) }
{
    put_heading(out, names, number, moment, top.task)?;
    put_ending(alloc, out, names, &top.end)?;
    out.push_str("\n")?;
    Ok(())
}

/// The lines of a unit's top-level transactions.
fn put_tops(
    alloc: Global,
    out: &mut String,
    names: &Names<'_>,
    with_tree: bool,
    number: usize,
    unit: &UnitReport,
) -> Result<(), AllocError>
    ensures { let u = model.unit_report unit.now in
        OnOk result (Gains out.old out.new
        (flat_map (transaction_text (model.library_of names.now) with_tree number u.time) u.transactions)) }
{
    for top in &unit.tops {
        put_top_line(alloc, out, names, number, unit.moment, top)?;
        put_outcome(alloc, out, names, with_tree, top)?;
    }
    Ok(())
}

/// The lines of units, numbered from `first` on, with their trees if these are wanted.
pub fn put_units(
    alloc: Global,
    out: &mut String,
    names: &Names<'_>,
    with_tree: bool,
    first: usize,
    units: &[UnitReport],
) -> Result<(), AllocError>
    requires { first + length units.now < 2 ^ 64 }
    ensures { OnOk result (Gains out.old out.new
        (units_text (model.library_of names.now) with_tree first (map model.unit_report units.now))) }
{
    for (index, unit) in units.iter().enumerate() {
        put_tops(alloc, out, names, with_tree, first + index, unit)?;
    }
    Ok(())
}
