//! The words of a report for values, causes, endings and modes.

ghost use Rattle.std.specs.Prelude.{◌≡◌, ◌∷◌, [], IfOk, OnOk, string_bytes};
ghost use Rattle.hp_model.specs.Rules as R;
ghost use Rattle.hp_model.specs.Values.{vetoed};
ghost use Rattle.hp_model.specs.Report.{quoted, value_text, cause_words, ending_words, coupling_word};
ghost use Rattle.hp_report.specs.Mapped as model;
ghost use Rattle.hp_report.specs.Text.{Gains, spaced};

use crate::names::Names;
use hp_tree::Ending;
use hp_value::{Cause, Coupling, Value, Veto};
use std::alloc::{AllocError, Global};
use std::fmt::Write;

/// A text as compact JSON.
#[tactic(auto, using(crate::proofs::Lines::quoted_lem))]
fn quoted_text(alloc: Global, text: &str) -> Result<String, AllocError>
    ensures { IfOk result (λ s. string_bytes s ≡ quoted text.now) }
{
    serde_json::Value::try_from_str(alloc, text)?.to_string(alloc)
}

/// A value as a report shows it.
pub fn put_value(alloc: Global, out: &mut String, value: &Value) -> Result<(), AllocError>
    ensures { OnOk result (Gains out.old out.new (value_text (model.value value.now))) }
{
    match value {
        Value::Int(number) => write!(out, "{number}"),
        Value::Bool(truth) => write!(out, "{truth}"),
        Value::Text(text) => out.push_str(quoted_text(alloc, text.as_str())?.as_str()),
    }
}

/// The word for a coupling mode.
pub fn mode_word(mode: Coupling) -> &'static str
    ensures { result.now ≡ coupling_word (model.coupling mode) }
{
    match mode {
        Coupling::Immediate => "immediate",
        Coupling::Deferred => "deferred",
        Coupling::Separate => "separate",
        Coupling::Dependent => "dependent",
        Coupling::Exclusive => "exclusive",
    }
}

/// The word for a cause that is no veto.
pub fn cause_word(cause: Cause) -> &'static str
    ensures { (library : R.Library) → cause_words library (model.cause cause) ≡ result.now ∷ [] }
{
    match cause {
        Cause::Exists => "A1",
        Cause::Missing => "A2",
        Cause::Kind => "A3",
        Cause::Overflow => "A4",
        Cause::DivideByZero => "A5",
        Cause::NoParameter => "A6",
        Cause::Depth => "A7",
        Cause::Asked => "A8",
    }
}

/// The words of a veto, each after a space: its code, its rule, and its message if it has one.
fn put_veto(
    alloc: Global,
    out: &mut String,
    names: &Names<'_>,
    veto: &Veto,
) -> Result<(), AllocError>
    ensures { OnOk result (Gains out.old out.new
        (spaced (cause_words (model.library_of names.now) (vetoed (model.veto veto.now))))) }
{
    let name = names.rule(veto.rule());
    write!(out, " A9 {name}")?;
    if let Some(message) = veto.message() {
        out.push_str(" ")?;
        put_value(alloc, out, message)?;
    }
    Ok(())
}

/// The words of an ending, each after a space.
pub fn put_ending(
    alloc: Global,
    out: &mut String,
    names: &Names<'_>,
    ending: &Ending,
) -> Result<(), AllocError>
    ensures { OnOk result (Gains out.old out.new
        (spaced (ending_words (model.library_of names.now) (model.ending ending.now)))) }
{
    match ending {
        Ending::Committed => out.push_str(" committed"),
        Ending::Aborted(cause) => {
            let word = cause_word(*cause);
            write!(out, " aborted {word}")
        }
        Ending::Vetoed(veto) => {
            out.push_str(" aborted")?;
            put_veto(alloc, out, names, veto)
        }
    }
}
