//! A check, from the script's bytes to the bytes of its findings.

ghost use Rattle.std.specs.Prelude.{◌≡◌, ◌≢◌, ◌↔◌, ◌&&◌, OnOk, IfOk, IfSome, map, take, true, false, string_bytes};
ghost use Rattle.std.specs.Io.KnownBytes.{Appends};
ghost use Rattle.hp_report.specs.Device.{Begins};
ghost use Rattle.hp_report.specs.Text.{Gains};
ghost use Rattle.hp_rule.specs.Libraries as libraries;
ghost use Rattle.hp_rule.specs.Mapped.{unit};
ghost use Rattle.hp_script.specs.Mapped.{script as script_of_model};
ghost use Rattle.hp_rule.specs.Statements.{rule};
ghost use Rattle.hp_analysis.specs.Declarations.{declared, Keeps};
ghost use Rattle.hp_analysis.specs.Findings.{finds_nothing};
ghost use Rattle.hp_analysis.specs.FoundKinds.{kind_findings};
ghost use Rattle.hp_analysis.specs.Depths.{library_depth};
ghost use Rattle.hp_analysis.specs.Graphs.{seen};
ghost use Rattle.hp_analysis.specs.Installed.{installed, with_installed};
ghost use Rattle.hp_analysis.specs.Witness.{library_chain, script_chain};
ghost use Rattle.hp_analysis.specs.Checking.{findings_text, findings_by, reached_given, verdicts_of};
ghost use Rattle.hp_analysis.specs.Checking.{have_no_opening, chain_lines, chain_text};
ghost use Rattle.hipac_check.specs.Ends.{status_of};
ghost use Rattle.hipac_check.specs.Outputs.{check_output, IsChecked};
ghost use Rattle.hipac_check.specs.Spots.{shown, shown_in};
ghost use Rattle.hipac_check.specs.Scripts.{script_of};

use crate::asked::Asked;
use crate::lines::{put_chain, put_idles, put_kind_lines, put_openings};
use crate::spots::Spots;
use crate::verdicts::{put_depth, put_guards, put_kinds};
use hp_analysis::{Declaration, Graph, KindFinding, have_no_opening, infer_with, kind_findings};
use hp_notation::{Unread, read_script};
use hp_report::{Fault, ReadFault, Sink, Source, Status, read_up_to, write_text};
use hp_rule::{Library, Rule, Unit};
use hp_script::Script;
use std::alloc::{AllocError, Global};

/// The most bytes that are read: one more than a script may have is enough to refuse it.
fn most_read() -> usize
    ensures { result ≡ 1048577 }
{
    1_048_577
}

/// Reads a script up to the reader's end, and writes the findings on it, or the line that refuses it. What is asked
/// says whether the script is a text or JSON, and which signatures of signals are given.
///
/// The reader and the writer must not have failed before. After `Fault::Read` and `Fault::NoMemory` nothing was
/// written; after any fault what was written is a prefix of the text. No call of a device is repeated.
pub fn check<R: Source, W: Sink>(
    alloc: Global,
    asked: Asked,
    reader: &mut R,
    writer: &mut W,
) -> Result<Status, Fault>
    requires reader { R.has_failed reader.old ≡ false }
    requires writer { W.has_failed writer.old ≡ false }

    // On `Ok` it has written the definition's text for the bytes up to the reader's end, and nothing else.
    ensures output { OnOk result (IfSome (R.remaining reader.old) (λ input.
        IsChecked (λ text. Appends (W.contents writer.old) (W.contents writer.new) text)
        (declared asked.signals) asked.is_text input)) }
    ensures status { IfOk result (λ status. IfSome (R.remaining reader.old) (λ input.
        status ≡ status_of asked.is_text input)) }

    // However it ends, what was written is a prefix of that text.
    ensures begins { IfSome (R.remaining reader.old) (λ input.
        IsChecked (λ text. Begins (W.contents writer.old) (W.contents writer.new) text)
        (declared asked.signals) asked.is_text input) }

    // It returns a fault of a device exactly if a call has failed; after a failed read nothing was written.
    ensures read { result ≡ Err Fault.Read ↔ (R.has_failed reader.new ≡ true) }
    ensures unwritten { result ≡ Err Fault.Read → writer.new ≡ writer.old }
    ensures write { result ≡ Err Fault.Write ↔ (W.has_failed writer.new ≡ true) }

    // If memory ran out, nothing was written.
    ensures memory { result ≡ Err Fault.NoMemory → writer.new ≡ writer.old }
{
    let input = read_input(alloc, reader)?;
    let status = respond(alloc, asked, input.as_slice(), writer)?;
    Ok(status)
}

/// Reads the bytes of a script up to the reader's end, or one byte more than the longest script has.
fn read_input<R: Source>(alloc: Global, reader: &mut R) -> Result<Vec<u8>, ReadFault>
    requires { R.has_failed reader.old ≡ false }
    ensures bytes { IfOk result (λ input. IfSome (R.remaining reader.old) (λ all. input.items ≡ take 1048577 all)) }
    ensures read { result ≡ Err ReadFault.Read ↔ (R.has_failed reader.new ≡ true) }
{
    read_up_to(alloc, reader, most_read())
}

/// What is written for a script's bytes, and how the check ends then.
#[derive(Debug, Drop)]
struct Answer {
    text: String,
    status: Status,
    // What is declared of the script's signals; what was given if the script is refused.
    declaration: Declaration,
}

/// What is checked: a script's library and units, and how places in it are shown.
#[derive(Debug, Drop)]
struct Checked<'a> {
    library: &'a Library,
    units: &'a [Unit],
    spots: Spots<'a>,
}

/// What is written for a script.
///
/// An error means that memory ran out.
fn reported(
    alloc: Global,
    checked: &Checked<'_>,
    signals: Declaration,
) -> Result<Answer, AllocError>
    ensures keeps { IfOk result (λ answer. Keeps (declared signals) (declared answer.declaration)) }
    ensures text { IfOk result (λ answer. string_bytes answer.text ≡ findings_text (shown checked.now.spots)
        (declared signals) (script_of checked.now) (declared answer.declaration)) }
    ensures status { IfOk result (λ answer. answer.status ≡ Status.Reported) }
{
    let library = checked.library;
    let units = checked.units;
    let graph = Graph::of_installed(alloc, library, units)?;
    let reached = graph.reached_with(alloc, units, &signals)?;
    let declaration = infer_with(alloc, library, units, signals)?.declaration;
    let text = findings(alloc, checked, &graph, &reached, &declaration)?;
    Ok(Answer {
        text,
        status: Status::Reported,
        declaration,
    })
}

/// What is written for the script that was read from these bytes, with the places of a text.
///
/// An error means that memory ran out.
fn script_answer(
    alloc: Global,
    asked: Asked,
    input: &[u8],
    script: &Script,
) -> Result<Answer, AllocError>
    ensures keeps { IfOk result (λ answer. Keeps (declared asked.signals) (declared answer.declaration)) }
    ensures text { let whole = script_of_model script.now in IfOk result (λ answer. string_bytes answer.text
        ≡ findings_text (shown_in asked.is_text input.now whole.units) (declared asked.signals) whole
        (declared answer.declaration)) }
    ensures status { IfOk result (λ answer. answer.status ≡ Status.Reported) }
{
    let library = &script.library;
    let units = &script.items;
    let spots = Spots::of(alloc, input, asked.is_text, units)?;
    let checked = Checked {
        library,
        units,
        spots,
    };
    reported(alloc, &checked, asked.signals)
}

/// The text that the definitions give for a script's bytes.
///
/// An error means that memory ran out.
#[tactic(auto, using(crate::proofs::Found::output_of_refusal))]
fn answer_to(alloc: Global, asked: Asked, input: &[u8]) -> Result<Answer, AllocError>
    ensures keeps { IfOk result (λ answer. Keeps (declared asked.signals) (declared answer.declaration)) }
    ensures text { IfOk result (λ answer. string_bytes answer.text
        ≡ check_output asked.is_text input.now (declared asked.signals) (declared answer.declaration)) }
    ensures status { IfOk result (λ answer. answer.status ≡ status_of asked.is_text input.now) }
{
    match read_script(alloc, input, asked.is_text) {
        Ok(script) => script_answer(alloc, asked, input, &script),
        Err(Unread::Refused(text)) => Ok(Answer {
            text,
            status: Status::Refused,
            declaration: asked.signals,
        }),
        Err(Unread::Memory) => Err(AllocError),
    }
}

/// Writes the text that the definitions give for a script's bytes.
fn respond<W: Sink>(
    alloc: Global,
    asked: Asked,
    input: &[u8],
    writer: &mut W,
) -> Result<Status, Fault>
    requires { W.has_failed writer.old ≡ false }
    ensures output { OnOk result (
        IsChecked (λ text. Appends (W.contents writer.old) (W.contents writer.new) text)
        (declared asked.signals) asked.is_text input.now) }
    ensures status { IfOk result (λ status. status ≡ status_of asked.is_text input.now) }
    ensures begins { IsChecked (λ text. Begins (W.contents writer.old) (W.contents writer.new) text)
        (declared asked.signals) asked.is_text input.now }
    ensures read { result ≢ Err Fault.Read }
    ensures write { result ≡ Err Fault.Write ↔ (W.has_failed writer.new ≡ true) }
    ensures memory { result ≡ Err Fault.NoMemory → writer.new ≡ writer.old }
{
    let answer = answer_to(alloc, asked, input)?;
    write_text(writer, answer.text.as_bytes())?;
    Ok(answer.status)
}

/// The depth of the chains of a library, for whatever transactions come.
fn any_depth(alloc: Global, library: &Library) -> Result<Option<u8>, AllocError>
    ensures { IfOk result (λ depth. depth ≡ library_depth (libraries.library library.now)) }
{
    let graph = Graph::of(alloc, library)?;
    graph.longest_chain(alloc)
}

/// Adds a chain of any rules of a library that has more firings than may nest; nothing if there is none.
fn put_any_chain(
    alloc: Global,
    text: &mut String,
    spots: &Spots<'_>,
    library: &Library,
) -> Result<(), AllocError>
    ensures { let whole = libraries.library library.now in OnOk result (Gains text.old text.new
        (chain_lines (shown spots.now) whole.rules whole (library_chain whole))) }
{
    let graph = Graph::of(alloc, library)?;
    let chain = graph.too_long(alloc)?;
    put_chain(alloc, text, spots, library.rules(), &graph, &chain)
}

/// Adds a chain that the units begin in a graph, of more firings than may nest; nothing if there is none.
fn put_own_chain(
    alloc: Global,
    text: &mut String,
    checked: &Checked<'_>,
    graph: &Graph<'_>,
) -> Result<(), AllocError>
    ensures { OnOk result (Gains text.old text.new (chain_lines (shown checked.now.spots)
        (script_of checked.now).library.rules (seen graph.now.triggers)
        (script_chain (seen graph.now.triggers) (script_of checked.now).units))) }
{
    let chain = graph.too_long_of(alloc, checked.units)?;
    let rules = checked.library.rules();
    put_chain(alloc, text, &checked.spots, rules, graph, &chain)
}

/// Adds a chain of more firings than may nest: one that the units begin, if there may be one, and else one of any
/// rules.
fn put_chain_by(
    alloc: Global,
    text: &mut String,
    checked: &Checked<'_>,
    graph: &Graph<'_>,
    own: Option<u8>,
) -> Result<(), AllocError>
    requires { seen graph.now.triggers ≡ (with_installed (script_of checked.now)).library }
    ensures { OnOk result (Gains text.old text.new
        (chain_text (shown checked.now.spots) (script_of checked.now) own)) }
{
    match own {
        None => put_own_chain(alloc, text, checked, graph),
        Some(_) => put_any_chain(alloc, text, &checked.spots, checked.library),
    }
}

/// Whether all values are used as what they are, and no guard of the library has an opening.
fn is_closed(library: &Library, pass: bool) -> bool
    ensures { result ≡ (pass && have_no_opening (libraries.library library.now).rules) }
{
    pass && have_no_opening(library.rules())
}

/// Whether nothing was found.
fn is_kinded(all: &[KindFinding]) -> bool
    ensures { result ≡ finds_nothing (kind_findings all.now) }
{
    match all {
        [] => true,
        [_, ..] => false,
    }
}

/// Adds the verdicts: whether all values are used as what they are, and how deep the units' own firings nest.
fn put_verdicts(
    alloc: Global,
    text: &mut String,
    library: &Library,
    pass: bool,
    own: Option<u8>,
) -> Result<(), AllocError>
    ensures { OnOk result (Gains text.old text.new (verdicts_of (libraries.library library.now) pass own)) }
{
    let any = any_depth(alloc, library)?;
    put_kinds(text, pass)?;
    put_depth(text, library.depth_limit(), any, own)?;
    put_guards(text, is_closed(library, pass))?;
    Ok(())
}

/// The findings on a script, by what is declared of its signals, the graph of the rules that it may install, and the
/// rules that are reached.
///
/// An error means that memory ran out.
fn findings(
    alloc: Global,
    checked: &Checked<'_>,
    graph: &Graph<'_>,
    reached: &[bool],
    declaration: &Declaration,
) -> Result<String, AllocError>
    requires graph { seen graph.now.triggers ≡ (with_installed (script_of checked.now)).library }
    requires present { graph.now.triggers.present.items
        ≡ installed (script_of checked.now).library (script_of checked.now).units }
    ensures { IfOk result (λ text. string_bytes text ≡ findings_by (shown checked.now.spots) reached.now
        (script_of checked.now) (declared declaration.now)) }
{
    let library = checked.library;
    let all = kind_findings(alloc, library, declaration, checked.units)?;
    let own = graph.longest_chain_of(alloc, checked.units)?;
    let mut text = String::new(alloc);
    put_verdicts(alloc, &mut text, library, is_kinded(&all), own)?;
    put_kind_lines(&mut text, &checked.spots, &all)?;
    put_chain_by(alloc, &mut text, checked, graph, own)?;
    put_openings(&mut text, &checked.spots, library.rules())?;
    put_idles(
        &mut text,
        &checked.spots,
        graph.installed(),
        reached,
        library.rules(),
    )?;
    Ok(text)
}
