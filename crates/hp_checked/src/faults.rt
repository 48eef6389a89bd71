//! Why a checked rule base refuses a script or a line.

ghost use Rattle.std.specs.Prelude.{◌≡◌, [], ◌∷◌, ◌++◌, IfOk, OnOk, Some, None, option_map};
ghost use Rattle.std.specs.Prelude.{string_bytes, map, flat_map};
ghost use Rattle.hp_model.specs.Output.{path_text};
ghost use Rattle.hp_model.specs.Refusals.{to_item};
ghost use Rattle.hp_report.specs.Text.{Gains};
ghost use Rattle.hp_rule.specs.Libraries as libraries;
ghost use Rattle.hp_rule.specs.Mapped.{unit};
ghost use Rattle.hp_script.specs.Asked as asked;
ghost use Rattle.hp_script.specs.Mapped.{timed_script};
ghost use Rattle.hp_analysis.specs.Checking.{place_words};
ghost use Rattle.hp_analysis.specs.Declarations.{declared};
ghost use Rattle.hp_analysis.specs.Depths.{library_depth};
ghost use Rattle.hp_analysis.specs.Findings as model;
ghost use Rattle.hp_analysis.specs.FoundKinds.{kind_finding, kind_findings};
ghost use Rattle.hp_analysis.specs.Kinded.{finding, findings};
ghost use Rattle.hp_lines.specs.Checked as definitions;

use hp_analysis::{Declaration, Finding, Graph, KindFinding, kind_findings, unit_findings};
use hp_rule::{Library, Unit};
use hp_script::{Path, Request, Script, Steps};
use std::alloc::{AllocError, Global};
use std::fmt::Write;

/// Adds the line that refuses a script for a finding in a unit.
fn put_in_unit(out: &mut String, number: usize, found: &Finding) -> Result<(), AllocError>
    ensures { OnOk result (Gains out.old out.new
        (definitions.kinds_refusal (place_words (Some number) (finding found.now).path))) }
{
    let path = Path(found.path.as_slice());
    writeln!(out, "refused S8 kinds unit {number} {path}")?;
    Ok(())
}

/// Adds the line that refuses a script for a finding in a rule.
fn put_in_rule(out: &mut String, found: &Finding) -> Result<(), AllocError>
    ensures { OnOk result (Gains out.old out.new
        (definitions.kinds_refusal (place_words None (finding found.now).path))) }
{
    let path = Path(found.path.as_slice());
    writeln!(out, "refused S8 kinds {path}")?;
    Ok(())
}

/// Adds the line that refuses a script for its first finding.
fn put_refusal(out: &mut String, found: &KindFinding) -> Result<(), AllocError>
    ensures { OnOk result (Gains out.old out.new (definitions.kinds_refusal
        (place_words (kind_finding found.now).unit (kind_finding found.now).finding.path))) }
{
    match found.unit {
        Some(number) => put_in_unit(out, number, &found.finding),
        None => put_in_rule(out, &found.finding),
    }
}

/// The line that refuses a script for its first finding.
fn kinds_refusal(alloc: Global, found: &KindFinding) -> Result<String, AllocError>
    ensures { IfOk result (λ line. string_bytes line ≡ definitions.kinds_refusal
        (place_words (kind_finding found.now).unit (kind_finding found.now).finding.path)) }
{
    let mut line = String::new(alloc);
    put_refusal(&mut line, found)?;
    Ok(line)
}

/// The line that refuses a script for the findings in it; nothing if there are none.
fn kinds_fault(alloc: Global, all: &[KindFinding]) -> Result<Option<String>, AllocError>
    ensures { IfOk result (λ line.
        option_map string_bytes line ≡ definitions.kinds_fault (kind_findings all.now)) }
{
    match all {
        [] => Ok(None),
        [first, ..] => Ok(Some(kinds_refusal(alloc, first)?)),
    }
}

/// How long the longest chain of firings is, if no chain has more than may nest.
fn depth_of(alloc: Global, library: &Library) -> Result<Option<u8>, AllocError>
    ensures { IfOk result (λ depth. depth ≡ library_depth (libraries.library library.now)) }
{
    let graph = Graph::of(alloc, library)?;
    graph.longest_chain(alloc)
}

/// The line that refuses a script by the depth of its library; nothing if that is known.
fn depth_fault(alloc: Global, depth: Option<u8>) -> Result<Option<String>, AllocError>
    ensures { IfOk result (λ line. option_map string_bytes line ≡ definitions.depth_fault depth) }
{
    match depth {
        Some(_) => Ok(None),
        None => Ok(Some(format!(in alloc; "refused S8 depth\n")?)),
    }
}

/// The line that refuses a script, by what is declared of signals; nothing if a checked rule base takes the script.
///
/// An error means that memory ran out.
pub(crate) fn script_fault(
    alloc: Global,
    script: &Script,
    declaration: &Declaration,
) -> Result<Option<String>, AllocError>
    ensures { IfOk result (λ line. option_map string_bytes line
        ≡ definitions.script_fault (declared declaration.now) (timed_script script.now)) }
{
    let all = kind_findings(alloc, &script.library, declaration, &script.items)?;
    if let Some(line) = kinds_fault(alloc, &all)? {
        return Ok(Some(line));
    }
    let depth = depth_of(alloc, &script.library)?;
    depth_fault(alloc, depth)
}

/// Adds findings.
fn add_found(all: &mut Vec<Finding>, found: Vec<Finding>) -> Result<(), AllocError>
    ensures { OnOk result (findings all.new.items ≡ findings all.old.items ++ findings found.items) }
{
    for finding in found {
        all.push(finding)?;
    }
    Ok(())
}

/// The findings in units.
fn units_findings(
    alloc: Global,
    library: &Library,
    declaration: &Declaration,
    units: &[Unit],
) -> Result<Vec<Finding>, AllocError>
    ensures { IfOk result (λ all. findings all.items ≡ flat_map
        (model.unit_findings (libraries.library library.now) (declared declaration.now)) (map unit units.now)) }
{
    let mut all = Vec::new(alloc);
    for begun in units {
        let found = unit_findings(alloc, library, declaration, begun)?;
        add_found(&mut all, found)?;
    }
    Ok(all)
}

/// Adds the line that refuses an item for the first finding in its body.
fn put_body_refusal(out: &mut String, found: &Finding) -> Result<(), AllocError>
    ensures { OnOk result (Gains out.old out.new
        (definitions.kinds_refusal (path_text (to_item 1 ∷ (finding found.now).path) ∷ []))) }
{
    let steps = Steps(found.path.as_slice());
    writeln!(out, "refused S8 kinds /1{steps}")?;
    Ok(())
}

/// The line that refuses an item for the first finding in its body.
fn body_refusal(alloc: Global, found: &Finding) -> Result<String, AllocError>
    ensures { IfOk result (λ line. string_bytes line
        ≡ definitions.kinds_refusal (path_text (to_item 1 ∷ (finding found.now).path) ∷ [])) }
{
    let mut line = String::new(alloc);
    put_body_refusal(&mut line, found)?;
    Ok(line)
}

/// The line that refuses an item for the findings in its body; nothing if there are none.
fn body_fault(alloc: Global, all: &[Finding]) -> Result<Option<String>, AllocError>
    ensures { IfOk result (λ line. option_map string_bytes line ≡ definitions.body_fault (findings all.now)) }
{
    match all {
        [] => Ok(None),
        [first, ..] => Ok(Some(body_refusal(alloc, first)?)),
    }
}

/// The line that refuses what a line asks of a rule base of this library, by what is declared of signals; nothing if a
/// checked rule base does it. It takes time in the length of the line alone.
///
/// An error means that memory ran out.
pub(crate) fn request_fault(
    alloc: Global,
    library: &Library,
    request: &Request,
    declaration: &Declaration,
) -> Result<Option<String>, AllocError>
    ensures { IfOk result (λ line. option_map string_bytes line ≡ definitions.request_fault
        (libraries.library library.now) (declared declaration.now) (asked.request request.now)) }
{
    match request {
        Request::Item(schedule) => {
            let all = units_findings(alloc, library, declaration, &schedule.units)?;
            body_fault(alloc, &all)
        }
        Request::Show(_) => Ok(None),
    }
}
