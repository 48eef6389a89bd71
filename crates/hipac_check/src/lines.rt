//! The lines of findings.

ghost use Rattle.std.specs.Prelude.{◌≡◌, ◌∷◌, [], map, option_map, codes, Some, None, OnOk};
ghost use Rattle.std.specs.List.{slice_index_or};
ghost use Rattle.hp_model.specs.Rules.{no_rule};
ghost use Rattle.hp_model.specs.Report.{line};
ghost use Rattle.hp_model.specs.Refusals.{to_member, to_item};
ghost use Rattle.hp_rule.specs.Statements.{rule};
ghost use Rattle.hp_report.specs.Text.{Gains};
ghost use Rattle.hp_analysis.specs.FoundKinds.{kind_finding, kind_findings};
ghost use Rattle.hp_analysis.specs.Graphs.{seen};
ghost use Rattle.hp_analysis.specs.Guards as guards;
ghost use Rattle.hp_analysis.specs.Openings as openings;
ghost use Rattle.hp_analysis.specs.Kinded.{finding};
ghost use Rattle.hp_analysis.specs.Signalled.{links};
ghost use Rattle.hp_analysis.specs.Checking as model;
ghost use Rattle.hipac_check.specs.Spots.{shown, spot_text};
ghost use Rattle.hipac_check.specs.Words.{idle_word};

use crate::shown::Why;
use crate::spots::{Spot, Spots};
use hp_analysis::{Finding, Graph, KindFinding, Link, Opening, has, opening_of};
use hp_rule::{Member, PathStep, Rule};
use std::alloc::{AllocError, Global};
use std::fmt::Write;

/// Adds the line of a finding of kinds in a unit.
fn put_in_unit(
    out: &mut String,
    spots: &Spots<'_>,
    number: usize,
    found: &Finding,
) -> Result<(), AllocError>
    ensures { OnOk result (Gains out.old out.new
        (model.found_line (shown spots.now) (record { unit = Some number; finding = finding found.now }))) }
{
    let at = spots.in_unit(number, found.path.as_slice());
    let why = Why(found.reason);
    writeln!(out, "kind unit {number} {at} {why}")?;
    Ok(())
}

/// Adds the line of a finding of kinds in a rule.
fn put_in_rule(out: &mut String, spots: &Spots<'_>, found: &Finding) -> Result<(), AllocError>
    ensures { OnOk result (Gains out.old out.new
        (model.found_line (shown spots.now) (record { unit = None; finding = finding found.now }))) }
{
    let at = spots.at(found.path.as_slice());
    let why = Why(found.reason);
    writeln!(out, "kind {at} {why}")?;
    Ok(())
}

/// Adds the line of a finding of kinds.
fn put_found(out: &mut String, spots: &Spots<'_>, found: &KindFinding) -> Result<(), AllocError>
    ensures { OnOk result (Gains out.old out.new (model.found_line (shown spots.now) (kind_finding found.now))) }
{
    match found.unit {
        Some(number) => put_in_unit(out, spots, number, &found.finding),
        None => put_in_rule(out, spots, &found.finding),
    }
}

/// Adds a line for each finding of kinds.
pub(crate) fn put_kind_lines(
    out: &mut String,
    spots: &Spots<'_>,
    all: &[KindFinding],
) -> Result<(), AllocError>
    ensures { OnOk result (Gains out.old out.new (model.kind_lines (shown spots.now) (kind_findings all.now))) }
{
    for found in all {
        put_found(out, spots, found)?;
    }
    Ok(())
}

/// The name of the rule of this number; empty if there is none.
fn name_of(rules: &[Rule], number: usize) -> &str
    ensures { result.now ≡ (slice_index_or (map rule rules.now) number no_rule).name }
{
    match rules.get(number) {
        Some(rule) => rule.name.as_str(),
        None => "",
    }
}

/// Adds a line of a word, a spot and a rule's name.
fn put_named(out: &mut String, word: &str, at: Spot<'_>, name: &str) -> Result<(), AllocError>
    ensures { OnOk result (Gains out.old out.new (line 0 (word.now ∷ spot_text at.entry ∷ name.now ∷ []))) }
{
    writeln!(out, "{word} {at} {name}")?;
    Ok(())
}

/// Adds a line of a word, the place of a rule, and its name.
fn put_rule(
    out: &mut String,
    spots: &Spots<'_>,
    word: &str,
    number: usize,
    name: &str,
) -> Result<(), AllocError>
    ensures { OnOk result (Gains out.old out.new (line 0 (word.now
        ∷ (shown spots.now).at (to_member (codes "rules") ∷ to_item number ∷ []) ∷ name.now ∷ []))) }
{
    let steps = [PathStep::Member(Member::Rules), PathStep::Item(number)];
    put_named(out, word, spots.at(&steps), name)
}

/// Adds the line of a rule of a chain.
fn put_link(
    out: &mut String,
    spots: &Spots<'_>,
    rules: &[Rule],
    number: usize,
) -> Result<(), AllocError>
    ensures { OnOk result (Gains out.old out.new (model.link_line (shown spots.now) (map rule rules.now) number)) }
{
    let name = name_of(rules, number);
    put_rule(out, spots, "chain", number, name)
}

/// Adds the line of what links two rules of a chain, if there is a link.
fn put_by(out: &mut String, spots: &Spots<'_>, found: &Option<Link>) -> Result<(), AllocError>
    ensures { OnOk result (Gains out.old out.new (model.by_line (shown spots.now) (links found.now))) }
{
    let Some(link) = found else {
        return Ok(());
    };
    let by = spots.at(link.by.as_slice());
    let event = spots.at(link.event.as_slice());
    writeln!(out, "by {by} {event}")?;
    Ok(())
}

/// Adds the line of what links a rule to the next one of a chain, if there is one.
fn put_next(
    alloc: Global,
    out: &mut String,
    spots: &Spots<'_>,
    graph: &Graph<'_>,
    number: usize,
    later: &[usize],
) -> Result<(), AllocError>
    ensures { OnOk result (Gains out.old out.new
        (model.next_line (shown spots.now) (seen graph.now.triggers) number later.now)) }
{
    match later {
        [next, ..] => {
            let link = graph.link(alloc, number, *next)?;
            put_by(out, spots, &link)
        }
        [] => Ok(()),
    }
}

/// Adds the lines of a chain of firings in a graph.
pub(crate) fn put_chain(
    alloc: Global,
    out: &mut String,
    spots: &Spots<'_>,
    rules: &[Rule],
    graph: &Graph<'_>,
    chain: &[usize],
) -> Result<(), AllocError>
    ensures { OnOk result (Gains out.old out.new
        (model.chain_lines (shown spots.now) (map rule rules.now) (seen graph.now.triggers) chain.now)) }
{
    let [n, later @ ..] = chain else {
        return Ok(());
    };
    put_link(out, spots, rules, *n)?;
    put_next(alloc, out, spots, graph, *n, later)?;
    put_chain(alloc, out, spots, rules, graph, later)
}

/// The part of a rule that may fail, by its place in the rule.
fn part_of(opening: Opening) -> usize
    ensures { result ≡ model.part_of (openings.opening opening) }
{
    match opening {
        Opening::Condition => 3,
        Opening::Action => 5,
    }
}

/// Adds the line of a guard, if it has an opening.
fn put_opening(
    out: &mut String,
    spots: &Spots<'_>,
    number: usize,
    guard: &Rule,
) -> Result<(), AllocError>
    ensures { OnOk result (Gains out.old out.new
        (model.opening_line (shown spots.now) number (rule guard.now) (guards.opening (rule guard.now)))) }
{
    let Some(opening) = opening_of(guard) else {
        return Ok(());
    };
    let part = PathStep::Item(part_of(opening));
    let steps = [
        PathStep::Member(Member::Rules),
        PathStep::Item(number),
        part,
    ];
    put_named(out, "open", spots.at(&steps), guard.name.as_str())
}

/// Adds a line for each guard with an opening.
pub(crate) fn put_openings(
    out: &mut String,
    spots: &Spots<'_>,
    rules: &[Rule],
) -> Result<(), AllocError>
    ensures { OnOk result (Gains out.old out.new (model.opening_lines (shown spots.now) 0 (map rule rules.now))) }
{
    for (n, rule) in rules.iter().enumerate() {
        put_opening(out, spots, n, rule)?;
    }
    Ok(())
}

/// The word for a rule that is never installed, or never reached.
fn idle_word(present: &[bool], reached: &[bool], number: usize) -> Option<&'static str>
    ensures { option_map (λ w. w.now) result ≡ idle_word present.now reached.now number }
{
    if !has(present, number) {
        return Some("uninstalled");
    }
    if has(reached, number) {
        return None;
    }
    Some("never")
}

/// Adds the line of a rule that is never installed, or never reached.
fn put_idle(
    out: &mut String,
    spots: &Spots<'_>,
    present: &[bool],
    reached: &[bool],
    number: usize,
    idle: &Rule,
) -> Result<(), AllocError>
    ensures { OnOk result (Gains out.old out.new
        (model.idle_line (shown spots.now) present.now reached.now number (rule idle.now))) }
{
    let Some(word) = idle_word(present, reached, number) else {
        return Ok(());
    };
    put_rule(out, spots, word, number, idle.name.as_str())
}

/// Adds a line for each rule that is never installed, or never reached.
pub(crate) fn put_idles(
    out: &mut String,
    spots: &Spots<'_>,
    present: &[bool],
    reached: &[bool],
    rules: &[Rule],
) -> Result<(), AllocError>
    ensures { OnOk result (Gains out.old out.new
        (model.idle_lines (shown spots.now) present.now reached.now 0 (map rule rules.now))) }
{
    for (n, rule) in rules.iter().enumerate() {
        put_idle(out, spots, present, reached, n, rule)?;
    }
    Ok(())
}
