//! What is refused of rules.

ghost use Rattle.std.specs.Prelude.{◌≡◌, IfOk, OnOk, map};
ghost use Rattle.hp_query.specs.Mapped.{entry, query};
ghost use Rattle.hp_model.specs.Kinds.{query_classes, with_entries};
ghost use Rattle.hp_rule.specs.Statements.{rule};
ghost use Rattle.hp_rule.specs.Places.{steps};
ghost use Rattle.hp_analysis.specs.Findings as model;
ghost use Rattle.hp_analysis.specs.Kinded.{Notes};
ghost use Rattle.hp_analysis.specs.Bases as bases;
ghost use Rattle.hp_analysis.specs.Places.{columns};
ghost use Rattle.hp_analysis.specs.Scopes.{library, declared, scope_in, scope_there, scope_after_entry};

use crate::kinds::finding::{Finding, note};
use crate::kinds::occurred::Occurred;
use crate::kinds::scope::{Base, Scope};
use crate::kinds::sorts::NamedSort;
use crate::kinds::statement::{check_value, find_in_body, held_sort};
use crate::kinds::test::find_in_test;
use hp_query::{Entry, Query};
use hp_rule::{Place, Rule};
use std::alloc::AllocError;

/// Adds what is refused of the predicate of a query, which stands at the place.
fn find_in_query(
    scope: &Scope<'_>,
    place: &Place<'_>,
    asked: &Query,
    notes: &mut Vec<Finding>,
) -> Result<(), AllocError>
    ensures { OnOk result (Notes notes.old notes.new (model.query_findings (library scope.now) (declared scope.now)
        (scope_in scope.now) (steps place.now) (query asked.now))) }
{
    let inner = scope.bound(asked.name.as_str(), asked.class);
    find_in_test(&inner, place, &asked.predicate, notes)
}

/// Adds what is refused of an entry of a rule's condition.
fn find_in_entry(
    scope: &Scope<'_>,
    place: &Place<'_>,
    checked: &Entry,
    notes: &mut Vec<Finding>,
) -> Result<(), AllocError>
    ensures { OnOk result (Notes notes.old notes.new (model.entry_findings (library scope.now) (declared scope.now)
        (scope_in scope.now) (steps place.now) (entry checked.now))) }
{
    match checked {
        Entry::Query(asked) => find_in_query(scope, &place.item(2), asked, notes),
        Entry::No(asked) => find_in_query(scope, &place.item(3), asked, notes),
        Entry::Let { aggregate, .. } => {
            note(notes, check_value(scope, &place.item(2), aggregate))
        }
    }
}

/// The value of an entry, with its sort: any, if the entry is refused.
fn named_sort(
    scope: &Scope<'_>,
    place: &Place<'_>,
    asked: &Entry,
) -> Result<Option<NamedSort>, AllocError>
    ensures { IfOk result (λ n. scope_after_entry (scope_in scope.now) (entry asked.now) n
        ≡ model.scope_then (library scope.now) (declared scope.now) (scope_in scope.now) (entry asked.now)) }
{
    match asked {
        Entry::Query(_) | Entry::No(_) => Ok(None),
        Entry::Let { name, aggregate } => {
            let sort = held_sort(scope, &place.item(2), aggregate)?;
            let name = String::from_str(scope.alloc, name.as_str())?;
            Ok(Some(NamedSort { name, sort }))
        }
    }
}

/// Adds what is refused of the entry of a rule's condition after these entries, with the sorts of their values.
fn find_in_next(
    occurred: &Occurred<'_>,
    before: &[Entry],
    found: &[NamedSort],
    place: &Place<'_>,
    next: &Entry,
    notes: &mut Vec<Finding>,
) -> Result<(), AllocError>
    ensures { let there = scope_there (columns occurred.now.columns) (map entry before.now) found.now in
        OnOk result (Notes notes.old notes.new (model.entry_findings (bases.library occurred.now.base)
        (bases.declared occurred.now.base) there (steps place.now) (entry next.now))) }
{
    let scope = occurred.asked(before, found);
    find_in_entry(&scope, place, next, notes)
}

/// The value of the entry of a rule's condition after these entries, with the sorts of their values.
fn next_value(
    occurred: &Occurred<'_>,
    before: &[Entry],
    found: &[NamedSort],
    place: &Place<'_>,
    next: &Entry,
) -> Result<Option<NamedSort>, AllocError>
    ensures { let there = scope_there (columns occurred.now.columns) (map entry before.now) found.now in
        IfOk result (λ n. scope_after_entry there (entry next.now) n
        ≡ model.scope_then (bases.library occurred.now.base) (bases.declared occurred.now.base)
        there (entry next.now)) }
{
    let scope = occurred.asked(before, found);
    named_sort(&scope, place, next)
}

/// Adds what is refused of the condition of a rule, and gives the sorts of its values.
fn find_in_condition(
    occurred: &Occurred<'_>,
    place: &Place<'_>,
    entries: &[Entry],
    notes: &mut Vec<Finding>,
) -> Result<Vec<NamedSort>, AllocError>
    ensures notes { OnOk result (Notes notes.old notes.new
        (model.entries_findings (bases.library occurred.now.base) (bases.declared occurred.now.base)
        (steps place.now) (model.first_scope (columns occurred.now.columns)) 0 (map entry entries.now))) }
    ensures scope { IfOk result (λ ns. scope_there (columns occurred.now.columns) (map entry entries.now) ns.items
        ≡ with_entries (bases.library occurred.now.base) (bases.declared occurred.now.base)
        (model.first_scope (columns occurred.now.columns)) (map entry entries.now)) }
{
    let mut found = Vec::new(occurred.base.alloc);
    for (i, entry) in entries.iter().enumerate() {
        let here = place.item(i);
        let before = &entries[..i];
        find_in_next(occurred, before, &found, &here, entry, notes)?;
        if let Some(named) = next_value(occurred, before, &found, &here, entry)? {
            found.push(named)?;
        }
    }
    Ok(found)
}

/// Adds what is refused of the action of a rule, with the sorts of its condition's values.
fn find_in_action(
    occurred: &Occurred<'_>,
    found: &[NamedSort],
    place: &Place<'_>,
    whole: &Rule,
    notes: &mut Vec<Finding>,
) -> Result<(), AllocError>
    ensures { let acting = rule whole.now in
        OnOk result (Notes notes.old notes.new (model.body_findings (bases.library occurred.now.base)
        (bases.declared occurred.now.base) (scope_there (columns occurred.now.columns) acting.condition found.now)
        (query_classes acting.condition) (steps place.now) 0 acting.action)) }
{
    let scope = occurred.asked(&whole.condition, found);
    find_in_body(&whole.action, &scope, place, notes)
}

/// Adds what is refused of the condition and the action of a rule.
fn find_in_parts(
    occurred: &Occurred<'_>,
    place: &Place<'_>,
    whole: &Rule,
    notes: &mut Vec<Finding>,
) -> Result<(), AllocError>
    ensures { OnOk result (Notes notes.old notes.new
        (model.parts_findings (bases.library occurred.now.base)
        (bases.declared occurred.now.base) (columns occurred.now.columns) (steps place.now) (rule whole.now))) }
{
    let found = find_in_condition(occurred, &place.item(3), &whole.condition, notes)?;
    find_in_action(occurred, &found, &place.item(5), whole, notes)
}

/// Adds what is refused of a rule, which statements may fire or not.
fn find_in_rule(
    base: Base<'_>,
    fired: bool,
    place: &Place<'_>,
    whole: &Rule,
    notes: &mut Vec<Finding>,
) -> Result<(), AllocError>
    ensures { OnOk result (Notes notes.old notes.new
        (model.rule_findings (bases.library base.entry)
        (bases.declared base.entry) fired (steps place.now) (rule whole.now))) }
{
    let occurred = Occurred::of(base, fired, &whole.event)?;
    find_in_parts(&occurred, place, whole, notes)
}

/// Adds what is refused of rules.
pub(crate) fn find_in_rules(
    base: Base<'_>,
    place: &Place<'_>,
    rules: &[Rule],
    notes: &mut Vec<Finding>,
) -> Result<(), AllocError>
    ensures { OnOk result (Notes notes.old notes.new
        (model.rules_findings (bases.library base.entry)
        (bases.declared base.entry) (steps place.now) 0 (map rule rules.now))) }
{
    for (n, rule) in rules.iter().enumerate() {
        find_in_rule(base, base.declared.is_fired(n), &place.item(n), rule, notes)?;
    }
    Ok(())
}
