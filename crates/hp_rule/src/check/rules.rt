//! Rules, libraries and bodies of scripts.

ghost use Rattle.std.specs.Prelude.{◌≡◌, length, map};
ghost use Rattle.hp_value.specs.Mapped.{class_def};
ghost use Rattle.hp_rule.specs.Statements.{rule, library_of};
ghost use Rattle.hp_model.specs.Checked.{is_known, rule_names, head_check, heads_check};
ghost use Rattle.hp_model.specs.Checked.{rule_check, rules_check, depth_check, library_check};
ghost use Rattle.hp_rule.specs.Faults.{Passes};
ghost use Rattle.hp_rule.specs.Places.{steps};

use crate::check::classes::check_classes;
use crate::check::condition::check_condition;
use crate::check::event::check_event;
use crate::check::name::{check_limit, check_unless};
use crate::check::scope::Scope;
use crate::check::statement::check_whole_body;
use crate::context::Context;
use crate::fault::{CheckError, Limit, over_limit};
use crate::known_names::KnownNames;
use crate::place::{Member, Place};
use crate::rule::Rule;
use hp_value::ClassDef;
use std::alloc::Global;

const MAX_RULES: usize = 256;

const MAX_EVENT_LEVELS: usize = 16;

const MAX_DEPTH: u8 = 16;

/// Whether a rule has this name.
fn has_rule(rules: &[Rule], name: &str) -> bool
    ensures { result ≡ is_known (rule_names (map rule rules.now)) name.now }
{
    rules.iter().any(|rule| rule.name.as_str() == name)
}

#[tactic(auto, unfolding(hp_model::specs::Checked::head_check))]
fn check_head(
    alloc: Global,
    place: &Place<'_>,
    before: &[Rule],
    headed: &Rule,
) -> Result<(), CheckError>
    ensures { Passes result (head_check (map rule before.now) (steps place.now) (rule headed.now)) }
{
    let name = headed.name.as_str();
    check_unless(alloc, &place.item(0), name, has_rule(before, name))
}

/// Checks the names of the rules.
#[tactic(auto, unfolding(hp_model::specs::Checked::heads_check))]
fn check_heads(alloc: Global, place: &Place<'_>, rules: &[Rule]) -> Result<(), CheckError>
    ensures { Passes result (heads_check (steps place.now) (map rule rules.now)) }
{
    check_limit(MAX_RULES, Limit::Rules, rules.len())?;
    for (i, rule) in rules.iter().enumerate() {
        check_head(alloc, &place.item(i), &rules[..i], rule)?;
    }
    Ok(())
}

/// Checks the other parts of a rule, in a library of this number of rules.
#[tactic(auto, unfolding(hp_model::specs::Checked::rule_check))]
fn check_rule(
    alloc: Global,
    place: &Place<'_>,
    classes: &[ClassDef],
    rules: usize,
    whole: &Rule,
) -> Result<(), CheckError>
    ensures { Passes result (rule_check (map class_def classes.now) rules (steps place.now) (rule whole.now)) }
{
    check_event(
        alloc,
        &place.item(1),
        classes.len(),
        MAX_EVENT_LEVELS,
        &whole.event,
    )?;
    check_condition(alloc, &place.item(3), classes.len(), &whole.condition)?;
    let scope = Scope {
        classes,
        rules,
        in_action: true,
        condition: &whole.condition,
    };
    let context = Context {
        alloc,
        place: place.item(5),
        scope,
        names: KnownNames::Entries(&whole.condition),
    };
    check_whole_body(&context, &whole.action)
}

fn check_rules(
    alloc: Global,
    place: &Place<'_>,
    classes: &[ClassDef],
    rules: &[Rule],
) -> Result<(), CheckError>
    ensures { Passes result
        (rules_check (map class_def classes.now) (length rules.now) (steps place.now) (map rule rules.now)) }
{
    for (i, rule) in rules.iter().enumerate() {
        check_rule(alloc, &place.item(i), classes, rules.len(), rule)?;
    }
    Ok(())
}

fn check_depth(depth: u8) -> Result<(), CheckError>
    ensures { Passes result (depth_check depth) }
{
    if depth == 0 || depth > MAX_DEPTH {
        return Err(over_limit(Limit::Depth));
    }
    Ok(())
}

/// Checks a library.
#[tactic(auto, unfolding(hp_model::specs::Checked::library_check))]
pub(crate) fn check_library(
    alloc: Global,
    classes: &[ClassDef],
    rules: &[Rule],
    depth_limit: u8,
) -> Result<(), CheckError>
    ensures { Passes result (library_check (library_of classes.now rules.now depth_limit)) }
{
    check_depth(depth_limit)?;
    check_classes(alloc, &Place::Member(Member::Classes), classes)?;
    let place = Place::Member(Member::Rules);
    check_heads(alloc, &place, rules)?;
    check_rules(alloc, &place, classes, rules)
}
