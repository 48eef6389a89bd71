//! The heads of rules: their names, with their parts still JSON.

ghost use Rattle.std.specs.Prelude.{◌≡◌, ◌≤◌, length, map, option_map, IfOk};
ghost use Rattle.serde_json.specs.View.{view};
ghost use Rattle.hp_model.specs.RuleHeads.{rule_parts_of, rule_head_at, rule_heads_at};
ghost use Rattle.hp_rule.specs.Places.{steps};
ghost use Rattle.hp_script.specs.Heads.{closing_in, parts_view, head_view, heads_view};
ghost use Rattle.hp_script.specs.Mapped.{Gives};
ghost use Rattle.hp_script.specs.Versions.{version_view};

use crate::list::short_list_at;
use crate::names::{Names, new_name_at};
use crate::refusal::{DecodeError, shaped};
use crate::shape::list_of;
use crate::version::{Version, is_fourth};
use hp_rule::{Limit, Place};
use serde_json::Value;
use std::alloc::Global;

/// The most rules that a script may have.
const MAX_RULES: usize = 256;

/// The parts of a rule, as JSON.
#[derive(Clone, Copy)]
pub(crate) struct RuleParts<'a> {
    pub name: &'a Value,
    pub event: &'a Value,
    pub event_coupling: &'a Value,
    pub condition: &'a Value,
    pub action_coupling: &'a Value,
    pub action: &'a Value,
    /// The seventh part, if there is one.
    pub closing: Option<&'a Value>,
}

/// A rule's name, and its parts as JSON.
#[derive(Clone, Copy)]
pub(crate) struct RuleHead<'a> {
    pub name: &'a str,
    pub parts: RuleParts<'a>,
}

/// The parts after the sixth: in version 4 there may be one.
fn closing_in(version: Version, rest: &[Value]) -> Option<Option<&Value>>
    ensures { option_map (option_map (λ v. view v.now)) result ≡ closing_in (version_view version) (map view rest.now) }
{
    match rest {
        [] => Some(None),
        [closing] => if is_fourth(version) {
            Some(Some(closing))
        } else {
            None
        },
        _ => None,
    }
}

fn rule_parts_of(version: Version, value: &Value) -> Option<RuleParts<'_>>
    ensures { option_map parts_view result ≡ rule_parts_of (version_view version) (view value.now) }
{
    match list_of(value)? {
        [
            name,
            event,
            event_coupling,
            condition,
            action_coupling,
            action,
            rest @ ..,
        ] => Some(RuleParts {
            name,
            event,
            event_coupling,
            condition,
            action_coupling,
            action,
            closing: closing_in(version, rest)?,
        }),
        _ => None,
    }
}

/// The head of a rule whose name no rule before has.
#[tactic(auto, unfolding(hp_model::specs::RuleHeads::rule_head_at))]
fn rule_head_at<'a>(
    alloc: Global,
    place: &Place<'_>,
    version: Version,
    before: &[RuleHead<'_>],
    value: &'a Value,
) -> Result<RuleHead<'a>, DecodeError>
    ensures { Gives head_view result
        (rule_head_at (version_view version) (heads_view before.entry.now) (steps place.now) (view value.entry.now)) }
{
    let parts = shaped(alloc, place, rule_parts_of(version, value))?;
    let name = new_name_at(alloc, &place.item(0), Names::Heads(before), parts.name)?;
    Ok(RuleHead { name, parts })
}

/// The heads of the rules at a place.
#[tactic(auto, unfolding(hp_model::specs::RuleHeads::rule_heads_at))]
pub(crate) fn rule_heads_at<'a>(
    alloc: Global,
    place: &Place<'_>,
    version: Version,
    value: &'a Value,
) -> Result<Vec<RuleHead<'a>>, DecodeError>
    ensures reads { Gives (λ heads. heads_view heads.items) result
        (rule_heads_at (version_view version) (steps place.now) (view value.entry.now)) }
    ensures few { IfOk result (λ heads. length heads.items ≤ 256) }
{
    let values = short_list_at(alloc, place, MAX_RULES, Limit::Rules, value)?;
    let mut heads = Vec::with_capacity(alloc, values.len())?;
    for (i, value) in values.iter().enumerate() {
        let head = rule_head_at(alloc, &place.item(i), version, heads.as_slice(), value)?;
        heads.push(head)?;
    }
    Ok(heads)
}
