//! Rules.

ghost use Rattle.std.specs.Prelude.{map, option_map};
ghost use Rattle.serde_json.specs.View.{view};
ghost use Rattle.hp_model.specs.Scopes.{names_of};
ghost use Rattle.hp_model.specs.StatementGrammar.{statements_at};
ghost use Rattle.hp_model.specs.Decode.{acting, closed_at, rule_at, rules_at};
ghost use Rattle.hp_query.specs.Mapped.{entry};
ghost use Rattle.hp_rule.specs.Mapped.{rule, statement};
ghost use Rattle.hp_rule.specs.Places.{steps};
ghost use Rattle.hp_script.specs.Forms.{head_view, heads_view, scope_view};
ghost use Rattle.hp_script.specs.Mapped.{Gives};
ghost use Rattle.hp_script.specs.Versions.{version_view};

use crate::coupling::coupling_at;
use crate::entry::condition_at;
use crate::entry_form::is_word;
use crate::event::event_at;
use crate::refusal::{DecodeError, wrong_shape};
use crate::rule_head::RuleHead;
use crate::scope::Scope;
use crate::statement::statements_at;
use hp_rule::{Entry, KnownNames, Place, Rule, Stmt};
use serde_json::Value;
use std::alloc::Global;
use std::sync::Arc;

/// The action at a place, of a rule with this condition.
fn action_at(
    alloc: Global,
    place: &Place<'_>,
    scope: &Scope<'_>,
    condition: &[Entry],
    value: &Value,
) -> Result<Vec<Stmt>, DecodeError>
    ensures { Gives (λ body. map statement body.items) result
        (statements_at (acting (scope_view scope.entry.now) (map entry condition.now))
        (record { version = version_view scope.entry.now.version; names = names_of (map entry condition.now) })
        (steps place.now) (view value.now)) }
{
    let acting = Scope {
        version: scope.version,
        classes: scope.classes,
        rules: scope.rules,
        condition,
        in_action: true,
    };
    let names = KnownNames::Entries(condition);
    statements_at(alloc, place, &acting, &names, value)
}

/// Whether a rule with this seventh part, which may be left out, is closed.
fn closed_at(alloc: Global, place: &Place<'_>, closing: Option<&Value>) -> Result<bool, DecodeError>
    ensures { Gives (λ b. b) result (closed_at (steps place.now) (option_map (λ v. view v.now) closing.entry)) }
{
    match closing {
        None => Ok(false),
        Some(closing) => if is_word("closed", closing) {
            Ok(true)
        } else {
            Err(wrong_shape(alloc, place))
        },
    }
}

/// The rule with this head.
#[tactic(auto, using(crate::proofs::Bodies::body_of_statements), unfolding(hp_model::specs::Decode::rule_at))]
fn rule_at(
    alloc: Global,
    place: &Place<'_>,
    scope: &Scope<'_>,
    head: &RuleHead<'_>,
) -> Result<Rule, DecodeError>
    ensures { Gives rule result
        (rule_at (version_view scope.entry.now.version) (scope_view scope.entry.now)
        (steps place.now) (head_view head.entry.now)) }
{
    let parts = head.parts;
    let event = event_at(alloc, &place.item(1), scope, parts.event)?;
    let event = Arc::new(alloc, event)?;
    let ec = coupling_at(alloc, &place.item(2), scope.version, parts.event_coupling)?;
    let condition = condition_at(alloc, &place.item(3), scope, parts.condition)?;
    let ca = coupling_at(alloc, &place.item(4), scope.version, parts.action_coupling)?;
    let action = action_at(
        alloc,
        &place.item(5),
        scope,
        condition.as_slice(),
        parts.action,
    )?;
    let closed = closed_at(alloc, &place.item(6), parts.closing)?;
    let name = String::from_str(alloc, head.name)?;
    Ok(Rule {
        name,
        event,
        ec,
        condition,
        ca,
        action,
        closed,
    })
}

/// The rules with these heads, which are the items of the list at a place.
pub(crate) fn rules_at(
    alloc: Global,
    place: &Place<'_>,
    scope: &Scope<'_>,
    heads: &[RuleHead<'_>],
) -> Result<Vec<Rule>, DecodeError>
    ensures { Gives (λ rules. map rule rules.items) result
        (rules_at (version_view scope.entry.now.version) (scope_view scope.entry.now)
        (steps place.now) (heads_view heads.entry.now)) }
{
    let mut rules = Vec::with_capacity(alloc, heads.len())?;
    for (i, head) in heads.iter().enumerate() {
        let rule = rule_at(alloc, &place.item(i), scope, head)?;
        rules.push(rule)?;
    }
    Ok(rules)
}
