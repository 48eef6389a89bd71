//! The index of a library: which rules an occurrence may concern, without looking at each rule.

ghost use Rattle.std.specs.Prelude.{◌≡◌, IfOk, OnOk, map};
ghost use Rattle.hp_model.specs.Occurrences.{Primitive};
ghost use Rattle.hp_value.specs.Mapped.{primitive};
ghost use Rattle.hp_detect.specs.Mapped.{event};
ghost use Rattle.hp_rule.specs.Statements.{rule};
ghost use Rattle.hp_rule.specs.Noted.{noted_if};
ghost use Rattle.hp_rule.specs.Index.{may_mention, candidates};
ghost use Rattle.hp_rule.specs.RuleLists as lists_of;

use crate::note::rule_number;
use crate::rule::Rule;
use crate::rule_lists::{RuleLists, Subject};
use hp_detect::EventExpr;
use hp_value::{Prim, RuleNo};
use std::alloc::{AllocError, Global};

/// The rules that an occurrence may concern, in rule order.
pub(crate) fn listed<'a>(index: &'a RuleLists, prim: &Prim) -> &'a [RuleNo]
    ensures { result.now ≡ lists_of.listed index.entry.now (primitive prim.now) }
{
    match prim {
        Prim::Create { class, .. } => index.rules(Subject::Created(*class)),
        Prim::Update { class, .. } => index.rules(Subject::Updated(*class)),
        Prim::Delete { class, .. } => index.rules(Subject::Deleted(*class)),
        Prim::Signal { name, .. } => index.rules(Subject::Signalled(name.as_str())),
        Prim::Commit => index.rules(Subject::Commit),
        Prim::Time(_) => index.rules(Subject::Moment),
    }
}

/// Adds a rule to the lists of all patterns of its event.
fn add_event(
    index: &mut RuleLists,
    alloc: Global,
    expr: &EventExpr,
    number: RuleNo,
) -> Result<(), AllocError>
    ensures { OnOk result ((p : Primitive) →
        lists_of.listed index.new p
        ≡ noted_if (may_mention (event expr.now) p) number (lists_of.listed index.old p)) }
{
    match expr {
        EventExpr::One(pattern) => index.add(alloc, Subject::of_pattern(pattern), number),
        EventExpr::Or(a, b) | EventExpr::Seq(a, b) | EventExpr::Closure(a, b) => {
            add_event(index, alloc, a, number)?;
            add_event(index, alloc, b, number)?;
            Ok(())
        }
    }
}

/// The index of some rules: a rule is listed for a pattern of moments whatever the moments are.
///
/// An error means that memory ran out, or that there are more rules than rule numbers.
pub(crate) fn index_of(alloc: Global, rules: &[Rule]) -> Result<RuleLists, AllocError>
    ensures { IfOk result (λ index. (p : Primitive) →
        lists_of.listed index p ≡ candidates (map rule rules.now) p) }
{
    let mut index = RuleLists::new(alloc);
    for (n, rule) in rules.iter().enumerate() {
        add_event(&mut index, alloc, &rule.event, rule_number(n)?)?;
    }
    Ok(index)
}
