//! The lines of rules.

ghost use Rattle.std.specs.Prelude.{◌≡◌, map, OnOk};
ghost use Rattle.hp_model.specs.Report.{status_word, rules_text};
ghost use Rattle.hp_report.specs.Mapped as model;
ghost use Rattle.hp_report.specs.Text.{Gains};

use crate::report::RuleStatus;
use hp_rule::Rule;
use std::alloc::AllocError;
use std::fmt::Write;

/// The word for a status.
fn status_word(status: RuleStatus) -> &'static str
    ensures { result.now ≡ status_word (model.status status) }
{
    match status {
        RuleStatus::Absent => "absent",
        RuleStatus::Enabled => "enabled",
        RuleStatus::Disabled => "disabled",
    }
}

/// The lines of rules, in their order.
pub fn put_rules(
    out: &mut String,
    rules: &[Rule],
    statuses: &[RuleStatus],
) -> Result<(), AllocError>
    ensures { OnOk result (Gains out.old out.new
        (rules_text (map model.rule rules.now) (map model.rule_state statuses.now))) }
{
    for (rule, status) in rules.iter().zip(statuses) {
        let name = rule.name.as_str();
        let status = status_word(*status);
        writeln!(out, "rule {name} {status}")?;
    }
    Ok(())
}
