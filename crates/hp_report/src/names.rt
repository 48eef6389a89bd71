//! Names of classes and rules.

use hp_rule::Rule;
use hp_value::{ClassDef, ClassNo, RuleNo};

/// The classes and the rules whose names a report shows.
#[derive(Clone, Copy, Debug)]
pub struct Names<'a> {
    /// The classes of a library, in its order.
    pub classes: &'a [ClassDef],
    /// Its rules, in its order.
    pub rules: &'a [Rule],
}

impl<'a> Names<'a> {
    ghost use Rattle.std.specs.Prelude.{◌≡◌};
    ghost use Rattle.hp_model.specs.Report.{class_name, rule_name};
    ghost use Rattle.hp_report.specs.Named.{library_of};

    /// The name of a class, or `""` where there is no such class.
    pub fn class(&self, class: ClassNo) -> &'a str
        ensures { result.now ≡ class_name (library_of self.now) class }
    {
        let classes = self.classes;
        classes
            .get(class as usize)
            .map_or("", |class| class.name.as_str())
    }

    /// The name of a rule, or `""` where there is no such rule.
    pub fn rule(&self, rule: RuleNo) -> &'a str
        ensures { result.now ≡ rule_name (library_of self.now) rule }
    {
        let rules = self.rules;
        rules
            .get(rule as usize)
            .map_or("", |rule| rule.name.as_str())
    }
}
