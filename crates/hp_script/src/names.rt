//! Looking things up by their names.

ghost use Rattle.std.specs.Prelude.{◌≡◌, ◌<◌, map, length, IfSome};
ghost use Rattle.serde_json.specs.View.{view};
ghost use Rattle.hp_model.specs.Parts.{place_of, new_name_at};
ghost use Rattle.hp_model.specs.Scopes.{class_names, field_names};
ghost use Rattle.hp_model.specs.RuleHeads.{rule_names};
ghost use Rattle.hp_model.specs.StatementGrammar.{assigned_names};
ghost use Rattle.hp_value.specs.Mapped.{field, class_def};
ghost use Rattle.hp_rule.specs.Mapped.{assignment, rule};
ghost use Rattle.hp_rule.specs.Places.{steps};
ghost use Rattle.hp_script.specs.Heads.{heads_view};
ghost use Rattle.hp_script.specs.Mapped.{Gives};
ghost use Rattle.hp_script.specs.Names.{names_in, names_of};

use crate::name::name_at;
use crate::refusal::{DecodeError, bad_name};
use crate::rule_head::RuleHead;
use hp_rule::{Assignment, Place, Rule};
use hp_value::{ClassDef, Field};
use serde_json::Value;
use std::alloc::Global;

/// The position of the field of this name.
fn field_place(fields: &[Field], name: &str) -> Option<usize>
    ensures place { result ≡ place_of (field_names (map field fields.now)) name.now }
    ensures inside { IfSome result (λ n. n < length fields.now) }
{
    fields.iter().position(|field| field.name.as_str() == name)
}

/// The position of the class of this name.
pub(crate) fn class_place(classes: &[ClassDef], name: &str) -> Option<usize>
    ensures place { result ≡ place_of (class_names (map class_def classes.now)) name.now }
    ensures inside { IfSome result (λ n. n < length classes.now) }
{
    classes.iter().position(|class| class.name.as_str() == name)
}

/// The position of the rule of this name among those whose other parts are still JSON.
fn head_place(heads: &[RuleHead<'_>], name: &str) -> Option<usize>
    ensures place { result ≡ place_of (rule_names (heads_view heads.entry.now)) name.now }
    ensures inside { IfSome result (λ n. n < length heads.entry.now) }
{
    heads.iter().position(|head| head.name == name)
}

/// The position of the rule of this name.
fn rule_place(rules: &[Rule], name: &str) -> Option<usize>
    ensures place { result ≡ place_of (names_in (map rule rules.now)) name.now }
    ensures inside { IfSome result (λ n. n < length rules.now) }
{
    rules.iter().position(|rule| rule.name.as_str() == name)
}

/// The position of the assignment to the field of this name.
fn assignment_place(assignments: &[Assignment], name: &str) -> Option<usize>
    ensures place { result ≡ place_of (assigned_names (map assignment assignments.now)) name.now }
    ensures inside { IfSome result (λ n. n < length assignments.now) }
{
    assignments
        .iter()
        .position(|assignment| assignment.field.as_str() == name)
}

/// Lists whose items have names.
#[derive(Clone, Copy)]
pub(crate) enum Names<'a> {
    Fields(&'a [Field]),
    Classes(&'a [ClassDef]),
    /// Rules whose other parts are still JSON.
    Heads(&'a [RuleHead<'a>]),
    /// The rules of a library.
    Rules(&'a [Rule]),
    /// An assignment goes by the name of the field that it sets.
    Assignments(&'a [Assignment]),
}

impl Names<'_> {
    /// The position of the first item of this name.
    pub(crate) fn place(&self, name: &str) -> Option<usize>
        ensures place { result ≡ place_of (names_of self.entry.now) name.now }
        ensures inside { IfSome result (λ n. n < length (names_of self.entry.now)) }
    {
        match self {
            Names::Fields(fields) => field_place(fields, name),
            Names::Classes(classes) => class_place(classes, name),
            Names::Heads(heads) => head_place(heads, name),
            Names::Rules(rules) => rule_place(rules, name),
            Names::Assignments(assignments) => assignment_place(assignments, name),
        }
    }
}

/// The name at a place, which none of the items before has.
#[tactic(auto, unfolding(hp_model::specs::Parts::new_name_at))]
pub(crate) fn new_name_at<'a>(
    alloc: Global,
    place: &Place<'_>,
    before: Names<'_>,
    value: &'a Value,
) -> Result<&'a str, DecodeError>
    ensures { Gives (λ x. x.now) result
        (new_name_at (names_of before.entry) (steps place.now) (view value.entry.now)) }
{
    let name = name_at(alloc, place, value)?;
    if before.place(name).is_some() {
        return Err(bad_name(alloc, place));
    }
    Ok(name)
}
