//! The classes, rules and queries that a body may name.

ghost use Rattle.std.specs.Prelude.{length, ◌≤◌};
ghost use Rattle.hp_script.specs.Names.{names_of};

use crate::names::Names;
use crate::version::Version;
use hp_rule::{Entry, Library};
use hp_value::ClassDef;

/// The classes, rules and queries that a body may name, and the version of its forms.
#[derive(Clone, Copy)]
pub(crate) struct Scope<'a> {
    pub version: Version,
    pub classes: &'a [ClassDef],
    pub rules: Names<'a>,
    /// In a rule's action the rule's condition; else none.
    pub condition: &'a [Entry],
    pub in_action: bool,
    ghost few_classes: { length classes.now ≤ 64 },
    ghost few_rules: { length (names_of rules) ≤ 256 },
}

impl<'a> Scope<'a> {
    ghost use Rattle.std.specs.Prelude.{◌≡◌};
    ghost use Rattle.hp_rule.specs.Mapped.{library as model_library};
    ghost use Rattle.hp_script.specs.Forms.{scope_view};
    ghost use Rattle.hp_script.specs.Scopes.{library_scope};

    /// What the body of a transaction over this library may name.
    pub(crate) fn of_library(version: Version, library: &'a Library) -> Scope<'a>
        ensures scope { scope_view result ≡ library_scope (model_library library.entry.now) }
        ensures version { result.version ≡ version }
    {
        Scope {
            version,
            classes: library.classes(),
            rules: Names::Rules(library.rules()),
            condition: &[],
            in_action: false,
        }
    }
}
