//! What a body may name besides rows and values.

ghost use Rattle.std.specs.Prelude.{◌≡◌, map};
ghost use Rattle.hp_value.specs.Mapped.{field};
ghost use Rattle.hp_model.specs.Checked.{fields_of};

use hp_query::Entry;
use hp_value::{ClassDef, ClassNo, Field};

/// What a body may name besides rows and values, and whether it is an action.
#[derive(Clone, Copy)]
pub(crate) struct Scope<'a> {
    pub classes: &'a [ClassDef],
    /// The number of rules.
    pub rules: usize,
    /// Whether the body is a rule's action.
    pub in_action: bool,
    /// The rule's condition, whose queries the action may use.
    pub condition: &'a [Entry],
}

impl<'a> Scope<'a> {
    ghost use Rattle.hp_rule.specs.Scopes.{scope_of};

    /// The fields of a class; none if there is no such class.
    pub(crate) fn fields_of(&self, class: ClassNo) -> &'a [Field]
        ensures { map field result.now ≡ fields_of (scope_of self.now) class }
    {
        match self.classes.get(class as usize) {
            Some(class) => &class.fields,
            None => &[],
        }
    }
}
