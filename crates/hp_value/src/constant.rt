//! Constants of expressions.

ghost use Rattle.std.specs.Prelude.{◌≡◌, true};
ghost use Rattle.hp_model.specs.Values.{value_fits};
ghost use Rattle.hp_value.specs.Rows.{value as value_of};

use crate::value::Value;

/// A literal of an expression.
#[derive(Debug, PartialEq, Eq, Drop)]
pub struct Constant {
    value: Value,
    // An integer is within the bounds of its type.
    pub ghost fits: { value_fits (value_of value) ≡ true },
}

impl Constant {
    /// A literal of this value.
    pub fn new(value: Value) -> Constant
        ensures { value_of result.value ≡ value_of value }
    {
        Constant { value }
    }

    /// The literal's value.
    pub fn value(&self) -> &Value
        ensures { result.now ≡ self.now.value }
    {
        &self.value
    }
}
