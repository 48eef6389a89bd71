//! Values where they stand.

ghost use Rattle.std.specs.Prelude.{◌≡◌, IfOk};
ghost use Rattle.hp_model.specs.Expressions as model;
ghost use Rattle.hp_value.specs.Mapped.{operand, outcome, value};

use crate::halt::Cause;
use crate::value::Value;
use std::alloc::{AllocError, Global};

/// A value where it stands, as the operators of expressions take it. Its text isn't copied, so to evaluate an operand
/// allocates nothing.
#[derive(Clone, Copy)]
pub(crate) enum Operand<'a> {
    /// An integer.
    Int(i64),
    /// A boolean.
    Bool(bool),
    /// A text.
    Text(&'a String),
}

impl Value {
    /// The value where it stands.
    pub(crate) fn as_operand(&self) -> Operand<'_>
        ensures { operand result ≡ value self.now }
    {
        match self {
            Value::Int(z) => Operand::Int(*z),
            Value::Bool(b) => Operand::Bool(*b),
            Value::Text(s) => Operand::Text(s),
        }
    }
}

impl<'a> Operand<'a> {
    /// A value of its own.
    pub(crate) fn to_value(self, alloc: Global) -> Result<Value, AllocError>
        ensures { IfOk result (λ v. value v ≡ operand self.entry) }
    {
        match self {
            Operand::Int(z) => Ok(Value::Int(z)),
            Operand::Bool(b) => Ok(Value::Bool(b)),
            Operand::Text(s) => Ok(Value::Text(Box::new(alloc, s.clone()?)?)),
        }
    }

    /// The integer. `Kind` means that the value isn't one.
    pub(crate) fn as_int(self) -> Result<i64, Cause>
        ensures { outcome (λ z. z) result ≡ model.as_integer (operand self.entry) }
    {
        match self {
            Operand::Int(z) => Ok(z),
            _ => Err(Cause::Kind),
        }
    }

    /// The boolean. `Kind` means that the value isn't one.
    pub(crate) fn as_bool(self) -> Result<bool, Cause>
        ensures { outcome (λ b. b) result ≡ model.as_boolean (operand self.entry) }
    {
        match self {
            Operand::Bool(b) => Ok(b),
            _ => Err(Cause::Kind),
        }
    }

    /// Whether two values are equal. `Kind` means that they are of different kinds.
    pub(crate) fn is_equal(self, other: Operand<'_>) -> Result<bool, Cause>
        ensures { outcome (λ b. b) result ≡ model.is_equal (operand self.entry) (operand other.entry) }
    {
        match (self, other) {
            (Operand::Int(x), Operand::Int(y)) => Ok(x == y),
            (Operand::Bool(x), Operand::Bool(y)) => Ok(x == y),
            (Operand::Text(x), Operand::Text(y)) => Ok(*x == *y),
            _ => Err(Cause::Kind),
        }
    }

    /// Whether an integer is less than another, or a text precedes another byte by byte. `Kind` means that the values
    /// are neither two integers nor two texts.
    pub(crate) fn is_below(self, other: Operand<'_>) -> Result<bool, Cause>
        ensures { outcome (λ b. b) result ≡ model.is_below (operand self.entry) (operand other.entry) }
    {
        match (self, other) {
            (Operand::Int(x), Operand::Int(y)) => Ok(x < y),
            (Operand::Text(x), Operand::Text(y)) => Ok(*x < *y),
            _ => Err(Cause::Kind),
        }
    }
}
