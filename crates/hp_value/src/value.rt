//! Values and their kinds.

use crate::halt::Cause;
use std::alloc::AllocError;

/// An object's key within its class. The statement that creates the object gives it (this project's own choice).
pub type Key = i64;

/// A class, by its index in the library, from 0.
pub type ClassNo = u32;

/// A rule, by its index in the library, from 0.
pub type RuleNo = u32;

/// A value of a field, of a signal's argument, or of an expression.
#[derive(Debug, Drop)]
pub enum Value {
    /// A signed 64-bit integer.
    Int(i64),
    /// A boolean.
    Bool(bool),
    /// A text, compared byte by byte. It lies behind a pointer, so that a value takes 16 bytes.
    Text(Box<String>),
}

/// The kinds of values.
#[derive(Clone, Copy, Debug, PartialEq, Eq)]
pub enum Kind {
    /// Integers.
    Int,
    /// Booleans.
    Bool,
    /// Texts.
    Text,
}

/// The number 0, with which the unused places of a row are filled.
impl Default for Value {
    fn default() -> Value {
        Value::Int(0)
    }
}

impl PartialEq for Value {
    ghost use Rattle.std.specs.Ordering.{on};
    ghost use Rattle.std.specs.Cmp.{on_equiv, partial_equiv_from_equiv};
    ghost use Rattle.hp_value.specs.Same.{value_same, value_equiv};
    ghost use Rattle.hp_value.specs.Mapped.{value};

    ghost eq = { on value value_same };

    ghost laws = { partial_equiv_from_equiv (on_equiv value value_equiv) };

    fn eq(&self, other: &Value) -> bool {
        match (self, other) {
            (Value::Int(x), Value::Int(y)) => x == y,
            (Value::Bool(x), Value::Bool(y)) => x == y,
            (Value::Text(x), Value::Text(y)) => **x == **y,
            _ => false,
        }
    }
}

impl Eq for Value {
    ghost use Rattle.std.specs.Cmp.{on_equiv};
    ghost use Rattle.hp_value.specs.Same.{value_equiv};
    ghost use Rattle.hp_value.specs.Mapped.{value};

    ghost laws = { on_equiv value value_equiv };
}

impl Clone for Value {
    ghost use Rattle.std.specs.Prelude.{◌≡◌};
    ghost use Rattle.hp_value.specs.Mapped.{value};

    ghost is_clone = { λ x y. value y ≡ value x };

    fn clone(&self) -> Result<Value, AllocError> {
        match self {
            Value::Int(z) => Ok(Value::Int(*z)),
            Value::Bool(b) => Ok(Value::Bool(*b)),
            Value::Text(s) => Ok(Value::Text(s.clone()?)),
        }
    }
}

impl Value {
    ghost use Rattle.std.specs.Prelude.{◌≡◌};
    ghost use Rattle.hp_model.specs.Values.{kind_of, is_kind};
    ghost use Rattle.hp_model.specs.Expressions as model;
    ghost use Rattle.hp_value.specs.Mapped as mapped;
    ghost use Rattle.hp_value.specs.Mapped.{value, outcome};

    /// The kind of the value.
    pub fn kind(&self) -> Kind
        ensures { mapped.kind result ≡ kind_of (value self.now) }
    {
        match self {
            Value::Int(_) => Kind::Int,
            Value::Bool(_) => Kind::Bool,
            Value::Text(_) => Kind::Text,
        }
    }

    /// Whether the value is of a kind.
    pub fn is_of(&self, kind: Kind) -> bool
        ensures { result ≡ is_kind (mapped.kind kind) (kind_of (value self.now)) }
    {
        match (kind, self) {
            (Kind::Int, Value::Int(_)) => true,
            (Kind::Bool, Value::Bool(_)) => true,
            (Kind::Text, Value::Text(_)) => true,
            _ => false,
        }
    }

    /// The integer. `Kind` means that the value isn't one.
    pub fn as_int(&self) -> Result<i64, Cause>
        ensures { outcome (λ z. z) result ≡ model.as_integer (value self.now) }
    {
        match self {
            Value::Int(z) => Ok(*z),
            _ => Err(Cause::Kind),
        }
    }

    /// The boolean. `Kind` means that the value isn't one.
    pub fn as_bool(&self) -> Result<bool, Cause>
        ensures { outcome (λ b. b) result ≡ model.as_boolean (value self.now) }
    {
        match self {
            Value::Bool(b) => Ok(*b),
            _ => Err(Cause::Kind),
        }
    }
}
