//! What is known of a value before it is computed.

ghost use Rattle.std.specs.Prelude.{◌≡◌, Some};
ghost use Rattle.hp_model.specs.Values.{is_kind, kind_of};
ghost use Rattle.hp_model.specs.Kinds as model;
ghost use Rattle.hp_value.specs.Mapped.{kind, value};
ghost use Rattle.hp_analysis.specs.Kinded.{sort};

use hp_value::{Kind, Value};

/// What is known of a value before it is computed.
#[derive(Clone, Copy, Debug, PartialEq, Eq)]
pub enum Sort {
    /// It has this kind.
    Only(Kind),
    /// It has one of the three kinds, and nothing says which. It may be passed on and emitted, not computed with.
    Any,
}

/// Whether two kinds are the same.
fn is_kind(first: Kind, second: Kind) -> bool
    ensures { result ≡ is_kind (kind first) (kind second) }
{
    match (first, second) {
        (Kind::Int, Kind::Int) | (Kind::Bool, Kind::Bool) | (Kind::Text, Kind::Text) => true,
        _ => false,
    }
}

/// The kind of a literal.
pub(crate) fn kind_of(literal: &Value) -> Kind
    ensures { kind result ≡ kind_of (value literal.now) }
{
    match literal {
        Value::Int(_) => Kind::Int,
        Value::Bool(_) => Kind::Bool,
        Value::Text(_) => Kind::Text,
    }
}

impl Sort {
    /// Whether each value of this sort has this kind.
    pub fn is_only(self, wanted: Kind) -> bool
        ensures { result ≡ model.is_only (kind wanted) (Some (sort self)) }
    {
        match self {
            Sort::Only(known) => is_kind(wanted, known),
            Sort::Any => false,
        }
    }

    /// What is known of a value that has this sort or the other one.
    pub(crate) fn or(self, other: Sort) -> Sort
        ensures { sort result ≡ model.meets (sort self) (sort other) }
    {
        match (self, other) {
            (Sort::Only(known), Sort::Only(second)) if is_kind(known, second) => self,
            _ => Sort::Any,
        }
    }
}
