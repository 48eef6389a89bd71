//! Expressions.

use crate::constant::Constant;
use crate::value::Value;

/// Arithmetic operators on integers.
#[derive(Clone, Copy, Debug, PartialEq, Eq)]
pub enum Arithmetic {
    /// Addition.
    Plus,
    /// Subtraction.
    Minus,
    /// Multiplication.
    Times,
    /// Division, rounded towards zero.
    Quotient,
    /// The remainder of the division, with the dividend's sign.
    Remainder,
}

/// Comparison operators.
#[derive(Clone, Copy, Debug, PartialEq, Eq)]
pub enum Comparison {
    /// Equal.
    Equal,
    /// Not equal.
    Unequal,
    /// Less than.
    Less,
    /// At most.
    AtMost,
    /// Greater than.
    Greater,
    /// At least.
    AtLeast,
}

/// An expression.
#[derive(Debug, Drop)]
pub enum Expr {
    /// A literal.
    Constant(Constant),
    /// An arithmetic operator on two integers.
    Arithmetic(Arithmetic, Box<Expr>, Box<Expr>),
    /// A comparison of two values.
    Comparison(Comparison, Box<Expr>, Box<Expr>),
    /// The negation of an integer.
    Negated(Box<Expr>),
    /// The negation of a boolean.
    Not(Box<Expr>),
    /// Logical and; the second operand is evaluated only if the first is true.
    And(Box<Expr>, Box<Expr>),
    /// Logical or; the second operand is evaluated only if the first is false.
    Or(Box<Expr>, Box<Expr>),
    /// A field of the row of this name.
    FieldOf {
        /// The row's name.
        variable: String,
        /// The field's name.
        field: String,
    },
    /// The key of the row of this name.
    KeyOf {
        /// The row's name.
        variable: String,
    },
    /// A field of an operation's row after it.
    NewField {
        /// The index of the operation in the occurrence's parts, from 0.
        part: u16,
        /// The field's name.
        field: String,
    },
    /// A field of an operation's row before it.
    OldField {
        /// The index of the operation in the occurrence's parts, from 0.
        part: u16,
        /// The field's name.
        field: String,
    },
    /// The key of an operation's object.
    KeyIn {
        /// The index of the operation in the occurrence's parts, from 0.
        part: u16,
    },
    /// An argument of a signal.
    Argument {
        /// The index of the signal in the occurrence's parts, from 0.
        part: u16,
        /// The index of the argument, from 0.
        place: u16,
    },
    /// The moment that the clock reached.
    TimeOf {
        /// The index of the moment in the occurrence's parts, from 0.
        part: u16,
    },
    /// The count of the occurrence: how many occurrences it stands for.
    Count,
    /// The value of the `let` of this name.
    ValueOf {
        /// The name.
        name: String,
    },
    /// The clock's moment.
    Now,
}

impl PartialEq for Expr {
    ghost use Rattle.std.specs.Ordering.{on};
    ghost use Rattle.std.specs.Cmp.{on_equiv, partial_equiv_from_equiv};
    ghost use Rattle.hp_value.specs.SameExpressions.{expression_same, expression_equiv};
    ghost use Rattle.hp_value.specs.Mapped.{expression};

    ghost eq = { on expression expression_same };

    ghost laws = { partial_equiv_from_equiv (on_equiv expression expression_equiv) };

    fn eq(&self, other: &Expr) -> bool {
        match (self, other) {
            (Expr::Constant(v), Expr::Constant(w)) => v == w,
            (Expr::Arithmetic(o, a, b), Expr::Arithmetic(p, c, d)) => {
                o == p && **a == **c && **b == **d
            }
            (Expr::Comparison(o, a, b), Expr::Comparison(p, c, d)) => {
                o == p && **a == **c && **b == **d
            }
            (Expr::Negated(a), Expr::Negated(b)) | (Expr::Not(a), Expr::Not(b)) => **a == **b,
            (Expr::And(a, b), Expr::And(c, d)) | (Expr::Or(a, b), Expr::Or(c, d)) => {
                **a == **c && **b == **d
            }
            (
                Expr::FieldOf {
                    variable: x,
                    field: f,
                },
                Expr::FieldOf {
                    variable: y,
                    field: g,
                },
            ) => x == y && f == g,
            (Expr::KeyOf { variable: x }, Expr::KeyOf { variable: y }) => x == y,
            (Expr::NewField { part: m, field: f }, Expr::NewField { part: n, field: g })
            | (Expr::OldField { part: m, field: f }, Expr::OldField { part: n, field: g }) => {
                m == n && f == g
            }
            (Expr::KeyIn { part: m }, Expr::KeyIn { part: n })
            | (Expr::TimeOf { part: m }, Expr::TimeOf { part: n }) => m == n,
            (Expr::Argument { part: m, place: k }, Expr::Argument { part: n, place: l }) => {
                m == n && k == l
            }
            (Expr::Count, Expr::Count) | (Expr::Now, Expr::Now) => true,
            (Expr::ValueOf { name: x }, Expr::ValueOf { name: y }) => x == y,
            _ => false,
        }
    }
}

impl Eq for Expr {
    ghost use Rattle.std.specs.Cmp.{on_equiv};
    ghost use Rattle.hp_value.specs.SameExpressions.{expression_equiv};
    ghost use Rattle.hp_value.specs.Mapped.{expression};

    ghost laws = { on_equiv expression expression_equiv };
}

impl Expr {
    ghost use Rattle.std.specs.Prelude.{◌≡◌};
    ghost use Rattle.hp_model.specs.Expressions.{constant};
    ghost use Rattle.hp_value.specs.Mapped.{value as value_of, expression};

    /// A constant expression.
    pub fn literal(value: Value) -> Expr
        ensures { expression result ≡ constant (value_of value) }
    {
        Expr::Constant(Constant::new(value))
    }
}
