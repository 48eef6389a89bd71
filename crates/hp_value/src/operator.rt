//! The operators of expressions.

ghost use Rattle.std.specs.Prelude.{◌≡◌, Ok, pos, neg_ℤ};
ghost use Rattle.hp_model.specs.Values.{integer};
ghost use Rattle.hp_model.specs.Expressions as model;
ghost use Rattle.hp_value.specs.Mapped.{arithmetic, comparison, operand, outcome, value};

use crate::expr::{Arithmetic, Comparison};
use crate::halt::Cause;
use crate::operand::Operand;
use crate::value::Value;

impl Arithmetic {
    /// The result of the operator on two integers.
    ///
    /// `DivideByZero` means a zero divisor, `Overflow` a result outside the range of `i64`. `i64::MIN` by -1 is an
    /// overflow for the remainder too (this project's own choice).
    pub fn calculate(self, x: i64, y: i64) -> Result<i64, Cause>
        ensures { outcome integer result ≡ model.calculate (arithmetic self) x y }
    {
        let z = match self {
            Arithmetic::Plus => x.checked_add(y),
            Arithmetic::Minus => x.checked_sub(y),
            Arithmetic::Times => x.checked_mul(y),
            Arithmetic::Quotient => {
                if y == 0 {
                    return Err(Cause::DivideByZero);
                }
                x.checked_div(y)
            }
            Arithmetic::Remainder => {
                if y == 0 {
                    return Err(Cause::DivideByZero);
                }
                x.checked_rem(y)
            }
        };
        z.ok_or(Cause::Overflow)
    }
}

impl Comparison {
    /// Whether the comparison holds of two values.
    ///
    /// `Kind` means that the values are of different kinds, or that booleans are ordered.
    pub fn compare(self, v: &Value, w: &Value) -> Result<bool, Cause>
        ensures { outcome (λ b. b) result ≡ model.compare (comparison self) (value v.now) (value w.now) }
    {
        self.compare_operands(v.as_operand(), w.as_operand())
    }

    /// Whether the comparison holds of two integers.
    pub(crate) fn is_true_of(self, x: i64, y: i64) -> bool
        ensures { Ok result ≡ model.compare (comparison self) (integer x) (integer y) }
    {
        match self {
            Comparison::Equal => x == y,
            Comparison::Unequal => x != y,
            Comparison::Less => x < y,
            Comparison::AtMost => x <= y,
            Comparison::Greater => x > y,
            Comparison::AtLeast => x >= y,
        }
    }

    /// Whether the comparison holds of two operands. The cause is that of [`Comparison::compare`].
    pub(crate) fn compare_operands(self, v: Operand<'_>, w: Operand<'_>) -> Result<bool, Cause>
        ensures { outcome (λ b. b) result ≡ model.compare (comparison self) (operand v.entry) (operand w.entry) }
    {
        match self {
            Comparison::Equal => v.is_equal(w),
            Comparison::Unequal => Ok(!v.is_equal(w)?),
            Comparison::Less => v.is_below(w),
            Comparison::AtMost => Ok(!w.is_below(v)?),
            Comparison::Greater => w.is_below(v),
            Comparison::AtLeast => Ok(!v.is_below(w)?),
        }
    }
}

/// The integer as an `i64`. `Overflow` means that it is out of range.
pub(crate) fn in_range(n: u64) -> Result<i64, Cause>
    ensures { outcome integer result ≡ model.in_range (pos n) }
{
    match i64::try_from(n) {
        Ok(z) => Ok(z),
        Err(_) => Err(Cause::Overflow),
    }
}

/// The negated integer. `Overflow` means that the integer is `i64::MIN`.
pub(crate) fn negated(x: i64) -> Result<i64, Cause>
    ensures { outcome integer result ≡ model.in_range (neg_ℤ x) }
{
    x.checked_neg().ok_or(Cause::Overflow)
}
