//! Predicates that begin by asking for a part of a class.

ghost use Rattle.std.specs.Prelude.{◌≡◌, ◌&&◌, true, Bool, IfOk, IfNone, IfSome, IsOk, None, option_map};
ghost use Rattle.std.specs.Option.{option_copied};
ghost use Rattle.hp_model.specs.Expressions.{compared};
ghost use Rattle.hp_model.specs.Values.{boolean};
ghost use Rattle.hp_value.specs.Mapped.{attribute, class_part, comparison, environment, expression, value};
ghost use Rattle.hp_query.specs.Parts.{IsFalseOutside, IsTrueInside, AsksForPart, Compares, expression_of};
ghost use Rattle.hp_query.specs.ByKey.{first_test};
ghost use Rattle.hp_query.specs.Mapped as mapped;
ghost use Rattle.hp_query.specs.Parts as parts;
ghost use Rattle.hp_query.specs.Parts.{either_side, attribute_tested, field_asked, part_asked};
ghost use Rattle.hp_query.specs.Parts.{low_bound, high_bound, part_compared, turned};
ghost use Rattle.hp_query.specs.Parts.{is_comparison, is_true_at_bounds};

use hp_value::{Attribute, Bounds, ClassPart, Comparison, Env, Expr, Halt, Value};
use std::alloc::{AllocError, Global};

/// The comparison by which a predicate begins: an attribute of its row against a value that doesn't depend on the row.
#[derive(Drop)]
pub(crate) struct AskedPart<'e> {
    attribute: Attribute<'e>,
    comparison: Comparison,
    value: Value,
    is_exact: bool,
}

impl AskedPart<'_> {
    /// Whether the predicate is known to be true of each row of the part. Otherwise it says more than the part, and is
    /// to be tested on the part's rows.
    pub(crate) fn is_exact(&self) -> bool
        ensures { result ≡ self.now.is_exact }
    {
        self.is_exact
    }

    /// The part of the class outside which the comparison is false. `None` if the value is a boolean.
    ///
    /// Both bounds are inclusive, whatever the comparison is.
    pub(crate) fn class_part(&self) -> Option<ClassPart<'_>>
        ensures part { IfSome result (λ part.
            class_part part
            ≡ part_compared (attribute self.now.attribute) (comparison self.now.comparison) (value self.now.value)) }
        ensures none { IfNone result ((b : Bool) × (value self.now.value ≡ boolean b)) }
    {
        let bounds = match &self.value {
            Value::Int(number) => {
                let (low, high) = bounds(self.comparison, *number);
                Bounds::Numbers(low, high)
            }
            Value::Text(written) => {
                let (low, high) = bounds(self.comparison, written.as_str());
                Bounds::Texts(low, high)
            }
            Value::Bool(_) => return None,
        };
        Some(ClassPart {
            attribute: self.attribute,
            bounds,
        })
    }
}

// The bounds of the values for which the comparison with `other` can be true.
fn bounds<T: Copy>(compared: Comparison, other: T) -> (Option<T>, Option<T>)
    ensures { result ≡ (low_bound (comparison compared) other, high_bound (comparison compared) other) }
{
    match compared {
        Comparison::Equal => (Some(other), Some(other)),
        Comparison::Unequal => (None, None),
        Comparison::Less | Comparison::AtMost => (None, Some(other)),
        Comparison::Greater | Comparison::AtLeast => (Some(other), None),
    }
}

/// The part of its class that a predicate asks for, if it begins by comparing the key or a field of its row with an
/// expression that doesn't depend on the row.
///
/// `None` where this isn't so or isn't recognized, and where the expression has a fault, since the predicate then has
/// that fault on the first row too.
pub(crate) fn asked_part<'e>(
    alloc: Global,
    name: &str,
    predicate: &'e Expr,
    env: &Env,
) -> Result<Option<AskedPart<'e>>, AllocError>
    ensures part { IfOk result (λ asked. option_map mapped.asked_part asked
        ≡ part_asked (environment env.now) name.now (expression predicate.now)) }
    ensures outside { IfOk result (λ asked. IfSome asked (λ a.
        IsFalseOutside (environment env.now) name.now (expression predicate.now)
        (part_compared (attribute a.attribute) (comparison a.comparison) (value a.value)))) }
    ensures inside { IfOk result (λ asked. IfSome asked (λ a. a.is_exact ≡ true →
        IsTrueInside (environment env.now) name.now (expression predicate.now)
        (part_compared (attribute a.attribute) (comparison a.comparison) (value a.value)))) }
    ensures none { attribute_tested name.now (first_test (expression predicate.now)) ≡ None → IsOk result }
{
    let Some(compared) = compared_attribute(name, predicate) else {
        return Ok(None);
    };
    // The expression is evaluated before a row is bound, so its name must not mean another row.
    let Err(_) = env.row(name) else {
        return Ok(None);
    };
    match compared.other.eval(alloc, env) {
        Ok(value) => Ok(Some(AskedPart {
            attribute: compared.attribute,
            comparison: compared.comparison,
            value,
            is_exact: is_exact(predicate, compared.comparison),
        })),
        Err(Halt::Memory) => Err(AllocError),
        Err(Halt::Cause(_)) => Ok(None),
    }
}

// Whether a predicate is one comparison alone, and one that is true at its bounds.
fn is_exact(predicate: &Expr, compared: Comparison) -> bool
    ensures { result ≡ (is_comparison (expression predicate.now) && is_true_at_bounds (comparison compared)) }
{
    match (predicate, compared) {
        (Expr::Comparison(_, _, _), Comparison::Equal | Comparison::AtMost | Comparison::AtLeast) =>
            true,
        _ => false,
    }
}

/// The field whose index finds the rows for which a predicate can be true: the predicate begins by comparing this field
/// of its row with an expression that doesn't depend on the row. With an index of the field a query costs what it
/// finds. No answer depends on it.
pub fn asked_field<'e>(name: &str, predicate: &'e Expr) -> Option<&'e str>
    ensures { option_copied result ≡ field_asked name.now (expression predicate.now) }
{
    match compared_attribute(name, predicate)?.attribute {
        Attribute::Field(field) => Some(field),
        Attribute::Key => None,
    }
}

/// A comparison with an attribute of the row on its left side.
#[derive(Clone, Copy)]
pub(crate) struct Compared<'e> {
    /// The attribute.
    pub(crate) attribute: Attribute<'e>,
    /// The comparison.
    pub(crate) comparison: Comparison,
    /// Its right side.
    pub(crate) other: &'e Expr,
}

// The comparison by which a predicate begins, if it is one of an attribute of the row of this name.
fn compared_attribute<'e>(name: &str, predicate: &'e Expr) -> Option<Compared<'e>>
    ensures tested { option_map mapped.attribute_test result
        ≡ attribute_tested name.now (first_test (expression predicate.now)) }
    ensures asks { IfSome result (λ c.
        AsksForPart name.now (expression predicate.now) (attribute c.attribute) (comparison c.comparison)
        (expression c.other.now)) }
    ensures compares { is_comparison (expression predicate.now) ≡ true → IfSome result (λ c.
        Compares name.now (expression predicate.now) (attribute c.attribute) (comparison c.comparison)
        (expression c.other.now)) }
{
    match predicate {
        Expr::And(first, _) => compared_attribute(name, first),
        Expr::Comparison(Comparison::Unequal, _, _) => None,
        Expr::Comparison(compares, a, b) => compared_side(name, *compares, a, b),
        _ => None,
    }
}

/// The comparison with these two sides, if one of them is an attribute of the row of this name.
pub(crate) fn compared_side<'e>(
    name: &str,
    compares: Comparison,
    a: &'e Expr,
    b: &'e Expr,
) -> Option<Compared<'e>>
    ensures side { option_map mapped.attribute_test result
        ≡ either_side (comparison compares) (expression a.now) (expression b.now)
        (parts.own_attribute name.now (expression a.now)) (parts.own_attribute name.now (expression b.now)) }
    ensures compares { IfSome result (λ c.
        Compares name.now (compared (comparison compares) (expression a.now) (expression b.now))
        (attribute c.attribute) (comparison c.comparison) (expression c.other.now)) }
{
    if let Some(attribute) = own_attribute(name, a) {
        return Some(Compared {
            attribute,
            comparison: compares,
            other: b,
        });
    }
    let attribute = own_attribute(name, b)?;
    Some(Compared {
        attribute,
        comparison: sides_changed(compares),
        other: a,
    })
}

// The attribute of the row of this name that an expression is, if it is one.
fn own_attribute<'e>(name: &str, expr: &'e Expr) -> Option<Attribute<'e>>
    ensures own { option_map attribute result ≡ parts.own_attribute name.now (expression expr.now) }
    ensures told { IfSome result (λ a. expression expr.now ≡ expression_of name.now (attribute a)) }
{
    match expr {
        Expr::KeyOf { variable } if variable.as_str() == name => Some(Attribute::Key),
        Expr::FieldOf { variable, field } if variable.as_str() == name => {
            Some(Attribute::Field(field.as_str()))
        }
        _ => None,
    }
}

// The comparison with its sides swapped.
fn sides_changed(compares: Comparison) -> Comparison
    ensures { comparison result ≡ turned (comparison compares) }
{
    match compares {
        Comparison::Equal => Comparison::Equal,
        Comparison::Unequal => Comparison::Unequal,
        Comparison::Less => Comparison::Greater,
        Comparison::AtMost => Comparison::AtLeast,
        Comparison::Greater => Comparison::Less,
        Comparison::AtLeast => Comparison::AtMost,
    }
}
