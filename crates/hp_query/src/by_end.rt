//! The least and the greatest key of a query's rows, read at one end of the class.

ghost use Rattle.std.specs.Prelude.{◌≡◌, [], ◌∷◌, Some, None, IfOk, IfSome, IsTrue, option_map};
ghost use Rattle.hp_model.specs.ClassParts.{key_attribute};
ghost use Rattle.hp_model.specs.State.{Objects, class_keys};
ghost use Rattle.hp_model.specs.Values.{integer};
ghost use Rattle.hp_value.specs.Mapped.{class_part, comparison, environment, expression};
ghost use Rattle.hp_query.specs.KeyRanges.{Meaning, IsTrueWithin, IsLeastIn, IsGreatestIn};
ghost use Rattle.hp_query.specs.KeyRanges.{key_part, stays_below, reaches};
ghost use Rattle.hp_query.specs.Looks.{ObjectsRise};
ghost use Rattle.hp_query.specs.Parts.{Compares};

use crate::by_key::is_key_of;
use crate::candidates::Asked;
use crate::look::Look;
use crate::part::{Compared, compared_side};
use crate::query::is_always_true;
use hp_value::{Attribute, Bounds, ClassNo, ClassPart, Comparison, Expr, Halt, Key, Value};
use std::alloc::{AllocError, Global};

/// The keys between two bounds, both inclusive. `None` means unbounded.
#[derive(Clone, Copy)]
pub(crate) struct KeyRange {
    low: Option<Key>,
    high: Option<Key>,
}

/// The keys of the rows for which a predicate is true, if it is the constant `true`, or one comparison of its row's key
/// with an expression that doesn't depend on the row. At no row it then has a fault.
///
/// `None` where this isn't so or isn't recognized, where the expression isn't an integer or has a fault, and for `=`,
/// by which a query asks for one row anyway.
pub(crate) fn key_range(alloc: Global, asked: &Asked<'_>) -> Result<Option<KeyRange>, AllocError>
    ensures { IfOk result (λ found. IfSome found (λ range.
        IsTrueWithin (environment asked.now.env.now) asked.now.name.now (expression asked.now.predicate.now)
        range.low range.high)) }
{
    if is_always_true(asked.predicate) {
        return Ok(Some(KeyRange {
            low: None,
            high: None,
        }));
    }
    let Some(compared) = compared_key(asked.name, asked.predicate) else {
        return Ok(None);
    };
    // The expression is evaluated before a row is bound, so its name must not mean another row.
    let Err(_) = asked.env.row(asked.name) else {
        return Ok(None);
    };
    match compared.other.eval(alloc, asked.env) {
        Ok(Value::Int(number)) => Ok(range_compared(compared.comparison, number)),
        Err(Halt::Memory) => Err(AllocError),
        _ => Ok(None),
    }
}

/// Whether a term is the key of its row, and the predicate a range of keys, as [`key_range`] recognizes it. No answer
/// depends on it.
pub(crate) fn is_key_in_range(name: &str, predicate: &Expr, term: &Expr) -> bool {
    if !is_key_of(name, term) {
        return false;
    }
    match compared_key(name, predicate) {
        Some(compared) => !matches!(compared.comparison, Comparison::Equal | Comparison::Unequal),
        None => is_always_true(predicate),
    }
}

// The comparison that a predicate is, if it is one of the key of the row of this name.
fn compared_key<'e>(name: &str, predicate: &'e Expr) -> Option<Compared<'e>>
    ensures { IfSome result (λ c.
        Compares name.now (expression predicate.now) key_attribute (comparison c.comparison) (expression c.other.now)) }
{
    let Expr::Comparison(compares, a, b) = predicate else {
        return None;
    };
    let compared = compared_side(name, *compares, a, b)?;
    match compared.attribute {
        Attribute::Key => Some(compared),
        Attribute::Field(_) => None,
    }
}

// The keys for which a comparison with a number is true.
fn range_compared(compared: Comparison, number: i64) -> Option<KeyRange>
    ensures { IfSome result (λ range. Meaning (comparison compared) number range.low range.high) }
{
    let (low, high) = match compared {
        Comparison::Less => (None, Some(number.checked_sub(1)?)),
        Comparison::AtMost => (None, Some(number)),
        Comparison::Greater => (Some(number.checked_add(1)?), None),
        Comparison::AtLeast => (Some(number), None),
        Comparison::Equal | Comparison::Unequal => return None,
    };
    Some(KeyRange { low, high })
}

/// The least key of a class's objects in a range, read in the part up to the key that is likely to be it. `None` if
/// there is none there, or if the look doesn't find the part.
///
/// An error means that memory ran out. The look may then allow fewer worlds, and nothing else has changed.
pub(crate) fn least_key<L: Look>(
    alloc: Global,
    class: ClassNo,
    range: &KeyRange,
    look: &mut L,
) -> Result<Option<Key>, AllocError>
    ensures goes_on { L.goes_on look.old look.new }
    ensures asks { L.asks class look.old look.new }
    ensures narrows { (world : Objects) → L.allows look.new world → L.allows look.old world }
    ensures key { IfOk result (λ found. IfSome found (λ key. (world : Objects) → ObjectsRise world
        → L.allows look.new world → IsLeastIn range.now.low range.now.high key (class_keys class world))) }
{
    let Some(likely) = look.likely_least(class, range.low) else {
        return Ok(None);
    };
    if !is_up_to(range.high, likely) {
        return Ok(None);
    }
    let front = part_between(range.low, Some(likely));
    let Some(rows) = look.part(alloc, class, &front)? else {
        return Ok(None);
    };
    match rows.first() {
        Some(row) => Ok(Some(row.key)),
        None => Ok(None),
    }
}

/// The greatest key of a class's objects in a range, in the same way.
pub(crate) fn greatest_key<L: Look>(
    alloc: Global,
    class: ClassNo,
    range: &KeyRange,
    look: &mut L,
) -> Result<Option<Key>, AllocError>
    ensures goes_on { L.goes_on look.old look.new }
    ensures asks { L.asks class look.old look.new }
    ensures narrows { (world : Objects) → L.allows look.new world → L.allows look.old world }
    ensures key { IfOk result (λ found. IfSome found (λ key. (world : Objects) → ObjectsRise world
        → L.allows look.new world → IsGreatestIn range.now.low range.now.high key (class_keys class world))) }
{
    let Some(likely) = look.likely_greatest(class, range.high) else {
        return Ok(None);
    };
    if !is_from(range.low, likely) {
        return Ok(None);
    }
    let back = part_between(Some(likely), range.high);
    let Some(mut rows) = look.part(alloc, class, &back)? else {
        return Ok(None);
    };
    match rows.pop() {
        Some(row) => Ok(Some(row.key)),
        None => Ok(None),
    }
}

// The objects with the keys between two bounds.
fn part_between(low: Option<Key>, high: Option<Key>) -> ClassPart<'static>
    ensures { class_part result ≡ key_part low high }
{
    ClassPart {
        attribute: Attribute::Key,
        bounds: Bounds::Numbers(low, high),
    }
}

// Whether a key isn't below a lower bound.
fn is_from(low: Option<Key>, key: Key) -> bool
    ensures { result ≡ reaches low key }
{
    match low {
        Some(low) => low <= key,
        None => true,
    }
}

// Whether a key isn't above an upper bound.
fn is_up_to(high: Option<Key>, key: Key) -> bool
    ensures { result ≡ stays_below high key }
{
    match high {
        Some(high) => key <= high,
        None => true,
    }
}
