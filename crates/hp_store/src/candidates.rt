//! Keys among which the objects of a part of a class are looked for.

ghost use Rattle.std.specs.Prelude.{◌≡◌, ◌∷◌, [], ℤ, Ok, false, true, IsTrue, MatchOption};
ghost use Rattle.std.specs.BTreeMap.Range.{IsLeBy, IsLtBy, is_from_start, is_past_end};
ghost use Rattle.std.specs.Ordering.{int_cmp, is_le, is_lt};
ghost use Rattle.std.specs.Range.Bound.{IsForward};
ghost use Rattle.hp_model.specs.Values as model;
ghost use Rattle.hp_model.specs.Values.{fits_64};
ghost use Rattle.hp_model.specs.ClassParts.{belongs};
ghost use Rattle.hp_value.specs.Mapped as mapped;
ghost use Rattle.hp_store.specs.Parts.{keys_left, bound_of, lies_between};

use crate::place::Place;
use crate::value::CellValue;
use hp_value::{Attribute, Bounds, Cell, ClassPart, Key};
use std::collections::btree_map::Range;
use std::collections::btree_set;
use std::ops::Bound;

/// Keys of a class's objects, one after the other.
#[derive(Drop)]
pub(crate) enum Candidates<'a> {
    /// None.
    Nothing,
    /// Those in a part of a base's table.
    OfTable(Range<'a, Key, CellValue>),
    /// Those of a part of an index.
    OfIndex(btree_set::Range<'a, Place>),
    /// Those of objects that a layer names.
    OfLayer(Range<'a, Cell, Option<CellValue>>),
}

impl Candidates<'_> {
    /// The next key. It allocates nothing.
    pub(crate) fn next(&mut self) -> Option<Key>
        ensures { MatchOption result (keys_left self.old ≡ []) (λ key. keys_left self.old ≡ key ∷ keys_left self.new) }
    {
        match self {
            Candidates::Nothing => None,
            Candidates::OfTable(range) => match range.next() {
                Some((key, _)) => Some(*key),
                None => None,
            },
            Candidates::OfIndex(range) => match range.next() {
                Some(place) => Some(place.key()),
                None => None,
            },
            Candidates::OfLayer(range) => match range.next() {
                Some((Cell::Object(_, key), _)) => Some(*key),
                _ => None,
            },
        }
    }
}

/// Two keys between which all objects of a part lie, both included. Where one is None, there is none on that side.
pub(crate) fn key_bounds(part: &ClassPart<'_>) -> (Option<Key>, Option<Key>)
    ensures { (o : model.KeyedRow) → lies_between result.0 result.1 o.key ≡ false →
        belongs (mapped.class_part part.now) o ≡ Ok false }
{
    match (part.attribute, part.bounds) {
        (Attribute::Key, Bounds::Numbers(low, high)) => (low, high),
        _ => (None, None),
    }
}

/// A bound that is included, if there is one.
pub(crate) fn included<K: Drop>(bound: Option<K>) -> Bound<K>
    ensures { result ≡ bound_of bound }
{
    match bound {
        Some(key) => Bound::Included(key),
        None => Bound::Unbounded,
    }
}

/// The least key from a low bound on, if there is one.
pub(crate) fn least_from(low: Option<Key>) -> Key
    ensures { (key : ℤ) → IsTrue (fits_64 key) → is_from_start int_cmp (bound_of low) key ≡ true →
        is_le (int_cmp result key) ≡ true }
{
    low.unwrap_or(Key::MIN)
}

/// The greatest key up to a high bound, if there is one, and at least the least key.
pub(crate) fn greatest_up_to(least: Key, high: Option<Key>) -> Key
    ensures forward { is_le (int_cmp least result) ≡ true }
    ensures up_to { (key : ℤ) → IsTrue (fits_64 key) → is_past_end int_cmp (bound_of high) key ≡ false →
        is_lt (int_cmp result key) ≡ false }
{
    match high {
        Some(high) if high < least => least,
        Some(high) => high,
        None => Key::MAX,
    }
}

/// Whether no key lies between two bounds, since the low one is above the high one.
pub(crate) fn are_crossed(low: Option<Key>, high: Option<Key>) -> bool
    ensures crossed { IsTrue result → (key : ℤ) → lies_between low high key ≡ false }
    ensures forward { result ≡ false → IsForward (IsLeBy int_cmp) (IsLtBy int_cmp) (bound_of low) (bound_of high) }
{
    match (low, high) {
        (Some(low), Some(high)) => low > high,
        _ => false,
    }
}
