//! Places in an index of a field.

ghost use Rattle.std.specs.Prelude.{◌≡◌, false, option_map, slice_index, IsTrue};
ghost use Rattle.std.specs.BTreeMap.Range.{IsLeBy, IsLtBy};
ghost use Rattle.std.specs.Range.Bound.{IsForward};
ghost use Rattle.hp_model.specs.Values as model;
ghost use Rattle.hp_model.specs.Values.{integer};
ghost use Rattle.hp_model.specs.Expressions.{field_in};
ghost use Rattle.hp_value.specs.Mapped as mapped;
ghost use Rattle.hp_store.specs.Indexed.{is_between};
ghost use Rattle.hp_store.specs.Mapped.{cell_value};
ghost use Rattle.hp_store.specs.Parts.{bound_of};
ghost use Rattle.hp_store.specs.Places.{place_cmp, start, key_at, place_of, place_at, value_place};

use crate::value::CellValue;
use hp_value::{Bounds, Key, Row, Value};

/// How many bytes of a text an index compares. Among texts that begin with the same bytes it may name too many.
const START: usize = 32;

/// Where an index has an object: by its value in the field, and then by its key. Whole numbers come first, and texts
/// last.
#[derive(Clone, Copy, Debug, PartialEq, Eq, PartialOrd, Ord)]
pub(crate) enum Place {
    /// A whole number.
    Number(i64, Key),
    /// No value, or one of another kind.
    Other(Key),
    /// The first bytes of a text, with zeros where it has fewer.
    Text([u8; 32], Key),
}

impl Place {
    /// The object's key.
    pub(crate) fn key(&self) -> Key
        ensures { result ≡ key_at self.now }
    {
        match self {
            Place::Number(_, key) => *key,
            Place::Other(key) => *key,
            Place::Text(_, key) => *key,
        }
    }

    // The place of an object with a row.
    fn of(key: Key, row: &Row, field: &str) -> Place
        ensures { result ≡ place_of key (field_in row.now field.now) }
    {
        match row.field(field) {
            Ok(Value::Int(number)) => Place::Number(*number, key),
            Ok(Value::Text(text)) => Place::Text(start_of(text.as_str()), key),
            _ => Place::Other(key),
        }
    }
}

/// The place of an object, by what its cell holds. One that holds no row has none.
pub(crate) fn place_in(field: &str, key: Key, value: Option<&CellValue>) -> Option<Place>
    ensures { result ≡ place_at field.now key (option_map (λ v. cell_value v.now) value.entry) }
{
    match value {
        Some(CellValue::Row(row)) => Some(Place::of(key, row, field)),
        _ => None,
    }
}

/// The least place and the greatest one between which all objects are whose values lie between two bounds. Where one is
/// None, there is none on that side.
pub(crate) fn place_bounds(bounds: Bounds<'_>) -> (Option<Place>, Option<Place>)
    ensures low { result.0 ≡ value_place i64.MIN (mapped.low bounds.entry) }
    ensures high { result.1 ≡ value_place i64.MAX (mapped.high bounds.entry) }
{
    match bounds {
        Bounds::Numbers(low, high) => (number_place(low, Key::MIN), number_place(high, Key::MAX)),
        Bounds::Texts(low, high) => (text_place(low, Key::MIN), text_place(high, Key::MAX)),
    }
}

fn number_place(number: Option<i64>, key: Key) -> Option<Place>
    ensures { result ≡ value_place key (option_map integer number) }
{
    match number {
        Some(number) => Some(Place::Number(number, key)),
        None => None,
    }
}

fn text_place(text: Option<&str>, key: Key) -> Option<Place>
    ensures { result ≡ value_place key (option_map (λ s. model.text s.now) text.entry) }
{
    match text {
        Some(text) => Some(Place::Text(start_of(text), key)),
        None => None,
    }
}

/// Whether there is no place between two places, since the low one is above the high one.
pub(crate) fn are_crossed(low: Option<Place>, high: Option<Place>) -> bool
    ensures crossed { IsTrue result → (p : Place) → is_between low high p ≡ false }
    ensures forward { result ≡ false → IsForward (IsLeBy place_cmp) (IsLtBy place_cmp) (bound_of low) (bound_of high) }
{
    match (low, high) {
        (Some(low), Some(high)) => low.cmp(&high).is_gt(),
        _ => false,
    }
}

// The first bytes of a text, with zeros where it has fewer.
fn start_of(text: &str) -> [u8; 32]
    ensures { result ≡ start 32 text.now }
{
    let bytes = text.as_bytes();
    let mut first = [0u8; START];
    for i in 0..START {
        first[i] = byte_at(bytes, i);
    }
    first
}

// The byte at a place, or 0 past the end.
fn byte_at(bytes: &[u8], i: usize) -> u8
    ensures { result ≡ slice_index bytes.now i }
{
    if i < bytes.len() { bytes[i] } else { 0 }
}
