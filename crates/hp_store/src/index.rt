//! Indexes of fields.

ghost use Rattle.std.specs.Prelude.{◌≡◌, ◌↔◌, ℤ, All, Some, Option, true, false, map, IfSome, IfOk};
ghost use Rattle.std.specs.Prelude.{OnOk, IsTrue, ⊤, option_map, string_bytes, MatchOption};
ghost use Rattle.std.specs.BTreeMap.{is_at};
ghost use Rattle.std.specs.BTreeSet.{contains};
ghost use Rattle.std.specs.Map.{lookup};
ghost use Rattle.std.specs.Ordering.{int_cmp};
ghost use Rattle.hp_model.specs.Cells.{CellValue as Held, Cells, object_cell};
ghost use Rattle.hp_value.specs.Mapped as mapped;
ghost use Rattle.hp_store.specs.Indexed.{is_between, Stands, IsIn, HasLeft, IsComplete, AreComplete, with_value};
ghost use Rattle.hp_store.specs.Mapped.{cell_value};
ghost use Rattle.hp_store.specs.Parts.{keys_left, is_among, Covers};
ghost use Rattle.hp_store.specs.Places.{place_cmp, key_at, place_at, is_other};

use crate::candidates::{Candidates, included};
use crate::place::{Place, are_crossed, place_bounds, place_in};
use crate::value::CellValue;
use hp_value::{Attribute, Bounds, Cell, ClassNo, ClassPart, Key};
use std::alloc::{AllocError, Global};
use std::collections::{BTreeMap, BTreeSet};

/// The places of a class's objects by a field. It supports range lookup.
///
/// It only has to be complete: whoever finds a key in it looks at the object.
#[derive(Debug, Drop)]
pub(crate) struct Index {
    pub(crate) class: ClassNo,
    pub(crate) field: String,
    places: BTreeSet<Place>,
}

impl Index {
    /// An index in which nothing is.
    ///
    /// An error means that memory ran out.
    pub(crate) fn new(alloc: Global, class: ClassNo, field: &str) -> Result<Index, AllocError>
        ensures { IfOk result (λ index. index.class ≡ class) }
    {
        Ok(Index {
            class,
            field: String::from_str(alloc, field)?,
            places: BTreeSet::new(alloc),
        })
    }

    /// Whether it is the index of a field.
    pub(crate) fn is_of(&self, class: ClassNo, field: &str) -> bool
        ensures { IsTrue result ↔ ((self.now.class ≡ class) × (string_bytes self.now.field ≡ field.now)) }
    {
        self.class == class && field == self.field.as_str()
    }

    /// Keys among which all objects of a part are, if this is the index of its field. None where a value is of another
    /// kind than the part's bounds, so that it can't be compared with them.
    pub(crate) fn candidates(&self, class: ClassNo, part: &ClassPart<'_>) -> Option<Candidates<'_>>
        ensures { IfSome result (λ keys. (cells : Cells) → IsComplete cells self.now →
            Covers (is_among (keys_left keys)) (mapped.class_part part.now) class cells) }
    {
        let Attribute::Field(field) = part.attribute else {
            return None;
        };
        if !self.is_of(class, field) {
            return None;
        }
        let mut others = self.others(part.bounds);
        if others.next().is_some() {
            return None;
        }
        let (low, high) = place_bounds(part.bounds);
        Some(between(&self.places, low, high))
    }

    // The keys of objects whose values are of another kind than bounds.
    fn others(&self, bounds: Bounds<'_>) -> Candidates<'_>
        ensures { (p : Place) → Stands self.now.places p → is_other bounds.entry p ≡ true →
            is_among (keys_left result) (key_at p) ≡ true }
    {
        match bounds {
            Bounds::Numbers(_, _) => between(&self.places, Some(Place::Other(Key::MIN)), None),
            Bounds::Texts(_, _) => between(&self.places, None, Some(Place::Other(Key::MAX))),
        }
    }

    /// Takes in what an object's cell holds. The answer is false where memory runs out.
    pub(crate) fn enter(&mut self, key: Key, value: Option<&CellValue>) -> bool
        ensures same { (self.new.class ≡ self.old.class) × (self.new.field ≡ self.old.field) }
        ensures kept { (k : ℤ) (v : Option Held) → IsIn self.old k v → IsIn self.new k v }
        ensures entered { IsTrue result → IsIn self.new key (option_map (λ x. cell_value x.now) value.entry) }
    {
        let place = place_in(self.field.as_str(), key, value);
        add(&mut self.places, place)
    }

    /// Takes in what a cell holds, if it is one of an object of the class. The answer is false where memory runs out.
    pub(crate) fn enter_at(&mut self, cell: Cell, value: Option<&CellValue>) -> bool
        ensures same { self.new.class ≡ self.old.class }
        ensures kept { (k : ℤ) (v : Option Held) → IsIn self.old k v → IsIn self.new k v }
        ensures entered { IsTrue result → (key : ℤ) → mapped.cell cell ≡ object_cell self.old.class key →
            IsIn self.new key (option_map (λ x. cell_value x.now) value.entry) }
    {
        match cell {
            Cell::Object(class, key) if class == self.class => self.enter(key, value),
            _ => true,
        }
    }

    // Takes in what an object's cell holds in place of another value. The answer is false where memory runs out.
    fn renew(&mut self, key: Key, old: Option<&CellValue>, new: Option<&CellValue>) -> bool
        ensures same { self.new.class ≡ self.old.class }
        ensures kept { IsTrue result → (k : ℤ) (v : Option Held) → IsIn self.old k v →
            (k ≡ key → v ≡ option_map (λ x. cell_value x.now) new.entry) → IsIn self.new k v }
        ensures entered { IsTrue result → IsIn self.new key (option_map (λ x. cell_value x.now) new.entry) }
        ensures left { IsTrue result → HasLeft self.new.places
            (place_at (string_bytes self.old.field) key (option_map (λ x. cell_value x.now) old.entry))
            (place_at (string_bytes self.old.field) key (option_map (λ x. cell_value x.now) new.entry)) }
    {
        if !self.enter(key, new) {
            return false;
        }
        let left = place_in(self.field.as_str(), key, old);
        let place = place_in(self.field.as_str(), key, new);
        leave(&mut self.places, left, place);
        true
    }

    // Renews the place of a cell's object, if the cell is one of an object of the class.
    fn renew_at(&mut self, cell: Cell, old: Option<&CellValue>, new: Option<&CellValue>) -> bool
        ensures complete { IsTrue result → (cells : Cells) → IsComplete cells self.old →
            IsComplete (with_value cells (mapped.cell cell) (option_map (λ x. cell_value x.now) new.entry)) self.new }
        ensures left { IsTrue result → (key : ℤ) → mapped.cell cell ≡ object_cell self.old.class key →
            HasLeft self.new.places
            (place_at (string_bytes self.old.field) key (option_map (λ x. cell_value x.now) old.entry))
            (place_at (string_bytes self.old.field) key (option_map (λ x. cell_value x.now) new.entry)) }
        ensures elsewhere { ((key : ℤ) → mapped.cell cell ≡ object_cell self.old.class key → ⊥) →
            IsTrue result × (self.new ≡ self.old) }
    {
        let Cell::Object(class, key) = cell else {
            return true;
        };
        if class != self.class {
            return true;
        }
        self.renew(key, old, new)
    }

    /// Takes in the objects of a table.
    ///
    /// An error means that memory ran out.
    pub(crate) fn enter_all(&mut self, table: &BTreeMap<Key, CellValue>) -> Result<(), AllocError>
        ensures same { self.new.class ≡ self.old.class }
        ensures all { OnOk result ((key : ℤ) →
            IsIn self.new key (option_map cell_value (lookup (is_at (int_cmp key)) table.now.entries))) }
    {
        for (key, value) in table {
            if !self.enter(*key, Some(value)) {
                return Err(AllocError);
            }
        }
        Ok(())
    }
}

/// Whether one of some indexes is that of a field.
pub(crate) fn has_index(indexes: &[Index], class: ClassNo, field: &str) -> bool {
    indexes.iter().any(|index| index.is_of(class, field))
}

/// Keys among which all objects of a part are, if one of some indexes is that of its field.
pub(crate) fn indexed<'a>(
    indexes: &'a [Index],
    class: ClassNo,
    part: &ClassPart<'_>,
) -> Option<Candidates<'a>>
    ensures { IfSome result (λ keys. (cells : Cells) → AreComplete cells indexes.now →
        Covers (is_among (keys_left keys)) (mapped.class_part part.now) class cells) }
{
    for index in indexes {
        if let Some(keys) = index.candidates(class, part) {
            return Some(keys);
        }
    }
    None
}

/// Takes in what a cell holds in place of another value. Where memory runs out no index is left.
pub(crate) fn renew_all(
    indexes: &mut Vec<Index>,
    cell: Cell,
    old: Option<&CellValue>,
    new: Option<&CellValue>,
)
    ensures complete { (cells : Cells) → AreComplete cells indexes.old.items → AreComplete
        (with_value cells (mapped.cell cell) (option_map (λ x. cell_value x.now) new.entry)) indexes.new.items }
    ensures elsewhere { All (λ (i : Index). (key : ℤ) → mapped.cell cell ≡ object_cell i.class key → ⊥)
        indexes.old.items → indexes.new.items ≡ indexes.old.items }
{
    for i in 0..indexes.len() {
        if !indexes[i].renew_at(cell, old, new) {
            indexes.clear();
            return;
        }
    }
}

// Adds a place, if there is one. The answer is false where memory runs out.
fn add(places: &mut BTreeSet<Place>, place: Option<Place>) -> bool
    ensures kept { (p : Place) → contains place_cmp places.old p ≡ true → contains place_cmp places.new p ≡ true }
    ensures added { IsTrue result → MatchOption place ⊤ (λ p. contains place_cmp places.new p ≡ true) }
{
    match place {
        Some(place) => places.insert(place).is_ok(),
        None => true,
    }
}

// Takes out a place, unless it is the new one, too.
fn leave(places: &mut BTreeSet<Place>, old: Option<Place>, new: Option<Place>)
    ensures kept { (p : Place) → contains place_cmp places.old p ≡ true → (old ≡ Some p → new ≡ Some p) →
        contains place_cmp places.new p ≡ true }
    ensures left { HasLeft places.new old new }
{
    if let Some(place) = old {
        if new != Some(place) {
            places.remove(&place);
        }
    }
}

// The keys of the places between two places.
fn between(places: &BTreeSet<Place>, low: Option<Place>, high: Option<Place>) -> Candidates<'_>
    ensures { (p : Place) → contains place_cmp places.now p ≡ true → is_between low high p ≡ true →
        is_among (keys_left result) (key_at p) ≡ true }
{
    if are_crossed(low, high) {
        return Candidates::Nothing;
    }
    Candidates::OfIndex(places.range((included(low), included(high))))
}
