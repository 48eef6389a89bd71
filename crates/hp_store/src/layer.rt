//! Layers of changes.

ghost use Rattle.std.specs.Prelude.{◌≡◌, ◌≤◌, ◌-◌, false, None, IfOk, IsTrue, map, option_map, length, take, drop};
ghost use Rattle.std.specs.List.Sorted.{IsStrictlySortedBy};
ghost use Rattle.std.specs.Ordering.{int_cmp};
ghost use Rattle.hp_model.specs.Cells.{Cells, changed, over};
ghost use Rattle.hp_value.specs.Mapped as mapped;
ghost use Rattle.hp_store.specs.Changes.{changes};
ghost use Rattle.hp_store.specs.Greatest.{class_end};
ghost use Rattle.hp_store.specs.Indexed.{IsComplete, AreComplete, with_value};
ghost use Rattle.hp_store.specs.Kept.{HoldsOther, MakesObjects};
ghost use Rattle.hp_store.specs.Keys.{below, above};
ghost use Rattle.hp_store.specs.Mapped as here;
ghost use Rattle.hp_store.specs.Mapped.{entry};
ghost use Rattle.hp_store.specs.Parts.{no_cells};

use crate::candidates::{Candidates, greatest_up_to, key_bounds, least_from};
use crate::index::{Index, has_index, indexed, renew_all};
use crate::value::CellValue;
use hp_value::{Cell, ClassNo, ClassPart, Key, ObjectList};
use std::alloc::{AllocError, Global};
use std::collections::BTreeMap;
use std::collections::btree_map::{Iter, Range};
use std::marker::Model;
use std::ops::Bound;

/// Changes of cells: for each cell that it names a new value, or none where the cell is emptied.
#[derive(Debug, Drop)]
pub struct Layer {
    changes: BTreeMap<Cell, Option<CellValue>>,
    // Of fields by which objects are asked for.
    indexes: Vec<Index>,
}

// A layer with fewer changes needs no index: it takes no longer to go over them.
const FEW: usize = 32;

impl Model for Layer {
    ghost use Rattle.hp_store.specs.Changes.{Entries};
    ghost use Rattle.hp_store.specs.Codes.{entries_code};

    ghost Value = { Entries };

    ghost coded = { entries_code };

    ghost use Rattle.std.specs.Prelude.{map};
    ghost use Rattle.hp_model.specs.Cells.{over};
    ghost use Rattle.hp_store.specs.Changes.{changes as changes_of, KeysFit};
    ghost use Rattle.hp_store.specs.Indexed.{AreComplete};
    ghost use Rattle.hp_store.specs.Mapped.{entry};
    ghost use Rattle.hp_store.specs.Parts.{no_cells};

    ghost view = { λ l. map entry l.changes.entries };

    ghost invariant = { λ l. KeysFit (map entry l.changes.entries)
        × AreComplete (over no_cells (changes_of (map entry l.changes.entries))) l.indexes.items };
}

impl Layer {
    ghost use Rattle.std.specs.Prelude.{◌≡◌, ◌<◌, ◌^◌, ◌↔◌, [], Some, None, IsTrue, IsSome, IsOk};
    ghost use Rattle.std.specs.Prelude.{IfOk, OnOk, OnErr, map, option_map, length};
    ghost use Rattle.std.specs.Option.{option_or};
    ghost use Rattle.hp_model.specs.Cells.{Cell as ModelCell, object_cell, with_change};
    ghost use Rattle.hp_value.specs.Mapped as mapped;
    ghost use Rattle.hp_store.specs.Changes.{changes, IsEachOnce, cell_fits};
    ghost use Rattle.hp_store.specs.Mapped as here;

    /// A layer that changes nothing.
    pub fn new(alloc: Global) -> Layer
        ensures { result ≡ [] }
    {
        Layer {
            changes: BTreeMap::new(alloc),
            indexes: Vec::new(alloc),
        }
    }

    /// How many cells the layer names.
    pub fn len(&self) -> usize
        ensures number { result ≡ length self.now }
        ensures few { result < 2 ^ 63 }
    {
        self.changes.len()
    }

    /// Whether the layer changes nothing.
    pub fn is_empty(&self) -> bool
        ensures { IsTrue result ↔ (self.now ≡ []) }
    {
        self.changes.is_empty()
    }

    /// What the layer makes of a cell, if it names it: its new value, or none where it is emptied.
    pub fn get(&self, cell: Cell) -> Option<&Option<CellValue>>
        ensures { option_map (λ c. here.change c.now) result ≡ changes self.now (mapped.cell cell) }
    {
        self.changes.get(&cell)
    }

    /// The cells that the layer names, in their order, with what it makes of them.
    pub fn iter(&self) -> Iter<'_, Cell, Option<CellValue>>
        ensures entries { map here.entry result ≡ self.now }
        ensures once { IsEachOnce self.now }
    {
        self.changes.iter()
    }

    /// Names a cell: gives it a new value, or empties it. The answer is what the layer made of the cell before, if it
    /// named it.
    ///
    /// An error means that memory ran out; the layer is then as before. A cell that the layer names already takes no
    /// memory.
    pub fn insert(
        &mut self,
        cell: Cell,
        change: Option<CellValue>,
    ) -> Result<Option<Option<CellValue>>, AllocError>
        ensures ok { OnOk result (changes self.new ≡ with_change (changes self.old) (mapped.cell cell)
            (Some (here.change change))) }
        ensures old { IfOk result (λ old. option_map here.change old ≡ changes self.old (mapped.cell cell)) }
        ensures covered { IsSome (changes self.old (mapped.cell cell)) → IsOk result }
        ensures err { OnErr result (self.new ≡ self.old) }
    {
        match cell {
            Cell::Object(class, key) => self.insert_object(class, key, change),
            _ => self.put(cell, change),
        }
    }

    // Names the cell of an object.
    fn insert_object(
        &mut self,
        class: ClassNo,
        key: Key,
        change: Option<CellValue>,
    ) -> Result<Option<Option<CellValue>>, AllocError>
        ensures ok { OnOk result (changes self.new ≡ with_change (changes self.old) (object_cell class key)
            (Some (here.change change))) }
        ensures old { IfOk result (λ old. option_map here.change old ≡ changes self.old (object_cell class key)) }
        ensures covered { IsSome (changes self.old (object_cell class key)) → IsOk result }
        ensures err { OnErr result (self.new ≡ self.old) }
    {
        self.put(Cell::Object(class, key), change)
    }

    fn put(
        &mut self,
        cell: Cell,
        change: Option<CellValue>,
    ) -> Result<Option<Option<CellValue>>, AllocError>
        requires { IsTrue (cell_fits (mapped.cell cell)) }
        ensures ok { OnOk result (changes self.new ≡ with_change (changes self.old) (mapped.cell cell)
            (Some (here.change change))) }
        ensures old { IfOk result (λ old. option_map here.change old ≡ changes self.old (mapped.cell cell)) }
        ensures covered { IsSome (changes self.old (mapped.cell cell)) → IsOk result }
        ensures err { OnErr result (self.new ≡ self.old) }
    {
        let old = self.changes.insert(cell, change)?;
        renew(&mut self.indexes, &self.changes, cell, old.as_ref());
        Ok(old)
    }

    /// Names a cell no longer. The answer is what the layer made of it before, if it named it.
    pub fn remove(&mut self, cell: Cell) -> Option<Option<CellValue>>
        ensures changes { changes self.new ≡ with_change (changes self.old) (mapped.cell cell) None }
        ensures old { option_map here.change result ≡ changes self.old (mapped.cell cell) }
    {
        let old = self.changes.remove(&cell);
        renew(&mut self.indexes, &self.changes, cell, old.as_ref());
        old
    }

    /// Keeps an index of a field of a class's objects from now on, unless the layer is small. A clone of the layer
    /// doesn't have it. It takes a look at each change once; where there is such an index, nothing is done.
    ///
    /// An error means that memory ran out.
    pub fn keep_index(
        &mut self,
        alloc: Global,
        class: ClassNo,
        field: &str,
    ) -> Result<(), AllocError>
        ensures changes { changes self.new ≡ changes self.old }
        ensures entries { self.new ≡ self.old }
    {
        if self.len() < FEW || has_index(&self.indexes, class, field) {
            return Ok(());
        }
        let index = index_of(alloc, &self.changes, class, field)?;
        self.indexes.reserve(1)?;
        self.indexes.push_reserved(index);
        Ok(())
    }

    /// Keeps the indexes, too, that are kept of another layer or a base.
    ///
    /// An error means that memory ran out.
    pub(crate) fn keep_indexes(
        &mut self,
        alloc: Global,
        indexes: &[Index],
    ) -> Result<(), AllocError>
        ensures { self.new ≡ self.old }
    {
        for index in indexes {
            self.keep_index(alloc, index.class, index.field.as_str())?;
        }
        Ok(())
    }

    /// Takes in the changes of a layer over this one. They are shared, and hold where both layers name a cell.
    ///
    /// An error means that memory ran out; some of the upper layer's changes may have been taken in. What it doesn't
    /// name is as before.
    pub fn take_in(&mut self, upper: &Layer) -> Result<(), AllocError>
        ensures ok { OnOk result ((q : ModelCell) → changes self.new q
            ≡ option_or (changes upper.now q) (changes self.old q)) }
        ensures others { (q : ModelCell) → changes upper.now q ≡ None → changes self.new q ≡ changes self.old q }
    {
        for (cell, change) in upper.iter() {
            self.insert(*cell, change.clone()?)?;
        }
        Ok(())
    }
}

impl Layer {
    ghost use Rattle.std.specs.Prelude.{◌≡◌, ◌↔◌, ℤ, ⊤, true, false, [], None, IfOk, IfSome, MatchOption, map};
    ghost use Rattle.std.specs.List.Sorted.{IsStrictlySortedBy};
    ghost use Rattle.std.specs.Ordering.{int_cmp};
    ghost use Rattle.hp_model.specs.Cells.{Cells, AreKeys, AreObjects, object_cell, over};
    ghost use Rattle.hp_store.specs.Changes.{changes, class_entries, KeysFit};
    ghost use Rattle.hp_store.specs.Greatest.{is_below, NamesNone};
    ghost use Rattle.hp_value.specs.Mapped as mapped;
    ghost use Rattle.hp_store.specs.Kept.{HoldsOther};
    ghost use Rattle.hp_store.specs.Keys.{KeysRise};
    ghost use Rattle.hp_store.specs.Mapped.{entry};
    ghost use Rattle.hp_store.specs.Parts.{keys_left, no_cells, is_among, Covers};

    /// The changes of a class's objects, by their keys.
    pub fn of_class(&self, class: ClassNo) -> Range<'_, Cell, Option<CellValue>>
        ensures entries { map entry result ≡ class_entries class self.now }
        ensures rise { KeysRise (class_entries class self.now) }
        ensures fit { KeysFit (class_entries class self.now) }
    {
        self.changes.range(Cell::Object(class, Key::MIN)..=Cell::Object(class, Key::MAX))
    }

    /// Candidate keys of a part of a class: a superset of the layer's matches. They are those of an index, if there is
    /// one of the part's field, and else those up to the part's bounds, if it is one by keys.
    pub(crate) fn candidates(&self, class: ClassNo, part: &ClassPart<'_>) -> Candidates<'_>
        ensures { Covers (is_among (keys_left result)) (mapped.class_part part.now) class
            (over no_cells (changes self.now)) }
    {
        match indexed(&self.indexes, class, part) {
            Some(keys) => keys,
            None => self.within(class, part),
        }
    }

    // The candidates of a part that no index serves.
    fn within(&self, class: ClassNo, part: &ClassPart<'_>) -> Candidates<'_>
        ensures { Covers (is_among (keys_left result)) (mapped.class_part part.now) class
            (over no_cells (changes self.now)) }
    {
        let (low, high) = key_bounds(part);
        let least = least_from(low);
        let greatest = greatest_up_to(least, high);
        let first = Cell::Object(class, least);
        let last = Cell::Object(class, greatest);
        Candidates::OfLayer(self.changes.range(first..=last))
    }

    /// The greatest key below a bound of a class's objects that the layer names, even if it removes them.
    pub(crate) fn greatest_below(&self, class: ClassNo, bound: Option<Key>) -> Option<Key>
        ensures below { IfSome result (λ key. is_below bound key ≡ true) }
        ensures above { NamesNone (changes self.now) class bound result }
    {
        let first = Bound::Included(Cell::Object(class, Key::MIN));
        match self
            .changes
            .range((first, end_of(class, bound)))
            .next_back()
        {
            Some((Cell::Object(_, key), _)) => Some(*key),
            _ => None,
        }
    }

    /// Whether the layer names an object of a class.
    pub fn names_objects_of(&self, class: ClassNo) -> bool
        ensures none { (result ≡ false) ↔ (class_entries class self.now ≡ []) }
        ensures leaves { result ≡ false → (key : ℤ) → changes self.now (object_cell class key) ≡ None }
    {
        self.of_class(class).next().is_some()
    }

    /// The objects of a class after the layer's changes, from those before them, by rising keys. None where a change
    /// gives an object something else than a row, which no operation does.
    ///
    /// The time goes with the class's objects and the changes of them, and no cell is looked up; rows are shared. An
    /// error means that memory ran out.
    pub fn objects_over(
        &self,
        alloc: Global,
        class: ClassNo,
        objects: &ObjectList,
    ) -> Result<Option<ObjectList>, AllocError>
        ensures merged { IfOk result (λ found. IfSome found (λ merged. (base : Cells) →
            AreObjects base class objects.now → AreObjects (over base (changes self.now)) class merged)) }
        ensures none { IfOk result (λ found. MatchOption found
            ((key : ℤ) × HoldsOther (over no_cells (changes self.now) (object_cell class key))) (λ merged. ⊤)) }
    {
        let mut merged = ObjectList::new(alloc);
        let keys = objects.keys();
        let mut from = 0;
        for (cell, change) in self.of_class(class) {
            if let Cell::Object(_, key) = *cell {
                let (end, next) = places(keys, from, key);
                merged.extend(objects, from, end)?;
                if !add_changed(&mut merged, key, change)? {
                    return Ok(None);
                }
                from = next;
            }
        }
        merged.extend(objects, from, keys.len())?;
        Ok(Some(merged))
    }

    /// The keys of a class's objects after the layer's changes, from the keys before them. Both rise.
    ///
    /// The time goes with the class's keys and the changes of its objects; the layer's other cells aren't looked at. An
    /// error means that memory ran out.
    pub fn keys_over(
        &self,
        alloc: Global,
        class: ClassNo,
        keys: Vec<Key>,
    ) -> Result<Vec<Key>, AllocError>
        requires { IsStrictlySortedBy int_cmp keys.items }
        ensures { IfOk result (λ merged. (base : Cells) → AreKeys base class keys.items →
            AreKeys (over base (changes self.now)) class merged.items) }
    {
        if !self.names_objects_of(class) {
            return Ok(keys);
        }
        let mut merged = Vec::with_capacity(alloc, keys.len())?;
        let mut rest = keys.as_slice();
        for (cell, change) in self.of_class(class) {
            if let Cell::Object(_, key) = *cell {
                let (below, above) = around(rest, key);
                merged.extend_from_slice(below)?;
                if change.is_some() {
                    merged.push(key)?;
                }
                rest = above;
            }
        }
        merged.extend_from_slice(rest)?;
        Ok(merged)
    }
}

// Where a range ends that has the cells of a class's objects below a bound.
fn end_of(class: ClassNo, bound: Option<Key>) -> Bound<Cell>
    ensures { result ≡ class_end class bound }
{
    match bound {
        Some(key) => Bound::Excluded(Cell::Object(class, key)),
        None => Bound::Included(Cell::Object(class, Key::MAX)),
    }
}

// The keys below a key and those above it.
fn around(keys: &[Key], key: Key) -> (&[Key], &[Key])
    requires { IsStrictlySortedBy int_cmp keys.now }
    ensures below { result.0.now ≡ below key keys.now }
    ensures above { result.1.now ≡ above key keys.now }
{
    match keys.binary_search(&key) {
        Ok(at) => (&keys[..at], &keys[at + 1..]),
        Err(at) => (&keys[..at], &keys[at..]),
    }
}

// Where the keys below a key end, of those from a place on, and where those above it begin.
fn places(keys: &[Key], from: usize, key: Key) -> (usize, usize)
    requires { from ≤ length keys.now }
    ensures start { from ≤ result.0 }
    ensures order { result.0 ≤ result.1 }
    ensures bound { result.1 ≤ length keys.now }
    ensures below { IsStrictlySortedBy int_cmp (drop from keys.now) →
        take (result.0 - from) (drop from keys.now) ≡ below key (drop from keys.now) }
    ensures above { IsStrictlySortedBy int_cmp (drop from keys.now) →
        drop result.1 keys.now ≡ above key (drop from keys.now) }
{
    match keys[from..].binary_search(&key) {
        Ok(at) => (from + at, from + at + 1),
        Err(at) => (from + at, from + at),
    }
}

// Adds an object with the row that a change gives it, unless the change deletes it. The answer is no where the change
// gives it something else.
fn add_changed(
    list: &mut ObjectList,
    key: Key,
    change: &Option<CellValue>,
) -> Result<bool, AllocError>
    ensures made { IfOk result (λ done. IsTrue done → MakesObjects list.old key (here.change change.now) list.new) }
    ensures other { IfOk result (λ done. done ≡ false → HoldsOther (here.change change.now)) }
{
    match change {
        Some(CellValue::Row(row)) => {
            list.push(key, row.clone()?)?;
            Ok(true)
        }
        Some(_) => Ok(false),
        None => Ok(true),
    }
}

// Brings indexes of a layer's objects up to date with what it makes of a cell.
fn renew(
    indexes: &mut Vec<Index>,
    named: &BTreeMap<Cell, Option<CellValue>>,
    cell: Cell,
    old: Option<&Option<CellValue>>,
)
    ensures { (cells : Cells) → AreComplete cells indexes.old.items → AreComplete
        (with_value cells (mapped.cell cell)
        (over no_cells (changes (map entry named.now.entries)) (mapped.cell cell)))
        indexes.new.items }
{
    if !indexes.is_empty() {
        renew_all(indexes, cell, value_of(old), value_of(named.get(&cell)));
    }
}

// The value that a cell has after a change.
fn value_of(change: Option<&Option<CellValue>>) -> Option<&CellValue>
    ensures { option_map (λ v. here.cell_value v.now) result
        ≡ changed None (option_map (λ c. here.change c.now) change.entry) }
{
    match change {
        Some(change) => change.as_ref(),
        None => None,
    }
}

// An index of a field of a layer's objects.
fn index_of(
    alloc: Global,
    named: &BTreeMap<Cell, Option<CellValue>>,
    class: ClassNo,
    field: &str,
) -> Result<Index, AllocError>
    ensures { IfOk result (IsComplete (over no_cells (changes (map entry named.now.entries)))) }
{
    let mut index = Index::new(alloc, class, field)?;
    for (cell, change) in named {
        if !index.enter_at(*cell, change.as_ref()) {
            return Err(AllocError);
        }
    }
    Ok(index)
}

impl Clone for Layer {
    ghost use Rattle.std.specs.Prelude.{◌≡◌};

    ghost is_clone = { λ l m. m ≡ l };

    /// A copy that shares the layer's values.
    fn clone(&self) -> Result<Layer, AllocError> {
        let changes = self.changes.clone()?;
        Ok(Layer {
            changes,
            indexes: Vec::new(*self.indexes.allocator()),
        })
    }
}
