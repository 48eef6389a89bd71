//! The cells beneath all layers.

ghost use Rattle.std.specs.Prelude.{◌≡◌, ◌<◌, ℕ, ℤ, true, None, IfOk, IfSome, OnOk, OnErr, cond, length};
ghost use Rattle.std.specs.BTreeMap.{get, keys, is_at, IsUnchanged};
ghost use Rattle.std.specs.List.Sorted.{IsStrictlySortedBy};
ghost use Rattle.std.specs.Ordering.{int_cmp};
ghost use Rattle.hp_model.specs.Cells.{is_above};
ghost use Rattle.hp_store.specs.Greatest.{is_below, below_bound};
ghost use Rattle.hp_store.specs.Tables.{table_at};

use crate::candidates::{Candidates, are_crossed, included, key_bounds};
use crate::index::{Index, has_index, indexed, renew_all};
use crate::layer::Layer;
use crate::value::CellValue;
use hp_value::{Attribute, Bounds, Cell, ClassNo, ClassPart, Key, RuleNo};
use std::alloc::{AllocError, Global};
use std::collections::BTreeMap;
use std::ops::Bound;

/// Cells with their values: the statuses of rules and their detectors by the rules, and for each class a table of its
/// objects by their keys.
///
/// So a look-up takes one search among numbers, and the keys of a class are those of its table.
#[derive(Debug, Drop)]
pub(crate) struct Base {
    statuses: BTreeMap<RuleNo, CellValue>,
    detectors: BTreeMap<RuleNo, CellValue>,
    classes: Vec<BTreeMap<Key, CellValue>>,
    // Of fields by which objects are asked for.
    pub(crate) indexes: Vec<Index>,
}

impl Base {
    ghost use Rattle.std.specs.Prelude.{◌≡◌, ◌<◌, ◌≤◌, ◌^◌, ℕ, ℤ, true, false, [], None, IfOk, OnOk, OnErr};
    ghost use Rattle.std.specs.Prelude.{IfSome, IsSome, MatchOption, option_map, if◌then◌else◌};
    ghost use Rattle.hp_store.specs.Tables.{table_at};
    ghost use Rattle.hp_model.specs.Cells.{Cell as ModelCell, object_cell, AreKeys, IsCount, over, same_cell, is_above};
    ghost use Rattle.hp_value.specs.Mapped as mapped;
    ghost use Rattle.hp_store.specs.Changes.{changes};
    ghost use Rattle.hp_store.specs.Greatest.{is_below};
    ghost use Rattle.hp_store.specs.Indexed.{IsComplete, AreComplete};
    ghost use Rattle.hp_store.specs.Mapped as here;
    ghost use Rattle.hp_store.specs.Parts.{keys_left, is_among, is_of_keys, lies_between, Covers};
    ghost use Rattle.hp_store.specs.Tables.{tables, base_cells};

    /// Empty cells.
    pub(crate) fn new(alloc: Global) -> Base
        ensures cells { (q : ModelCell) → base_cells result q ≡ None }
        ensures complete { AreComplete (base_cells result) result.indexes.items }
    {
        Base {
            statuses: BTreeMap::new(alloc),
            detectors: BTreeMap::new(alloc),
            classes: Vec::new(alloc),
            indexes: Vec::new(alloc),
        }
    }

    /// The value of a cell.
    pub(crate) fn get(&self, cell: Cell) -> Option<&CellValue>
        ensures { option_map (λ v. here.cell_value v.now) result ≡ base_cells self.now (mapped.cell cell) }
    {
        match cell {
            Cell::Object(class, key) => self.object(class, key),
            Cell::Rule(rule) => self.statuses.get(&rule),
            Cell::Detector(rule) => self.detectors.get(&rule),
        }
    }

    // The value of an object's cell.
    fn object(&self, class: ClassNo, key: Key) -> Option<&CellValue>
        ensures { option_map (λ v. here.cell_value v.now) result ≡ base_cells self.now (object_cell class key) }
    {
        match self.classes.get(class as usize) {
            Some(table) => table.get(&key),
            None => None,
        }
    }

    /// The table of a class's objects, if there is one.
    pub(crate) fn table(&self, class: ClassNo) -> Option<&BTreeMap<Key, CellValue>>
        ensures { MatchOption result (table_at self.now.classes.items class ≡ []) (λ table.
            table.now.entries ≡ table_at self.now.classes.items class) }
    {
        match self.classes.get(class as usize) {
            Some(table) => Some(table),
            None => None,
        }
    }

    /// A number above those of all classes that have objects.
    pub(crate) fn class_bound(&self) -> usize
        ensures { (class : ℕ) (key : ℤ) → result ≤ class → base_cells self.now (object_cell class key) ≡ None }
    {
        self.classes.len()
    }

    /// The keys of a class, in rising order.
    ///
    /// An error means that memory ran out.
    pub(crate) fn keys(&self, alloc: Global, class: ClassNo) -> Result<Vec<Key>, AllocError>
        ensures { IfOk result (λ keys. AreKeys (base_cells self.now) class keys.items) }
    {
        match self.table(class) {
            Some(table) => {
                let list = rising(alloc, table)?;
                Ok(list)
            }
            None => Ok(Vec::new(alloc)),
        }
    }

    /// The number of a class's objects.
    pub(crate) fn count(&self, class: ClassNo) -> usize
        ensures count { IsCount (base_cells self.now) class result }
        ensures few { result < 2 ^ 63 }
    {
        match self.table(class) {
            Some(table) => table.len(),
            None => 0,
        }
    }

    /// Keys of a class among which all objects of a part are: those of an index, if there is one of the part's field,
    /// and else those up to the part's bounds, if it is one by keys.
    pub(crate) fn candidates(&self, class: ClassNo, part: &ClassPart<'_>) -> Candidates<'_>
        ensures { AreComplete (base_cells self.now) self.now.indexes.items →
            Covers (is_among (keys_left result)) (mapped.class_part part.now) class (base_cells self.now) }
    {
        match indexed(&self.indexes, class, part) {
            Some(keys) => keys,
            None => self.within(class, part),
        }
    }

    // The candidates of a part that no index serves.
    fn within(&self, class: ClassNo, part: &ClassPart<'_>) -> Candidates<'_>
        ensures { Covers (is_among (keys_left result)) (mapped.class_part part.now) class (base_cells self.now) }
    {
        let (low, high) = key_bounds(part);
        self.between(class, low, high)
    }

    /// The candidates of a part, if they are found without a look at the whole class, as those of a part by keys are.
    pub(crate) fn found(&self, class: ClassNo, part: &ClassPart<'_>) -> Option<Candidates<'_>>
        ensures covers { AreComplete (base_cells self.now) self.now.indexes.items → IfSome result (λ keys.
            Covers (is_among (keys_left keys)) (mapped.class_part part.now) class (base_cells self.now)) }
        ensures found { is_of_keys part.now ≡ true → IsSome result }
    {
        match (part.attribute, part.bounds) {
            (Attribute::Key, Bounds::Numbers(_, _)) => Some(self.within(class, part)),
            _ => indexed(&self.indexes, class, part),
        }
    }

    // The keys of a class between two bounds.
    fn between(&self, class: ClassNo, low: Option<Key>, high: Option<Key>) -> Candidates<'_>
        ensures { (key : ℤ) → lies_between low high key ≡ true → is_among (keys_left result) key ≡ false →
            base_cells self.now (object_cell class key) ≡ None }
    {
        if are_crossed(low, high) {
            return Candidates::Nothing;
        }
        match self.table(class) {
            Some(table) => Candidates::OfTable(table.range((included(low), included(high)))),
            None => Candidates::Nothing,
        }
    }

    /// The greatest key of a class's objects below a bound, or of all where there is none.
    pub(crate) fn greatest_below(&self, class: ClassNo, bound: Option<Key>) -> Option<Key>
        ensures below { IfSome result (λ key. is_below bound key ≡ true) }
        ensures above { (key : ℤ) → is_below bound key ≡ true → is_above result key ≡ true →
            base_cells self.now (object_cell class key) ≡ None }
    {
        match self.table(class) {
            Some(table) => last_below(table, bound),
            None => None,
        }
    }

    /// Gives a cell a new value, or empties it. The value is shared.
    ///
    /// An error means that memory ran out; the cells are then as before.
    pub(crate) fn set(
        &mut self,
        alloc: Global,
        cell: Cell,
        change: &Option<CellValue>,
    ) -> Result<(), AllocError>
        ensures ok { OnOk result ((q : ModelCell) → base_cells self.new q
            ≡ (if same_cell (mapped.cell cell) q then here.change change.now else base_cells self.old q)) }
        ensures err { OnErr result ((q : ModelCell) → base_cells self.new q ≡ base_cells self.old q) }
        ensures complete { AreComplete (base_cells self.old) self.old.indexes.items →
            AreComplete (base_cells self.new) self.new.indexes.items }
    {
        let old = self.replace(alloc, cell, change.clone()?)?;
        renew_all(&mut self.indexes, cell, old.as_ref(), change.as_ref());
        Ok(())
    }

    // Sets a cell without renewing indexes. The answer is the value that the cell had.
    fn replace(
        &mut self,
        alloc: Global,
        cell: Cell,
        change: Option<CellValue>,
    ) -> Result<Option<CellValue>, AllocError>
        ensures ok { OnOk result ((q : ModelCell) → base_cells self.new q
            ≡ (if same_cell (mapped.cell cell) q then here.change change else base_cells self.old q)) }
        ensures err { OnErr result ((q : ModelCell) → base_cells self.new q ≡ base_cells self.old q) }
        ensures indexes { self.new.indexes ≡ self.old.indexes }
    {
        match cell {
            Cell::Object(class, key) => {
                make_room(alloc, &mut self.classes, class as usize)?;
                let old = put(&mut self.classes[class as usize], key, change)?;
                Ok(old)
            }
            Cell::Rule(rule) => put(&mut self.statuses, rule, change),
            Cell::Detector(rule) => put(&mut self.detectors, rule, change),
        }
    }

    /// Takes in the changes of a layer. They are shared.
    ///
    /// An error means that memory ran out; some of the changes may have been taken in.
    pub(crate) fn take_in(&mut self, alloc: Global, layer: &Layer) -> Result<(), AllocError>
        ensures ok { OnOk result ((q : ModelCell) → base_cells self.new q
            ≡ over (base_cells self.old) (changes layer.now) q) }
        ensures others { (q : ModelCell) → changes layer.now q ≡ None → base_cells self.new q ≡ base_cells self.old q }
        ensures complete { AreComplete (base_cells self.old) self.old.indexes.items →
            AreComplete (base_cells self.new) self.new.indexes.items }
    {
        for (cell, change) in layer.iter() {
            self.set(alloc, *cell, change)?;
        }
        Ok(())
    }

    /// Keeps an index of a field from now on.
    ///
    /// An error means that memory ran out; no other index is kept then.
    pub(crate) fn keep_index(
        &mut self,
        alloc: Global,
        class: ClassNo,
        field: &str,
    ) -> Result<(), AllocError>
        ensures same { tables self.new ≡ tables self.old }
        ensures complete { AreComplete (base_cells self.old) self.old.indexes.items →
            AreComplete (base_cells self.new) self.new.indexes.items }
    {
        if has_index(&self.indexes, class, field) {
            return Ok(());
        }
        let index = self.index_of(alloc, class, field)?;
        self.indexes.push(index)?;
        Ok(())
    }

    // An index of a field.
    fn index_of(&self, alloc: Global, class: ClassNo, field: &str) -> Result<Index, AllocError>
        ensures { IfOk result (IsComplete (base_cells self.now)) }
    {
        let mut index = Index::new(alloc, class, field)?;
        if let Some(table) = self.table(class) {
            index.enter_all(table)?;
        }
        Ok(index)
    }
}

// The keys of a table, in rising order.
fn rising(alloc: Global, table: &BTreeMap<Key, CellValue>) -> Result<Vec<Key>, AllocError>
    ensures rise { IfOk result (λ list. IsStrictlySortedBy int_cmp list.items) }
    ensures all { IfOk result (λ list. list.items ≡ keys table.now) }
{
    table.keys().copied().collect(alloc)
}

// The greatest key of a table below a bound.
fn last_below(table: &BTreeMap<Key, CellValue>, bound: Option<Key>) -> Option<Key>
    ensures below { IfSome result (λ key. is_below bound key ≡ true) }
    ensures above { (key : ℤ) → is_below bound key ≡ true → is_above result key ≡ true →
        get int_cmp table.now key ≡ None }
{
    match table.range((Bound::Unbounded, below(bound))).next_back() {
        Some((key, _)) => Some(*key),
        None => None,
    }
}

// A bound that is excluded, if there is one.
fn below(bound: Option<Key>) -> Bound<Key>
    ensures { result ≡ below_bound bound }
{
    match bound {
        Some(key) => Bound::Excluded(key),
        None => Bound::Unbounded,
    }
}

// Tables up to a place; those that are added are empty.
fn make_room(
    alloc: Global,
    tables: &mut Vec<BTreeMap<Key, CellValue>>,
    place: usize,
) -> Result<(), AllocError>
    ensures room { OnOk result (place < length tables.new.items) }
    ensures same { (i : ℕ) → table_at tables.new.items i ≡ table_at tables.old.items i }
{
    while tables.len() <= place {
        tables.push(BTreeMap::new(alloc))?;
    }
    Ok(())
}

// Gives a key a new value, or takes it out. The answer is the value that it had.
fn put<K: Ord + Drop>(
    table: &mut BTreeMap<K, CellValue>,
    key: K,
    change: Option<CellValue>,
) -> Result<Option<CellValue>, AllocError>
    ensures ok { OnOk result ((q : K) → get K.cmp table.new q
        ≡ cond (is_at (K.cmp key) q) change (get K.cmp table.old q)) }
    ensures err { OnErr result (IsUnchanged table.old table.new) }
{
    match change {
        Some(value) => {
            let old = table.insert(key, value)?;
            Ok(old)
        }
        None => Ok(table.remove(&key)),
    }
}
