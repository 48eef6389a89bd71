//! Snapshots of a state's cells.

ghost use Rattle.std.specs.Prelude.{◌≡◌, ◌≤◌, ◌↔◌, None, Some, MatchOption, IsTrue, IfOk, OnOk, option_map, length};
ghost use Rattle.std.specs.List.Sorted.{IsStrictlySortedBy};
ghost use Rattle.std.specs.Ordering.{int_cmp};
ghost use Rattle.hp_model.specs.Cells.{Cell as ModelCell, AreKeys, row_value, over};
ghost use Rattle.hp_store.specs.Changes.{changes_in};
ghost use Rattle.hp_store.specs.Indexed.{AreComplete};
ghost use Rattle.hp_store.specs.Kept.{HoldsNoRow};
ghost use Rattle.hp_store.specs.Mapped as here;
ghost use Rattle.hp_store.specs.Tables.{tables, base_cells};

use crate::base::Base;
use crate::kept::{KeptList, note_asked, still_asked, still_kept};
use crate::layer::Layer;
use crate::shared::{Layers, SharedLayer, copied, newest, stacked};
use crate::value::CellValue;
use hp_value::{Cell, ClassNo, Key, ObjectList, Row};
use smallvec::SmallVec;
use std::alloc::{AllocError, Global};
use std::collections::BTreeMap;
use std::marker::Model;
use std::sync::Arc;

/// The cells of a state at one time, as many readers share them: a base, and at most eight layers of changes over it.
///
/// To a clause it is its base and the layers' entries; `cells_in` has the cells (`specs/Stack.antt`). Nothing that is
/// written later changes it.
#[derive(Debug, Drop)]
pub struct Snapshot {
    pub(crate) base: Arc<Base>,
    // The newest last.
    pub(crate) layers: Layers,
    // Classes that were listed ahead, for all that start from the snapshot.
    lists: Vec<KeptList>,
    // Those of these classes that were asked for since one of their objects changed.
    asked: Vec<ClassNo>,
}

impl Model for Snapshot {
    ghost use Rattle.hp_store.specs.Stack.{Stack, stack_code};

    ghost Value = { Stack };

    ghost coded = { stack_code };

    ghost use Rattle.std.specs.Prelude.{◌≤◌, length};
    ghost use Rattle.hp_store.specs.Tables.{tables};

    ghost view = { λ s. record { base = tables s.base.value; layers = s.layers.items } };

    ghost use Rattle.hp_model.specs.Cells.{over};
    ghost use Rattle.hp_store.specs.Changes.{changes_in};
    ghost use Rattle.hp_store.specs.Kept.{HoldsNoRow};
    ghost use Rattle.hp_store.specs.Mapped as here;
    ghost use Rattle.hp_store.specs.Indexed.{AreComplete};
    ghost use Rattle.hp_store.specs.Kept.{AreKept};
    ghost use Rattle.hp_store.specs.Tables.{base_cells};

    ghost invariant = { λ s. (length s.layers.items ≤ 8)
        × AreKept (over (base_cells s.base.value) (changes_in s.layers.items)) s.lists.items
        × AreComplete (base_cells s.base.value) s.base.value.indexes.items };
}

impl Snapshot {
    ghost use Rattle.std.specs.Prelude.{◌≡◌, ◌≤◌, ◌↔◌, ℤ, ⊤, None, Some, All, IfOk, IfSome};
    ghost use Rattle.std.specs.Prelude.{MatchOption, OnOk, OnErr, IsTrue, option_map, length};
    ghost use Rattle.hp_model.specs.Values as model;
    ghost use Rattle.hp_model.specs.Cells.{Cell as ModelCell, AreKeys, AreObjects, object_cell, row_value, over};
    ghost use Rattle.hp_value.specs.Mapped as mapped;
    ghost use Rattle.hp_store.specs.Changes.{changes};
    ghost use Rattle.hp_store.specs.Kept.{HoldsOther, OneLacks};
    ghost use Rattle.hp_store.specs.Mapped as here;
    ghost use Rattle.hp_store.specs.Stack.{cells_in};

    /// A snapshot in which each cell is empty.
    ///
    /// An error means that memory ran out.
    pub fn empty(alloc: Global) -> Result<Snapshot, AllocError>
        ensures { IfOk result (λ s. (q : ModelCell) → cells_in s q ≡ None) }
    {
        Ok(Snapshot {
            base: Arc::new(alloc, Base::new(alloc))?,
            layers: SmallVec::new(alloc),
            lists: Vec::new(alloc),
            asked: Vec::new(alloc),
        })
    }

    /// How many layers lie over the base, at most eight.
    pub fn layers(&self) -> usize
        ensures number { result ≡ length self.now.layers }
        ensures most { result ≤ 8 }
    {
        self.layers.len()
    }

    /// The value of a cell, or none where the cell is empty. Nothing is copied.
    pub fn get(&self, cell: Cell) -> Option<&CellValue>
        ensures { option_map (λ v. here.cell_value v.now) result ≡ cells_in self.now (mapped.cell cell) }
    {
        match newest(&self.layers, cell) {
            Some(change) => change.as_ref(),
            None => self.base.get(cell),
        }
    }

    /// The keys of a class's objects, in rising order.
    ///
    /// The time goes with the class's keys and the layers' changes of its objects; other cells aren't looked at. An
    /// error means that memory ran out.
    pub fn keys(&self, alloc: Global, class: ClassNo) -> Result<Vec<Key>, AllocError>
        ensures { IfOk result (λ keys. AreKeys (cells_in self.now) class keys.items) }
    {
        let keys = keys_of(alloc, class, &self.base, &self.layers)?;
        Ok(keys)
    }

    /// All objects of a class with their rows, by rising keys. None where the cell of an object holds something else
    /// than a row, which no operation writes there.
    ///
    /// The time goes with the class's keys and the layers' changes of its objects, unless the list is kept: then it is
    /// shared. An error means that memory ran out.
    pub fn objects(
        &self,
        alloc: Global,
        class: ClassNo,
    ) -> Result<Option<Arc<ObjectList>>, AllocError>
        ensures objects { IfOk result (λ found. IfSome found (λ objects.
            AreObjects (cells_in self.now) class objects.value)) }
        ensures none { IfOk result (λ found.
            MatchOption found ((key : ℤ) × HoldsOther (cells_in self.now (object_cell class key))) (λ objects. ⊤)) }
    {
        if let Some(kept) = self.kept_objects(class) {
            return Ok(Some(Arc::try_clone(kept)?));
        }
        let keys = self.keys(alloc, class)?;
        let Some(objects) = self.listed(alloc, class, &keys)? else {
            return Ok(None);
        };
        Ok(Some(Arc::new(alloc, objects)?))
    }

    /// Lists the objects of a class, so that `objects` shares the list from now on: that of this snapshot, and that of
    /// a snapshot with a layer more over it. If that layer names one of these objects, the other snapshot's list is
    /// made of this one and the layer; under a further layer that names one, it is kept only if this was called on that
    /// snapshot, too.
    ///
    /// An error means that memory ran out.
    pub fn keep_objects(&mut self, alloc: Global, class: ClassNo) -> Result<(), AllocError>
        ensures { self.new ≡ self.old }
    {
        if self.kept_objects(class).is_some() {
            return note_asked(&mut self.asked, class);
        }
        if let Some(objects) = self.objects(alloc, class)? {
            self.keep_list(class, objects)?;
        }
        Ok(())
    }

    /// Keeps a list of the objects of a class, unless one is kept. Either way it was asked for.
    ///
    /// An error means that memory ran out.
    pub(crate) fn keep_list(
        &mut self,
        class: ClassNo,
        objects: Arc<ObjectList>,
    ) -> Result<(), AllocError>
        requires { AreObjects (cells_in self.old) class objects.value }
        ensures { self.new ≡ self.old }
    {
        if self.kept_objects(class).is_none() {
            self.add_list(class, objects)?;
        }
        note_asked(&mut self.asked, class)
    }

    // Keeps a list more.
    fn add_list(&mut self, class: ClassNo, objects: Arc<ObjectList>) -> Result<(), AllocError>
        requires { AreObjects (cells_in self.old) class objects.value }
        ensures { self.new ≡ self.old }
    {
        self.lists.reserve(1)?;
        self.lists.push_reserved(KeptList { class, objects });
        Ok(())
    }

    /// Keeps an index of a field of a class's objects in the base, unless others share it.
    ///
    /// An error means that memory ran out.
    pub(crate) fn keep_index(
        &mut self,
        alloc: Global,
        class: ClassNo,
        field: &str,
    ) -> Result<(), AllocError>
        ensures { self.new ≡ self.old }
    {
        keep_index(alloc, &mut self.base, class, field)
    }

    /// The objects of a class with their rows, if the list is kept. It allocates nothing.
    pub fn kept_objects(&self, class: ClassNo) -> Option<&Arc<ObjectList>>
        ensures { IfSome result (λ objects. AreObjects (cells_in self.now) class objects.now.value) }
    {
        for list in &self.lists {
            if list.class == class {
                return Some(&list.objects);
            }
        }
        None
    }

    // The objects of a class with these keys.
    fn listed(
        &self,
        alloc: Global,
        class: ClassNo,
        keys: &[Key],
    ) -> Result<Option<ObjectList>, AllocError>
        ensures keys { IfOk result (λ found. IfSome found (λ objects. mapped.keys_of objects ≡ keys.now)) }
        ensures rows { IfOk result (λ found. IfSome found (λ objects. All (λ (o : model.KeyedRow).
            cells_in self.now (object_cell class o.key) ≡ Some (row_value o.row)) objects)) }
        ensures none { IfOk result (λ found.
            MatchOption found (OneLacks (cells_in self.now) class keys.now) (λ objects. ⊤)) }
    {
        let mut objects = ObjectList::new(alloc);
        for key in keys {
            let Some(row) = row_in(self.get(Cell::Object(class, *key))) else {
                return Ok(None);
            };
            objects.push(*key, row.clone()?)?;
        }
        Ok(Some(objects))
    }

    /// Whether these are the keys of a class's objects, in rising order. It allocates nothing.
    pub fn has_keys(&self, class: ClassNo, keys: &[Key]) -> bool
        ensures { IsTrue result ↔ AreKeys (cells_in self.now) class keys.now }
    {
        let nothing = Layer::new(*self.layers.allocator());
        self.has_keys_over(&nothing, class, keys)
    }

    /// Whether these are the keys of a class's objects, in rising order, once a layer has been written over the cells.
    /// It allocates nothing.
    ///
    /// The time goes with the keys, those of the base's objects of the class and the layers' changes of them.
    pub fn has_keys_over(&self, writes: &Layer, class: ClassNo, keys: &[Key]) -> bool
        ensures { IsTrue result ↔ AreKeys (over (cells_in self.now) (changes writes.now)) class keys.now }
    {
        if !rise(keys) {
            return false;
        }
        self.holds_each(writes, class, keys) && self.lists_each(writes, keys, class)
    }

    /// The snapshot with one layer more over it. It shares the base and the layer; a ninth layer is folded with the
    /// newest of the others into one, and one that changes nothing is left out.
    ///
    /// An error means that memory ran out.
    pub fn with_layer(&self, alloc: Global, layer: Arc<Layer>) -> Result<Snapshot, AllocError>
        ensures { IfOk result (λ s. cells_in s ≡ over (cells_in self.now) (changes layer.value)) }
    {
        let lists = still_kept(alloc, &self.lists, &self.asked, &layer)?;
        let asked = still_asked(alloc, &self.asked, &layer)?;
        let layers = stacked(alloc, &self.layers, layer, &self.base.indexes)?;
        Ok(Snapshot {
            base: Arc::try_clone(&self.base)?,
            layers,
            lists,
            asked,
        })
    }

    /// Takes in a layer over the others. Where nobody else holds the base, all layers then go into it in place, as far
    /// as there is memory.
    ///
    /// An error means that memory ran out; the snapshot is then as before. A layer that changes nothing costs nothing.
    pub(crate) fn take_in(&mut self, alloc: Global, layer: Arc<Layer>) -> Result<(), AllocError>
        ensures ok { OnOk result (cells_in self.new ≡ over (cells_in self.old) (changes layer.value)) }
        ensures err { OnErr result (self.new ≡ self.old) }
    {
        if layer.is_empty() {
            return Ok(());
        }
        let lists = still_kept(alloc, &self.lists, &self.asked, &layer)?;
        let asked = still_asked(alloc, &self.asked, &layer)?;
        self.layers = stacked(alloc, &self.layers, layer, &self.base.indexes)?;
        self.lists = lists;
        self.asked = asked;
        settle(alloc, &mut self.base, &mut self.layers);
        Ok(())
    }
}

impl Snapshot {
    ghost use Rattle.std.specs.Prelude.{◌≡◌, is_some};
    ghost use Rattle.std.specs.List.{list_all};
    ghost use Rattle.hp_model.specs.Cells.{object_cell, over};
    ghost use Rattle.hp_value.specs.Mapped as mapped;
    ghost use Rattle.hp_store.specs.Changes.{changes, class_entries};
    ghost use Rattle.hp_store.specs.Listed.{all_listed, are_listed, is_listed};
    ghost use Rattle.hp_store.specs.Stack.{cells_in};
    ghost use Rattle.hp_store.specs.Tables.{entries_at};

    // Whether a cell has a value under the writes.
    pub(crate) fn holds(&self, writes: &Layer, cell: Cell) -> bool
        ensures { result ≡ is_some (over (cells_in self.now) (changes writes.now) (mapped.cell cell)) }
    {
        match writes.get(cell) {
            Some(change) => change.is_some(),
            None => self.get(cell).is_some(),
        }
    }

    // Whether each key of the list is one of the class's.
    fn holds_each(&self, writes: &Layer, class: ClassNo, keys: &[Key]) -> bool
        ensures { result ≡ list_all (λ key.
            is_some (over (cells_in self.now) (changes writes.now) (object_cell class key))) keys.now }
    {
        for key in keys {
            if !self.holds(writes, Cell::Object(class, *key)) {
                return false;
            }
        }
        true
    }

    // Whether the key of an object's cell stands in the list, if the object is there.
    fn lists(&self, writes: &Layer, keys: &[Key], cell: Cell) -> bool
        requires { IsStrictlySortedBy int_cmp keys.now }
        ensures { result ≡ is_listed (over (cells_in self.now) (changes writes.now)) keys.now (mapped.cell cell) }
    {
        let Cell::Object(_, key) = cell else {
            return true;
        };
        match keys.binary_search(&key) {
            Ok(_) => true,
            Err(_) => !self.holds(writes, cell),
        }
    }

    // Whether it lists the objects of a table.
    fn lists_table(
        &self,
        writes: &Layer,
        keys: &[Key],
        class: ClassNo,
        table: &BTreeMap<Key, CellValue>,
    ) -> bool
        requires { IsStrictlySortedBy int_cmp keys.now }
        ensures { result ≡ list_all
            (λ e. is_listed (over (cells_in self.now) (changes writes.now)) keys.now (object_cell class e.0))
            table.now.entries }
    {
        for (key, _) in table {
            if !self.lists(writes, keys, Cell::Object(class, *key)) {
                return false;
            }
        }
        true
    }

    // Whether it lists the class's objects of the base.
    fn lists_base(&self, writes: &Layer, keys: &[Key], class: ClassNo) -> bool
        requires { IsStrictlySortedBy int_cmp keys.now }
        ensures { result ≡ list_all
            (λ e. is_listed (over (cells_in self.now) (changes writes.now)) keys.now (object_cell class e.0))
            (entries_at self.now.base.classes class) }
    {
        match self.base.table(class) {
            Some(table) => self.lists_table(writes, keys, class, table),
            None => true,
        }
    }

    // Whether it lists the class's objects that a layer names.
    fn lists_layer(&self, writes: &Layer, keys: &[Key], class: ClassNo, layer: &Layer) -> bool
        requires { IsStrictlySortedBy int_cmp keys.now }
        ensures { result ≡ are_listed (over (cells_in self.now) (changes writes.now)) keys.now
            (class_entries class layer.now) }
    {
        for (cell, _) in layer.of_class(class) {
            if !self.lists(writes, keys, *cell) {
                return false;
            }
        }
        true
    }

    // Whether it lists the class's objects that some layers name.
    fn lists_layers(
        &self,
        writes: &Layer,
        keys: &[Key],
        class: ClassNo,
        layers: &[SharedLayer],
    ) -> bool
        requires { IsStrictlySortedBy int_cmp keys.now }
        ensures { result ≡ list_all
            (λ layer. are_listed (over (cells_in self.now) (changes writes.now)) keys.now (class_entries class layer))
            layers.now }
    {
        for shared in layers {
            if let Some(layer) = shared.layer() {
                if !self.lists_layer(writes, keys, class, layer) {
                    return false;
                }
            }
        }
        true
    }

    // Whether it lists the class's objects, of which the base, a layer or the writes have each.
    fn lists_each(&self, writes: &Layer, keys: &[Key], class: ClassNo) -> bool
        requires { IsStrictlySortedBy int_cmp keys.now }
        ensures { result ≡ all_listed self.now writes.now keys.now class }
    {
        self.lists_base(writes, keys, class)
            && self.lists_layers(writes, keys, class, &self.layers)
            && self.lists_layer(writes, keys, class, writes)
    }
}

// The row that a cell holds, if it holds one.
fn row_in(value: Option<&CellValue>) -> Option<&Row>
    ensures { MatchOption result (HoldsNoRow (option_map (λ v. here.cell_value v.now) value.entry)) (λ row.
        option_map (λ v. here.cell_value v.now) value.entry ≡ Some (row_value row.now)) }
{
    match value {
        Some(CellValue::Row(row)) => Some(row),
        _ => None,
    }
}

// Whether keys rise.
fn rise(keys: &[Key]) -> bool
    ensures { IsTrue result ↔ IsStrictlySortedBy int_cmp keys.now }
{
    for i in 1..keys.len() {
        if keys[i - 1] >= keys[i] {
            return false;
        }
    }
    true
}

// The keys of a class in a base under layers.
fn keys_of(
    alloc: Global,
    class: ClassNo,
    base: &Base,
    layers: &[SharedLayer],
) -> Result<Vec<Key>, AllocError>
    ensures { IfOk result (λ keys. AreKeys (over (base_cells base.now) (changes_in layers.now)) class keys.items) }
{
    let mut keys = base.keys(alloc, class)?;
    for shared in layers {
        if let Some(layer) = shared.layer() {
            keys = layer.keys_over(alloc, class, keys)?;
        }
    }
    Ok(keys)
}

// Keeps an index of a field in a base, unless others share it. An error means that memory ran out.
fn keep_index(
    alloc: Global,
    base: &mut Arc<Base>,
    class: ClassNo,
    field: &str,
) -> Result<(), AllocError>
    ensures same { tables base.new.value ≡ tables base.old.value }
    ensures complete { AreComplete (base_cells base.old.value) base.old.value.indexes.items →
        AreComplete (base_cells base.new.value) base.new.value.indexes.items }
{
    match Arc::get_mut(base) {
        Some(base) => base.keep_index(alloc, class, field),
        None => Ok(()),
    }
}

// Lets the layers go into the base, where that can be done in place.
fn settle(alloc: Global, base: &mut Arc<Base>, layers: &mut Layers)
    ensures same { (q : ModelCell) → over (base_cells base.new.value) (changes_in layers.new.items) q
        ≡ over (base_cells base.old.value) (changes_in layers.old.items) q }
    ensures fewer { length layers.new.items ≤ length layers.old.items }
    ensures complete { AreComplete (base_cells base.old.value) base.old.value.indexes.items →
        AreComplete (base_cells base.new.value) base.new.value.indexes.items }
{
    if merge_layers(alloc, base, layers) {
        *layers = SmallVec::new(alloc);
    }
}

// Merges layers into the base if nobody shares it, and says whether it did; it didn't where memory ran out. Under
// these layers the cells are the same either way.
fn merge_layers(alloc: Global, base: &mut Arc<Base>, layers: &[SharedLayer]) -> bool
    ensures same { (q : ModelCell) → over (base_cells base.new.value) (changes_in layers.now) q
        ≡ over (base_cells base.old.value) (changes_in layers.now) q }
    ensures all { IsTrue result → (q : ModelCell) →
        base_cells base.new.value q ≡ over (base_cells base.old.value) (changes_in layers.now) q }
    ensures complete { AreComplete (base_cells base.old.value) base.old.value.indexes.items →
        AreComplete (base_cells base.new.value) base.new.value.indexes.items }
{
    match Arc::get_mut(base) {
        Some(base) => merge_each(alloc, base, layers).is_ok(),
        None => false,
    }
}

// Merges layers into a base, the oldest first. An error means that memory ran out; some changes may have been merged.
fn merge_each(alloc: Global, base: &mut Base, layers: &[SharedLayer]) -> Result<(), AllocError>
    ensures ok { OnOk result ((q : ModelCell) → base_cells base.new q
        ≡ over (base_cells base.old) (changes_in layers.now) q) }
    ensures others { (q : ModelCell) → changes_in layers.now q ≡ None → base_cells base.new q ≡ base_cells base.old q }
    ensures complete { AreComplete (base_cells base.old) base.old.indexes.items →
        AreComplete (base_cells base.new) base.new.indexes.items }
{
    for shared in layers {
        if let Some(layer) = shared.layer() {
            base.take_in(alloc, layer)?;
        }
    }
    Ok(())
}

impl Clone for Snapshot {
    ghost use Rattle.std.specs.Prelude.{◌≡◌};

    ghost is_clone = { λ s t. t ≡ s };

    /// A copy that shares the base, the layers and the lists that are kept, and copies no cell.
    /// Nobody has asked it for a list yet.
    ///
    /// An error means that memory ran out.
    fn clone(&self) -> Result<Snapshot, AllocError> {
        let alloc = *self.layers.allocator();
        let layers = copied(alloc, &self.layers)?;
        // Under a layer that changes nothing all of them are still true.
        let lists = still_kept(alloc, &self.lists, &[], &Layer::new(alloc))?;
        Ok(Snapshot {
            base: Arc::try_clone(&self.base)?,
            layers,
            lists,
            asked: Vec::new(alloc),
        })
    }
}
