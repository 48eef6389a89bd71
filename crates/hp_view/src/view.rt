//! A view: a snapshot, what was read of it, and what is written over it.

ghost use Rattle.std.specs.Prelude.{◌≡◌, ◌↔◌, ℕ, ℤ, List, All, Option, ◌≤◌, [], true, false, length, take, map};
ghost use Rattle.std.specs.Prelude.{None, Some, ◌⊎◌};
ghost use Rattle.std.specs.Prelude.{is_some, MatchOption, IsTrue, IsOk, IsSome, IfOk, IfSome, IfNone, OnOk};
ghost use Rattle.std.specs.Prelude.{OnErr, option_map};
ghost use Rattle.std.specs.List.{list_all};
ghost use Rattle.hp_model.specs.Values as model;
ghost use Rattle.hp_model.specs.Cells.{Cells, AreKeys, IsGreatestKey, IsCount, AreObjects, ArePart, Holds, object_cell};
ghost use Rattle.hp_model.specs.Cells.{objects_read, over, is_above};
ghost use Rattle.hp_value.specs.Mapped as mapped;
ghost use Rattle.hp_store.specs.Changes.{class_entries};
ghost use Rattle.hp_store.specs.Counts.{IsUncountable};
ghost use Rattle.hp_store.specs.Mapped.{cell_value};
ghost use Rattle.hp_store.specs.Kept.{HoldsOther};
ghost use Rattle.hp_store.specs.Parts.{is_of_keys, no_cells};
ghost use Rattle.hp_store.specs.Stack.{cells_in};
ghost use Rattle.hp_view.specs.Adding.{AddsReads, IsOfClass};
ghost use Rattle.hp_view.specs.Keeping.{KeepsObject};
ghost use Rattle.hp_view.specs.Known.{KnowsGreatest, KnowsCount};
ghost use Rattle.hp_view.specs.Counts.{all_read};
ghost use Rattle.hp_view.specs.Seeing.{Seeing as Seen, beneath, written, now_in, noted, read_cell, row_was_read};
ghost use Rattle.hp_view.specs.Seeing.{cell_was_read, keys_were_read, Writes, TakesIn, IsSame, GoesBack, GoesOn};
ghost use Rattle.hp_view.specs.Seeing.{Restores, OnlyReads, Shows, ShowsKeys, ShowsObjects, ShowsPart, ReadsKeys};
ghost use Rattle.hp_view.specs.Parts.{number_of};
ghost use Rattle.hp_view.specs.Seeing.{ReadsPart, ReadsGreatest, ShowsGreatest, ReadsCount, ShowsCount};
ghost use Rattle.hp_view.specs.Seeing.{part_was_read, number_was_read};
ghost use Rattle.hp_view.specs.Wholes.{is_row, LacksList, HasNoList, ReadsWhole};

use crate::reads::{PartState, Reads, shared};
use crate::undo::{Replaced, take_back, write, write_all};
use hp_store::{CellValue, Layer, Snapshot};
use hp_value::{Attribute, Cell, ClassNo, ClassPart, Key, KeyedRow, ObjectList};
use std::alloc::{AllocError, Global};
use std::marker::Model;
use std::sync::Arc;

/// A snapshot of a state's cells, what was read of it, and what is written over it.
///
/// A transaction works on a view. What it reads is recorded with what the snapshot holds beneath the view's own writes,
/// so that another state where these reads hold would have shown the same. A transaction inside begins at a `Mark` and
/// is taken back from there; its reads stay.
#[derive(Debug, Drop)]
pub struct View {
    base: Snapshot,
    reads: Reads,
    // Frozen snapshots share it.
    writes: Arc<Layer>,
    // What each write replaced, the newest last.
    undo: Vec<Replaced>,
}

impl Model for View {
    ghost use Rattle.hp_view.specs.Seeing.{Seeing};
    ghost use Rattle.hp_view.specs.Codes.{seeing_code};

    ghost Value = { Seeing };

    ghost coded = { seeing_code };

    ghost use Rattle.std.specs.Prelude.{map};
    ghost use Rattle.hp_view.specs.Mapped.{replaced};
    ghost use Rattle.hp_view.specs.Seeing.{IsKept};

    ghost view = { λ v.
        record { base = v.base; reads = v.reads; writes = v.writes.value; undo = map replaced v.undo.items } };

    ghost invariant = { λ v. IsKept v.base v.reads v.writes.value (map replaced v.undo.items) };
}

/// Where a transaction inside a view began. It is given back to end that transaction.
#[derive(Debug, Drop)]
pub struct Mark {
    at: usize,
}

impl Model for Mark {
    ghost Value = { ℕ };

    ghost view = { λ m. m.at };
}

impl View {
    /// A view of a snapshot, with no read and no write.
    ///
    /// An error means that memory ran out.
    pub fn new(alloc: Global, base: Snapshot) -> Result<View, AllocError>
        ensures base { IfOk result (λ v. v.base ≡ base) }
        ensures reads { IfOk result (λ v. v.reads ≡ []) }
        ensures writes { IfOk result (λ v. v.writes ≡ []) }
        ensures undo { IfOk result (λ v. v.undo ≡ []) }
    {
        Ok(View {
            base,
            reads: Reads::new(alloc),
            writes: Arc::new(alloc, Layer::new(alloc))?,
            undo: Vec::new(alloc),
        })
    }

    /// Reads a cell, whose value is then the one that `peek` gives.
    ///
    /// The read is recorded with what the snapshot holds, unless the cell was read before, by itself or with its whole
    /// class, or the view's own writes cover it: then nothing is allocated. An error means that memory ran out; the
    /// view is then as before.
    pub fn read(&mut self, cell: Cell) -> Result<(), AllocError>
        ensures reads { OnOk result (self.new ≡ record self.old { reads = read_cell self.old (mapped.cell cell) }) }
        ensures err { OnErr result (self.new ≡ self.old) }
        ensures covered { IsSome (written self.old (mapped.cell cell)) → IsOk result }
        ensures again { IsTrue (cell_was_read self.old.reads (mapped.cell cell)) → IsOk result }
        ensures in_class { IsTrue (row_was_read self.old.reads (mapped.cell cell)) → IsOk result }
        ensures shows { OnOk result (Shows self.new (mapped.cell cell) (now_in self.old (mapped.cell cell))) }
        ensures only { OnlyReads self.old self.new }
        ensures goes_on { GoesOn self.old self.new }
        ensures reads_held { OnOk result (Holds (beneath self.new) self.new.reads) }
    {
        if self.reads.has_cell(cell) {
            return Ok(());
        }
        if self.writes.get(cell).is_some() {
            return Ok(());
        }
        self.reads.note_value(cell, self.base.get(cell))?;
        Ok(())
    }

    /// The value of a cell, or none where the cell is empty. Nothing is recorded or allocated.
    pub fn peek(&self, cell: Cell) -> Option<&CellValue>
        ensures { option_map (λ v. cell_value v.now) result ≡ now_in self.now (mapped.cell cell) }
    {
        if let Some(change) = self.writes.get(cell) {
            return change.as_ref();
        }
        // What was read by itself is found faster among the reads. An object that was read with its class stands in the
        // snapshot.
        match self.reads.in_cell(cell) {
            Some(found) => found.value(),
            None => self.base.get(cell),
        }
    }

    /// Reads a cell and gives its value, shared, or none where the cell is empty: what `read` and then `peek` give, but
    /// the writes and the reads are looked up once.
    ///
    /// An error means that memory ran out, or that std refused a copy of an `Arc`; the view is then as before.
    pub fn fetch(&mut self, cell: Cell) -> Result<Option<CellValue>, AllocError>
        ensures value { IfOk result (λ found. option_map (λ v. cell_value v) found
            ≡ now_in self.old (mapped.cell cell)) }
        ensures reads { OnOk result (self.new ≡ record self.old { reads = read_cell self.old (mapped.cell cell) }) }
        ensures err { OnErr result (self.new ≡ self.old) }
        ensures shows { OnOk result (Shows self.new (mapped.cell cell) (now_in self.old (mapped.cell cell))) }
        ensures only { OnlyReads self.old self.new }
        ensures goes_on { GoesOn self.old self.new }
    {
        if let Some(change) = self.writes.get(cell) {
            return shared(change.as_ref());
        }
        if let Some(found) = self.reads.in_cell(cell) {
            return shared(found.value());
        }
        let value = self.base.get(cell);
        if self.reads.has_row(cell) {
            return shared(value);
        }
        let copy = shared(value)?;
        self.reads.note_value(cell, value)?;
        Ok(copy)
    }
}

impl View {
    ghost use Rattle.std.specs.Prelude.{◌≡◌, ⊤, IsTrue, IsOk, IsSome, IfOk, is_ok, option_map};
    ghost use Rattle.std.specs.Borrow.{sem, follows_so};
    ghost use mathlib.Core.Option.{none};
    ghost use Rattle.hp_value.specs.Mapped as mapped;
    ghost use Rattle.hp_store.specs.Mapped.{cell_value};
    ghost use Rattle.hp_view.specs.Seeing.{written, now_in, row_was_read, cell_was_read, ReadsCell};
    ghost use Rattle.hp_view.specs.contracts.view.View.{the_row};

    /// Reads a cell and gives its value, or none where the cell is empty: `read` and then `peek`.
    ///
    /// A cell that was read before, by itself or with its whole class, or that the view's own writes cover, takes no
    /// memory. An error means that memory ran out; the view is then as before.
    ///
    /// Programs call `fetch`; the specification of the crates names this call, too.
    pub fn get(&mut self, cell: Cell) -> Result<Option<&CellValue>, AllocError>
        ensures value { IfOk result (λ found. option_map (λ v. cell_value v.now) found
            ≡ now_in self.old (mapped.cell cell)) }
        ensures covered { IsSome (written self.old (mapped.cell cell)) → IsOk result }
        ensures again { IsTrue (cell_was_read self.old.reads (mapped.cell cell)) → IsOk result }
        ensures in_class { IsTrue (row_was_read self.old.reads (mapped.cell cell)) → IsOk result }
        ensures* after { sem 𝓛 (follows_so the_row the_row self.entry.ghost_name none (λ _ _. ⊤) (λ v.
            ReadsCell self.old v (mapped.cell cell) (is_ok result))) }
    {
        self.read(cell)?;
        Ok(self.peek(cell))
    }
}

impl View {
    /// How many cells the view has written. So many are copied by its first write after `freeze`, while the snapshot
    /// lives.
    pub fn written(&self) -> usize
        ensures { result ≡ length self.now.writes }
    {
        self.writes.len()
    }

    /// Gives a cell a value.
    ///
    /// An error means that memory ran out; the view is then as before.
    pub fn put(&mut self, cell: Cell, value: CellValue) -> Result<(), AllocError>
        ensures ok { OnOk result (Writes self.old self.new (mapped.cell cell) (Some (cell_value value))) }
        ensures goes_on { GoesOn self.old self.new }
        ensures err { OnErr result (self.new ≡ self.old) }
    {
        write(&mut self.writes, &mut self.undo, cell, Some(value))?;
        Ok(())
    }

    /// Empties a cell.
    ///
    /// An error means that memory ran out; the view is then as before.
    pub fn cut(&mut self, cell: Cell) -> Result<(), AllocError>
        ensures ok { OnOk result (Writes self.old self.new (mapped.cell cell) None) }
        ensures goes_on { GoesOn self.old self.new }
        ensures err { OnErr result (self.new ≡ self.old) }
    {
        write(&mut self.writes, &mut self.undo, cell, None)?;
        Ok(())
    }

    /// Takes in the changes of a layer, over the view's own writes. They are shared.
    ///
    /// An error means that memory ran out; no cell of the view has then changed.
    pub fn take_in(&mut self, layer: &Layer) -> Result<(), AllocError>
        ensures ok { OnOk result (TakesIn self.old self.new layer.now) }
        ensures goes_on { GoesOn self.old self.new }
        ensures reads_held { OnOk result (Holds (beneath self.new) self.new.reads) }
        ensures err { OnErr result (IsSame self.old self.new) }
    {
        write_all(&mut self.writes, &mut self.undo, layer)?;
        Ok(())
    }

    /// Begins a transaction inside (Moss).
    pub fn enter(&self) -> Mark
        ensures { result ≡ length self.now.undo }
    {
        Mark {
            at: self.undo.len(),
        }
    }

    /// Ends a transaction inside. What it wrote stays, now as the outer transaction's.
    pub fn commit(&mut self, mark: Mark)
        ensures { self.new ≡ self.old }
    {
        let Mark { at: _ } = mark;
    }

    /// Ends a transaction inside. What it wrote goes, and what it read stays.
    ///
    /// No memory is taken unless a frozen snapshot still shares the writes. An error means that memory for a copy of
    /// them ran out; the view is then as before.
    pub fn abort(&mut self, mark: Mark) -> Result<(), AllocError>
        requires { mark ≤ length self.old.undo }
        ensures ok { OnOk result (GoesBack self.old self.new mark) }
        ensures restores { OnOk result ((entered : Seen) → GoesOn entered self.old → length entered.undo ≡ mark →
            Restores entered self.new) }
        ensures err { OnErr result (self.new ≡ self.old) }
        ensures nothing { mark ≡ length self.old.undo → IsOk result }
    {
        let Mark { at } = mark;
        take_back(&mut self.writes, &mut self.undo, at)?;
        Ok(())
    }
}

impl View {
    /// Reads the keys of a class's objects, which are then those that `has_keys` takes.
    ///
    /// They are recorded as they stand beneath the view's own writes, unless they were read before: then it takes no
    /// memory. An error means that memory ran out; the view is then as before.
    pub fn read_keys(&mut self, alloc: Global, class: ClassNo) -> Result<(), AllocError>
        ensures reads { OnOk result (ReadsKeys self.old self.new class) }
        ensures err { OnErr result (self.new ≡ self.old) }
        ensures again { IsTrue (keys_were_read self.old.reads class) → IsOk result }
        ensures shows { OnOk result ((keys : List ℤ) → AreKeys (now_in self.old) class keys →
            ShowsKeys self.new class keys) }
        ensures only { OnlyReads self.old self.new }
        ensures goes_on { GoesOn self.old self.new }
    {
        if self.reads.keys(class).is_some() {
            return Ok(());
        }
        let found = self.base.keys(alloc, class)?;
        self.reads.note_keys(class, found)?;
        Ok(())
    }

    /// The keys of a class's objects, in rising order.
    ///
    /// They are recorded as they stand beneath the view's own writes, unless they were read before. The time goes with
    /// the class's keys and the writes of its objects. An error means that memory ran out; the view is then as before.
    pub fn keys(&mut self, alloc: Global, class: ClassNo) -> Result<Vec<Key>, AllocError>
        ensures reads { OnOk result (ReadsKeys self.old self.new class) }
        ensures err { OnErr result (self.new ≡ self.old) }
        ensures shows { IfOk result (λ keys. ShowsKeys self.new class keys.items) }
        ensures only { OnlyReads self.old self.new }
        ensures goes_on { GoesOn self.old self.new }
        ensures reads_held { OnOk result (Holds (beneath self.new) self.new.reads) }
    {
        if let Some(recorded) = self.reads.keys(class) {
            let under = Vec::from_slice(alloc, recorded)?;
            let keys = self.writes.keys_over(alloc, class, under)?;
            return Ok(keys);
        }
        let beneath = self.base.keys(alloc, class)?;
        let under = Vec::from_slice(alloc, &beneath)?;
        let keys = self.writes.keys_over(alloc, class, under)?;
        // Who asks for a class's keys is likely to read its objects.
        self.reads.reserve(keys.len())?;
        self.reads.note_keys(class, beneath)?;
        Ok(keys)
    }
}

impl View {
    /// Reads the greatest key of a class, which is then the one that `has_greatest_key` takes.
    ///
    /// It is recorded as it stands beneath the view's own writes, unless it or the class's keys were read before: then
    /// it takes no memory. Where the writes delete the object with that key, the keys are read: that takes memory
    /// unless they were read before. An error means that memory ran out; the view is then as before.
    pub fn read_greatest_key(&mut self, alloc: Global, class: ClassNo) -> Result<(), AllocError>
        ensures reads { OnOk result (ReadsGreatest self.old self.new class) }
        ensures err { OnErr result (self.new ≡ self.old) }
        ensures again { KnowsGreatest self.old class → IsOk result }
        ensures shows { OnOk result ((greatest : Option ℤ) → IsGreatestKey (now_in self.old) class greatest →
            ShowsGreatest self.new class greatest) }
        ensures only { OnlyReads self.old self.new }
        ensures goes_on { GoesOn self.old self.new }
    {
        let greatest = self.base.greatest_key_over(&self.writes, class);
        self.read_greatest(alloc, class, greatest)
    }

    /// The greatest key of a class's objects. None if the class has no object.
    ///
    /// It is read as `read_greatest_key` reads it. The time goes with the logarithm of the number of cells, for this
    /// key and each one above it that the view's own writes or earlier layers removed. An error means that memory ran
    /// out; the view is then as before.
    pub fn greatest_key(&mut self, alloc: Global, class: ClassNo) -> Result<Option<Key>, AllocError>
        ensures reads { OnOk result (ReadsGreatest self.old self.new class) }
        ensures err { OnErr result (self.new ≡ self.old) }
        ensures again { KnowsGreatest self.old class → IsOk result }
        ensures shows { IfOk result (λ greatest. ShowsGreatest self.new class greatest) }
        ensures only { OnlyReads self.old self.new }
        ensures goes_on { GoesOn self.old self.new }
        ensures reads_held { OnOk result (Holds (beneath self.new) self.new.reads) }
    {
        let greatest = self.base.greatest_key_over(&self.writes, class);
        self.read_greatest(alloc, class, greatest)?;
        Ok(greatest)
    }

    // Records the read of a class's greatest key, which is known.
    fn read_greatest(
        &mut self,
        alloc: Global,
        class: ClassNo,
        greatest: Option<Key>,
    ) -> Result<(), AllocError>
        requires { IsGreatestKey (now_in self.old) class greatest }
        ensures reads { OnOk result (ReadsGreatest self.old self.new class) }
        ensures err { OnErr result (self.new ≡ self.old) }
        ensures again { KnowsGreatest self.old class → IsOk result }
        ensures shows { OnOk result (ShowsGreatest self.new class greatest) }
        ensures only { OnlyReads self.old self.new }
        ensures goes_on { GoesOn self.old self.new }
        ensures reads_held { OnOk result (Holds (beneath self.new) self.new.reads) }
    {
        if self.reads.keys(class).is_some() {
            return Ok(());
        }
        let beneath = self.base.greatest_key(class);
        if !is_up_to(beneath, greatest) {
            return self.read_keys(alloc, class);
        }
        self.reads.note_greatest(class, beneath)?;
        Ok(())
    }

    /// Whether this is the greatest key of a class's objects, or none if the class has no object. Nothing is recorded
    /// or allocated.
    pub fn has_greatest_key(&self, class: ClassNo, greatest: Option<Key>) -> bool
        ensures { IsTrue result ↔ IsGreatestKey (now_in self.now) class greatest }
    {
        self.base.greatest_key_over(&self.writes, class) == greatest
    }
}

impl View {
    /// Reads the number of a class's objects, which is then the one that `has_count` takes.
    ///
    /// It is recorded as it stands beneath the view's own writes, unless it or the class's keys were read before: then
    /// it takes no memory. Where the writes name an object whose cell wasn't read by itself, the keys are read: that
    /// takes memory unless they were read before. An error means that memory ran out, or that there are more objects
    /// than a `usize` counts, which no memory holds; the view is then as before.
    pub fn read_class_count(&mut self, alloc: Global, class: ClassNo) -> Result<(), AllocError>
        ensures reads { OnOk result (ReadsCount self.old self.new class) }
        ensures err { OnErr result (self.new ≡ self.old) }
        ensures again { KnowsCount self.old class → OnErr result (IsUncountable (beneath self.old) class) }
        ensures shows { OnOk result ((count : ℕ) → IsCount (now_in self.old) class count →
            ShowsCount self.new class count) }
        ensures only { OnlyReads self.old self.new }
        ensures goes_on { GoesOn self.old self.new }
        ensures reads_held { OnOk result (Holds (beneath self.new) self.new.reads) }
    {
        if self.reads.keys(class).is_some() {
            return Ok(());
        }
        if !self.has_read_written(class) {
            return self.read_keys(alloc, class);
        }
        let beneath = self.base.count(class)?;
        self.reads.note_count(class, beneath)?;
        Ok(())
    }

    /// The number of a class's objects.
    ///
    /// It is read as `read_class_count` reads it. The time goes with the changes of the class's objects in the view's
    /// own writes and in the snapshot's layers, and not with the class. An error means what it means there; the view is
    /// then as before.
    pub fn count(&mut self, alloc: Global, class: ClassNo) -> Result<usize, AllocError>
        ensures reads { OnOk result (ReadsCount self.old self.new class) }
        ensures err { OnErr result (self.new ≡ self.old) }
        ensures again { KnowsCount self.old class →
            OnErr result (IsUncountable (beneath self.old) class ⊎ IsUncountable (now_in self.old) class) }
        ensures shows { IfOk result (ShowsCount self.new class) }
        ensures only { OnlyReads self.old self.new }
        ensures goes_on { GoesOn self.old self.new }
        ensures reads_held { OnOk result (Holds (beneath self.new) self.new.reads) }
    {
        let count = self.base.count_over(&self.writes, class)?;
        self.read_class_count(alloc, class)?;
        Ok(count)
    }

    // Whether the cell of each of a class's objects that the view's own writes name was read by itself.
    fn has_read_written(&self, class: ClassNo) -> bool
        ensures { result ≡ all_read self.now.reads (class_entries class self.now.writes) }
    {
        for (cell, _) in self.writes.of_class(class) {
            if self.reads.in_cell(*cell).is_none() {
                return false;
            }
        }
        true
    }

    /// Whether a class has this number of objects. Nothing is recorded or allocated.
    pub fn has_count(&self, class: ClassNo, count: usize) -> bool
        ensures { IsTrue result ↔ IsCount (now_in self.now) class count }
    {
        self.base.has_count_over(&self.writes, class, count)
    }
}

impl View {
    /// The least key from a low bound on, or of all where there is none, of a class's objects. None if there is no such
    /// object. It is a hint: nothing is recorded or allocated, and so no answer may depend on it.
    ///
    /// The time goes with the logarithm of the number of cells, for this key and each one below it, down to the bound,
    /// that the view's own writes or earlier layers removed.
    pub fn likely_least(&self, class: ClassNo, low: Option<Key>) -> Option<Key> {
        self.base.likely_least(&self.writes, class, low)
    }

    /// The greatest key up to a high bound, or of all where there is none, likewise.
    pub fn likely_greatest(&self, class: ClassNo, high: Option<Key>) -> Option<Key> {
        self.base.likely_greatest(&self.writes, class, high)
    }
}

impl View {
    /// All objects of a class with their rows, by rising keys. None where the view's own writes name one of them, or
    /// where the class's keys were read alone.
    ///
    /// The class is then read as a whole, as it stands in the snapshot: that is one read, and the list is shared. It
    /// takes no time that goes with the class's objects, where it was read so before or where the snapshot keeps the
    /// list. An error means that memory ran out; the view is then as before.
    pub fn objects(
        &mut self,
        alloc: Global,
        class: ClassNo,
    ) -> Result<Option<Arc<ObjectList>>, AllocError>
        ensures reads { IfOk result (λ found. IfSome found (λ objects.
            self.new ≡ record self.old { reads = noted self.old.reads (objects_read class objects.value) })) }
        ensures none { IfOk result (λ found. IfNone found (self.new ≡ self.old)) }
        ensures err { OnErr result (self.new ≡ self.old) }
        ensures shows { IfOk result (λ found. IfSome found (λ objects. ShowsObjects self.new class objects.value)) }
        ensures only { OnlyReads self.old self.new }
        ensures goes_on { GoesOn self.old self.new }
        ensures reads_held { OnOk result (Holds (beneath self.new) self.new.reads) }
    {
        if self.writes.names_objects_of(class) {
            return Ok(None);
        }
        let objects = self.whole_beneath(alloc, class)?;
        Ok(objects)
    }

    /// All objects of a class with their rows, by rising keys, also where the view's own writes name some of them. None
    /// where the class's keys were read alone, or where the cell of an object holds something else than a row.
    ///
    /// The class is read as `objects` reads it: as a whole, as it stands beneath the view's own writes. Where these
    /// name none of its objects, that list is shared; else one is made of it and the writes, which takes time that goes
    /// with the class's objects, but no look-up of a cell. An error means that memory ran out.
    pub fn all_objects(
        &mut self,
        alloc: Global,
        class: ClassNo,
    ) -> Result<Option<Arc<ObjectList>>, AllocError>
        ensures reads { AddsReads (IsOfClass (written self.old) class) self.old.reads self.new.reads }
        ensures none { IfOk result (λ found. IfNone found (HasNoList self.old class)) }
        ensures shows { IfOk result (λ found. IfSome found (λ objects. ShowsObjects self.new class objects.value)) }
        ensures only { OnlyReads self.old self.new }
        ensures goes_on { GoesOn self.old self.new }
        ensures reads_held { OnOk result (Holds (beneath self.new) self.new.reads) }
    {
        let Some(under) = self.whole_beneath(alloc, class)? else {
            return Ok(None);
        };
        let objects = self.written_over(alloc, class, under)?;
        Ok(objects)
    }

    // The objects of a class after the view's own writes, from those beneath. None where a write gives an object
    // something else than a row.
    fn written_over(
        &self,
        alloc: Global,
        class: ClassNo,
        under: Arc<ObjectList>,
    ) -> Result<Option<Arc<ObjectList>>, AllocError>
        ensures objects { IfOk result (λ found. IfSome found (λ objects. (base : Cells) →
            AreObjects base class under.value → AreObjects (over base (written self.now)) class objects.value)) }
        ensures none { IfOk result (λ found. IfNone found
            ((key : ℤ) × HoldsOther (over no_cells (written self.now) (object_cell class key)))) }
    {
        if !self.writes.names_objects_of(class) {
            return Ok(Some(under));
        }
        let Some(objects) = self.writes.objects_over(alloc, class, &under)? else {
            return Ok(None);
        };
        Ok(Some(Arc::new(alloc, objects)?))
    }

    // Reads a class as a whole, as it stands beneath the view's own writes. None where its keys were read alone, or
    // where the cell of an object holds something else than a row: then nothing is read.
    fn whole_beneath(
        &mut self,
        alloc: Global,
        class: ClassNo,
    ) -> Result<Option<Arc<ObjectList>>, AllocError>
        ensures reads { IfOk result (λ found. IfSome found (λ objects.
            self.new ≡ record self.old { reads = noted self.old.reads (objects_read class objects.value) })) }
        ensures none { IfOk result (λ found. IfNone found (self.new ≡ self.old)) }
        ensures lacks { IfOk result (λ found. IfNone found (LacksList self.old class)) }
        ensures err { OnErr result (self.new ≡ self.old) }
        ensures held { IfOk result (λ found. IfSome found (λ objects. (base : Cells) → Holds base self.new.reads →
            AreObjects base class objects.value)) }
        ensures only { OnlyReads self.old self.new }
        ensures goes_on { GoesOn self.old self.new }
        ensures reads_held { OnOk result (Holds (beneath self.new) self.new.reads) }
    {
        if let Some(recorded) = self.reads.objects(class) {
            return Ok(Some(Arc::try_clone(recorded)?));
        }
        if self.reads.keys(class).is_some() {
            return Ok(None);
        }
        let Some(objects) = self.base.objects(alloc, class)? else {
            return Ok(None);
        };
        let shared = Arc::try_clone(&objects)?;
        self.reads.note_objects(class, shared)?;
        Ok(Some(objects))
    }

    /// Reads all objects of a class, which are then those that `has_objects` takes: as a whole, as `all_objects` does,
    /// and else its keys and the cell of each object.
    ///
    /// An error means that memory ran out; some of it may have been read.
    pub fn read_objects(&mut self, alloc: Global, class: ClassNo) -> Result<(), AllocError>
        ensures reads { AddsReads (IsOfClass (written self.old) class) self.old.reads self.new.reads }
        ensures whole { OnOk result ((LacksList self.old class → ⊥) → ReadsWhole self.old self.new class) }
        ensures cells { OnOk result ((key : ℤ) →
            Shows self.new (object_cell class key) (now_in self.old (object_cell class key))) }
        ensures shows { OnOk result ((objects : List model.KeyedRow) → AreObjects (now_in self.old) class objects →
            ShowsObjects self.new class objects) }
        ensures only { OnlyReads self.old self.new }
        ensures goes_on { GoesOn self.old self.new }
    {
        if self.whole_beneath(alloc, class)?.is_some() {
            return Ok(());
        }
        let keys = self.keys(alloc, class)?;
        self.read_rows(class, &keys)?;
        Ok(())
    }

    // Reads the cells of the objects of a class that have these keys.
    fn read_rows(&mut self, class: ClassNo, keys: &[Key]) -> Result<(), AllocError>
        ensures reads { AddsReads (IsOfClass (written self.old) class) self.old.reads self.new.reads }
        ensures shows { OnOk result
            (All (λ key. Shows self.new (object_cell class key) (now_in self.old (object_cell class key))) keys.now) }
        ensures only { OnlyReads self.old self.new }
        ensures goes_on { GoesOn self.old self.new }
    {
        for key in keys {
            self.read(Cell::Object(class, *key))?;
        }
        Ok(())
    }

    /// Whether these are the objects of a part of a class, by rising keys and with the rows that they have. False also
    /// where an object can't be compared with the part's bounds. Nothing is recorded or allocated.
    pub fn has_part(&self, class: ClassNo, part: &ClassPart<'_>, objects: &[KeyedRow]) -> bool
        ensures { IsTrue result ↔ ArePart (now_in self.now) class (mapped.class_part part.now)
            (map mapped.keyed_row objects.now) }
    {
        self.base.has_part_over(&self.writes, class, part, objects)
    }

    /// Reads a part of a class, whose objects are then those that `has_part` takes. The answer is no where nothing is
    /// read: the part can't be found without a look at all objects of the class, or it can't be recorded.
    ///
    /// It is recorded as it stands beneath the view's own writes, unless it was read before: then nothing is allocated.
    /// An error means that memory ran out; the view is then as before.
    pub fn read_part(
        &mut self,
        alloc: Global,
        class: ClassNo,
        part: &ClassPart<'_>,
    ) -> Result<bool, AllocError>
        ensures reads { IfOk result (λ is_read. is_read ≡ true →
            ReadsPart self.old self.new class (mapped.class_part part.now)) }
        ensures none { IfOk result (λ is_read. is_read ≡ false → self.new ≡ self.old) }
        ensures err { OnErr result (self.new ≡ self.old) }
        ensures shows { IfOk result (λ is_read. is_read ≡ true → (objects : List model.KeyedRow) →
            ArePart (now_in self.old) class (mapped.class_part part.now) objects →
            ShowsPart self.new class (mapped.class_part part.now) objects) }
        ensures again { IsTrue (part_was_read self.old.reads class (mapped.class_part part.now)) → IsOk result }
        ensures found { is_of_keys part.now ≡ true →
            number_was_read self.old.reads class (number_of (mapped.class_part part.now)) ≡ false →
            IfOk result (λ is_read. is_read ≡ true) }
        ensures only { OnlyReads self.old self.new }
        ensures goes_on { GoesOn self.old self.new }
        ensures reads_held { OnOk result (Holds (beneath self.new) self.new.reads) }
    {
        match self.reads.part_state(class, part) {
            PartState::WasRead => return Ok(true),
            PartState::IsTaken => return Ok(false),
            PartState::IsFree => {}
        }
        let Some(objects) = self.base.part(alloc, class, part)? else {
            return Ok(false);
        };
        self.reads.note_part(alloc, class, part, objects)?;
        Ok(true)
    }

    /// The objects of a part of a class with their rows, by rising keys. None where nothing is read: the part can't be
    /// found without a look at all objects of the class, or it can't be recorded.
    ///
    /// It is recorded as it stands beneath the view's own writes, unless it was read before. An error means that memory
    /// ran out; the view is then as before.
    pub fn part(
        &mut self,
        alloc: Global,
        class: ClassNo,
        part: &ClassPart<'_>,
    ) -> Result<Option<Vec<KeyedRow>>, AllocError>
        ensures reads { IfOk result (λ found. IsSome found →
            ReadsPart self.old self.new class (mapped.class_part part.now)) }
        ensures none { IfOk result (λ found. IfNone found (self.new ≡ self.old)) }
        ensures err { OnErr result (self.new ≡ self.old) }
        ensures shows { IfOk result (λ found. IfSome found (λ objects.
            ShowsPart self.new class (mapped.class_part part.now) (map mapped.keyed_row objects.items))) }
        ensures found { is_of_keys part.now ≡ true →
            number_was_read self.old.reads class (number_of (mapped.class_part part.now)) ≡ false →
            IfOk result (λ found. IsSome found) }
        ensures only { OnlyReads self.old self.new }
        ensures goes_on { GoesOn self.old self.new }
        ensures reads_held { OnOk result (Holds (beneath self.new) self.new.reads) }
    {
        let Some(objects) = self.base.part_over(alloc, &self.writes, class, part)? else {
            return Ok(None);
        };
        if self.read_part(alloc, class, part)? {
            Ok(Some(objects))
        } else {
            Ok(None)
        }
    }

    /// Lists the objects of a class beneath the view's own writes, so that `has_objects` looks at the list, and
    /// snapshots which are frozen from now on have one, too: this one, or where the writes name some of these objects,
    /// one made of this one and the writes. Nothing is recorded.
    ///
    /// An error means that memory ran out.
    pub fn keep_objects(&mut self, alloc: Global, class: ClassNo) -> Result<(), AllocError>
        ensures { self.new ≡ self.old }
    {
        self.base.keep_objects(alloc, class)?;
        Ok(())
    }

    /// Keeps an index of the field of a part in the view's own writes from now on, so that they are looked at less
    /// where the part is asked for. It is not kept where a frozen snapshot shares the writes, or where memory runs out.
    pub fn keep_index(&mut self, alloc: Global, class: ClassNo, part: &ClassPart<'_>)
        ensures { self.new ≡ self.old }
    {
        if let Attribute::Field(name) = part.attribute {
            index(alloc, &mut self.writes, class, name);
        }
    }

    // The objects of a class beneath the view's own writes, if they were read as a whole or are listed.
    fn known_objects(&self, class: ClassNo) -> Option<&Arc<ObjectList>>
        ensures { IfSome result (λ objects. AreObjects (beneath self.now) class objects.now.value) }
    {
        match self.reads.objects(class) {
            Some(recorded) => Some(recorded),
            None => self.base.kept_objects(class),
        }
    }

    /// Whether these are all objects of a class, by rising keys and with the rows that they have. Nothing is recorded
    /// or allocated.
    pub fn has_objects(&self, class: ClassNo, objects: &ObjectList) -> bool
        ensures { IsTrue result ↔ AreObjects (now_in self.now) class objects.now }
    {
        // What is known of the class beneath is still so, where the view's own writes name none of its objects.
        if !self.writes.names_objects_of(class) {
            if let Some(known) = self.known_objects(class) {
                return **known == *objects;
            }
        }
        self.has_keys(class, objects.keys()) && self.has_rows(class, objects.rows())
    }

    // Whether the objects of a class with these keys have these rows.
    fn has_rows(&self, class: ClassNo, rows: &[KeyedRow]) -> bool
        ensures { result ≡ list_all (λ (o : model.KeyedRow).
            is_row (now_in self.now (object_cell class o.key)) o.row) (map mapped.keyed_row rows.now) }
    {
        for object in rows {
            if !self.has_row(class, object) {
                return false;
            }
        }
        true
    }

    // Whether an object of a class has this row.
    fn has_row(&self, class: ClassNo, object: &KeyedRow) -> bool
        ensures { result ≡ is_row (now_in self.now (object_cell class object.now.key)) object.now.row }
    {
        match self.peek(Cell::Object(class, object.key)) {
            Some(CellValue::Row(row)) => *row == object.row,
            _ => false,
        }
    }
}

impl View {
    /// A snapshot of the view's cells, from which others start. It shares the view's writes and copies no cell; while
    /// it lives, the next write of the view copies them.
    ///
    /// An error means that memory ran out.
    pub fn freeze(&self, alloc: Global) -> Result<Snapshot, AllocError>
        ensures { IfOk result (λ s. cells_in s ≡ now_in self.now) }
    {
        let layer = Arc::try_clone(&self.writes)?;
        let snapshot = self.base.with_layer(alloc, layer)?;
        Ok(snapshot)
    }

    /// Whether these are the keys of a class's objects, in rising order. Nothing is recorded or allocated.
    pub fn has_keys(&self, class: ClassNo, keys: &[Key]) -> bool
        ensures { IsTrue result ↔ AreKeys (now_in self.now) class keys.now }
    {
        // The keys that were read are still the class's, where the view has made and deleted none of its objects. To
        // see that pays where there are no more writes than keys.
        if let Some(recorded) = self.reads.keys(class) {
            if self.writes.len() <= keys.len() && keeps_objects(&self.base, &self.writes, class) {
                return recorded == keys;
            }
        }
        self.base.has_keys_over(&self.writes, class, keys)
    }

    /// How many reads are recorded.
    pub fn read_count(&self) -> usize
        ensures { result ≡ length self.now.reads }
    {
        self.reads.len()
    }

    /// Forgets the reads after the first ones, as many as given. Whoever does so has to forget, too, what they showed.
    pub fn forget_reads(&mut self, count: usize)
        ensures { self.new ≡ record self.old { reads = take count self.old.reads } }
    {
        self.reads.truncate(count);
    }

    /// What was read, and what was written.
    pub fn into_parts(self) -> (Reads, Arc<Layer>)
        ensures reads { result.0 ≡ self.reads }
        ensures layer { result.1.value ≡ self.writes }
        ensures reads_held { Holds (cells_in self.base) result.0 }
    {
        let View {
            base: _,
            reads,
            writes,
            undo: _,
        } = self;
        (reads, writes)
    }
}

// Whether a key, if there is one, is at most another.
fn is_up_to(key: Option<Key>, other: Option<Key>) -> bool
    ensures up_to { IsTrue result → (k : ℤ) → is_above other k ≡ true → is_above key k ≡ true }
    ensures above { result ≡ false → MatchOption key ⊥ (λ k. is_above other k ≡ true) }
{
    match (key, other) {
        (Some(key), Some(other)) => key <= other,
        (Some(_), None) => false,
        (None, _) => true,
    }
}

// Keeps an index of a field in a layer, if nobody shares the layer and memory doesn't run out.
fn index(alloc: Global, writes: &mut Arc<Layer>, class: ClassNo, field: &str)
    ensures { writes.new.value ≡ writes.old.value }
{
    if let Some(layer) = Arc::get_mut(writes) {
        let _ = layer.keep_index(alloc, class, field);
    }
}

// Whether a layer leaves a class's objects where they are: it makes none and deletes none.
fn keeps_objects(base: &Snapshot, layer: &Layer, class: ClassNo) -> bool
    ensures { IsTrue result → (key : ℤ) → KeepsObject (cells_in base.now) layer.now class key }
{
    for (cell, change) in layer.iter() {
        if !keeps(base, *cell, change, class) {
            return false;
        }
    }
    true
}

// Whether a change of a cell leaves an object of the class where it is.
fn keeps(base: &Snapshot, cell: Cell, change: &Option<CellValue>, class: ClassNo) -> bool
    ensures { IsTrue result → (key : ℤ) → mapped.cell cell ≡ object_cell class key →
        is_some change.now ≡ is_some (cells_in base.now (object_cell class key)) }
{
    match cell {
        Cell::Object(of, _) => of != class || change.is_some() == base.get(cell).is_some(),
        _ => true,
    }
}
