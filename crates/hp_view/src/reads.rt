//! What was read of a snapshot.

ghost use Rattle.std.specs.Prelude.{◌≡◌, false, IfOk, OnOk, OnErr, map, option_map};
ghost use Rattle.hp_store.specs.Mapped.{cell_value};
ghost use Rattle.std.specs.Prelude.{cond, ◌++◌, ◌∷◌, []};
ghost use Rattle.std.specs.List.{list_any};
ghost use Rattle.hp_value.specs.Mapped as mapped;
ghost use Rattle.hp_view.specs.Mapped.{read, part_found};
ghost use Rattle.hp_view.specs.Numbered.{AreNumbered, IsNumbered, is_read_of};
ghost use Rattle.hp_view.specs.Parts.{same_part};

use crate::part::{FoundPart, is_same, number};
use hp_store::CellValue;
use hp_value::{Attribute, Bounds, Cell, ClassNo, ClassPart, Key, KeyedRow, ObjectList};
use indexmap::IndexMap;
use indexmap::map::Iter;
use std::alloc::{AllocError, Global};
use std::marker::Model;
use std::sync::Arc;

// For how many reads there is room from the first one on.
const FIRST_READS: usize = 18;

/// What of a snapshot was looked at.
#[derive(Clone, Copy, Debug, PartialEq, Eq, Hash)]
pub enum Seen {
    /// A cell.
    Cell(Cell),
    /// The keys of a class's objects, alone or with their rows.
    Keys(ClassNo),
    /// The greatest key of a class's objects.
    Greatest(ClassNo),
    /// The number of a class's objects.
    Count(ClassNo),
    /// A part of a class, by a number that is computed of it: `Found` has the part itself.
    Part(ClassNo, u64),
}

/// What was found there.
#[derive(Debug, Drop)]
pub enum Found {
    /// A cell's value, or its absence.
    Value(Option<CellValue>),
    /// A class's keys, in rising order.
    Keys(Vec<Key>),
    /// A class's greatest key. None if the class has no object.
    Greatest(Option<Key>),
    /// The number of a class's objects.
    Count(usize),
    /// All objects of a class with their rows, by rising keys. Others may share the list.
    Objects(Arc<ObjectList>),
    /// A part of a class with its objects. They stand elsewhere, so that what is found in a cell takes little room.
    Part(Arc<FoundPart>),
}

impl Found {
    ghost use Rattle.std.specs.Prelude.{◌≡◌, false, IsNone, IfSome, option_map};
    ghost use Rattle.hp_view.specs.declared.reads.Found.TheVariants.{Objects};
    ghost use Rattle.hp_store.specs.Mapped.{cell_value};
    ghost use Rattle.std.specs.Prelude.{map};
    ghost use Rattle.hp_value.specs.Mapped.{class_part, keyed_row};
    ghost use Rattle.hp_view.specs.Mapped.{value_found, keys_found, greatest_found, count_found};
    ghost use Rattle.hp_view.specs.Mapped.{part_found, objects_found, found_whole};

    /// The value that was found in a cell. In a class none is found.
    pub fn value(&self) -> Option<&CellValue>
        ensures { option_map (λ v. cell_value v.now) result ≡ value_found self.now }
    {
        match self {
            Found::Value(value) => value.as_ref(),
            Found::Keys(_)
            | Found::Greatest(_)
            | Found::Count(_)
            | Found::Objects(_)
            | Found::Part(_) => None,
        }
    }

    /// The keys that were found in a class. In a cell there are none.
    pub fn keys(&self) -> &[Key]
        ensures { result.now ≡ keys_found self.now }
    {
        match self {
            Found::Value(_) | Found::Greatest(_) | Found::Count(_) | Found::Part(_) => &[],
            Found::Keys(keys) => keys,
            Found::Objects(objects) => objects.keys(),
        }
    }

    /// The greatest key that was found in a class. Elsewhere there is none.
    pub fn greatest(&self) -> Option<Key>
        ensures { result ≡ greatest_found self.now }
    {
        match self {
            Found::Greatest(greatest) => *greatest,
            Found::Value(_)
            | Found::Keys(_)
            | Found::Count(_)
            | Found::Objects(_)
            | Found::Part(_) => None,
        }
    }

    /// The number of objects that was found in a class. Elsewhere it is 0.
    pub fn count(&self) -> usize
        ensures { result ≡ count_found self.now }
    {
        match self {
            Found::Count(count) => *count,
            Found::Value(_)
            | Found::Keys(_)
            | Found::Greatest(_)
            | Found::Objects(_)
            | Found::Part(_) => 0,
        }
    }

    /// The part that was found, if it is a part. Else it is a part that has all objects.
    pub fn part(&self) -> ClassPart<'_>
        ensures { class_part result ≡ part_found self.now }
    {
        match self {
            Found::Part(found) => found.part(),
            Found::Value(_)
            | Found::Keys(_)
            | Found::Greatest(_)
            | Found::Count(_)
            | Found::Objects(_) => ClassPart {
                attribute: Attribute::Key,
                bounds: Bounds::Numbers(None, None),
            },
        }
    }

    // All objects of a class, if they were found.
    fn whole(&self) -> Option<&Arc<ObjectList>>
        ensures none { IsNone result → found_whole self.now ≡ false }
        ensures some { IfSome result (λ objects. self.now ≡ Objects objects.now) }
    {
        match self {
            Found::Objects(objects) => Some(objects),
            Found::Value(_)
            | Found::Keys(_)
            | Found::Greatest(_)
            | Found::Count(_)
            | Found::Part(_) => None,
        }
    }

    // Whether all objects of a class were found.
    fn is_whole(&self) -> bool
        ensures { result ≡ found_whole self.now }
    {
        match self {
            Found::Objects(_) => true,
            Found::Value(_)
            | Found::Keys(_)
            | Found::Greatest(_)
            | Found::Count(_)
            | Found::Part(_) => false,
        }
    }

    /// The objects that were found in a part. Elsewhere there are none.
    pub fn objects(&self) -> &[KeyedRow]
        ensures { map keyed_row result.now ≡ objects_found self.now }
    {
        match self {
            Found::Part(found) => found.objects(),
            Found::Value(_)
            | Found::Keys(_)
            | Found::Greatest(_)
            | Found::Count(_)
            | Found::Objects(_) => &[],
        }
    }
}

/// How a part of a class stands among the reads.
#[derive(Clone, Copy, Debug)]
pub(crate) enum PartState {
    /// It was read.
    WasRead,
    /// Neither it nor another part with its number was read.
    IsFree,
    /// Another part with its number was read.
    IsTaken,
}

/// What was read of a snapshot, in the order of the first reads: each cell with the value or the absence that was
/// found, each class with its keys, or with all of its objects where it was read as a whole, or with its greatest key,
/// or with the number of its objects, each part of a class with its objects.
#[derive(Debug, Drop)]
pub struct Reads {
    entries: IndexMap<Seen, Found>,
}

impl Model for Reads {
    ghost use Rattle.std.specs.Prelude.{List, map};
    ghost use Rattle.hp_model.specs.Cells.{Read};
    ghost use Rattle.hp_view.specs.Codes.{reads_code};

    ghost Value = { List Read };

    ghost coded = { reads_code };

    ghost use Rattle.hp_view.specs.Mapped.{read};

    ghost view = { λ r. map read r.entries.entries };

    ghost use Rattle.hp_view.specs.Numbered.{AreNumbered};

    ghost invariant = { λ r. AreNumbered r.entries.entries };
}

impl Reads {
    ghost use Rattle.std.specs.Prelude.{◌≡◌, ◌↔◌, true, false, [], Some, IsTrue, IsSome, IsNone, IsOk, IfOk};
    ghost use Rattle.std.specs.Prelude.{IfSome, OnOk, OnErr, is_some, map, option_map, length, take};
    ghost use Rattle.hp_model.specs.Cells.{Cells, AreKeys, AreObjects, Holds, cell_read};
    ghost use Rattle.hp_model.specs.Cells.{keys_read, greatest_read, count_read, objects_read, part_read};
    ghost use Rattle.hp_value.specs.Mapped as mapped;
    ghost use Rattle.hp_store.specs.Mapped.{cell_value};
    ghost use Rattle.hp_view.specs.Mapped.{read, value_found};
    ghost use Rattle.hp_view.specs.Numbered.{IsStateOf};
    ghost use Rattle.hp_view.specs.Parts.{number_of};
    ghost use Rattle.hp_view.specs.Seeing.{noted, class_was_read, row_was_read};
    ghost use Rattle.hp_view.specs.Seeing.{cell_was_read, keys_were_read, greatest_was_read, count_was_read};
    ghost use Rattle.hp_view.specs.Seeing.{reads_cell};
    ghost use Rattle.hp_view.specs.Seeing.{number_was_read};

    /// No reads.
    pub fn new(alloc: Global) -> Reads
        ensures { result ≡ [] }
    {
        Reads {
            entries: IndexMap::new(alloc),
        }
    }

    /// Makes room for more reads.
    ///
    /// An error means that memory ran out.
    pub(crate) fn reserve(&mut self, more: usize) -> Result<(), AllocError>
        ensures { self.new ≡ self.old }
    {
        self.entries.reserve(more)
    }

    /// Forgets the reads after the first ones, as many as given.
    pub(crate) fn truncate(&mut self, len: usize)
        ensures { self.new ≡ take len self.old }
    {
        self.entries.truncate(len);
    }

    /// How many reads there are.
    pub fn len(&self) -> usize
        ensures { result ≡ length self.now }
    {
        self.entries.len()
    }

    /// Whether nothing was read.
    pub fn is_empty(&self) -> bool
        ensures { IsTrue result ↔ (self.now ≡ []) }
    {
        self.entries.is_empty()
    }

    /// The reads, in the order of the first reads.
    pub fn iter(&self) -> Iter<'_, Seen, Found>
        ensures { map read result ≡ self.now }
    {
        self.entries.iter()
    }

    /// The keys that were found in a class, if they were read.
    pub(crate) fn keys(&self, class: ClassNo) -> Option<&[Key]>
        ensures known { is_some result ≡ keys_were_read self.now class }
        ensures held { IfSome result (λ keys. (base : Cells) → Holds base self.now → AreKeys base class keys.now) }
    {
        match self.entries.get(&Seen::Keys(class)) {
            Some(found) => Some(found.keys()),
            None => None,
        }
    }

    /// All objects that were found in a class, if it was read as a whole.
    pub(crate) fn objects(&self, class: ClassNo) -> Option<&Arc<ObjectList>>
        ensures known { IsSome result → keys_were_read self.now class ≡ true }
        ensures none { IsNone result → class_was_read self.now class ≡ false }
        ensures held { IfSome result (λ objects. (base : Cells) → Holds base self.now →
            AreObjects base class objects.now.value) }
    {
        match self.entries.get(&Seen::Keys(class)) {
            Some(found) => found.whole(),
            None => None,
        }
    }

    /// What was found in a cell, if it was read by itself.
    pub(crate) fn in_cell(&self, cell: Cell) -> Option<&Found>
        ensures known { is_some result ≡ list_any (reads_cell (mapped.cell cell)) self.now }
        ensures held { IfSome result (λ found. (base : Cells) → Holds base self.now →
            value_found found.now ≡ base (mapped.cell cell)) }
    {
        self.entries.get(&Seen::Cell(cell))
    }

    /// Whether a cell was read: by itself, or with its whole class.
    pub fn has_cell(&self, cell: Cell) -> bool
        ensures { result ≡ cell_was_read self.now (mapped.cell cell) }
    {
        self.entries.contains_key(&Seen::Cell(cell)) || self.has_row(cell)
    }

    // Whether a cell is an object's whose class was read as a whole.
    pub(crate) fn has_row(&self, cell: Cell) -> bool
        ensures { result ≡ row_was_read self.now (mapped.cell cell) }
    {
        match cell {
            Cell::Object(class, _) => self.has_whole(class),
            Cell::Rule(_) | Cell::Detector(_) => false,
        }
    }

    // Whether a class was read as a whole.
    fn has_whole(&self, class: ClassNo) -> bool
        ensures { result ≡ class_was_read self.now class }
    {
        match self.entries.get(&Seen::Keys(class)) {
            Some(found) => found.is_whole(),
            None => false,
        }
    }

    /// How a part of a class stands among the reads.
    pub(crate) fn part_state(&self, class: ClassNo, part: &ClassPart<'_>) -> PartState
        ensures { IsStateOf self.now class (mapped.class_part part.now) result }
    {
        match self.entries.get(&Seen::Part(class, number(part))) {
            Some(found) => compared(found, part),
            None => PartState::IsFree,
        }
    }

    /// Notes what was found in a cell that wasn't read before. The value is shared.
    ///
    /// An error means that memory ran out; the reads are then as before.
    pub(crate) fn note_value(
        &mut self,
        cell: Cell,
        value: Option<&CellValue>,
    ) -> Result<(), AllocError>
        requires { cell_was_read self.old (mapped.cell cell) ≡ false }
        ensures ok { OnOk result (self.new ≡ noted self.old
            (cell_read (mapped.cell cell) (option_map (λ v. cell_value v.now) value.entry))) }
        ensures err { OnErr result (self.new ≡ self.old) }
    {
        let found = shared(value)?;
        note(&mut self.entries, Seen::Cell(cell), Found::Value(found))?;
        Ok(())
    }

    /// Notes what keys were found in a class whose keys weren't read before.
    ///
    /// An error means that memory ran out; the reads are then as before.
    pub(crate) fn note_keys(&mut self, class: ClassNo, keys: Vec<Key>) -> Result<(), AllocError>
        requires { keys_were_read self.old class ≡ false }
        ensures ok { OnOk result (self.new ≡ noted self.old (keys_read class keys.items)) }
        ensures err { OnErr result (self.new ≡ self.old) }
    {
        note(&mut self.entries, Seen::Keys(class), Found::Keys(keys))?;
        Ok(())
    }

    /// Notes what greatest key was found in a class whose keys weren't read before, unless one is noted.
    ///
    /// An error means that memory ran out; the reads are then as before. Where one is noted, nothing is allocated.
    pub(crate) fn note_greatest(
        &mut self,
        class: ClassNo,
        greatest: Option<Key>,
    ) -> Result<(), AllocError>
        requires { keys_were_read self.old class ≡ false }
        ensures ok { OnOk result (self.new ≡ noted self.old (greatest_read class greatest)) }
        ensures err { OnErr result (self.new ≡ self.old) }
        ensures again { IsTrue (greatest_was_read self.old class) → IsOk result }
    {
        let seen = Seen::Greatest(class);
        if !self.entries.contains_key(&seen) {
            note(&mut self.entries, seen, Found::Greatest(greatest))?;
        }
        Ok(())
    }

    /// Notes what number of objects was found in a class whose keys weren't read before, unless one is noted.
    ///
    /// An error means that memory ran out; the reads are then as before. Where one is noted, nothing is allocated.
    pub(crate) fn note_count(&mut self, class: ClassNo, count: usize) -> Result<(), AllocError>
        requires { keys_were_read self.old class ≡ false }
        ensures ok { OnOk result (self.new ≡ noted self.old (count_read class count)) }
        ensures err { OnErr result (self.new ≡ self.old) }
        ensures again { IsTrue (count_was_read self.old class) → IsOk result }
    {
        let seen = Seen::Count(class);
        if !self.entries.contains_key(&seen) {
            note(&mut self.entries, seen, Found::Count(count))?;
        }
        Ok(())
    }

    /// Notes what objects were found in a class whose keys weren't read before. The list is shared.
    ///
    /// An error means that memory ran out; the reads are then as before.
    pub(crate) fn note_objects(
        &mut self,
        class: ClassNo,
        objects: Arc<ObjectList>,
    ) -> Result<(), AllocError>
        requires { keys_were_read self.old class ≡ false }
        ensures ok { OnOk result (self.new ≡ noted self.old (objects_read class objects.value)) }
        ensures err { OnErr result (self.new ≡ self.old) }
    {
        note(
            &mut self.entries,
            Seen::Keys(class),
            Found::Objects(objects),
        )?;
        Ok(())
    }

    /// Notes what objects were found in a part of a class whose number is free.
    ///
    /// An error means that memory ran out; the reads are then as before.
    pub(crate) fn note_part(
        &mut self,
        alloc: Global,
        class: ClassNo,
        part: &ClassPart<'_>,
        objects: Vec<KeyedRow>,
    ) -> Result<(), AllocError>
        requires { number_was_read self.old class (number_of (mapped.class_part part.now)) ≡ false }
        ensures ok { OnOk result (self.new ≡ noted self.old
            (part_read class (mapped.class_part part.now) (map mapped.keyed_row objects.items))) }
        ensures err { OnErr result (self.new ≡ self.old) }
    {
        let found = Arc::new(alloc, FoundPart::new(alloc, part, objects)?)?;
        note(
            &mut self.entries,
            Seen::Part(class, number(part)),
            Found::Part(found),
        )?;
        Ok(())
    }
}

// Whether the part that was found under a number is this one.
fn compared(found: &Found, part: &ClassPart<'_>) -> PartState
    ensures { result
        ≡ cond (same_part (part_found found.now) (mapped.class_part part.now)) PartState.WasRead PartState.IsTaken }
{
    if is_same(&found.part(), part) {
        PartState::WasRead
    } else {
        PartState::IsTaken
    }
}

// A copy of a value that shares what the value has.
pub(crate) fn shared(value: Option<&CellValue>) -> Result<Option<CellValue>, AllocError>
    ensures { IfOk result (λ copy. option_map cell_value copy ≡ option_map (λ v. cell_value v.now) value.entry) }
{
    match value {
        Some(value) => Ok(Some(value.clone()?)),
        None => Ok(None),
    }
}

// Notes what was found where nothing was looked at before.
fn note(entries: &mut IndexMap<Seen, Found>, seen: Seen, found: Found) -> Result<(), AllocError>
    requires numbered { AreNumbered entries.old.entries }
    requires fits { IsNumbered (seen, found) }
    requires new { list_any (is_read_of seen) (map read entries.old.entries) ≡ false }
    ensures ok { OnOk result (map read entries.new.entries ≡ map read entries.old.entries ++ read (seen, found) ∷ []) }
    ensures err { OnErr result (map read entries.new.entries ≡ map read entries.old.entries) }
    ensures numbered { AreNumbered entries.new.entries }
{
    make_room(entries)?;
    entries.insert(seen, found)?;
    Ok(())
}

// Makes room for the reads of most units at once, so that the map doesn't grow step by step.
fn make_room(entries: &mut IndexMap<Seen, Found>) -> Result<(), AllocError>
    ensures { entries.new.entries ≡ entries.old.entries }
{
    if entries.is_empty() {
        entries.reserve(FIRST_READS)?;
    }
    Ok(())
}
