//! Operations on objects.

ghost use Rattle.std.specs.Prelude.{OnErr};
ghost use Rattle.hp_model.specs.Rules.{Library};
ghost use Rattle.hp_model.specs.Operations.{create_object, update_object, delete_object};
ghost use Rattle.hp_model.specs.Cells.{object_cell};
ghost use Rattle.hp_value.specs.Mapped.{primitive};
ghost use Rattle.hp_view.specs.Adding.{AddsReads};
ghost use Rattle.hp_view.specs.Seeing.{GoesOn, OnlyReads};
ghost use Rattle.hp_ops.specs.Given.{given_in};
ghost use Rattle.hp_ops.specs.Performs.{Performs};
ghost use Rattle.hp_ops.specs.Reading.{IsReadOf};

use crate::finding::find_object;
use crate::rows::{Given, changed_row};
use hp_store::CellValue;
use hp_value::{Cause, Cell, ClassNo, Halt, Key, Prim, Row};
use hp_view::View;
use std::alloc::Global;

/// Creates an object. The answer is the occurrence to signal.
///
/// `Exists` means that the object exists. Only the object's cell is read, not the keys of its class. After an error
/// nothing is written.
pub fn create(
    alloc: Global,
    view: &mut View,
    class: ClassNo,
    key: Key,
    new: Row,
) -> Result<Prim, Halt>
    ensures operation { (lib : Library) →
        Performs primitive lib (create_object class key new) view.old view.new result }
    ensures reads { AddsReads (IsReadOf (object_cell class key)) view.old.reads view.new.reads }
    ensures goes_on { GoesOn view.old view.new }
    ensures refused { OnErr result (OnlyReads view.old view.new) }
{
    if find_object(alloc, view, class, key)?.is_some() {
        return Err(Halt::Cause(Cause::Exists));
    }
    let written = new.clone()?;
    view.put(Cell::Object(class, key), CellValue::Row(written))?;
    Ok(Prim::Create { class, key, new })
}

/// Sets fields of an object. The answer is the occurrence to signal.
///
/// `Missing` means that there is no such object. Only the object's cell is read. After an error nothing is written.
pub fn update(
    alloc: Global,
    view: &mut View,
    class: ClassNo,
    key: Key,
    given: &[Given<'_>],
) -> Result<Prim, Halt>
    ensures operation { (lib : Library) →
        Performs primitive lib (update_object class key (given_in given.now)) view.old view.new result }
    ensures reads { AddsReads (IsReadOf (object_cell class key)) view.old.reads view.new.reads }
    ensures goes_on { GoesOn view.old view.new }
    ensures refused { OnErr result (OnlyReads view.old view.new) }
{
    let Some(old) = find_object(alloc, view, class, key)? else {
        return Err(Halt::Cause(Cause::Missing));
    };
    let new = changed_row(alloc, &old, given)?;
    let written = new.clone()?;
    view.put(Cell::Object(class, key), CellValue::Row(written))?;
    Ok(Prim::Update {
        class,
        key,
        old,
        new,
    })
}

/// Deletes an object. The answer is the occurrence to signal.
///
/// `Missing` means that there is no such object. Only the object's cell is read. After an error nothing is written.
pub fn delete(alloc: Global, view: &mut View, class: ClassNo, key: Key) -> Result<Prim, Halt>
    ensures operation { (lib : Library) → Performs primitive lib (delete_object class key) view.old view.new result }
    ensures reads { AddsReads (IsReadOf (object_cell class key)) view.old.reads view.new.reads }
    ensures goes_on { GoesOn view.old view.new }
    ensures refused { OnErr result (OnlyReads view.old view.new) }
{
    let Some(old) = find_object(alloc, view, class, key)? else {
        return Err(Halt::Cause(Cause::Missing));
    };
    view.cut(Cell::Object(class, key))?;
    Ok(Prim::Delete { class, key, old })
}
