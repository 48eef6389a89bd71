//! The lines of objects that are in a store.

ghost use Rattle.std.specs.Prelude.{◌≡◌, IfOk, OnOk, option_map, string_bytes};
ghost use Rattle.hp_model.specs.Report.{objects_text};
ghost use Rattle.hp_store.specs.Mapped.{cell_value};
ghost use Rattle.hp_store.specs.Stack.{cells_in};
ghost use Rattle.hp_report.specs.Mapped as model;
ghost use Rattle.hp_report.specs.Stored.{stored_line, stored_lines, IsClassText, IsObjectText, IsStateText, GainsOf};
ghost use Rattle.hp_report.specs.Text.{Gains, class_text};

use crate::names::Names;
use crate::text::{put_object_line, put_state};
use hp_rule::Library;
use hp_store::{CellValue, Store};
use hp_tree::ObjectName;
use hp_value::{Cell, ClassNo, Key};
use std::alloc::{AllocError, Global};

/// The lines of a state, as a report has them at its end: its objects, and the status of each rule.
///
/// The time goes with the objects. An error means that memory ran out.
pub fn state_text(alloc: Global, library: &Library, store: &Store) -> Result<String, AllocError>
    ensures { IfOk result (λ text.
        IsStateText (model.library library.now) (cells_in store.now) (string_bytes text)) }
{
    let mut out = String::new(alloc);
    put_state(alloc, &mut out, library, store)?;
    Ok(out)
}

/// The lines of a class's objects, as a report's final state has them, by ascending keys.
///
/// The time goes with the objects of the class. An error means that memory ran out.
pub fn class_text(
    alloc: Global,
    library: &Library,
    store: &Store,
    class: ClassNo,
) -> Result<String, AllocError>
    ensures { IfOk result (λ text.
        IsClassText (model.library library.now) (cells_in store.now) class (string_bytes text)) }
{
    let mut out = String::new(alloc);
    put_class(alloc, &mut out, library, store, class)?;
    Ok(out)
}

/// The line of an object, as a report's final state has it, or no line if there is no such object.
///
/// An error means that memory ran out.
pub fn object_text(
    alloc: Global,
    library: &Library,
    store: &Store,
    class: ClassNo,
    key: Key,
) -> Result<String, AllocError>
    ensures { IfOk result (λ text.
        IsObjectText (model.library library.now) (cells_in store.now) class key (string_bytes text)) }
{
    let names = Names {
        classes: library.classes(),
        rules: library.rules(),
    };
    let mut out = String::new(alloc);
    let value = store.get(Cell::Object(class, key));
    put_stored_object(alloc, &mut out, &names, class, key, value)?;
    Ok(out)
}

/// The lines of all objects of a store, by class and then by key.
///
/// An error means that memory ran out, or that there are more classes than there are class numbers.
pub(crate) fn put_all_objects(
    alloc: Global,
    out: &mut String,
    library: &Library,
    store: &Store,
) -> Result<(), AllocError>
    ensures { let lib = model.library library.now in
        OnOk result (GainsOf lib (cells_in store.now) (λ S. objects_text lib S.objects) out.old out.new) }
{
    for index in 0..store.class_bound() {
        let class = class_number(index)?;
        put_class(alloc, out, library, store, class)?;
    }
    Ok(())
}

/// The number of the class at an index. An error means that there is none: the index is 2^32 or more.
fn class_number(index: usize) -> Result<ClassNo, AllocError>
    ensures { IfOk result (λ class. class ≡ index) }
{
    ClassNo::try_from(index).map_err(|_| AllocError)
}

/// The lines of the objects of a class.
fn put_class(
    alloc: Global,
    out: &mut String,
    library: &Library,
    store: &Store,
    class: ClassNo,
) -> Result<(), AllocError>
    ensures { let lib = model.library library.now in
        OnOk result (GainsOf lib (cells_in store.now) (λ S. class_text lib class S.objects) out.old out.new) }
{
    let names = Names {
        classes: library.classes(),
        rules: library.rules(),
    };
    let keys = store.keys(alloc, class)?;
    put_stored_objects(alloc, out, &names, store, class, &keys)
}

/// The lines of the objects of a class with these keys.
fn put_stored_objects(
    alloc: Global,
    out: &mut String,
    names: &Names<'_>,
    store: &Store,
    class: ClassNo,
    keys: &[Key],
) -> Result<(), AllocError>
    ensures { OnOk result (Gains out.old out.new
        (stored_lines (model.library_of names.now) (cells_in store.now) class keys.now)) }
{
    for key in keys {
        let value = store.get(Cell::Object(class, *key));
        put_stored_object(alloc, out, names, class, *key, value)?;
    }
    Ok(())
}

/// The line of an object, if its cell holds a row.
fn put_stored_object(
    alloc: Global,
    out: &mut String,
    names: &Names<'_>,
    class: ClassNo,
    key: Key,
    value: Option<&CellValue>,
) -> Result<(), AllocError>
    ensures { OnOk result (Gains out.old out.new (stored_line (model.library_of names.now) class key
        (option_map (λ v. cell_value v.now) value.entry))) }
{
    match value {
        Some(CellValue::Row(row)) => {
            put_object_line(alloc, out, names, &ObjectName { class, key }, row)
        }
        Some(CellValue::Status(_) | CellValue::Detector(_)) | None => Ok(()),
    }
}
