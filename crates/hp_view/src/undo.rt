//! Writes that can be taken back.

ghost use Rattle.std.specs.Prelude.{◌≡◌, ◌≤◌, ◌++◌, [], ◌∷◌, length, drop, take};
ghost use Rattle.std.specs.Prelude.{map, Some, IsSome, IsOk, OnOk, OnErr, option_map};
ghost use Rattle.std.specs.Option.{option_or};
ghost use Rattle.hp_model.specs.Cells.{Cell as ModelCell, with_change};
ghost use Rattle.hp_value.specs.Mapped as mapped;
ghost use Rattle.hp_store.specs.Changes.{changes};
ghost use Rattle.hp_store.specs.Mapped.{change as written_value};
ghost use Rattle.hp_view.specs.Mapped.{replaced};
ghost use Rattle.hp_view.specs.Seeing.{undone, AreCovered, CanGoBack};

use hp_store::{CellValue, Layer};
use hp_value::Cell;
use std::alloc::AllocError;
use std::sync::Arc;

/// A cell that was written, with what the layer made of it before, if it named it.
pub(crate) type Replaced = (Cell, Option<Option<CellValue>>);

/// Writes a change, and keeps what it replaces. The layer is copied first if others share it.
///
/// An error means that memory ran out; the layer and what it replaced are then as before.
pub(crate) fn write(
    writes: &mut Arc<Layer>,
    undo: &mut Vec<Replaced>,
    cell: Cell,
    change: Option<CellValue>,
) -> Result<(), AllocError>
    ensures changes { OnOk result (changes writes.new.value
        ≡ with_change (changes writes.old.value) (mapped.cell cell) (Some (written_value change))) }
    ensures undo { OnOk result (map replaced undo.new.items ≡ map replaced undo.old.items
        ++ (mapped.cell cell, changes writes.old.value (mapped.cell cell)) ∷ []) }
    ensures err { OnErr result ((writes.new.value ≡ writes.old.value) × (undo.new.items ≡ undo.old.items)) }
{
    let layer = Arc::make_mut(writes)?;
    write_in(layer, undo, cell, change)?;
    Ok(())
}

// Writes a change to a layer that nobody shares, and keeps what it replaces.
fn write_in(
    writes: &mut Layer,
    undo: &mut Vec<Replaced>,
    cell: Cell,
    change: Option<CellValue>,
) -> Result<(), AllocError>
    ensures changes { OnOk result (changes writes.new
        ≡ with_change (changes writes.old) (mapped.cell cell) (Some (written_value change))) }
    ensures undo { OnOk result (map replaced undo.new.items ≡ map replaced undo.old.items
        ++ (mapped.cell cell, changes writes.old (mapped.cell cell)) ∷ []) }
    ensures err { OnErr result ((writes.new ≡ writes.old) × (undo.new.items ≡ undo.old.items)) }
{
    undo.reserve(1)?;
    let before = writes.insert(cell, change)?;
    undo.push((cell, before))?;
    Ok(())
}

/// Writes all changes of another layer, which are shared, and keeps what they replace. The layer is copied first if
/// others share it.
///
/// An error means that memory ran out; what the layer makes of each cell, and what it replaced, are then as before.
pub(crate) fn write_all(
    writes: &mut Arc<Layer>,
    undo: &mut Vec<Replaced>,
    upper: &Layer,
) -> Result<(), AllocError>
    requires { AreCovered (map replaced undo.old.items) (changes writes.old.value) }
    ensures ok { OnOk result ((q : ModelCell) → changes writes.new.value q
        ≡ option_or (changes upper.now q) (changes writes.old.value q)) }
    ensures back { OnOk result (CanGoBack (map replaced undo.old.items) (changes writes.old.value)
        (map replaced undo.new.items) (changes writes.new.value)) }
    ensures err { OnErr result ((changes writes.new.value ≡ changes writes.old.value)
        × (map replaced undo.new.items ≡ map replaced undo.old.items)) }
{
    let layer = Arc::make_mut(writes)?;
    let start = undo.len();
    if let Err(refused) = write_each(layer, undo, upper) {
        unwind(layer, undo, start);
        return Err(refused);
    }
    Ok(())
}

// Writes a layer's changes to one that nobody shares. An error means that memory ran out; some of the changes may
// have been written.
fn write_each(writes: &mut Layer, undo: &mut Vec<Replaced>, upper: &Layer) -> Result<(), AllocError>
    requires { AreCovered (map replaced undo.old.items) (changes writes.old) }
    ensures ok { OnOk result ((q : ModelCell) → changes writes.new q
        ≡ option_or (changes upper.now q) (changes writes.old q)) }
    ensures back { CanGoBack (map replaced undo.old.items) (changes writes.old) (map replaced undo.new.items)
        (changes writes.new) }
{
    for (cell, change) in upper.iter() {
        write_in(writes, undo, *cell, change.clone()?)?;
    }
    Ok(())
}

/// Takes back the writes from a place on. The layer is copied first if others share it.
///
/// An error means that memory for a copy ran out; the layer and what it replaced are then as before.
pub(crate) fn take_back(
    writes: &mut Arc<Layer>,
    undo: &mut Vec<Replaced>,
    at: usize,
) -> Result<(), AllocError>
    requires within { at ≤ length undo.old.items }
    requires covered { AreCovered (map replaced undo.old.items) (changes writes.old.value) }
    ensures changes { OnOk result (changes writes.new.value
        ≡ undone (drop at (map replaced undo.old.items)) (changes writes.old.value)) }
    ensures undo { OnOk result (map replaced undo.new.items ≡ take at (map replaced undo.old.items)) }
    ensures covered { AreCovered (map replaced undo.new.items) (changes writes.new.value) }
    ensures err { OnErr result ((writes.new.value ≡ writes.old.value) × (undo.new.items ≡ undo.old.items)) }
    ensures nothing { at ≡ length undo.old.items → IsOk result }
{
    if undo.len() == at {
        return Ok(());
    }
    let layer = Arc::make_mut(writes)?;
    unwind(layer, undo, at);
    Ok(())
}

// Undoes the changes of a layer that nobody shares, the newest first. It allocates nothing.
fn unwind(writes: &mut Layer, undo: &mut Vec<Replaced>, at: usize)
    requires within { at ≤ length undo.old.items }
    requires covered { AreCovered (map replaced undo.old.items) (changes writes.old) }
    ensures changes { changes writes.new ≡ undone (drop at (map replaced undo.old.items)) (changes writes.old) }
    ensures undo { map replaced undo.new.items ≡ take at (map replaced undo.old.items) }
    ensures covered { AreCovered (map replaced undo.new.items) (changes writes.new) }
{
    while undo.len() > at {
        if let Some((cell, before)) = undo.pop() {
            restore(writes, cell, before);
        }
    }
}

// Gives a cell back what a write replaced.
fn restore(writes: &mut Layer, cell: Cell, before: Option<Option<CellValue>>)
    requires { IsSome (changes writes.old (mapped.cell cell)) }
    ensures { changes writes.new ≡ with_change (changes writes.old) (mapped.cell cell)
        (option_map written_value before) }
{
    match before {
        Some(change) => {
            let _ = writes.insert(cell, change);
        }
        None => {
            writes.remove(cell);
        }
    }
}
