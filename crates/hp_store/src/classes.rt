//! How many classes have objects.

ghost use Rattle.std.specs.Prelude.{◌≡◌, ◌≤◌, ℕ, ℤ, None, false};
ghost use Rattle.hp_model.specs.Cells.{object_cell, same_cell};
ghost use Rattle.hp_value.specs.Mapped as mapped;
ghost use Rattle.hp_store.specs.Changes.{changes, changes_in};
ghost use Rattle.hp_store.specs.Stack.{cells_in};

use crate::layer::Layer;
use crate::shared::SharedLayer;
use crate::snapshot::Snapshot;
use hp_value::Cell;

impl Snapshot {
    /// A number above those of all classes that have objects. It allocates nothing.
    ///
    /// The time goes with the layers' changes.
    pub fn class_bound(&self) -> usize
        ensures { (class : ℕ) (key : ℤ) → result ≤ class → cells_in self.now (object_cell class key) ≡ None }
    {
        self.base.class_bound().max(bound_of_all(&self.layers))
    }
}

// A number above the classes of all objects that some layers name.
fn bound_of_all(layers: &[SharedLayer]) -> usize
    ensures { (class : ℕ) (key : ℤ) → result ≤ class → changes_in layers.now (object_cell class key) ≡ None }
{
    let mut bound = 0;
    for shared in layers {
        if let Some(layer) = shared.layer() {
            bound = bound_of(layer).max(bound);
        }
    }
    bound
}

// A number above the classes of all objects that a layer names.
fn bound_of(layer: &Layer) -> usize
    ensures { (class : ℕ) (key : ℤ) → result ≤ class → changes layer.now (object_cell class key) ≡ None }
{
    let mut bound = 0;
    for (cell, _) in layer.iter() {
        bound = class_after(*cell).max(bound);
    }
    bound
}

// The number after that of the class whose object a cell belongs to; 0 for the cell of a rule.
fn class_after(cell: Cell) -> usize
    ensures { (class : ℕ) (key : ℤ) → result ≤ class → same_cell (mapped.cell cell) (object_cell class key) ≡ false }
{
    match cell {
        Cell::Object(class, _) => class as usize + 1,
        Cell::Rule(_) | Cell::Detector(_) => 0,
    }
}
