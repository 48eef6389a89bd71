//! The committed store.

use crate::layer::Layer;
use crate::snapshot::Snapshot;
use crate::value::CellValue;
use hp_value::{Cell, ClassNo, Key, ObjectList};
use std::alloc::{AllocError, Global};
use std::marker::Model;
use std::sync::Arc;

/// The cells of the committed state.
///
/// To a clause it is what a snapshot of it is.
#[derive(Debug, Drop)]
pub struct Store {
    state: Snapshot,
}

impl Model for Store {
    ghost use Rattle.hp_store.specs.Stack.{Stack, stack_code};

    ghost Value = { Stack };

    ghost coded = { stack_code };

    ghost view = { λ s. s.state };
}

impl Store {
    ghost use Rattle.std.specs.Prelude.{◌≡◌, ◌≤◌, ℕ, ℤ, None, IfOk, OnOk, OnErr, option_map};
    ghost use Rattle.hp_model.specs.Cells.{Cell as ModelCell, AreKeys, AreObjects, object_cell, over};
    ghost use Rattle.hp_value.specs.Mapped as mapped;
    ghost use Rattle.hp_store.specs.Changes.{changes};
    ghost use Rattle.hp_store.specs.Mapped as here;
    ghost use Rattle.hp_store.specs.Stack.{cells_in};

    /// A store in which each cell is empty.
    ///
    /// An error means that memory ran out.
    pub fn empty(alloc: Global) -> Result<Store, AllocError>
        ensures { IfOk result (λ s. (q : ModelCell) → cells_in s q ≡ None) }
    {
        Ok(Store {
            state: Snapshot::empty(alloc)?,
        })
    }

    /// The cells as they are now. What is applied later doesn't change the snapshot; no cell is copied.
    ///
    /// An error means that memory ran out.
    pub fn snapshot(&self) -> Result<Snapshot, AllocError>
        ensures { IfOk result (λ s. s ≡ self.now) }
    {
        self.state.clone()
    }

    /// The value of a cell, or none where the cell is empty. Nothing is copied.
    pub fn get(&self, cell: Cell) -> Option<&CellValue>
        ensures { option_map (λ v. here.cell_value v.now) result ≡ cells_in self.now (mapped.cell cell) }
    {
        self.state.get(cell)
    }

    /// A number above those of all classes that have objects. The time goes with the layers' changes that the store
    /// hasn't taken in, since snapshots of it are left.
    pub fn class_bound(&self) -> usize
        ensures { (class : ℕ) (key : ℤ) → result ≤ class → cells_in self.now (object_cell class key) ≡ None }
    {
        self.state.class_bound()
    }

    /// The keys of a class's objects, in rising order.
    ///
    /// An error means that memory ran out.
    pub fn keys(&self, alloc: Global, class: ClassNo) -> Result<Vec<Key>, AllocError>
        ensures { IfOk result (λ keys. AreKeys (cells_in self.now) class keys.items) }
    {
        self.state.keys(alloc, class)
    }

    /// Keeps a list of all objects of a class, as they are in the store. Snapshots share it from now on. Where the
    /// class has such a list, it stays.
    ///
    /// Under the next layer that names one of these objects the list goes on, made of the list before and the layer.
    /// Under a second one it goes, unless this is called in between.
    ///
    /// An error means that memory ran out.
    pub fn keep_objects(
        &mut self,
        class: ClassNo,
        objects: Arc<ObjectList>,
    ) -> Result<(), AllocError>
        requires { AreObjects (cells_in self.old) class objects.value }
        ensures { self.new ≡ self.old }
    {
        self.state.keep_list(class, objects)
    }

    /// Keeps an index of a field from now on, so that `Snapshot::part` finds parts of the class by it. That takes a
    /// look at each object of the class once; where there is such an index, or a snapshot shares the cells, nothing is
    /// done.
    ///
    /// An error means that memory ran out.
    pub fn keep_index(
        &mut self,
        alloc: Global,
        class: ClassNo,
        field: &str,
    ) -> Result<(), AllocError>
        ensures { self.new ≡ self.old }
    {
        self.state.keep_index(alloc, class, field)
    }

    /// Overwrites the cells by a layer. Where no snapshot of the store is left, the changes go into the cells in place,
    /// and cost no more than what they change. A list that goes on under the changes costs one pass over its objects.
    ///
    /// An error means that memory ran out; the store is then as before. A layer that changes nothing costs nothing.
    pub fn apply(&mut self, alloc: Global, layer: Arc<Layer>) -> Result<(), AllocError>
        ensures ok { OnOk result (cells_in self.new ≡ over (cells_in self.old) (changes layer.value)) }
        ensures err { OnErr result (self.new ≡ self.old) }
    {
        self.state.take_in(alloc, layer)
    }
}
