//! The number of a class's objects.

ghost use Rattle.std.specs.Prelude.{◌≡◌, ◌≤◌, ◌<◌, ◌+◌, ◌-◌, ◌*◌, ◌^◌, ◌↔◌, IsTrue, IfOk, OnErr, is_some, length};
ghost use Rattle.hp_model.specs.Cells.{IsCount, over};
ghost use Rattle.hp_value.specs.Mapped as mapped;
ghost use Rattle.hp_store.specs.Changes.{changes, changes_in};
ghost use Rattle.hp_store.specs.Counts.{one_if, IsUncountable};
ghost use Rattle.hp_store.specs.Stack.{cells_in};
ghost use Rattle.hp_store.specs.Tables.{base_cells};

use crate::base::Base;
use crate::layer::Layer;
use crate::shared::{SharedLayer, newest};
use crate::snapshot::Snapshot;
use hp_value::{Cell, ClassNo};
use std::alloc::AllocError;

impl Snapshot {
    /// The number of a class's objects. It allocates nothing.
    ///
    /// The time goes with the layers' changes of the class's objects, and not with the class. An error means that there
    /// are more objects than a `usize` counts, which no memory holds.
    pub fn count(&self, class: ClassNo) -> Result<usize, AllocError>
        ensures count { IfOk result (IsCount (cells_in self.now) class) }
        ensures err { OnErr result (IsUncountable (cells_in self.now) class) }
    {
        sized(counted(&self.base, &self.layers, class))
    }

    /// The number of a class's objects once a layer has been written over the cells. It allocates nothing, and an error
    /// means what it means for `count`. The time goes with the layer's changes of the class's objects, too.
    pub fn count_over(&self, writes: &Layer, class: ClassNo) -> Result<usize, AllocError>
        ensures count { IfOk result (IsCount (over (cells_in self.now) (changes writes.now)) class) }
        ensures err { OnErr result (IsUncountable (over (cells_in self.now) (changes writes.now)) class) }
    {
        sized(self.number_over(writes, class))
    }

    /// Whether a class has this number of objects once a layer has been written over the cells. It allocates nothing,
    /// and takes the time that `count_over` takes.
    pub fn has_count_over(&self, writes: &Layer, class: ClassNo, count: usize) -> bool
        ensures { IsTrue result ↔ IsCount (over (cells_in self.now) (changes writes.now)) class count }
    {
        self.number_over(writes, class) == count as u128
    }

    // The number of a class's objects under the writes.
    fn number_over(&self, writes: &Layer, class: ClassNo) -> u128
        ensures { IsCount (over (cells_in self.now) (changes writes.now)) class result }
    {
        let beneath = counted(&self.base, &self.layers, class);
        recounted(&self.base, &self.layers, writes, class, beneath)
    }
}

// A number of objects, if a `usize` counts them.
fn sized(number: u128) -> Result<usize, AllocError>
    ensures count { IfOk result (λ count. count ≡ number) }
    ensures err { OnErr result (2 ^ 64 ≤ number) }
{
    match usize::try_from(number) {
        Ok(count) => Ok(count),
        Err(_) => Err(AllocError),
    }
}

// The number of a class's objects in a base under layers.
fn counted(base: &Base, layers: &[SharedLayer], class: ClassNo) -> u128
    requires { length layers.now ≤ 8 }
    ensures counted { IsCount (over (base_cells base.now) (changes_in layers.now)) class result }
    ensures few { result ≤ 2 ^ 68 }
{
    let mut number = base.count(class) as u128;
    for (at, shared) in layers.iter().enumerate() {
        if let Some(layer) = shared.layer() {
            number = recounted(base, &layers[..at], layer, class, number);
        }
    }
    number
}

// The number of a class's objects once one layer more has been written over a base and layers, from the number before.
fn recounted(
    base: &Base,
    layers: &[SharedLayer],
    more: &Layer,
    class: ClassNo,
    before: u128,
) -> u128
    requires counted { IsCount (over (base_cells base.now) (changes_in layers.now)) class before }
    requires few { before ≤ 2 ^ 68 }
    ensures counted { IsCount (over (over (base_cells base.now) (changes_in layers.now)) (changes more.now)) class
        result }
    ensures few { result ≤ before + 2 ^ 63 }
{
    let _most = more.len();
    let mut number = before;
    for (cell, change) in more.of_class(class) {
        number = changed_by(number, is_there(base, layers, *cell), change.is_some());
    }
    number
}

// The number after a change of one object, which was there before, or is there now.
fn changed_by(number: u128, was_there: bool, is_there: bool) -> u128
    requires { number < 2 ^ 100 }
    ensures { result ≡ number + one_if is_there - one_if was_there }
{
    match (was_there, is_there) {
        (false, true) => number + 1,
        (true, false) => number.saturating_sub(1),
        _ => number,
    }
}

// Whether a cell of a base under layers has a value.
fn is_there(base: &Base, layers: &[SharedLayer], cell: Cell) -> bool
    ensures { result ≡ is_some (over (base_cells base.now) (changes_in layers.now) (mapped.cell cell)) }
{
    match newest(layers, cell) {
        Some(change) => change.is_some(),
        None => base.get(cell).is_some(),
    }
}
