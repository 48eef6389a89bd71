//! The greatest key of a class.

ghost use Rattle.std.specs.Prelude.{◌≡◌, ℤ, ◌⊎◌, true, false, IfSome, is_some};
ghost use Rattle.hp_model.specs.Cells.{IsGreatestKey, is_above, is_there, object_cell, over};
ghost use Rattle.hp_store.specs.Changes.{changes, changes_in};
ghost use Rattle.hp_store.specs.Greatest.{is_below, NamesNone};
ghost use Rattle.hp_store.specs.Stack.{cells_in};

use crate::layer::Layer;
use crate::shared::SharedLayer;
use crate::snapshot::Snapshot;
use hp_value::{Cell, ClassNo, Key};
use std::ops::Bound;

impl Snapshot {
    /// The greatest key of a class's objects. None if the class has no object. It allocates nothing.
    ///
    /// The time goes with the logarithm of the number of cells, for this key and each one above it that layers removed.
    pub fn greatest_key(&self, class: ClassNo) -> Option<Key>
        ensures { IsGreatestKey (cells_in self.now) class result }
    {
        let nothing = Layer::new(*self.layers.allocator());
        self.greatest_key_over(&nothing, class)
    }

    /// The greatest key of a class's objects once a layer has been written over the cells.
    pub fn greatest_key_over(&self, writes: &Layer, class: ClassNo) -> Option<Key>
        ensures { IsGreatestKey (over (cells_in self.now) (changes writes.now)) class result }
    {
        self.greatest_below(writes, class, None)
    }

    // The greatest key below a bound of a class's objects under the writes.
    pub(crate) fn greatest_below(
        &self,
        writes: &Layer,
        class: ClassNo,
        below: Option<Key>,
    ) -> Option<Key>
        ensures there { is_there (over (cells_in self.now) (changes writes.now)) class result ≡ true }
        ensures above { (key : ℤ) → is_below below key ≡ true → is_above result key ≡ true →
            is_some (over (cells_in self.now) (changes writes.now) (object_cell class key)) ≡ false }
    {
        let mut bound = below;
        while let Some(key) = self.named_below(writes, class, bound) {
            if self.holds(writes, Cell::Object(class, key)) {
                return Some(key);
            }
            bound = Some(key);
        }
        None
    }

    // The greatest key below a bound of a class's objects in the base, in a layer or among the writes, even if the
    // object is removed above it.
    fn named_below(&self, writes: &Layer, class: ClassNo, bound: Option<Key>) -> Option<Key>
        ensures below { IfSome result (λ key. is_below bound key ≡ true) }
        ensures above { (key : ℤ) → is_below bound key ≡ true → is_above result key ≡ true →
            is_some (over (cells_in self.now) (changes writes.now) (object_cell class key)) ≡ false }
    {
        let under = greater(
            self.base.greatest_below(class, bound),
            greatest_in(&self.layers, class, bound),
        );
        greater(under, writes.greatest_below(class, bound))
    }
}

// The greatest key below a bound of a class's objects that one of some layers names.
fn greatest_in(layers: &[SharedLayer], class: ClassNo, bound: Option<Key>) -> Option<Key>
    ensures below { IfSome result (λ key. is_below bound key ≡ true) }
    ensures above { NamesNone (changes_in layers.now) class bound result }
{
    let mut greatest = None;
    for shared in layers {
        greatest = greater(greatest, shared.greatest_below(class, bound));
    }
    greatest
}

// The greater one of two keys, as far as they are there.
fn greater(key: Option<Key>, other: Option<Key>) -> Option<Key>
    ensures one { (result ≡ key) ⊎ (result ≡ other) }
    ensures first { (k : ℤ) → is_above result k ≡ true → is_above key k ≡ true }
    ensures second { (k : ℤ) → is_above result k ≡ true → is_above other k ≡ true }
{
    match (key, other) {
        (Some(first), Some(second)) if first < second => other,
        (None, _) => other,
        _ => key,
    }
}
