//! Keys at the ends of a class, for those who look for a class's objects in some order. No answer depends on them.

ghost use Rattle.std.specs.Prelude.{◌≡◌, ◌⊎◌, true, IfSome};
ghost use Rattle.hp_model.specs.Cells.{is_above};

use crate::candidates::Candidates;
use crate::layer::Layer;
use crate::snapshot::Snapshot;
use hp_value::{Attribute, Bounds, Cell, ClassNo, ClassPart, Key};

impl Snapshot {
    /// The greatest key up to a high bound, or of all where there is none, of a class's objects once a layer has been
    /// written over the cells. None if there is no such object. It allocates nothing.
    ///
    /// The time goes with the logarithm of the number of cells, for this key and each one above it, up to the bound,
    /// that a layer or the writes removed.
    pub fn likely_greatest(
        &self,
        writes: &Layer,
        class: ClassNo,
        high: Option<Key>,
    ) -> Option<Key> {
        // Above the greatest of all keys there is no bound, as above none.
        self.greatest_below(writes, class, next(high))
    }

    /// The least key from a low bound on, or of all where there is none, of a class's objects once a layer has been
    /// written over the cells. None if there is no such object. It allocates nothing, and takes the time that
    /// `likely_greatest` takes.
    pub fn likely_least(&self, writes: &Layer, class: ClassNo, low: Option<Key>) -> Option<Key> {
        let mut bound = previous(low);
        while let Some(key) = self.named_above(writes, class, bound) {
            if self.holds(writes, Cell::Object(class, key)) {
                return Some(key);
            }
            bound = Some(key);
        }
        None
    }

    // The least key above a bound of a class's objects in the base, in a layer or among the writes, even if the object
    // is removed above it.
    fn named_above(&self, writes: &Layer, class: ClassNo, bound: Option<Key>) -> Option<Key>
        ensures { IfSome result (λ key. is_above bound key ≡ true) }
    {
        let part = ClassPart {
            attribute: Attribute::Key,
            bounds: Bounds::Numbers(next(bound), None),
        };
        let in_base = first_above(self.base.candidates(class, &part), bound);
        let written = first_above(writes.candidates(class, &part), bound);
        let mut least = lesser(in_base, written);
        for shared in &self.layers {
            least = lesser(least, first_above(shared.candidates(class, &part), bound));
        }
        least
    }
}

// The first of some keys, if it lies above a bound.
fn first_above(keys: Candidates<'_>, bound: Option<Key>) -> Option<Key>
    ensures { IfSome result (λ key. is_above bound key ≡ true) }
{
    let mut keys = keys;
    match keys.next() {
        Some(key) if is_past(bound, key) => Some(key),
        _ => None,
    }
}

// Whether a key lies above a bound, if there is one.
fn is_past(bound: Option<Key>, key: Key) -> bool
    ensures { result ≡ is_above bound key }
{
    match bound {
        Some(bound) => bound < key,
        None => true,
    }
}

// The lesser one of two keys, as far as they are there.
fn lesser(key: Option<Key>, other: Option<Key>) -> Option<Key>
    ensures { (result ≡ key) ⊎ (result ≡ other) }
{
    match (key, other) {
        (Some(first), Some(second)) if second < first => other,
        (None, _) => other,
        _ => key,
    }
}

// The key after one, if there is one.
fn next(key: Option<Key>) -> Option<Key> {
    key?.checked_add(1)
}

// The key before one, if there is one.
fn previous(key: Option<Key>) -> Option<Key> {
    key?.checked_sub(1)
}
