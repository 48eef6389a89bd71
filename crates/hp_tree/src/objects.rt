//! Objects by name.

use hp_value::{ClassNo, Key, Row};
use std::alloc::{AllocError, Global};
use std::collections::BTreeMap;
use std::collections::btree_map::Iter;
use std::marker::Model;

/// An object's name. Names are ordered by class, then by key.
#[derive(Clone, Copy, Debug, PartialEq, Eq, PartialOrd, Ord)]
pub struct ObjectName {
    /// The object's class.
    pub class: ClassNo,
    /// The object's key within its class.
    pub key: Key,
}

/// The rows of objects, in ascending name order.
///
/// In contracts it is the model's objects.
#[derive(Debug, Drop)]
pub struct Objects {
    rows: BTreeMap<ObjectName, Row>,
}

impl Model for Objects {
    ghost use Rattle.hp_model.specs.State as model;
    ghost use Rattle.hp_tree.specs.Names.{objects_of};

    ghost Value = { model.Objects };

    ghost view = { λ o. objects_of o.rows.entries };
}

impl Objects {
    ghost use Rattle.std.specs.Prelude.{◌≡◌, [], OnOk, OnErr, option_map, length, IsTrue, ◌↔◌};
    ghost use Rattle.hp_model.specs.State.{find_object, write_object, remove_object};
    ghost use Rattle.hp_tree.specs.Names.{objects_of};

    /// An empty map.
    pub fn new(alloc: Global) -> Objects
        ensures { result ≡ [] }
    {
        Objects {
            rows: BTreeMap::new(alloc),
        }
    }

    /// The number of objects.
    pub fn len(&self) -> usize
        ensures { result ≡ length self.now }
    {
        self.rows.len()
    }

    /// Whether there are no objects.
    pub fn is_empty(&self) -> bool
        ensures { IsTrue result ↔ (self.now ≡ []) }
    {
        self.rows.is_empty()
    }

    /// The objects' names and rows, in ascending name order.
    pub fn iter(&self) -> Iter<'_, ObjectName, Row>
        ensures { objects_of result ≡ self.now }
    {
        self.rows.iter()
    }

    /// The row of an object, or `None` if there is no such object.
    pub fn get(&self, class: ClassNo, key: Key) -> Option<&Row>
        ensures { option_map (λ r. r.now) result ≡ find_object self.now class key }
    {
        self.rows.get(&ObjectName { class, key })
    }

    /// Sets the row of an object, whether or not it exists.
    ///
    /// An error means that memory ran out; the objects are then as before.
    pub fn insert(&mut self, class: ClassNo, key: Key, row: Row) -> Result<(), AllocError>
        ensures ok { OnOk result (self.new ≡ write_object self.old class key row) }
        ensures err { OnErr result (self.new ≡ self.old) }
    {
        self.rows.insert(ObjectName { class, key }, row)?;
        Ok(())
    }

    /// Removes an object, if it exists.
    pub fn remove(&mut self, class: ClassNo, key: Key)
        ensures { self.new ≡ remove_object self.old class key }
    {
        self.rows.remove(&ObjectName { class, key });
    }
}
