//! Objects in a plain ordered map.

ghost use Rattle.std.specs.Prelude.{◌≡◌, ◌↔◌, [], map, length, IsTrue, OnOk, OnErr};
ghost use Rattle.std.specs.Option.{option_copied};
ghost use Rattle.hp_model.specs.State.{find_object, write_object, remove_object, class_keys};
ghost use Rattle.hp_query.specs.Looks.{ObjectsRise};
ghost use Rattle.hp_query.specs.Plain.{objects_in, KeysFit};

use crate::look::Look;
use hp_value::{ClassNo, ClassPart, Key, KeyedRow, ObjectList, Row};
use std::alloc::{AllocError, Global};
use std::collections::BTreeMap;
use std::collections::btree_map::Range;
use std::marker::Model;
use std::sync::Arc;

/// The name of an object: its class, and its key within the class. Names are ordered by class, then by key.
#[derive(Clone, Copy, Debug, PartialEq, Eq, PartialOrd, Ord)]
pub struct ObjectName {
    /// The object's class.
    pub class: ClassNo,
    /// The object's key.
    pub key: Key,
}

/// Objects in a plain ordered map: a look that allows one world, its own objects.
#[derive(Debug, Drop)]
pub struct PlainObjects {
    rows: BTreeMap<ObjectName, Row>,
}

impl Model for PlainObjects {
    ghost use Rattle.hp_model.specs.State.{Objects};

    ghost Value = { Objects };

    ghost use Rattle.hp_query.specs.Plain.{objects_in, KeysFit};

    ghost view = { λ p. objects_in p.rows.entries };

    ghost invariant = { λ p. KeysFit p.rows.entries };
}

impl PlainObjects {
    /// An empty map.
    pub fn new(alloc: Global) -> PlainObjects
        ensures { result ≡ [] }
    {
        PlainObjects {
            rows: BTreeMap::new(alloc),
        }
    }

    /// The number of objects.
    pub fn len(&self) -> usize
        ensures len { result ≡ length self.now }
        ensures rise { ObjectsRise self.now }
    {
        self.rows.len()
    }

    /// Whether there are no objects.
    pub fn is_empty(&self) -> bool
        ensures { IsTrue result ↔ (self.now ≡ []) }
    {
        self.rows.is_empty()
    }

    /// The row of the object with this key in this class, if there is one.
    pub fn get(&self, class: ClassNo, key: Key) -> Option<&Row>
        ensures { option_copied result ≡ find_object self.now class key }
    {
        self.rows.get(&ObjectName { class, key })
    }

    /// Sets the row of the object with this key in this class, whether or not it exists.
    ///
    /// An error means that memory ran out; the objects are then as before.
    pub fn insert(&mut self, class: ClassNo, key: Key, row: Row) -> Result<(), AllocError>
        ensures ok { OnOk result (self.new ≡ write_object self.old class key row) }
        ensures err { OnErr result (self.new ≡ self.old) }
    {
        self.rows.insert(ObjectName { class, key }, row)?;
        Ok(())
    }

    /// Removes the object with this key from this class, and returns its row, if there was one.
    pub fn remove(&mut self, class: ClassNo, key: Key) -> Option<Row>
        ensures row { result ≡ find_object self.old class key }
        ensures others { self.new ≡ remove_object self.old class key }
    {
        self.rows.remove(&ObjectName { class, key })
    }
}

impl Look for PlainObjects {
    ghost use Rattle.std.specs.Prelude.{◌≡◌};
    ghost use Rattle.std.proofs.Common.{refl, ◌∙◌};

    ghost allows = { λ objects world. world ≡ objects };

    ghost goes_on = { λ before after. after ≡ before };

    ghost asks = { λ class before after. after ≡ before };

    ghost asks_row = { λ class key before after. after ≡ before };

    ghost asks_part = { λ class part before after. after ≡ before };

    ghost asks_count = { λ class before after. after ≡ before };

    ghost asks_greatest = { λ class before after. after ≡ before };

    ghost goes_on_same = { λ look. refl };

    ghost goes_on_then = { λ first second third one two. two ∙ one };

    ghost asks_same = { λ class look. refl };

    ghost asks_then = { λ class first second third one two. two ∙ one };

    ghost asks_row_same = { λ class key look. refl };

    ghost narrows = { λ first second on world is. is ∙ on };

    fn row(&mut self, alloc: Global, class: ClassNo, key: Key) -> Result<Option<Row>, AllocError> {
        match self.get(class, key) {
            Some(row) => Ok(Some(row.clone()?)),
            None => Ok(None),
        }
    }

    fn keys(&mut self, alloc: Global, class: ClassNo) -> Result<Vec<Key>, AllocError> {
        let mut keys = Vec::new(alloc);
        for (name, _) in class_entries(&self.rows, class) {
            keys.push(name.key)?;
        }
        Ok(keys)
    }

    fn count(&mut self, alloc: Global, class: ClassNo) -> Result<usize, AllocError> {
        let keys = Look::keys(self, alloc, class)?;
        Ok(keys.len())
    }

    fn greatest_key(&mut self, alloc: Global, class: ClassNo) -> Result<Option<Key>, AllocError> {
        let Some((name, _)) = class_entries(&self.rows, class).next_back() else {
            return Ok(None);
        };

        Ok(Some(name.key))
    }

    fn objects(
        &mut self,
        alloc: Global,
        class: ClassNo,
    ) -> Result<Option<Arc<ObjectList>>, AllocError> {
        Ok(None)
    }

    fn part(
        &mut self,
        alloc: Global,
        class: ClassNo,
        part: &ClassPart<'_>,
    ) -> Result<Option<Vec<KeyedRow>>, AllocError> {
        Ok(None)
    }

    // It finds no parts, so a hint would serve nothing.
    fn likely_least(&self, class: ClassNo, low: Option<Key>) -> Option<Key> {
        None
    }

    fn likely_greatest(&self, class: ClassNo, high: Option<Key>) -> Option<Key> {
        None
    }
}

// The entries of a class's objects: their names are those from its least to its largest key.
fn class_entries(rows: &BTreeMap<ObjectName, Row>, class: ClassNo) -> Range<'_, ObjectName, Row>
    requires { KeysFit rows.now.entries }
    ensures { map (λ e. e.0.key) result ≡ class_keys class (objects_in rows.entry.now.entries) }
{
    let first = ObjectName {
        class,
        key: Key::MIN,
    };
    let last = ObjectName {
        class,
        key: Key::MAX,
    };
    rows.range(first..=last)
}
