//! Lists of a class's objects.

ghost use lib.Pointwise.{pointwise};
ghost use Rattle.std.specs.Prelude.{◌≡◌, ◌≤◌, ◌-◌, ◌&&◌, ◌++◌, ◌∷◌, [], List, map};
ghost use Rattle.std.specs.Prelude.{take, drop, length, IsTrue, IfOk, OnOk, OnErr};
ghost use Rattle.std.specs.Ordering.{int_eq, on};
ghost use Rattle.hp_model.specs.Values as model;
ghost use Rattle.hp_value.specs.Mapped.{keyed_row};
ghost use Rattle.hp_value.specs.Rows.{first_names, AreAlike, AreNamed, AreValues};
ghost use Rattle.hp_value.specs.Same.{values_same};

use crate::row::{KeyedRow, Row};
use crate::value::{Key, Value};
use std::alloc::{AllocError, Global};
use std::marker::Model;

/// A list of objects with their rows, in the order in which they were added. The keys also stand in a list of their
/// own, which callers borrow.
#[derive(Debug, Drop)]
pub struct ObjectList {
    keys: Vec<Key>,
    rows: Vec<KeyedRow>,
    // Whether all rows are known to have the same names, as those of one class do. Then a comparison looks at values
    // alone.
    are_alike: bool,
    // The values of all rows, one after another; `None` if one of them isn't an integer. Comparing this one list of
    // integers is faster than comparing rows.
    numbers: Option<Vec<i64>>,
}

impl Model for ObjectList {
    ghost use Rattle.std.specs.Prelude.{◌≡◌, List, map};
    ghost use Rattle.hp_model.specs.Values as model;
    ghost use Rattle.hp_value.specs.Mapped.{keyed_row, keys_of};

    ghost Value = { List model.KeyedRow };

    ghost view = { λ l. map keyed_row l.rows.items };

    ghost use Rattle.std.specs.Prelude.{IsTrue};
    ghost use Rattle.hp_value.specs.Rows.{AreAlike, AreValues};

    ghost invariant = { λ l. (l.keys.items ≡ keys_of (map keyed_row l.rows.items))
        × (IsTrue l.are_alike → AreAlike (map keyed_row l.rows.items))
        × AreValues l.numbers (map keyed_row l.rows.items) };
}

impl ObjectList {
    ghost use Rattle.hp_value.specs.Mapped.{keyed_row, keys_of};

    /// An empty list.
    pub fn new(alloc: Global) -> ObjectList
        ensures { result ≡ [] }
    {
        ObjectList {
            keys: Vec::new(alloc),
            rows: Vec::new(alloc),
            are_alike: true,
            numbers: Some(Vec::new(alloc)),
        }
    }

    /// Adds an object at the end.
    ///
    /// An error means that memory ran out; the list is then as before.
    pub fn push(&mut self, key: Key, row: Row) -> Result<(), AllocError>
        ensures ok { OnOk result (self.new ≡ self.old ++ record { key = key; row = row } ∷ []) }
        ensures err { OnErr result (self.new ≡ self.old) }
    {
        let added = KeyedRow { key, row };
        let are_alike = self.are_alike && is_like_first(&self.rows, &added);
        self.add(added, are_alike)
    }

    // Adds an object at the end. Whether all rows then have the same names has been found out before.
    fn add(&mut self, added: KeyedRow, are_alike: bool) -> Result<(), AllocError>
        requires { IsTrue are_alike → AreAlike (self.old ++ keyed_row added ∷ []) }
        ensures ok { OnOk result (self.new ≡ self.old ++ keyed_row added ∷ []) }
        ensures err { OnErr result (self.new ≡ self.old) }
    {
        self.rows.reserve(1)?;
        self.keys.reserve(1)?;
        self.numbers = with_numbers(self.numbers.take(), &added.row)?;
        self.keys.push_reserved(added.key);
        self.are_alike = are_alike;
        self.rows.push_reserved(added);
        Ok(())
    }

    /// Adds the objects of another list from one place up to another. Their rows are shared, and names aren't compared
    /// for each of them.
    ///
    /// An error means that memory ran out; some of them may have been added.
    pub fn extend(&mut self, other: &ObjectList, start: usize, end: usize) -> Result<(), AllocError>
        requires order { start ≤ end }
        requires bound { end ≤ length other.now }
        ensures { OnOk result (self.new ≡ self.old ++ take (end - start) (drop start other.now)) }
    {
        let are_alike = self.is_like(other);
        for object in &other.rows[start..end] {
            self.add(object.clone()?, are_alike)?;
        }
        Ok(())
    }

    // Whether all rows of both lists are known to have the names of the other list's first row.
    fn is_like(&self, other: &ObjectList) -> bool
        ensures { IsTrue result → AreNamed (first_names other.now) other.now
            × AreNamed (first_names other.now) self.now }
    {
        if self.rows.is_empty() {
            return other.are_alike;
        }
        self.has_names_of(other)
    }

    /// The keys of the objects.
    pub fn keys(&self) -> &[Key]
        ensures { result.now ≡ keys_of self.now }
    {
        &self.keys
    }

    /// The objects with their rows.
    pub fn rows(&self) -> &[KeyedRow]
        ensures { map keyed_row result.now ≡ self.now }
    {
        &self.rows
    }

    // Whether all rows of both lists are known to have the same names.
    fn has_names_of(&self, other: &ObjectList) -> bool
        ensures { IsTrue result → AreAlike self.now × AreAlike other.now
            × (first_names self.now ≡ first_names other.now) }
    {
        self.are_alike && other.are_alike && have_same_names(&self.rows, &other.rows)
    }

    // Whether both lists have the same keys and values. Their rows have the same names.
    fn has_values_of(&self, other: &ObjectList) -> bool
        requires { AreAlike self.now × AreAlike other.now × (first_names self.now ≡ first_names other.now) }
        ensures { result ≡ (pointwise int_eq (keys_of self.now) (keys_of other.now)
            && pointwise values_same self.now other.now) }
    {
        if !have_same_numbers(&self.keys, &other.keys) {
            return false;
        }
        match (&self.numbers, &other.numbers) {
            (Some(numbers), Some(others)) => have_same_numbers(numbers, others),
            _ => have_same_values(&self.rows, &other.rows),
        }
    }
}

impl PartialEq for ObjectList {
    ghost use lib.Pointwise.{pointwise};
    ghost use Rattle.std.specs.Prelude.{◌≡◌, ◌↔◌, IsTrue};
    ghost use Rattle.std.specs.Cmp.{partial_equiv_from_equiv};
    ghost use Rattle.hp_value.specs.Same.{keyed_same, objects_equiv};

    ghost eq = { pointwise keyed_same };

    ghost laws = { partial_equiv_from_equiv objects_equiv };

    /// Whether both lists hold the same objects in the same order: the same keys, names and values. It allocates
    /// nothing.
    fn eq(&self, other: &ObjectList) -> bool
        ensures test { result ≡ pointwise keyed_same self.now other.now }
        ensures same { IsTrue result ↔ (self.now ≡ other.now) }
    {
        if self.has_names_of(other) {
            return self.has_values_of(other);
        }
        self.rows == other.rows
    }
}

impl Eq for ObjectList {
    ghost use Rattle.hp_value.specs.Same.{objects_equiv};

    ghost laws = { objects_equiv };
}

// The integers, followed by a row's values; `None` if there were none, or if a value isn't an integer.
fn with_numbers(numbers: Option<Vec<i64>>, row: &Row) -> Result<Option<Vec<i64>>, AllocError>
    ensures { IfOk result (λ more. (objects : List model.KeyedRow) (added : model.KeyedRow) → added.row ≡ row.now →
        AreValues numbers objects → AreValues more (objects ++ added ∷ [])) }
{
    let Some(mut numbers) = numbers else {
        return Ok(None);
    };
    for value in row.values() {
        let Value::Int(number) = value else {
            return Ok(None);
        };
        numbers.push(*number)?;
    }
    Ok(Some(numbers))
}

// Whether an object's row is known to have the names of the first row, if there is one.
fn is_like_first(rows: &[KeyedRow], added: &KeyedRow) -> bool
    ensures { IsTrue result → AreAlike (map keyed_row rows.now) →
        AreAlike (map keyed_row rows.now ++ keyed_row added.now ∷ []) }
{
    match rows.first() {
        Some(first) => added.row.has_fields_of(&first.row),
        None => true,
    }
}

// Whether the first rows of two lists are known to have the same names.
fn have_same_names(rows: &[KeyedRow], others: &[KeyedRow]) -> bool
    ensures { IsTrue result → first_names (map keyed_row rows.now) ≡ first_names (map keyed_row others.now) }
{
    match (rows.first(), others.first()) {
        (Some(first), Some(other)) => first.row.has_fields_of(&other.row),
        _ => false,
    }
}

// Whether two lists of integers are equal. It compares all of them, without an early exit, so that the compiler can
// vectorize the loop.
fn have_same_numbers(numbers: &[i64], others: &[i64]) -> bool
    ensures { result ≡ pointwise int_eq numbers.now others.now }
{
    if numbers.len() != others.len() {
        return false;
    }
    let mut are_same = true;
    for i in 0..numbers.len() {
        are_same &= numbers[i] == others[i];
    }
    are_same
}

// Whether two lists of objects have the same length and the same values.
fn have_same_values(rows: &[KeyedRow], others: &[KeyedRow]) -> bool
    ensures { result ≡ pointwise (on keyed_row values_same) rows.now others.now }
{
    if rows.len() != others.len() {
        return false;
    }
    for i in 0..rows.len() {
        if !rows[i].row.has_values_of(&others[i].row) {
            return false;
        }
    }
    true
}
