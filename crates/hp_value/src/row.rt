//! Classes and the rows of their objects.

ghost use Rattle.std.specs.Prelude.{◌≡◌, IfOk, option_map, bytes_eq};
ghost use Rattle.std.specs.Map.{lookup};
ghost use lib.Pointwise.{pointwise};
ghost use Rattle.std.specs.Ordering.{on};
ghost use Rattle.hp_value.specs.Rows.{value, row_of};
ghost use Rattle.hp_value.specs.Same.{row_same, value_same};

use crate::halt::Cause;
use crate::value::{Key, Kind, Value};
use smallvec::SmallVec;
use std::alloc::{AllocError, Global};
use std::marker::Model;
use std::sync::Arc;

/// A field of a class.
#[derive(Clone, Debug, PartialEq, Eq, Drop)]
pub struct Field {
    /// The field's name, unique in its class.
    pub name: String,
    /// The kind of its values.
    pub kind: Kind,
}

/// A class of objects.
#[derive(Debug, PartialEq, Eq, Drop)]
pub struct ClassDef {
    /// The class's name.
    pub name: String,
    /// Its fields, in the script's order. The rows of its objects share this list.
    pub fields: Arc<Vec<Field>>,
}

/// Values of a row. As many as most classes have fields stand in the row's own allocation.
pub type RowValues = SmallVec<Value, 4>;

/// The values of an object, by the names of its class's fields.
///
/// A row shares the list of fields with its class. A clone shares both lists: it copies no value, and counts on the
/// row's own `Arc` alone. So threads that clone different rows of a class don't contend.
#[derive(Debug, Drop)]
pub struct Row {
    lists: Arc<RowLists>,
}

/// What the clones of a row share.
#[derive(Debug, Drop)]
struct RowLists {
    fields: Arc<Vec<Field>>,
    values: RowValues,
}

impl Model for Row {
    ghost use Rattle.hp_model.specs.Values as model;
    ghost use Rattle.hp_value.specs.Rows.{row_of};

    ghost Value = { model.Row };

    ghost view = { λ r. row_of r.lists.value.fields.value.items r.lists.value.values.items };
}

impl Row {
    /// A row of these values, in the order of the fields. A value without a field, or a field without a value, is left
    /// out.
    pub fn new(
        alloc: Global,
        fields: &Arc<Vec<Field>>,
        values: RowValues,
    ) -> Result<Row, AllocError>
        ensures { IfOk result (λ r. r ≡ row_of fields.now.value.items values.items) }
    {
        let fields = Arc::try_clone(fields)?;
        Ok(Row {
            lists: Arc::new(alloc, RowLists { fields, values })?,
        })
    }
}

impl Row {
    ghost use Rattle.std.specs.Prelude.{IsTrue, length, slice_get, option_map, map};
    ghost use Rattle.hp_model.specs.Expressions as model;
    ghost use Rattle.hp_value.specs.Mapped.{value, outcome};
    ghost use Rattle.hp_value.specs.Rows.{renewed, names_of, values_of};

    /// A row of the same fields with these values, in their order. A value without a field is left out.
    pub fn with_values(&self, alloc: Global, mut values: RowValues) -> Result<Row, AllocError>
        ensures { IfOk result (λ r. r ≡ renewed self.now (map value values.items)) }
    {
        values.truncate(self.len());
        Row::new(alloc, &self.lists.fields, values)
    }

    /// The number of fields.
    pub fn len(&self) -> usize
        ensures { result ≡ length self.now }
    {
        let (fields, values) = self.parts();
        fields.len().min(values.len())
    }

    /// The name and the value of a field, by its index from 0.
    pub fn get(&self, i: usize) -> Option<(&str, &Value)>
        ensures { option_map (λ p. (p.0.now, value p.1.now)) result ≡ slice_get self.now i }
    {
        let (fields, values) = self.parts();
        let f = fields.get(i)?;
        let v = values.get(i)?;
        Some((f.name.as_str(), v))
    }

    /// The value of the field of this name. `Kind` means that the row has no such field.
    pub fn field(&self, name: &str) -> Result<&Value, Cause>
        ensures { outcome (λ v. value v.now) result ≡ model.field_in self.now name.now }
    {
        let (fields, values) = self.parts();
        find_value(fields, values, name).ok_or(Cause::Kind)
    }

    /// The values, in the order of the fields.
    pub(crate) fn values(&self) -> &[Value]
        ensures { map value result.now ≡ values_of self.now }
    {
        let (fields, values) = self.parts();
        &values[..fields.len().min(values.len())]
    }

    /// Whether both rows have the same values in the same order. Names aren't compared.
    pub(crate) fn has_values_of(&self, other: &Row) -> bool
        ensures { result ≡ pointwise value_same (values_of self.now) (values_of other.now) }
    {
        same_values(self.values(), other.values())
    }

    /// Whether both rows are known to have the same names. `false` says nothing: it is also the answer for rows of
    /// equal names whose lists of fields differ in a kind, or that differ in their number of values.
    pub(crate) fn has_fields_of(&self, other: &Row) -> bool
        ensures { IsTrue result → names_of self.now ≡ names_of other.now }
    {
        let (lists, others) = (&*self.lists, &*other.lists);
        *lists.fields == *others.fields && lists.values.len() == others.values.len()
    }

    /// The lists of fields and of values.
    fn parts(&self) -> (&[Field], &[Value])
        ensures { row_of result.0.now result.1.now ≡ self.now }
    {
        (&self.lists.fields, self.lists.values.as_slice())
    }
}

/// The value at the index of the field of this name.
fn find_value<'a>(fields: &[Field], values: &'a [Value], name: &str) -> Option<&'a Value>
    ensures { option_map (λ v. value v.now) result ≡ lookup (bytes_eq name.now) (row_of fields.now values.now) }
{
    for (i, f) in fields.iter().enumerate() {
        if name == f.name.as_str() {
            return values.get(i);
        }
    }
    None
}

impl PartialEq for Row {
    ghost use Rattle.std.specs.Cmp.{partial_equiv_from_equiv};
    ghost use Rattle.hp_value.specs.Same.{row_same, row_equiv};

    ghost eq = { row_same };

    ghost laws = { partial_equiv_from_equiv row_equiv };

    fn eq(&self, other: &Row) -> bool {
        let (fields, values) = self.parts();
        let (others, other_values) = other.parts();
        same_rows(fields, values, others, other_values)
    }
}

impl Eq for Row {
    ghost use Rattle.hp_value.specs.Same.{row_equiv};

    ghost laws = { row_equiv };
}

/// Whether two rows, given by their fields and values, are equal.
fn same_rows(fields: &[Field], values: &[Value], others: &[Field], other_values: &[Value]) -> bool
    ensures { result ≡ row_same (row_of fields.now values.now) (row_of others.now other_values.now) }
{
    let n = fields.len().min(values.len());
    if n != others.len().min(other_values.len()) {
        return false;
    }
    for i in 0..n {
        let (f, v) = (&fields[i], &values[i]);
        let (g, w) = (&others[i], &other_values[i]);
        if f.name != g.name {
            return false;
        }
        if v != w {
            return false;
        }
    }
    true
}

fn same_values(values: &[Value], others: &[Value]) -> bool
    ensures { result ≡ pointwise (on value value_same) values.now others.now }
{
    if values.len() != others.len() {
        return false;
    }
    for i in 0..values.len() {
        if values[i] != others[i] {
            return false;
        }
    }
    true
}

impl Clone for Row {
    ghost use Rattle.std.specs.Prelude.{◌≡◌};

    ghost is_clone = { λ r s. s ≡ r };

    fn clone(&self) -> Result<Row, AllocError> {
        Ok(Row {
            lists: Arc::try_clone(&self.lists)?,
        })
    }
}

/// A row with its object's key.
#[derive(Debug, Drop)]
pub struct KeyedRow {
    /// The object's key.
    pub key: Key,
    /// The object's values.
    pub row: Row,
}

impl PartialEq for KeyedRow {
    ghost use Rattle.std.specs.Ordering.{on};
    ghost use Rattle.std.specs.Cmp.{on_equiv, partial_equiv_from_equiv};
    ghost use Rattle.hp_value.specs.Same.{keyed_same, keyed_equiv};
    ghost use Rattle.hp_value.specs.Mapped.{keyed_row};

    ghost eq = { on keyed_row keyed_same };

    ghost laws = { partial_equiv_from_equiv (on_equiv keyed_row keyed_equiv) };

    fn eq(&self, other: &KeyedRow) -> bool {
        self.key == other.key && self.row == other.row
    }
}

impl Eq for KeyedRow {
    ghost use Rattle.std.specs.Cmp.{on_equiv};
    ghost use Rattle.hp_value.specs.Same.{keyed_equiv};
    ghost use Rattle.hp_value.specs.Mapped.{keyed_row};

    ghost laws = { on_equiv keyed_row keyed_equiv };
}

impl Clone for KeyedRow {
    ghost use Rattle.std.specs.Prelude.{◌≡◌};
    ghost use Rattle.hp_value.specs.Mapped.{keyed_row};

    ghost is_clone = { λ x y. keyed_row y ≡ keyed_row x };

    fn clone(&self) -> Result<KeyedRow, AllocError> {
        Ok(KeyedRow {
            key: self.key,
            row: self.row.clone()?,
        })
    }
}
