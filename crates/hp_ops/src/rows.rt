//! The rows that statements make.

ghost use Rattle.std.specs.Prelude.{◌≡◌, IfOk, map, option_map, bytes_eq};
ghost use Rattle.std.specs.Map.{lookup};
ghost use Rattle.hp_model.specs.Values.{kind_of, is_kind};
ghost use Rattle.hp_model.specs.Firing as model;
ghost use Rattle.hp_model.specs.Rules.{class_at};
ghost use Rattle.hp_value.specs.Mapped.{Meets, environment, expression, field, keyed_row, kind, outcome, value};
ghost use Rattle.hp_rule.specs.Mapped.{assignment, library};
ghost use Rattle.hp_ops.specs.Given.{given_in, keyed_in, value_given};

use hp_rule::{Assignment, Library};
use hp_value::{Cause, ClassNo, Env, Expr, Field, Halt, Key, KeyedRow, Kind, Row, Value};
use smallvec::SmallVec;
use std::alloc::{AllocError, Global};
use std::sync::Arc;

/// A field's name with the value that a statement gives it.
#[derive(Debug, Default, Drop)]
pub struct Given<'a> {
    /// The field's name.
    pub field: &'a str,
    /// Its new value.
    pub value: Value,
}

/// The values that a statement gives. Few stand in the list itself.
pub type GivenValues<'a> = SmallVec<Given<'a>, 4>;

/// The key and the row of the object that a `create` makes. The key is evaluated first, then each value as written;
/// their kinds are tested after that, as those of operands are.
pub fn new_object(
    alloc: Global,
    lib: &Library,
    class: ClassNo,
    env: &Env<'_>,
    key: &Expr,
    pairs: &[Assignment],
) -> Result<KeyedRow, Halt>
    ensures { Meets keyed_row result
        (model.keyed_row (environment env.now) (expression key.now) (map assignment pairs.now)
        (model.made_row (class_at (library lib.now) class).fields)) }
{
    let key = key.eval(alloc, env)?;
    let mut given = GivenValues::new(alloc);
    assigned(alloc, env, pairs, &mut given)?;
    let key = key.as_int()?;
    let fields = class_fields(alloc, lib, class)?;
    let row = made_row(alloc, &fields, &given)?;
    Ok(KeyedRow { key, row })
}

/// The key that an `update` gives, and in `given` the values, evaluated and tested in the same order. After an error
/// `given` may hold them, too.
pub fn given_values<'a>(
    alloc: Global,
    lib: &Library,
    class: ClassNo,
    env: &Env<'_>,
    key: &Expr,
    pairs: &'a [Assignment],
    given: &mut GivenValues<'a>,
) -> Result<Key, Halt>
    ensures { Meets (λ k. keyed_in k given.new.items) result
        (model.keyed_row (environment env.now) (expression key.now) (map assignment pairs.now)
        (model.checked_kinds (class_at (library lib.now) class).fields)) }
{
    let key = key.eval(alloc, env)?;
    assigned(alloc, env, pairs, given)?;
    let key = key.as_int()?;
    check_kinds(fields_in(lib, class), given)?;
    Ok(key)
}

/// The values that a statement gives, each with its field's name, in place of what the list has.
// A list that were returned would be moved several times.
fn assigned<'a>(
    alloc: Global,
    env: &Env<'_>,
    pairs: &'a [Assignment],
    given: &mut GivenValues<'a>,
) -> Result<(), Halt>
    ensures { Meets (λ _. given_in given.new.items) result
        (model.assigned (environment env.now) (map assignment pairs.now)) }
{
    given.clear();
    for pair in pairs {
        let value = pair.value.eval(alloc, env)?;
        let field = pair.field.as_str();
        given
            .push(Given { field, value })
            .map_err(AllocError::from)?;
    }
    Ok(())
}

/// The fields of a class; none if the library has no such class.
fn class_fields(alloc: Global, lib: &Library, class: ClassNo) -> Result<Arc<Vec<Field>>, AllocError>
    ensures { IfOk result (λ fs. map field fs.value.items ≡ (class_at (library lib.now) class).fields) }
{
    match lib.class(class) {
        Some(found) => Ok(Arc::try_clone(&found.fields)?),
        None => Ok(Arc::new(alloc, Vec::new(alloc))?),
    }
}

/// The fields of a class, by reference; none if the library has no such class.
fn fields_in(lib: &Library, class: ClassNo) -> &[Field]
    ensures { map field result.now ≡ (class_at (library lib.now) class).fields }
{
    match lib.class(class) {
        Some(found) => &found.fields,
        None => &[],
    }
}

/// A new row of a class: for each field the given value, which has to be of the field's kind.
fn made_row(alloc: Global, fields: &Arc<Vec<Field>>, given: &[Given<'_>]) -> Result<Row, Halt>
    ensures { Meets (λ r. r) result (model.made_row (map field fields.now.value.items) (given_in given.now)) }
{
    let mut values = SmallVec::with_capacity(alloc, fields.len())?;
    for f in fields.iter() {
        let value = field_value(f, given)?;
        values.push(value.clone()?).map_err(AllocError::from)?;
    }
    Ok(Row::new(alloc, fields, values)?)
}

/// The given value of a field. `Kind` means that there is none, or that it is of another kind.
fn field_value<'a>(f: &Field, given: &'a [Given<'_>]) -> Result<&'a Value, Cause>
    ensures { outcome (λ v. value v.now) result ≡ value_given (field f.now) (given_in given.now) }
{
    match given_value(given, f.name.as_str()) {
        Some(value) if is_of_kind(value, f.kind) => Ok(value),
        _ => Err(Cause::Kind),
    }
}

/// The given value for a field of this name.
fn given_value<'a>(given: &'a [Given<'_>], name: &str) -> Option<&'a Value>
    ensures { option_map (λ v. value v.now) result ≡ lookup (bytes_eq name.now) (given_in given.now) }
{
    for g in given {
        if name == g.field {
            return Some(&g.value);
        }
    }
    None
}

fn is_of_kind(v: &Value, wanted: Kind) -> bool
    ensures { result ≡ is_kind (kind wanted) (kind_of (value v.now)) }
{
    match (wanted, v) {
        (Kind::Int, Value::Int(_)) => true,
        (Kind::Bool, Value::Bool(_)) => true,
        (Kind::Text, Value::Text(_)) => true,
        _ => false,
    }
}

/// Tests that each given value is of its field's kind. `Kind` means that one isn't, or that the class lacks its field.
fn check_kinds(fields: &[Field], given: &[Given<'_>]) -> Result<(), Cause>
    ensures { outcome (λ _. given_in given.now) result
        ≡ model.checked_kinds (map field fields.now) (given_in given.now) }
{
    for g in given {
        match kind_in(fields, g.field) {
            Some(wanted) if is_of_kind(&g.value, wanted) => {}
            _ => return Err(Cause::Kind),
        }
    }
    Ok(())
}

/// The kind of the field of this name.
fn kind_in(fields: &[Field], name: &str) -> Option<Kind>
    ensures { option_map (λ k. kind k) result ≡ model.kind_in (map field fields.now) name.now }
{
    for f in fields {
        if f.name.as_str() == name {
            return Some(f.kind);
        }
    }
    None
}

/// A row with the given values in place of its own.
pub(crate) fn changed_row(alloc: Global, old: &Row, given: &[Given<'_>]) -> Result<Row, AllocError>
    ensures { IfOk result (λ r. r ≡ model.changed_row (given_in given.now) old.now) }
{
    let mut values = SmallVec::with_capacity(alloc, old.len())?;
    for i in 0..old.len() {
        if let Some((name, value)) = old.get(i) {
            let new = given_value(given, name).unwrap_or(value);
            values.push(new.clone()?)?;
        }
    }
    old.with_values(alloc, values)
}
