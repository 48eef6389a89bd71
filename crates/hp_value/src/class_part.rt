//! Parts of a class.

ghost use Rattle.std.specs.Prelude.{◌≡◌, option_map};
ghost use Rattle.hp_model.specs.Values.{KeyedRow, integer, text};
ghost use Rattle.hp_model.specs.ClassParts as model;
ghost use Rattle.hp_value.specs.Mapped as mapped;
ghost use Rattle.hp_value.specs.Mapped.{outcome};

use crate::halt::Cause;
use crate::row::Row;
use crate::value::{Key, Value};

/// The attribute of an object that a comparison is about.
#[derive(Clone, Copy, Debug)]
pub enum Attribute<'a> {
    /// The object's key.
    Key,
    /// The object's value in the field of this name.
    Field(&'a str),
}

/// A lower and an upper bound, both inclusive. `None` means unbounded.
#[derive(Clone, Copy, Debug)]
pub enum Bounds<'a> {
    /// Bounds of integers.
    Numbers(Option<i64>, Option<i64>),
    /// Bounds of texts, compared byte by byte.
    Texts(Option<&'a str>, Option<&'a str>),
}

/// A part of a class: the objects whose key, or whose value in a field, lies between two bounds.
#[derive(Clone, Copy, Debug)]
pub struct ClassPart<'a> {
    /// The attribute that is compared.
    pub attribute: Attribute<'a>,
    /// The bounds of its value.
    pub bounds: Bounds<'a>,
}

impl ClassPart<'_> {
    /// Whether an object belongs to the part. `Kind` means that the object lacks the field, or that its value is of
    /// another kind than a bound.
    pub fn has(&self, key: Key, row: &Row) -> Result<bool, Cause>
        ensures { outcome (λ b. b) result ≡ model.belongs (mapped.class_part self.now)
            (record { key = key; row = row.now }) }
    {
        match self.attribute {
            Attribute::Key => self.bounds.have(&Value::Int(key)),
            Attribute::Field(name) => self.bounds.have(row.field(name)?),
        }
    }
}

impl Bounds<'_> {
    /// Whether a value lies within the bounds. `Kind` means that it is of another kind than one of them.
    pub fn have(&self, value: &Value) -> Result<bool, Cause>
        ensures { outcome (λ b. b) result ≡ model.lies_within (mapped.low self.now) (mapped.high self.now)
            (mapped.value value.now) }
    {
        match self {
            Bounds::Numbers(low, high) => {
                let is_from = reaches_number(value, *low)?;
                let is_up_to = stays_below_number(value, *high)?;
                Ok(is_from && is_up_to)
            }
            Bounds::Texts(low, high) => {
                let is_from = reaches_text(value, *low)?;
                let is_up_to = stays_below_text(value, *high)?;
                Ok(is_from && is_up_to)
            }
        }
    }
}

fn reaches_number(value: &Value, low: Option<i64>) -> Result<bool, Cause>
    ensures { outcome (λ b. b) result ≡ model.reaches (option_map integer low) (mapped.value value.now) }
{
    match low {
        Some(low) => Ok(value.as_int()? >= low),
        None => Ok(true),
    }
}

fn stays_below_number(value: &Value, high: Option<i64>) -> Result<bool, Cause>
    ensures { outcome (λ b. b) result ≡ model.stays_below (option_map integer high) (mapped.value value.now) }
{
    match high {
        Some(high) => Ok(value.as_int()? <= high),
        None => Ok(true),
    }
}

fn reaches_text(value: &Value, low: Option<&str>) -> Result<bool, Cause>
    ensures { outcome (λ b. b) result ≡ model.reaches (option_map (λ s. text s.now) low.entry)
        (mapped.value value.now) }
{
    match (low, value) {
        (Some(low), Value::Text(written)) => Ok(written.as_str() >= low),
        (Some(_), _) => Err(Cause::Kind),
        (None, _) => Ok(true),
    }
}

fn stays_below_text(value: &Value, high: Option<&str>) -> Result<bool, Cause>
    ensures { outcome (λ b. b) result ≡ model.stays_below (option_map (λ s. text s.now) high.entry)
        (mapped.value value.now) }
{
    match (high, value) {
        (Some(high), Value::Text(written)) => Ok(high >= written.as_str()),
        (Some(_), _) => Err(Cause::Kind),
        (None, _) => Ok(true),
    }
}
