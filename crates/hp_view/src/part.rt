//! Parts of classes that were read.

ghost use Rattle.std.specs.Prelude.{◌≡◌, ◌&&◌, IfOk, option_map, string_bytes};
ghost use Rattle.hp_model.specs.Values.{integer, text};
ghost use Rattle.hp_value.specs.Mapped as mapped;
ghost use Rattle.hp_view.specs.Mapped.{attribute_found, low_found, high_found};
ghost use Rattle.hp_view.specs.Parts.{attribute_fed, bound_fed, number_of, same_attribute, same_bound, same_part};

use hp_value::{Attribute, Bounds, ClassPart, KeyedRow};
use std::alloc::{AllocError, Global};
use std::hash::{DefaultHasher, Hash, Hasher};

/// A part of a class with its objects, as they were found.
#[derive(Debug, Drop)]
pub struct FoundPart {
    // The name of the field that is compared; none where keys are.
    field: Option<String>,
    bounds: FoundBounds,
    objects: Vec<KeyedRow>,
}

/// The bounds of a part that was found.
#[derive(Debug, Drop)]
enum FoundBounds {
    Numbers(Option<i64>, Option<i64>),
    Texts(Option<String>, Option<String>),
}

impl FoundPart {
    ghost use Rattle.std.specs.Prelude.{IfOk, map};
    ghost use Rattle.hp_value.specs.Mapped.{class_part, keyed_row};
    ghost use Rattle.hp_view.specs.Mapped.{part_of};

    /// These objects, found in a part of a class.
    ///
    /// An error means that memory ran out.
    pub(crate) fn new(
        alloc: Global,
        part: &ClassPart<'_>,
        objects: Vec<KeyedRow>,
    ) -> Result<FoundPart, AllocError>
        ensures part { IfOk result (λ found. part_of found ≡ class_part part.now) }
        ensures objects { IfOk result (λ found. found.objects ≡ objects) }
    {
        Ok(FoundPart {
            field: own_name(alloc, part.attribute)?,
            bounds: own_bounds(alloc, part.bounds)?,
            objects,
        })
    }

    /// The part.
    pub fn part(&self) -> ClassPart<'_>
        ensures { class_part result ≡ part_of self.now }
    {
        ClassPart {
            attribute: as_attribute(&self.field),
            bounds: as_bounds(&self.bounds),
        }
    }

    /// Its objects with their rows, by rising keys.
    pub fn objects(&self) -> &[KeyedRow]
        ensures { result.now ≡ self.now.objects.items }
    {
        &self.objects
    }
}

fn own_name(alloc: Global, attribute: Attribute<'_>) -> Result<Option<String>, AllocError>
    ensures { IfOk result (λ name. attribute_found name ≡ mapped.attribute attribute.entry) }
{
    match attribute {
        Attribute::Key => Ok(None),
        Attribute::Field(name) => Ok(Some(String::from_str(alloc, name)?)),
    }
}

fn own_bounds(alloc: Global, bounds: Bounds<'_>) -> Result<FoundBounds, AllocError>
    ensures low { IfOk result (λ own. low_found own ≡ mapped.low bounds.entry) }
    ensures high { IfOk result (λ own. high_found own ≡ mapped.high bounds.entry) }
{
    match bounds {
        Bounds::Numbers(low, high) => Ok(FoundBounds::Numbers(low, high)),
        Bounds::Texts(low, high) => {
            let low = own_text(alloc, low)?;
            let high = own_text(alloc, high)?;
            Ok(FoundBounds::Texts(low, high))
        }
    }
}

fn own_text(alloc: Global, written: Option<&str>) -> Result<Option<String>, AllocError>
    ensures { IfOk result (λ own. option_map (λ s. text (string_bytes s)) own
        ≡ option_map (λ s. text s.now) written.entry) }
{
    match written {
        Some(written) => Ok(Some(String::from_str(alloc, written)?)),
        None => Ok(None),
    }
}

fn as_attribute(field: &Option<String>) -> Attribute<'_>
    ensures { mapped.attribute result ≡ attribute_found field.now }
{
    match field {
        Some(name) => Attribute::Field(name.as_str()),
        None => Attribute::Key,
    }
}

fn as_bounds(bounds: &FoundBounds) -> Bounds<'_>
    ensures low { mapped.low result ≡ low_found bounds.now }
    ensures high { mapped.high result ≡ high_found bounds.now }
{
    match bounds {
        FoundBounds::Numbers(low, high) => Bounds::Numbers(*low, *high),
        FoundBounds::Texts(low, high) => Bounds::Texts(as_text(low), as_text(high)),
    }
}

fn as_text(own: &Option<String>) -> Option<&str>
    ensures { option_map (λ s. text s.now) result ≡ option_map (λ s. text (string_bytes s)) own.now }
{
    match own {
        Some(own) => Some(own.as_str()),
        None => None,
    }
}

/// The number by which a part is looked up. Other parts may have it too, which hardly ever comes about.
pub(crate) fn number(part: &ClassPart<'_>) -> u64
    ensures { result ≡ number_of (mapped.class_part part.now) }
{
    let mut hasher = DefaultHasher::new();
    feed_attribute(&mut hasher, part.attribute);
    feed_bounds(&mut hasher, part.bounds);
    hasher.finish()
}

fn feed_attribute(hasher: &mut DefaultHasher, attribute: Attribute<'_>)
    ensures { hasher.new ≡ attribute_fed (mapped.attribute attribute.entry) hasher.old }
{
    if let Attribute::Field(name) = attribute {
        name.hash(hasher);
    }
}

fn feed_bounds(hasher: &mut DefaultHasher, bounds: Bounds<'_>)
    ensures { hasher.new ≡ bound_fed (mapped.high bounds.entry) (bound_fed (mapped.low bounds.entry) hasher.old) }
{
    match bounds {
        Bounds::Numbers(low, high) => {
            feed_number(hasher, low);
            feed_number(hasher, high);
        }
        Bounds::Texts(low, high) => {
            feed_text(hasher, low);
            feed_text(hasher, high);
        }
    }
}

fn feed_number(hasher: &mut DefaultHasher, number: Option<i64>)
    ensures { hasher.new ≡ bound_fed (option_map integer number) hasher.old }
{
    if let Some(number) = number {
        number.hash(hasher);
    }
}

fn feed_text(hasher: &mut DefaultHasher, written: Option<&str>)
    ensures { hasher.new ≡ bound_fed (option_map (λ s. text s.now) written.entry) hasher.old }
{
    if let Some(written) = written {
        written.hash(hasher);
    }
}

/// Whether two parts are the same: what they compare, and their bounds.
pub(crate) fn is_same(part: &ClassPart<'_>, other: &ClassPart<'_>) -> bool
    ensures { result ≡ same_part (mapped.class_part part.now) (mapped.class_part other.now) }
{
    same_attributes(part.attribute, other.attribute) && same_bounds(part.bounds, other.bounds)
}

fn same_attributes(attribute: Attribute<'_>, other: Attribute<'_>) -> bool
    ensures { result ≡ same_attribute (mapped.attribute attribute.entry) (mapped.attribute other.entry) }
{
    match (attribute, other) {
        (Attribute::Key, Attribute::Key) => true,
        (Attribute::Field(name), Attribute::Field(other)) => name == other,
        _ => false,
    }
}

// Where neither has a bound on a side, they are the same there, whatever the kind of the other bounds.
fn same_bounds(bounds: Bounds<'_>, others: Bounds<'_>) -> bool
    ensures { result ≡ same_bound (mapped.low bounds.entry) (mapped.low others.entry)
        && same_bound (mapped.high bounds.entry) (mapped.high others.entry) }
{
    match (bounds, others) {
        (Bounds::Numbers(low, high), Bounds::Numbers(from, up_to)) => low == from && high == up_to,
        (Bounds::Texts(low, high), Bounds::Texts(from, up_to)) => {
            same_texts(low, from) && same_texts(high, up_to)
        }
        (Bounds::Numbers(low, high), Bounds::Texts(from, up_to)) => {
            low.is_none() && from.is_none() && high.is_none() && up_to.is_none()
        }
        (Bounds::Texts(low, high), Bounds::Numbers(from, up_to)) => {
            low.is_none() && from.is_none() && high.is_none() && up_to.is_none()
        }
    }
}

fn same_texts(written: Option<&str>, other: Option<&str>) -> bool
    ensures { result ≡ same_bound (option_map (λ s. text s.now) written.entry)
        (option_map (λ s. text s.now) other.entry) }
{
    match (written, other) {
        (Some(written), Some(other)) => written == other,
        (None, None) => true,
        _ => false,
    }
}
