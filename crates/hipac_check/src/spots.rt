//! How findings show places: of a script in JSON as paths, and of a text as lines and columns.

ghost use Rattle.std.specs.Prelude.{◌≡◌, ◌-◌, Some, IfOk, map, option_map, unwrap_or, true};
ghost use Rattle.std.specs.List.{slice_index_or};
ghost use Rattle.hp_model.specs.NotationPlaces.{place_of};
ghost use Rattle.hp_rule.specs.Mapped.{unit};
ghost use Rattle.hp_rule.specs.Places.{path};
ghost use Rattle.hp_text.specs.Places.{place_view};
ghost use Rattle.hipac_check.specs.Spots.{spot_text, shown, shown_in};

use crate::marks::Marks;
use crate::walk::{body_offset, script_offset, transactions, unit_items};
use hp_rule::{PathStep, Unit};
use hp_script::Path;
use hp_text::{Place, ReadError, ScriptNode, read_text};
use std::alloc::{AllocError, Global};
use std::fmt;

/// Where something stands in a script.
#[derive(Clone, Copy)]
pub(crate) enum Spot<'a> {
    /// At a path in the script, or in a body.
    Path(&'a [PathStep]),
    /// At a line and a column of its text.
    Place(Place),
}

impl fmt::Display for Spot<'_> {
    ghost output = { λ s. Some (spot_text s) };

    fn fmt<W: fmt::Write>(&self, f: &mut fmt::Formatter<W>) -> fmt::Result {
        match *self {
            Spot::Path(steps) => {
                let path = Path(steps);
                write!(f, "{path}")
            }
            Spot::Place(place) => write!(f, "{place}"),
        }
    }
}

/// How the findings on a script show places.
#[derive(Debug, Drop)]
pub(crate) enum Spots<'a> {
    /// As paths.
    Paths,
    /// As lines and columns of a text, by its values, and for each unit the index of its item.
    Places(Marks<'a>, ScriptNode, Vec<usize>),
}

/// The place of a value of a text; that of the script where there is no value.
fn place_or(marks: &Marks<'_>, script: &ScriptNode, offset: Option<usize>) -> Place
    ensures { place_view result ≡ unwrap_or (option_map (place_of marks.now.text.now) offset)
        (place_of marks.now.text.now script.now.at) }
{
    match offset {
        Some(offset) => marks.place(offset),
        None => marks.place(script.at),
    }
}

/// The index of the item of the unit of this number.
fn item_of(items: &[usize], number: usize) -> usize
    ensures { result ≡ slice_index_or items.now (number - 1) 0 }
{
    items.get(number.saturating_sub(1)).copied().unwrap_or(0)
}

impl<'a> Spots<'a> {
    /// Those of a script in these bytes, a text or JSON, with these units.
    ///
    /// An error means that memory ran out.
    pub(crate) fn of(
        alloc: Global,
        bytes: &'a [u8],
        is_text: bool,
        units: &[Unit],
    ) -> Result<Spots<'a>, AllocError>
        ensures { IfOk result (λ spots. shown spots ≡ shown_in is_text bytes.entry.now (map unit units.now)) }
    {
        if is_text {
            return Spots::of_text(alloc, bytes, units);
        }
        Ok(Spots::Paths)
    }

    /// Those of a text; paths if it stands for no script.
    fn of_text(alloc: Global, text: &'a [u8], units: &[Unit]) -> Result<Spots<'a>, AllocError>
        ensures { IfOk result (λ spots. shown spots ≡ shown_in true text.entry.now (map unit units.now)) }
    {
        match read_text(alloc, text) {
            Ok(script) => {
                let indexes = transactions(alloc, &script.items)?;
                let items = unit_items(alloc, units, &indexes)?;
                Ok(Spots::Places(Marks::of(alloc, text)?, script, items))
            }
            Err(ReadError::Fault(_)) => Ok(Spots::Paths),
            Err(ReadError::Memory) => Err(AllocError),
        }
    }

    /// The spot at a path of the script.
    pub(crate) fn at<'p>(&self, steps: &'p [PathStep]) -> Spot<'p>
        ensures { spot_text result ≡ (shown self.now).at (path steps.entry.now) }
    {
        match self {
            Spots::Paths => Spot::Path(steps),
            Spots::Places(marks, script, _) => {
                Spot::Place(place_or(marks, script, script_offset(script, steps)))
            }
        }
    }

    /// The spot at a path in the body of the unit of this number.
    pub(crate) fn in_unit<'p>(&self, number: usize, steps: &'p [PathStep]) -> Spot<'p>
        ensures { spot_text result ≡ (shown self.now).in_unit number (path steps.entry.now) }
    {
        match self {
            Spots::Paths => Spot::Path(steps),
            Spots::Places(marks, script, items) => {
                let item = item_of(items, number);
                Spot::Place(place_or(marks, script, body_offset(script, item, steps)))
            }
        }
    }
}
