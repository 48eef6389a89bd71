//! Lines and columns of many offsets of one text.

ghost use Rattle.std.specs.Prelude.{◌≡◌, ◌*◌, ℕ, Some, IfOk, slice_get};
ghost use Rattle.hp_model.specs.NotationPlaces as P;
ghost use Rattle.hp_text.specs.Places.{place_view};
ghost use Rattle.hp_text.specs.declared.place.Place.{Place as TextPlace};

use hp_text::{Place, place_at, place_from};
use std::alloc::{AllocError, Global};

/// How many bytes apart the places are that are known.
const SPAN: usize = 1024;

/// A text with the places of the offsets that are multiples of `SPAN`. The place of any other offset is found from the
/// one before it, so the time for it doesn't grow with the text.
#[derive(Debug, Drop)]
pub(crate) struct Marks<'a> {
    text: &'a [u8],
    places: Vec<Place>,
    ghost offsets: { (k : ℕ) (p : TextPlace) → slice_get places.items k ≡ Some p →
        place_view p ≡ P.place_of text.now (1024 * k) },
}

impl<'a> Marks<'a> {
    ghost use Rattle.std.specs.Prelude.{IfSome};

    /// The marks of a text.
    ///
    /// An error means that memory ran out.
    pub(crate) fn of(alloc: Global, text: &'a [u8]) -> Result<Marks<'a>, AllocError>
        ensures { IfOk result (λ marks. marks.text.now ≡ text.entry.now) }
    {
        let mut places = Vec::new(alloc);
        let mut place = Place { line: 1, column: 1 };
        let mut from = 0;
        while from < text.len() {
            places.push(place)?;
            let next = text.len().min(from + SPAN);
            place = place_from(text, place, from, next);
            from = next;
        }
        Ok(Marks { text, places })
    }

    /// The place that is known at an offset, which is a number of spans.
    fn known(&self, spans: usize) -> Option<Place>
        ensures { IfSome result (λ p. place_view p ≡ P.place_of self.now.text.now (1024 * spans)) }
    {
        self.places.get(spans).copied()
    }

    /// The place of the character that begins at an offset of the text. An offset beyond the end is the end.
    pub(crate) fn place(&self, offset: usize) -> Place
        ensures { place_view result ≡ P.place_of self.now.text.now offset }
    {
        let spans = offset / SPAN;
        match self.known(spans) {
            Some(known) if offset <= self.text.len() => {
                place_from(self.text, known, spans * SPAN, offset)
            }
            _ => place_at(self.text, offset),
        }
    }
}
