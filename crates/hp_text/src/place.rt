//! Places in a text.

ghost use Rattle.std.specs.Prelude.{◌≡◌, ◌+◌, ◌<◌, ◌≤◌, ◌^◌, Some, fold, length};
ghost use Rattle.hp_model.specs.NotationPlaces as P;
ghost use Rattle.hp_model.specs.Output.{place_text};
ghost use Rattle.hp_text.specs.Places.{place_view};

use std::fmt;

/// A place in a text: a line and a column, both from 1. A column is one character, also a tab.
#[derive(Clone, Copy, Debug, PartialEq, Eq)]
pub struct Place {
    pub line: usize,
    pub column: usize,
}

impl fmt::Display for Place {
    ghost output = { λ p. Some (place_text (place_view p)) };

    fn fmt<W: fmt::Write>(&self, f: &mut fmt::Formatter<W>) -> fmt::Result {
        let line = self.line;
        let column = self.column;
        write!(f, "{line}:{column}")
    }
}

/// The place after a byte of a text.
fn after_byte(place: Place, byte: u8) -> Place
    requires { (place.line + 1 < 2 ^ 64) × (place.column + 1 < 2 ^ 64) }
    ensures value { place_view result ≡ P.after_byte (place_view place) byte }
    ensures line { result.line ≤ place.line + 1 }
    ensures column { result.column ≤ place.column + 1 }
{
    let Place { line, column } = place;
    if byte == b'\n' {
        return Place {
            line: line + 1,
            column: 1,
        };
    }
    if 0x80 <= byte && byte < 0xc0 {
        return place;
    }
    Place {
        line,
        column: column + 1,
    }
}

/// The place after some bytes of a text, from the place before them.
fn place_after(before: Place, bytes: &[u8]) -> Place
    requires { (before.line + length bytes.now < 2 ^ 64) × (before.column + length bytes.now < 2 ^ 64) }
    ensures { place_view result ≡ fold P.after_byte (place_view before) bytes.now }
{
    let mut place = before;
    for byte in bytes {
        place = after_byte(place, *byte);
    }
    place
}

/// The place of the character that begins at an offset of a text, by the place of an offset before it. It takes time in
/// the number of bytes between them.
pub fn place_from(text: &[u8], known: Place, from: usize, offset: usize) -> Place
    requires order { from ≤ offset }
    requires within { offset ≤ length text.now }
    requires known { place_view known ≡ P.place_of text.now from }
    ensures { place_view result ≡ P.place_of text.now offset }
{
    place_after(known, &text[from..offset])
}

/// The place of the character that begins at an offset of a text. An offset beyond the end is the end.
#[tactic(auto, using(std::proofs::lemmas::List::take_all), unfolding(hp_model::specs::NotationPlaces::place_of))]
pub fn place_at(text: &[u8], offset: usize) -> Place
    ensures { place_view result ≡ P.place_of text.now offset }
{
    let start = Place { line: 1, column: 1 };
    if offset < text.len() {
        return place_after(start, &text[..offset]);
    }
    place_after(start, text)
}
