//! Refusals of texts as text.

ghost use Rattle.std.specs.Prelude.{◌≡◌, ◌++◌, Some, IfOk, string_bytes};
ghost use Rattle.hp_model.specs.Output.{reason_words, place_words, placed_refusal_text};
ghost use Rattle.hp_model.specs.Report.{words};
ghost use Rattle.hp_script.specs.Mapped.{refusal as refusal_view};
ghost use Rattle.hp_notation.specs.Mapped.{placed_refusal};

use crate::refusal::TextRefusal;
use hp_script::Refusal;
use std::alloc::{AllocError, Global};
use std::fmt;

/// A refusal without its path.
#[derive(Clone, Copy)]
struct Reason<'a>(&'a Refusal);

impl fmt::Display for Reason<'_> {
    ghost output = { λ r. Some (words (reason_words (refusal_view r.0.now))) };

    fn fmt<W: fmt::Write>(&self, f: &mut fmt::Formatter<W>) -> fmt::Result {
        match self.0 {
            Refusal::S1 => write!(f, "S1"),
            Refusal::S2(_) => write!(f, "S2"),
            Refusal::S3(_) => write!(f, "S3"),
            Refusal::S4(_) => write!(f, "S4"),
            Refusal::S5(limit) => write!(f, "S5 {limit}"),
            Refusal::S6 => write!(f, "S6"),
        }
    }
}

impl fmt::Display for TextRefusal {
    ghost output = { λ r. let p = placed_refusal r in Some (words (reason_words p.refusal ++ place_words p.place)) };

    #[tactic(auto, using(crate::proofs::WithPlaces::with_place, crate::proofs::WithPlaces::without_place))]
    fn fmt<W: fmt::Write>(&self, f: &mut fmt::Formatter<W>) -> fmt::Result {
        let reason = Reason(&self.refusal);
        match self.place {
            Some(place) => write!(f, "{reason} {place}"),
            None => write!(f, "{reason}"),
        }
    }
}

/// The line that is written for a refused text, with its line feed: `refused S4 12:34`, `refused S5 size` or
/// `refused S6`, where the place is a line and a column from 1.
///
/// An error means that memory ran out.
pub fn text_refusal_line(alloc: Global, refusal: &TextRefusal) -> Result<String, AllocError>
    ensures { IfOk result (λ s. string_bytes s ≡ placed_refusal_text (placed_refusal refusal.now)) }
{
    format!(in alloc; "refused {refusal}\n")
}
