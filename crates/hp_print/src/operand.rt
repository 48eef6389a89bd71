//! Expressions without operands.

ghost use Rattle.std.specs.Prelude.{◌≡◌, OnOk, Some};
ghost use Rattle.serde_json.specs.View.{view};
ghost use Rattle.hp_model.specs.Parts.{name_of};
ghost use Rattle.hp_model.specs.NotationForms as F;
ghost use Rattle.hp_model.specs.NotationPrint.{expression_pieces, image_mark};
ghost use Rattle.hp_model.specs.NotationValues.{of_one, of_two, natural_of, expression_of_none};
ghost use Rattle.hp_text.specs.Mapped.{mark_view};
ghost use Rattle.hp_print.specs.Written.{gap_view, step, Writes};
ghost use Rattle.hp_print.specs.Forms.{image_view};

use crate::names::{name, natural, part};
use crate::token::{Gap, Token};
use crate::writer::Writer;
use hp_text::Mark;
use serde_json::Value;
use std::alloc::AllocError;

/// Writes an integer. A negative one is a minus and its magnitude.
pub(crate) fn integer(w: &mut Writer, gap: Gap, integer: i64) -> Result<(), AllocError>
    ensures { OnOk result (Writes w.old w.new
        (step (λ e. expression_pieces e (gap_view gap)) (Some (F.integer integer)))) }
{
    if integer >= 0 {
        return w.put(gap, Token::Number(integer as u64));
    }
    w.mark(gap, Mark::Minus)?;
    w.put(Gap::Tight, Token::Number(integer.unsigned_abs()))
}

/// Writes a field of a row.
pub(crate) fn field_of(
    w: &mut Writer,
    gap: Gap,
    row: &Value,
    field: &Value,
) -> Result<(), AllocError>
    ensures { OnOk result (Writes w.old w.new (step (λ e. expression_pieces e (gap_view gap))
        (of_two F.field_of (name_of (view row.now)) (name_of (view field.now))))) }
{
    name(w, gap, row)?;
    w.mark(Gap::Tight, Mark::Point)?;
    name(w, Gap::Tight, field)
}

/// Writes the key of a row.
pub(crate) fn key_of(w: &mut Writer, gap: Gap, row: &Value) -> Result<(), AllocError>
    ensures { OnOk result (Writes w.old w.new (step (λ e. expression_pieces e (gap_view gap))
        (of_one F.key_of (name_of (view row.now))))) }
{
    name(w, gap, row)?;
    w.mark(Gap::Tight, Mark::Point)?;
    w.mark(Gap::Tight, Mark::Key)
}

/// The row after a change, or the row before it.
#[derive(Clone, Copy)]
pub(crate) enum Image {
    New,
    Old,
}

impl Image {
    fn sign(self) -> Mark
        ensures { mark_view result ≡ image_mark (image_view self) }
    {
        match self {
            Image::New => Mark::New,
            Image::Old => Mark::Old,
        }
    }
}

/// Writes a field of a part's row.
pub(crate) fn image_field(
    w: &mut Writer,
    gap: Gap,
    image: Image,
    number: &Value,
    field: &Value,
) -> Result<(), AllocError>
    ensures { OnOk result (Writes w.old w.new (step (λ e. expression_pieces e (gap_view gap))
        (of_two (F.image_field (image_view image)) (natural_of (view number.now)) (name_of (view field.now))))) }
{
    w.mark(gap, image.sign())?;
    part(w, number)?;
    w.mark(Gap::Tight, Mark::Point)?;
    name(w, Gap::Tight, field)
}

/// Writes the key in a part of the event.
pub(crate) fn key_in(w: &mut Writer, gap: Gap, number: &Value) -> Result<(), AllocError>
    ensures { OnOk result (Writes w.old w.new (step (λ e. expression_pieces e (gap_view gap))
        (of_one F.key_in (natural_of (view number.now))))) }
{
    w.mark(gap, Mark::Event)?;
    part(w, number)?;
    w.mark(Gap::Tight, Mark::Point)?;
    w.mark(Gap::Tight, Mark::Key)
}

/// Writes the time of a part of the event.
pub(crate) fn time_of(w: &mut Writer, gap: Gap, number: &Value) -> Result<(), AllocError>
    ensures { OnOk result (Writes w.old w.new (step (λ e. expression_pieces e (gap_view gap))
        (of_one F.time_of (natural_of (view number.now))))) }
{
    w.mark(gap, Mark::Event)?;
    part(w, number)?;
    w.mark(Gap::Tight, Mark::Point)?;
    w.word(Gap::Tight, "time")
}

/// Writes an argument of a part of the event.
pub(crate) fn argument(
    w: &mut Writer,
    gap: Gap,
    number: &Value,
    place: &Value,
) -> Result<(), AllocError>
    ensures { OnOk result (Writes w.old w.new (step (λ e. expression_pieces e (gap_view gap))
        (of_two F.argument (natural_of (view number.now)) (natural_of (view place.now))))) }
{
    w.mark(gap, Mark::Event)?;
    part(w, number)?;
    w.mark(Gap::Tight, Mark::Point)?;
    w.word(Gap::Tight, "arg")?;
    w.mark(Gap::Tight, Mark::OpenParenthesis)?;
    natural(w, Gap::Tight, place)?;
    w.mark(Gap::Tight, Mark::CloseParenthesis)
}

/// Writes the number of occurrences.
fn occurrence_count(w: &mut Writer, gap: Gap) -> Result<(), AllocError>
    ensures { OnOk result (Writes w.old w.new
        (step (λ e. expression_pieces e (gap_view gap)) (Some F.occurrence_count))) }
{
    w.mark(gap, Mark::Event)?;
    w.mark(Gap::Tight, Mark::Point)?;
    w.word(Gap::Tight, "count")
}

/// Writes the expression of a word alone.
pub(crate) fn word_alone(w: &mut Writer, gap: Gap, word: &str) -> Result<(), AllocError>
    ensures { OnOk result (Writes w.old w.new
        (step (λ e. expression_pieces e (gap_view gap)) (expression_of_none word.now))) }
{
    match word {
        "now" => w.word(gap, "now"),
        "count" => occurrence_count(w, gap),
        _ => {
            w.refuse();
            Ok(())
        }
    }
}
