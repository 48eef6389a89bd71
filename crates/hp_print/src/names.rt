//! Names and numbers.

ghost use Rattle.std.specs.Prelude.{◌≡◌, OnOk};
ghost use Rattle.serde_json.specs.View.{view};
ghost use Rattle.hp_model.specs.Parts.{name_of};
ghost use Rattle.hp_model.specs.NotationPrint as P;
ghost use Rattle.hp_model.specs.NotationValues.{natural_of};
ghost use Rattle.hp_print.specs.Written.{gap_view, token_view, step, Writes};

use crate::shape::{name_of, natural_of};
use crate::token::{Gap, Token};
use crate::writer::Writer;
use hp_text::{Mark, reserved};
use serde_json::Value;
use std::alloc::AllocError;

/// The token of a name, which is in backquotes if its word is reserved.
pub(crate) fn name_token(name: &str) -> Token<'_>
    ensures { token_view result ≡ P.name_token name.entry.now }
{
    match reserved(name) {
        Some(_) => Token::Quoted(name),
        None => Token::Word(name),
    }
}

/// The token of a value's name, which is in backquotes if it is `now`, too.
pub(crate) fn value_token(name: &str) -> Token<'_>
    ensures { token_view result ≡ P.value_token name.entry.now }
{
    if name == "now" {
        return Token::Quoted(name);
    }
    name_token(name)
}

/// Writes the name in a value.
pub(crate) fn name(w: &mut Writer, gap: Gap, value: &Value) -> Result<(), AllocError>
    ensures { OnOk result (Writes w.old w.new (step (P.name (gap_view gap)) (name_of (view value.now)))) }
{
    match name_of(value) {
        Some(name) => w.put(gap, name_token(name)),
        None => {
            w.refuse();
            Ok(())
        }
    }
}

/// Writes the name of a value of a `let`.
pub(crate) fn value_name(w: &mut Writer, gap: Gap, value: &Value) -> Result<(), AllocError>
    ensures { OnOk result (Writes w.old w.new
        (step (λ x. P.at_gap (gap_view gap) (P.value_token x)) (name_of (view value.now)))) }
{
    match name_of(value) {
        Some(name) => w.put(gap, value_token(name)),
        None => {
            w.refuse();
            Ok(())
        }
    }
}

/// Writes a number, which is 0 or more.
pub(crate) fn natural(w: &mut Writer, gap: Gap, value: &Value) -> Result<(), AllocError>
    ensures { OnOk result (Writes w.old w.new (step (P.natural (gap_view gap)) (natural_of (view value.now)))) }
{
    match natural_of(value) {
        Some(number) => w.put(gap, Token::Number(number)),
        None => {
            w.refuse();
            Ok(())
        }
    }
}

/// Writes the number of a part, which is left out where it is 0.
pub(crate) fn part(w: &mut Writer, value: &Value) -> Result<(), AllocError>
    ensures { OnOk result (Writes w.old w.new (step P.part_pieces (natural_of (view value.now)))) }
{
    match natural_of(value) {
        Some(0) => Ok(()),
        Some(number) => {
            w.mark(Gap::Tight, Mark::OpenBracket)?;
            w.put(Gap::Tight, Token::Number(number))?;
            w.mark(Gap::Tight, Mark::CloseBracket)
        }
        None => {
            w.refuse();
            Ok(())
        }
    }
}
