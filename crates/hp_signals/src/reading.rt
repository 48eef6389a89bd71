//! Signatures, from bytes to a declaration.

ghost use Rattle.std.specs.Prelude.{◌≡◌, map, option_map, string_bytes, IfOk, false};
ghost use Rattle.serde_json.specs.View.{view};
ghost use Rattle.hp_analysis.specs.Kinded.{sort};
ghost use Rattle.hp_analysis.specs.Declarations.{declared};
ghost use Rattle.hp_rule.specs.Places.{steps};
ghost use Rattle.hp_script.specs.Mapped.{Gives};
ghost use Rattle.hp_signals.specs.Signals.{sort_of_word, sort_at, sorts_at, new_name_at, signature_at};
ghost use Rattle.hp_signals.specs.Signals.{signatures_at, signatures_of};
ghost use Rattle.hp_signals.specs.Mapped.{signature, is_in, Declares};

use hp_analysis::{Declaration, Sort};
use hp_rule::{Limit, Place};
use hp_script::{
    DecodeError, Refusal, bad_name, json_at, list_at, name_at, pair_of, shaped, short_list_at,
};
use hp_value::Kind;
use serde_json::Value;
use std::alloc::Global;

/// The most bytes that a file of signals may have, as a script.
const MAX_BYTES: usize = 1_048_576;

/// The most arguments that a signal has.
const MAX_ARGUMENTS: usize = 32;

/// What is declared of a signal.
#[derive(Debug, Drop)]
pub(crate) struct Signature {
    pub name: String,
    /// The sorts of its first arguments.
    pub sorts: Vec<Sort>,
}

fn sort_of_word(word: &str) -> Option<Sort>
    ensures { option_map sort result ≡ sort_of_word word.now }
{
    match word {
        "int" => Some(Sort::Only(Kind::Int)),
        "bool" => Some(Sort::Only(Kind::Bool)),
        "text" => Some(Sort::Only(Kind::Text)),
        "any" => Some(Sort::Any),
        _ => None,
    }
}

fn sort_at(alloc: Global, place: &Place<'_>, value: &Value) -> Result<Sort, DecodeError>
    ensures { Gives sort result (sort_at (steps place.now) (view value.now)) }
{
    let word = shaped(alloc, place, value.as_str())?;
    shaped(alloc, place, sort_of_word(word))
}

#[tactic(auto, unfolding(crate::specs::Signals::sorts_at))]
fn sorts_at(alloc: Global, place: &Place<'_>, value: &Value) -> Result<Vec<Sort>, DecodeError>
    ensures { Gives (λ sorts. map sort sorts.items) result (sorts_at (steps place.now) (view value.now)) }
{
    let values = short_list_at(alloc, place, MAX_ARGUMENTS, Limit::Arguments, value)?;
    let mut sorts = Vec::with_capacity(alloc, values.len())?;
    for (i, value) in values.iter().enumerate() {
        let known = sort_at(alloc, &place.item(i), value)?;
        sorts.push(known)?;
    }
    Ok(sorts)
}

/// The name at a place, of a signal that isn't declared yet.
#[tactic(auto, unfolding(crate::specs::Signals::new_name_at))]
fn new_name_at<'a>(
    alloc: Global,
    place: &Place<'_>,
    before: &Declaration,
    value: &'a Value,
) -> Result<&'a str, DecodeError>
    ensures reads { Gives (λ x. x.now) result
        (new_name_at (is_in (declared before.now)) (steps place.now) (view value.entry.now)) }
    ensures new { IfOk result (λ x. is_in (declared before.now) x.now ≡ false) }
{
    let name = name_at(alloc, place, value)?;
    if before.is_declared(name) {
        return Err(bad_name(alloc, place));
    }
    Ok(name)
}

/// The signature at a place, of a signal that isn't declared yet.
#[tactic(auto, unfolding(crate::specs::Signals::signature_at))]
fn signature_at(
    alloc: Global,
    place: &Place<'_>,
    before: &Declaration,
    value: &Value,
) -> Result<Signature, DecodeError>
    ensures reads { Gives signature result
        (signature_at (is_in (declared before.now)) (steps place.now) (view value.now)) }
    ensures new { IfOk result (λ s. is_in (declared before.now) (string_bytes s.name) ≡ false) }
{
    let (name, sorts) = shaped(alloc, place, pair_of(value))?;
    let name = new_name_at(alloc, &place.item(0), before, name)?;
    let sorts = sorts_at(alloc, &place.item(1), sorts)?;
    let name = String::from_str(alloc, name)?;
    Ok(Signature { name, sorts })
}

/// The signatures in a JSON value.
fn signatures_in(alloc: Global, value: &Value) -> Result<Declaration, DecodeError>
    ensures { Declares result (signatures_at (view value.now)) }
{
    let values = list_at(alloc, &Place::Root, value)?;
    let mut declaration = Declaration::new(alloc);
    for (i, value) in values.iter().enumerate() {
        match signature_at(alloc, &Place::Root.item(i), &declaration, value) {
            Ok(next) => declaration.declare(next.name, next.sorts)?,
            Err(error) => return Err(error),
        }
    }
    Ok(declaration)
}

/// The signatures of signals that the bytes of a file declare.
///
/// `Refused` has the first fault: the size, the JSON text, and then the signatures in order, each from left to right.
/// `Memory` means that memory ran out.
#[tactic(auto, unfolding(crate::specs::Signals::signatures_of))]
pub fn read_signals(alloc: Global, bytes: &[u8]) -> Result<Declaration, DecodeError>
    ensures { Declares result (signatures_of bytes.now) }
{
    if bytes.len() > MAX_BYTES {
        return Err(DecodeError::Refused(Refusal::S5(Limit::Size)));
    }
    let value = json_at(alloc, bytes)?;
    signatures_in(alloc, &value)
}
