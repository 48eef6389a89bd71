//! Numbers.

ghost use Rattle.std.specs.Prelude.{◌≤◌, ◌<◌, ◌^◌, IfOk};
ghost use Rattle.serde_json.specs.View.{view};
ghost use Rattle.hp_model.specs.Parts.{integer_at, index_at, number_from};
ghost use Rattle.hp_rule.specs.Places.{steps};
ghost use Rattle.hp_script.specs.Mapped.{Gives};

use crate::refusal::{DecodeError, bad_number, wrong_shape};
use hp_rule::Place;
use serde_json::Value;
use std::alloc::Global;

/// The signed 64-bit integer at a place.
#[tactic(auto, unfolding(hp_model::specs::Parts::integer_at))]
pub(crate) fn integer_at(
    alloc: Global,
    place: &Place<'_>,
    value: &Value,
) -> Result<i64, DecodeError>
    ensures { Gives (λ z. z) result (integer_at (steps place.now) (view value.now)) }
{
    let Some(number) = value.as_number() else {
        return Err(wrong_shape(alloc, place));
    };
    match number.as_i64() {
        Some(integer) => Ok(integer),
        None => Err(bad_number(alloc, place)),
    }
}

/// The number of a part at a place: 0 to 65,535.
#[tactic(auto, unfolding(hp_model::specs::Parts::index_at))]
pub(crate) fn index_at(alloc: Global, place: &Place<'_>, value: &Value) -> Result<u16, DecodeError>
    ensures { Gives (λ n. n) result (index_at (steps place.now) (view value.now)) }
{
    let integer = integer_at(alloc, place, value)?;
    if integer < 0 || 65_535 < integer {
        return Err(wrong_shape(alloc, place));
    }
    Ok(integer as u16)
}

/// The integer at a place, which is at least `least`.
#[tactic(auto, unfolding(hp_model::specs::Parts::number_from))]
pub(crate) fn number_from(
    alloc: Global,
    place: &Place<'_>,
    least: u64,
    value: &Value,
) -> Result<u64, DecodeError>
    ensures reads { Gives (λ n. n) result (number_from least (steps place.now) (view value.now)) }
    ensures least { IfOk result (λ n. least ≤ n) }
    ensures fits { IfOk result (λ n. n < 2 ^ 63) }
{
    let integer = integer_at(alloc, place, value)?;
    if integer < 0 {
        return Err(wrong_shape(alloc, place));
    }
    let number = integer as u64;
    if number < least {
        return Err(wrong_shape(alloc, place));
    }
    Ok(number)
}
