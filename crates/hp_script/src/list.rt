//! Lists and their limits.

ghost use Rattle.std.specs.Prelude.{◌≤◌, length, map, IfOk};
ghost use Rattle.serde_json.specs.View.{view};
ghost use Rattle.hp_model.specs.Parts.{list_at, short_list_at};
ghost use Rattle.hp_rule.specs.Faults.{limit};
ghost use Rattle.hp_rule.specs.Places.{steps};
ghost use Rattle.hp_script.specs.Mapped.{Gives};

use crate::refusal::{DecodeError, Refusal, shaped};
use crate::shape::list_of;
use hp_rule::{Limit, Place};
use serde_json::Value;
use std::alloc::Global;

/// The items of the list at a place, or the refusal of a value that is no list.
pub fn list_at<'a>(
    alloc: Global,
    place: &Place<'_>,
    value: &'a Value,
) -> Result<&'a [Value], DecodeError>
    ensures { Gives (λ items. map view items.now) result (list_at (steps place.now) (view value.entry.now)) }
{
    shaped(alloc, place, list_of(value))
}

/// The items of the list at a place, of which there may be at most `most`. A longer list exceeds the limit `exceeded`.
#[tactic(auto, unfolding(hp_model::specs::Parts::short_list_at))]
pub fn short_list_at<'a>(
    alloc: Global,
    place: &Place<'_>,
    most: usize,
    exceeded: Limit,
    value: &'a Value,
) -> Result<&'a [Value], DecodeError>
    ensures reads { Gives (λ items. map view items.now) result
        (short_list_at most (limit exceeded) (steps place.now) (view value.entry.now)) }
    ensures few { IfOk result (λ items. length items.now ≤ most) }
{
    let items = list_at(alloc, place, value)?;
    if items.len() > most {
        return Err(DecodeError::Refused(Refusal::S5(exceeded)));
    }
    Ok(items)
}
