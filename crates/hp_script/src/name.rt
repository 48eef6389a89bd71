//! Names.

ghost use Rattle.std.specs.Prelude.{◌≡◌, option_map};
ghost use Rattle.serde_json.specs.View.{view};
ghost use Rattle.hp_model.specs.Parts.{name_of, name_at};
ghost use Rattle.hp_rule.specs.Places.{steps};
ghost use Rattle.hp_script.specs.Mapped.{Gives};

use crate::refusal::{DecodeError, shaped};
use hp_rule::{Place, is_name};
use serde_json::Value;
use std::alloc::Global;

fn name_of(value: &Value) -> Option<&str>
    ensures { option_map (λ x. x.now) result ≡ name_of (view value.now) }
{
    let text = value.as_str()?;
    if is_name(text) { Some(text) } else { None }
}

/// The name at a place, or the refusal of a value that is no name.
pub fn name_at<'a>(
    alloc: Global,
    place: &Place<'_>,
    value: &'a Value,
) -> Result<&'a str, DecodeError>
    ensures { Gives (λ x. x.now) result (name_at (steps place.now) (view value.entry.now)) }
{
    shaped(alloc, place, name_of(value))
}
