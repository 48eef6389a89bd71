//! Versions of the grammar, and the depth limit.

ghost use Rattle.std.specs.Prelude.{◌≡◌, option_map};
ghost use Rattle.serde_json.specs.View.{view};
ghost use Rattle.hp_model.specs.Scopes.{is_fourth};
ghost use Rattle.hp_model.specs.Decode.{version_at, depth_at, depth_if_any};
ghost use Rattle.hp_rule.specs.Places.{steps};
ghost use Rattle.hp_script.specs.Versions.{version_view};
ghost use Rattle.hp_script.specs.Mapped.{Gives};

use crate::number::integer_at;
use crate::refusal::{DecodeError, Refusal};
use hp_rule::{Limit, Place};
use serde_json::Value;
use std::alloc::Global;

/// The depth limit of a script that gives none.
const USUAL_DEPTH: u8 = 8;

/// The versions of the grammar. Each has the forms of the one before it, with the same meaning.
#[derive(Clone, Copy, Debug)]
pub enum Version {
    /// Version 1.
    First,
    /// Version 2, which has one more coupling mode.
    Second,
    /// Version 4, which has conditions that count and that find nothing, values by name, the clock's moment, vetoes
    /// with a message, and closed rules.
    Fourth,
}

/// Whether the forms of version 4 are there.
pub(crate) fn is_fourth(version: Version) -> bool
    ensures { result ≡ is_fourth (version_view version) }
{
    matches!(version, Version::Fourth)
}

/// The version at a place.
#[tactic(auto, unfolding(hp_model::specs::Decode::version_at))]
pub(crate) fn version_at(
    alloc: Global,
    place: &Place<'_>,
    value: &Value,
) -> Result<Version, DecodeError>
    ensures { Gives version_view result (version_at (steps place.now) (view value.now)) }
{
    match integer_at(alloc, place, value)? {
        1 => Ok(Version::First),
        2 => Ok(Version::Second),
        4 => Ok(Version::Fourth),
        _ => Err(DecodeError::Refused(Refusal::S6)),
    }
}

#[tactic(auto, unfolding(hp_model::specs::Decode::depth_at))]
fn depth_at(alloc: Global, place: &Place<'_>, value: &Value) -> Result<u8, DecodeError>
    ensures { Gives (λ n. n) result (depth_at (steps place.now) (view value.now)) }
{
    let depth = integer_at(alloc, place, value)?;
    if depth < 1 || 16 < depth {
        return Err(DecodeError::Refused(Refusal::S5(Limit::Depth)));
    }
    Ok(depth as u8)
}

/// The depth limit at a place, or the usual one where the script gives none.
pub(crate) fn depth_if_any(
    alloc: Global,
    place: &Place<'_>,
    value: Option<&Value>,
) -> Result<u8, DecodeError>
    ensures { Gives (λ n. n) result (depth_if_any (steps place.now) (option_map (λ v. view v.now) value.entry)) }
{
    match value {
        None => Ok(USUAL_DEPTH),
        Some(value) => depth_at(alloc, place, value),
    }
}
