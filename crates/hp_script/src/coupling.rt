//! Coupling modes.

ghost use Rattle.std.specs.Prelude.{◌≡◌, option_map};
ghost use Rattle.serde_json.specs.View.{view};
ghost use Rattle.hp_model.specs.Decode.{has_exclusive, common_coupling, coupling_of_word, coupling_at};
ghost use Rattle.hp_value.specs.Mapped.{coupling};
ghost use Rattle.hp_rule.specs.Places.{steps};
ghost use Rattle.hp_script.specs.Versions.{version_view};
ghost use Rattle.hp_script.specs.Mapped.{Gives};

use crate::refusal::{DecodeError, shaped};
use crate::version::Version;
use hp_rule::{Coupling, Place};
use serde_json::Value;
use std::alloc::Global;

fn has_exclusive(version: Version) -> bool
    ensures { result ≡ has_exclusive (version_view version) }
{
    match version {
        Version::First => false,
        Version::Second | Version::Fourth => true,
    }
}

/// A coupling mode of all versions.
fn common_coupling(word: &str) -> Option<Coupling>
    ensures { option_map coupling result ≡ common_coupling word.now }
{
    match word {
        "immediate" => Some(Coupling::Immediate),
        "deferred" => Some(Coupling::Deferred),
        "separate" => Some(Coupling::Separate),
        "dependent" => Some(Coupling::Dependent),
        _ => None,
    }
}

fn coupling_of_word(version: Version, word: &str) -> Option<Coupling>
    ensures { option_map coupling result ≡ coupling_of_word (version_view version) word.now }
{
    if has_exclusive(version) && word == "exclusive" {
        return Some(Coupling::Exclusive);
    }
    common_coupling(word)
}

/// The coupling mode at a place.
pub(crate) fn coupling_at(
    alloc: Global,
    place: &Place<'_>,
    version: Version,
    value: &Value,
) -> Result<Coupling, DecodeError>
    ensures { Gives coupling result (coupling_at (version_view version) (steps place.now) (view value.now)) }
{
    let word = shaped(alloc, place, value.as_str())?;
    shaped(alloc, place, coupling_of_word(version, word))
}
