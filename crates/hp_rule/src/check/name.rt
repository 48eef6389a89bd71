//! Names, numbers and limits.

ghost use Rattle.std.specs.Prelude.{◌≡◌, ◌≢◌, Err};
ghost use Rattle.std.specs.List.{list_all};
ghost use Rattle.hp_model.specs.Parts.{is_name_byte, is_name};
ghost use Rattle.hp_model.specs.Checked.{name_check, name_unless, number_check, limit_check};
ghost use Rattle.hp_rule.specs.Faults.{limit, Passes};
ghost use Rattle.hp_rule.specs.Places.{steps};

use crate::fault::{CheckError, Limit, bad_name, over_limit, wrong_shape};
use crate::place::Place;
use std::alloc::Global;

fn are_name_bytes(bytes: &[u8]) -> bool
    ensures { result ≡ list_all is_name_byte bytes.now }
{
    bytes
        .iter()
        .all(|byte| byte.is_ascii_alphanumeric() || *byte == b'_')
}

/// Whether a text is spelled as a name: 1 to 32 ASCII letters, digits and `_`, the first of which is a letter (this
/// project's own choice).
pub fn is_name(text: &str) -> bool
    ensures { result ≡ is_name text.now }
{
    match text.as_bytes() {
        [] => false,
        [first, others @ ..] => {
            first.is_ascii_alphabetic() && others.len() < 32 && are_name_bytes(others)
        }
    }
}

/// Checks that a name is spelled as one.
pub(crate) fn check_name(alloc: Global, place: &Place<'_>, name: &str) -> Result<(), CheckError>
    ensures { Passes result (name_check (steps place.now) name.now) }
{
    if is_name(name) {
        Ok(())
    } else {
        Err(wrong_shape(alloc, place))
    }
}

/// Checks that a name is spelled as one and isn't refused.
#[tactic(auto, unfolding(hp_model::specs::Checked::name_unless))]
pub(crate) fn check_unless(
    alloc: Global,
    place: &Place<'_>,
    name: &str,
    refused: bool,
) -> Result<(), CheckError>
    ensures { Passes result (name_unless refused (steps place.now) name.now) }
{
    check_name(alloc, place, name)?;
    if refused {
        return Err(bad_name(alloc, place));
    }
    Ok(())
}

/// Checks that the number of a class or a rule is below their count.
pub(crate) fn check_number(
    alloc: Global,
    place: &Place<'_>,
    count: usize,
    number: u32,
) -> Result<(), CheckError>
    ensures { Passes result (number_check count (steps place.now) number) }
{
    if (number as usize) < count {
        Ok(())
    } else {
        Err(bad_name(alloc, place))
    }
}

/// Checks a count against a limit.
pub(crate) fn check_limit(most: usize, limited: Limit, count: usize) -> Result<(), CheckError>
    ensures passes { Passes result (limit_check most (limit limited) count) }
    ensures memory { result ≢ Err CheckError.Memory }
{
    if count > most {
        return Err(over_limit(limited));
    }
    Ok(())
}
