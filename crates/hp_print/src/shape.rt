//! The shapes of JSON values.

ghost use Rattle.std.specs.Prelude.{◌≡◌, map, option_map};
ghost use Rattle.std.specs.List.{list_all};
ghost use Rattle.serde_json.specs.View.{view};
ghost use Rattle.hp_model.specs.Json.{list_of, form_of, pair_of};
ghost use Rattle.hp_model.specs.Parts.{is_name_byte, is_name, name_of};
ghost use Rattle.hp_model.specs.NotationValues.{natural_of};
ghost use Rattle.hp_print.specs.Forms.{form_view};

use serde_json::Value;

/// The items of a list.
#[tactic(auto, using(crate::proofs::Values::listed_view))]
pub(crate) fn list_of(value: &Value) -> Option<&[Value]>
    ensures { option_map (λ items. map view items.now) result ≡ list_of (view value.now) }
{
    match value.as_array() {
        Some(list) => Some(list.as_slice()),
        None => None,
    }
}

/// A list `[word, ..]`: its word, and the parts after it.
#[derive(Clone, Copy)]
pub(crate) struct Form<'a> {
    pub word: &'a str,
    pub parts: &'a [Value],
}

/// The form in a value.
pub(crate) fn form_of(value: &Value) -> Option<Form<'_>>
    ensures { option_map form_view result ≡ form_of (view value.now) }
{
    let (first, parts) = list_of(value)?.split_first()?;
    let word = first.as_str()?;
    Some(Form { word, parts })
}

/// The items of a list of two.
pub(crate) fn pair_of(value: &Value) -> Option<(&Value, &Value)>
    ensures { option_map (λ p. (view p.0.now, view p.1.now)) result ≡ pair_of (view value.now) }
{
    match list_of(value)? {
        [first, second] => Some((first, second)),
        _ => None,
    }
}

fn are_name_bytes(bytes: &[u8]) -> bool
    ensures { result ≡ list_all is_name_byte bytes.now }
{
    bytes
        .iter()
        .all(|byte| byte.is_ascii_alphanumeric() || *byte == b'_')
}

/// Whether a text is spelled as a name.
fn is_name(text: &str) -> bool
    ensures { result ≡ is_name text.now }
{
    match text.as_bytes() {
        [] => false,
        [first, others @ ..] => {
            first.is_ascii_alphabetic() && others.len() < 32 && are_name_bytes(others)
        }
    }
}

/// The name in a value.
pub(crate) fn name_of(value: &Value) -> Option<&str>
    ensures { option_map (λ x. x.now) result ≡ name_of (view value.now) }
{
    let text = value.as_str()?;
    if is_name(text) { Some(text) } else { None }
}

/// The number in a value, which is 0 or more.
pub(crate) fn natural_of(value: &Value) -> Option<u64>
    ensures { result ≡ natural_of (view value.now) }
{
    let integer = value.as_number()?.as_i64()?;
    if integer < 0 {
        None
    } else {
        Some(integer as u64)
    }
}
