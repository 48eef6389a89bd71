//! The shapes of JSON values.

ghost use Rattle.std.specs.Prelude.{◌≡◌, map, option_map};
ghost use Rattle.serde_json.specs.View.{view};
ghost use Rattle.hp_model.specs.Json.{list_of, form_of, pair_of};
ghost use Rattle.hp_script.specs.Forms.{form_view};

use serde_json::Value;

/// The items of a list.
#[tactic(auto, using(crate::proofs::Listed::listed_view))]
pub(crate) fn list_of(value: &Value) -> Option<&[Value]>
    ensures { option_map (λ items. map view items.now) result ≡ list_of (view value.now) }
{
    match value.as_array() {
        Some(list) => Some(list.as_slice()),
        None => None,
    }
}

/// A list `[word, ..]`: its word, and the parts after it.
#[derive(Clone, Copy)]
pub(crate) struct Form<'a> {
    pub word: &'a str,
    pub parts: &'a [Value],
}

/// The form in a value.
pub(crate) fn form_of(value: &Value) -> Option<Form<'_>>
    ensures { option_map form_view result ≡ form_of (view value.now) }
{
    let (first, parts) = list_of(value)?.split_first()?;
    let word = first.as_str()?;
    Some(Form { word, parts })
}

/// The items of a list of two; nothing if the value is no such list.
pub fn pair_of(value: &Value) -> Option<(&Value, &Value)>
    ensures { option_map (λ p. (view p.0.now, view p.1.now)) result ≡ pair_of (view value.now) }
{
    match list_of(value)? {
        [first, second] => Some((first, second)),
        _ => None,
    }
}
