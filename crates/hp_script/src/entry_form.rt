//! The forms of a condition's entries.

ghost use Rattle.std.specs.Prelude.{◌≡◌, [], ◌∷◌, map, option_map};
ghost use Rattle.serde_json.specs.View.{view};
ghost use Rattle.hp_model.specs.Decode.{is_word, query_form_of, entry_form, entry_form_of};
ghost use Rattle.hp_script.specs.Entries.{entry_form_view};
ghost use Rattle.hp_script.specs.Versions.{version_view};

use crate::query::QueryForm;
use crate::shape::list_of;
use crate::version::{Version, is_fourth};
use serde_json::Value;

/// An entry of a condition whose parts are still JSON.
#[derive(Clone, Copy)]
pub(crate) enum EntryForm<'a> {
    Query(QueryForm<'a>),
    No(QueryForm<'a>),
    Let(&'a Value, &'a Value),
}

/// Whether a value is this text.
pub(crate) fn is_word(word: &str, value: &Value) -> bool
    ensures { result ≡ is_word word.now (view value.now) }
{
    match value.as_str() {
        Some(text) => text == word,
        None => false,
    }
}

/// The form of a query, which is a list of three.
fn query_form_of(value: &Value) -> Option<EntryForm<'_>>
    ensures { option_map entry_form_view result ≡ query_form_of (view value.now) }
{
    match list_of(value)? {
        [name, class, predicate] => Some(EntryForm::Query(QueryForm {
            name,
            class,
            predicate,
        })),
        _ => None,
    }
}

/// A form of three parts. `no` has four, and no query has this name.
fn entry_form_of_three<'a>(
    first: &'a Value,
    second: &'a Value,
    third: &'a Value,
) -> Option<EntryForm<'a>>
    ensures { option_map entry_form_view result
        ≡ entry_form (view first.entry.now ∷ view second.entry.now ∷ view third.entry.now ∷ []) }
{
    if is_word("no", first) {
        return None;
    }
    if is_word("let", first) {
        return Some(EntryForm::Let(second, third));
    }
    Some(EntryForm::Query(QueryForm {
        name: first,
        class: second,
        predicate: third,
    }))
}

/// An entry of version 4 with these parts.
fn entry_form(parts: &[Value]) -> Option<EntryForm<'_>>
    ensures { option_map entry_form_view result ≡ entry_form (map view parts.now) }
{
    match parts {
        [first, second, third] => entry_form_of_three(first, second, third),
        [first, name, class, predicate] => if is_word("no", first) {
            Some(EntryForm::No(QueryForm {
                name,
                class,
                predicate,
            }))
        } else {
            None
        },
        _ => None,
    }
}

/// The form of the entry in a value.
pub(crate) fn entry_form_of(version: Version, value: &Value) -> Option<EntryForm<'_>>
    ensures { option_map entry_form_view result ≡ entry_form_of (version_view version) (view value.now) }
{
    if is_fourth(version) {
        entry_form(list_of(value)?)
    } else {
        query_form_of(value)
    }
}
