//! Reading a line to a running rule base.

ghost use Rattle.std.specs.Prelude.{◌≡◌, ◌<◌, [], IfOk, length, option_map};
ghost use Rattle.serde_json.specs.View.{view};
ghost use Rattle.hp_rule.specs.Mapped.{library as model_library};
ghost use Rattle.hp_script.specs.Items.{item_over};
ghost use Rattle.hp_script.specs.Mapped.{Gives, schedule};
ghost use Rattle.hp_script.specs.OwnBodies.{StayOf};
ghost use Rattle.hp_script.specs.Requests.{show_form_in, excerpt_from, show_of};
ghost use Rattle.hp_script.specs.Requests.{nothing_since, item_of, request_at, request_of};
ghost use Rattle.hp_script.specs.Asked.{excerpt, request, show_form_view, IsRequestOf};
ghost use Rattle.hp_script.specs.Versions.{version_view};

use crate::decoding::MAX_BYTES;
use crate::item::unit_at;
use crate::json::json_at;
use crate::number::integer_at;
use crate::reference::class_at;
use crate::refusal::{DecodeError, Refusal};
use crate::schedule::Schedule;
use crate::scope::Scope;
use crate::shape::{Form, form_of};
use crate::version::Version;
use hp_rule::{Library, Limit, Place};
use hp_value::{ClassNo, Key};
use serde_json::Value;
use std::alloc::Global;
use std::sync::Arc;

/// A part of a rule base's state.
#[derive(Clone, Copy, Debug)]
pub enum Excerpt {
    /// The objects, and the statuses of the rules.
    State,
    /// The objects of a class.
    Class(ClassNo),
    /// One object, by its class and key.
    Object(ClassNo, Key),
}

/// What a line asks of a running rule base.
#[derive(Debug, Drop)]
pub enum Request {
    /// To run an item, as one of a script.
    Item(Schedule),
    /// To show a part of the state.
    Show(Excerpt),
}

/// What is to be shown, whose parts are still JSON.
#[derive(Clone, Copy)]
enum ShowForm<'a> {
    State,
    Class(&'a Value),
    Object(&'a Value, &'a Value),
}

/// The form `["show", ..]` in a value, with no more than a class and a key.
fn show_form_in(value: &Value) -> Option<ShowForm<'_>>
    ensures { option_map show_form_view result ≡ show_form_in (view value.now) }
{
    let Form { word, parts } = form_of(value)?;
    if word != "show" {
        return None;
    }
    match parts {
        [] => Some(ShowForm::State),
        [class] => Some(ShowForm::Class(class)),
        [class, key] => Some(ShowForm::Object(class, key)),
        _ => None,
    }
}

/// The part of the state that a form names.
#[tactic(auto, unfolding(crate::specs::Requests::excerpt_from))]
fn excerpt_from(
    alloc: Global,
    version: Version,
    library: &Library,
    form: ShowForm<'_>,
) -> Result<Excerpt, DecodeError>
    ensures { Gives excerpt result (excerpt_from (model_library library.now) (show_form_view form.entry)) }
{
    let scope = Scope::of_library(version, library);
    let root = Place::Root;
    match form {
        ShowForm::State => Ok(Excerpt::State),
        ShowForm::Class(class) => {
            let class = class_at(alloc, &root.item(1), &scope, class)?;
            Ok(Excerpt::Class(class))
        }
        ShowForm::Object(class, key) => {
            let class = class_at(alloc, &root.item(1), &scope, class)?;
            let key = integer_at(alloc, &root.item(2), key)?;
            Ok(Excerpt::Object(class, key))
        }
    }
}

/// The request to show what a form names.
#[tactic(auto, unfolding(crate::specs::Requests::show_of))]
fn show_of(
    alloc: Global,
    version: Version,
    library: &Library,
    form: ShowForm<'_>,
) -> Result<Request, DecodeError>
    ensures reads { Gives request result (show_of (model_library library.now) (show_form_view form.entry)) }
    ensures own { IfOk result (λ r. (all : _) → IsRequestOf all r) }
{
    let excerpt = excerpt_from(alloc, version, library, form)?;
    Ok(Request::Show(excerpt))
}

/// The schedule before an item that comes alone: no units, and the current time.
fn nothing_since(alloc: Global, clock: u64) -> Schedule
    ensures units { result.units.items ≡ [] }
    ensures schedule { schedule result ≡ nothing_since clock }
{
    Schedule {
        units: Vec::new(alloc),
        clock,
    }
}

/// The schedule before, with the units of an item added. Paths begin at the item's own value.
fn item_after(
    alloc: Global,
    version: Version,
    library: &Arc<Library>,
    before: Schedule,
    value: &Value,
) -> Result<Schedule, DecodeError>
    ensures own { IfOk result (StayOf library.now.value before) }
    ensures reads { Gives schedule result
        (item_over (version_view version) (model_library library.now.value) [] (schedule before) (view value.now)) }
{
    unit_at(alloc, &Place::Root, version, library, before, value)
}

/// The request for the item in a JSON value.
#[tactic(auto, using(crate::proofs::OwnBodies::none_own), unfolding(crate::specs::Requests::item_of))]
fn item_of(
    alloc: Global,
    version: Version,
    library: &Arc<Library>,
    clock: u64,
    value: &Value,
) -> Result<Request, DecodeError>
    ensures own { IfOk result (λ r. IsRequestOf library.now.value r) }
    ensures reads { Gives request result
        (item_of (version_view version) (model_library library.now.value) clock (view value.now)) }
{
    let before = nothing_since(alloc, clock);
    let schedule = item_after(alloc, version, library, before, value)?;
    Ok(Request::Item(schedule))
}

/// Reads what a line asks from its JSON value, however the value was written.
///
/// `Refused` has the first fault, in the order of the checks of `decode_request` after the JSON text. `Memory` means
/// that memory ran out.
#[tactic(auto, unfolding(crate::specs::Requests::request_at))]
pub fn decode_request_value(
    alloc: Global,
    version: Version,
    library: &Arc<Library>,
    clock: u64,
    value: &Value,
) -> Result<Request, DecodeError>
    ensures reads { Gives request result
        (request_at (version_view version) (model_library library.now.value) clock (view value.now)) }
    ensures own { IfOk result (λ r. IsRequestOf library.now.value r) }
{
    match show_form_in(value) {
        Some(form) => show_of(alloc, version, library, form),
        None => item_of(alloc, version, library, clock, value),
    }
}

/// Reads a line to a rule base with this library, whose script has this version, and whose clock is at `clock`. A body
/// in it is checked against the library, and runs at the clock's time.
///
/// `Refused` has the first fault, in the order of a script's checks: the size, which has a script's limit, the JSON
/// text, and the item or what is to be shown, by a path from the line's own value. `Memory` means that memory ran out.
/// More bytes than a script may have are refused before any memory is allocated, so with `Memory` the bytes are at most
/// that many.
#[tactic(auto, unfolding(crate::specs::Requests::request_of))]
pub fn decode_request(
    alloc: Global,
    version: Version,
    library: &Arc<Library>,
    clock: u64,
    bytes: &[u8],
) -> Result<Request, DecodeError>
    ensures reads { Gives request result
        (request_of (version_view version) (model_library library.now.value) clock bytes.now) }
    ensures own { IfOk result (λ r. IsRequestOf library.now.value r) }
    ensures too_long { 1048576 < length bytes.now → result ≡ Err (DecodeError.Refused (Refusal.S5 Limit.Size)) }
{
    if bytes.len() > MAX_BYTES {
        return Err(DecodeError::Refused(Refusal::S5(Limit::Size)));
    }
    let value = json_at(alloc, bytes)?;
    decode_request_value(alloc, version, library, clock, &value)
}
