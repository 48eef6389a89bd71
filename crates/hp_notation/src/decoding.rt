//! Reading a script, or a line, from its text.

ghost use Rattle.std.specs.Prelude.{◌≡◌, ◌<◌, Ok, Some, None, IfOk, length};
ghost use Rattle.hp_model.specs.NotationPlaces.{read_text as reading, read_text_line as line_reading};
ghost use Rattle.hp_model.specs.NotationTree as T;
ghost use Rattle.hp_model.specs.Decode.{decode};
ghost use Rattle.hp_model.specs.TextScripts.{script_place, line_place, placed};
ghost use Rattle.hp_model.specs.TextScripts.{text_checked, text_line_checked, script_of_text};
ghost use Rattle.hp_rule.specs.Mapped.{library as model_library};
ghost use Rattle.hp_script.specs.Asked.{request, IsRequestOf};
ghost use Rattle.hp_script.specs.Mapped.{script as script_of_model, timed_script};
ghost use Rattle.hp_script.specs.OwnBodies.{AreOf};
ghost use Rattle.hp_script.specs.Requests.{request_at};
ghost use Rattle.hp_script.specs.Timed.{timed_script_at};
ghost use Rattle.hp_script.specs.Versions.{version_view};
ghost use Rattle.hp_text.specs.Mapped.{node_view};
ghost use Rattle.hp_text.specs.Scripts.{script_view};
ghost use Rattle.hp_notation.specs.Mapped.{Gives, Fails};

use crate::places::{line_refusal_place, script_refusal_place};
use crate::refusal::{TextError, TextRefusal};
use hp_rule::Library;
use hp_script::{
    DecodeError, Limit, Refusal, Request, Script, Version, decode_request_value, decode_value,
};
use hp_text::{Node, Place, ReadError, ScriptNode, read_line, read_text, script_value, value_of};
use std::alloc::Global;
use std::sync::Arc;

/// The most bytes that a text may have: as many as a script in JSON.
const MAX_BYTES: usize = 1_048_576;

/// The refusal of a text that has a fault at a place.
fn fault_at(place: Place) -> TextError
    ensures { result ≡ TextError.Refused (record { refusal = Refusal.S1; place = Some place }) }
{
    TextError::Refused(TextRefusal {
        refusal: Refusal::S1,
        place: Some(place),
    })
}

/// The refusal of a text that is too long.
fn too_long() -> TextError
    ensures { result ≡ TextError.Refused (record { refusal = Refusal.S5 Limit.Size; place = None }) }
{
    TextError::Refused(TextRefusal {
        refusal: Refusal::S5(Limit::Size),
        place: None,
    })
}

/// The script that the values of a script's text mean.
#[tactic(auto, using(crate::proofs::Placed::placed_of, crate::proofs::Placed::placed_refused))]
fn script_in(alloc: Global, text: &[u8], values: ScriptNode) -> Result<Script, TextError>
    requires { reading text.now ≡ Ok (script_view values) }
    ensures reads { let s = script_view values in
        Gives script_of_model result (placed (script_place text.now s) (decode (T.script_data s))) }
    ensures timed { let s = script_view values in
        Gives timed_script result (placed (script_place text.now s) (timed_script_at (T.script_data s))) }
    ensures own { IfOk result (λ s. AreOf s.library.value s.items.items) }
{
    let value = script_value(alloc, values)?;
    match decode_value(alloc, &value) {
        Ok(script) => Ok(script),
        Err(DecodeError::Refused(refusal)) => {
            let place = script_refusal_place(alloc, text, &refusal)?;
            Err(TextError::Refused(TextRefusal { refusal, place }))
        }
        Err(DecodeError::Memory) => Err(TextError::Memory),
    }
}

/// Reads a script from its text. The bodies of the script are checked against its own library.
///
/// `Refused` has the first fault, in this order: the size, the notation, and then the checks of a script in JSON.
/// `Memory` means that memory ran out. A text of more than 1,048,576 bytes is refused before any memory is allocated.
#[tactic(auto, unfolding(hp_model::specs::TextScripts::text_checked))]
pub fn decode_text(alloc: Global, text: &[u8]) -> Result<Script, TextError>
    ensures reads { Gives script_of_model result (script_of_text text.now) }
    ensures timed { Gives timed_script result (text_checked timed_script_at text.now) }
    ensures own { IfOk result (λ s. AreOf s.library.value s.items.items) }
    ensures too_long { 1048576 < length text.now
        → result ≡ Err (TextError.Refused (record { refusal = Refusal.S5 Limit.Size; place = None })) }
{
    if text.len() > MAX_BYTES {
        return Err(too_long());
    }
    match read_text(alloc, text) {
        Ok(values) => script_in(alloc, text, values),
        Err(ReadError::Fault(place)) => Err(fault_at(place)),
        Err(ReadError::Memory) => Err(TextError::Memory),
    }
}

/// The request that the values of a line's text mean.
#[tactic(auto, using(crate::proofs::Placed::placed_of, crate::proofs::Placed::placed_refused))]
fn request_in(
    alloc: Global,
    version: Version,
    library: &Arc<Library>,
    clock: u64,
    text: &[u8],
    values: Node,
) -> Result<Request, TextError>
    requires { line_reading text.now ≡ Ok (node_view values) }
    ensures reads { let n = node_view values in Gives request result (placed (line_place text.now n)
        (request_at (version_view version) (model_library library.now.value) clock (T.data_of n))) }
    ensures own { IfOk result (λ r. IsRequestOf library.now.value r) }
{
    let value = value_of(alloc, values)?;
    match decode_request_value(alloc, version, library, clock, &value) {
        Ok(request) => Ok(request),
        Err(DecodeError::Refused(refusal)) => {
            let place = line_refusal_place(alloc, text, &refusal)?;
            Err(TextError::Refused(TextRefusal { refusal, place }))
        }
        Err(DecodeError::Memory) => Err(TextError::Memory),
    }
}

/// Reads a line in the notation to a rule base with this library, whose script has this version, and whose clock is at
/// `clock`. A body in it is checked against the library, and runs at the clock's time.
///
/// Its errors are those of `decode_text`; the places are those in the line.
#[tactic(auto, unfolding(hp_model::specs::TextScripts::text_line_checked))]
pub fn decode_text_request(
    alloc: Global,
    version: Version,
    library: &Arc<Library>,
    clock: u64,
    text: &[u8],
) -> Result<Request, TextError>
    ensures reads { Gives request result (text_line_checked
        (request_at (version_view version) (model_library library.now.value) clock) text.now) }
    ensures own { IfOk result (λ r. IsRequestOf library.now.value r) }
    ensures too_long { 1048576 < length text.now
        → result ≡ Err (TextError.Refused (record { refusal = Refusal.S5 Limit.Size; place = None })) }
{
    if text.len() > MAX_BYTES {
        return Err(too_long());
    }
    match read_line(alloc, text) {
        Ok(values) => request_in(alloc, version, library, clock, text, values),
        Err(ReadError::Fault(place)) => Err(fault_at(place)),
        Err(ReadError::Memory) => Err(TextError::Memory),
    }
}
