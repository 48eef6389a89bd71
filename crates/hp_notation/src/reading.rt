//! Reading scripts and lines, in JSON or in the text notation.

ghost use Rattle.std.specs.Prelude.{◌≡◌, IfOk};
ghost use Rattle.hp_rule.specs.Mapped.{library as model_library};
ghost use Rattle.hp_script.specs.Asked.{request, IsRequestOf};
ghost use Rattle.hp_script.specs.Mapped.{script as script_of_model, timed_script};
ghost use Rattle.hp_script.specs.OwnBodies.{AreOf};
ghost use Rattle.hp_script.specs.Versions.{version_view};
ghost use Rattle.hp_notation.specs.Readings.{script_in, timed_script_in, request_in, IsJsonLine, IsTextLine, Reads};
ghost use Rattle.hp_notation.specs.declared.reading.Unread.TheVariants.{Memory};

use crate::decoding::{decode_text, decode_text_request};
use crate::refusal::TextError;
use crate::shown::text_refusal_line;
use hp_rule::Library;
use hp_script::{DecodeError, Request, Script, Version, decode, decode_request, refusal_text};
use std::alloc::{AllocError, Global};
use std::sync::Arc;

/// Why no script, or no line, is read.
#[derive(Debug, Drop)]
pub enum Unread {
    /// It is refused. This is the line that says so, with its line feed.
    Refused(String),
    /// Memory ran out.
    Memory,
}

impl From<AllocError> for Unread {
    ghost from_gives = { λ _ e. e ≡ Memory };

    fn from(_e: AllocError) -> Unread {
        Unread::Memory
    }
}

/// Why JSON isn't read, with the line that says so.
fn json_unread(alloc: Global, error: DecodeError) -> Unread
    ensures { IsJsonLine error result }
{
    match error {
        DecodeError::Refused(refusal) => match refusal_text(alloc, &refusal) {
            Ok(line) => Unread::Refused(line),
            Err(_) => Unread::Memory,
        },
        DecodeError::Memory => Unread::Memory,
    }
}

/// Why text isn't read, with the line that says so.
fn text_unread(alloc: Global, error: TextError) -> Unread
    ensures { IsTextLine error result }
{
    match error {
        TextError::Refused(refusal) => match text_refusal_line(alloc, &refusal) {
            Ok(line) => Unread::Refused(line),
            Err(_) => Unread::Memory,
        },
        TextError::Memory => Unread::Memory,
    }
}

/// Reads a script from its bytes, which are a text in the notation or else JSON.
///
/// `Refused` has the first fault, and `Memory` means that memory ran out, as for `decode_text` and `hp_script::decode`.
pub fn read_script(alloc: Global, bytes: &[u8], is_text: bool) -> Result<Script, Unread>
    ensures reads { Reads script_of_model result (script_in is_text bytes.now) }
    ensures timed { Reads timed_script result (timed_script_in is_text bytes.now) }
    ensures own { IfOk result (λ s. AreOf s.library.value s.items.items) }
{
    if is_text {
        return match decode_text(alloc, bytes) {
            Ok(script) => Ok(script),
            Err(error) => Err(text_unread(alloc, error)),
        };
    }
    match decode(alloc, bytes) {
        Ok(script) => Ok(script),
        Err(error) => Err(json_unread(alloc, error)),
    }
}

/// Reads a line to a rule base with this library, whose script has this version, and whose clock is at `clock`. The
/// line is a text in the notation or else JSON.
///
/// The errors are those of `read_script`.
pub fn read_request(
    alloc: Global,
    version: Version,
    library: &Arc<Library>,
    clock: u64,
    line: &[u8],
    is_text: bool,
) -> Result<Request, Unread>
    ensures reads { Reads request result
        (request_in is_text (version_view version) (model_library library.now.value) clock line.now) }
    ensures own { IfOk result (λ r. IsRequestOf library.now.value r) }
{
    if is_text {
        return match decode_text_request(alloc, version, library, clock, line) {
            Ok(request) => Ok(request),
            Err(error) => Err(text_unread(alloc, error)),
        };
    }
    match decode_request(alloc, version, library, clock, line) {
        Ok(request) => Ok(request),
        Err(error) => Err(json_unread(alloc, error)),
    }
}
