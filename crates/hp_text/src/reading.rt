//! Reading a script, or a line, from its text.

ghost use Rattle.hp_model.specs.NotationPlaces as P;
ghost use Rattle.hp_model.specs.NotationScripts as N;
ghost use Rattle.hp_text.specs.Mapped.{node_view, Makes};
ghost use Rattle.hp_text.specs.Places.{IsRead, IsErrorOf};
ghost use Rattle.hp_text.specs.Scripts.{script_view};

use crate::error::ReadError;
use crate::fault::Stop;
use crate::item::line;
use crate::lexer::tokens_of;
use crate::node::{Node, ScriptNode};
use crate::place::place_at;
use crate::script::script;
use crate::tokens::Tokens;
use std::alloc::Global;

/// Why the text isn't read, with the place of its fault.
fn error_of(text: &[u8], stop: Stop) -> ReadError
    ensures { IsErrorOf text.now stop result }
{
    match stop {
        Stop::Fault(at) => ReadError::Fault(place_at(text, at)),
        Stop::Memory => ReadError::Memory,
    }
}

/// Reads a script, up to the offset of its first fault.
#[tactic(auto, unfolding(hp_model::specs::NotationScripts::read_script))]
fn script_of(alloc: Global, text: &[u8]) -> Result<ScriptNode, Stop>
    ensures { Makes script_view result (N.read_script text.now) }
{
    let lexed = tokens_of(alloc, text)?;
    let mut tokens = Tokens {
        placed: lexed.tokens.as_slice(),
        ending: lexed.ending,
    };
    script(alloc, &mut tokens)
}

/// Reads a line, up to the offset of its first fault.
#[tactic(auto, unfolding(hp_model::specs::NotationScripts::read_line))]
fn line_of(alloc: Global, text: &[u8]) -> Result<Node, Stop>
    ensures { Makes node_view result (N.read_line text.now) }
{
    let lexed = tokens_of(alloc, text)?;
    let mut tokens = Tokens {
        placed: lexed.tokens.as_slice(),
        ending: lexed.ending,
    };
    line(alloc, &mut tokens)
}

/// Reads a script: the value that the text has as JSON, with the offset of each value within.
///
/// An error is `Fault` if the bytes are no text of a script, with the place of the first fault, and `Memory` if memory
/// ran out.
pub fn read_text(alloc: Global, text: &[u8]) -> Result<ScriptNode, ReadError>
    ensures { IsRead script_view result (P.read_text text.now) }
{
    match script_of(alloc, text) {
        Ok(script) => Ok(script),
        Err(stop) => Err(error_of(text, stop)),
    }
}

/// Reads a line to a running rule base: an item, or `show`. Its errors are those of `read_text`.
pub fn read_line(alloc: Global, text: &[u8]) -> Result<Node, ReadError>
    ensures { IsRead node_view result (P.read_text_line text.now) }
{
    match line_of(alloc, text) {
        Ok(line) => Ok(line),
        Err(stop) => Err(error_of(text, stop)),
    }
}
