//! A script's bytes as JSON.

ghost use Rattle.std.specs.Prelude.{◌≡◌};
ghost use Rattle.serde_json.specs.View.{view};
ghost use Rattle.hp_model.specs.Decode.{member_count, json_at};
ghost use Rattle.hp_script.specs.Mapped.{Gives};

use crate::refusal::{DecodeError, Refusal};
use serde_json::Value;
use std::alloc::Global;

/// The value of a JSON text in UTF-8.
///
/// `Refused` has `S1`: the bytes are no such text. `Memory` means that memory ran out.
pub fn json_at(alloc: Global, bytes: &[u8]) -> Result<Value, DecodeError>
    ensures { Gives view result (json_at bytes.now) }
{
    match Value::from_slice(alloc, bytes) {
        Ok(value) => Ok(value),
        Err(error) => {
            if error.is_memory() {
                return Err(DecodeError::Memory);
            }
            Err(DecodeError::Refused(Refusal::S1))
        }
    }
}

/// How many members an object has.
#[tactic(auto, using(crate::proofs::Listed::member_count_view))]
pub(crate) fn member_count(value: &Value) -> Option<usize>
    ensures { result ≡ member_count (view value.now) }
{
    match value.as_object() {
        Some(members) => Some(members.len()),
        None => None,
    }
}
