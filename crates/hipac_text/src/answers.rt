//! What is written for the bytes of a script.

ghost use Rattle.std.specs.Prelude.{◌≡◌, IfOk, Some, is_some, string_bytes};
ghost use Rattle.serde_json.specs.View.{view};
ghost use Rattle.hp_model.specs.Decode.{decode};
ghost use Rattle.hp_model.specs.Output.{refusal_text, placed_refusal_text};
ghost use Rattle.hp_model.specs.NotationValues.{print_value};
ghost use Rattle.hp_model.specs.Refusals.{unreadable};
ghost use Rattle.hp_script.specs.Mapped.{refusal as refusal_view};
ghost use Rattle.hp_text.specs.Places.{place_view};
ghost use Rattle.hipac_text.specs.Ends.{has_answer, status_if, status_of};
ghost use Rattle.hipac_text.specs.Outputs.{answer, print_answer, refused_value, output};

use crate::members::json_text;
use crate::words::Task;
use hp_notation::{TextRefusal, text_refusal_line};
use hp_print::{PrintError, print_text};
use hp_report::Status;
use hp_script::{DecodeError, Limit, Refusal, decode_value, refusal_text};
use hp_text::{Place, ReadError, read_text};
use serde_json::Value;
use std::alloc::{AllocError, Global};

/// The most bytes that a script may have.
const MAX_BYTES: usize = 1_048_576;

/// What is written, and how the run ends then.
#[derive(Debug, Drop)]
pub struct Answer {
    pub text: String,
    pub status: Status,
}

/// The line of a refusal.
fn refused(alloc: Global, refusal: &Refusal) -> Result<Answer, AllocError>
    ensures text { IfOk result (λ a. string_bytes a.text ≡ refusal_text (refusal_view refusal.now)) }
    ensures status { IfOk result (λ a. a.status ≡ Status.Refused) }
{
    Ok(Answer {
        text: refusal_text(alloc, refusal)?,
        status: Status::Refused,
    })
}

/// The line that refuses a text with a fault at this place.
fn refused_at(alloc: Global, place: Place) -> Result<Answer, AllocError>
    ensures text { IfOk result (λ a. string_bytes a.text
        ≡ placed_refusal_text (record { refusal = unreadable; place = Some (place_view place) })) }
    ensures status { IfOk result (λ a. a.status ≡ Status.Refused) }
{
    let refusal = TextRefusal {
        refusal: Refusal::S1,
        place: Some(place),
    };
    Ok(Answer {
        text: text_refusal_line(alloc, &refusal)?,
        status: Status::Refused,
    })
}

/// The JSON of a text.
fn read_answer(alloc: Global, input: &[u8]) -> Result<Answer, AllocError>
    ensures text { IfOk result (λ a. string_bytes a.text ≡ answer Task.Read input.now) }
    ensures status { IfOk result (λ a. a.status ≡ status_if (has_answer Task.Read input.now)) }
{
    match read_text(alloc, input) {
        Ok(script) => Ok(Answer {
            text: json_text(alloc, script)?,
            status: Status::Reported,
        }),
        Err(ReadError::Fault(place)) => refused_at(alloc, place),
        Err(ReadError::Memory) => Err(AllocError),
    }
}

/// Why a value without a text is refused: as a script, or else as a whole.
fn refused_value(alloc: Global, value: &Value) -> Result<Answer, AllocError>
    ensures text { IfOk result (λ a. string_bytes a.text ≡ refused_value (decode (view value.now))) }
    ensures status { IfOk result (λ a. a.status ≡ Status.Refused) }
{
    match decode_value(alloc, value) {
        Ok(_) => refused(alloc, &Refusal::S2(Vec::new(alloc))),
        Err(DecodeError::Refused(refusal)) => refused(alloc, &refusal),
        Err(DecodeError::Memory) => Err(AllocError),
    }
}

/// The canonical text of a value.
fn printed(alloc: Global, value: &Value) -> Result<Answer, AllocError>
    ensures text { IfOk result (λ a. string_bytes a.text ≡ print_answer (Some (view value.now))) }
    ensures status { IfOk result (λ a. a.status ≡ status_if (is_some (print_value (view value.now)))) }
{
    match print_text(alloc, value) {
        Ok(text) => Ok(Answer {
            text,
            status: Status::Reported,
        }),
        Err(PrintError::NoForm) => refused_value(alloc, value),
        Err(PrintError::Memory) => Err(AllocError),
    }
}

/// The canonical text of JSON.
fn print_answer(alloc: Global, input: &[u8]) -> Result<Answer, AllocError>
    ensures text { IfOk result (λ a. string_bytes a.text ≡ answer Task.Print input.now) }
    ensures status { IfOk result (λ a. a.status ≡ status_if (has_answer Task.Print input.now)) }
{
    match Value::from_slice(alloc, input) {
        Ok(value) => printed(alloc, &value),
        Err(error) => {
            if error.is_memory() {
                return Err(AllocError);
            }
            refused(alloc, &Refusal::S1)
        }
    }
}

/// What is written for the bytes of a script.
///
/// An error means that memory ran out.
pub fn answer_to(alloc: Global, task: Task, input: &[u8]) -> Result<Answer, AllocError>
    ensures text { IfOk result (λ a. string_bytes a.text ≡ output task input.now) }
    ensures status { IfOk result (λ a. a.status ≡ status_of task input.now) }
{
    if input.len() > MAX_BYTES {
        return refused(alloc, &Refusal::S5(Limit::Size));
    }
    match task {
        Task::Read => read_answer(alloc, input),
        Task::Print => print_answer(alloc, input),
    }
}
