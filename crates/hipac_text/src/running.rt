//! A run, from the bytes of a script to the bytes of the script in the other notation.

ghost use Rattle.std.specs.Prelude.{◌≡◌, ◌≢◌, ◌↔◌, OnOk, IfOk, IfSome, take, true, false};
ghost use Rattle.std.specs.Io.KnownBytes.{Appends};
ghost use Rattle.hp_report.specs.Device.{Begins};
ghost use Rattle.hipac_text.specs.Ends.{status_of};
ghost use Rattle.hipac_text.specs.Outputs.{output};

use crate::answers::answer_to;
use crate::words::Task;
use hp_report::{Fault, ReadFault, Sink, Source, Status, read_up_to, write_text};
use std::alloc::Global;

/// The most bytes that are read: one more than a script may have is enough to refuse it.
fn most_read() -> usize
    ensures { result ≡ 1048577 }
{
    1_048_577
}

/// Reads a script up to the reader's end, and writes it in the other notation, or the line that refuses it.
///
/// The reader and the writer must not have failed before. After `Fault::Read` and `Fault::NoMemory` nothing was
/// written; after any fault what was written is a prefix of the text. No call of a device is repeated.
#[tactic(auto, using(crate::proofs::Longest::output_of_take, crate::proofs::Longest::status_of_take))]
pub fn run<R: Source, W: Sink>(
    alloc: Global,
    task: Task,
    reader: &mut R,
    writer: &mut W,
) -> Result<Status, Fault>
    requires reader { R.has_failed reader.old ≡ false }
    requires writer { W.has_failed writer.old ≡ false }

    // On `Ok` it has written the definition's text for the bytes up to the reader's end, and nothing else.
    ensures output { OnOk result (IfSome (R.remaining reader.old) (λ input.
        Appends (W.contents writer.old) (W.contents writer.new) (output task input))) }
    ensures status { IfOk result (λ status. IfSome (R.remaining reader.old) (λ input. status ≡ status_of task input)) }

    // However it ends, what was written is a prefix of that text.
    ensures begins { IfSome (R.remaining reader.old) (λ input.
        Begins (W.contents writer.old) (W.contents writer.new) (output task input)) }

    // It returns a fault of a device exactly if a call has failed; after a failed read nothing was written.
    ensures read { result ≡ Err Fault.Read ↔ (R.has_failed reader.new ≡ true) }
    ensures unwritten { result ≡ Err Fault.Read → writer.new ≡ writer.old }
    ensures write { result ≡ Err Fault.Write ↔ (W.has_failed writer.new ≡ true) }

    // If memory ran out, nothing was written.
    ensures memory { result ≡ Err Fault.NoMemory → writer.new ≡ writer.old }
{
    let input = read_input(alloc, reader)?;
    let status = respond(alloc, task, input.as_slice(), writer)?;
    Ok(status)
}

/// Reads the bytes of a script up to the reader's end, or one byte more than the longest script has.
fn read_input<R: Source>(alloc: Global, reader: &mut R) -> Result<Vec<u8>, ReadFault>
    requires { R.has_failed reader.old ≡ false }
    ensures bytes { IfOk result (λ input. IfSome (R.remaining reader.old) (λ all. input.items ≡ take 1048577 all)) }
    ensures read { result ≡ Err ReadFault.Read ↔ (R.has_failed reader.new ≡ true) }
{
    read_up_to(alloc, reader, most_read())
}

/// Writes what the definitions give for the bytes of a script.
fn respond<W: Sink>(
    alloc: Global,
    task: Task,
    input: &[u8],
    writer: &mut W,
) -> Result<Status, Fault>
    requires { W.has_failed writer.old ≡ false }
    ensures output { OnOk result (
        Appends (W.contents writer.old) (W.contents writer.new) (output task input.now)) }
    ensures status { IfOk result (λ status. status ≡ status_of task input.now) }
    ensures begins { Begins (W.contents writer.old) (W.contents writer.new) (output task input.now) }
    ensures read { result ≢ Err Fault.Read }
    ensures write { result ≡ Err Fault.Write ↔ (W.has_failed writer.new ≡ true) }
    ensures memory { result ≡ Err Fault.NoMemory → writer.new ≡ writer.old }
{
    let answer = answer_to(alloc, task, input)?;
    write_text(writer, answer.text.as_bytes())?;
    Ok(answer.status)
}
