//! A run, from the script's bytes to the report's bytes.

ghost use Rattle.std.specs.Prelude.{◌≡◌, ◌≢◌, ◌↔◌, OnOk, IfOk, IfSome, take, true, false};
ghost use Rattle.std.specs.Io.KnownBytes.{Appends};
ghost use Rattle.hp_model.specs.Output.{output};
ghost use Rattle.hp_report.specs.Device.{Begins};
ghost use Rattle.hp_script.specs.Mapped.{script as script_of_model};
ghost use Rattle.hipac.specs.Ends.{status_of, IsReportOf};

use hp_fire::ByThreads;
use hp_notation::{Unread, read_script};
use hp_report::{
    Fault, ReadFault, Report, Sink, Source, Status, read_up_to, write_report, write_text,
};
use hp_script::Script;
use hp_top::{opening, run_items};
use hp_words::Options;
use std::alloc::{AllocError, Global};
use std::mem;
use std::thread::Threads;

/// The most bytes that are read: one more than a script may have is enough to refuse it.
fn most_read() -> usize
    ensures { result ≡ 1048577 }
{
    1_048_577
}

/// Reads a script up to the reader's end, runs it, and writes its report, or the line that refuses it.
///
/// The reader and the writer must not have failed before. After `Fault::Read` and `Fault::NoMemory` nothing was
/// written; after any fault what was written is a prefix of the text. No call of a device is repeated.
#[tactic(auto, using(crate::proofs::Longest::output_of_take, crate::proofs::Longest::status_of_take))]
pub fn run<T: Threads + Sync, R: Source, W: Sink>(
    rt: &T,
    alloc: Global,
    reader: &mut R,
    writer: &mut W,
    options: Options,
) -> Result<Status, Fault>
    requires reader { R.has_failed reader.old ≡ false }
    requires writer { W.has_failed writer.old ≡ false }

    // On `Ok` it has written the definition's output for the bytes up to the reader's end, and nothing else.
    ensures output { OnOk result (IfSome (R.remaining reader.old) (λ input.
        Appends (W.contents writer.old) (W.contents writer.new) (output input options.text options.tree))) }
    ensures status { IfOk result (λ status. IfSome (R.remaining reader.old) (λ input.
        status ≡ status_of input options.text)) }

    // However it ends, what was written is a prefix of that output.
    ensures begins { IfSome (R.remaining reader.old) (λ input.
        Begins (W.contents writer.old) (W.contents writer.new) (output input options.text options.tree)) }

    // It returns a fault of a device exactly if a call has failed; after a failed read nothing was written.
    ensures read { result ≡ Err Fault.Read ↔ (R.has_failed reader.new ≡ true) }
    ensures unwritten { result ≡ Err Fault.Read → writer.new ≡ writer.old }
    ensures write { result ≡ Err Fault.Write ↔ (W.has_failed writer.new ≡ true) }

    // If memory ran out, nothing was written.
    ensures memory { result ≡ Err Fault.NoMemory → writer.new ≡ writer.old }
{
    let input = read_input(alloc, reader)?;
    let status = respond(rt, alloc, input.as_slice(), writer, options)?;
    Ok(status)
}

/// Reads the bytes of a script up to the reader's end, or one byte more than the longest script has.
fn read_input<R: Source>(alloc: Global, reader: &mut R) -> Result<Vec<u8>, ReadFault>
    requires { R.has_failed reader.old ≡ false }
    ensures bytes { IfOk result (λ input. IfSome (R.remaining reader.old) (λ all. input.items ≡ take 1048577 all)) }
    ensures read { result ≡ Err ReadFault.Read ↔ (R.has_failed reader.new ≡ true) }
{
    read_up_to(alloc, reader, most_read())
}

/// Writes the text that the definitions give for a script's bytes.
fn respond<T: Threads + Sync, W: Sink>(
    rt: &T,
    alloc: Global,
    input: &[u8],
    writer: &mut W,
    options: Options,
) -> Result<Status, Fault>
    requires { W.has_failed writer.old ≡ false }
    ensures output { OnOk result (
        Appends (W.contents writer.old) (W.contents writer.new) (output input.now options.text options.tree)) }
    ensures status { IfOk result (λ status. status ≡ status_of input.now options.text) }
    ensures begins { Begins (W.contents writer.old) (W.contents writer.new)
        (output input.now options.text options.tree) }
    ensures read { result ≢ Err Fault.Read }
    ensures write { result ≡ Err Fault.Write ↔ (W.has_failed writer.new ≡ true) }
    ensures memory { result ≡ Err Fault.NoMemory → writer.new ≡ writer.old }
{
    match read_script(alloc, input, options.text) {
        Ok(script) => {
            let report = evaluated(rt, alloc, script, options.workers)?;
            write_report(alloc, &report, options.tree, writer)?;
            // The program ends here: freeing the report list by list would take a tenth of its time.
            mem::forget(report);
            Ok(Status::Reported)
        }
        Err(Unread::Refused(line)) => {
            write_text(writer, line.as_bytes())?;
            Ok(Status::Refused)
        }
        Err(Unread::Memory) => Err(Fault::NoMemory),
    }
}

/// Runs the units of a script from the initial state, with at most `workers` workers.
///
/// An error means that memory ran out.
fn evaluated<T: Threads + Sync>(
    rt: &T,
    alloc: Global,
    script: Script,
    workers: usize,
) -> Result<Report, AllocError>
    ensures { IfOk result (λ report. IsReportOf report (script_of_model script)) }
{
    let Script { library, items, .. } = script;
    let mut store = opening(alloc)?;
    let threads = ByThreads::new(rt);
    let ran = run_items(&threads, alloc, &library, &mut store, &items, workers);
    let units = ran.whole()?;
    // They aren't freed either: the program only writes the report now, and then ends.
    mem::forget(items);
    Ok(Report {
        library,
        units,
        store,
    })
}
