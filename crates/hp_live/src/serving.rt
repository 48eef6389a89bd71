//! A whole run.

ghost use Rattle.std.specs.Prelude.{◌≡◌, ◌≢◌, ◌↔◌, ◌++◌, OnOk, IfOk, IfSome, true, false};
ghost use Rattle.std.specs.Io.KnownBytes.{Appends};
ghost use Rattle.hp_report.specs.Device.{Begins};
ghost use Rattle.hp_lines.specs.Live as L;
ghost use Rattle.hp_live.specs.Kept.{IsServer, AllAnswered, WholeAnswers, AnswersBegun, StopsAtRefusal};
ghost use Rattle.hp_live.specs.Kept.{manner, declared_of, bytes_of};
ghost use Rattle.hp_live.specs.Ends.{status_at, status_of};

use crate::options::Options;
use crate::server::Server;
use crate::start::Start;
use hp_fire::ByThreads;
use hp_report::{Fault, Sink, Source, Status};
use std::alloc::Global;
use std::thread::Threads;

/// Answers the script's file, if there is one, and then the lines of the input up to its end: of the bytes that have
/// been read ahead, and those of the reader. It ends early if the script is refused.
///
/// The reader and the writer must not have failed before. After a fault what was written is a prefix of the answers;
/// `serve` says which answers are whole. No call of a device is repeated.
pub fn run<T: Threads + Sync, R: Source, W: Sink>(
    rt: &T,
    alloc: Global,
    start: Start,
    reader: &mut R,
    writer: &mut W,
    options: Options,
) -> Result<Status, Fault>
    requires reader { R.has_failed reader.old ≡ false }
    requires writer { W.has_failed writer.old ≡ false }

    // On `Ok` it has written the definition's answers for the file and all bytes up to the reader's end.
    ensures output { OnOk result (IfSome (R.remaining reader.old) (λ input.
        Appends (W.contents writer.old) (W.contents writer.new)
        (L.output (manner options (declared_of start.checks)) (bytes_of start.script) (start.ahead.items ++ input)))) }
    ensures status { IfOk result (λ status. IfSome (R.remaining reader.old) (λ input. status
        ≡ status_of (manner options (declared_of start.checks)) (bytes_of start.script) (start.ahead.items ++ input))) }

    // However it ends, what was written is a prefix of these answers.
    ensures begins { IfSome (R.remaining reader.old) (λ input. Begins (W.contents writer.old) (W.contents writer.new)
        (L.output (manner options (declared_of start.checks)) (bytes_of start.script) (start.ahead.items ++ input))) }

    // If the file's script is refused, nothing is read.
    ensures unread { (L.opened_server (manner options (declared_of start.checks)) (bytes_of start.script)).stage
        ≡ L.closed → reader.new ≡ reader.old }

    // It returns a fault of a device exactly if a call has failed.
    ensures read { result ≡ Err Fault.Read ↔ (R.has_failed reader.new ≡ true) }
    ensures write { result ≡ Err Fault.Write ↔ (W.has_failed writer.new ≡ true) }
{
    let workers = ByThreads::new(rt);
    let Start {
        script,
        checks,
        ahead,
    } = start;
    let server = Server::open(&workers, alloc, script, checks, writer, options)?;
    let server = server.feed(&workers, alloc, writer, &ahead)?;
    let status = serve(rt, alloc, server, reader, writer)?;
    Ok(status)
}

/// Reads lines up to the reader's end, and answers each as soon as it is read. It ends early if the script is
/// refused.
///
/// The reader and the writer must not have failed before. After a fault what was written is a prefix of the answers,
/// with all those to the lines that were complete before the last read; after `Fault::Read` it is all answers to what
/// was read, and after `Fault::NoMemory` it is whole answers. No call of a device is repeated.
pub fn serve<T: Threads + Sync, R: Source, W: Sink>(
    rt: &T,
    alloc: Global,
    server: Server,
    reader: &mut R,
    writer: &mut W,
) -> Result<Status, Fault>
    requires reader { R.has_failed reader.old ≡ false }
    requires writer { W.has_failed writer.old ≡ false }

    // On `Ok` it has written the definition's answers for all bytes up to the reader's end.
    ensures output { OnOk result ((s : L.Server) → IsServer server s → IfSome (R.remaining reader.old) (λ input.
        Appends (W.contents writer.old) (W.contents writer.new) (L.input_output s input))) }
    ensures status { IfOk result (λ status. (s : L.Server) → IsServer server s →
        IfSome (R.remaining reader.old) (λ input. status ≡ status_at (L.stage_at_end s input))) }

    // However it ends, what was written is a prefix of these answers.
    ensures begins { (s : L.Server) → IsServer server s → IfSome (R.remaining reader.old) (λ input.
        Begins (W.contents writer.old) (W.contents writer.new) (L.input_output s input)) }

    // After a failed read, all lines that were complete before it have been answered: no answer is held back. The
    // script wasn't refused by then.
    ensures at_once { result ≡ Err Fault.Read → (s : L.Server) → IsServer server s → AllAnswered
        (R.remaining reader.old) (R.remaining reader.new) (W.contents writer.old) (W.contents writer.new) s }

    // After other faults, all lines that were complete before the last read have been answered. If memory ran out, what
    // was written is whole answers.
    ensures memory { result ≡ Err Fault.NoMemory → (s : L.Server) → IsServer server s → WholeAnswers
        (R.remaining reader.old) (R.remaining reader.new) (W.contents writer.old) (W.contents writer.new) s }
    ensures cut { result ≡ Err Fault.Write → (s : L.Server) → IsServer server s → AnswersBegun
        (R.remaining reader.old) (R.remaining reader.new) (W.contents writer.old) (W.contents writer.new) s }

    // It reads on only while the script isn't refused, in pieces of at most 4096 bytes; and nothing at all if it was
    // refused before.
    ensures stops { (s : L.Server) → IsServer server s → s.stage ≢ L.closed →
        StopsAtRefusal (R.remaining reader.old) (R.remaining reader.new) s }
    ensures unread { (s : L.Server) → IsServer server s → s.stage ≡ L.closed → reader.new ≡ reader.old }

    // It returns a fault of a device exactly if a call has failed.
    ensures read { result ≡ Err Fault.Read ↔ (R.has_failed reader.new ≡ true) }
    ensures write { result ≡ Err Fault.Write ↔ (W.has_failed writer.new ≡ true) }
{
    let workers = ByThreads::new(rt);
    let mut server = server;
    let mut buf = [0u8; 4096];
    for _ in 0..u64::MAX {
        if let Status::Refused = server.status() {
            return Ok(Status::Refused);
        }
        if reader.ended() {
            let status = server.finish(&workers, alloc, writer)?;
            return Ok(status);
        }
        match reader.read(&mut buf) {
            Ok(count) => server = server.feed(&workers, alloc, writer, &buf[..count])?,
            Err(_) => return Err(Fault::Read),
        }
    }
    Err(Fault::NoMemory)
}
