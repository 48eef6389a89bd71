//! How a run begins.

ghost use Rattle.std.specs.Prelude.{◌≡◌, ◌≢◌, ◌↔◌, IfOk, IsSome, None, Some, true, false};
ghost use Rattle.std.specs.Io.KnownBytes.{Consumes};
ghost use Rattle.hp_analysis.specs.Declarations.{declared};
ghost use Rattle.hp_checked.specs.Readings.{KeepsGiven};
ghost use Rattle.hp_live.specs.Kept.{declared_of};

use hp_analysis::Declaration;
use hp_checked::declaration_for;
use hp_report::{Fault, Source};
use std::alloc::Global;

/// The bytes that are read ahead at most, before the last piece. A line of so many bytes is no script.
const MOST_AHEAD: usize = 1_048_577;

/// What a run begins with.
#[derive(Drop)]
pub struct Start {
    /// The bytes of the script's file, if there is one. Else the first line of the input is the script.
    pub script: Option<Vec<u8>>,
    /// What is declared of signals, if the rule base is checked.
    pub checks: Option<Declaration>,
    /// The bytes of the input that have been read.
    pub ahead: Vec<u8>,
}

impl Start {
    /// What a run begins with, whose rule base is checked if signatures of signals are given, be they none. Then a
    /// declaration that keeps these is found for the script: for the file's, or else for the first line, up to whose
    /// end the reader is read. Where a file has the script, or nothing is checked, nothing is read.
    ///
    /// The reader must not have failed before. After a fault some of it may have been read.
    pub fn of<R: Source>(
        alloc: Global,
        script: Option<Vec<u8>>,
        given: Option<Declaration>,
        is_text: bool,
        reader: &mut R,
    ) -> Result<Start, Fault>
        requires { R.has_failed reader.old ≡ false }
        ensures script { IfOk result (λ start. start.script ≡ script) }
        ensures checks { IfOk result (λ start. KeepsGiven (declared_of given) (declared_of start.checks)) }
        ensures ahead { IfOk result (λ start.
            Consumes (R.remaining reader.old) (R.remaining reader.new) start.ahead.items) }
        ensures unchecked { given ≡ None → reader.new ≡ reader.old }
        ensures unread { IsSome script → reader.new ≡ reader.old }
        ensures read { result ≡ Err Fault.Read ↔ (R.has_failed reader.new ≡ true) }
        ensures write { result ≢ Err Fault.Write }
    {
        match given {
            Some(given) => Start::checked(alloc, script, given, is_text, reader),
            None => Ok(Start {
                script,
                checks: None,
                ahead: Vec::new(alloc),
            }),
        }
    }

    /// What a checked run begins with.
    fn checked<R: Source>(
        alloc: Global,
        script: Option<Vec<u8>>,
        given: Declaration,
        is_text: bool,
        reader: &mut R,
    ) -> Result<Start, Fault>
        requires { R.has_failed reader.old ≡ false }
        ensures script { IfOk result (λ start. start.script ≡ script) }
        ensures checks { IfOk result (λ start. KeepsGiven (Some (declared given)) (declared_of start.checks)) }
        ensures ahead { IfOk result (λ start.
            Consumes (R.remaining reader.old) (R.remaining reader.new) start.ahead.items) }
        ensures unread { IsSome script → reader.new ≡ reader.old }
        ensures read { result ≡ Err Fault.Read ↔ (R.has_failed reader.new ≡ true) }
        ensures write { result ≢ Err Fault.Write }
    {
        let ahead = read_ahead(alloc, &script, reader)?;
        let declaration = declaration_for(alloc, script_bytes(&script, &ahead), is_text, given)?;
        Ok(Start {
            script,
            checks: Some(declaration),
            ahead,
        })
    }
}

/// The bytes of the script: those of its file, or else of the first line of what was read ahead.
fn script_bytes<'a>(file: &'a Option<Vec<u8>>, ahead: &'a [u8]) -> &'a [u8] {
    match file {
        Some(file) => file.as_slice(),
        None => first_line(ahead),
    }
}

/// Reads ahead where the script is the first line, and nothing where it is a file's.
fn read_ahead<R: Source>(
    alloc: Global,
    file: &Option<Vec<u8>>,
    reader: &mut R,
) -> Result<Vec<u8>, Fault>
    requires { R.has_failed reader.old ≡ false }
    ensures ahead { IfOk result (λ bytes.
        Consumes (R.remaining reader.old) (R.remaining reader.new) bytes.items) }
    ensures unread { IsSome file.now → reader.new ≡ reader.old }
    ensures read { result ≡ Err Fault.Read ↔ (R.has_failed reader.new ≡ true) }
    ensures write { result ≢ Err Fault.Write }
{
    match file {
        Some(_) => Ok(Vec::new(alloc)),
        None => read_line(alloc, reader),
    }
}

/// The bytes of the first line, if they are complete.
fn first_line(bytes: &[u8]) -> &[u8] {
    match bytes.iter().position(|byte| *byte == b'\n') {
        Some(length) => &bytes[..length],
        None => bytes,
    }
}

/// Reads pieces up to one in which a line ends, or to the reader's end, or so many that the line is too long.
fn read_line<R: Source>(alloc: Global, reader: &mut R) -> Result<Vec<u8>, Fault>
    requires { R.has_failed reader.old ≡ false }
    ensures ahead { IfOk result (λ bytes.
        Consumes (R.remaining reader.old) (R.remaining reader.new) bytes.items) }
    ensures read { result ≡ Err Fault.Read ↔ (R.has_failed reader.new ≡ true) }
    ensures write { result ≢ Err Fault.Write }
{
    let mut bytes = Vec::new(alloc);
    let mut buf = [0u8; 4096];
    for _ in 0..u64::MAX {
        if MOST_AHEAD <= bytes.len() || reader.ended() {
            return Ok(bytes);
        }
        match reader.read(&mut buf) {
            Ok(count) => {
                let piece = &buf[..count];
                bytes.extend_from_slice(piece)?;
                if piece.contains(&b'\n') {
                    return Ok(bytes);
                }
            }
            Err(_) => return Err(Fault::Read),
        }
    }
    Err(Fault::NoMemory)
}
