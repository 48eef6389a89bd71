//! The signals of a file.

ghost use Rattle.hp_signals.specs.Mapped.{AreOfBytes};
ghost use Rattle.hp_signals.specs.OfBytes.{AreOf};

use crate::fault::SignalsFault;
use crate::reading::read_signals;
use hp_analysis::Declaration;
use hp_report::{ReadFault, bytes_of_file};
use hp_script::DecodeError;
use std::alloc::Global;
use std::rt::Files;

/// The signatures that the file of this name declares. The contract can't say which bytes the file has, but that the
/// signatures, or why they are refused, are those of some bytes.
pub fn signals_of_file<R: Files + AllocGlobal>(
    rt: &R,
    name: &str,
) -> Result<Declaration, SignalsFault>
    ensures { AreOfBytes result }
{
    match bytes_of_file(rt, name) {
        Ok(bytes) => signals_of(rt.alloc(), bytes.as_slice()),
        Err(ReadFault::Read) => Err(SignalsFault::Unread),
        Err(ReadFault::NoMemory) => Err(SignalsFault::Memory),
    }
}

/// The signatures that bytes declare.
fn signals_of(alloc: Global, bytes: &[u8]) -> Result<Declaration, SignalsFault>
    ensures { AreOf bytes.now result }
{
    match read_signals(alloc, bytes) {
        Ok(declaration) => Ok(declaration),
        Err(DecodeError::Refused(refusal)) => Err(SignalsFault::Refused(refusal)),
        Err(DecodeError::Memory) => Err(SignalsFault::Memory),
    }
}
