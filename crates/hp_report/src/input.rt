//! Reading from a device.

ghost use Rattle.std.specs.Prelude.{◌≡◌, ◌↔◌, ◌≤◌, take, vec_len, IfOk, IfSome, true, false};
ghost use Rattle.std.specs.Io.KnownBytes.{Consumes};
ghost use Rattle.hp_report.specs.Device.{TakesAtMost, TakesFewer};
ghost use Rattle.hp_report.specs.declared.input.ReadFault.TheVariants.{NoMemory};

use crate::device::Source;
use std::alloc::{AllocError, Global};
use thiserror::Error;

/// Why the bytes of a device could not be read.
#[derive(Clone, Copy, Debug, PartialEq, Eq, Error)]
pub enum ReadFault {
    /// A read failed.
    #[error("a read failed")]
    Read,
    /// Memory ran out; no read failed.
    #[error("out of memory")]
    NoMemory,
}

impl From<AllocError> for ReadFault {
    ghost from_gives = { λ _ fault. fault ≡ NoMemory };

    fn from(_error: AllocError) -> ReadFault {
        ReadFault::NoMemory
    }
}

/// Reads the bytes of a device up to its end, or the first `limit` of them.
///
/// It never takes more than `limit` bytes from the device, and stops at the first read that fails or finds the end. A
/// read can fail only while fewer than `limit` bytes have been read. After a fault the bytes that were read are lost.
pub fn read_up_to<R: Source>(
    alloc: Global,
    reader: &mut R,
    limit: usize,
) -> Result<Vec<u8>, ReadFault>
    requires { R.has_failed reader.old ≡ false }
    ensures bytes { IfOk result (λ input. IfSome (R.remaining reader.old) (λ all.
        input.items ≡ take limit all)) }
    ensures taken { IfOk result (λ input.
        Consumes (R.remaining reader.old) (R.remaining reader.new) input.items) }
    ensures limit { IfOk result (λ input. vec_len input ≤ limit) }
    ensures most { TakesAtMost limit (R.remaining reader.old) (R.remaining reader.new) }
    ensures needed { result ≡ Err ReadFault.Read → TakesFewer limit (R.remaining reader.old) (R.remaining reader.new) }
    ensures read { result ≡ Err ReadFault.Read ↔ (R.has_failed reader.new ≡ true) }
{
    let mut input = Vec::new(alloc);
    let mut buf = [0u8; 4096];
    while input.len() < limit && !reader.ended() {
        let room = (limit - input.len()).min(buf.len());
        match reader.read(&mut buf[..room]) {
            Ok(count) => input.extend_from_slice(&buf[..count])?,
            Err(_) => return Err(ReadFault::Read),
        }
    }
    Ok(input)
}
