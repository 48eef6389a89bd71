//! Writing to a device.

ghost use Rattle.std.specs.Prelude.{◌≡◌, ◌≢◌, ◌↔◌, OnOk, true, false};
ghost use Rattle.std.specs.Io.KnownBytes.{Appends};
ghost use Rattle.hp_report.specs.Device.{Begins};
ghost use Rattle.hp_report.specs.declared.output.WriteFault.TheVariants.{NoMemory};

use crate::device::Sink;
use std::alloc::AllocError;
use thiserror::Error;

/// Why a text could not be written.
#[derive(Clone, Copy, Debug, PartialEq, Eq, Error)]
pub enum WriteFault {
    /// A write failed. A beginning of the text was written.
    #[error("a write failed")]
    Write,
    /// Memory ran out while the text was made. Nothing was written, and no write failed.
    #[error("out of memory")]
    NoMemory,
}

impl From<AllocError> for WriteFault {
    ghost from_gives = { λ _ fault. fault ≡ NoMemory };

    fn from(_error: AllocError) -> WriteFault {
        WriteFault::NoMemory
    }
}

/// Writes a whole text, in as many writes as the device needs.
///
/// Its only fault is `WriteFault::Write`: it stops at the first write that fails, and a beginning of the text was
/// written.
pub fn write_text<W: Sink>(writer: &mut W, text: &[u8]) -> Result<(), WriteFault>
    requires { W.has_failed writer.old ≡ false }
    ensures ok { OnOk result (Appends (W.contents writer.old) (W.contents writer.new) text.now) }
    ensures begins { Begins (W.contents writer.old) (W.contents writer.new) text.now }
    ensures write { result ≡ Err WriteFault.Write ↔ (W.has_failed writer.new ≡ true) }
    ensures memory { result ≢ Err WriteFault.NoMemory }
{
    let mut rest = text;
    while !rest.is_empty() {
        match writer.write(rest) {
            Ok(0) | Err(_) => return Err(WriteFault::Write),
            Ok(count) => rest = &rest[count..],
        }
    }
    Ok(())
}
