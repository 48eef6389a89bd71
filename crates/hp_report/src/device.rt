//! Devices that remember whether one of their calls has failed or has found the end.

ghost use Rattle.std.specs.Prelude.{◌≡◌, ◌<◌, ℕ, List, length, Option, Bool, true, false, IsTrue};
ghost use Rattle.std.specs.Io.{ReadsAtMost, WritesAtMost};
ghost use Rattle.std.specs.Io.KnownBytes.{IsAtEnd, ReadConsumes, WriteAppends};
ghost use Rattle.hp_report.specs.Device.{read_fails, read_ends, write_fails};

use std::io;

/// What bytes are read from.
///
/// After a read that failed or found the end, no read may follow. So no caller can retry it, miss that it failed, or
/// wait for more.
/// [`Watched`](crate::Watched) makes a source of each of std's readers.
pub trait Source {
    /// The bytes that reads will give from here to the end, where they are known.
    ghost remaining: { Self → Option (List ℕ) };

    /// Whether a read has returned an `Err`.
    ghost has_failed: { Self → Bool };

    /// Whether a read has found the end.
    ghost has_ended: { Self → Bool };

    /// Reads into the front of `buf`, as std's `Read::read` does, and returns how many bytes it read.
    /// `Ok(0)` for a `buf` that isn't empty means the end of the source. On `Err` nothing was read.
    fn read(&mut self, buf: &mut [u8]) -> io::Result<usize>
        requires failure { has_failed self.old ≡ false }
        requires end { has_ended self.old ≡ false }
        ensures bound { ReadsAtMost result buf.new }
        ensures bytes { ReadConsumes (remaining self.old) (remaining self.new) result buf.new }
        ensures failure { has_failed self.new ≡ read_fails result }
        ensures end { has_ended self.new ≡ read_ends result buf.new };

    /// Whether a read has returned an `Err`.
    fn failed(&self) -> bool
        ensures { result ≡ has_failed self.now };

    /// Whether a read has found the end. Then no byte is left.
    fn ended(&self) -> bool
        ensures end { result ≡ has_ended self.now }
        ensures none { IsTrue result → IsAtEnd (remaining self.now) };
}

/// What bytes are written to.
///
/// After a write that failed, no write may follow. So no caller can retry it or miss that it failed. No write is of
/// nothing.
/// [`Watched`](crate::Watched) makes a sink of each of std's writers.
pub trait Sink {
    /// The bytes that the sink has taken, where they are known.
    ghost contents: { Self → Option (List ℕ) };

    /// Whether a write has returned an `Err`, or has taken nothing of a `buf` that isn't empty.
    ghost has_failed: { Self → Bool };

    /// Writes bytes from the front of `buf`, as std's `Write::write` does, and returns how many it took.
    /// On `Err` nothing was written.
    fn write(&mut self, buf: &[u8]) -> io::Result<usize>
        requires failure { has_failed self.old ≡ false }
        requires full { 0 < length buf.now }
        ensures bound { WritesAtMost result buf.now }
        ensures bytes { WriteAppends (contents self.old) (contents self.new) result buf.now }
        ensures failure { has_failed self.new ≡ write_fails result buf.now };

    /// Whether a write has returned an `Err`, or has taken nothing of a `buf` that isn't empty.
    fn failed(&self) -> bool
        ensures { result ≡ has_failed self.now };
}
