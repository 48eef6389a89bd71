//! Devices over readers and writers of std.

ghost use Rattle.std.specs.Prelude.{◌≡◌};

use crate::device::{Sink, Source};
use std::io;
use std::io::{Read, Write};

/// A reader or writer of std, whether one of its calls has failed, and whether a read has found the end.
#[derive(Drop)]
pub struct Watched<T> {
    inner: T,
    failed: bool,
    ended: bool,
}

impl<T> Watched<T> {
    ghost use Rattle.std.specs.Prelude.{false};
    ghost use Rattle.hp_report.specs.Watched.{inner_of, has_failed, has_ended};

    /// A device that has not failed, and whose end was not found.
    pub fn new(inner: T) -> Watched<T>
        ensures inner { inner_of result ≡ inner }
        ensures fresh { has_failed result ≡ false }
        ensures going_on { has_ended result ≡ false }
    {
        Watched {
            inner,
            failed: false,
            ended: false,
        }
    }

    /// The reader or writer inside.
    pub fn into_inner(self) -> T
        ensures { result ≡ inner_of self }
    {
        let Watched { inner, .. } = self;
        inner
    }
}

impl<R: Read> Source for Watched<R> {
    ghost use Rattle.hp_report.specs.Watched.{inner_of, left_of, has_failed as watched_failed};
    ghost use Rattle.hp_report.specs.Watched.{has_ended as watched_ended};

    ghost remaining = { λ s. left_of (watched_ended s) (R.remaining (inner_of s)) };

    ghost has_failed = { λ s. watched_failed s };

    ghost has_ended = { λ s. watched_ended s };

    fn read(&mut self, buf: &mut [u8]) -> io::Result<usize> {
        let result = self.inner.read(buf);
        self.failed = result.is_err();
        self.ended = match &result {
            Ok(count) => *count == 0 && !buf.is_empty(),
            Err(_) => false,
        };
        result
    }

    fn failed(&self) -> bool {
        self.failed
    }

    fn ended(&self) -> bool {
        self.ended
    }
}

impl<W: Write> Sink for Watched<W> {
    ghost use Rattle.hp_report.specs.Watched.{inner_of, has_failed as watched_failed};

    ghost contents = { λ s. W.contents (inner_of s) };

    ghost has_failed = { λ s. watched_failed s };

    fn write(&mut self, buf: &[u8]) -> io::Result<usize> {
        let result = self.inner.write(buf);
        self.failed = match &result {
            Ok(count) => *count == 0 && !buf.is_empty(),
            Err(_) => true,
        };
        result
    }

    fn failed(&self) -> bool {
        self.failed
    }
}
