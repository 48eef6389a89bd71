//! The engine, which every statement, signal and firing is passed.

ghost use Rattle.std.specs.Prelude.{◌≡◌};

use crate::speculate::{Effort, Past};
use hp_rule::Library;
use std::alloc::{AllocError, Global};

/// Runs statements, signals and firings on a view, by the rules of a library.
pub struct Engine<'a, W> {
    /// Who tries the tasks of groups ahead of their turn.
    pub(crate) workers: &'a W,
    /// The allocator.
    pub alloc: Global,
    /// The library.
    pub lib: &'a Library,
    /// The most threads that a group may use.
    pub(crate) width: usize,
    /// The costs of the rules' last firings.
    pub(crate) past: &'a Past,
    /// The work done, of a unit or of a worker's attempt.
    pub(crate) effort: &'a Effort,
}

// By hand, since a derived `clone` copies field by field, and its proof takes as long as that of a long function.
impl<'a, W> Clone for Engine<'a, W> {
    fn clone(&self) -> Result<Engine<'a, W>, AllocError> {
        Ok(*self)
    }
}

impl<'a, W> Copy for Engine<'a, W> {}

impl<'a, W> Engine<'a, W> {
    /// An engine for a library, with at most `width` threads for a group. With `Alone` let the width be 1: waves that
    /// try nothing only cost time. The costs of firings are noted in `past`, which may serve several units, one after
    /// another.
    pub fn new(
        workers: &'a W,
        alloc: Global,
        lib: &'a Library,
        width: usize,
        past: &'a Past,
    ) -> Engine<'a, W>
        ensures lib { result.lib ≡ lib.entry }
        ensures width { result.width ≡ width }
        ensures workers { result.workers ≡ workers.entry }
    {
        Engine::counting(workers, alloc, lib, width, past, &past.effort)
    }

    /// An engine whose work is counted in `effort`. All engines are made here.
    pub(crate) fn counting(
        workers: &'a W,
        alloc: Global,
        lib: &'a Library,
        width: usize,
        past: &'a Past,
        effort: &'a Effort,
    ) -> Engine<'a, W>
        ensures lib { result.lib ≡ lib.entry }
        ensures width { result.width ≡ width }
        ensures workers { result.workers ≡ workers.entry }
    {
        Engine {
            workers,
            alloc,
            lib,
            width,
            past,
            effort,
        }
    }

    /// The engine for an attempt, whose work is counted in `effort`, with at most `width` threads for a group inside
    /// it.
    pub(crate) fn inside<'b>(&'b self, effort: &'b Effort, width: usize) -> Engine<'b, W>
        ensures lib { result.lib ≡ self.entry.now.lib }
        ensures workers { result.workers ≡ self.entry.now.workers }
    {
        Engine::counting(self.workers, self.alloc, self.lib, width, self.past, effort)
    }

    /// This engine with other workers for its groups.
    pub(crate) fn with_workers<'b, V>(&'b self, workers: &'b V) -> Engine<'b, V>
        ensures lib { result.lib ≡ self.entry.now.lib }
        ensures width { result.width ≡ self.entry.now.width }
        ensures workers { result.workers ≡ workers.entry }
    {
        Engine::counting(
            workers,
            self.alloc,
            self.lib,
            self.width,
            self.past,
            self.effort,
        )
    }
}
