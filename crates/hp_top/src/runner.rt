//! The runner of units.

ghost use Rattle.std.specs.Prelude.{◌≡◌};

use hp_fire::{Engine, Past};
use hp_rule::Library;
use std::alloc::Global;

/// Runs units and their transactions. It holds the engine, which has all their parameters.
#[derive_where(Clone, Copy)]
pub struct Runner<'a, W> {
    /// The engine.
    pub engine: Engine<'a, W>,
}

impl<'a, W> Runner<'a, W> {
    /// A runner with at most `width` threads for a group; with `Alone` let the width be 1. The costs of firings are
    /// noted in `past`. If one past serves several calls, the first long group informs all later ones. No report
    /// depends on it.
    pub fn new(
        workers: &'a W,
        alloc: Global,
        lib: &'a Library,
        width: usize,
        past: &'a Past,
    ) -> Runner<'a, W>
        ensures lib { result.engine.lib ≡ lib.entry }
        ensures width { result.engine.width ≡ width }
        ensures workers { result.engine.workers ≡ workers.entry }
    {
        Runner {
            engine: Engine::new(workers, alloc, lib, width, past),
        }
    }

    /// The allocator.
    pub(crate) fn alloc(&self) -> Global {
        self.engine.alloc
    }
}
