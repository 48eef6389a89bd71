//! What a worker has found of its tasks' predecessors: the tasks before them in the group.

ghost use Rattle.std.specs.Prelude.{◌≡◌, ◌+◌, ◌^◌, ◌<◌, ◌≤◌, [], IfOk, OnOk, length};
ghost use Rattle.std.specs.Option.{option_or};
ghost use Rattle.hp_model.specs.Cells.{Cell as ModelCell, over};
ghost use Rattle.hp_board.specs.Passes.{IsPassOf};
ghost use Rattle.hp_store.specs.Changes.{changes};
ghost use Rattle.hp_store.specs.Stack.{cells_in};
ghost use Rattle.hp_fire.specs.Starts.{Posts, HasMerged, Remembers, start_cells};

use crate::speculate::index::WaveIndex;
use crate::speculate::wave::Wave;
use hp_attempt::Attempt;
use hp_board::Pass;
use hp_store::{Layer, Snapshot};
use hp_view::Reads;
use std::alloc::{AllocError, Global};
use std::sync::Arc;

/// The layers that the first tasks of a wave have posted, stacked, as far as one worker has found them.
///
/// A worker draws rising numbers, so it reuses what it has merged for one task for the next, and merges each layer
/// once.
#[derive(Drop)]
pub(crate) struct Predecessors {
    layer: Arc<Layer>,
    // The number of tasks, from the first, whose layers are merged.
    count: usize,
    /// The number of the worker's last attempts in a row that were in conflict with a predecessor that isn't merged.
    pub(crate) conflicts: usize,
}

impl Predecessors {
    /// No layer is found.
    pub(crate) fn new(alloc: Global) -> Result<Predecessors, AllocError>
        ensures { IfOk result (λ p. (p.count ≡ 0) × (p.layer.value ≡ [])) }
    {
        Ok(Predecessors {
            layer: Arc::new(alloc, Layer::new(alloc))?,
            count: 0,
            conflicts: 0,
        })
    }

    /// The start of a task: the wave's snapshot, under the layers that the task's predecessors have posted so far, in
    /// order. An error means that memory ran out, and that the merged layers are of no more use.
    pub(crate) fn start_of(
        &mut self,
        alloc: Global,
        wave: &Wave<'_>,
        number: WaveIndex,
        mut pass: Pass<Arc<Layer>>,
    ) -> Result<(Snapshot, Pass<Arc<Layer>>), AllocError>
        requires number { number < length wave.now.board.cells }
        requires pass { IsPassOf wave.now.board.cells pass }
        requires merged { HasMerged self.old pass }
        ensures pass { IfOk result (λ r. IsPassOf wave.now.board.cells r.1) }
        ensures merged { IfOk result (λ r. HasMerged self.new r.1) }
        ensures knows { IfOk result (λ r. Remembers pass r.1) }
        ensures start { IfOk result (λ r. cells_in r.0 ≡ start_cells wave.now.snapshot r.1 number) }
    {
        self.keep_below(alloc, number)?;
        let mut later = Layer::new(alloc);
        for predecessor in self.count..number {
            let (found, after) = wave.board.look(predecessor, pass);
            pass = after;
            let Some(layer) = found else {
                continue;
            };
            self.take_in_next(predecessor, layer, &mut later)?;
        }
        let start = self.over(alloc, &wave.snapshot, later)?;
        Ok((start, pass))
    }

    /// Notes whether the attempt at a task is in conflict: it read what a slow predecessor, or one after that, wrote.
    pub(crate) fn note(
        &mut self,
        wave: &Wave<'_>,
        number: WaveIndex,
        attempt: &Attempt,
        mut pass: Pass<Arc<Layer>>,
    ) -> Pass<Arc<Layer>>
        requires number { number < length wave.now.board.cells }
        requires pass { IsPassOf wave.now.board.cells pass }
        requires merged { HasMerged self.old pass }
        ensures pass { IsPassOf wave.now.board.cells result }
        ensures merged { HasMerged self.new result }
        ensures knows { Remembers pass result }
    {
        for predecessor in self.count..number {
            let (found, after) = wave.board.look(predecessor, pass);
            pass = after;
            if are_in_conflict(&attempt.reads, found) {
                self.conflicts = self.conflicts.saturating_add(1);
                return pass;
            }
        }
        self.conflicts = 0;
        pass
    }

    // Keeps what is merged if all of it is posted below a number, and otherwise starts anew. A worker's numbers rise,
    // so that all is kept.
    fn keep_below(&mut self, alloc: Global, number: WaveIndex) -> Result<(), AllocError>
        ensures below { OnOk result (self.new.count ≤ number) }
        ensures merged { OnOk result ((posts : Posts) → HasMerged self.old posts → HasMerged self.new posts) }
    {
        if self.count <= number {
            return Ok(());
        }
        let anew = Predecessors::new(alloc)?;
        *self = anew;
        Ok(())
    }

    // Merges the layer of a predecessor: with the merged ones if it is the next of them, otherwise with those that were
    // found later.
    fn take_in_next(
        &mut self,
        predecessor: WaveIndex,
        layer: &Layer,
        later: &mut Layer,
    ) -> Result<(), AllocError>
        requires { predecessor + 1 < 2 ^ 64 }
        ensures next { OnOk result (predecessor ≡ self.old.count → (q : ModelCell) →
            changes self.new.layer.value q ≡ option_or (changes layer.now q) (changes self.old.layer.value q)) }
        ensures after_next { OnOk result (predecessor ≡ self.old.count →
            (self.new.count ≡ predecessor + 1) × (later.new ≡ later.old)) }
        ensures later { OnOk result ((predecessor ≡ self.old.count → ⊥) → (q : ModelCell) →
            changes later.new q ≡ option_or (changes layer.now q) (changes later.old q)) }
        ensures after_later { (predecessor ≡ self.old.count → ⊥) → self.new ≡ self.old }
    {
        if predecessor != self.count {
            return later.take_in(layer);
        }
        // The merged layers aren't shared between two tasks, so nothing is copied.
        Arc::make_mut(&mut self.layer)?.take_in(layer)?;
        self.count = predecessor + 1;
        Ok(())
    }

    // A snapshot under the merged layers, under those that were found later.
    fn over(&self, alloc: Global, snapshot: &Snapshot, later: Layer) -> Result<Snapshot, AllocError>
        ensures { IfOk result (λ s. cells_in s
            ≡ over (over (cells_in snapshot.now) (changes self.now.layer.value)) (changes later)) }
    {
        let start = snapshot.with_layer(alloc, Arc::try_clone(&self.layer)?)?;
        if later.is_empty() {
            return Ok(start);
        }
        start.with_layer(alloc, Arc::new(alloc, later)?)
    }
}

// Whether a posted layer, if there is one, writes a cell that was read.
fn are_in_conflict(reads: &Reads, posted: Option<&Arc<Layer>>) -> bool {
    let Some(layer) = posted else {
        return false;
    };
    for (cell, _) in layer.iter() {
        if reads.has_cell(*cell) {
            return true;
        }
    }
    false
}
