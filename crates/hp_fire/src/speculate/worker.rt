//! The workers of a wave.

ghost use Rattle.std.specs.Prelude.{◌≡◌, ◌<◌, IfOk, IfSome, IsSome, length};
ghost use Rattle.hp_board.specs.Deal.{IsSeatOf};
ghost use Rattle.hp_fire.specs.Groups.{IsWorker};
ghost use Rattle.hp_fire.specs.Starts.{OnlyLearns, StartsFrom};

use crate::speculate::index::WaveIndex;
use crate::speculate::policy::MAX_CONFLICTS;
use crate::speculate::predecessors::Predecessors;
use crate::speculate::wave::{Wave, boxed};
use hp_attempt::Attempt;
use hp_board::{Pass, Seat};
use hp_store::{Layer, Snapshot};
use std::alloc::{AllocError, Global};
use std::sync::Arc;

/// A worker of a wave, or the owner's part of it: its seat, what it knows of the board, and what it has found of its
/// tasks' predecessors.
#[derive(Drop)]
pub(crate) struct Worker<'a> {
    /// What all workers share.
    pub(crate) wave: &'a Wave<'a>,
    alloc: Global,
    // An `Option`, since the board takes the seat and gives it back.
    seat: Option<Seat>,
    // `None` once memory has run out for the start of a task: then the worker tries no more.
    pass: Option<Pass<Arc<Layer>>>,
    predecessors: Predecessors,
    // Whether a veto has stopped the group.
    is_stopped: bool,
}

impl<'a> Worker<'a> {
    /// A worker that has tried nothing.
    pub(crate) fn new(
        alloc: Global,
        wave: &'a Wave<'a>,
        seat: Seat,
    ) -> Result<Worker<'a>, AllocError>
        requires { IsSeatOf wave.now.board.deal seat }
        ensures worker { IfOk result IsWorker }
        ensures wave { IfOk result (λ w. w.wave ≡ wave.entry) }
    {
        Ok(Worker {
            wave,
            alloc,
            seat: Some(seat),
            pass: Some(wave.board.pass(alloc)?),
            predecessors: Predecessors::new(alloc)?,
            is_stopped: false,
        })
    }

    /// Draws the number of a task that no other worker draws; `None` if all were drawn.
    pub(crate) fn draw(&mut self) -> Option<WaveIndex>
        requires { IsWorker self.old }
        ensures worker { IsWorker self.new }
        ensures wave { self.new.wave ≡ self.old.wave }
        ensures pass { self.new.pass ≡ self.old.pass }
        ensures number { IfSome result (λ n. n < length self.old.wave.now.board.cells) }
    {
        let seat = self.seat.take()?;
        let (drawn, seat) = self.wave.board.draw(seat);
        self.seat = Some(seat);
        drawn
    }

    /// Whether more attempts are in vain, or are likely to be: a veto has stopped the group, memory has run out for the
    /// start of a task, or the worker's last attempts were in conflict with predecessors.
    pub(crate) fn has_given_up(&self) -> bool {
        self.is_stopped || self.pass.is_none() || self.predecessors.conflicts >= MAX_CONFLICTS
    }

    /// Notes whether a veto has stopped the group. No attempt is accepted after a veto.
    pub(crate) fn note_veto(&mut self, is_stopped: bool)
        requires { IsWorker self.old }
        ensures worker { IsWorker self.new }
        ensures wave { self.new.wave ≡ self.old.wave }
    {
        self.is_stopped = is_stopped;
    }

    /// The start of a task: the wave's snapshot, under the layers that the task's predecessors have posted so far, in
    /// order. `None` means that memory has run out: the worker has no pass any more.
    pub(crate) fn start_of(&mut self, number: WaveIndex) -> Option<Snapshot>
        requires worker { IsWorker self.old }
        requires number { number < length self.old.wave.now.board.cells }
        ensures worker { IsWorker self.new }
        ensures wave { self.new.wave ≡ self.old.wave }
        ensures knows { OnlyLearns self.old.pass self.new.pass }
        ensures start { IfSome result (StartsFrom self.new number) }
    {
        let pass = self.pass.take()?;
        let found = self
            .predecessors
            .start_of(self.alloc, self.wave, number, pass);
        let Ok((start, pass)) = found else {
            return None;
        };
        self.pass = Some(pass);
        Some(start)
    }

    /// Posts what a task wrote. The answer is whether it did.
    pub(crate) fn post(&mut self, number: WaveIndex, layer: &Arc<Layer>) -> bool
        requires worker { IsWorker self.old }
        requires number { number < length self.old.wave.now.board.cells }
        ensures worker { IsWorker self.new }
        ensures wave { self.new.wave ≡ self.old.wave }
        ensures knows { OnlyLearns self.old.pass self.new.pass }
        ensures keeps { IsSome self.old.pass → IsSome self.new.pass }
    {
        let Ok(posted) = boxed(self.alloc, layer) else {
            return false;
        };
        let Some(pass) = self.pass.take() else {
            return false;
        };
        match self.wave.board.post(number, posted, pass) {
            Ok(pass) => {
                self.pass = Some(pass);
                true
            }
            Err((_, pass)) => {
                self.pass = Some(pass);
                false
            }
        }
    }

    /// Notes whether the attempt at a task is in conflict with a slow predecessor, or one after that.
    pub(crate) fn note(&mut self, number: WaveIndex, attempt: &Attempt)
        requires worker { IsWorker self.old }
        requires number { number < length self.old.wave.now.board.cells }
        ensures worker { IsWorker self.new }
        ensures wave { self.new.wave ≡ self.old.wave }
        ensures knows { OnlyLearns self.old.pass self.new.pass }
        ensures keeps { IsSome self.old.pass → IsSome self.new.pass }
    {
        if let Some(pass) = self.pass.take() {
            let pass = self.predecessors.note(self.wave, number, attempt, pass);
            self.pass = Some(pass);
        }
    }
}
