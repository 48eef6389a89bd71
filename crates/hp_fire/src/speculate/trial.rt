//! Trying the tasks of a wave.

ghost use Rattle.std.specs.Prelude.{◌≡◌, ◌+◌, ◌<◌, IfOk, OnOk, IfSome, IsSome, All, length};
ghost use Rattle.std.specs.Thread.{IsSync};
ghost use Rattle.hp_model.specs.Cells.{Holds};
ghost use Rattle.hp_model.specs.Soundness.{IsSound};
ghost use Rattle.hp_rule.specs.Mapped.{library};
ghost use Rattle.hp_store.specs.Stack.{cells_in};
ghost use Rattle.hp_board.specs.Deal.{IsSeatOf};
ghost use Rattle.hp_attempt.specs.Fronts.{AreSound};
ghost use Rattle.hp_attempt.specs.Mapped.{attempt as attempt_of};
ghost use Rattle.hp_fire.specs.Given.{MayFire, Fires};
ghost use Rattle.hp_fire.specs.Starts.{IsTriedBy, OnlyLearns};
ghost use Rattle.hp_fire.specs.Groups.{AreSoundTries, IsAcceptedWithin, IsWave, IsWorker, IsJob, AreOf, ComesInWave};

use crate::attempting::attempt_on;
use crate::speculate::channel::Receiver;
use crate::speculate::fork_join::{on_threads, take_value};
use crate::speculate::gate::Gate;
use crate::speculate::index::{GroupIndex, WaveIndex};
use crate::speculate::past::Effort;
use crate::speculate::pending::Tried;
use crate::speculate::policy::MAX_POLLS;
use crate::speculate::progress::Progress;
use crate::speculate::wave::{Job, Wave, hand_over, kept_layer};
use crate::speculate::worker::Worker;
use hp_attempt::{Attempt, Outcome};
use hp_board::Seat;
use hp_rule::{Library, Task};
use hp_store::Snapshot;
use hp_view::View;
use std::alloc::{AllocError, Global};
use std::thread::Threads;

/// What is needed to try the tasks of a wave.
pub(crate) struct Trial<'a, R, G, F> {
    /// Starts threads.
    pub(crate) rt: &'a R,
    /// The allocator.
    pub(crate) alloc: Global,
    /// The library, for which the attempts are sound.
    pub(crate) lib: &'a Library,
    /// The gate that is notified of tasks.
    pub(crate) gate: &'a G,
    /// Fires a task on a view. It counts the work, and uses at most the given number of threads.
    pub(crate) fire: &'a F,
    /// The most threads that a group inside a task may use.
    pub(crate) width: usize,
}

// By hand, as with a group.
impl<'a, R, G, F> Clone for Trial<'a, R, G, F> {
    fn clone(&self) -> Result<Trial<'a, R, G, F>, AllocError> {
        Ok(*self)
    }
}

impl<'a, R, G, F> Copy for Trial<'a, R, G, F> {}

impl<
    R: Threads + Sync,
    G: Gate + Sync,
    F: Fn(&mut View, &Task, &Effort, usize) -> Result<Outcome, AllocError> + Sync,
> Trial<'_, R, G, F> {
    /// Tries the tasks of a wave: each worker on a thread of its own, and the owner's part on one more, while this
    /// thread sleeps. The answer is what the workers return, and whether memory sufficed to accept attempts.
    pub(crate) fn try_all(
        &self,
        wave: &Wave<'_>,
        seats: (Seat, Vec<Job<'_>>),
        view: &mut View,
        progress: &mut Progress,
        receivers: &mut Vec<Receiver<'_>>,
    ) -> (Result<Vec<Vec<Tried>>, AllocError>, Result<(), AllocError>)
        requires fires { All (MayFire F.Fn self.now.fire.now) wave.now.tasks.now }
        requires firings { Fires F.Fn self.now.fire.now (library self.now.lib.now) }
        requires wave { IsWave wave.now }
        requires seat { IsSeatOf wave.now.board.deal seats.0 }
        requires jobs { All (IsJob (library self.now.lib.now) wave.now) seats.1.items }
        requires channels { AreOf (library self.now.lib.now) receivers.old.items }
        requires sound { AreSound (library self.now.lib.now) progress.old.pending.attempts.items }
        requires accepted { IsAcceptedWithin progress.old }
        ensures found { let are_sound = AreSoundTries (library self.now.lib.now) in
            IfOk result.0 (λ all. All (λ found. are_sound found.items) all.items) }
        ensures comes { OnOk result.1 (ComesInWave (library self.now.lib.now) wave.now
            view.old progress.old view.new progress.new) }
        ensures channels { AreOf (library self.now.lib.now) receivers.new.items }
        ensures waves { progress.new.counts.waves ≡ progress.old.counts.waves }
    {
        let (seat, jobs) = seats;
        let mut seat = Some(seat);
        let mut owner = || -> Result<(), AllocError>
            requires { IsSync R.row × IsSync G.row × IsSync F.row × IsWave wave.now
                × IsSome seat × IfSome seat (IsSeatOf wave.now.board.deal)
                × AreOf (library self.now.lib.now) receivers.now.items
                × AreSound (library self.now.lib.now) progress.now.pending.attempts.items
                × IsAcceptedWithin progress.now
                × All (MayFire F.Fn self.now.fire.now) wave.now.tasks.now
                × Fires F.Fn self.now.fire.now (library self.now.lib.now) }
            ensures comes { OnOk result (ComesInWave (library self.entry.now.lib.now) wave.entry.now
                view.entry.now progress.entry.now view.exit.now progress.exit.now) }
            ensures channels { AreOf (library self.entry.now.lib.now) receivers.exit.now.items }
            ensures waves { progress.exit.now.counts.waves ≡ progress.entry.now.counts.waves }
        { self.try_as_owner(wave, take_value(&mut seat), view, progress, receivers) };
        let worker = |job| -> Vec<Tried>
            requires { IsSync R.row × IsSync G.row × IsSync F.row × IsWave wave.now
                × IsJob (library self.now.lib.now) wave.now job
                × All (MayFire F.Fn self.now.fire.now) wave.now.tasks.now
                × Fires F.Fn self.now.fire.now (library self.now.lib.now) }
            ensures { AreSoundTries (library self.entry.now.lib.now) result.items }
        { self.try_as_worker(wave, job) };
        on_threads(self.rt, self.alloc, &worker, jobs, &mut owner)
    }

    /// The owner's part of a wave: it tries tasks as the workers do, and accepts the front of the attempts as they
    /// arrive. At the end it polls for the workers' last attempts.
    ///
    /// An error means that memory ran out while it accepted attempts.
    fn try_as_owner(
        &self,
        wave: &Wave<'_>,
        seat: Seat,
        view: &mut View,
        progress: &mut Progress,
        receivers: &mut Vec<Receiver<'_>>,
    ) -> Result<(), AllocError>
        requires fires { All (MayFire F.Fn self.now.fire.now) wave.now.tasks.now }
        requires firings { Fires F.Fn self.now.fire.now (library self.now.lib.now) }
        requires wave { IsWave wave.now }
        requires seat { IsSeatOf wave.now.board.deal seat }
        requires channels { AreOf (library self.now.lib.now) receivers.old.items }
        requires sound { AreSound (library self.now.lib.now) progress.old.pending.attempts.items }
        requires accepted { IsAcceptedWithin progress.old }
        ensures comes { OnOk result (ComesInWave (library self.now.lib.now) wave.now
            view.old progress.old view.new progress.new) }
        ensures channels { AreOf (library self.now.lib.now) receivers.new.items }
        ensures waves { progress.new.counts.waves ≡ progress.old.counts.waves }
    {
        let Ok(mut worker) = Worker::new(self.alloc, wave, seat) else {
            return Ok(());
        };
        self.accept_each(&mut worker, view, progress, receivers)
    }

    /// Tries tasks by the owner's worker, and accepts attempts from the front as they arrive.
    fn accept_each(
        &self,
        worker: &mut Worker<'_>,
        view: &mut View,
        progress: &mut Progress,
        receivers: &mut Vec<Receiver<'_>>,
    ) -> Result<(), AllocError>
        requires fires { All (MayFire F.Fn self.now.fire.now) worker.old.wave.now.tasks.now }
        requires firings { Fires F.Fn self.now.fire.now (library self.now.lib.now) }
        requires wave { IsWave worker.old.wave.now }
        requires worker { IsWorker worker.old }
        requires channels { AreOf (library self.now.lib.now) receivers.old.items }
        requires sound { AreSound (library self.now.lib.now) progress.old.pending.attempts.items }
        requires accepted { IsAcceptedWithin progress.old }
        ensures comes { OnOk result (ComesInWave (library self.now.lib.now) worker.old.wave.now
            view.old progress.old view.new progress.new) }
        ensures channels { AreOf (library self.now.lib.now) receivers.new.items }
        ensures waves { progress.new.counts.waves ≡ progress.old.counts.waves }
    {
        let wave = worker.wave;
        for _ in 0..wave.tasks.len() {
            let Some(tried) = self.next_attempt(worker) else {
                break;
            };
            progress.pending.put(tried);
            progress.accept_sent(self.alloc, wave, view, receivers, wave.polls(1))?;
            worker.note_veto(progress.settled.end.is_some());
        }
        progress.accept_sent(self.alloc, wave, view, receivers, wave.polls(MAX_POLLS))
    }

    /// A worker's part of a wave: it tries tasks until none is left, and sends the attempts. It returns those for which
    /// the channel had no room.
    fn try_as_worker(&self, wave: &Wave<'_>, job: Job<'_>) -> Vec<Tried>
        requires fires { All (MayFire F.Fn self.now.fire.now) wave.now.tasks.now }
        requires firings { Fires F.Fn self.now.fire.now (library self.now.lib.now) }
        requires wave { IsWave wave.now }
        requires job { IsJob (library self.now.lib.now) wave.now job }
        ensures { AreSoundTries (library self.now.lib.now) result.items }
    {
        let Job { seat, mut sender } = job;
        let mut found = Vec::new(self.alloc);
        let Ok(mut worker) = Worker::new(self.alloc, wave, seat) else {
            return found;
        };
        for _ in 0..wave.tasks.len() {
            let Some(tried) = self.next_attempt(&mut worker) else {
                break;
            };
            hand_over(&mut sender, &mut found, tried);
        }
        found
    }

    /// Draws numbers and tries their tasks, up to the first that gives an attempt. `None` means that all numbers are
    /// drawn.
    fn next_attempt(&self, worker: &mut Worker<'_>) -> Option<Tried>
        requires fires { All (MayFire F.Fn self.now.fire.now) worker.old.wave.now.tasks.now }
        requires firings { Fires F.Fn self.now.fire.now (library self.now.lib.now) }
        requires wave { IsWave worker.old.wave.now }
        requires worker { IsWorker worker.old }
        ensures worker { IsWorker worker.new }
        ensures wave { worker.new.wave ≡ worker.old.wave }
        ensures sound { IfSome result (λ t. IsSound (library self.now.lib.now) (attempt_of t.attempt)) }
        ensures knows { OnlyLearns worker.old.pass worker.new.pass }
        ensures tried { IfSome result (IsTriedBy worker.old.wave.now worker.old.pass worker.new.pass) }
    {
        for _ in 0..worker.wave.tasks.len() {
            let number = worker.draw()?;
            if let Some(tried) = self.try_number(worker, number) {
                return Some(tried);
            }
        }
        None
    }

    /// Tries the task of a number, and posts what it wrote. If an attempt at the task is kept, its layer is posted
    /// instead. A worker that has given up still draws numbers, so that no other worker tries in vain what is left.
    fn try_number(&self, worker: &mut Worker<'_>, number: WaveIndex) -> Option<Tried>
        requires fires { All (MayFire F.Fn self.now.fire.now) worker.old.wave.now.tasks.now }
        requires firings { Fires F.Fn self.now.fire.now (library self.now.lib.now) }
        requires wave { IsWave worker.old.wave.now }
        requires worker { IsWorker worker.old }
        requires number { number < length worker.old.wave.now.board.cells }
        ensures worker { IsWorker worker.new }
        ensures wave { worker.new.wave ≡ worker.old.wave }
        ensures sound { IfSome result (λ t. IsSound (library self.now.lib.now) (attempt_of t.attempt)) }
        ensures knows { OnlyLearns worker.old.pass worker.new.pass }
        ensures tried { IfSome result (IsTriedBy worker.old.wave.now worker.old.pass worker.new.pass) }
    {
        if worker.has_given_up() {
            return None;
        }
        let wave = worker.wave;
        if let Some(layer) = kept_layer(wave, number) {
            worker.post(number, layer);
            return None;
        }
        let index = wave.index_of(number);
        self.gate.started(index);
        let tried = self.try_index(worker, number, index);
        self.gate.ended(index);
        tried
    }

    /// Tries the task of a number, at this index in its group. `None` means that memory ran out.
    fn try_index(
        &self,
        worker: &mut Worker<'_>,
        number: WaveIndex,
        index: GroupIndex,
    ) -> Option<Tried>
        requires fires { All (MayFire F.Fn self.now.fire.now) worker.old.wave.now.tasks.now }
        requires firings { Fires F.Fn self.now.fire.now (library self.now.lib.now) }
        requires wave { IsWave worker.old.wave.now }
        requires worker { IsWorker worker.old }
        requires number { number < length worker.old.wave.now.board.cells }
        requires index { index ≡ worker.old.wave.now.done + number }
        ensures worker { IsWorker worker.new }
        ensures wave { worker.new.wave ≡ worker.old.wave }
        ensures sound { IfSome result (λ t. IsSound (library self.now.lib.now) (attempt_of t.attempt)) }
        ensures knows { OnlyLearns worker.old.pass worker.new.pass }
        ensures tried { IfSome result (IsTriedBy worker.old.wave.now worker.old.pass worker.new.pass) }
    {
        let task = &worker.wave.tasks[index];
        let start = worker.start_of(number)?;
        let effort = Effort::new();
        let attempt = self.try_task(start, task, &effort).ok()?;
        if !worker.post(number, &attempt.layer) {
            return None;
        }
        worker.note(number, &attempt);
        Some(Tried {
            index,
            attempt,
            cost: effort.so_far(),
        })
    }

    /// The attempt at a task: it fires on a view of its start, in which the attempt's reads then held.
    fn try_task(&self, start: Snapshot, task: &Task, effort: &Effort) -> Result<Attempt, AllocError>
        requires fires { MayFire F.Fn self.now.fire.now task.now }
        requires firings { Fires F.Fn self.now.fire.now (library self.now.lib.now) }
        ensures sound { IfOk result (λ a. IsSound (library self.now.lib.now) (attempt_of a)) }
        ensures reads_held { IfOk result (λ a. Holds (cells_in start) a.reads) }
    {
        let mut view = View::new(self.alloc, start)?;
        let outcome = (self.fire)(&mut view, task, effort, self.width)?;
        attempt_on(view, task, outcome)
    }
}
