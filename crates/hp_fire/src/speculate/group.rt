//! Groups of sibling firings.

ghost use Rattle.std.specs.Prelude.{◌≡◌, ◌+◌, ◌<◌, ◌≤◌, None, false, IfOk, OnOk, OnErr, All, map, option_map, length};
ghost use Rattle.hp_value.specs.Mapped.{veto as veto_in};
ghost use Rattle.hp_rule.specs.Mapped.{library, task as task_of};
ghost use Rattle.hp_board.specs.Deal.{IsSeatOf};
ghost use Rattle.hp_attempt.specs.Fronts.{AreSound};
ghost use Rattle.hp_fire.specs.Given.{MayFire, Fires};
ghost use Rattle.hp_fire.specs.Groups.{IsSoFar, GoesOnBelow, IsAcceptedWithin, IsCounted, Advances, ComesByWave};
ghost use Rattle.hp_fire.specs.Groups.{IsWave, IsJob, AreOf, ComesInWave};
ghost use Rattle.hp_fire.specs.Statements.{SiblingsFire, TaskFires};

use crate::course::GroupOutcome;
use crate::engine::Engine;
use crate::speculate::channel::Receiver;
use crate::speculate::past::Effort;
use crate::speculate::policy::{do_workers_pay, is_time_to_ask};
use crate::speculate::progress::Progress;
use crate::speculate::settled::Settled;
use crate::speculate::start::{Plan, Start, prepare};
use crate::speculate::wave::{Job, Wave, jobs_for};
use crate::speculate::workers::{Alone, Workers};
use hp_attempt::Outcome;
use hp_board::Seat;
use hp_rule::Task;
use hp_view::View;
use std::alloc::AllocError;

/// A group of sibling firings, and what its owner is given.
///
/// All that it knows of a firing is `fire`.
pub(crate) struct Group<'a, W, F> {
    /// The engine: its workers try tasks ahead of their turn.
    pub(crate) engine: Engine<'a, W>,
    /// The tasks.
    pub(crate) tasks: &'a [Task],
    /// Whether nothing fires after a vetoed task.
    pub(crate) stop_at_veto: bool,
    /// Whether workers are started even if they don't pay.
    pub(crate) eager: bool,
    /// Fires a task on a view, on the owner's thread. It counts the work, and uses at most the given number of threads.
    pub(crate) fire: &'a F,
}

// By hand, since a derived `clone` copies field by field, and its proof takes as long as that of a long function.
impl<'a, W, F> Clone for Group<'a, W, F> {
    fn clone(&self) -> Result<Group<'a, W, F>, AllocError> {
        Ok(*self)
    }
}

impl<'a, W, F> Copy for Group<'a, W, F> {}

impl<W: Workers, F: Fn(&mut View, &Task, &Effort, usize) -> Result<Outcome, AllocError>> Group<
    '_,
    W,
    F,
> {
    /// Fires the tasks as siblings, in their order. The owner begins alone. With several tasks and threads, and enough
    /// work left, workers try the other tasks ahead of their turn.
    pub(crate) fn run(&self, view: &mut View) -> Result<GroupOutcome, AllocError>
        requires ready { W.ready self.now.engine.workers.now }
        requires fires { All (MayFire F.Fn self.now.fire.now) self.now.tasks.now }
        requires firings { Fires F.Fn self.now.fire.now (library self.now.engine.lib.now) }
        ensures runs { let stops = self.now.stop_at_veto in
            IfOk result (SiblingsFire self.now.engine.lib.now stops self.now.tasks.now view.old view.new) }
        ensures counted { IfOk result (λ g. g.accepted + g.reran ≡ length g.outcomes.items) }
        ensures waves { IfOk result (λ g. g.waves ≤ g.reran + 1) }
        ensures alone { self.now.engine.width < 2 → IfOk result (λ g. g.waves ≡ 0) }
    {
        let settled = self.fire_before_workers(view)?;
        if !settled.goes_on(self.tasks.len()) {
            return Ok(GroupOutcome::of_owner(settled.outcomes, settled.end));
        }
        let mut progress = Progress::after(self.engine.alloc, settled, self.tasks.len());
        while progress.settled.goes_on(self.tasks.len()) {
            self.advance(view, &mut progress)?;
        }
        progress
            .pending
            .note_costs(self.tasks, self.engine.past, self.engine.effort);
        Ok(progress.into_outcome())
    }

    /// Fires tasks on the owner's thread, in their order, until it is time to start workers.
    fn fire_before_workers(&self, view: &mut View) -> Result<Settled, AllocError>
        requires fires { All (MayFire F.Fn self.now.fire.now) self.now.tasks.now }
        requires firings { Fires F.Fn self.now.fire.now (library self.now.engine.lib.now) }
        ensures so_far { let stops = self.now.stop_at_veto in let tasks = map task_of self.now.tasks.now in
            IfOk result (λ s. IsSoFar (library self.now.engine.lib.now) stops tasks view.old view.new
            s.outcomes.items (option_map veto_in s.end)) }
        ensures one_thread { self.now.engine.width < 2 → IfOk result (λ s. s.end ≡ None
            → length self.now.tasks.now ≤ length s.outcomes.items) }
    {
        let before = self.engine.effort.so_far();
        let mut settled = Settled::new(self.engine.alloc, self.tasks.len())?;
        for task in self.tasks {
            let cost = self.engine.effort.so_far().saturating_sub(before);
            if self.starts_workers(settled.outcomes.len(), cost) {
                return Ok(settled);
            }
            let outcome = self.fire_counted(view, task)?;
            settled.add(outcome, self.stop_at_veto)?;
            if settled.end.is_some() {
                return Ok(settled);
            }
        }
        Ok(settled)
    }

    /// Whether workers should try the tasks that are left, after the owner has fired `fired` tasks at a cost of
    /// `cost`.
    fn starts_workers(&self, fired: usize, cost: u64) -> bool
        ensures { self.now.engine.width < 2 → result ≡ false }
    {
        let left = self.tasks.len().saturating_sub(fired);
        if self.engine.width < 2 || left < 2 {
            return false;
        }
        if self.eager || !is_time_to_ask(fired) {
            return self.eager;
        }
        let mean = cost / (fired as u64).max(1);
        do_workers_pay(
            self.engine.past,
            &self.tasks[fired.min(self.tasks.len())..],
            mean,
        )
    }

    /// Fires a task on the owner's thread, and notes the cost for its rule.
    fn fire_counted(&self, view: &mut View, task: &Task) -> Result<Outcome, AllocError>
        requires fires { MayFire F.Fn self.now.fire.now task.now }
        requires firings { Fires F.Fn self.now.fire.now (library self.now.engine.lib.now) }
        ensures { IfOk result (TaskFires self.now.engine.lib.now task.now view.old view.new) }
    {
        let before = self.engine.effort.so_far();
        let outcome = (self.fire)(view, task, self.engine.effort, self.engine.width)?;
        let cost = self.engine.effort.so_far().saturating_sub(before);
        self.engine.past.note(task.rule, cost);
        Ok(outcome)
    }

    /// Settles at least one task: by a wave if one is due, otherwise by a run on the owner's thread. Then accepts the
    /// front of the attempts.
    fn advance(&self, view: &mut View, progress: &mut Progress) -> Result<(), AllocError>
        requires ready { W.ready self.now.engine.workers.now }
        requires fires { All (MayFire F.Fn self.now.fire.now) self.now.tasks.now }
        requires firings { Fires F.Fn self.now.fire.now (library self.now.engine.lib.now) }
        requires going { GoesOnBelow progress.old.settled (length self.now.tasks.now) }
        requires counted { IsCounted progress.old }
        requires sound { AreSound (library self.now.engine.lib.now) progress.old.pending.attempts.items }
        ensures { let tasks = map task_of self.now.tasks.now in
            OnOk result (Advances (library self.now.engine.lib.now) self.now.stop_at_veto tasks
            view.old progress.old view.new progress.new) }
    {
        let done = progress.settled.outcomes.len();
        self.settle_by_wave(view, progress)?;
        if progress.settled.outcomes.len() > done {
            return Ok(());
        }
        let first = &self.tasks[done];
        let outcome = self.fire_counted(view, first)?;
        progress.add(outcome, self.stop_at_veto)?;
        progress.settle(self.engine.alloc, view, self.tasks, self.stop_at_veto)?;
        Ok(())
    }

    /// Runs a wave if one is due, which settles tasks from their attempts. If memory runs out before the wave begins,
    /// there is no wave. An error means that memory ran out in a wave.
    fn settle_by_wave(&self, view: &mut View, progress: &mut Progress) -> Result<(), AllocError>
        requires ready { W.ready self.now.engine.workers.now }
        requires fires { All (MayFire F.Fn self.now.fire.now) self.now.tasks.now }
        requires firings { Fires F.Fn self.now.fire.now (library self.now.engine.lib.now) }
        requires going { GoesOnBelow progress.old.settled (length self.now.tasks.now) }
        requires counted { IsCounted progress.old }
        requires sound { AreSound (library self.now.engine.lib.now) progress.old.pending.attempts.items }
        ensures comes { let tasks = map task_of self.now.tasks.now in
            OnOk result (ComesByWave (library self.now.engine.lib.now) self.now.stop_at_veto tasks
            view.old progress.old view.new progress.new) }
        ensures begun { OnErr result (progress.old.counts.waves < progress.new.counts.waves) }
    {
        if !progress.is_wave_due(view, self.engine.width) {
            return Ok(());
        }
        let plan = Plan {
            lib: self.engine.lib,
            tasks: self.tasks,
            done: progress.settled.outcomes.len(),
            stop_at_veto: self.stop_at_veto,
            eager: self.eager,
            width: self.engine.width,
        };
        let Ok(start) = prepare(plan, self.engine.alloc, view, &mut progress.pending) else {
            // Memory ran out: the owner runs the next task.
            return Ok(());
        };
        let Start { wave, seat, seats } = start;
        let Ok((jobs, mut receivers)) = jobs_for(self.engine.alloc, self.engine.lib, &wave, seats)
        else {
            return Ok(());
        };
        progress.begin_wave();
        self.run_wave(&wave, (seat, jobs), &mut receivers, view, progress)
    }

    /// Workers and the owner try the tasks that aren't settled, while the owner accepts the front of the attempts.
    ///
    /// An error means that memory ran out while the owner accepted attempts.
    fn run_wave(
        &self,
        wave: &Wave<'_>,
        seats: (Seat, Vec<Job<'_>>),
        receivers: &mut Vec<Receiver<'_>>,
        view: &mut View,
        progress: &mut Progress,
    ) -> Result<(), AllocError>
        requires ready { W.ready self.now.engine.workers.now }
        requires wave { IsWave wave.now }
        requires seat { IsSeatOf wave.now.board.deal seats.0 }
        requires jobs { All (IsJob (library self.now.engine.lib.now) wave.now) seats.1.items }
        requires channels { AreOf (library self.now.engine.lib.now) receivers.old.items }
        requires accepted { IsAcceptedWithin progress.old }
        requires sound { AreSound (library self.now.engine.lib.now) progress.old.pending.attempts.items }
        ensures comes { OnOk result (ComesInWave (library self.now.engine.lib.now) wave.now
            view.old progress.old view.new progress.new) }
        ensures waves { progress.new.counts.waves ≡ progress.old.counts.waves }
    {
        let width = (self.engine.width / (seats.1.len() + 1)).max(1);
        let engine = Engine::counting(
            &Alone,
            self.engine.alloc,
            self.engine.lib,
            width,
            self.engine.past,
            self.engine.effort,
        );
        let (found, accepted) = self
            .engine
            .workers
            .try_all(&engine, wave, seats, view, progress, receivers);
        progress.pending.put_returned(found);
        accepted?;
        progress.accept_sent(self.engine.alloc, wave, view, receivers, 1)
    }
}
