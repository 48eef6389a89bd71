//! The progress of a group with workers.

ghost use Rattle.std.specs.Prelude.{◌≡◌, ◌+◌, ◌-◌, ◌^◌, ◌<◌, [], ◌∷◌, ◌++◌, None, IsSome, IfOk, OnOk};
ghost use Rattle.std.specs.Prelude.{length, drop, map, option_map};
ghost use Rattle.hp_value.specs.Mapped.{veto as veto_in};
ghost use Rattle.hp_model.specs.Rules.{Library as ModelLibrary};
ghost use Rattle.hp_rule.specs.Mapped.{task as task_of};
ghost use Rattle.hp_view.specs.Seeing.{now_in};
ghost use Rattle.hp_attempt.specs.Fronts.{AreSound, stopped_by};
ghost use Rattle.hp_fire.specs.Groups.{Comes, IsAcceptedWithin, IsAhead, IsRetried};
ghost use Rattle.hp_fire.specs.Settling.{SettlesFront};

use crate::course::GroupOutcome;
use crate::speculate::channel::Receiver;
use crate::speculate::counts::Counts;
use crate::speculate::pending::Pending;
use crate::speculate::policy::do_waves_pay;
use crate::speculate::settled::Settled;
use crate::speculate::wave::Wave;
use hp_attempt::{Outcome, settle_front};
use hp_rule::Task;
use hp_view::View;
use std::alloc::{AllocError, Global};
use std::collections::VecDeque;
use std::hint::spin_loop;
use std::mem;

/// The progress of a group with workers.
#[derive(Drop)]
pub struct Progress {
    /// The settled tasks.
    pub(crate) settled: Settled,
    /// The attempts at the other tasks.
    pub(crate) pending: Pending,
    /// How the settled tasks came to be settled.
    pub(crate) counts: Counts,
}

impl Progress {
    /// A group whose first tasks are settled, and of whose other tasks none has been tried. If memory runs out, it has
    /// no place for attempts: then no wave is ever due, and the owner runs all tasks.
    pub(crate) fn after(alloc: Global, settled: Settled, tasks: usize) -> Progress
        ensures begins { (result.settled ≡ settled) × (result.counts.accepted ≡ 0) × (result.counts.waves ≡ 0) }
        ensures sound { (library : ModelLibrary) → AreSound library result.pending.attempts.items }
    {
        match places_for(alloc, tasks, settled.outcomes.len()) {
            Ok((pending, counts)) => Progress {
                settled,
                pending,
                counts,
            },
            Err(_) => Progress {
                settled,
                pending: Pending::none(alloc),
                counts: Counts::none(alloc),
            },
        }
    }

    /// Whether workers should try the tasks that aren't settled: there are several workers, several tasks have no
    /// attempt whose reads hold in the view's cells, and the waves so far have paid.
    pub(crate) fn is_wave_due(&self, view: &View, width: usize) -> bool {
        width >= 2
            && do_waves_pay(self.counts.tried, self.counts.kept)
            && self.pending.lacks_several(view)
    }

    /// A wave begins. It tries the tasks without an attempt, and the first task in any case.
    pub(crate) fn begin_wave(&mut self)
        requires { self.old.counts.waves + 1 < 2 ^ 64 }
        ensures same { self.new ≡ record self.old { counts = self.new.counts } }
        ensures counts { let new = self.new.counts in let waves = self.old.counts.waves + 1 in
            new ≡ record self.old.counts { retried = new.retried; waves = waves; tried = new.tried } }
        ensures retried { 0 < self.old.counts.waves
            → IsRetried self.new.counts (length self.old.settled.outcomes.items) }
    {
        let done = self.settled.outcomes.len();
        self.counts.begin_wave(done, &self.pending.attempts);
    }

    /// Accepts the front of the attempts, unless a veto has stopped the group: those from the next task on, in their
    /// order, up to a task that has no attempt of its own that holds, or a veto that stops the group. The others stay.
    pub(crate) fn settle(
        &mut self,
        alloc: Global,
        view: &mut View,
        tasks: &[Task],
        stop_at_veto: bool,
    ) -> Result<(), AllocError>
        requires { IsAcceptedWithin self.old }
        ensures waves { self.new.counts.waves ≡ self.old.counts.waves }
        ensures ahead { OnOk result (IsAhead self.old self.new) }
        ensures comes { OnOk result ((library : ModelLibrary) → AreSound library self.old.pending.attempts.items
            → Comes library stop_at_veto (map task_of tasks.now) view.old self.old view.new self.new) }
        ensures stopped { IsSome self.old.settled.end → (self.new ≡ self.old) × (view.new ≡ view.old) }
        ensures front { self.old.settled.end ≡ None
            → OnOk result (SettlesFront stop_at_veto (map task_of tasks.now) (now_in view.new) self.old self.new) }
    {
        if self.settled.end.is_some() {
            return Ok(());
        }
        let done = self.settled.outcomes.len();
        let attempts = mem::replace(&mut self.pending.attempts, VecDeque::new(alloc));
        let left = left_of(tasks, done);
        let (front, rest) = settle_front(alloc, view, left, attempts, stop_at_veto)?;
        let count = front.len();
        self.pending.attempts = rest;
        self.settled.add_front(front, stop_at_veto)?;
        self.counts.add_kept(done, count);
        Ok(())
    }

    /// Adds the firing of the next task, which the owner ran.
    pub(crate) fn add(&mut self, outcome: Outcome, stop_at_veto: bool) -> Result<(), AllocError>
        ensures outcomes { OnOk result (self.new.settled.outcomes.items
            ≡ self.old.settled.outcomes.items ++ outcome ∷ []) }
        ensures end { OnOk result (option_map veto_in self.new.settled.end
            ≡ stopped_by stop_at_veto (outcome ∷ [])) }
        ensures counts { self.new.counts ≡ self.old.counts }
        ensures sound { OnOk result ((library : ModelLibrary) → AreSound library self.old.pending.attempts.items
            → AreSound library self.new.pending.attempts.items) }
    {
        self.pending.drop_first();
        self.settled.add(outcome, stop_at_veto)?;
        Ok(())
    }

    /// The result of the group.
    pub(crate) fn into_outcome(self) -> GroupOutcome
        requires { IsAcceptedWithin self }
        ensures { let reran = length self.settled.outcomes.items - self.counts.accepted in
            let accepted = self.counts.accepted in let waves = self.counts.waves in
            result ≡ record {
              outcomes = self.settled.outcomes;
              end = self.settled.end;
              accepted = accepted;
              reran = reran;
              waves = waves;
            } }
    {
        let Progress {
            settled: Settled { outcomes, end },
            pending: _,
            counts,
        } = self;
        let reran = outcomes.len() - counts.accepted;
        GroupOutcome {
            outcomes,
            end,
            accepted: counts.accepted,
            reran,
            waves: counts.waves,
        }
    }
}

impl Progress {
    ghost use Rattle.std.specs.Prelude.{◌≡◌, OnOk};
    ghost use Rattle.hp_model.specs.Rules.{Library as ModelLibrary};
    ghost use Rattle.hp_attempt.specs.Fronts.{AreSound};
    ghost use Rattle.hp_fire.specs.Groups.{AreOf, ComesInWave, IsAcceptedWithin};

    /// Accepts what the workers of a wave have sent: stores the attempts, and accepts the front. It repeats this while
    /// the attempt at the next task is missing, but polls at most `polls` times.
    pub(crate) fn accept_sent(
        &mut self,
        alloc: Global,
        wave: &Wave<'_>,
        view: &mut View,
        receivers: &mut Vec<Receiver<'_>>,
        polls: usize,
    ) -> Result<(), AllocError>
        requires { IsAcceptedWithin self.old }
        ensures waves { self.new.counts.waves ≡ self.old.counts.waves }
        ensures channels { (l : ModelLibrary) → AreOf l receivers.old.items → AreOf l receivers.new.items }
        ensures comes { OnOk result ((l : ModelLibrary) → AreOf l receivers.old.items
            → AreSound l self.old.pending.attempts.items
            → ComesInWave l wave.now view.old self.old view.new self.new) }
    {
        for _ in 0..polls {
            self.pending.receive_all(receivers);
            self.settle(alloc, view, wave.tasks, wave.stop_at_veto)?;
            if !self.lacks_next(wave) {
                break;
            }
            spin_loop();
        }
        Ok(())
    }

    // Whether the attempt at the next task is missing.
    fn lacks_next(&self, wave: &Wave<'_>) -> bool {
        let is_missing = matches!(self.pending.attempts.front(), Some(None));
        is_missing && self.settled.goes_on(wave.tasks.len())
    }
}

// Places for the attempts at the tasks of a group that aren't settled, and counts, before its first wave.
fn places_for(alloc: Global, tasks: usize, settled: usize) -> Result<(Pending, Counts), AllocError>
    ensures sound { IfOk result (λ r. (library : ModelLibrary) → AreSound library r.0.attempts.items) }
    ensures counts { IfOk result (λ r. (r.1.accepted ≡ 0) × (r.1.waves ≡ 0)) }
{
    let pending = Pending::new(alloc, tasks, settled)?;
    let counts = Counts::new(alloc, tasks)?;
    Ok((pending, counts))
}

// The tasks after the first `done`.
fn left_of(tasks: &[Task], done: usize) -> &[Task]
    ensures { result.now ≡ drop done tasks.now }
{
    &tasks[done.min(tasks.len())..]
}
