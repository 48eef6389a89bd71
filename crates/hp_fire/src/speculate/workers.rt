//! Who tries the tasks of a group ahead of their turn.

ghost use Rattle.std.specs.Prelude.{IfOk};
ghost use Rattle.std.specs.Bool.{⊤};
ghost use Rattle.std.specs.Thread.{IsSync};
ghost use Rattle.hp_rule.specs.Mapped.{library};
ghost use Rattle.hp_fire.specs.Statements.{TaskFires};
ghost use Rattle.hp_fire.specs.Trying.{MayTry, HasTried, Tries};

use crate::engine::Engine;
use crate::speculate::channel::Receiver;
use crate::speculate::gate::{Gate, NoGate};
use crate::speculate::past::Effort;
use crate::speculate::pending::Tried;
use crate::speculate::progress::Progress;
use crate::speculate::trial::Trial;
use crate::speculate::wave::{Job, Wave};
use hp_attempt::Outcome;
use hp_board::Seat;
use hp_rule::Task;
use hp_view::View;
use std::alloc::{AllocError, Global};
use std::thread::Threads;

/// What the workers of a wave return, and whether memory sufficed to accept attempts.
pub type Found = (Result<Vec<Vec<Tried>>, AllocError>, Result<(), AllocError>);

/// Who tries the tasks of a group ahead of their turn. The outcome of a group is the same with all of them.
///
/// Only this crate has implementations, since no other can name what a wave is given.
pub trait Workers {
    // Workers on threads are ready if their threads may share the runtime, and `Alone` always is.
    ghost ready: { Self → Type 0 };

    /// Tries the tasks of a wave by this engine, to which the implementation gives the workers of groups inside an
    /// attempt. The owner's part accepts the front of the attempts on the view.
    fn try_all(
        &self,
        engine: &Engine<'_, Alone>,
        wave: &Wave<'_>,
        seats: (Seat, Vec<Job<'_>>),
        view: &mut View,
        progress: &mut Progress,
        receivers: &mut Vec<Receiver<'_>>,
    ) -> Found
        requires ready { ready self.now }
        requires may { MayTry (library engine.now.lib.now) wave.now seats progress.old receivers.old }
        ensures { HasTried (library engine.now.lib.now) wave.now view.old view.new
            progress.old progress.new receivers.new result };
}

/// No workers: nothing is tried ahead, and no thread is started. The owner fires each task.
#[derive(Clone, Copy)]
pub struct Alone;

impl Workers for Alone {
    ghost ready = { λ _. ⊤ };

    fn try_all(
        &self,
        engine: &Engine<'_, Alone>,
        _wave: &Wave<'_>,
        _seats: (Seat, Vec<Job<'_>>),
        _view: &mut View,
        _progress: &mut Progress,
        _receivers: &mut Vec<Receiver<'_>>,
    ) -> Found {
        (Ok(Vec::new(engine.alloc)), Ok(()))
    }
}

/// Workers on threads of their own. Groups inside an attempt have such workers too, and groups inside their attempts
/// have none.
#[derive(Drop)]
pub struct ByThreads<'a, R> {
    rt: &'a R,
}

impl<'a, R> ByThreads<'a, R> {
    /// Workers on threads that `rt` starts.
    pub fn new(rt: &'a R) -> ByThreads<'a, R> {
        ByThreads { rt }
    }
}

impl<R: Threads + Sync> Workers for ByThreads<'_, R> {
    ghost ready = { λ _. IsSync R.row };

    fn try_all(
        &self,
        engine: &Engine<'_, Alone>,
        wave: &Wave<'_>,
        seats: (Seat, Vec<Job<'_>>),
        view: &mut View,
        progress: &mut Progress,
        receivers: &mut Vec<Receiver<'_>>,
    ) -> Found {
        let threads = Gated {
            rt: self.rt,
            gate: &NoGate,
        };
        threads.try_outside(engine, wave, seats, view, progress, receivers)
    }
}

/// The workers of groups inside an attempt: threads, too. Groups inside their attempts have none.
#[derive(Drop)]
struct Nested<'a, R> {
    rt: &'a R,
}

impl<R: Threads + Sync> Workers for Nested<'_, R> {
    ghost ready = { λ _. IsSync R.row };

    fn try_all(
        &self,
        engine: &Engine<'_, Alone>,
        wave: &Wave<'_>,
        seats: (Seat, Vec<Job<'_>>),
        view: &mut View,
        progress: &mut Progress,
        receivers: &mut Vec<Receiver<'_>>,
    ) -> Found {
        let threads = Gated {
            rt: self.rt,
            gate: &NoGate,
        };
        let engine = engine.inside(engine.effort, 1);
        threads.try_with(&engine, wave, seats, view, progress, receivers)
    }
}

/// Workers by a function that tries a wave.
#[derive(Drop)]
pub(crate) struct By<'a, F> {
    /// The function.
    pub(crate) tries: &'a F,
}

impl<
    F: Fn(
        &Engine<'_, Alone>,
        &Wave<'_>,
        (Seat, Vec<Job<'_>>),
        &mut View,
        &mut Progress,
        &mut Vec<Receiver<'_>>,
    ) -> Found,
> Workers for By<'_, F> {
    ghost ready = { λ b. Tries F.Fn b.tries.now };

    fn try_all(
        &self,
        engine: &Engine<'_, Alone>,
        wave: &Wave<'_>,
        seats: (Seat, Vec<Job<'_>>),
        view: &mut View,
        progress: &mut Progress,
        receivers: &mut Vec<Receiver<'_>>,
    ) -> Found {
        (self.tries)(engine, wave, seats, view, progress, receivers)
    }
}

/// Threads, and a gate that is notified of the tasks that they try.
#[derive(Drop)]
pub(crate) struct Gated<'a, R, G> {
    /// Starts threads.
    pub(crate) rt: &'a R,
    /// The gate.
    pub(crate) gate: &'a G,
}

impl<R: Threads + Sync, G: Gate + Sync> Gated<'_, R, G> {
    /// Tries the tasks of a wave by this engine. Groups inside an attempt have workers on threads, too.
    pub(crate) fn try_outside(
        &self,
        engine: &Engine<'_, Alone>,
        wave: &Wave<'_>,
        seats: (Seat, Vec<Job<'_>>),
        view: &mut View,
        progress: &mut Progress,
        receivers: &mut Vec<Receiver<'_>>,
    ) -> Found
        requires may { MayTry (library engine.now.lib.now) wave.now seats progress.old receivers.old }
        ensures { HasTried (library engine.now.lib.now) wave.now view.old view.new
            progress.old progress.new receivers.new result }
    {
        let inner = Nested { rt: self.rt };
        let engine = engine.with_workers(&inner);
        self.try_with(&engine, wave, seats, view, progress, receivers)
    }

    // Tries the tasks of a wave by this engine, as it is.
    fn try_with<I: Workers + Sync>(
        &self,
        engine: &Engine<'_, I>,
        wave: &Wave<'_>,
        seats: (Seat, Vec<Job<'_>>),
        view: &mut View,
        progress: &mut Progress,
        receivers: &mut Vec<Receiver<'_>>,
    ) -> Found
        requires ready { I.ready engine.now.workers.now }
        requires may { MayTry (library engine.now.lib.now) wave.now seats progress.old receivers.old }
        ensures { HasTried (library engine.now.lib.now) wave.now view.old view.new
            progress.old progress.new receivers.new result }
    {
        let fire = |view: &mut View, task: &Task, effort: &Effort, width: usize| -> Result<
            Outcome,
            AllocError,
        >
            requires { I.ready engine.now.workers.now }
            ensures { IfOk result (TaskFires engine.entry.now.lib.now task.now view.old view.new) }
        { engine.inside(effort, width).fire_task(view, task) };
        let trial = Trial {
            rt: self.rt,
            alloc: engine.alloc,
            lib: engine.lib,
            gate: self.gate,
            fire: &fire,
            width: engine.width,
        };
        trial.try_all(wave, seats, view, progress, receivers)
    }
}
