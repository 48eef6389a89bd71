//! Waves: workers and the owner of a group try the tasks that aren't settled, all at once.

ghost use Rattle.std.specs.Prelude.{◌≡◌, ◌+◌, ◌<◌, ℕ, All, IfOk, OnOk, length};
ghost use Rattle.rtrb.specs.Ring.{sent};
ghost use Rattle.hp_model.specs.Rules.{Library as ModelLibrary};
ghost use Rattle.hp_model.specs.Soundness.{IsSound};
ghost use Rattle.hp_rule.specs.Mapped.{library};
ghost use Rattle.hp_store.specs.Stack.{Stack};
ghost use Rattle.hp_board.specs.Deal.{IsSeatOf};
ghost use Rattle.hp_attempt.specs.Mapped.{attempt as attempt_of};
ghost use Rattle.hp_fire.specs.Channels.{IsOf, IsFrom};
ghost use Rattle.hp_fire.specs.Starts.{IsTriedFrom};
ghost use Rattle.hp_fire.specs.Groups.{AreSoundTries, IsWave, IsJob, AreOf};

use crate::speculate::channel::{Receiver, Sender, channel, send};
use crate::speculate::index::{GroupIndex, WaveIndex};
use crate::speculate::pending::Tried;
use hp_attempt::Attempt;
use hp_board::{Board, Posted, Seat};
use hp_rule::{Library, Task};
use hp_store::{Layer, Snapshot};
use std::alloc::{AllocError, Global};
use std::collections::VecDeque;
use std::sync::Arc;

/// What the workers of a wave and the owner of the group share.
#[derive(Drop)]
pub struct Wave<'a> {
    /// The tasks of the group.
    pub(crate) tasks: &'a [Task],
    /// How many of them were settled before the wave. The wave numbers the others from 0.
    pub(crate) done: usize,
    /// Whether a veto stops the group.
    pub(crate) stop_at_veto: bool,
    /// Whether workers are started even if they don't pay: it is the group of a call of `run_group`, and none inside.
    pub(crate) eager: bool,
    /// For each task of the wave, what its kept attempt wrote, if there is one. The list is empty if no attempt is
    /// kept.
    pub(crate) kept: Vec<Option<Arc<Layer>>>,
    /// The snapshot from which tasks start.
    pub(crate) snapshot: Snapshot,
    /// The board for numbers and layers.
    pub(crate) board: Board<Arc<Layer>>,
    /// Whether the owner accepts attempts during the wave. The first acceptance copies the view's writes, which the
    /// snapshot shares.
    pub(crate) early: bool,
}

impl Wave<'_> {
    /// The index in the group of the task of this number.
    pub(crate) fn index_of(&self, number: WaveIndex) -> GroupIndex
        requires wave { IsWave self.now }
        requires number { number < length self.now.board.cells }
        ensures { result ≡ self.now.done + number }
    {
        // It is counted from the end, so that no sum has to fit.
        let left = self.tasks.len() - self.done;
        self.tasks.len() - (left - number)
    }

    /// How often the owner polls for attempts at the end of the wave: `often` times, or never if accepting them early
    /// isn't cheap.
    pub(crate) fn polls(&self, often: usize) -> usize {
        if self.early { often } else { 0 }
    }
}

/// What one worker is given.
#[derive(Drop)]
pub struct Job<'a> {
    /// Its seat at the board.
    pub(crate) seat: Seat,
    /// Its end of the channel to the owner.
    pub(crate) sender: Sender<'a>,
}

/// A job for each seat, and the owner's ends of the channels.
pub(crate) fn jobs_for<'a>(
    alloc: Global,
    lib: &'a Library,
    wave: &'a Wave<'_>,
    seats: Vec<Seat>,
) -> Result<(Vec<Job<'a>>, Vec<Receiver<'a>>), AllocError>
    requires { All (IsSeatOf wave.now.board.deal) seats.items }
    ensures jobs { IfOk result (λ r. All (IsJob (library lib.entry.now) wave.entry.now) r.0.items) }
    ensures receivers { IfOk result (λ r. AreOf (library lib.entry.now) r.1.items) }
{
    let mut jobs = Vec::new(alloc);
    let mut receivers = Vec::new(alloc);
    for seat in seats {
        add_job(alloc, lib, wave, seat, &mut jobs, &mut receivers)?;
    }
    Ok((jobs, receivers))
}

// Adds a job for a seat, and the owner's end of its channel.
fn add_job<'a>(
    alloc: Global,
    lib: &'a Library,
    wave: &'a Wave<'_>,
    seat: Seat,
    jobs: &mut Vec<Job<'a>>,
    receivers: &mut Vec<Receiver<'a>>,
) -> Result<(), AllocError>
    requires { IsSeatOf wave.now.board.deal seat }
    ensures jobs { OnOk result (All (IsJob (library lib.entry.now) wave.entry.now) jobs.old.items
        → All (IsJob (library lib.entry.now) wave.entry.now) jobs.new.items) }
    ensures receivers { OnOk result (AreOf (library lib.entry.now) receivers.old.items
        → AreOf (library lib.entry.now) receivers.new.items) }
{
    jobs.reserve(1)?;
    receivers.reserve(1)?;
    let (sender, receiver) = channel(alloc, lib, &wave.snapshot, wave.done)?;
    jobs.push_reserved(Job { seat, sender });
    receivers.push_reserved(receiver);
    Ok(())
}

/// What the kept attempts wrote. The list is empty if no attempt is kept.
pub(crate) fn kept_layers(
    alloc: Global,
    attempts: &VecDeque<Option<Attempt>>,
) -> Result<Vec<Option<Arc<Layer>>>, AllocError> {
    let mut layers = Vec::new(alloc);
    if !is_any_kept(attempts) {
        return Ok(layers);
    }
    for slot in attempts {
        match slot {
            Some(attempt) => layers.push(Some(Arc::try_clone(&attempt.layer)?))?,
            None => layers.push(None)?,
        }
    }
    Ok(layers)
}

// Whether an attempt is kept.
fn is_any_kept(attempts: &VecDeque<Option<Attempt>>) -> bool {
    for slot in attempts {
        if slot.is_some() {
            return true;
        }
    }
    false
}

/// What the kept attempt at a task wrote, if there is one.
pub(crate) fn kept_layer<'a>(wave: &'a Wave<'_>, number: WaveIndex) -> Option<&'a Arc<Layer>> {
    wave.kept.get(number)?.as_ref()
}

/// A layer as it is posted.
pub(crate) fn boxed(alloc: Global, layer: &Arc<Layer>) -> Result<Posted<Arc<Layer>>, AllocError> {
    Posted::new(alloc, Arc::try_clone(layer)?)
}

/// Hands an attempt to the owner: sends it, or keeps it until the worker ends if the channel is full.
pub(crate) fn hand_over(sender: &mut Sender<'_>, found: &mut Vec<Tried>, tried: Tried)
    requires sound { (l : ModelLibrary) → IsOf l (sent sender.old) → IsSound l (attempt_of tried.attempt) }
    requires tried { (s : Stack) (n : ℕ) → IsFrom s n (sent sender.old) → IsTriedFrom s n tried }
    ensures channel { (l : ModelLibrary) → IsOf l (sent sender.old) → IsOf l (sent sender.new) }
    ensures channel_from { (s : Stack) (n : ℕ) → IsFrom s n (sent sender.old) → IsFrom s n (sent sender.new) }
    ensures found { (l : ModelLibrary) → IsOf l (sent sender.old) → AreSoundTries l found.old.items
        → AreSoundTries l found.new.items }
{
    let Some(back) = send(sender, tried) else {
        return;
    };
    if found.reserve(1).is_ok() {
        found.push_reserved(back);
    }
}
