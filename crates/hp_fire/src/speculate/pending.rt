//! The attempts at the tasks of a group that aren't settled.

ghost use Rattle.std.specs.Prelude.{◌≡◌, ◌-◌, ◌≤◌, ◌<◌, IfOk, All, Some, length, slice_set};
ghost use Rattle.rtrb.specs.Ring.{received};
ghost use Rattle.hp_model.specs.Rules.{Library as ModelLibrary};
ghost use Rattle.hp_model.specs.Soundness.{IsSound};
ghost use Rattle.hp_attempt.specs.Fronts.{AreSound};
ghost use Rattle.hp_attempt.specs.Mapped.{attempt as attempt_of};
ghost use Rattle.hp_fire.specs.Channels.{IsOf};
ghost use Rattle.hp_fire.specs.Groups.{AreSoundTries, AreOf};

use crate::speculate::channel::{Receiver, receive};
use crate::speculate::index::GroupIndex;
use crate::speculate::past::{Effort, Past};
use crate::speculate::policy::CHANNEL_CAPACITY;
use hp_attempt::{Attempt, holds};
use hp_rule::Task;
use hp_view::View;
use std::alloc::{AllocError, Global};
use std::collections::VecDeque;

/// A worker's attempt at a task.
#[derive(Drop)]
pub struct Tried {
    /// The task's index in its group.
    pub(crate) index: GroupIndex,
    /// The attempt.
    pub(crate) attempt: Attempt,
    /// The cost of the attempt.
    pub(crate) cost: u64,
}

/// The attempts at the tasks of a group that aren't settled, and the costs of attempts.
#[derive(Drop)]
pub(crate) struct Pending {
    /// For each task that isn't settled, in order: the attempt at it, if there is one.
    pub(crate) attempts: VecDeque<Option<Attempt>>,
    /// For each task of the group: the cost of the last attempt at it; 0 if there was none, or if the owner ran the
    /// task.
    pub(crate) costs: Vec<u64>,
}

impl Pending {
    /// The pending tasks of a group of `tasks`, of which `settled` are settled. No task has been tried.
    pub(crate) fn new(alloc: Global, tasks: usize, settled: usize) -> Result<Pending, AllocError>
        ensures { IfOk result (λ p. (library : ModelLibrary) → AreSound library p.attempts.items) }
    {
        Ok(Pending {
            attempts: no_attempts(alloc, tasks.saturating_sub(settled))?,
            costs: vec![in alloc; 0; tasks]?,
        })
    }

    /// No place for attempts.
    pub(crate) fn none(alloc: Global) -> Pending
        ensures { (library : ModelLibrary) → AreSound library result.attempts.items }
    {
        Pending {
            attempts: VecDeque::new(alloc),
            costs: Vec::new(alloc),
        }
    }

    /// Whether several tasks have no attempt whose reads hold in the view's cells.
    pub(crate) fn lacks_several(&self, view: &View) -> bool {
        let mut lacks_one = false;
        for slot in &self.attempts {
            if may_stand(slot, view) {
                continue;
            }
            if lacks_one {
                return true;
            }
            lacks_one = true;
        }
        false
    }

    /// Drops the first attempt, and those whose reads don't hold in the view's cells.
    pub(crate) fn drop_first_and_stale(&mut self, view: &View)
        ensures { (library : ModelLibrary) → AreSound library self.old.attempts.items
            → AreSound library self.new.attempts.items }
    {
        for slot in 0..self.attempts.len() {
            if slot == 0 || !may_stand(&self.attempts[slot], view) {
                self.attempts[slot] = None;
            }
        }
    }

    /// The owner has run the first task.
    pub(crate) fn drop_first(&mut self)
        ensures { (library : ModelLibrary) → AreSound library self.old.attempts.items
            → AreSound library self.new.attempts.items }
    {
        let first = self.settled_count();
        self.set_cost(first, 0);
        drop(self.attempts.pop_front());
    }

    // Sets the cost of the last attempt at a task of the group.
    fn set_cost(&mut self, index: GroupIndex, cost: u64)
        ensures { self.new.attempts ≡ self.old.attempts }
    {
        if let Some(last) = self.costs.get_mut(index) {
            *last = cost;
        }
    }

    // The number of settled tasks of the group.
    fn settled_count(&self) -> usize
        ensures { result ≡ length self.now.costs.items - length self.now.attempts.items }
    {
        self.costs.len().saturating_sub(self.attempts.len())
    }

    /// Stores an attempt for its task, if that isn't settled.
    pub(crate) fn put(&mut self, tried: Tried)
        ensures sound { (library : ModelLibrary) → AreSound library self.old.attempts.items
            → IsSound library (attempt_of tried.attempt) → AreSound library self.new.attempts.items }
        ensures place { let first = length self.old.costs.items - length self.old.attempts.items in
            first ≤ tried.index → tried.index - first < length self.old.attempts.items →
            self.new.attempts.items ≡ slice_set self.old.attempts.items (tried.index - first) (Some tried.attempt) }
    {
        let Tried {
            index,
            attempt,
            cost,
        } = tried;
        let settled = self.settled_count();
        if index < settled {
            return;
        }
        self.set_cost(index, cost);
        self.set_attempt(index - settled, attempt);
    }

    // Stores the attempt at a task that isn't settled. The first of those has slot 0.
    fn set_attempt(&mut self, slot: usize, attempt: Attempt)
        ensures sound { (library : ModelLibrary) → AreSound library self.old.attempts.items
            → IsSound library (attempt_of attempt) → AreSound library self.new.attempts.items }
        ensures place { slot < length self.old.attempts.items →
            self.new.attempts.items ≡ slice_set self.old.attempts.items slot (Some attempt) }
    {
        if slot < self.attempts.len() {
            self.attempts[slot] = Some(attempt);
        }
    }

    // Stores attempts for their tasks.
    fn put_each(&mut self, tries: Vec<Tried>)
        ensures { (library : ModelLibrary) → AreSound library self.old.attempts.items
            → AreSoundTries library tries.items
            → AreSound library self.new.attempts.items }
    {
        for tried in tries {
            self.put(tried);
        }
    }

    // Stores what several workers have returned.
    fn put_all(&mut self, found: Vec<Vec<Tried>>)
        ensures { (library : ModelLibrary) → AreSound library self.old.attempts.items
            → All (λ tries. AreSoundTries library tries.items) found.items
            → AreSound library self.new.attempts.items }
    {
        for tries in found {
            self.put_each(tries);
        }
    }

    /// Stores what the workers of a wave return when they end; nothing if memory ran out.
    pub(crate) fn put_returned(&mut self, found: Result<Vec<Vec<Tried>>, AllocError>)
        ensures { (library : ModelLibrary) → AreSound library self.old.attempts.items
            → IfOk found (λ all. All (λ tries. AreSoundTries library tries.items) all.items)
            → AreSound library self.new.attempts.items }
    {
        let Ok(found) = found else {
            return;
        };
        self.put_all(found);
    }

    /// Stores the attempts that the workers of a wave have sent.
    pub(crate) fn receive_all(&mut self, receivers: &mut Vec<Receiver<'_>>)
        ensures channels { (library : ModelLibrary) → AreOf library receivers.old.items
            → AreOf library receivers.new.items }
        ensures sound { (library : ModelLibrary) → AreOf library receivers.old.items
            → AreSound library self.old.attempts.items → AreSound library self.new.attempts.items }
    {
        for worker in 0..receivers.len() {
            self.receive_from(&mut receivers[worker]);
        }
    }

    // Stores the attempts that one worker has sent.
    fn receive_from(&mut self, receiver: &mut Receiver<'_>)
        ensures channel { (library : ModelLibrary) → IsOf library (received receiver.old)
            → IsOf library (received receiver.new) }
        ensures sound { (library : ModelLibrary) → IsOf library (received receiver.old)
            → AreSound library self.old.attempts.items → AreSound library self.new.attempts.items }
    {
        for _ in 0..CHANNEL_CAPACITY {
            let Some(tried) = receive(receiver) else {
                return;
            };
            self.put(tried);
        }
    }

    /// Notes the costs of the attempts that were accepted for these tasks, as if the owner had fired the tasks.
    pub(crate) fn note_costs(&self, tasks: &[Task], past: &Past, effort: &Effort) {
        for (task, cost) in tasks.iter().zip(self.costs.iter()) {
            if *cost > 0 {
                past.note(task.rule, *cost);
                effort.add(*cost);
            }
        }
    }
}

// A list without attempts.
fn no_attempts(alloc: Global, tasks: usize) -> Result<VecDeque<Option<Attempt>>, AllocError>
    ensures { IfOk result (λ slots. (library : ModelLibrary) → AreSound library slots.items) }
{
    let mut attempts = VecDeque::new(alloc);
    for _ in 0..tasks {
        attempts.push_back(None)?;
    }
    Ok(attempts)
}

// Whether there is an attempt whose reads hold in the view's cells.
fn may_stand(slot: &Option<Attempt>, view: &View) -> bool {
    match slot {
        Some(attempt) => holds(&attempt.reads, view),
        None => false,
    }
}
