//! Counts of a group with workers.

ghost use Rattle.std.specs.Prelude.{◌≡◌, ◌+◌, ◌^◌, ◌<◌, ◌≤◌, true, IfOk};
ghost use Rattle.std.specs.List.{slice_index_or};
ghost use Rattle.hp_fire.specs.Groups.{IsRetried, firsts};

use crate::speculate::index::GroupIndex;
use hp_attempt::Attempt;
use std::alloc::{AllocError, Global};
use std::collections::VecDeque;

/// How the tasks of a group came to be settled.
#[derive(Drop)]
pub(crate) struct Counts {
    /// For each task of the group, whether it was tried again after the first wave.
    pub(crate) retried: Vec<bool>,
    /// The number of tasks that were settled from their attempts of the first wave.
    pub(crate) accepted: usize,
    /// The number of waves.
    pub(crate) waves: usize,
    /// The number of attempts that the waves were to make.
    pub(crate) tried: usize,
    /// The number of tasks that were settled from attempts.
    pub(crate) kept: usize,
}

impl Counts {
    /// The counts of a group of this number of tasks, before its first wave.
    pub(crate) fn new(alloc: Global, tasks: usize) -> Result<Counts, AllocError>
        ensures { IfOk result (λ c. (c.accepted ≡ 0) × (c.waves ≡ 0)) }
    {
        Ok(Counts {
            retried: vec![in alloc; false; tasks]?,
            accepted: 0,
            waves: 0,
            tried: 0,
            kept: 0,
        })
    }

    /// The counts of a group that has no waves.
    pub(crate) fn none(alloc: Global) -> Counts
        ensures { (result.accepted ≡ 0) × (result.waves ≡ 0) }
    {
        Counts {
            retried: Vec::new(alloc),
            accepted: 0,
            waves: 0,
            tried: 0,
            kept: 0,
        }
    }

    /// A wave begins, after `done` tasks are settled. It tries the tasks without an attempt, and the first task in any
    /// case.
    pub(crate) fn begin_wave(&mut self, done: usize, attempts: &VecDeque<Option<Attempt>>)
        requires { self.old.waves + 1 < 2 ^ 64 }
        ensures same { let waves = self.old.waves + 1 in
            self.new ≡ record self.old { retried = self.new.retried; waves = waves; tried = self.new.tried } }
        ensures retried { 0 < self.old.waves → IsRetried self.new done }
    {
        if self.waves > 0 {
            self.mark_retried(done, attempts);
        }
        self.waves += 1;
        self.tried = self.tried.saturating_add(attempts.len());
    }

    // Marks the tasks that this wave tries again. The first task is one of them.
    fn mark_retried(&mut self, done: usize, attempts: &VecDeque<Option<Attempt>>)
        ensures same { self.new ≡ record self.old { retried = self.new.retried } }
        ensures retried { IsRetried self.new done }
    {
        for slot in 0..attempts.len() {
            if attempts[slot].is_none() {
                mark(&mut self.retried, done.saturating_add(slot));
            }
        }
        mark(&mut self.retried, done);
    }

    /// The next `count` tasks were settled from attempts. Those that were not tried again are counted as accepted.
    pub(crate) fn add_kept(&mut self, done: usize, count: usize)
        requires { (done + count < 2 ^ 64) × (self.old.accepted ≤ done) }
        ensures same { (self.new.waves ≡ self.old.waves) × (self.new.retried ≡ self.old.retried) }
        ensures exactly { let retried = self.old.retried.items in
            self.new.accepted + firsts retried done ≡ self.old.accepted + firsts retried (done + count) }
        ensures accepted { self.new.accepted ≤ self.old.accepted + count }
        ensures retried { 0 < count → IsRetried self.old done → self.new.accepted < self.old.accepted + count }
    {
        self.accepted += of_first_wave(&self.retried, done, count);
        self.kept = self.kept.saturating_add(count);
    }
}

// Marks a task as tried again.
fn mark(retried: &mut Vec<bool>, index: GroupIndex)
    ensures { slice_index_or retried.new.items index true ≡ true }
{
    if let Some(retried) = retried.get_mut(index) {
        *retried = true;
    }
}

// How many of `count` tasks from an index have their attempts from the first wave.
fn of_first_wave(retried: &[bool], from: usize, count: usize) -> usize
    requires { from + count < 2 ^ 64 }
    ensures exactly { result + firsts retried.now from ≡ firsts retried.now (from + count) }
    ensures most { result ≤ count }
    ensures retried { 0 < count → slice_index_or retried.now from true ≡ true → result < count }
{
    let mut first = 0usize;
    for number in 0..count {
        if let Some(false) = retried.get(from + number) {
            first += 1;
        }
    }
    first
}
