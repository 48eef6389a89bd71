//! What a firing gives, and attempts at firings.

use hp_rule::{Detached, Task};
use hp_store::Layer;
use hp_tree::Item;
use hp_value::Veto;
use hp_view::Reads;
use std::sync::Arc;

/// What the firing of a task gives, beside what it writes.
#[derive(Debug, Drop)]
pub struct Outcome {
    /// The veto with which the firing ended, if it did.
    pub end: Option<Veto>,
    /// The tasks that it queued for the deferred rounds, in order.
    pub queued: Vec<Task>,
    /// The tasks that it detached, in order.
    pub detached: Vec<Detached>,
    /// Its node.
    pub tree: Vec<Item>,
}

/// A task's firing as it was tried on a snapshot. It may stand for the firing on each state where its reads hold.
#[derive(Debug, Drop)]
pub struct Attempt {
    /// The task.
    pub task: Task,
    /// What it read of the snapshot.
    pub reads: Reads,
    /// What it wrote over the snapshot.
    pub layer: Arc<Layer>,
    /// What it gave.
    pub outcome: Outcome,
}
