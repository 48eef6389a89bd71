//! Reports of units.

use crate::node::{Ending, Item};
use hp_value::{Coupling, RuleNo};

/// The report of a top-level transaction.
#[derive(Debug, Drop)]
pub struct TopReport {
    /// The rule of the detached task that it ran, and the task's coupling mode; `None` for a unit's own transaction.
    pub task: Option<(RuleNo, Coupling)>,
    /// How it ended.
    pub end: Ending,
    /// What it did up to its end, in order of time.
    pub tree: Vec<Item>,
}

/// The report of a unit: a transaction of the script, or a moment of the clock, with its cascade.
#[derive(Debug, Drop)]
pub struct UnitReport {
    /// The moment, if the unit is one.
    pub moment: Option<u64>,
    /// Its top-level transactions in order, its own first.
    pub tops: Vec<TopReport>,
}
