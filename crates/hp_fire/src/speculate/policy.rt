//! When it pays to start workers, and when they stop: the numbers, with the measurement behind each, and the decisions.
//!
//! No report and no contract depends on any of it.

use crate::speculate::past::Past;
use hp_rule::Task;

/// The cost of a statement, in operators: the statements of the workloads (c) and (d) take 0.5 to 0.7 us each, and an
/// operator some 22 ns (bench/README.md, (e): 47 of them take 1.05 us an object).
pub(crate) const STATEMENT: u64 = 24;

/// The cost of a firing besides its statements and its condition's rows: (c) and (d) take 1.5 us a firing in all.
pub(crate) const FIRING: u64 = 24;

/// The cost of a row that a query looks at, besides the operators of its predicate.
pub(crate) const ROW: u64 = 1;

// The work that has to be left beside the longest task. To start two workers takes 60 us and four 110 us, which is
// 2,500 to 5,000 operators, and they run at nine tenths of full speed at best.
const MIN_WORK: u64 = 8_000;

// A wave pays if at least one in this number of its tasks is settled from its attempt.
const MIN_KEPT_RATIO: usize = 4;

/// After this number of conflicts in a row a worker tries no more tasks.
pub(crate) const MAX_CONFLICTS: usize = 2;

/// To accept an attempt takes about as long as to copy this number of writes (estimated, not measured).
pub(crate) const WRITES_PER_ACCEPT: usize = 32;

/// How often the owner polls for the next attempt at the end of a wave: for some 50 us (estimated), about as long as a
/// task takes that scans a few hundred objects.
pub(crate) const MAX_POLLS: usize = 500;

/// The capacity of a channel, in attempts.
pub(crate) const CHANNEL_CAPACITY: usize = 16;

/// Whether it pays to start workers for these tasks, by the costs of their rules' last firings. A task whose rule
/// hasn't fired counts `mean`, the average cost of those that the owner has fired.
///
/// The longest task is left out, since workers save none of its time.
pub(crate) fn do_workers_pay(past: &Past, tasks: &[Task], mean: u64) -> bool {
    let mut all = 0u64;
    let mut longest = 0u64;
    for task in tasks {
        let cost = past.of(task.rule).unwrap_or(mean);
        all = all.saturating_add(cost);
        longest = longest.max(cost);
        if all.saturating_sub(longest) >= MIN_WORK {
            return true;
        }
    }
    false
}

/// Whether the owner asks again whether it pays to start workers, after it has fired `fired` tasks of a group alone:
/// after 0, 1, 2, 4, 8 and so on. So it goes through the tasks that are left only a few times.
pub(crate) fn is_time_to_ask(fired: usize) -> bool {
    fired == 0 || fired.is_power_of_two()
}

/// Whether waves that were to try `tried` tasks have paid, where `kept` tasks were settled from attempts. In a group in
/// full conflict they don't: each settles one task.
pub(crate) fn do_waves_pay(tried: usize, kept: usize) -> bool {
    tried <= kept.saturating_mul(MIN_KEPT_RATIO)
}
