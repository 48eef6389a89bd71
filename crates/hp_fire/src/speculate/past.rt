//! The cost of firings.

use hp_rule::Library;
use hp_value::RuleNo;
use std::alloc::{AllocError, Global};
use std::sync::atomic::AtomicU64;
use std::sync::atomic::Ordering::SeqCst;

/// The work done so far, in operators of expressions: other work counts as the number of operators that take as long.
///
/// It is counted and not timed, so that runs can be repeated. No report and no contract depends on it.
#[derive(Drop)]
pub struct Effort {
    operators: AtomicU64,
}

impl Effort {
    /// No work.
    pub(crate) fn new() -> Effort {
        Effort {
            operators: AtomicU64::new(0),
        }
    }

    /// Adds work.
    pub(crate) fn add(&self, operators: u64) {
        self.operators.fetch_add(operators, SeqCst);
    }

    /// The work so far.
    pub(crate) fn so_far(&self) -> u64 {
        self.operators.load(SeqCst)
    }
}

/// The cost of each rule's last firing.
///
/// It decides where workers are started, and nothing else: no report and no contract depends on it.
#[derive(Drop)]
pub struct Past {
    /// The work of the run's own thread.
    pub(crate) effort: Effort,
    // For each rule the cost of its last firing, or 0 if it hasn't fired.
    costs: Vec<AtomicU64>,
}

impl Past {
    /// The costs of a library's rules, none of which has fired. If memory runs out, or groups have only one worker,
    /// nothing is ever noted.
    pub fn new(alloc: Global, lib: &Library, width: usize) -> Past {
        let rules = if width < 2 { 0 } else { lib.rules().len() };
        Past {
            effort: Effort::new(),
            costs: no_costs(alloc, rules).unwrap_or(Vec::new(alloc)),
        }
    }

    /// The cost of the rule's last firing, if it is known.
    pub(crate) fn of(&self, rule: RuleNo) -> Option<u64> {
        match self.costs.get(rule as usize)?.load(SeqCst) {
            0 => None,
            cost => Some(cost),
        }
    }

    /// Notes the cost of a firing of the rule.
    pub(crate) fn note(&self, rule: RuleNo, cost: u64) {
        if let Some(last) = self.costs.get(rule as usize) {
            last.store(cost, SeqCst);
        }
    }
}

// A zero for each rule.
fn no_costs(alloc: Global, rules: usize) -> Result<Vec<AtomicU64>, AllocError> {
    let mut costs = Vec::with_capacity(alloc, rules)?;
    for _ in 0..rules {
        costs.push(AtomicU64::new(0))?;
    }
    Ok(costs)
}
