//! The nodes of a tree and their items.

use crate::operation::Operation;
use hp_value::{Cause, Coupling, RuleNo, Value, Veto};

/// The result of a condition.
#[derive(Clone, Copy, Debug, PartialEq, Eq)]
pub enum ConditionEnd {
    /// It was not satisfied, so there is no action.
    WithoutAction,
    /// Its evaluation ended with this cause, so there is no action.
    WithFault(Cause),
    /// It was satisfied, and the action ran at once: the node's end and items are the action's.
    WithAction,
    /// It was satisfied, and the action was queued or detached.
    WithLaterAction,
}

/// What a node records.
#[derive(Clone, Copy, Debug, PartialEq, Eq)]
pub enum What {
    /// A statement `sub`.
    Sub,
    /// The firing of a rule: its condition, and its action if that ran at once.
    Fire {
        /// The rule.
        rule: RuleNo,
        /// The coupling mode by which the firing was placed.
        place: Coupling,
        /// The result of the condition.
        condition: ConditionEnd,
    },
    /// An action that was queued or detached.
    Act {
        /// The rule.
        rule: RuleNo,
        /// The coupling mode by which the action was placed.
        place: Coupling,
    },
}

/// How a transaction ended.
#[derive(Debug, Drop, PartialEq, Eq)]
pub enum Ending {
    /// Its effects belong to the transaction around it, or are permanent.
    Committed,
    /// It had no effect, for this cause.
    Aborted(Cause),
    /// It had no effect, since a rule vetoed.
    Vetoed(Veto),
}

/// A nested transaction (Moss), with what it did up to its end.
#[cycle(tree)]
#[derive(Debug, Drop)]
pub struct Node {
    /// What the node records.
    pub what: What,
    /// How it ended.
    pub end: Ending,
    /// What it did, in order of time. An aborted node keeps what it did before its abort.
    pub items: Vec<Item>,
}

/// A step of a transaction.
#[cycle(tree)]
#[derive(Debug, Drop)]
pub enum Item {
    /// An operation. The firings that it triggered follow it.
    Operation(Operation),
    /// A value was emitted.
    Emit(Value),
    /// A nested transaction.
    Node(Node),
}
