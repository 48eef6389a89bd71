//! Rules.

use crate::stmt::Stmt;
use hp_detect::EventExpr;
use hp_query::Entry;
use hp_value::Coupling;
use std::sync::Arc;

/// A rule: when its event occurs, its condition is evaluated, and if that is satisfied, its action runs.
///
/// HiPAC's rules have an event, a condition, an action and two coupling modes.
#[derive(Debug, PartialEq, Eq, Drop)]
pub struct Rule {
    /// The rule's name.
    pub name: String,
    /// The event that triggers it. The rule's detector shares it.
    pub event: Arc<EventExpr>,
    /// The coupling mode of the condition, relative to the event.
    pub ec: Coupling,
    /// The condition: it is satisfied if each entry is.
    pub condition: Vec<Entry>,
    /// The coupling mode of the action, relative to the condition.
    pub ca: Coupling,
    /// The action's statements, in order.
    pub action: Vec<Stmt>,
    /// Whether it vetoes where its condition faults or its action doesn't commit (this project's own choice).
    pub closed: bool,
}
