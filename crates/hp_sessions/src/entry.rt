//! Entries of a history.

use hp_rule::Body;
use hp_tree::UnitReport;
use std::sync::Arc;

/// An entry of a history: a body, the session that submitted it, the moment at which it ran, and the reply.
#[derive(Debug, Drop)]
pub struct Entry {
    /// The number of the session that submitted the body.
    pub session: u8,
    /// The body.
    pub body: Body,
    /// The clock's moment when the body ran, as the caller gave it.
    pub time: u64,
    /// The report of the body. The receipt shares it.
    pub reply: Arc<UnitReport>,
}
