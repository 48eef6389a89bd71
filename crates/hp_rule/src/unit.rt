//! Units.

use crate::body::Body;

/// What a script runs as one top-level transaction, with the cascade of what that detaches.
#[derive(Debug, Drop)]
pub enum Unit {
    /// A body of the script.
    Transaction {
        /// The clock's moment while it and its cascade run.
        time: u64,
        /// The body.
        body: Body,
    },
    /// A moment that the logical clock reaches. It is the clock's moment while it and its cascade run.
    Moment(u64),
}
