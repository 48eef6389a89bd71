//! What a session knows of the history.

use crate::tokens::Token;

/// What a session knows of the history: the number of its last receipt, 0 before the first, and a token that has seen
/// at least as many entries.
#[derive(Drop)]
pub(crate) struct Memory {
    pub last: u64,
    pub token: Option<Token>,
}
