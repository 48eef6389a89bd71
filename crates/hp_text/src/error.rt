//! Why a text is not read or not printed.

use crate::place::Place;

/// Why a text is not read.
#[derive(Debug, Drop, thiserror::Error)]
pub enum ReadError {
    /// The text is no script. This is the place of the first byte or token that no script has after what stands before.
    #[error("a fault at {0}")]
    Fault(Place),
    /// Memory ran out.
    #[error("out of memory")]
    Memory,
}
