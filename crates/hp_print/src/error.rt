//! Why a value is not printed.

/// Why a value is not printed.
#[derive(Debug, Drop, thiserror::Error)]
pub enum PrintError {
    /// The value is none of a script or an item that a text can stand for.
    #[error("no script")]
    NoForm,
    /// Memory ran out.
    #[error("out of memory")]
    Memory,
}
