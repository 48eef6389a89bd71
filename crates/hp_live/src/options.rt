//! A user's options.

/// How a rule base is run.
#[derive(Clone, Copy, Debug, PartialEq, Eq)]
pub struct Options {
    /// The most workers that may try sibling firings at once.
    pub workers: usize,
    /// Whether answers show what each transaction did.
    pub tree: bool,
    /// Whether the lines are text in the notation, and not JSON.
    pub text: bool,
}
