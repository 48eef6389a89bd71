//! The cells of a state.

use crate::value::{ClassNo, Key, RuleNo};

/// A cell of a state: the unit of reading and writing.
#[derive(Clone, Copy, Debug, PartialEq, Eq, PartialOrd, Ord, Hash)]
pub enum Cell {
    /// The object with this key in this class.
    Object(ClassNo, Key),
    /// Whether a rule is absent, enabled or disabled.
    Rule(RuleNo),
    /// What the rule's event knows of the occurrences so far.
    Detector(RuleNo),
}
