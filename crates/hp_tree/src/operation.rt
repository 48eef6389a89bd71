//! Operations on objects and rules.

use hp_value::{ClassNo, Key, Row, RuleNo, RuleOperation};

/// An operation of a transaction.
#[derive(Debug, Drop)]
pub enum Operation {
    /// An object was created.
    Create {
        /// The object's class.
        class: ClassNo,
        /// Its key.
        key: Key,
        /// Its row, shared with the store.
        new: Row,
    },
    /// Fields of an object were set, possibly to the values that they had.
    Update {
        /// The object's class.
        class: ClassNo,
        /// Its key.
        key: Key,
        /// Its whole row after the update, shared with the store.
        new: Row,
    },
    /// An object was deleted.
    Delete {
        /// The object's class.
        class: ClassNo,
        /// Its key.
        key: Key,
    },
    /// An operation on a rule succeeded, even if it changed nothing.
    OnRule {
        /// The operation.
        operation: RuleOperation,
        /// The rule.
        rule: RuleNo,
    },
}
