//! Operations on rules.

/// What a statement does to a rule. Rules are objects in HiPAC. What each operation does to an absent, an enabled and a
/// disabled rule is this project's own choice.
#[derive(Clone, Copy, Debug, PartialEq, Eq)]
pub enum RuleOperation {
    /// Enables an absent rule, with an empty past. A rule that isn't absent stays as it is.
    Install,
    /// Enables a disabled rule, with an empty past. Of an absent rule it is an error.
    Enable,
    /// Disables an enabled rule, and clears its past. Of an absent rule it is an error.
    Disable,
    /// Makes a rule absent.
    Remove,
}
