//! Scripts.

use crate::version::Version;
use hp_rule::{Library, Unit};
use std::sync::Arc;

/// A script: its library, and the units that it runs.
#[derive(Debug, Drop)]
pub struct Script {
    /// The version of its grammar. Items that are added to the script are read with it.
    pub version: Version,
    /// The classes, the rules and the depth limit.
    pub library: Arc<Library>,
    /// The units, in order. A move of the clock is a unit for each of its due moments.
    pub items: Vec<Unit>,
    /// The clock's time after them.
    pub clock: u64,
}
