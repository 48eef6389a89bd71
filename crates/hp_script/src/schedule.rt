//! Schedules.

use hp_rule::Unit;

/// The units that items run, and the time after them.
#[derive(Debug, Drop)]
pub struct Schedule {
    /// The units, in order. A move of the clock is a unit for each of its due moments.
    pub units: Vec<Unit>,
    /// The clock's time after them.
    pub clock: u64,
}
