//! Scripts and lines for a rule base that may be checked. A checked one refuses what could ever end with `A3`, `A6` or
//! `A7`.
//!
//! `hp_lines` (`specs/Checked.antt`) defines what is refused, and proves that a checked rule base never meets these
//! causes.
#![tactic(auto)]

mod faults;
mod reading;

pub use reading::{Reading, declaration_for};
