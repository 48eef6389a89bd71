//! Patterns of primitive occurrences: events that a single primitive occurrence makes.
//!
//! `specs/Mapped.antt` says what a pattern stands for in `hp_model`.
#![tactic(auto)]

mod pattern;

pub use hp_value::{Occurrence, Prim};
pub use pattern::Pattern;
