//! Attempts at firings on a snapshot, and how they are accepted where their reads hold.
//!
//! The types stand for those of `hp_model`: `specs/Mapped.antt` has a function for each.
#![tactic(auto)]

mod front;
mod holding;
mod outcome;
mod settling;

pub use front::settle_front;
pub use holding::{first_failed, holds};
pub use outcome::{Attempt, Outcome};
pub use settling::{Settled, settle};
