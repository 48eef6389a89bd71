//! Top-level transactions, cascades of detached tasks, and units on the committed store.
//!
//! The types stand for those of `hp_model`: `specs/Mapped.antt` has a function for each. `specs/Runs.antt` says what a
//! call on a view promises.
//!
//! `AllocError` means that memory ran out.
#![tactic(auto)]

mod closing;
mod generations;
mod items;
mod rounds;
mod runner;
mod top;
mod unit;

pub use generations::cascade;
pub use items::{Items, opening, run_items};
pub use runner::Runner;
pub use top::{Top, run_top};
pub use unit::{UnitAttempt, attempt_unit, keep_indexes, run_unit};
