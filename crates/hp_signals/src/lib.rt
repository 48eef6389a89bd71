//! Reads the signatures of signals that a file declares.
//!
//! `specs/Signals.antt` says what such a file means.
#![tactic(auto)]

mod fault;
mod file;
mod reading;

pub use fault::{SignalsFault, signals_code};
pub use file::signals_of_file;
pub use reading::read_signals;
