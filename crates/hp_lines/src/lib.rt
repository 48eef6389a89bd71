//! The answers of a running rule manager to lines: definitions, and laws about them.
//!
//! `specs/Live.antt` defines the answers, and `specs/Journal.antt` says that accepted lines are a journal.
#![tactic(auto)]

pub mod laws;
