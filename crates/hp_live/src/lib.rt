//! A rule manager that stays up: lines in, answers out.
//!
//! The first line is a script, unless a file has it; each later one is an item, or `["show"]`. `specs/Live.antt` of
//! `hp_lines` defines the answers. `AllocError` means that memory ran out.
#![tactic(auto)]

mod base;
mod options;
mod server;
mod serving;
mod session;
mod start;

pub use hp_report::{Fault, Status, exit_code};
pub use options::Options;
pub use server::{Outcome, Server};
pub use serving::{run, serve};
pub use session::Session;
pub use start::Start;
