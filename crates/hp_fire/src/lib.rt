//! Firings: statements, signals and groups of sibling firings on a view.
//!
//! The types stand for those of `hp_model`: `specs/Mapped.antt` has a function for each. `specs/Runs.antt` says what a
//! call on a view promises.
//!
//! `AllocError` and `Halt::Memory` mean that memory ran out. A view that was passed to the call may then hold a part of
//! the effects, and is only to be dropped, unless a function says otherwise.
#![tactic(auto)]

mod attempting;
mod calls;
mod closing;
mod context;
mod counting;
mod course;
mod deciding;
mod engine;
mod halting;
mod operations;
mod placing;
mod running;
mod speculate;
mod statement;
mod vetoes;

pub use calls::{run_group, run_task};
pub use closing::{detached_after, end_transaction, ending};
pub use course::{Course, End, GroupOutcome};
pub use engine::Engine;
pub use placing::group_course;
pub use speculate::{Alone, ByThreads, Effort, Gate, NoGate, Past, Workers};
