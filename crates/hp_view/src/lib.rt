//! Views of a state: a snapshot of its cells, what was read of it, and what is written over it.
//!
//! The types stand for those of `hp_model`: `specs/Mapped.antt` has a function for each, and `specs/Seeing.antt` says
//! what a view is to a clause.
#![tactic(auto)]

mod look;
mod part;
mod reads;
mod undo;
mod view;

pub use part::FoundPart;
pub use reads::{Found, Reads, Seen};
pub use view::{Mark, View};
