//! Composite events, and detectors that find their occurrences as primitive occurrences are signalled.
//!
//! A detector keeps only what matters of the past, and answers as the whole past says: `Detector::step` states this for
//! one step, `detect` for a whole list. `specs/Mapped.antt` says what the types stand for in `hp_model`,
//! `specs/DetectorState.antt` what a detector is in contracts.
//!
//! `AllocError` means that memory ran out. All arguments are then as before.
#![tactic(auto)]

mod chunk;
mod detector;
mod event;
mod knowledge;
mod known;
mod parts;
mod queue;
mod rope;
mod stepping;

pub use detector::{Detector, detect};
pub use event::{EventExpr, is_pure, occurs_now};
pub use hp_event::Pattern;
pub use hp_value::{Occurrence, Prim};
pub use knowledge::Knowledge;
