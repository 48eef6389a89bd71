//! Trees of what transactions did, in order of time; and from a tree the objects it leaves and the values it emits.
//!
//! The types stand for those of `hp_model`: `specs/Mapped.antt` has a function for each. `AllocError` means that memory
//! ran out.
#![tactic(auto)]

mod emitted;
mod node;
mod objects;
mod operation;
mod replaying;
mod report;

pub use emitted::emits;
pub use node::{ConditionEnd, Ending, Item, Node, What};
pub use objects::{ObjectName, Objects};
pub use operation::Operation;
pub use replaying::replay;
pub use report::{TopReport, UnitReport};
