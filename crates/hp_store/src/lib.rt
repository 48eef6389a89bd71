//! The cells of a state, kept for many readers: layers of changes, snapshots and the committed store.
//!
//! The types stand for those of `hp_model`: `specs/Mapped.antt` has a function for each.
#![tactic(auto)]

mod base;
mod candidates;
mod classes;
mod counting;
mod greatest;
mod index;
mod kept;
mod layer;
mod likely;
mod parts;
mod place;
mod shared;
mod snapshot;
mod store;
mod value;

pub use layer::Layer;
pub use snapshot::Snapshot;
pub use store::Store;
pub use value::{CellValue, Status};
