//! Groups of sibling firings, which workers try ahead of their turn.
//!
//! All speculation is in this module, and it knows nothing of statements: a group is passed one function, which fires a
//! task on a view. `docs/SPECULATION.md` has the terms, and the life of a group.

mod channel;
mod counts;
mod extents;
mod fork_join;
mod gate;
mod group;
mod index;
mod past;
mod pending;
mod policy;
mod predecessors;
mod progress;
mod settled;
mod start;
mod trial;
mod wave;
mod worker;
mod workers;

pub(crate) use channel::Receiver;
pub use gate::{Gate, NoGate};
pub(crate) use group::Group;
pub use past::{Effort, Past};
pub(crate) use policy::{FIRING, ROW, STATEMENT};
pub(crate) use progress::Progress;
pub(crate) use wave::{Job, Wave};
pub(crate) use workers::{By, Found, Gated};
pub use workers::{Alone, ByThreads, Workers};
