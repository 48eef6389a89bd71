//! The board of a group of sibling firings, and a sequential machine of its events.
//!
//! Workers try the tasks of a group at the same time, and the group's owner settles them in order. They meet at a
//! [`Board`]. Workers draw the numbers of tasks from it, each number once. Each posts there what its task wrote, where
//! the workers of later tasks find it. No lock is taken and nobody waits: a draw is one `fetch_add`, a post one store
//! to a cell that is set once, a look one read of such a cell.
//!
//! [`Group`] is a sequential machine of one group, in which each draw, look and post is one event. The law
//! `laws::accepted` of `hp_model` speaks of it. The engine doesn't run it: `hp_fire` runs groups on a [`Board`], under
//! contracts of its own. A service that schedules attempts in another way can step the machine, and has the law.
//!
//! In HiPAC sibling firings are subtransactions whose effect is that of some serial order. That workers try tasks ahead
//! of their turn, and the owner keeps what still holds, is this project's own choice. It replaces the locks of Moss's
//! nested transactions.
//!
//! `AllocError` means that memory ran out.
#![tactic(auto)]

mod boards;
mod cells;
mod counter;
mod known;
mod machine;
mod tally;
mod witness;

pub use boards::Board;
pub use cells::{Pass, Posted, meet};
pub use counter::{Drawn, Seat};
pub use machine::{Event, Group};
