//! Operations on a view: what statements do to objects and rules, and which tasks a signal triggers.
//!
//! `AllocError` and `Halt::Memory` mean that memory ran out. A function that is passed a view says what of it may then
//! have changed.
#![tactic(auto)]

mod finding;
mod notifying;
mod objects;
mod rows;
mod rules;
mod signals;
mod steps;

pub use finding::{find_object, find_status};
pub use objects::{create, delete, update};
pub use rows::{Given, GivenValues, given_values, new_object};
pub use rules::set_rule;
pub use signals::{fire, trigger};
