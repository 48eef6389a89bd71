//! Queries over objects, aggregates of their rows, and conditions made of both.
//!
//! A query is answered over any [`Look`]: a plain ordered map of objects, or a view that records its reads. An answer
//! holds in each world that the look allows after the call.
//!
//! `AllocError` and `Halt::Memory` mean that memory ran out.
#![tactic(auto)]

mod aggregate;
mod by_end;
mod by_key;
mod candidates;
mod collect;
mod condition;
mod entry;
mod look;
mod part;
mod plain;
mod query;
mod terms;

pub use aggregate::{Aggregate, aggregated, let_value};
pub use condition::{Verdict, evaluate_condition};
pub use entry::{Entry, Findings};
pub use look::Look;
pub use part::asked_field;
pub use plain::{ObjectName, PlainObjects};
pub use query::{Query, answer, selected_rows};
