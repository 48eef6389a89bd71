//! Rules, statements, and the library that names them.
//!
//! `specs/Mapped.antt` says what each type stands for in `hp_model`. `AllocError` means that memory ran out.
#![tactic(auto)]

mod asked;
mod body;
mod check;
mod context;
mod fault;
mod index;
mod known_names;
mod library;
mod note;
mod place;
mod rule;
mod rule_lists;
mod shown;
mod stmt;
mod task;
mod unit;

pub use asked::AskedField;
pub use body::Body;
pub use check::name::is_name;
pub use context::Context;
pub use fault::{CheckError, CheckFault, Limit};
pub use hp_detect::EventExpr;
pub use hp_query::{Aggregate, Entry, Findings, Query};
pub use hp_value::{Coupling, RuleOperation};
pub use known_names::KnownNames;
pub use library::Library;
pub use note::rule_number;
pub use place::{Member, PathStep, Place};
pub use rule::Rule;
pub use rule_lists::{RuleLists, Subject};
pub use stmt::{Assignment, Stmt};
pub use task::{Detached, Step, Task};
pub use unit::Unit;
