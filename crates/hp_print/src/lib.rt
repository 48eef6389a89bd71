//! Scripts as text that people write: the printer of the canonical text.
#![tactic(auto)]

mod body;
mod error;
mod event;
mod expression;
mod level;
mod lists;
mod names;
mod operand;
mod operator;
mod printing;
mod rows;
mod rule;
mod script;
mod shape;
mod statement;
mod token;
mod writer;

pub use error::PrintError;
pub use printing::{print_line, print_text};
