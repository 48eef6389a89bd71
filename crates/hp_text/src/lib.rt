//! Scripts as text that people write: a reader.
#![tactic(auto)]

mod body;
mod class;
mod error;
mod event;
mod event_parts;
mod expression;
mod fault;
mod item;
mod lexeme;
mod lexer;
mod lists;
mod literal;
mod mark;
mod node;
mod operand;
mod parts;
mod paths;
mod place;
mod reading;
mod rows;
mod rule;
mod script;
mod statement;
mod symbol;
mod token;
mod tokens;
mod values;
mod word;

pub use error::ReadError;
pub use mark::{Mark, reserved};
pub use node::{Node, ScriptNode, offset};
pub use paths::{Step, item_at, member_of, node_place, part_at, value_place};
pub use place::{Place, place_at, place_from};
pub use reading::{read_line, read_text};
pub use values::{script_value, value_of};
