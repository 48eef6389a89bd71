//! The parts of a report's text. Each is added to the end of a `String`.

mod objects;
mod rules;
mod state;
mod tree;
mod units;
mod words;

pub use objects::put_object_line;
pub use state::{put_final, put_state};
pub use units::put_units;
pub use words::put_value;
