//! Sessions: the threads of many callers submit bodies to one book under a lock, and get receipts. The book's history
//! is legal.
//!
//! `specs/Books.antt` says what a book, a receipt and a session are in contracts, `specs/Tokens.antt` how receipts
//! know of a history that only grows.
//!
//! `AllocError` means that memory ran out, or that an `Arc` could not be cloned.
#![tactic(auto)]

mod blank;
mod book;
mod entry;
mod history;
pub mod laws;
mod memory;
mod name;
mod receipt;
mod refusal;
mod session;
mod tokens;
mod unit;

pub use blank::Blank;
pub use book::{Book, MOST_UNITS};
pub use entry::Entry;
pub use history::History;
pub use hp_fire::{Gate, NoGate};
pub use name::BookName;
pub use receipt::Receipt;
pub use refusal::Refusal;
pub use session::Session;
pub use unit::Unit;
