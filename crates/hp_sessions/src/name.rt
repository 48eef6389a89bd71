//! Names of books.

use std::marker::Brand;

/// The identity of a book in contracts. A function that opens a book is generic over it, and is called with `Brand`.
pub trait BookName {
    ghost use Rattle.atomic_table.specs.Seated.{TableId};

    ghost table: { TableId };
}

impl BookName for Brand {
    ghost use Rattle.hp_sessions.specs.Tokens.{no_table};

    ghost table = { no_table };
}
