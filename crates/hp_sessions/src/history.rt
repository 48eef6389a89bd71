//! Closed histories.

ghost use Rattle.std.specs.Prelude.{◌≡◌};
ghost use Rattle.hp_sessions.specs.Books.{IsLegalBook, Stands};

use crate::book::Book;
use crate::entry::Entry;
use crate::name::BookName;
use crate::receipt::Receipt;
use hp_rule::Library;
use hp_store::{Snapshot, Store};
use std::marker::Model;
use std::sync::Arc;

/// The history of a closed book. In contracts it is the book that it was.
#[derive(Drop)]
pub struct History<K: BookName> {
    pub(crate) book: Book<K>,
}

impl<K: BookName> Model for History<K> {
    ghost use Rattle.std.specs.Coded.{codes};
    ghost use Rattle.hp_rule.specs.contracts.library.Library as of_library;
    ghost use Rattle.hp_store.specs.Stack.{stack_code};
    ghost use Rattle.hp_sessions.specs.contracts.entry.Entry as of_entry;
    ghost use Rattle.hp_sessions.specs.Books.{Ledger};

    ghost Value = { Ledger };

    ghost coded = { Prim.hlevel (codes, of_library.the_row.coded, of_entry.the_row.coded, stack_code) };

    ghost view = { λ h. h.book };
}

impl<K: BookName> History<K> {
    /// The entries, in commit order. A receipt's number is the entry's position, from 1.
    pub fn entries(&self) -> &[Entry]
        ensures { result.now ≡ self.now.history }
    {
        self.book.history.as_slice()
    }

    /// The library of the bodies.
    pub fn library(&self) -> &Arc<Library>
        ensures { result.now.value ≡ self.now.library }
    {
        &self.book.library
    }

    /// The cells before the first entry.
    pub fn opening(&self) -> &Snapshot
        ensures { result.now ≡ self.now.opening }
    {
        &self.book.opening
    }

    /// The store after the last entry.
    pub fn store(&self) -> &Store
        ensures { result.now ≡ self.now.store }
    {
        &self.book.store
    }

    /// The entries by value.
    pub fn into_entries(self) -> Vec<Entry>
        ensures { result.items ≡ self.history }
    {
        let History { book } = self;
        book.into_entries()
    }

    // The history is legal.
    pub(crate) fn legal(&self)
        ensures { IsLegalBook self.now }
    {
        self.book.legal();
    }

    // The receipt's entry stands at its number.
    pub(crate) fn meet(&mut self, receipt: &mut Receipt<K>)
        ensures same { (self.new ≡ self.old) × (receipt.new ≡ receipt.old) }
        ensures kept { Stands self.old.history receipt.old }
    {
        self.book.recall(&mut receipt.token);
    }
}
