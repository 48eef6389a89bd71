//! Books before they have a name.

ghost use Rattle.std.specs.Prelude.{◌≡◌, []};

use crate::book::Book;
use crate::name::BookName;
use crate::tokens::{Token, Words};
use hp_rule::Library;
use hp_store::{Snapshot, Store};
use std::alloc::Global;
use std::marker::{Model, PhantomData};
use std::sync::Arc;

/// A book with an empty history, which has no name yet.
#[derive(Drop)]
pub struct Blank {
    pub(crate) library: Arc<Library>,
    pub(crate) opening: Snapshot,
    pub(crate) store: Store,
    pub(crate) words: Words,
    pub(crate) token: Token,
}

impl Model for Blank {
    ghost use Rattle.std.specs.Prelude.{◌≡◌, []};
    ghost use Rattle.hp_model.specs.Sessions.{HasFitState};
    ghost use Rattle.hp_rule.specs.Mapped as rules;
    ghost use Rattle.std.specs.Coded.{codes};
    ghost use Rattle.hp_rule.specs.contracts.library.Library as of_library;
    ghost use Rattle.hp_store.specs.Stack.{stack_code, cells_in};
    ghost use Rattle.hp_sessions.specs.Tokens.{book_of};
    ghost use Rattle.hp_sessions.specs.Books.{Begun};

    ghost Value = { Begun };

    ghost coded = { Prim.hlevel (codes, of_library.the_row.coded, stack_code) };

    ghost view = { λ b. record { table = b.words.shared.table_id; library = b.library.value; opening = b.opening } };

    ghost invariant = { λ b.
        HasFitState (rules.library b.library.value) (cells_in b.opening) × (b.words.shared.table_id.words ≡ 1)
        × (b.token.table_id ≡ b.words.shared.table_id) × (b.token.me ≡ (book_of [], [])) × (b.store ≡ b.opening) };
}

impl Blank {
    /// The book, under its name. A caller puts it behind a lock, for its sessions.
    ///
    /// The name is a type parameter of the calling function, which is itself called with `Brand`.
    pub fn open<K: BookName>(self, alloc: Global) -> Book<K>
        requires { self.table ≡ K.table }
        ensures { result
            ≡ record { library = self.library; opening = self.opening; store = self.opening; history = [] } }
    {
        let Blank {
            library,
            opening,
            store,
            words,
            token,
        } = self;
        Book {
            library,
            opening,
            store,
            history: Vec::new(alloc),
            words,
            token,
            of: PhantomData,
        }
    }
}
