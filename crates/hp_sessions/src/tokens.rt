//! Tokens that know a part of a growing history.
ghost use Rattle.std.specs.Prelude.{◌≡◌, [], ◌∷◌, ◌++◌};
ghost use mathlib.Core.List.{IsPrefix};
ghost use Rattle.hp_sessions.specs.Tokens.{reader_of, book_of};

use crate::entry::Entry;
use atomic_table::{Join, Play, Seat, Split, Table, TableRule};
use std::alloc::Global;
use std::collections::LinkedList;

// What a seat knows. The book's seat keeps the list, which is the whole history. The list of any other seat is a prefix
// of it, and so is the list that a seat was shown last. It is used in proofs only; no value of it is made.
pub struct View {
    pub keeps: bool,
    pub list: LinkedList<Entry>,
    pub shown: LinkedList<Entry>,
}

// The rule of the table. The word itself means nothing.
pub struct TokenRule;

impl TableRule<Entry, View, ()> for TokenRule {
    ghost use Rattle.std.specs.Prelude.{[]};
    ghost use Rattle.hp_sessions.specs.Tokens.{Kept, book_of};

    ghost holds = { λ key s. Kept s.views };

    ghost first = { λ key. book_of [] };
}

// The book's seat appends the given entry.
pub struct Appends;

impl Play<Entry, View> for Appends {
    ghost use Rattle.hp_sessions.specs.Tokens.{Appended};

    ghost then = { λ step me found now. Appended step.said me now };
}

// The book's seat compares the list that it was shown with its own.
pub struct Compares;

impl Play<Entry, View> for Compares {
    ghost use Rattle.hp_sessions.specs.Tokens.{Compared};

    ghost then = { λ step me found now. Compared me now };
}

// Another seat with the same list, which doesn't keep the history.
pub struct Copies;

impl Split<View> for Copies {
    ghost use Rattle.hp_sessions.specs.Tokens.{reader_of};

    ghost left = { λ v. v };

    ghost right = { λ v. reader_of v.list };
}

// The first seat is shown the list of the second.
pub struct Shows;

impl Join<View> for Shows {
    ghost use Rattle.std.specs.Prelude.{[]};
    ghost use Rattle.hp_sessions.specs.Tokens.{reader_of, shown};

    ghost both = { shown };

    ghost spent = { reader_of [] };
}

pub type Words = Table<Entry, View, (), TokenRule, Global>;

pub type Token = Seat<Entry, View>;

// A seat with the same list, which doesn't keep the history.
pub(crate) fn copy_of(words: &Words, token: &mut Token) -> Token
    requires { (token.old.table_id ≡ words.now.shared.table_id) × (words.now.shared.table_id.words ≡ 1) }
    ensures same { (token.new.table_id ≡ token.old.table_id) × (token.new.me ≡ token.old.me) }
    ensures knows { (result.table_id ≡ token.old.table_id) × (result.me ≡ (reader_of token.old.me.0.list, [])) }
{
    words.shared.split_seat::<Copies>(token)
}

// The book's list begins with what the other seat has seen.
pub(crate) fn recall(words: &Words, book: &mut Token, other: &mut Token)
    requires book { (book.old.table_id ≡ words.now.shared.table_id) × (words.now.shared.table_id.words ≡ 1)
        × (book.old.me ≡ (book_of book.old.me.0.list, [])) }
    requires other { other.old.table_id ≡ words.now.shared.table_id }
    ensures same { (book.new.table_id ≡ book.old.table_id) × (book.new.me ≡ book.old.me)
        × (other.new.table_id ≡ other.old.table_id) × (other.new.me ≡ other.old.me) }
    ensures seen { IsPrefix other.old.me.0.list book.old.me.0.list }
{
    let copy = copy_of(words, other);
    words.shared.join_seat::<Shows>(book, copy);
    words.shared.load::<Compares>(book, 0);
}

// The entry is the last of the book's list.
pub(crate) fn append(words: &Words, book: &mut Token, entry: &Entry)
    requires { (book.old.table_id ≡ words.now.shared.table_id) × (words.now.shared.table_id.words ≡ 1)
        × (book.old.me ≡ (book_of book.old.me.0.list, [])) }
    ensures { (book.new.table_id ≡ book.old.table_id)
        × (book.new.me ≡ (book_of (book.old.me.0.list ++ entry.now ∷ []), [])) }
{
    words
        .shared
        .compare_exchange_with::<Appends>(book, 0, 0, 0, entry);
}
