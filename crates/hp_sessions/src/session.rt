//! Sessions.

ghost use Rattle.std.specs.Prelude.{◌≡◌, ◌<◌, ◌≤◌, IfOk, IfErr};
ghost use Rattle.hp_sessions.specs.Books.{IsOf, IsNotStale};

use crate::book::Book;
use crate::memory::Memory;
use crate::name::BookName;
use crate::receipt::Receipt;
use crate::refusal::Refusal;
use crate::unit::Unit;
use hp_fire::Gate;
use hp_rule::Body;
use std::alloc::Global;
use std::marker::Model;
use std::sync::{Mutex, Wait};
use std::thread::Threads;

/// A session of one caller with a book, on any thread. In contracts it is its number, and that of its last receipt, 0
/// before the first.
#[derive(Drop)]
pub struct Session<'a, K: BookName> {
    number: u8,
    book: &'a Mutex<Book<K>>,
    memory: Memory,
}

impl<'a, K: BookName> Model for Session<'a, K> {
    ghost use Rattle.hp_sessions.specs.Books.{Caller, IsMemory};

    ghost Value = { Caller };

    ghost view = { λ s. record { number = s.number; last = s.memory.last } };

    ghost invariant = { λ s. IsMemory K.table s.memory };
}

impl<'a, K: BookName> Session<'a, K> {
    /// A session with a book, which has no receipt yet. Its number, 1 to 16, is in the entries of what it submits.
    pub fn new(number: u8, book: &'a Mutex<Book<K>>) -> Session<'a, K>
        requires { (1 ≤ number) × (number ≤ 16) }
        ensures { (result.number ≡ number) × (result.last ≡ 0) }
    {
        Session {
            number,
            book,
            memory: Memory {
                last: 0,
                token: None,
            },
        }
    }

    /// Runs a body on the book, and returns a receipt for it. It may wait for the book's lock, which it holds only to
    /// take a snapshot and to commit. `time` is the clock's moment for all that the body does, as the expression `now`
    /// gives it; a service without a clock passes 0.
    ///
    /// The unit is made outside the lock, with width 1; the gate is notified before and after that. If the unit is
    /// stale at the commit, the body is run again under the lock, so no refusal is `Stale`. Any other refusal leaves
    /// the book and the session as they were, and the body is dropped: `OtherLibrary` if the body's library isn't equal
    /// to the book's, `HistoryFull` if the history has 100,000 units, `NoMemory` if memory ran out.
    pub fn submit<R: Threads + Wait + Sync, G: Gate>(
        &mut self,
        rt: &R,
        alloc: Global,
        time: u64,
        body: Body,
        gate: &G,
    ) -> Result<Receipt<K>, Refusal>
        ensures ok { IfOk result (λ r.
            IsOf self.old.number time body r.entry × (self.old.last < r.number)
            × (self.new ≡ record { number = self.old.number; last = r.number })) }
        ensures err { IfErr result (λ e. (self.new ≡ self.old) × IsNotStale e) }
    {
        let snapshot = self.book.lock(rt).snapshot()?;
        gate.started(self.number as usize);
        let made = Unit::make(rt, alloc, snapshot, time, body, 1);
        gate.ended(self.number as usize);
        let unit = made?;
        self.book
            .lock(rt)
            .submitted(rt, alloc, self.number, unit, &mut self.memory)
    }
}
