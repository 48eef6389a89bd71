//! The book, which the lock protects.

ghost use Rattle.std.specs.Prelude.{◌≡◌, ◌↔◌, IsTrue, ◌<◌, ◌≤◌, length, vec_len};
ghost use Rattle.std.specs.Prelude.{vec_capacity, IfOk, IfErr, IfSome, IfNone, OnErr};
ghost use mathlib.Core.List.{IsPrefix};
ghost use Rattle.hp_model.specs.Cells.{Holds, over};
ghost use Rattle.hp_model.specs.Sessions.{HasFitState};
ghost use Rattle.hp_rule.specs.Mapped as rules;
ghost use Rattle.hp_store.specs.Changes.{changes};
ghost use Rattle.hp_store.specs.Stack.{cells_in};
ghost use Rattle.hp_sessions.specs.Units.{IsSound};
ghost use Rattle.hp_sessions.specs.Books.{IsLegalBook, IsToken, MayCome, MayBeCommitted};
ghost use Rattle.hp_sessions.specs.Books.{IsCommitted, IsRefused, IsRun, IsUnable, IsMemory};

use crate::blank::Blank;
use crate::entry::Entry;
use crate::history::History;
use crate::memory::Memory;
use crate::name::BookName;
use crate::receipt::Receipt;
use crate::refusal::Refusal;
use crate::tokens::{Token, Words, append, copy_of, recall};
use crate::unit::Unit;
use hp_rule::{Body, Library};
use hp_store::{Snapshot, Store};
use hp_top::keep_indexes;
use hp_tree::UnitReport;
use std::alloc::{AllocError, Global};
use std::marker::{Brand, Model, PhantomData};
use std::sync::Arc;
use std::thread::Threads;

/// The most units in a history.
pub const MOST_UNITS: usize = 100_000;

/// A library, the current store, and the history that led to it from the opening cells.
///
/// It is a fact of this type that the history is legal whenever the book's lock is free: there is a fit state with the
/// opening cells, and from each state with these cells the entries' bodies, run one after another, give the entries'
/// replies and leave the cells of the store.
#[derive(Drop)]
pub struct Book<K: BookName> {
    pub(crate) library: Arc<Library>,
    pub(crate) opening: Snapshot,
    pub(crate) store: Store,
    pub(crate) history: Vec<Entry>,
    pub(crate) words: Words,
    pub(crate) token: Token,
    pub(crate) of: PhantomData<K>,
}

impl<K: BookName> Model for Book<K> {
    ghost use Rattle.std.specs.Prelude.{◌≡◌, ◌≤◌, [], length};
    ghost use Rattle.std.specs.Coded.{codes};
    ghost use Rattle.hp_rule.specs.contracts.library.Library as of_library;
    ghost use Rattle.hp_store.specs.Stack.{stack_code};
    ghost use Rattle.hp_sessions.specs.contracts.entry.Entry as of_entry;
    ghost use Rattle.hp_sessions.specs.Tokens.{book_of};
    ghost use Rattle.hp_sessions.specs.Books.{Ledger, IsKeptBook};

    ghost Value = { Ledger };

    ghost coded = { Prim.hlevel (codes, of_library.the_row.coded, of_entry.the_row.coded, stack_code) };

    ghost view = { λ b. record {
      library = b.library.value;
      opening = b.opening;
      store = b.store;
      history = b.history.items;
    } };

    ghost invariant = { λ b.
        (b.words.shared.table_id ≡ K.table) × (b.words.shared.table_id.words ≡ 1)
        × (b.token.table_id ≡ K.table) × (b.token.me ≡ (book_of b.history.items, []))
        × IsKeptBook b.library.value b.opening b.store b.history.items × (length b.history.items ≤ 100000) };
}

impl Book<Brand> {
    /// A book on a store, with an empty history and no name. The store is empty, or units of the library have made it.
    ///
    /// After an error the store is dropped.
    pub fn begin(
        alloc: Global,
        library: Arc<Library>,
        mut store: Store,
    ) -> Result<Blank, AllocError>
        requires { HasFitState (rules.library library.value) (cells_in store) }
        ensures { IfOk result (λ b. (b.library ≡ library.value) × (b.opening ≡ store)) }
    {
        // This comes first, since the opening snapshot shares the store's base, and a shared base gets no new index.
        keep_indexes(alloc, &mut store, &library)?;
        let opening = store.snapshot()?;
        let (words, token) = Words::of_words(alloc, &[0], &())?;
        Ok(Blank {
            library,
            opening,
            store,
            words,
            token,
        })
    }
}

/// Whether two libraries are equal, as values: neither has to be the other's copy.
fn are_same(one: &Library, other: &Library) -> bool
    ensures { IsTrue result ↔ (rules.library one.now ≡ rules.library other.now) }
{
    *one == *other
}

/// Prepares the commit of a unit, so that nothing after it can fail: space for its entry, its changes in the store, and
/// the receipt's share of its reply.
///
/// After an error the store is as before.
fn make_ready(
    alloc: Global,
    history: &mut Vec<Entry>,
    store: &mut Store,
    unit: &Unit,
) -> Result<Arc<UnitReport>, AllocError>
    ensures reply { IfOk result (λ r. r.value ≡ unit.now.reply.value) }
    ensures room { IfOk result (λ r. vec_len history.new < vec_capacity history.new) }
    ensures history { history.new.items ≡ history.old.items }
    ensures store { IfOk result (λ r. cells_in store.new ≡ over (cells_in store.old) (changes unit.now.layer)) }
    ensures err { OnErr result (store.new ≡ store.old) }
{
    history.reserve(1)?;
    let reply = Arc::try_clone(unit.reply())?;
    let layer = unit.layer()?;
    store.apply(alloc, layer)?;
    Ok(reply)
}

impl<K: BookName> Book<K> {
    // The history is legal whenever the lock is free.
    pub(crate) fn legal(&self)
        ensures { IsLegalBook self.now }
    {
        let _history = &self.history;
    }

    /// The current cells.
    pub fn snapshot(&self) -> Result<Snapshot, AllocError>
        ensures { IfOk result (λ s. s ≡ self.now.store) }
    {
        self.store.snapshot()
    }

    // A token that has seen the history.
    pub(crate) fn new_token(&mut self) -> Token
        ensures same { self.new ≡ self.old }
        ensures token { IsToken K.table self.old.history result }
    {
        copy_of(&self.words, &mut self.token)
    }

    // The history begins with what the token has seen.
    pub(crate) fn recall(&mut self, token: &mut Token)
        requires { IsToken K.table token.old.me.0.list token.old }
        ensures same { (self.new ≡ self.old) × IsToken K.table token.old.me.0.list token.new }
        ensures seen { IsPrefix token.old.me.0.list self.old.history }
    {
        recall(&self.words, &mut self.token, token);
    }

    // Why no unit of the body can be committed, if none can: another library, then a full history.
    fn barred(&self, body: &Body) -> Option<Refusal>
        ensures none { IfNone result (MayCome self.now body.now) }
        ensures some { IfSome result (λ e. IsUnable self.now body.now e) }
    {
        if !are_same(body.library(), &self.library) {
            return Some(Refusal::OtherLibrary);
        }
        if self.history.len() >= MOST_UNITS {
            return Some(Refusal::HistoryFull(self.history.len()));
        }
        None
    }

    // Why the unit can't be committed, if it can't: first for its body, then for what it read.
    fn refusal(&self, alloc: Global, unit: &Unit) -> Option<Refusal>
        ensures none { IfNone result (MayBeCommitted self.now unit.now) }
        ensures some { IfSome result (λ e. IsRefused self.now unit.now e) }
    {
        match self.barred(unit.body()) {
            Some(refusal) => Some(refusal),
            None => self.stale(alloc, unit),
        }
    }

    // Why the unit can't be committed for what it read, if it can't.
    fn stale(&self, alloc: Global, unit: &Unit) -> Option<Refusal>
        requires { MayCome self.now unit.now.body }
        ensures none { IfNone result (Holds (cells_in self.now.store) unit.now.reads) }
        ensures some { IfSome result (λ e. IsRefused self.now unit.now e) }
    {
        match unit.first_failed(alloc, &self.store) {
            Ok(None) => None,
            Ok(Some(cell)) => Some(Refusal::Stale {
                entries: self.history.len(),
                cell,
            }),
            Err(_) => Some(Refusal::NoMemory),
        }
    }

    // Commits a unit that may be committed.
    fn append(
        &mut self,
        alloc: Global,
        session: u8,
        unit: Unit,
    ) -> Result<Receipt<K>, (Refusal, Unit)>
        requires { MayBeCommitted self.old unit }
        ensures ok { IfOk result (λ r. IsCommitted session unit self.old self.new r) }
        ensures err { IfErr result (λ e. (self.new ≡ self.old) × (e ≡ (Refusal.NoMemory, unit))) }
    {
        let Ok(reply) = make_ready(alloc, &mut self.history, &mut self.store, &unit) else {
            return Err((Refusal::NoMemory, unit));
        };
        let time = unit.time();
        let (body, own) = unit.into_parts();
        let entry = Entry {
            session,
            body,
            time,
            reply: own,
        };
        append(&self.words, &mut self.token, &entry);
        self.history.push_reserved(entry);
        let number = self.history.len() as u64;
        Ok(Receipt {
            number,
            reply,
            token: copy_of(&self.words, &mut self.token),
            of: PhantomData,
        })
    }

    /// Commits a unit, if its reads still hold: adds its entry to the history, and its changes to the store.
    ///
    /// Otherwise the book stays as it was, and the unit is handed back. The checks, in this order: `OtherLibrary` if
    /// the unit's library isn't equal to the book's, `HistoryFull` if the history has 100,000 units, `Stale` if a read
    /// no longer holds. `NoMemory` means that memory ran out, and comes after the first two.
    pub fn commit(
        &mut self,
        alloc: Global,
        session: u8,
        unit: Unit,
    ) -> Result<Receipt<K>, (Refusal, Unit)>
        ensures ok { IfOk result (λ r. IsCommitted session unit self.old self.new r) }
        ensures err { IfErr result (λ e. (self.new ≡ self.old) × (e.1 ≡ unit) × IsRefused self.old unit e.0) }
    {
        if let Some(refusal) = self.refusal(alloc, &unit) {
            return Err((refusal, unit));
        }
        self.append(alloc, session, unit)
    }

    /// Runs a body on the current store, with width 1, and commits it. It is never stale. `time` is the clock's moment
    /// for all that the body does; without a clock it is 0.
    ///
    /// Otherwise the book stays as it was, and the body is dropped. The checks, in this order: `OtherLibrary` if the
    /// body's library isn't equal to the book's, `HistoryFull` if the history has 100,000 units, `NoMemory` if memory
    /// ran out.
    pub fn run_now<R: Threads + Sync>(
        &mut self,
        rt: &R,
        alloc: Global,
        session: u8,
        time: u64,
        body: Body,
    ) -> Result<Receipt<K>, Refusal>
        ensures ok { IfOk result (λ r. IsRun session time body self.old self.new r) }
        ensures err { IfErr result (λ e. (self.new ≡ self.old) × IsUnable self.old body e) }
    {
        if let Some(refusal) = self.barred(&body) {
            return Err(refusal);
        }
        let Ok(unit) = self.made(rt, alloc, time, body) else {
            return Err(Refusal::NoMemory);
        };
        match self.append(alloc, session, unit) {
            Ok(receipt) => Ok(receipt),
            Err(_) => Err(Refusal::NoMemory),
        }
    }

    // The unit of a body on the current store, at a moment of the clock.
    fn made<R: Threads + Sync>(
        &self,
        rt: &R,
        alloc: Global,
        time: u64,
        body: Body,
    ) -> Result<Unit, AllocError>
        ensures body { IfOk result (λ u. u.body ≡ body) }
        ensures time { IfOk result (λ u. u.time ≡ time) }
        ensures sound { IfOk result (λ u. IsSound u) }
        ensures reads { IfOk result (λ u. Holds (cells_in self.now.store) u.reads) }
    {
        let here = self.snapshot()?;
        Unit::make(rt, alloc, here, time, body, 1)
    }

    // Commits the unit, or runs its body again if it is stale.
    fn settle<R: Threads + Sync>(
        &mut self,
        rt: &R,
        alloc: Global,
        session: u8,
        unit: Unit,
    ) -> Result<Receipt<K>, Refusal>
        ensures ok { IfOk result (λ r. IsRun session unit.time unit.body self.old self.new r) }
        ensures err { IfErr result (λ e. (self.new ≡ self.old) × IsUnable self.old unit.body e) }
    {
        match self.commit(alloc, session, unit) {
            Ok(receipt) => Ok(receipt),
            Err((Refusal::Stale { .. }, unit)) => {
                let time = unit.time();
                let (body, _) = unit.into_parts();
                self.run_now(rt, alloc, session, time, body)
            }
            Err((refusal, _)) => Err(refusal),
        }
    }

    // The history has at least as many entries as the session knows of.
    fn remember(&mut self, memory: &mut Memory)
        requires { IsMemory K.table memory.old }
        ensures same { (self.new ≡ self.old) × (memory.new.last ≡ memory.old.last) × IsMemory K.table memory.new }
        ensures seen { memory.old.last ≤ length self.old.history }
    {
        if let Some(token) = &mut memory.token {
            self.recall(token);
        }
    }

    // The part of a submission under the lock.
    pub(crate) fn submitted<R: Threads + Sync>(
        &mut self,
        rt: &R,
        alloc: Global,
        session: u8,
        unit: Unit,
        memory: &mut Memory,
    ) -> Result<Receipt<K>, Refusal>
        requires { IsMemory K.table memory.old }
        ensures ok { IfOk result (λ r.
            IsRun session unit.time unit.body self.old self.new r × (memory.old.last < r.number)
            × (memory.new.last ≡ r.number) × IsMemory K.table memory.new) }
        ensures err { IfErr result (λ e.
            (self.new ≡ self.old) × IsUnable self.old unit.body e
            × (memory.new.last ≡ memory.old.last) × IsMemory K.table memory.new) }
    {
        self.remember(memory);
        let receipt = self.settle(rt, alloc, session, unit)?;
        memory.last = receipt.number();
        memory.token = Some(self.new_token());
        Ok(receipt)
    }

    // The entries by value.
    pub(crate) fn into_entries(self) -> Vec<Entry>
        ensures { result.items ≡ self.history }
    {
        let Book {
            library: _,
            opening: _,
            store: _,
            history,
            words: _,
            token: _,
            of: _,
        } = self;
        history
    }

    /// The history of the book, which is closed.
    pub fn end(self) -> History<K>
        ensures { result ≡ self }
    {
        History { book: self }
    }
}
