//! One book, and its callers' threads.

ghost use Rattle.std.specs.Prelude.{◌≡◌, ◌≤◌, ◌+◌, ◌*◌, All, IfOk, OnOk, Some, vec_len};
ghost use Rattle.hp_sessions.specs.Books.{IsLegalBook, Stands, session_of};

use crate::requests::{Fault, MOMENT, Request, body};
use hp_sessions::laws::{kept, legal};
use hp_sessions::{Book, BookName, History, NoGate, Receipt, Session};
use std::alloc::Global;
use std::sync::{Mutex, Wait};
use std::thread;
use std::thread::Threads;

/// The number of callers. Each has a session and a thread.
const CALLERS: usize = 4;

/// The number of requests of each caller.
const REQUESTS: usize = 25;

/// The state of the service after the last request.
#[derive(Drop)]
pub struct Served<K: BookName> {
    /// All that was committed, in one order.
    pub history: History<K>,
    /// The receipts of all callers.
    pub receipts: Vec<Receipt<K>>,
}

/// One caller: makes its requests in turn, of which each fifth is a withdrawal. Each request gets a receipt, even if
/// the rule vetoes it.
fn call<K: BookName, R: Threads + Wait + Sync>(
    rt: &R,
    alloc: Global,
    lock: &Mutex<Book<K>>,
    number: u8,
) -> Result<Vec<Receipt<K>>, Fault>
    requires { (1 ≤ number) × (number ≤ 16) }
    ensures own { IfOk result (λ rs. All (λ r. session_of r ≡ Some number) rs.items) }
    ensures len { IfOk result (λ rs. vec_len rs ≡ 25) }
{
    let mut session = Session::new(number, lock);
    let mut receipts = Vec::new(alloc);
    for turn in 0..REQUESTS {
        let request = if turn % 5 == 4 {
            Request::Withdraw
        } else {
            Request::Deposit
        };
        let receipt = session.submit(rt, alloc, MOMENT, body(alloc, request)?, &NoGate);
        receipts.push(receipt.map_err(Fault::Refused)?)?;
    }
    Ok(receipts)
}

/// Adds a caller's receipts to the others, and checks each in the history.
fn keep<K: BookName>(
    history: &mut History<K>,
    receipts: Vec<Receipt<K>>,
    all: &mut Vec<Receipt<K>>,
) -> Result<(), Fault>
    requires { All (λ r. Stands history.old.history r) all.old.items }
    ensures same { history.new ≡ history.old }
    ensures kept { OnOk result (All (λ r. Stands history.old.history r) all.new.items) }
    ensures len { OnOk result (vec_len all.new ≡ vec_len all.old + vec_len receipts) }
{
    for mut receipt in receipts {
        kept(history, &mut receipt);
        all.push(receipt)?;
    }
    Ok(())
}

/// The receipts of all callers, each checked in the history.
fn gather<K: BookName>(
    alloc: Global,
    history: &mut History<K>,
    answers: Vec<Result<Vec<Receipt<K>>, Fault>>,
) -> Result<Vec<Receipt<K>>, Fault>
    requires { All (λ a. IfOk a (λ rs. vec_len rs ≡ 25)) answers.items }
    ensures same { history.new ≡ history.old }
    ensures kept { IfOk result (λ rs. All (λ r. Stands history.old.history r) rs.items) }
    ensures len { IfOk result (λ rs. vec_len rs ≡ 25 * vec_len answers) }
{
    let mut all = Vec::new(alloc);
    for answer in answers {
        keep(history, answer?, &mut all)?;
    }
    Ok(all)
}

/// Puts a book behind a lock, and lets the callers submit their requests to it, all at once.
///
/// The history is legal, each request has its receipt, and each receipt names its entry in the history. An error is the
/// first caller's fault, in the order of the callers; the book is then dropped.
pub fn serve<K: BookName + Send + Sync, R: Threads + Wait + Sync>(
    rt: &R,
    alloc: Global,
    book: Book<K>,
) -> Result<Served<K>, Fault>
    ensures legal { IfOk result (λ s. IsLegalBook s.history) }
    ensures kept { IfOk result (λ s. All (λ r. Stands s.history.history r) s.receipts.items) }
    ensures len { IfOk result (λ s. vec_len s.receipts ≡ 100) }
{
    let book = Mutex::new(book);
    let lock = &book;
    let answers = thread::map_indices(
        rt,
        alloc,
        CALLERS,
        &|i| { call(rt, alloc, lock, (i % CALLERS) as u8 + 1) },
    )?;
    let mut history = book.into_inner().end();
    let receipts = gather(alloc, &mut history, answers)?;
    legal(&history);
    Ok(Served { history, receipts })
}
