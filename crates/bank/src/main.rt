//! A small bank: four callers, each on a thread of its own, submit bodies to one rule base and keep their receipts.
#![tactic(auto)]

ghost use Rattle.std.specs.Prelude.{◌≡◌, ◌+◌, IfOk, count_by};
ghost use Rattle.bank.specs.Ends.{is_committed};

mod requests;
mod service;

use hp_sessions::{Blank, Book, BookName, Entry};
use hp_store::{CellValue, Store};
use hp_top::opening;
use hp_tree::Ending;
use hp_value::{Cell, Value};
use requests::{Fault, MOMENT, Request, body, library};
use service::serve;
use std::alloc::Global;
use std::marker::Brand;
use std::process::ExitCode;
use std::sync::Wait;
use std::thread::Threads;

/// The result of a run, whatever the order of the callers.
#[derive(Clone, Copy, Debug)]
struct Totals {
    units: usize,
    committed: usize,
    aborted: usize,
    receipts: usize,
    balance: i64,
}

fn main(rt: HostRuntime) -> ExitCode {
    let written = match bank(&rt, rt.alloc()) {
        Ok(totals) => println!(rt;
            "units {}\ncommitted {}\naborted {}\nreceipts {}\nbalance {}",
            totals.units, totals.committed, totals.aborted, totals.receipts, totals.balance
        ),
        Err(fault) => {
            let _ = eprintln!(rt; "{fault}");
            return ExitCode::FAILURE;
        }
    };
    match written {
        Ok(()) => ExitCode::SUCCESS,
        Err(_) => ExitCode::FAILURE,
    }
}

/// Opens a bank, serves its callers, closes it, and adds up the totals.
fn bank<R: Threads + Wait + Sync>(rt: &R, alloc: Global) -> Result<Totals, Fault>
    ensures units { IfOk result (λ t. t.committed + t.aborted ≡ t.units) }
    ensures receipts { IfOk result (λ t. t.receipts ≡ 100) }
{
    let library = library(alloc)?;
    let blank = Book::begin(alloc, library, opening(alloc)?)?;
    bank_of::<Brand, R>(rt, alloc, blank)
}

/// The totals of a bank on this book.
fn bank_of<K: BookName + Send + Sync, R: Threads + Wait + Sync>(
    rt: &R,
    alloc: Global,
    blank: Blank,
) -> Result<Totals, Fault>
    requires { blank.table ≡ K.table }
    ensures units { IfOk result (λ t. t.committed + t.aborted ≡ t.units) }
    ensures receipts { IfOk result (λ t. t.receipts ≡ 100) }
{
    let mut book = blank.open::<K>(alloc);
    let opened = book.run_now(rt, alloc, 0, MOMENT, body(alloc, Request::Open)?);
    opened.map_err(Fault::Refused)?;
    let served = serve(rt, alloc, book)?;
    let entries = served.history.entries();
    let committed = committed(entries);
    Ok(Totals {
        units: entries.len(),
        committed,
        aborted: entries.len() - committed,
        receipts: served.receipts.len(),
        balance: balance(served.history.store()).ok_or(Fault::Account)?,
    })
}

/// Whether the body's own transaction committed, by the reply to its caller.
fn is_committed(entry: &Entry) -> bool
    ensures { result ≡ is_committed entry.now }
{
    match entry.reply.tops.first() {
        Some(top) => top.end == Ending::Committed,
        None => false,
    }
}

/// How many of the entries committed.
fn committed(entries: &[Entry]) -> usize
    ensures { result ≡ count_by is_committed entries.now }
{
    entries.iter().filter(|e| is_committed(e)).count()
}

/// The balance of account 1, if it exists.
fn balance(store: &Store) -> Option<i64> {
    let CellValue::Row(row) = store.get(Cell::Object(0, 1))? else {
        return None;
    };
    match row.field("bal") {
        Ok(Value::Int(balance)) => Some(*balance),
        _ => None,
    }
}
