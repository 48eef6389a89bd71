//! The requests of the bank's callers, and its faults.

use hp_rule::{Body, Library, Unit};
use hp_script::{DecodeError, Script, decode};
use hp_sessions::Refusal;
use std::alloc::{AllocError, Global};
use std::sync::Arc;
use thiserror::Error;

/// The bank's rule, which vetoes a negative balance, and a body for each request.
const SCRIPT: &str = r#"{
  "version": 1,
  "classes": [["acct", [["bal", "int"]]]],
  "rules": [
    ["solvent", ["update", "acct"], "immediate", [], "immediate",
      [["if", ["<", ["new", 0, "bal"], 0], [["veto"]], []]]]
  ],
  "items": [
    ["tx", [["install", "solvent"], ["create", "acct", 1, [["bal", 0]]]]],
    ["tx", [["with", "a", "acct", 1, [["update", "acct", 1, [["bal", ["+", ["of", "a", "bal"], 1]]]]]]]],
    ["tx", [["with", "a", "acct", 1, [["update", "acct", 1, [["bal", ["-", ["of", "a", "bal"], 1000]]]]]]]]
  ]
}"#;

/// The clock's moment at which all requests run: the bank has no clock, and its rule asks for none.
pub const MOMENT: u64 = 0;

/// A request. Its number is the index of its body in the script.
#[derive(Clone, Copy, Debug)]
pub enum Request {
    /// Installs the rule and opens account 1.
    Open = 0,
    /// Adds 1 to the account's balance.
    Deposit = 1,
    /// Withdraws 1,000 from the account, which never has that much.
    Withdraw = 2,
}

/// Why the bank ended early.
#[derive(Clone, Copy, Debug, Error)]
pub enum Fault {
    #[error("memory ran out")]
    Memory(#[from(alloc)] AllocError),
    #[error("the script is refused, or has no such body")]
    Script,
    #[error("the book refused a body: {0:?}")]
    Refused(Refusal),
    #[error("account 1 isn't there")]
    Account,
}

fn script(alloc: Global) -> Result<Script, Fault> {
    match decode(alloc, SCRIPT.as_bytes()) {
        Ok(script) => Ok(script),
        Err(DecodeError::Refused(_)) => Err(Fault::Script),
        Err(DecodeError::Memory) => Err(Fault::Memory(AllocError)),
    }
}

/// The bank's library.
pub fn library(alloc: Global) -> Result<Arc<Library>, Fault> {
    Ok(script(alloc)?.library)
}

/// The body of a request. It is decoded for each request, with a library of its own: the book accepts any body whose
/// library is equal to the book's.
pub fn body(alloc: Global, request: Request) -> Result<Body, Fault> {
    let place = request as usize;
    match script(alloc)?.items.into_iter().nth(place) {
        Some(Unit::Transaction { body, .. }) => Ok(body),
        _ => Err(Fault::Script),
    }
}
