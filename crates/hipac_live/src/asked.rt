//! What the command line asks for, with the bytes of the script's file, and the signals that another declares.

ghost use Rattle.std.specs.Prelude.{◌≡◌, IfOk, None, is_some, option_map, string_bytes};
ghost use Rattle.hipac_live.specs.Asked.{IsOfWords, AreGiven, code_unasked};

use hp_analysis::Declaration;
use hp_report::{ReadFault, bytes_of_file};
use hp_signals::{SignalsFault, signals_code, signals_of_file};
use hp_words::{Options, WordFault, live_options_of, word_code};
use std::alloc::Global;
use std::env::Env;
use std::rt::Files;
use thiserror::Error;

/// What a command line asks for.
#[derive(Drop)]
pub struct Asked {
    pub options: Options,
    /// The bytes of the script's file, if one is named. Of a file that is longer than a script may be these are the
    /// first 1,048,577.
    pub script: Option<Vec<u8>>,
    /// The signatures that are given, be they none, if the rule base refuses what could ever end with `A3`, `A6` or
    /// `A7`.
    pub given: Option<Declaration>,
}

/// Why a command line gives nothing to do.
#[derive(Debug, PartialEq, Eq, Drop, Error)]
pub enum Unasked {
    /// Its words gave no options.
    #[error("{0}")]
    Words(WordFault),
    /// The script's file can't be read.
    #[error("the script's file can't be read")]
    Script,
    /// The file that declares signals gives none.
    #[error("{0}")]
    Signals(SignalsFault),
}

/// What the process was started with, the bytes of the script's file, and the signals of the other file. The contract
/// can't say which words and which bytes these were, but that the options are those of some words, that the script has
/// bytes exactly if these words name its file, and that the signals are given as `AreGiven` says.
pub fn asked_of<R: Env + Files + AllocGlobal>(rt: &R) -> Result<Asked, Unasked>
    ensures { IfOk result (λ asked. IsOfWords asked) }
{
    let live = live_options_of(rt).map_err(Unasked::Words)?;
    let script = bytes_if(rt, &live.script)?;
    let given = signals_if(rt, &live.signals, live.checked).map_err(Unasked::Signals)?;
    Ok(Asked {
        options: live.options,
        script,
        given,
    })
}

/// The signals that are given, if the rule base is checked: those of the file, if one is named, or else none. A file
/// that is named asks for checks.
fn signals_if<R: Files + AllocGlobal>(
    rt: &R,
    name: &Option<String>,
    checked: bool,
) -> Result<Option<Declaration>, SignalsFault>
    ensures { IfOk result (λ given. AreGiven (option_map string_bytes name.now) checked given) }
{
    match name {
        Some(name) => Ok(Some(signals_of_file(rt, name)?)),
        None => Ok(nothing_if(rt.alloc(), checked)),
    }
}

/// A declaration of nothing, if the rule base is checked.
fn nothing_if(alloc: Global, checked: bool) -> Option<Declaration>
    ensures { AreGiven None checked result }
{
    if checked {
        Some(Declaration::new(alloc))
    } else {
        None
    }
}

/// The bytes of the file, if one is named.
fn bytes_if<R: Files + AllocGlobal>(
    rt: &R,
    name: &Option<String>,
) -> Result<Option<Vec<u8>>, Unasked>
    ensures { IfOk result (λ bytes. is_some bytes ≡ is_some (option_map string_bytes name.now)) }
{
    match name {
        Some(name) => Ok(Some(bytes_of(rt, name)?)),
        None => Ok(None),
    }
}

/// The bytes of a file, or the first 1,048,577 of them.
fn bytes_of<R: Files + AllocGlobal>(rt: &R, name: &str) -> Result<Vec<u8>, Unasked> {
    match bytes_of_file(rt, name) {
        Ok(bytes) => Ok(bytes),
        Err(ReadFault::Read) => Err(Unasked::Script),
        Err(ReadFault::NoMemory) => Err(Unasked::Words(WordFault::NoMemory)),
    }
}

/// The exit status of the program where nothing is asked: 3, or 4 if memory ran out.
pub fn unasked_code(fault: &Unasked) -> u8
    ensures { result ≡ code_unasked fault.now }
{
    match fault {
        Unasked::Words(fault) => word_code(*fault),
        Unasked::Script => word_code(WordFault::Refused),
        Unasked::Signals(fault) => signals_code(fault),
    }
}
