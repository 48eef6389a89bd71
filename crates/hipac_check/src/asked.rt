//! What the command line asks for, with the signals that its file declares.

ghost use Rattle.std.specs.Prelude.{◌≡◌, None, IfOk, IsOk, option_map, string_bytes};
ghost use Rattle.hipac_check.specs.Asked.{IsOfWords, AreOfFile, code_unasked};

use hp_analysis::Declaration;
use hp_signals::{SignalsFault, signals_code, signals_of_file};
use hp_words::{WordFault, check_options_of, word_code};
use std::env::Env;
use std::rt::Files;
use thiserror::Error;

/// What a command line asks for.
#[derive(Debug, Drop)]
pub struct Asked {
    /// Whether the script is in the text notation, and not in JSON.
    pub is_text: bool,
    /// The signatures that are given, of which no rule of the script makes others.
    pub signals: Declaration,
}

/// Why a command line gives nothing to do.
#[derive(Debug, PartialEq, Eq, Drop, Error)]
pub enum Unasked {
    /// Its words say nothing.
    #[error("{0}")]
    Words(WordFault),
    /// The file that it names gives no signals.
    #[error("{0}")]
    Signals(SignalsFault),
}

/// What the process was started with, and the signals of the file that is named. The contract can't say which words and
/// which bytes these were, but that they are some, and that no signals are given if these words name no file.
pub fn asked_of<R: Env + Files + AllocGlobal>(rt: &R) -> Result<Asked, Unasked>
    ensures { IfOk result (λ asked. IsOfWords asked) }
{
    let options = check_options_of(rt).map_err(Unasked::Words)?;
    let signals = signals_if(rt, &options.signals).map_err(Unasked::Signals)?;
    Ok(Asked {
        is_text: options.text,
        signals,
    })
}

/// The signals of the file, if one is named. Where none is named, this can't fail.
fn signals_if<R: Files + AllocGlobal>(
    rt: &R,
    name: &Option<String>,
) -> Result<Declaration, SignalsFault>
    ensures signals { IfOk result (λ signals. AreOfFile (option_map string_bytes name.now) signals) }
    ensures unnamed { name.now ≡ None → IsOk result }
{
    match name {
        Some(name) => signals_of_file(rt, name),
        None => Ok(Declaration::new(rt.alloc())),
    }
}

/// The exit status of the program where nothing is asked: 3, or 4 if memory ran out.
pub fn unasked_code(fault: &Unasked) -> u8
    ensures { result ≡ code_unasked fault.now }
{
    match fault {
        Unasked::Words(fault) => word_code(*fault),
        Unasked::Signals(fault) => signals_code(fault),
    }
}
