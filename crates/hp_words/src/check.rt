//! The words of the program that checks a rule base.

ghost use Rattle.std.specs.Prelude.{◌≡◌, codes, map, string_bytes, IfOk, Some, None};
ghost use Rattle.std.specs.Option.{option_map};
ghost use Rattle.clap.specs.Words.{rows_of, found_of, app_of, FailsBy};
ghost use Rattle.hp_words.specs.CheckWords.{check_app, check_rows, check_faults, text_for, signals_for};
ghost use Rattle.hp_words.specs.CheckWords.{AreOfCheckWords};

use crate::words::{WordFault, fault_by, flag, flag_in, own_words, value_in};
use clap::{Arg, ArgMatches, Command, Error};
use std::alloc::{AllocError, Global};
use std::env::Env;

/// The options of the program that checks a rule base.
#[derive(Debug, PartialEq, Eq, Drop)]
pub struct CheckOptions {
    /// Whether the script is in the text notation, and not in JSON.
    pub text: bool,
    /// The name of the file that declares signals, if one is given.
    pub signals: Option<String>,
}

/// The options in the words of a command line, the first of which is the program's name.
///
/// Without words the script is JSON, and no file declares signals.
pub fn parse_check_words(alloc: Global, words: &[String]) -> Result<CheckOptions, WordFault>
    ensures text { IfOk result (λ options. text_for (map string_bytes words.now) ≡ Some options.text) }
    ensures signals { IfOk result (λ options.
        option_map string_bytes options.signals ≡ signals_for (map string_bytes words.now)) }
    ensures refused { result ≡ Err WordFault.Refused → text_for (map string_bytes words.now) ≡ None }
{
    match check_matches_of(alloc, words) {
        Ok(matches) => {
            let text = flag_in(&matches, "text");
            let signals = value_in(alloc, &matches, "signals")?;
            Ok(CheckOptions { text, signals })
        }
        Err(error) => Err(fault_by(&error)),
    }
}

/// The options that the process was started with. The contract can't say which words these were, but that the options
/// are those of some words.
pub fn check_options_of<R: Env + AllocGlobal>(rt: &R) -> Result<CheckOptions, WordFault>
    ensures { IfOk result (λ options. AreOfCheckWords options.text (option_map string_bytes options.signals)) }
{
    let words = own_words(rt)?;
    parse_check_words(rt.alloc(), words.as_slice())
}

/// The command, `[--text] [--signals FILE]`.
fn check_command<'a>(alloc: Global) -> Result<Command<'a>, AllocError>
    ensures { IfOk result (λ command. app_of command ≡ check_app) }
{
    let text = flag(alloc, "text");
    let signals = Arg::new(alloc, "signals").long("signals");
    Command::new(alloc, "program").arg(text)?.arg(signals)
}

/// What `clap` finds in the words.
fn check_matches_of<'a>(alloc: Global, words: &'a [String]) -> Result<ArgMatches<'a>, Error>
    ensures rows { IfOk result (λ m. rows_of (found_of m) ≡ check_rows (map string_bytes words.entry.now)) }
    ensures kinds { FailsBy (check_faults (map string_bytes words.entry.now)) result }
{
    let command = check_command(alloc)?;
    command.try_get_matches_from(words)
}
