//! The words of the command line.

ghost use Rattle.std.specs.Prelude.{◌≡◌, ◌≢◌, map, string_bytes, codes, IfOk, IfErr, Some, None, true, false};
ghost use Rattle.std.specs.Option.{option_map};
ghost use Rattle.clap.specs.Words.{one_of, first_of, rows_of, found_of, rule_of, app_of, kind_of, FailsBy};
ghost use Rattle.hp_words.specs.Words.{app, plain_app, rows_for, faults_for, flag_rule, number_in, flag_in};
ghost use Rattle.hp_words.specs.Words.{options_in, options_for};
ghost use Rattle.hp_words.specs.Words.{script_for, checked_for, declared_for, AreOfWords, AreOfLiveWords, word_code_of};
ghost use Rattle.hp_words.specs.declared.words.WordFault.TheVariants.{NoMemory};

use clap::error::ErrorKind;
use clap::{Arg, ArgAction, ArgMatches, Command, Error, value_parser};
use std::alloc::{AllocError, Global};
use std::env;
use std::env::Env;
use thiserror::Error as ThisError;

/// The options on a command line.
#[derive(Clone, Copy, Debug, PartialEq, Eq)]
pub struct Options {
    /// The most workers that may try sibling firings at once, 1 to 64. It has no effect on what is written.
    pub workers: usize,
    /// Whether the trees of the transactions are written.
    pub tree: bool,
    /// Whether scripts and lines are in the text notation, and not in JSON.
    pub text: bool,
}

/// The options of a rule base that stays up.
#[derive(Debug, PartialEq, Eq, Drop)]
pub struct LiveOptions {
    pub options: Options,
    /// The name of the file that has the script, if one is given. Else the first line is the script.
    pub script: Option<String>,
    /// Whether the rule base refuses what could ever end with `A3`, `A6` or `A7`.
    pub checked: bool,
    /// The name of the file that declares signals, if one is given.
    pub signals: Option<String>,
}

/// Why there are no options.
#[derive(Clone, Copy, Debug, PartialEq, Eq, ThisError)]
pub enum WordFault {
    /// The words are not those of the command, or the number of workers isn't 1 to 64.
    #[error("command line refused")]
    Refused,
    /// Memory ran out.
    #[error("fault F1")]
    NoMemory,
}

impl From<AllocError> for WordFault {
    ghost from_gives = { λ _ fault. fault ≡ NoMemory };

    fn from(_error: AllocError) -> WordFault {
        WordFault::NoMemory
    }
}

/// The options in the words of a command line, the first of which is the program's name.
///
/// The defaults are 4 workers, no trees, and JSON.
pub fn parse_words(alloc: Global, words: &[String]) -> Result<Options, WordFault>
    ensures ok { IfOk result (λ options. options_for false (map string_bytes words.now) ≡ Some options) }
    ensures refused { result ≡ Err WordFault.Refused → options_for false (map string_bytes words.now) ≡ None }
{
    match matches_of(alloc, words, false) {
        Ok(matches) => options_in(&matches),
        Err(error) => Err(fault_by(&error)),
    }
}

/// The options of a rule base that stays up, whose words may name the file of its script and one of signals, and ask
/// that it is checked.
pub fn parse_live_words(alloc: Global, words: &[String]) -> Result<LiveOptions, WordFault>
    ensures ok { IfOk result (λ live. options_for true (map string_bytes words.now) ≡ Some live.options) }
    ensures script { IfOk result (λ live.
        option_map string_bytes live.script ≡ script_for (map string_bytes words.now)) }
    ensures checked { IfOk result (λ live. live.checked ≡ checked_for (map string_bytes words.now)) }
    ensures signals { IfOk result (λ live.
        option_map string_bytes live.signals ≡ declared_for (map string_bytes words.now)) }
    ensures refused { result ≡ Err WordFault.Refused → options_for true (map string_bytes words.now) ≡ None }
{
    match matches_of(alloc, words, true) {
        Ok(matches) => {
            let options = options_in(&matches)?;
            let checked = flag_in(&matches, "checked");
            let script = value_in(alloc, &matches, "script")?;
            let signals = value_in(alloc, &matches, "signals")?;
            Ok(LiveOptions {
                options,
                script,
                checked,
                signals,
            })
        }
        Err(error) => Err(fault_by(&error)),
    }
}

/// The words that the process was started with.
pub fn own_words<R: Env + AllocGlobal>(rt: &R) -> Result<Vec<String>, WordFault>
    ensures { IfErr result (λ fault. fault ≡ WordFault.NoMemory) }
{
    let Ok(words) = env::args(rt) else {
        return Err(WordFault::NoMemory);
    };
    let Ok(words) = words.collect::<Vec<String>>(rt.alloc()) else {
        return Err(WordFault::NoMemory);
    };
    Ok(words)
}

/// The options that the process was started with. The contract can't say which words these were, but that the options
/// are those of some words.
pub fn options_of<R: Env + AllocGlobal>(rt: &R) -> Result<Options, WordFault>
    ensures { IfOk result (λ options. AreOfWords options) }
{
    let words = own_words(rt)?;
    parse_words(rt.alloc(), words.as_slice())
}

/// The options that the process of a rule base that stays up was started with. The contract says that they are those
/// of some words.
pub fn live_options_of<R: Env + AllocGlobal>(rt: &R) -> Result<LiveOptions, WordFault>
    ensures { IfOk result (λ live. AreOfLiveWords live.options
        (option_map string_bytes live.script) live.checked (option_map string_bytes live.signals)) }
{
    let words = own_words(rt)?;
    parse_live_words(rt.alloc(), words.as_slice())
}

/// The exit status of the program without options: 3 if the words were refused, 4 if memory ran out.
pub fn word_code(fault: WordFault) -> u8
    ensures { result ≡ word_code_of fault }
{
    match fault {
        WordFault::Refused => 3,
        WordFault::NoMemory => 4,
    }
}

/// An argument `--NAME` without a value.
pub(crate) fn flag(alloc: Global, name: &str) -> Arg<'_>
    ensures rule { rule_of result ≡ flag_rule name.entry.now }
    ensures local { result.global ≡ false }
{
    Arg::new(alloc, name).long(name).action(ArgAction::SetTrue)
}

/// The command of each program.
fn plain_command<'a>(alloc: Global) -> Result<Command<'a>, AllocError>
    ensures { IfOk result (λ command. app_of command ≡ plain_app) }
{
    let workers = Arg::new(alloc, "workers")
        .long("workers")
        .value_parser(value_parser!(u8))
        .default_value("4");
    let tree = flag(alloc, "tree");
    let text = flag(alloc, "text");
    Command::new(alloc, "program")
        .arg(workers)?
        .arg(tree)?
        .arg(text)
}

/// The command, which takes the names of a script's file and of one of signals, and `--checked`, if `takes_script` says
/// so.
fn command_for<'a>(alloc: Global, takes_script: bool) -> Result<Command<'a>, AllocError>
    ensures { IfOk result (λ command. app_of command ≡ app takes_script) }
{
    let command = plain_command(alloc)?;
    if takes_script {
        let script = Arg::new(alloc, "script").long("script");
        let checked = flag(alloc, "checked");
        let signals = Arg::new(alloc, "signals").long("signals");
        return command.arg(script)?.arg(checked)?.arg(signals);
    }
    Ok(command)
}

/// What `clap` finds in the words.
fn matches_of<'a>(
    alloc: Global,
    words: &'a [String],
    takes_script: bool,
) -> Result<ArgMatches<'a>, Error>
    ensures rows { IfOk result (λ m. rows_of (found_of m) ≡ rows_for takes_script (map string_bytes words.entry.now)) }
    ensures kinds { FailsBy (faults_for takes_script (map string_bytes words.entry.now)) result }
{
    let command = command_for(alloc, takes_script)?;
    command.try_get_matches_from(words)
}

/// Why `clap` gave no matches.
pub(crate) fn fault_by(error: &Error) -> WordFault
    ensures { result ≡ WordFault.Refused → kind_of error.now ≢ ErrorKind.OutOfMemory }
{
    match error.kind() {
        ErrorKind::OutOfMemory => WordFault::NoMemory,
        _ => WordFault::Refused,
    }
}

/// The options in the matches, unless the number of workers isn't 1 to 64.
fn options_in(matches: &ArgMatches<'_>) -> Result<Options, WordFault>
    ensures ok { IfOk result (λ options. options_in (rows_of (found_of matches.entry.now)) ≡ Some options) }
    ensures refused { result ≡ Err WordFault.Refused → options_in (rows_of (found_of matches.entry.now)) ≡ None }
    ensures memory { result ≢ Err WordFault.NoMemory }
{
    let workers = workers_in(matches);
    let tree = flag_in(matches, "tree");
    let text = flag_in(matches, "text");
    if workers < 1 || 64 < workers {
        return Err(WordFault::Refused);
    }
    Ok(Options {
        workers: workers as usize,
        tree,
        text,
    })
}

/// The number of workers in the matches, or 0 if there is none.
fn workers_in(matches: &ArgMatches<'_>) -> u8
    ensures { result ≡ number_in (one_of (codes "workers") (rows_of (found_of matches.entry.now))) }
{
    matches.get_one::<u8>("workers").unwrap_or(0)
}

/// Whether the matches have a flag.
pub(crate) fn flag_in(matches: &ArgMatches<'_>, name: &str) -> bool
    ensures { result ≡ flag_in (one_of name.now (rows_of (found_of matches.entry.now))) }
{
    matches.get_one::<bool>(name).unwrap_or(false)
}

/// The value of the argument `--NAME` in the matches, if there is one.
pub(crate) fn value_in(
    alloc: Global,
    matches: &ArgMatches<'_>,
    name: &str,
) -> Result<Option<String>, AllocError>
    ensures { IfOk result (λ value.
        option_map string_bytes value ≡ first_of name.now (rows_of (found_of matches.entry.now))) }
{
    match matches.get_str(name) {
        Some(value) => Ok(Some(String::from_str(alloc, value)?)),
        None => Ok(None),
    }
}
