//! The program, as a function of its words and its devices.

ghost use Rattle.std.specs.Prelude.{◌≡◌, ◌≢◌, ◌↔◌, IfOk, IfSome, OnErr, Option, true, false};
ghost use Rattle.std.specs.Result.{IfErr};
ghost use Rattle.hp_model.specs.Kinds.{Declared};
ghost use Rattle.hp_live.specs.Kept.{manner, declared_of, bytes_of};
ghost use Rattle.hipac_live.specs.Asked.{code_unasked, manner_of};
ghost use Rattle.hipac_live.specs.Answered.{ForManner, Answers, EndsWith};

use super::asked::{Asked, Unasked, unasked_code};
use hp_live::{Fault, Options, Start, Status, exit_code, run};
use hp_report::{Sink, Source};
use std::alloc::Global;
use std::thread::Threads;
use thiserror::Error;

/// Why the program ends before it has answered all lines.
#[derive(Debug, PartialEq, Eq, Drop, Error)]
pub enum Stop {
    /// Its words asked for nothing that can be done.
    #[error("{0}")]
    Unasked(Unasked),
    /// Its run met a fault.
    #[error("{0}")]
    Run(Fault),
}

/// How the program ends.
#[derive(Debug, PartialEq, Eq, Drop)]
pub struct Ended {
    /// The exit status: 0 after all answers, 2 if the script was refused, 3 if the words or their file of signals were
    /// refused or a file can't be read, 4 after a fault.
    pub code: u8,
    /// What is said on standard error, if anything.
    pub stop: Option<Stop>,
}

/// The options of a rule base for those of the words.
fn options_for(words: hp_words::Options) -> Options
    ensures workers { result.workers ≡ words.workers }
    ensures manner { (checks : Option Declared) → manner result checks ≡ manner_of words checks }
{
    Options {
        workers: words.workers,
        tree: words.tree,
        text: words.text,
    }
}

/// Answers the script and the lines.
fn answer<T: Threads + Sync, R: Source, W: Sink>(
    rt: &T,
    alloc: Global,
    asked: Asked,
    reader: &mut R,
    writer: &mut W,
) -> Result<Status, Fault>
    requires reader { R.has_failed reader.old ≡ false }
    requires writer { W.has_failed writer.old ≡ false }
    ensures answers { IfSome (R.remaining reader.old) (λ input. ForManner asked.options (declared_of asked.given) (λ m.
        Answers m (bytes_of asked.script) input result (W.contents writer.old) (W.contents writer.new))) }
    ensures read { result ≡ Err Fault.Read ↔ (R.has_failed reader.new ≡ true) }
    ensures write { result ≡ Err Fault.Write ↔ (W.has_failed writer.new ≡ true) }
{
    let options = options_for(asked.options);
    let start = Start::of(alloc, asked.script, asked.given, options.text, reader)?;
    run(rt, alloc, start, reader, writer, options)
}

/// Runs the program with what its words gave.
///
/// The reader and the writer must not have failed before. If the words asked for nothing, no device is called.
pub fn program<T: Threads + Sync, R: Source, W: Sink>(
    rt: &T,
    alloc: Global,
    asked: Result<Asked, Unasked>,
    reader: &mut R,
    writer: &mut W,
) -> Ended
    requires reader { R.has_failed reader.old ≡ false }
    requires writer { W.has_failed writer.old ≡ false }
    ensures refused { IfErr asked (λ fault. result.code ≡ code_unasked fault) }
    ensures unread { OnErr asked (reader.new ≡ reader.old) }
    ensures unwritten { OnErr asked (writer.new ≡ writer.old) }

    // At 0 and 2 it has written the definition's answers for the script's file, if there is one, and all bytes up to
    // the reader's end, with the trees that the options ask for; and in any case a prefix of them. If the rule base is
    // checked, these are the answers by some declaration that keeps the signatures that are given: its promises hold
    // for each.
    ensures answers { IfOk asked (λ a. IfSome (R.remaining reader.old) (λ input.
        ForManner a.options (declared_of a.given) (λ m. EndsWith m (bytes_of a.script) input result.code
        (W.contents writer.old) (W.contents writer.new)))) }
    ensures read { R.has_failed reader.new ≡ true → result.code ≡ 4 }
    ensures write { W.has_failed writer.new ≡ true → result.code ≡ 4 }
{
    match asked {
        Ok(asked) => {
            let ended = answer(rt, alloc, asked, reader, writer);
            Ended {
                code: exit_code(&ended),
                stop: ended.err().map(Stop::Run),
            }
        }
        Err(fault) => Ended {
            code: unasked_code(&fault),
            stop: Some(Stop::Unasked(fault)),
        },
    }
}
