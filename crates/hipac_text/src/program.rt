//! The program, as a function of its words and its devices.

ghost use Rattle.std.specs.Prelude.{◌≡◌, ◌≢◌, IfOk, IfSome, OnErr, Ok, true, false};
ghost use Rattle.std.specs.Result.{IfErr};
ghost use Rattle.std.specs.Io.KnownBytes.{Appends};
ghost use Rattle.hp_report.specs.Device.{Begins};
ghost use Rattle.hp_report.specs.Exits.{code_of};
ghost use Rattle.hp_words.specs.Words.{word_code_of};
ghost use Rattle.hipac_text.specs.Ends.{status_of};
ghost use Rattle.hipac_text.specs.Outputs.{output};

use crate::running::run;
use crate::words::Task;
use hp_report::{Fault, Sink, Source, exit_code};
use hp_words::{WordFault, word_code};
use std::alloc::Global;
use thiserror::Error;

/// Why the program ends without having written a script or a refusal.
#[derive(Clone, Copy, Debug, PartialEq, Eq, Error)]
pub enum Stop {
    /// Its words gave no task.
    #[error("{0}")]
    Words(WordFault),
    /// Its run met a fault.
    #[error("{0}")]
    Run(Fault),
}

/// How the program ends.
#[derive(Clone, Copy, Debug, PartialEq, Eq)]
pub struct Ended {
    /// The exit status: 0 after a script, 2 after a refusal, 3 if the words were refused, 4 after a fault.
    pub code: u8,
    /// What is said on standard error, if anything.
    pub stop: Option<Stop>,
}

/// Runs the program with what its words gave.
///
/// The reader and the writer must not have failed before. Without a task no device is called.
pub fn program<R: Source, W: Sink>(
    alloc: Global,
    asked: Result<Task, WordFault>,
    reader: &mut R,
    writer: &mut W,
) -> Ended
    requires reader { R.has_failed reader.old ≡ false }
    requires writer { W.has_failed writer.old ≡ false }
    ensures refused { IfErr asked (λ fault. result.code ≡ word_code_of fault) }
    ensures unread { OnErr asked (reader.new ≡ reader.old) }
    ensures unwritten { OnErr asked (writer.new ≡ writer.old) }

    // At 0 and 2 it has written the definition's output for the bytes up to the reader's end; and in any case a prefix
    // of it.
    ensures code { IfOk asked (λ task. result.code ≢ 4 → IfSome (R.remaining reader.old) (λ input.
        result.code ≡ code_of (Ok (status_of task input)))) }
    ensures output { IfOk asked (λ task. result.code ≢ 4 → IfSome (R.remaining reader.old) (λ input.
        Appends (W.contents writer.old) (W.contents writer.new) (output task input))) }
    ensures begins { IfOk asked (λ task. IfSome (R.remaining reader.old) (λ input.
        Begins (W.contents writer.old) (W.contents writer.new) (output task input))) }
    ensures read { R.has_failed reader.new ≡ true → result.code ≡ 4 }
    ensures write { W.has_failed writer.new ≡ true → result.code ≡ 4 }
{
    match asked {
        Ok(task) => {
            let ended = run(alloc, task, reader, writer);
            Ended {
                code: exit_code(&ended),
                stop: ended.err().map(Stop::Run),
            }
        }
        Err(fault) => Ended {
            code: word_code(fault),
            stop: Some(Stop::Words(fault)),
        },
    }
}
