//! The program, as a function of its words and its devices.

ghost use Rattle.std.specs.Prelude.{◌≡◌, ◌≢◌, IfOk, IfSome, OnErr, Ok, true, false};
ghost use Rattle.std.specs.Result.{IfErr};
ghost use Rattle.std.specs.Io.KnownBytes.{Appends};
ghost use Rattle.hp_report.specs.Device.{Begins};
ghost use Rattle.hp_report.specs.Exits.{code_of};
ghost use Rattle.hp_analysis.specs.Declarations.{declared};
ghost use Rattle.hipac_check.specs.Asked.{code_unasked};
ghost use Rattle.hipac_check.specs.Ends.{status_of};
ghost use Rattle.hipac_check.specs.Outputs.{IsChecked};

use crate::asked::{Asked, Unasked, unasked_code};
use crate::checking::check;
use hp_report::{Fault, Sink, Source, exit_code};
use std::alloc::Global;
use thiserror::Error;

/// Why the program ends without having written findings or a refusal.
#[derive(Debug, PartialEq, Eq, Drop, Error)]
pub enum Stop {
    /// Its words say nothing, or the file that they name.
    #[error("{0}")]
    Unasked(Unasked),
    /// Its check met a fault.
    #[error("{0}")]
    Check(Fault),
}

/// How the program ends.
#[derive(Debug, PartialEq, Eq, Drop)]
pub struct Ended {
    /// The exit status: 0 after findings, 2 after a refusal, 3 if the words or their file of signals were refused, 4
    /// after a fault.
    pub code: u8,
    /// What is said on standard error, if anything.
    pub stop: Option<Stop>,
}

/// Runs the program with what its words say: whether the script is a text, and which signals are given.
///
/// The reader and the writer must not have failed before. Where nothing is asked no device is called.
pub fn program<R: Source, W: Sink>(
    alloc: Global,
    asked: Result<Asked, Unasked>,
    reader: &mut R,
    writer: &mut W,
) -> Ended
    requires reader { R.has_failed reader.old ≡ false }
    requires writer { W.has_failed writer.old ≡ false }
    ensures refused { IfErr asked (λ fault. result.code ≡ code_unasked fault) }
    ensures unread { OnErr asked (reader.new ≡ reader.old) }
    ensures unwritten { OnErr asked (writer.new ≡ writer.old) }

    // At 0 and 2 it has written the definition's output for the bytes up to the reader's end; and in any case a prefix
    // of it.
    ensures code { IfOk asked (λ a. result.code ≢ 4 → IfSome (R.remaining reader.old) (λ input.
        result.code ≡ code_of (Ok (status_of a.is_text input)))) }
    ensures output { IfOk asked (λ a. result.code ≢ 4 → IfSome (R.remaining reader.old) (λ input.
        IsChecked (λ text. Appends (W.contents writer.old) (W.contents writer.new) text)
        (declared a.signals) a.is_text input)) }
    ensures begins { IfOk asked (λ a. IfSome (R.remaining reader.old) (λ input.
        IsChecked (λ text. Begins (W.contents writer.old) (W.contents writer.new) text)
        (declared a.signals) a.is_text input)) }
    ensures read { R.has_failed reader.new ≡ true → result.code ≡ 4 }
    ensures write { W.has_failed writer.new ≡ true → result.code ≡ 4 }
{
    match asked {
        Ok(asked) => {
            let ended = check(alloc, asked, reader, writer);
            Ended {
                code: exit_code(&ended),
                stop: ended.err().map(Stop::Check),
            }
        }
        Err(fault) => Ended {
            code: unasked_code(&fault),
            stop: Some(Stop::Unasked(fault)),
        },
    }
}
