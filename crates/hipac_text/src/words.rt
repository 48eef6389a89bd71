//! The words of the command line: `read` or `print`.

ghost use Rattle.std.specs.Prelude.{◌≡◌, ◌≢◌, map, string_bytes, IfOk, Some, None};
ghost use Rattle.hipac_text.specs.Ends.{task_named, task_for, IsTaskOfWords};

use hp_words::{WordFault, own_words};
use std::env::Env;

/// What the program is to do.
#[derive(Clone, Copy, Debug, PartialEq, Eq)]
pub enum Task {
    /// To read a text and write its JSON.
    Read,
    /// To read JSON and write its canonical text.
    Print,
}

/// The task that a word names.
fn task_named(word: &str) -> Option<Task>
    ensures { result ≡ task_named word.now }
{
    match word {
        "read" => Some(Task::Read),
        "print" => Some(Task::Print),
        _ => None,
    }
}

/// The task in the words of a command line, the first of which is the program's name.
#[tactic(auto, using(crate::proofs::TwoWords::task_of_two, crate::proofs::TwoWords::task_of_others))]
pub fn parse_words(words: &[String]) -> Result<Task, WordFault>
    ensures ok { IfOk result (λ task. task_for (map string_bytes words.now) ≡ Some task) }
    ensures refused { result ≡ Err WordFault.Refused → task_for (map string_bytes words.now) ≡ None }
    ensures memory { result ≢ Err WordFault.NoMemory }
{
    if words.len() != 2 {
        return Err(WordFault::Refused);
    }
    match task_named(words[1].as_str()) {
        Some(task) => Ok(task),
        None => Err(WordFault::Refused),
    }
}

/// The task that the process was started with. The contract can't say which words these were, but that the task is that
/// of some words.
pub fn task_of<R: Env + AllocGlobal>(rt: &R) -> Result<Task, WordFault>
    ensures { IfOk result (λ task. IsTaskOfWords task) }
{
    let words = own_words(rt)?;
    parse_words(words.as_slice())
}
