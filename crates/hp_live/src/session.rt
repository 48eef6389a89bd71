//! A rule base in the caller's own process.

ghost use Rattle.std.specs.Prelude.{◌≡◌, [], IfOk, OnOk, OnErr, true, false};
ghost use Rattle.hp_lines.specs.Live as L;
ghost use Rattle.hp_live.specs.Kept.{manner, declared_of};
ghost use Rattle.hp_live.specs.Sessions.{IsSession, Gave, GaveBy, in_json, show_line, get_line};

use crate::options::Options;
use crate::server::{Outcome, Stage, answer_at};
use hp_analysis::Declaration;
use hp_fire::Alone;
use std::alloc::{AllocError, Global};
use std::fmt::Write;

/// A rule base in the caller's own process, and its answer to the last line.
///
/// It takes lines that the caller has cut, and starts no thread. A line longer than a line may be is refused in the
/// words in which `hipac_live` refuses the part of it that it keeps.
#[derive(Drop)]
pub struct Session {
    pub(crate) options: Options,
    // What is declared of signals, if the rule base is checked.
    pub(crate) checks: Option<Declaration>,
    pub(crate) stage: Stage,
    /// The answer to the last line.
    pub answer: Vec<u8>,
    /// Memory ran out inside a line, some of which may have happened. Nothing more is answered.
    pub lost: bool,
}

impl Session {
    /// A session that has answered a script, which may be the bytes of a file. A refused script closes it. The rule
    /// base is checked, if there is a declaration.
    pub fn open(
        alloc: Global,
        script: &[u8],
        options: Options,
        checks: Option<Declaration>,
    ) -> Result<(Session, Outcome), AllocError>
        ensures { IfOk result (λ opened.
            Gave opened.0 opened.1 (manner options (declared_of checks)) L.unopened script.now) }
    {
        let mut session = Session {
            options: Options {
                workers: 1,
                tree: options.tree,
                text: options.text,
            },
            checks,
            stage: Stage::Unopened,
            answer: Vec::new(alloc),
            lost: false,
        };
        let outcome = session.line(alloc, script)?;
        Ok((session, outcome))
    }

    /// Answers a line, and keeps the answer. An error means that memory ran out: the session is lost.
    pub fn line(&mut self, alloc: Global, line: &[u8]) -> Result<Outcome, AllocError>
        ensures answer { IfOk result (λ outcome. (m : L.Manner) (now : L.Stage) →
            IsSession self.old m now → Gave self.new outcome m now line.now) }
        // A lost session answers nothing more.
        ensures once { OnOk result (self.old.lost ≡ false) }
        ensures lost { OnErr result (self.new.lost ≡ true) }
        ensures nothing { OnErr result (self.new.answer.items ≡ []) }
    {
        let options = self.options;
        self.read_by(alloc, line, options)
    }

    /// Answers the line that asks for the whole state, and keeps the answer.
    pub fn show(&mut self, alloc: Global) -> Result<Outcome, AllocError>
        ensures answer { IfOk result (λ outcome. (m : L.Manner) (now : L.Stage) →
            IsSession self.old m now → Gave self.new outcome m now (show_line m.is_text)) }
        // A lost session answers nothing more.
        ensures once { OnOk result (self.old.lost ≡ false) }
        ensures lost { OnErr result (self.new.lost ≡ true) }
        ensures nothing { OnErr result (self.new.answer.items ≡ []) }
    {
        let line = state_line(self.options.text);
        self.line(alloc, line.as_bytes())
    }

    /// Answers the JSON line that asks for the object of a class and a key, and keeps the answer. The notation has no
    /// such line, so it is JSON in each session. The name of the class stands in it as it is given.
    pub fn get(&mut self, alloc: Global, class: &[u8], key: i64) -> Result<Outcome, AllocError>
        ensures answer { IfOk result (λ outcome. (m : L.Manner) (now : L.Stage) →
            IsSession self.old m now → GaveBy (in_json m) self.new outcome m now (get_line class.now key)) }
        // A lost session answers nothing more.
        ensures once { OnOk result (self.old.lost ≡ false) }
        ensures lost { OnErr result (self.new.lost ≡ true) }
        ensures nothing { OnErr result (self.new.answer.items ≡ []) }
    {
        let options = Options {
            workers: 1,
            tree: self.options.tree,
            text: false,
        };
        match object_line(alloc, class, key) {
            Ok(line) => self.read_by(alloc, &line, options),
            Err(error) => {
                self.answer.clear();
                self.lost = true;
                Err(error)
            }
        }
    }

    /// Answers a line that is read and answered by these options.
    fn read_by(
        &mut self,
        alloc: Global,
        line: &[u8],
        options: Options,
    ) -> Result<Outcome, AllocError>
        ensures answer { IfOk result (λ outcome. (m : L.Manner) (now : L.Stage) →
            IsSession self.old m now →
            GaveBy (manner options (declared_of self.old.checks)) self.new outcome m now line.now) }
        ensures once { OnOk result (self.old.lost ≡ false) }
        ensures lost { OnErr result (self.new.lost ≡ true) }
        ensures nothing { OnErr result (self.new.answer.items ≡ []) }
    {
        self.answer.clear();
        if self.lost {
            return Err(AllocError);
        }
        self.lost = true;
        let checks = self.checks.as_ref();
        let reply = answer_at(&Alone, alloc, &mut self.stage, line, options, checks)?;
        self.answer = reply.text.into_bytes();
        self.lost = false;
        Ok(reply.outcome)
    }
}

/// The line that asks for the whole state.
fn state_line(is_text: bool) -> &'static str
    ensures { result.now ≡ show_line is_text }
{
    if is_text { "show" } else { "[\"show\"]" }
}

/// The line that asks for an object.
fn object_line(alloc: Global, class: &[u8], key: i64) -> Result<Vec<u8>, AllocError>
    ensures { IfOk result (λ line. line.items ≡ get_line class.now key) }
{
    let mut end = String::new(alloc);
    write!(end, "\",{key}]")?;
    let mut line = Vec::new(alloc);
    line.extend_from_slice(b"[\"show\",\"")?;
    line.extend_from_slice(class)?;
    line.extend_from_slice(end.as_bytes())?;
    Ok(line)
}
