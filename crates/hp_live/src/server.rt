//! Answers lines one after another.

ghost use Rattle.std.specs.Prelude.{◌≡◌, ◌≢◌, ◌↔◌, ◌++◌, List, ℕ, IfOk, OnOk, Ok, Some, string_bytes, true, false};
ghost use Rattle.std.specs.Io.KnownBytes.{Appends};
ghost use Rattle.hp_report.specs.Device.{Begins};
ghost use Rattle.hp_script.specs.Mapped.{timed_script};
ghost use Rattle.hp_lines.specs.Lines.{begun};
ghost use Rattle.hp_lines.specs.Live as L;
ghost use Rattle.hp_live.specs.Ends.{status_at};
ghost use Rattle.hp_live.specs.Kept.{StandsFor, IsStage, IsServer, manner, declared_of, declared_by, bytes_of, Answers};
ghost use Rattle.hp_live.specs.Kept.{FirstAnswers};
ghost use Rattle.hp_live.specs.Outcomes.{Replies};

use crate::base::RuleBase;
use crate::options::Options;
use hp_analysis::Declaration;
use hp_checked::Reading;
use hp_fire::Workers;
use hp_notation::Unread;
use hp_report::{Fault, Sink, Status, write_text};
use hp_script::{Request, Schedule, Script};
use std::alloc::{AllocError, Global};

/// The most bytes of a line that are kept: one more than a line may have shows that it is too long.
const MOST_KEPT: usize = 1_048_577;

/// The stage of a session.
#[derive(Drop)]
pub(crate) enum Stage {
    /// No line has been read.
    Unopened,
    /// A rule base is up.
    Up(RuleBase),
    /// The script was refused, and nothing more is answered.
    Closed,
}

/// What became of a line.
#[derive(Clone, Copy, Debug, PartialEq, Eq)]
pub enum Outcome {
    /// It was a script or an item and has run, or what it asks for is shown.
    Done,
    /// It was refused. The answer says why.
    Refused,
    /// The script was refused before, and there is no answer.
    Closed,
}

/// The answer to a line.
#[derive(Drop)]
pub(crate) struct Reply {
    pub text: String,
    pub outcome: Outcome,
}

/// Collects the bytes of lines and answers each line. It drops the reports of a line's units after the answer is
/// written.
///
/// A call that takes the next bytes consumes the server, and gives it back only if it succeeds. So nobody can use a
/// server after an error: some of what its last line asks for may have happened without an answer.
#[derive(Drop)]
pub struct Server {
    pub(crate) options: Options,
    // What is declared of signals, if the rule base is checked.
    pub(crate) checks: Option<Declaration>,
    pub(crate) stage: Stage,
    pub(crate) line: Vec<u8>,
}

/// Runs the items of a script on a new rule base. The result is the answer and the next stage.
fn open_by<T: Workers>(
    workers: &T,
    alloc: Global,
    script: Script,
    options: Options,
) -> Result<(String, Stage), AllocError>
    requires ready { T.ready workers.now }
    ensures { IfOk result (λ opened.
        Answers opened.0 opened.1 (L.opening_answer options.tree (Ok (timed_script script)))) }
{
    let mut base = RuleBase::new(alloc, script.version, script.library, options.workers)?;
    let schedule = Schedule {
        units: script.items,
        clock: script.clock,
    };
    let text = base.run(workers, alloc, schedule, options)?;
    Ok((text, Stage::Up(base)))
}

/// Answers the first line. The result is the answer and the next stage.
fn open<T: Workers>(
    workers: &T,
    alloc: Global,
    line: &[u8],
    options: Options,
    checks: Option<&Declaration>,
) -> Result<(Reply, Stage), AllocError>
    requires ready { T.ready workers.now }
    ensures { IfOk result (λ opened.
        Replies opened.0 opened.1 (manner options (declared_by checks.entry)) L.unopened line.now) }
{
    let reading = Reading {
        is_text: options.text,
        checks,
    };
    match reading.script(alloc, line) {
        Ok(script) => {
            let (text, stage) = open_by(workers, alloc, script, options)?;
            Ok((Reply::done(text), stage))
        }
        Err(Unread::Refused(refusal)) => Ok((Reply::refused(refusal), Stage::Closed)),
        Err(Unread::Memory) => Err(AllocError),
    }
}

/// Answers a later line. After an error some of its units may have run.
fn answer_later<T: Workers>(
    workers: &T,
    alloc: Global,
    base: &mut RuleBase,
    line: &[u8],
    options: Options,
    checks: Option<&Declaration>,
) -> Result<Reply, AllocError>
    requires ready { T.ready workers.now }
    ensures { IfOk result (λ reply. (now : L.RuleBase) → StandsFor base.old now →
        Replies reply (Stage.Up base.new) (manner options (declared_by checks.entry)) (L.up now) line.now) }
{
    let reading = Reading {
        is_text: options.text,
        checks,
    };
    match reading.request(alloc, base.version, &base.library, base.clock, line) {
        Ok(Request::Item(schedule)) => {
            Ok(Reply::done(base.run(workers, alloc, schedule, options)?))
        }
        Ok(Request::Show(excerpt)) => Ok(Reply::done(base.show(alloc, excerpt)?)),
        Err(Unread::Refused(refusal)) => Ok(Reply::refused(refusal)),
        Err(Unread::Memory) => Err(AllocError),
    }
}

/// Answers a line, and changes the stage. After an error some of what the line asks for may have happened.
pub(crate) fn answer_at<T: Workers>(
    workers: &T,
    alloc: Global,
    stage: &mut Stage,
    line: &[u8],
    options: Options,
    checks: Option<&Declaration>,
) -> Result<Reply, AllocError>
    requires ready { T.ready workers.now }
    ensures { IfOk result (λ reply. (now : L.Stage) → IsStage stage.old now →
        Replies reply stage.new (manner options (declared_by checks.entry)) now line.now) }
{
    match stage {
        Stage::Unopened => {
            let (reply, opened) = open(workers, alloc, line, options, checks)?;
            *stage = opened;
            Ok(reply)
        }
        Stage::Up(base) => answer_later(workers, alloc, base, line, options, checks),
        Stage::Closed => Ok(Reply {
            text: String::new(alloc),
            outcome: Outcome::Closed,
        }),
    }
}

impl Reply {
    /// What a line asks for has happened.
    fn done(text: String) -> Reply
        ensures text { result.text ≡ text }
        ensures outcome { result.outcome ≡ Outcome.Done }
    {
        Reply {
            text,
            outcome: Outcome::Done,
        }
    }

    /// A line was refused.
    fn refused(text: String) -> Reply
        ensures text { result.text ≡ text }
        ensures outcome { result.outcome ≡ Outcome.Refused }
    {
        Reply {
            text,
            outcome: Outcome::Refused,
        }
    }
}

impl Server {
    /// A server before the first line. Its rule base will be checked, if there is a declaration.
    pub fn new(alloc: Global, options: Options, checks: Option<Declaration>) -> Server
        ensures { IsServer result (L.new_server (manner options (declared_of checks))) }
    {
        Server {
            options,
            checks,
            stage: Stage::Unopened,
            line: Vec::new(alloc),
        }
    }

    /// A server that has answered a script's file, if there is one. The bytes of the file are answered as a first line
    /// is, and may be on many lines; then the first line of the input is an item. Without a file it is a new server.
    /// The rule base is checked, if there is a declaration.
    ///
    /// The writer must not have failed before. After an error what was written is a prefix of the answer; after
    /// `Fault::NoMemory` it is nothing.
    pub fn open<T: Workers, W: Sink>(
        workers: &T,
        alloc: Global,
        script: Option<Vec<u8>>,
        checks: Option<Declaration>,
        writer: &mut W,
        options: Options,
    ) -> Result<Server, Fault>
        requires ready { T.ready workers.now }
        requires writer { W.has_failed writer.old ≡ false }
        ensures output { OnOk result (Appends (W.contents writer.old) (W.contents writer.new)
            (L.opening_output (manner options (declared_of checks)) (bytes_of script))) }
        ensures next { IfOk result (λ server.
            IsServer server (L.opened_server (manner options (declared_of checks)) (bytes_of script))) }
        ensures begins { Begins (W.contents writer.old) (W.contents writer.new)
            (L.opening_output (manner options (declared_of checks)) (bytes_of script)) }
        ensures memory { result ≡ Err Fault.NoMemory → writer.new ≡ writer.old }
        ensures write { result ≡ Err Fault.Write ↔ (W.has_failed writer.new ≡ true) }
        ensures whole { OnOk result (W.has_failed writer.new ≡ false) }
        ensures read { result ≢ Err Fault.Read }
    {
        match script {
            Some(file) => Server::open_by_file(workers, alloc, file, checks, writer, options),
            None => Ok(Server::new(alloc, options, checks)),
        }
    }

    /// A server that has answered a script's file.
    fn open_by_file<T: Workers, W: Sink>(
        workers: &T,
        alloc: Global,
        file: Vec<u8>,
        checks: Option<Declaration>,
        writer: &mut W,
        options: Options,
    ) -> Result<Server, Fault>
        requires ready { T.ready workers.now }
        requires writer { W.has_failed writer.old ≡ false }
        ensures output { OnOk result (Appends (W.contents writer.old) (W.contents writer.new)
            (L.opening_output (manner options (declared_of checks)) (Some file.items))) }
        ensures next { IfOk result (λ server.
            IsServer server (L.opened_server (manner options (declared_of checks)) (Some file.items))) }
        ensures begins { Begins (W.contents writer.old) (W.contents writer.new)
            (L.opening_output (manner options (declared_of checks)) (Some file.items)) }
        ensures memory { result ≡ Err Fault.NoMemory → writer.new ≡ writer.old }
        ensures write { result ≡ Err Fault.Write ↔ (W.has_failed writer.new ≡ true) }
        ensures whole { OnOk result (W.has_failed writer.new ≡ false) }
        ensures read { result ≢ Err Fault.Read }
    {
        let stage = Stage::Unopened;
        let mut server = Server {
            options,
            checks,
            stage,
            line: file,
        };
        server.reply(workers, alloc, writer)?;
        Ok(server)
    }

    /// The status of a run that ends at this point: `Refused` if the script was refused.
    pub fn status(&self) -> Status
        ensures { (s : L.Stage) → IsStage self.now.stage s → result ≡ status_at s }
    {
        match self.stage {
            Stage::Unopened | Stage::Up(_) => Status::Reported,
            Stage::Closed => Status::Refused,
        }
    }

    /// Answers the collected line, and clears it for the next. After an error some of what the line asks for may have
    /// happened.
    fn answer<T: Workers>(&mut self, workers: &T, alloc: Global) -> Result<String, AllocError>
        requires ready { T.ready workers.now }
        ensures text { IfOk result (λ text. (s : L.Server) → IsServer self.old s → string_bytes text ≡ L.reply s) }
        ensures next { OnOk result ((s : L.Server) → IsServer self.old s → IsServer self.new (L.answered s)) }
    {
        let checks = self.checks.as_ref();
        let reply = answer_at(
            workers,
            alloc,
            &mut self.stage,
            &self.line,
            self.options,
            checks,
        )?;
        self.line.clear();
        Ok(reply.text)
    }

    /// Writes the answer to the collected line to a device.
    pub(crate) fn reply<T: Workers, W: Sink>(
        &mut self,
        workers: &T,
        alloc: Global,
        writer: &mut W,
    ) -> Result<(), Fault>
        requires ready { T.ready workers.now }
        requires writer { W.has_failed writer.old ≡ false }
        ensures output { OnOk result ((s : L.Server) →
            IsServer self.old s → Appends (W.contents writer.old) (W.contents writer.new) (L.reply s)) }
        ensures next { OnOk result ((s : L.Server) → IsServer self.old s → IsServer self.new (L.answered s)) }
        ensures begins { (s : L.Server) →
            IsServer self.old s → Begins (W.contents writer.old) (W.contents writer.new) (L.reply s) }
        ensures memory { result ≡ Err Fault.NoMemory → writer.new ≡ writer.old }
        ensures write { result ≡ Err Fault.Write ↔ (W.has_failed writer.new ≡ true) }
        ensures whole { OnOk result (W.has_failed writer.new ≡ false) }
        ensures read { result ≢ Err Fault.Read }
    {
        let text = self.answer(workers, alloc)?;
        write_text(writer, text.as_bytes())?;
        Ok(())
    }

    /// Takes one more byte.
    fn feed_byte<T: Workers, W: Sink>(
        &mut self,
        workers: &T,
        alloc: Global,
        writer: &mut W,
        byte: u8,
    ) -> Result<(), Fault>
        requires ready { T.ready workers.now }
        requires writer { W.has_failed writer.old ≡ false }
        ensures output { OnOk result ((s : L.Server) →
            IsServer self.old s → Appends (W.contents writer.old) (W.contents writer.new) (L.byte_output s byte)) }
        ensures next { OnOk result ((s : L.Server) → IsServer self.old s → IsServer self.new (L.next s byte)) }
        ensures begins { (s : L.Server) →
            IsServer self.old s → Begins (W.contents writer.old) (W.contents writer.new) (L.byte_output s byte) }
        ensures memory { result ≡ Err Fault.NoMemory → writer.new ≡ writer.old }
        ensures write { result ≡ Err Fault.Write ↔ (W.has_failed writer.new ≡ true) }
        ensures whole { OnOk result (W.has_failed writer.new ≡ false) }
        ensures read { result ≢ Err Fault.Read }
    {
        if byte == b'\n' {
            return self.reply(workers, alloc, writer);
        }
        if self.line.len() < MOST_KEPT {
            self.line.push(byte)?;
        }
        Ok(())
    }

    /// Takes a piece of the input. When it returns `Ok`, all lines that are complete with the piece have been answered.
    ///
    /// The writer must not have failed before. After an error what was written is a prefix of these answers; after
    /// `Fault::NoMemory` it is whole answers.
    pub fn feed<T: Workers, W: Sink>(
        self,
        workers: &T,
        alloc: Global,
        writer: &mut W,
        piece: &[u8],
    ) -> Result<Server, Fault>
        requires ready { T.ready workers.now }
        requires writer { W.has_failed writer.old ≡ false }
        ensures output { OnOk result ((s : L.Server) → IsServer self s →
            Appends (W.contents writer.old) (W.contents writer.new) (L.piece_output s piece.now)) }
        ensures next { IfOk result (λ later. (s : L.Server) → IsServer self s → IsServer later (L.after s piece.now)) }
        ensures begins { (s : L.Server) →
            IsServer self s → Begins (W.contents writer.old) (W.contents writer.new) (L.piece_output s piece.now) }
        ensures memory { result ≡ Err Fault.NoMemory → (s : L.Server) →
            IsServer self s → FirstAnswers (W.contents writer.old) (W.contents writer.new) s piece.now }
        ensures write { result ≡ Err Fault.Write ↔ (W.has_failed writer.new ≡ true) }
        ensures whole { OnOk result (W.has_failed writer.new ≡ false) }
        ensures read { result ≢ Err Fault.Read }
    {
        let mut server = self;
        for byte in piece {
            server.feed_byte(workers, alloc, writer, *byte)?;
        }
        Ok(server)
    }

    /// Answers a last line without a line feed, if one has begun.
    fn reply_last<T: Workers, W: Sink>(
        &mut self,
        workers: &T,
        alloc: Global,
        writer: &mut W,
    ) -> Result<(), Fault>
        requires ready { T.ready workers.now }
        requires writer { W.has_failed writer.old ≡ false }
        ensures output { OnOk result ((s : L.Server) →
            IsServer self.old s → Appends (W.contents writer.old) (W.contents writer.new) (L.end_output s)) }
        ensures stage { OnOk result ((s : L.Server) →
            IsServer self.old s → IsStage self.new.stage (L.stage_after s.manner s.stage (begun s.line))) }
        ensures begins { (s : L.Server) →
            IsServer self.old s → Begins (W.contents writer.old) (W.contents writer.new) (L.end_output s) }
        ensures memory { result ≡ Err Fault.NoMemory → writer.new ≡ writer.old }
        ensures write { result ≡ Err Fault.Write ↔ (W.has_failed writer.new ≡ true) }
        ensures whole { OnOk result (W.has_failed writer.new ≡ false) }
        ensures read { result ≢ Err Fault.Read }
    {
        if self.line.is_empty() {
            return Ok(());
        }
        self.reply(workers, alloc, writer)
    }

    /// Takes the end of the input: answers a last line without a line feed. The result is the status of the run.
    ///
    /// The writer must not have failed before. After an error what was written is a prefix of the answer; after
    /// `Fault::NoMemory` it is nothing.
    pub fn finish<T: Workers, W: Sink>(
        self,
        workers: &T,
        alloc: Global,
        writer: &mut W,
    ) -> Result<Status, Fault>
        requires ready { T.ready workers.now }
        requires writer { W.has_failed writer.old ≡ false }
        ensures output { OnOk result ((s : L.Server) →
            IsServer self s → Appends (W.contents writer.old) (W.contents writer.new) (L.end_output s)) }
        ensures status { IfOk result (λ status. (s : L.Server) →
            IsServer self s → status ≡ status_at (L.stage_after s.manner s.stage (begun s.line))) }
        ensures begins { (s : L.Server) →
            IsServer self s → Begins (W.contents writer.old) (W.contents writer.new) (L.end_output s) }
        ensures memory { result ≡ Err Fault.NoMemory → writer.new ≡ writer.old }
        ensures write { result ≡ Err Fault.Write ↔ (W.has_failed writer.new ≡ true) }
        ensures read { result ≢ Err Fault.Read }
    {
        let mut server = self;
        server.reply_last(workers, alloc, writer)?;
        Ok(server.status())
    }
}
