//! Reading scripts and lines.

ghost use Rattle.std.specs.Prelude.{◌≡◌, Ok, IfOk};
ghost use Rattle.hp_rule.specs.Libraries as libraries;
ghost use Rattle.hp_script.specs.Asked as asked;
ghost use Rattle.hp_script.specs.Mapped.{timed_script};
ghost use Rattle.hp_script.specs.Versions.{version_view};
ghost use Rattle.hp_notation.specs.Readings.{timed_script_in, request_in, Reads};
ghost use Rattle.hp_analysis.specs.Declarations.{declared, Keeps, KeepsFired};
ghost use Rattle.hp_lines.specs.Checked as definitions;
ghost use Rattle.hp_lines.specs.Checked.{passed, checked_by};
ghost use Rattle.hp_checked.specs.Readings.{declared_for};

use crate::faults::{request_fault, script_fault};
use hp_analysis::{Declaration, infer_with};
use hp_notation::{Unread, read_request, read_script};
use hp_rule::Library;
use hp_script::{Request, Script, Version};
use std::alloc::{AllocError, Global};
use std::sync::Arc;

/// How scripts and lines are read.
#[derive(Clone, Copy)]
pub struct Reading<'a> {
    /// Whether they are text in the notation, and not JSON.
    pub is_text: bool,
    /// What is declared of signals, if the rule base is checked.
    pub checks: Option<&'a Declaration>,
}

/// The script, unless it is refused by what is declared of signals.
fn checked_script(
    alloc: Global,
    script: Script,
    declaration: &Declaration,
) -> Result<Script, Unread>
    ensures { Reads timed_script result
        (passed (definitions.script_fault (declared declaration.now)) (Ok (timed_script script))) }
{
    match script_fault(alloc, &script, declaration)? {
        Some(line) => Err(Unread::Refused(line)),
        None => Ok(script),
    }
}

/// The request, unless it is refused by what is declared of signals.
fn checked_request(
    alloc: Global,
    library: &Library,
    request: Request,
    declaration: &Declaration,
) -> Result<Request, Unread>
    ensures { Reads asked.request result
        (passed (definitions.request_fault (libraries.library library.now) (declared declaration.now))
        (Ok (asked.request request))) }
{
    match request_fault(alloc, library, &request, declaration)? {
        Some(line) => Err(Unread::Refused(line)),
        None => Ok(request),
    }
}

impl Reading<'_> {
    /// Reads a script from its bytes.
    ///
    /// `Refused` has the line of the refusal: that of the first fault in the bytes, or else, if the rule base is
    /// checked, `refused S8 kinds` with the place of the first value that isn't known to be used as what it is, or
    /// `refused S8 depth`. `Memory` means that memory ran out.
    pub fn script(&self, alloc: Global, bytes: &[u8]) -> Result<Script, Unread>
        ensures { Reads timed_script result (checked_by (declared_for self.now) definitions.script_fault
            (timed_script_in self.now.is_text bytes.now)) }
    {
        let script = read_script(alloc, bytes, self.is_text)?;
        match self.checks {
            Some(declaration) => checked_script(alloc, script, declaration),
            None => Ok(script),
        }
    }

    /// Reads a line to a rule base with this library, whose script has this version, and whose clock is at `clock`.
    ///
    /// The errors are those of `script`.
    pub fn request(
        &self,
        alloc: Global,
        version: Version,
        library: &Arc<Library>,
        clock: u64,
        line: &[u8],
    ) -> Result<Request, Unread>
        ensures { Reads asked.request result (checked_by (declared_for self.now)
            (definitions.request_fault (libraries.library library.now.value))
            (request_in self.now.is_text (version_view version) (libraries.library library.now.value) clock line.now)) }
    {
        let request = read_request(alloc, version, library, clock, line, self.is_text)?;
        match self.checks {
            Some(declaration) => checked_request(alloc, library, request, declaration),
            None => Ok(request),
        }
    }
}

/// A declaration for the script in these bytes, in which the signals that are given keep their signatures. The others
/// are found by how the script's rules use their arguments; if the bytes are no script, there are no others. Statements
/// may fire at least the rules that the given declaration lets them fire.
///
/// A rule base may be checked by any declaration. So a wrong guess can only refuse what need not be refused.
///
/// An error means that memory ran out.
pub fn declaration_for(
    alloc: Global,
    bytes: &[u8],
    is_text: bool,
    given: Declaration,
) -> Result<Declaration, AllocError>
    ensures signatures { IfOk result (λ declaration. Keeps (declared given) (declared declaration)) }
    ensures fired { IfOk result (λ declaration. KeepsFired (declared given) (declared declaration)) }
{
    match read_script(alloc, bytes, is_text) {
        Ok(script) => {
            let inferred = infer_with(alloc, &script.library, &script.items, given)?;
            Ok(inferred.declaration)
        }
        Err(Unread::Refused(_)) => Ok(given),
        Err(Unread::Memory) => Err(AllocError),
    }
}
