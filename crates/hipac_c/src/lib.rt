//! A rule base in the process of a C program.
//!
//! `include/hipac.h` says what each function does, and what its caller owes.
#![tactic(auto)]

ghost use Rattle.std.specs.Prelude.{◌≡◌, IfOk, None};
ghost use Rattle.hp_live.specs.Kept.{declared_of};
ghost use Rattle.hp_live.specs.Sessions.{Gave, GaveBy, in_json, show_line, get_line};
ghost use Rattle.hipac_c.specs.Exports.{Opened, OpenedBy, Answered, Again, Told, Nothing, ChecksBy, has, code};

mod handle;
mod loose;

use handle::Handle;
use hp_analysis::Declaration;
use hp_checked::declaration_for;
use hp_live::{Options, Outcome, Session};
use std::alloc::{AllocError, Global};
use std::ptr::null;

/// Done.
const OK: i32 = 0;

/// The line or the script is wrong. The answer says why.
const REFUSED: i32 = 1;

/// There is no memory. After this in a line the base only closes.
const MEMORY: i32 = 2;

/// The handle has no base, or its script was refused before.
const CLOSED: i32 = 3;

/// An option isn't known.
const UNKNOWN: i32 = 4;

/// Answers also show what each transaction did.
const TREE: u32 = 1;

/// The script and the lines are text in the notation.
const TEXT: u32 = 2;

/// What could ever end with `A3`, `A6` or `A7` is refused.
const CHECKED: u32 = 4;

/// The sum of all options.
const MOST_OPTIONS: u32 = 7;

/// The version of these functions.
const VERSION: u32 = 1;

/// The status for what became of a line.
fn status_of(outcome: Outcome) -> i32
    ensures { result ≡ code outcome }
{
    match outcome {
        Outcome::Done => OK,
        Outcome::Refused => REFUSED,
        Outcome::Closed => CLOSED,
    }
}

/// Whether one of the options is set.
fn has(options: u32, option: u32) -> bool
    ensures { result ≡ has options option }
{
    options & option != 0
}

/// A declaration for a script, if its base is checked.
fn checks_for(
    alloc: Global,
    script: &[u8],
    is_text: bool,
    checked: bool,
) -> Result<Option<Declaration>, AllocError>
    ensures { IfOk result (λ checks. ChecksBy checked (declared_of checks)) }
{
    if !checked {
        return Ok(None);
    }
    let given = Declaration::new(alloc);
    Ok(Some(declaration_for(alloc, script, is_text, given)?))
}

/// Says where there is no answer.
fn tell_nothing(answer: &mut *const u8, length: &mut usize)
    ensures { Nothing answer.new length.new }
{
    *answer = null();
    *length = 0;
}

/// Says that the handle has no base. The result is the status.
fn tell_closed(answer: &mut *const u8, length: &mut usize) -> i32
    ensures nothing { Nothing answer.new length.new }
    ensures status { result ≡ code Outcome.Closed }
{
    tell_nothing(answer, length);
    CLOSED
}

/// Says what came of a line, and where its answer is. The result is the status.
fn tell(
    base: &Session,
    came: Result<Outcome, AllocError>,
    answer: &mut *const u8,
    length: &mut usize,
) -> i32
    ensures { Told base.now came answer.new length.new result }
{
    match came {
        Ok(outcome) => {
            *answer = base.answer.as_ptr();
            *length = base.answer.len();
            status_of(outcome)
        }
        Err(_) => {
            tell_nothing(answer, length);
            MEMORY
        }
    }
}

/// Opens a base by its script, and answers that. A base that the handle has is closed first.
#[unsafe(no_mangle)]
pub extern "C" fn hipac_open(
    alloc: Global,
    script: &[u8],
    options: u32,
    handle: &mut Handle,
    answer: &mut *const u8,
    length: &mut usize,
) -> i32
    ensures { Opened script.now options handle.new.kept answer.new length.new result }
{
    let _before = handle.take(alloc);
    tell_nothing(answer, length);
    if MOST_OPTIONS < options {
        return UNKNOWN;
    }
    match open_boxed(alloc, script, options) {
        Ok((base, outcome)) => {
            let status = tell(&base, Ok(outcome), answer, length);
            handle.put(alloc, base);
            status
        }
        Err(_) => MEMORY,
    }
}

/// A base in its box.
fn open_boxed(
    alloc: Global,
    script: &[u8],
    options: u32,
) -> Result<(Box<Session>, Outcome), AllocError>
    ensures { IfOk result (λ opened. OpenedBy script.now options opened.0.value opened.1) }
{
    let text = has(options, TEXT);
    let checks = checks_for(alloc, script, text, has(options, CHECKED))?;
    let options = Options {
        workers: 1,
        tree: has(options, TREE),
        text,
    };
    let (base, outcome) = Session::open(alloc, script, options, checks)?;
    Ok((Box::new(alloc, base)?, outcome))
}

/// Answers a line. The answer's bytes stay with the base, and lie at `answer` until the next call with this base.
#[unsafe(no_mangle)]
pub extern "C" fn hipac_line(
    alloc: Global,
    handle: &mut Handle,
    line: &[u8],
    answer: &mut *const u8,
    length: &mut usize,
) -> i32
    ensures { Answered (λ base outcome m now. Gave base outcome m now line.now)
        handle.old.kept handle.new.kept answer.new length.new result }
{
    match handle.take(alloc) {
        Some(mut base) => {
            let came = base.line(alloc, line);
            let status = tell(&base, came, answer, length);
            handle.put(alloc, base);
            status
        }
        None => tell_closed(answer, length),
    }
}

/// Answers the line that asks for the whole state.
#[unsafe(no_mangle)]
pub extern "C" fn hipac_show(
    alloc: Global,
    handle: &mut Handle,
    answer: &mut *const u8,
    length: &mut usize,
) -> i32
    ensures { Answered (λ base outcome m now. Gave base outcome m now (show_line m.is_text))
        handle.old.kept handle.new.kept answer.new length.new result }
{
    match handle.take(alloc) {
        Some(mut base) => {
            let came = base.show(alloc);
            let status = tell(&base, came, answer, length);
            handle.put(alloc, base);
            status
        }
        None => tell_closed(answer, length),
    }
}

/// Answers the JSON line that asks for the object of a class and a key, also where the other lines are text.
#[unsafe(no_mangle)]
pub extern "C" fn hipac_get(
    alloc: Global,
    handle: &mut Handle,
    class: &[u8],
    key: i64,
    answer: &mut *const u8,
    length: &mut usize,
) -> i32
    ensures { Answered (λ base outcome m now. GaveBy (in_json m) base outcome m now (get_line class.now key))
        handle.old.kept handle.new.kept answer.new length.new result }
{
    match handle.take(alloc) {
        Some(mut base) => {
            let came = base.get(alloc, class, key);
            let status = tell(&base, came, answer, length);
            handle.put(alloc, base);
            status
        }
        None => tell_closed(answer, length),
    }
}

/// The answer to the last line again.
#[unsafe(no_mangle)]
pub extern "C" fn hipac_again(
    alloc: Global,
    handle: &mut Handle,
    answer: &mut *const u8,
    length: &mut usize,
) -> i32
    ensures base { handle.new.kept ≡ handle.old.kept }
    ensures answer { Again handle.new.kept answer.new length.new result }
{
    match handle.take(alloc) {
        Some(base) => {
            let came = if base.lost {
                Err(AllocError)
            } else {
                Ok(Outcome::Done)
            };
            let status = tell(&base, came, answer, length);
            handle.put(alloc, base);
            status
        }
        None => tell_closed(answer, length),
    }
}

/// Closes the base.
#[unsafe(no_mangle)]
pub extern "C" fn hipac_close(alloc: Global, handle: &mut Handle)
    ensures { handle.new.kept ≡ None }
{
    let _base = handle.take(alloc);
}

/// The version of these functions.
#[unsafe(no_mangle)]
pub extern "C" fn hipac_version() -> u32
    ensures { result ≡ 1 }
{
    VERSION
}
