//! Vetoes: those of statements, and those of closed rules.

ghost use Rattle.std.specs.Prelude.{◌≡◌, IfOk, OnOk, option_map};
ghost use Rattle.hp_model.specs.Rules.{Library as ModelLibrary, rule_at, veto_with};
ghost use Rattle.hp_model.specs.Firing as model;
ghost use Rattle.hp_model.specs.Firing.{Level, veto_of, vetoes};
ghost use Rattle.hp_value.specs.Mapped.{expression, value, veto as veto_in};
ghost use Rattle.hp_view.specs.Seeing.{Seeing};
ghost use Rattle.hp_fire.specs.Mapped.{context as context_in, course as course_in, end};
ghost use Rattle.hp_fire.specs.Runs.{Adds, Steps};
ghost use Rattle.hp_fire.specs.Statements.{veto_statement};
ghost use Rattle.hp_rule.specs.Mapped.{library};

use crate::context::Context;
use crate::course::{Course, End};
use hp_rule::Library;
use hp_value::{Expr, Halt, RuleNo, Value, Veto};
use std::alloc::{AllocError, Global};

// ---- statements

/// Runs a statement `veto`, perhaps with a message. A fault of the message ends the statement, and nothing is vetoed.
#[inline(never)]
pub(crate) fn run_veto(
    alloc: Global,
    context: &Context<'_>,
    message: &Option<Box<Expr>>,
    course: &mut Course,
) -> Result<(), Halt>
    ensures { (lib : ModelLibrary) (level : Level) (view : Seeing)
        → let statement = veto_statement message.now in
        Steps lib (model.run_statement statement level (context_in context.now)) view view
        (course_in course.old) (course_in course.new) result }
{
    match message {
        Some(message) => veto_saying(alloc, context, message, course),
        None => {
            vetoed(alloc, context.rule, None, course)?;
            Ok(())
        }
    }
}

/// Runs a statement `veto` with a message.
fn veto_saying(
    alloc: Global,
    context: &Context<'_>,
    message: &Expr,
    course: &mut Course,
) -> Result<(), Halt>
    ensures { (lib : ModelLibrary) (level : Level) (view : Seeing)
        → let statement = veto_with (expression message.now) in
        Steps lib (model.run_statement statement level (context_in context.now)) view view
        (course_in course.old) (course_in course.new) result }
{
    let said = message.eval(alloc, &context.env)?;
    vetoed(alloc, context.rule, Some(said), course)?;
    Ok(())
}

/// Ends a course with a veto. In the body of a script a veto does nothing; a checked body has none.
fn vetoed(
    alloc: Global,
    rule: Option<RuleNo>,
    message: Option<Value>,
    course: &mut Course,
) -> Result<(), AllocError>
    ensures { OnOk result ((lib : ModelLibrary) (view : Seeing)
        → Adds lib (vetoes rule (option_map value message)) view view (course_in course.old) (course_in course.new)) }
{
    match rule {
        Some(rule) => {
            let veto = Veto::new(alloc, rule, message)?;
            course.end_with(End::Veto(veto));
            Ok(())
        }
        None => {
            course.end_with(End::Done);
            Ok(())
        }
    }
}

// ---- firings

/// The veto with which the firing of an action of this rule ends, where the action ended so; `None` if it doesn't veto.
/// A closed rule vetoes whenever its action doesn't commit.
pub(crate) fn action_veto(
    alloc: Global,
    lib: &Library,
    rule: RuleNo,
    how: &End,
) -> Result<Option<Veto>, AllocError>
    ensures { let closed = (rule_at (library lib.now) rule).closed in
        IfOk result (λ v. option_map veto_in v ≡ model.action_veto closed rule (end how.now)) }
{
    if is_closed(lib, rule) {
        closed_veto(alloc, rule, how)
    } else {
        own_veto(how)
    }
}

/// The veto of a closed rule whose action ended so; `None` if it commits. The veto of another firing inside the action
/// is passed on as it is.
fn closed_veto(alloc: Global, rule: RuleNo, how: &End) -> Result<Option<Veto>, AllocError>
    ensures { IfOk result (λ v. option_map veto_in v ≡ model.closed_veto rule (end how.now)) }
{
    match how {
        End::Done => Ok(None),
        End::Abort(_) => Ok(Some(Veto::new(alloc, rule, None)?)),
        End::Vetoed(veto) | End::Veto(veto) => Ok(Some(veto.clone()?)),
    }
}

/// The veto with which an action ended, if it did.
fn own_veto(how: &End) -> Result<Option<Veto>, AllocError>
    ensures { IfOk result (λ v. option_map veto_in v ≡ veto_of (end how.now)) }
{
    match how {
        End::Done | End::Abort(_) | End::Vetoed(_) => Ok(None),
        End::Veto(veto) => Ok(Some(veto.clone()?)),
    }
}

/// The veto with which the firing of this rule's condition ends if the condition faults; `None` if it doesn't veto.
pub(crate) fn fault_veto(
    alloc: Global,
    lib: &Library,
    rule: RuleNo,
) -> Result<Option<Veto>, AllocError>
    ensures { let closed = (rule_at (library lib.now) rule).closed in
        IfOk result (λ v. option_map veto_in v ≡ model.fault_veto closed rule) }
{
    if is_closed(lib, rule) {
        Ok(Some(Veto::new(alloc, rule, None)?))
    } else {
        Ok(None)
    }
}

/// Whether a rule is closed. A rule that the library lacks isn't.
fn is_closed(lib: &Library, rule: RuleNo) -> bool
    ensures { result ≡ (rule_at (library lib.now) rule).closed }
{
    match lib.rule(rule) {
        Some(rule) => rule.closed,
        None => false,
    }
}
