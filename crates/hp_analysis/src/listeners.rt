//! The rules by what may end an occurrence of their events. So no statement is compared with each rule.

ghost use Rattle.std.specs.Prelude.{◌≡◌, IfOk, OnOk, length};
ghost use Rattle.hp_model.specs.Occurrences.{Primitive};
ghost use Rattle.hp_model.specs.Idle.{never};
ghost use Rattle.hp_event.specs.Mapped.{pattern};
ghost use Rattle.hp_detect.specs.Mapped.{event};
ghost use Rattle.hp_rule.specs.Statements.{rule, statement};
ghost use Rattle.hp_rule.specs.Libraries as libraries;
ghost use Rattle.hp_rule.specs.Noted.{noted_if};
ghost use Rattle.hp_rule.specs.RuleLists.{listed};
ghost use Rattle.hp_analysis.specs.Listeners.{listed_by, pattern_ends, may_end, ending};
ghost use Rattle.hp_analysis.specs.Installed.{with_only, rule_in};

use crate::sets::has;
use hp_detect::EventExpr;
use hp_event::Pattern;
use hp_rule::{Library, Rule, RuleLists, Stmt, Subject, rule_number};
use hp_value::{ClassNo, RuleNo};
use std::alloc::{AllocError, Global};

/// Adds a rule to the list of a pattern that may end its event. Moments have no list.
fn add_pattern(
    listeners: &mut RuleLists,
    alloc: Global,
    wanted: &Pattern,
    number: RuleNo,
) -> Result<(), AllocError>
    ensures { OnOk result ((p : Primitive) →
        listed listeners.new p ≡ noted_if (pattern_ends (pattern wanted.now) p) number (listed listeners.old p)) }
{
    match wanted {
        Pattern::At(_) | Pattern::Every { .. } => Ok(()),
        Pattern::Create(_)
        | Pattern::Update(_)
        | Pattern::Delete(_)
        | Pattern::Signal(_)
        | Pattern::Commit => listeners.add(alloc, Subject::of_pattern(wanted), number),
    }
}

/// Adds a rule to the lists of all patterns that may end its event.
fn add_event(
    listeners: &mut RuleLists,
    alloc: Global,
    expr: &EventExpr,
    number: RuleNo,
) -> Result<(), AllocError>
    ensures { OnOk result ((p : Primitive) →
        listed listeners.new p ≡ noted_if (may_end (event expr.now) p) number (listed listeners.old p)) }
{
    match expr {
        EventExpr::One(pattern) => add_pattern(listeners, alloc, pattern, number),
        EventExpr::Or(a, b) => {
            add_event(listeners, alloc, a, number)?;
            add_event(listeners, alloc, b, number)?;
            Ok(())
        }
        EventExpr::Seq(_, b) | EventExpr::Closure(_, b) => add_event(listeners, alloc, b, number),
    }
}

/// The number after those of the library's classes, which is no class.
///
/// An error means that there is no such class number.
pub(crate) fn no_class(library: &Library) -> Result<ClassNo, AllocError>
    ensures { IfOk result (λ class. class ≡ length (libraries.library library.now).classes) }
{
    ClassNo::try_from(library.classes().len()).map_err(|_| AllocError)
}

/// Adds a rule to the lists of all patterns that may end its event; one outside the set waits for an object of no
/// class.
fn add_rule(
    listeners: &mut RuleLists,
    alloc: Global,
    present: &[bool],
    none: ClassNo,
    number: RuleNo,
    listening: &Rule,
) -> Result<(), AllocError>
    ensures { OnOk result ((p : Primitive) → listed listeners.new p
        ≡ noted_if (may_end (rule_in present.now none number (rule listening.now)).event p) number
        (listed listeners.old p)) }
{
    if has(present, number as usize) {
        return add_event(listeners, alloc, &listening.event, number);
    }
    add_pattern(listeners, alloc, &Pattern::Create(none), number)
}

/// The listeners of a library in which the rules outside the set do nothing: for each primitive occurrence except
/// moments the rules whose event may end with it, in rule order and without duplicates.
///
/// An error means that memory ran out, or that there are more rules or classes than numbers for them.
pub(crate) fn listeners_of(
    alloc: Global,
    library: &Library,
    present: &[bool],
) -> Result<RuleLists, AllocError>
    ensures { IfOk result (λ listeners. (p : Primitive) → listed listeners p
        ≡ ending (with_only present.now (libraries.library library.now)).rules p) }
{
    let none = no_class(library)?;
    let mut listeners = RuleLists::new(alloc);
    for (n, rule) in library.rules().iter().enumerate() {
        add_rule(&mut listeners, alloc, present, none, rule_number(n)?, rule)?;
    }
    Ok(listeners)
}

/// The rules whose event may end with what the statement signals itself, in rule order.
pub(crate) fn listening<'a>(listeners: &'a RuleLists, s: &Stmt) -> &'a [RuleNo]
    ensures { result.now ≡ listed_by listeners.entry.now (statement s.now) }
{
    match s {
        Stmt::Create { class, .. } => listeners.rules(Subject::Created(*class)),
        Stmt::Update { class, .. } => listeners.rules(Subject::Updated(*class)),
        Stmt::Delete { class, .. } => listeners.rules(Subject::Deleted(*class)),
        Stmt::Signal { name, .. } => listeners.rules(Subject::Signalled(name.as_str())),
        _ => &[],
    }
}
