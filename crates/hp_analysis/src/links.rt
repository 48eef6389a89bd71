//! Why a rule may trigger another one: what in the script signals, and what of the other rule's event that ends.

ghost use Rattle.std.specs.Prelude.{◌≡◌, IfOk};
ghost use Rattle.hp_model.specs.Events.{matches, pattern_event};
ghost use Rattle.hp_model.specs.Rules.{fire};
ghost use Rattle.hp_event.specs.Mapped.{pattern};
ghost use Rattle.hp_detect.specs.Mapped.{event};
ghost use Rattle.hp_rule.specs.Statements.{statement, body_in, rule};
ghost use Rattle.hp_rule.specs.Places.{steps};
ghost use Rattle.hp_analysis.specs.Links as model;
ghost use Rattle.hp_analysis.specs.Signalled.{primitive, links, paths};

use crate::forms::{is_detached, may_detach};
use hp_event::Pattern;
use hp_rule::{EventExpr, Member, PathStep, Place, Rule, Stmt};
use hp_value::{ClassNo, RuleNo};
use std::alloc::{AllocError, Global};

/// Why a rule of a chain may trigger the next one. Both paths begin at the script's root.
#[derive(Debug, PartialEq, Eq, Drop)]
pub struct Link {
    /// The path of a statement in the rule's action; or of the rule's mode, if a transaction of its own commits.
    pub by: Vec<PathStep>,
    /// The path of a pattern of the next rule's event; or of that rule, if the statement fires it.
    pub event: Vec<PathStep>,
}

/// What is signalled, whatever its key, rows and arguments are.
#[derive(Clone, Copy)]
pub(crate) enum Signalled<'a> {
    Created(ClassNo),
    Updated(ClassNo),
    Deleted(ClassNo),
    Named(&'a str),
    Commit,
}

/// A rule that is to be triggered, by its number.
#[derive(Clone, Copy)]
pub(crate) struct Target<'a> {
    pub alloc: Global,
    pub number: usize,
    pub event: &'a EventExpr,
}

/// Whether a pattern matches what is signalled.
fn is_matched(wanted: &Pattern, by: Signalled<'_>) -> bool
    ensures { result ≡ matches (pattern wanted.now) (primitive by.entry) }
{
    match (wanted, by) {
        (Pattern::Create(wanted), Signalled::Created(class)) => *wanted == class,
        (Pattern::Update(wanted), Signalled::Updated(class)) => *wanted == class,
        (Pattern::Delete(wanted), Signalled::Deleted(class)) => *wanted == class,
        (Pattern::Signal(wanted), Signalled::Named(name)) => wanted.as_str() == name,
        (Pattern::Commit, Signalled::Commit) => true,
        _ => false,
    }
}

/// The path of a pattern at a place, if it matches what is signalled.
fn pattern_path(
    alloc: Global,
    place: &Place<'_>,
    wanted: &Pattern,
    by: Signalled<'_>,
) -> Result<Option<Vec<PathStep>>, AllocError>
    ensures { IfOk result (λ found. paths found
        ≡ model.event_path (steps place.now) (pattern_event (pattern wanted.now)) (primitive by.entry)) }
{
    if is_matched(wanted, by) {
        return Ok(Some(place.path(alloc)?));
    }
    Ok(None)
}

/// The path of the first pattern of an event at a place that what is signalled may end.
fn event_path(
    alloc: Global,
    place: &Place<'_>,
    expr: &EventExpr,
    by: Signalled<'_>,
) -> Result<Option<Vec<PathStep>>, AllocError>
    ensures { IfOk result (λ found. paths found
        ≡ model.event_path (steps place.now) (event expr.now) (primitive by.entry)) }
{
    match expr {
        EventExpr::One(wanted) => pattern_path(alloc, place, wanted, by),
        EventExpr::Or(a, b) => match event_path(alloc, &place.item(1), a, by)? {
            Some(path) => Ok(Some(path)),
            None => event_path(alloc, &place.item(2), b, by),
        },
        EventExpr::Seq(_, b) | EventExpr::Closure(_, b) => {
            event_path(alloc, &place.item(2), b, by)
        }
    }
}

/// The link from a place to what is ended, if anything is.
fn linked(
    alloc: Global,
    place: &Place<'_>,
    ended: Option<Vec<PathStep>>,
) -> Result<Option<Link>, AllocError>
    ensures { IfOk result (λ l. links l ≡ model.linked (steps place.now) (paths ended)) }
{
    match ended {
        Some(event) => Ok(Some(Link {
            by: place.path(alloc)?,
            event,
        })),
        None => Ok(None),
    }
}

/// The link from a place where something is signalled.
fn link_by(
    place: &Place<'_>,
    target: Target<'_>,
    by: Signalled<'_>,
) -> Result<Option<Link>, AllocError>
    ensures { IfOk result (λ l. links l ≡ model.by_signal target.entry.number (event target.entry.event.now)
        (steps place.now) (primitive by.entry)) }
{
    let rules = Place::Member(Member::Rules);
    let rule = rules.item(target.number);
    let ended = event_path(target.alloc, &rule.item(1), target.event, by)?;
    linked(target.alloc, place, ended)
}

/// The link from a statement that fires a rule, if that is the one.
fn fire_link(
    place: &Place<'_>,
    target: Target<'_>,
    fired: RuleNo,
) -> Result<Option<Link>, AllocError>
    ensures { IfOk result (λ l. links l ≡ model.statement_link target.entry.number (event target.entry.event.now)
        (steps place.now) (fire fired)) }
{
    if fired as usize != target.number {
        return Ok(None);
    }
    let rules = Place::Member(Member::Rules);
    let rule = rules.item(target.number);
    Ok(Some(Link {
        by: place.path(target.alloc)?,
        event: rule.path(target.alloc)?,
    }))
}

/// The link from the first statement, of this one and those in it, that may trigger the rule.
#[cycle(linking)]
fn statement_link(
    s: &Stmt,
    place: &Place<'_>,
    target: Target<'_>,
) -> Result<Option<Link>, AllocError>
    ensures { IfOk result (λ l. links l ≡ model.statement_link target.entry.number (event target.entry.event.now)
        (steps place.now) (statement s.now)) }
{
    match s {
        Stmt::Create { class, .. } => link_by(place, target, Signalled::Created(*class)),
        Stmt::Update { class, .. } => link_by(place, target, Signalled::Updated(*class)),
        Stmt::Delete { class, .. } => link_by(place, target, Signalled::Deleted(*class)),
        Stmt::Signal { name, .. } => link_by(place, target, Signalled::Named(name.as_str())),
        Stmt::If {
            then_body,
            else_body,
            ..
        } => match body_link(then_body, &place.item(2), target)? {
            Some(link) => Ok(Some(link)),
            None => body_link(else_body, &place.item(3), target),
        },
        Stmt::Each { body, .. } => body_link(body, &place.item(4), target),
        Stmt::For { body, .. } => body_link(body, &place.item(2), target),
        Stmt::With { body, .. } => body_link(body, &place.item(4), target),
        Stmt::Let { body, .. } => body_link(body, &place.item(3), target),
        Stmt::Sub { body, otherwise } => match body_link(body, &place.item(1), target)? {
            Some(link) => Ok(Some(link)),
            None => body_link(otherwise, &place.item(2), target),
        },
        Stmt::Fire(fired) => fire_link(place, target, *fired),
        _ => Ok(None),
    }
}

/// The first link from a statement of a body to the target, if there is one.
#[cycle(linking)]
pub(crate) fn body_link(
    body: &[Stmt],
    place: &Place<'_>,
    target: Target<'_>,
) -> Result<Option<Link>, AllocError>
    ensures { IfOk result (λ l. links l ≡ model.body_link target.entry.number (event target.entry.event.now)
        (steps place.now) 0 (body_in body.now)) }
{
    for (i, s) in body.iter().enumerate() {
        if let Some(link) = statement_link(s, &place.item(i), target)? {
            return Ok(Some(link));
        }
    }
    Ok(None)
}

/// The link from the mode of the rule of this number, if its tasks may be transactions of their own, and the commit of
/// one triggers the other rule.
pub(crate) fn commit_link(
    number: usize,
    acting: &Rule,
    target: Target<'_>,
) -> Result<Option<Link>, AllocError>
    ensures { IfOk result (λ l. links l ≡ model.commit_link number (rule acting.now) target.entry.number
        (event target.entry.event.now)) }
{
    if !may_detach(acting) {
        return Ok(None);
    }
    let rules = Place::Member(Member::Rules);
    let rule = rules.item(number);
    let mode = if is_detached(acting.ec) { 2 } else { 4 };
    link_by(&rule.item(mode), target, Signalled::Commit)
}
