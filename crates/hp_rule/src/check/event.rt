//! Events.

ghost use Rattle.hp_event.specs.Mapped as events;
ghost use Rattle.hp_detect.specs.Mapped.{event};
ghost use Rattle.hp_model.specs.Checked.{pattern_check, operands_check, event_check};
ghost use Rattle.hp_rule.specs.Faults.{Passes};
ghost use Rattle.hp_rule.specs.Places.{steps};

use crate::check::name::{check_name, check_number};
use crate::fault::{CheckError, Limit, over_limit, wrong_shape};
use crate::place::Place;
use hp_detect::EventExpr;
use hp_event::Pattern;
use std::alloc::Global;

fn check_pattern(
    alloc: Global,
    place: &Place<'_>,
    classes: usize,
    pattern: &Pattern,
) -> Result<(), CheckError>
    ensures { Passes result (pattern_check classes (steps place.now) (events.pattern pattern.now)) }
{
    match pattern {
        Pattern::Create(class) | Pattern::Update(class) | Pattern::Delete(class) => {
            check_number(alloc, &place.item(1), classes, *class)
        }
        Pattern::Signal(name) => check_name(alloc, &place.item(1), name.as_str()),
        Pattern::Every { period, .. } if *period == 0 => Err(wrong_shape(alloc, &place.item(2))),
        Pattern::Every { .. } | Pattern::Commit | Pattern::At(_) => Ok(()),
    }
}

/// Checks an event of at most `levels` levels.
#[cycle(event)]
#[tactic(auto, unfolding(hp_model::specs::Checked::event_check))]
pub(crate) fn check_event(
    alloc: Global,
    place: &Place<'_>,
    classes: usize,
    levels: usize,
    expr: &EventExpr,
) -> Result<(), CheckError>
    ensures { Passes result (event_check classes levels (steps place.now) (event expr.now)) }
{
    if levels == 0 {
        return Err(over_limit(Limit::Event));
    }
    match expr {
        EventExpr::One(pattern) => check_pattern(alloc, place, classes, pattern),
        EventExpr::Or(a, b) | EventExpr::Seq(a, b) | EventExpr::Closure(a, b) => {
            check_arms(alloc, place, classes, levels - 1, a, b)
        }
    }
}

#[cycle(event)]
#[tactic(auto, unfolding(hp_model::specs::Checked::operands_check))]
fn check_arms(
    alloc: Global,
    place: &Place<'_>,
    classes: usize,
    levels: usize,
    first: &EventExpr,
    second: &EventExpr,
) -> Result<(), CheckError>
    ensures { Passes result
        (operands_check (event_check classes levels) (steps place.now) (event first.now) (event second.now)) }
{
    check_event(alloc, &place.item(1), classes, levels, first)?;
    check_event(alloc, &place.item(2), classes, levels, second)
}
