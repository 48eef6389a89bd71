//! Events.

ghost use Rattle.std.specs.Prelude.{◌≡◌, map, option_map, option_and_then};
ghost use Rattle.serde_json.specs.View.{view};
ghost use Rattle.hp_model.specs.Json as J;
ghost use Rattle.hp_model.specs.EventGrammar.{event_form, event_form_of_one, event_form_of_two, event_form_at};
ghost use Rattle.hp_model.specs.EventGrammar.{on_signal_at, at_moment_at, every_moment_at};
ghost use Rattle.hp_model.specs.EventGrammar.{parts_at, event_within, event_at};
ghost use Rattle.hp_model.specs.Scopes.{class_names};
ghost use Rattle.hp_detect.specs.Mapped.{event};
ghost use Rattle.hp_rule.specs.Places.{steps};
ghost use Rattle.hp_script.specs.Events.{on_change_at};
ghost use Rattle.hp_script.specs.Forms.{event_form_view, scope_view};
ghost use Rattle.hp_script.specs.Mapped.{Gives};

use crate::name::name_at;
use crate::number::number_from;
use crate::reference::class_at;
use crate::refusal::{DecodeError, Refusal, shaped};
use crate::scope::Scope;
use crate::shape::{Form, form_of};
use hp_event::Pattern;
use hp_rule::{EventExpr, Limit, Place};
use serde_json::Value;
use std::alloc::Global;

/// The most levels that an event may have.
const MAX_LEVELS: usize = 16;

/// The kinds of changes to an object.
#[derive(Clone, Copy)]
pub(crate) enum Change {
    Create,
    Update,
    Delete,
}

/// An event whose parts are still JSON.
#[derive(Clone, Copy)]
pub(crate) enum EventForm<'a> {
    Create(&'a Value),
    Update(&'a Value),
    Delete(&'a Value),
    Signal(&'a Value),
    Commit,
    At(&'a Value),
    Every(&'a Value, &'a Value),
    Or(&'a Value, &'a Value),
    Seq(&'a Value, &'a Value),
    Closure(&'a Value, &'a Value),
}

fn event_form_of_one<'a>(word: &str, part: &'a Value) -> Option<EventForm<'a>>
    ensures { option_map event_form_view result ≡ event_form_of_one word.now (view part.entry.now) }
{
    match word {
        "create" => Some(EventForm::Create(part)),
        "update" => Some(EventForm::Update(part)),
        "delete" => Some(EventForm::Delete(part)),
        "signal" => Some(EventForm::Signal(part)),
        "at" => Some(EventForm::At(part)),
        _ => None,
    }
}

fn event_form_of_two<'a>(word: &str, first: &'a Value, second: &'a Value) -> Option<EventForm<'a>>
    ensures { option_map event_form_view result
        ≡ event_form_of_two word.now (view first.entry.now) (view second.entry.now) }
{
    match word {
        "every" => Some(EventForm::Every(first, second)),
        "or" => Some(EventForm::Or(first, second)),
        "seq" => Some(EventForm::Seq(first, second)),
        "closure" => Some(EventForm::Closure(first, second)),
        _ => None,
    }
}

fn event_form(value: &Value) -> Option<EventForm<'_>>
    ensures { option_map event_form_view result
        ≡ option_and_then (λ (form : J.Form). event_form form.word form.parts) (J.form_of (view value.now)) }
{
    let Form { word, parts } = form_of(value)?;
    match parts {
        [] => if word == "commit" {
            Some(EventForm::Commit)
        } else {
            None
        },
        [part] => event_form_of_one(word, part),
        [first, second] => event_form_of_two(word, first, second),
        _ => None,
    }
}

fn event_form_at<'a>(
    alloc: Global,
    place: &Place<'_>,
    value: &'a Value,
) -> Result<EventForm<'a>, DecodeError>
    ensures { Gives event_form_view result (event_form_at (steps place.now) (view value.entry.now)) }
{
    shaped(alloc, place, event_form(value))
}

#[tactic(auto, unfolding(hp_model::specs::EventGrammar::on_create_at, hp_model::specs::EventGrammar::on_update_at, hp_model::specs::EventGrammar::on_delete_at))]
fn on_change_at(
    alloc: Global,
    place: &Place<'_>,
    scope: &Scope<'_>,
    change: Change,
    class: &Value,
) -> Result<EventExpr, DecodeError>
    ensures { Gives event result
        (on_change_at change (class_names (scope_view scope.entry.now).classes) (steps place.now) (view class.now)) }
{
    let class = class_at(alloc, &place.item(1), scope, class)?;
    match change {
        Change::Create => Ok(EventExpr::One(Pattern::Create(class))),
        Change::Update => Ok(EventExpr::One(Pattern::Update(class))),
        Change::Delete => Ok(EventExpr::One(Pattern::Delete(class))),
    }
}

#[tactic(auto, unfolding(hp_model::specs::EventGrammar::on_signal_at))]
fn on_signal_at(alloc: Global, place: &Place<'_>, name: &Value) -> Result<EventExpr, DecodeError>
    ensures { Gives event result (on_signal_at (steps place.now) (view name.now)) }
{
    let name = name_at(alloc, &place.item(1), name)?;
    let name = String::from_str(alloc, name)?;
    Ok(EventExpr::One(Pattern::Signal(name)))
}

#[tactic(auto, unfolding(hp_model::specs::EventGrammar::at_moment_at))]
fn at_moment_at(alloc: Global, place: &Place<'_>, time: &Value) -> Result<EventExpr, DecodeError>
    ensures { Gives event result (at_moment_at (steps place.now) (view time.now)) }
{
    let time = number_from(alloc, &place.item(1), 0, time)?;
    Ok(EventExpr::One(Pattern::At(time)))
}

#[tactic(auto, unfolding(hp_model::specs::EventGrammar::every_moment_at))]
fn every_moment_at(
    alloc: Global,
    place: &Place<'_>,
    first: &Value,
    period: &Value,
) -> Result<EventExpr, DecodeError>
    ensures { Gives event result (every_moment_at (steps place.now) (view first.now) (view period.now)) }
{
    let first = number_from(alloc, &place.item(1), 0, first)?;
    let period = number_from(alloc, &place.item(2), 1, period)?;
    Ok(EventExpr::One(Pattern::Every { first, period }))
}

/// The event at a place, which has at most `levels` levels.
#[cycle(event)]
#[tactic(auto, unfolding(hp_model::specs::EventGrammar::event_within))]
fn event_within(
    alloc: Global,
    place: &Place<'_>,
    scope: &Scope<'_>,
    levels: usize,
    value: &Value,
) -> Result<EventExpr, DecodeError>
    ensures { Gives event result
        (event_within (class_names (scope_view scope.entry.now).classes) levels (steps place.now) (view value.now)) }
{
    let form = event_form_at(alloc, place, value)?;
    if levels == 0 {
        return Err(DecodeError::Refused(Refusal::S5(Limit::Event)));
    }
    let levels = levels - 1;
    match form {
        EventForm::Create(class) => on_change_at(alloc, place, scope, Change::Create, class),
        EventForm::Update(class) => on_change_at(alloc, place, scope, Change::Update, class),
        EventForm::Delete(class) => on_change_at(alloc, place, scope, Change::Delete, class),
        EventForm::Signal(name) => on_signal_at(alloc, place, name),
        EventForm::Commit => Ok(EventExpr::One(Pattern::Commit)),
        EventForm::At(time) => at_moment_at(alloc, place, time),
        EventForm::Every(first, period) => every_moment_at(alloc, place, first, period),
        EventForm::Or(left, right) => {
            let (left, right) = parts_at(alloc, place, scope, levels, left, right)?;
            Ok(EventExpr::Or(left, right))
        }
        EventForm::Seq(left, right) => {
            let (left, right) = parts_at(alloc, place, scope, levels, left, right)?;
            Ok(EventExpr::Seq(left, right))
        }
        EventForm::Closure(left, right) => {
            let (left, right) = parts_at(alloc, place, scope, levels, left, right)?;
            Ok(EventExpr::Closure(left, right))
        }
    }
}

#[cycle(event)]
fn part_at(
    alloc: Global,
    place: &Place<'_>,
    scope: &Scope<'_>,
    levels: usize,
    value: &Value,
) -> Result<Box<EventExpr>, DecodeError>
    ensures { Gives (λ e. event e.value) result
        (event_within (class_names (scope_view scope.entry.now).classes) levels (steps place.now) (view value.now)) }
{
    let part = event_within(alloc, place, scope, levels, value)?;
    Ok(Box::new(alloc, part)?)
}

/// The two parts of the form at a place.
#[cycle(event)]
#[tactic(auto, unfolding(hp_model::specs::EventGrammar::parts_at))]
fn parts_at(
    alloc: Global,
    place: &Place<'_>,
    scope: &Scope<'_>,
    levels: usize,
    left: &Value,
    right: &Value,
) -> Result<(Box<EventExpr>, Box<EventExpr>), DecodeError>
    ensures { Gives (λ p. (event p.0.value, event p.1.value)) result
        (parts_at (event_within (class_names (scope_view scope.entry.now).classes) levels) (steps place.now)
        (view left.now) (view right.now)) }
{
    let left = part_at(alloc, &place.item(1), scope, levels, left)?;
    let right = part_at(alloc, &place.item(2), scope, levels, right)?;
    Ok((left, right))
}

/// The event at a place.
pub(crate) fn event_at(
    alloc: Global,
    place: &Place<'_>,
    scope: &Scope<'_>,
    value: &Value,
) -> Result<EventExpr, DecodeError>
    ensures { Gives event result
        (event_at (class_names (scope_view scope.entry.now).classes) (steps place.now) (view value.now)) }
{
    event_within(alloc, place, scope, MAX_LEVELS, value)
}
