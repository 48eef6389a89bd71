//! Items: transactions and moves of the clock.

ghost use Rattle.std.specs.Prelude.{◌≡◌, ◌++◌, map, option_map, option_and_then, IfOk};
ghost use Rattle.serde_json.specs.View.{view};
ghost use Rattle.hp_model.specs.Json as J;
ghost use Rattle.hp_model.specs.Cascade.{moment};
ghost use Rattle.hp_model.specs.Decode.{item_form_of_one, item_form, item_form_at, transaction_at, clock_at};
ghost use Rattle.hp_rule.specs.Mapped.{library as model_library, rule, unit};
ghost use Rattle.hp_rule.specs.Places.{steps};
ghost use Rattle.hp_script.specs.Forms.{item_form_view};
ghost use Rattle.hp_script.specs.Items.{item_over, items_over};
ghost use Rattle.hp_script.specs.Mapped.{Gives, schedule};
ghost use Rattle.hp_script.specs.OwnBodies.{AreOf, StayOf};
ghost use Rattle.hp_script.specs.Scopes.{library_scope};
ghost use Rattle.hp_script.specs.Versions.{version_view};

use crate::known::no_names;
use crate::list::list_at;
use crate::moment::due_moments;
use crate::number::number_from;
use crate::refusal::{DecodeError, Refusal, shaped};
use crate::schedule::Schedule;
use crate::scope::Scope;
use crate::shape::{Form, form_of};
use crate::statement::statements_at;
use crate::version::Version;
use hp_rule::{Body, Library, Limit, Place, Rule, Unit};
use serde_json::Value;
use std::alloc::{AllocError, Global};
use std::sync::Arc;

/// An item whose part is still JSON.
#[derive(Clone, Copy)]
pub(crate) enum ItemForm<'a> {
    Transaction(&'a Value),
    Clock(&'a Value),
}

fn item_form_of_one<'a>(word: &str, part: &'a Value) -> Option<ItemForm<'a>>
    ensures { option_map item_form_view result ≡ item_form_of_one word.now (view part.entry.now) }
{
    match word {
        "tx" => Some(ItemForm::Transaction(part)),
        "clock" => Some(ItemForm::Clock(part)),
        _ => None,
    }
}

fn item_form(value: &Value) -> Option<ItemForm<'_>>
    ensures { option_map item_form_view result
        ≡ option_and_then (λ (form : J.Form). item_form form.word form.parts) (J.form_of (view value.now)) }
{
    let Form { word, parts } = form_of(value)?;
    match parts {
        [part] => item_form_of_one(word, part),
        _ => None,
    }
}

fn item_form_at<'a>(
    alloc: Global,
    place: &Place<'_>,
    value: &'a Value,
) -> Result<ItemForm<'a>, DecodeError>
    ensures { Gives item_form_view result (item_form_at (steps place.now) (view value.entry.now)) }
{
    shaped(alloc, place, item_form(value))
}

#[tactic(auto, unfolding(hp_model::specs::Decode::transaction_at))]
fn transaction_at(
    alloc: Global,
    place: &Place<'_>,
    version: Version,
    library: &Arc<Library>,
    before: Schedule,
    body: &Value,
) -> Result<Schedule, DecodeError>
    ensures own { IfOk result (StayOf library.now.value before) }
    ensures reads { Gives schedule result
        (transaction_at (version_view version) (library_scope (model_library library.now.value)) (steps place.now)
        (schedule before) (view body.now)) }
{
    let names = no_names();
    let scope = Scope::of_library(version, library);
    let statements = statements_at(alloc, &place.item(1), &scope, &names, body)?;
    let body = Body::of_checked(library, statements)?;
    let Schedule { mut units, clock } = before;
    units.push(Unit::Transaction { time: clock, body })?;
    Ok(Schedule { units, clock })
}

/// The units, with these moments after them.
fn with_moments(units: Vec<Unit>, moments: &[u64]) -> Result<Vec<Unit>, AllocError>
    ensures own { IfOk result (λ all. (library : Library) → AreOf library units.items → AreOf library all.items) }
    ensures units { IfOk result (λ all. map unit all.items ≡ map unit units.items ++ map moment moments.now) }
{
    let mut all = units;
    for moment in moments {
        all.push(Unit::Moment(*moment))?;
    }
    Ok(all)
}

#[tactic(auto, unfolding(hp_model::specs::Decode::clock_at))]
fn clock_at(
    alloc: Global,
    place: &Place<'_>,
    rules: &[Rule],
    before: Schedule,
    time: &Value,
) -> Result<Schedule, DecodeError>
    ensures own { IfOk result (λ s. (library : Library) → StayOf library before s) }
    ensures reads { Gives schedule result
        (clock_at (map rule rules.now) (steps place.now) (schedule before) (view time.now)) }
{
    let clock = number_from(alloc, &place.item(1), before.clock, time)?;
    let Some(moments) = due_moments(alloc, rules, before.clock, clock)? else {
        return Err(DecodeError::Refused(Refusal::S5(Limit::Moments)));
    };
    let units = with_moments(before.units, moments.as_slice())?;
    Ok(Schedule { units, clock })
}

/// The schedule before, with the units of the item at a place added. A transaction runs at the time before it.
#[tactic(auto, unfolding(hp_model::specs::Decode::unit_at))]
pub(crate) fn unit_at(
    alloc: Global,
    place: &Place<'_>,
    version: Version,
    library: &Arc<Library>,
    before: Schedule,
    value: &Value,
) -> Result<Schedule, DecodeError>
    ensures own { IfOk result (StayOf library.now.value before) }
    ensures reads { Gives schedule result
        (item_over (version_view version) (model_library library.now.value) (steps place.now)
        (schedule before) (view value.now)) }
{
    match item_form_at(alloc, place, value)? {
        ItemForm::Transaction(body) => transaction_at(alloc, place, version, library, before, body),
        ItemForm::Clock(time) => clock_at(alloc, place, library.rules(), before, time),
    }
}

/// The units that the items at a place run.
#[tactic(auto, using(crate::proofs::OwnBodies::none_own), unfolding(hp_model::specs::Decode::units_at))]
pub(crate) fn units_at(
    alloc: Global,
    place: &Place<'_>,
    version: Version,
    library: &Arc<Library>,
    value: &Value,
) -> Result<Schedule, DecodeError>
    ensures own { IfOk result (λ s. AreOf library.now.value s.units.items) }
    ensures reads { Gives schedule result
        (items_over (version_view version) (model_library library.now.value) (steps place.now) (view value.now)) }
{
    let values = list_at(alloc, place, value)?;
    let mut schedule = Schedule {
        units: Vec::with_capacity(alloc, values.len())?,
        clock: 0,
    };
    for (i, value) in values.iter().enumerate() {
        schedule = unit_at(alloc, &place.item(i), version, library, schedule, value)?;
    }
    Ok(schedule)
}
