//! Queries: of conditions, and of aggregates.

ghost use Rattle.hp_query.specs.Mapped.{query};
ghost use Rattle.hp_model.specs.Checked.{query_check, over_check};
ghost use Rattle.hp_rule.specs.Faults.{Passes};
ghost use Rattle.hp_rule.specs.Named.{names_in};
ghost use Rattle.hp_rule.specs.Places.{steps};

use crate::check::expr::check_expr;
use crate::check::name::{check_number, check_unless};
use crate::fault::CheckError;
use crate::known_names::KnownNames;
use crate::place::Place;
use hp_query::Query;
use std::alloc::Global;

/// The places of a query's parts.
#[derive(Clone, Copy)]
pub(crate) struct QueryPlaces<'a> {
    pub name: Place<'a>,
    pub class: Place<'a>,
    pub predicate: Place<'a>,
}

/// Checks a query with these names around it.
#[tactic(auto, unfolding(hp_model::specs::Checked::query_check))]
pub(crate) fn check_query(
    alloc: Global,
    places: &QueryPlaces<'_>,
    classes: usize,
    names: &KnownNames<'_>,
    asked: &Query,
) -> Result<(), CheckError>
    ensures { Passes result
        (query_check classes (names_in names.now) (steps places.now.name) (steps places.now.class)
        (steps places.now.predicate) (query asked.now)) }
{
    let name = asked.name.as_str();
    check_unless(alloc, &places.name, name, names.is_taken(name))?;
    check_number(alloc, &places.class, classes, asked.class)?;
    let inner = names.with_row(name);
    check_expr(alloc, &places.predicate, &inner, &asked.predicate)
}

/// Checks the variable, the class and the predicate of an aggregate or of a `no`, which stand after its word.
#[tactic(auto, unfolding(hp_model::specs::Checked::over_check, hp_model::specs::Checked::query_check))]
pub(crate) fn check_over(
    alloc: Global,
    place: &Place<'_>,
    classes: usize,
    names: &KnownNames<'_>,
    rows: &Query,
) -> Result<(), CheckError>
    ensures { let asked = query rows.now in
        Passes result
        (over_check classes (names_in names.now) (steps place.now) asked.name asked.class asked.predicate) }
{
    let places = QueryPlaces {
        name: place.item(1),
        class: place.item(2),
        predicate: place.item(3),
    };
    check_query(alloc, &places, classes, names, rows)
}
