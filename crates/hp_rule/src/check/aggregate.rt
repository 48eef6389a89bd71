//! Aggregates.

ghost use Rattle.hp_value.specs.Mapped.{expression};
ghost use Rattle.hp_query.specs.Mapped.{query, aggregate};
ghost use Rattle.hp_model.specs.Checked.{terms_check, aggregate_check};
ghost use Rattle.hp_rule.specs.Faults.{Passes};
ghost use Rattle.hp_rule.specs.Named.{names_in};
ghost use Rattle.hp_rule.specs.Places.{steps};

use crate::check::expr::check_expr;
use crate::check::name::check_number;
use crate::check::query::check_over;
use crate::fault::CheckError;
use crate::known_names::KnownNames;
use crate::place::Place;
use hp_query::{Aggregate, Query};
use hp_value::Expr;
use std::alloc::Global;

/// Checks an aggregate of a term over rows.
#[tactic(auto, unfolding(hp_model::specs::Checked::terms_check))]
fn check_terms(
    alloc: Global,
    place: &Place<'_>,
    classes: usize,
    names: &KnownNames<'_>,
    rows: &Query,
    term: &Expr,
) -> Result<(), CheckError>
    ensures { let asked = query rows.now in
        Passes result
        (terms_check classes (names_in names.now) (steps place.now) asked.name asked.class asked.predicate
        (expression term.now)) }
{
    check_over(alloc, place, classes, names, rows)?;
    let inner = names.with_row(rows.name.as_str());
    check_expr(alloc, &place.item(4), &inner, term)
}

/// Checks an aggregate over this number of classes.
pub(crate) fn check_aggregate(
    alloc: Global,
    place: &Place<'_>,
    classes: usize,
    names: &KnownNames<'_>,
    computed: &Aggregate,
) -> Result<(), CheckError>
    ensures { Passes result (aggregate_check classes (names_in names.now) (steps place.now) (aggregate computed.now)) }
{
    match computed {
        Aggregate::Count(rows) => check_over(alloc, place, classes, names, rows),
        Aggregate::Sum { rows, term }
        | Aggregate::Least { rows, term }
        | Aggregate::Greatest { rows, term } => {
            check_terms(alloc, place, classes, names, rows, term)
        }
        Aggregate::Next(class) => check_number(alloc, &place.item(1), classes, *class),
        Aggregate::Single(single) => check_expr(alloc, place, names, single),
    }
}
