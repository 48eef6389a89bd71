//! The sorts of aggregates.

ghost use Rattle.std.specs.Prelude.{◌≡◌, Some};
ghost use Rattle.hp_value.specs.Mapped.{expression};
ghost use Rattle.hp_query.specs.Mapped.{query, aggregate};
ghost use Rattle.hp_rule.specs.Places.{steps};
ghost use Rattle.hp_analysis.specs.Findings as model;
ghost use Rattle.hp_analysis.specs.Kinded.{sort, Gives, Passes};
ghost use Rattle.hp_analysis.specs.Scopes.{library, declared, scope_in};

use crate::kinds::expr::{check_kind, sort_of};
use crate::kinds::finding::{KindError, Reason, Wanted, found};
use crate::kinds::scope::Scope;
use crate::kinds::sort::Sort;
use hp_query::{Aggregate, Query};
use hp_rule::Place;
use hp_value::{Expr, Kind};
use std::alloc::Global;

/// Checks the predicate of a query, which stands at the place.
pub(crate) fn check_test(
    scope: &Scope<'_>,
    place: &Place<'_>,
    asked: &Query,
) -> Result<(), KindError>
    ensures { Passes result (model.test_check (library scope.now) (declared scope.now) (scope_in scope.now)
        (steps place.now) (query asked.now)) }
{
    let inner = scope.bound(asked.name.as_str(), asked.class);
    check_kind(&inner, place, Kind::Bool, &asked.predicate)
}

/// The sort of a count.
#[tactic(auto, unfolding(crate::specs::Findings::count_check))]
fn count_sort(scope: &Scope<'_>, place: &Place<'_>, rows: &Query) -> Result<Sort, KindError>
    ensures { let asked = query rows.now in
        Gives sort result (model.count_check (library scope.now) (declared scope.now) (scope_in scope.now)
        (steps place.now) asked.name asked.class asked.predicate) }
{
    check_test(scope, &place.item(3), rows)?;
    Ok(Sort::Only(Kind::Int))
}

/// The sort of a sum.
#[tactic(auto, unfolding(crate::specs::Findings::sum_check))]
fn sum_sort(
    scope: &Scope<'_>,
    place: &Place<'_>,
    rows: &Query,
    term: &Expr,
) -> Result<Sort, KindError>
    ensures { let asked = query rows.now in
        Gives sort result (model.sum_check (library scope.now) (declared scope.now) (scope_in scope.now)
        (steps place.now) asked.name asked.class asked.predicate (expression term.now)) }
{
    check_test(scope, &place.item(3), rows)?;
    let inner = scope.bound(rows.name.as_str(), rows.class);
    check_kind(&inner, &place.item(4), Kind::Int, term)?;
    Ok(Sort::Only(Kind::Int))
}

/// Checks that a sort is of integers or of texts.
fn check_is_ordered(alloc: Global, place: &Place<'_>, given: Sort) -> Result<(), KindError>
    ensures { Passes result (model.is_ordered (steps place.now) (sort given)) }
{
    match given {
        Sort::Only(Kind::Int) | Sort::Only(Kind::Text) => Ok(()),
        Sort::Only(Kind::Bool) | Sort::Any => {
            let wanted = Wanted::OrderedKind;
            Err(found(alloc, place, Reason::Unsuited { wanted, given }))
        }
    }
}

/// The sort of a least or a greatest value.
#[tactic(auto, unfolding(crate::specs::Findings::extreme_check))]
fn extreme_sort(
    scope: &Scope<'_>,
    place: &Place<'_>,
    rows: &Query,
    term: &Expr,
) -> Result<Sort, KindError>
    ensures { let asked = query rows.now in
        Gives sort result (model.extreme_check (library scope.now) (declared scope.now) (scope_in scope.now)
        (steps place.now) asked.name asked.class asked.predicate (expression term.now)) }
{
    check_test(scope, &place.item(3), rows)?;
    let inner = scope.bound(rows.name.as_str(), rows.class);
    let place = place.item(4);
    let given = sort_of(&inner, &place, term)?;
    check_is_ordered(scope.alloc, &place, given)?;
    Ok(given)
}

/// The sort of the value of an aggregate, or the first part of it that is refused.
pub(crate) fn aggregate_sort(
    scope: &Scope<'_>,
    place: &Place<'_>,
    computed: &Aggregate,
) -> Result<Sort, KindError>
    ensures { Gives sort result (model.aggregate_check (library scope.now) (declared scope.now) (scope_in scope.now)
        (steps place.now) (aggregate computed.now)) }
{
    match computed {
        Aggregate::Count(rows) => count_sort(scope, place, rows),
        Aggregate::Sum { rows, term } => sum_sort(scope, place, rows, term),
        Aggregate::Least { rows, term } | Aggregate::Greatest { rows, term } => {
            extreme_sort(scope, place, rows, term)
        }
        Aggregate::Next(_) => Ok(Sort::Only(Kind::Int)),
        Aggregate::Single(single) => sort_of(scope, place, single),
    }
}
