//! The sorts of expressions.

ghost use Rattle.std.specs.Prelude.{◌≡◌};
ghost use Rattle.hp_value.specs.Mapped.{kind, expression, comparison};
ghost use Rattle.hp_rule.specs.Places.{steps};
ghost use Rattle.hp_model.specs.Refusals.{item_at};
ghost use Rattle.hp_analysis.specs.Findings as model;
ghost use Rattle.hp_analysis.specs.Kinded.{sort, wanted as wanted_of, explained, IsFinding, Gives, Passes};
ghost use Rattle.hp_analysis.specs.Readings.{reading};
ghost use Rattle.hp_analysis.specs.Scopes.{library, declared, scope_in, sort_there, kind_there};

use crate::kinds::finding::{KindError, Reason, Wanted, found};
use crate::kinds::part::{Reading, field_sort, part_sort};
use crate::kinds::scope::Scope;
use crate::kinds::sort::{Sort, kind_of};
use hp_rule::Place;
use hp_value::{Comparison, Expr, Kind};
use std::alloc::Global;

/// Checks that a sort is exactly the kind that is wanted at a place.
pub(crate) fn check_suits(
    alloc: Global,
    place: &Place<'_>,
    wanted: Kind,
    given: Sort,
) -> Result<(), KindError>
    ensures { Passes result (model.suits (kind wanted) (steps place.now) (sort given)) }
{
    if given.is_only(wanted) {
        return Ok(());
    }
    let wanted = Wanted::Kind(wanted);
    Err(found(alloc, place, Reason::Unsuited { wanted, given }))
}

/// Refuses the left operand of a comparison.
fn refused_left(alloc: Global, place: &Place<'_>, wanted: Wanted, given: Sort) -> KindError
    ensures { IsFinding result (record {
      path = item_at (steps place.now) 1;
      reason = model.unsuited (wanted_of wanted) (sort given);
    }) }
{
    found(alloc, &place.item(1), Reason::Unsuited { wanted, given })
}

/// Checks that two values are of one kind.
fn check_alike(alloc: Global, place: &Place<'_>, left: Sort, right: Sort) -> Result<(), KindError>
    ensures { Passes result (model.alike_check (steps place.now) (sort left) (sort right)) }
{
    match left {
        Sort::Any => Err(refused_left(alloc, place, Wanted::KnownKind, left)),
        Sort::Only(wanted) => check_suits(alloc, &place.item(2), wanted, right),
    }
}

/// Checks that two values are integers, or texts.
fn check_ordered(alloc: Global, place: &Place<'_>, left: Sort, right: Sort) -> Result<(), KindError>
    ensures { Passes result (model.ordered_check (steps place.now) (sort left) (sort right)) }
{
    match left {
        Sort::Any | Sort::Only(Kind::Bool) => {
            Err(refused_left(alloc, place, Wanted::OrderedKind, left))
        }
        Sort::Only(wanted) => check_suits(alloc, &place.item(2), wanted, right),
    }
}

/// Checks that two values can be compared.
fn check_comparable(
    alloc: Global,
    place: &Place<'_>,
    op: Comparison,
    left: Sort,
    right: Sort,
) -> Result<(), KindError>
    ensures { Passes result (model.comparable_check (comparison op) (steps place.now) (sort left) (sort right)) }
{
    match op {
        Comparison::Equal | Comparison::Unequal => check_alike(alloc, place, left, right),
        Comparison::Less | Comparison::AtMost | Comparison::Greater | Comparison::AtLeast => {
            check_ordered(alloc, place, left, right)
        }
    }
}

/// The sort, or the finding with this reason.
fn placed(alloc: Global, place: &Place<'_>, given: Result<Sort, Reason>) -> Result<Sort, KindError>
    ensures { Gives sort result (model.placed (steps place.now) (explained sort given)) }
{
    match given {
        Ok(known) => Ok(known),
        Err(why) => Err(found(alloc, place, why)),
    }
}

/// The sort of a field of a row.
#[tactic(auto, unfolding(crate::specs::Findings::row_field_sort))]
pub(crate) fn row_field_sort(scope: &Scope<'_>, variable: &str, field: &str) -> Result<Sort, Reason>
    ensures { explained sort result
        ≡ model.row_field_sort (library scope.now) (scope_in scope.now) variable.now field.now }
{
    match scope.rows.class(variable) {
        Some(class) => field_sort(scope.library, class, field),
        None => Err(Reason::UnknownName),
    }
}

/// The sort of a row's key.
#[tactic(auto, unfolding(crate::specs::Findings::row_key_sort))]
fn row_key_sort(scope: &Scope<'_>, variable: &str) -> Result<Sort, Reason>
    ensures { explained sort result ≡ model.row_key_sort (scope_in scope.now) variable.now }
{
    match scope.rows.class(variable) {
        Some(_) => Ok(Sort::Only(Kind::Int)),
        None => Err(Reason::UnknownName),
    }
}

/// The sort of the count of the occurrence.
fn count_sort(scope: &Scope<'_>) -> Result<Sort, Reason>
    ensures { explained sort result ≡ model.count_sort (scope_in scope.now) }
{
    match scope.columns {
        Some(_) => Ok(Sort::Only(Kind::Int)),
        None => Err(Reason::NoOccurrence),
    }
}

/// The sort of a value by its name.
fn value_sort(scope: &Scope<'_>, name: &str) -> Result<Sort, Reason>
    ensures { explained sort result ≡ model.value_sort (scope_in scope.now) name.now }
{
    scope.values.sort(name).ok_or(Reason::UnknownName)
}

/// What is known of what is read of a part of the occurrence.
fn read(
    scope: &Scope<'_>,
    place: &Place<'_>,
    part: u16,
    what: Reading<'_>,
) -> Result<Sort, KindError>
    ensures { Gives sort result (model.placed (steps place.now)
        (model.part_sort (library scope.now) (declared scope.now) (scope_in scope.now).columns part
        (reading what.entry))) }
{
    placed(scope.alloc, place, part_sort(scope, part, what))
}

/// The sort of an operator with an operand of this kind, which it also gives.
#[cycle(sort)]
#[tactic(auto, unfolding(crate::specs::Findings::operand_sort))]
fn operand_sort(
    scope: &Scope<'_>,
    place: &Place<'_>,
    wanted: Kind,
    operand: &Expr,
) -> Result<Sort, KindError>
    ensures { Gives sort result (model.operand_sort (kind wanted) (steps place.now)
        (sort_there scope.now (steps place.now) (expression operand.now))) }
{
    let given = sort_of(scope, place, operand)?;
    check_suits(scope.alloc, place, wanted, given)?;
    Ok(Sort::Only(wanted))
}

/// The sort of an operator with two operands of this kind, which it also gives.
#[cycle(sort)]
#[tactic(auto, unfolding(crate::specs::Findings::operands_sort))]
fn operands_sort(
    scope: &Scope<'_>,
    place: &Place<'_>,
    wanted: Kind,
    left: &Expr,
    right: &Expr,
) -> Result<Sort, KindError>
    ensures { Gives sort result (model.operands_sort (kind wanted) (steps place.now)
        (sort_there scope.now (item_at (steps place.now) 1) (expression left.now))
        (sort_there scope.now (item_at (steps place.now) 2) (expression right.now))) }
{
    operand_sort(scope, &place.item(1), wanted, left)?;
    operand_sort(scope, &place.item(2), wanted, right)
}

/// The sort of a comparison.
#[cycle(sort)]
#[tactic(auto, unfolding(crate::specs::Findings::comparison_sort))]
fn comparison_sort(
    scope: &Scope<'_>,
    place: &Place<'_>,
    op: Comparison,
    left: &Expr,
    right: &Expr,
) -> Result<Sort, KindError>
    ensures { Gives sort result (model.comparison_sort (comparison op) (steps place.now)
        (sort_there scope.now (item_at (steps place.now) 1) (expression left.now))
        (sort_there scope.now (item_at (steps place.now) 2) (expression right.now))) }
{
    let first = sort_of(scope, &place.item(1), left)?;
    let second = sort_of(scope, &place.item(2), right)?;
    check_comparable(scope.alloc, place, op, first, second)?;
    Ok(Sort::Only(Kind::Bool))
}

/// The sort of an expression, or the first part of it that is refused.
#[cycle(sort)]
pub(crate) fn sort_of(scope: &Scope<'_>, place: &Place<'_>, expr: &Expr) -> Result<Sort, KindError>
    ensures { Gives sort result (sort_there scope.now (steps place.now) (expression expr.now)) }
{
    let alloc = scope.alloc;
    match expr {
        Expr::Constant(constant) => Ok(Sort::Only(kind_of(constant.value()))),
        Expr::Arithmetic(_, a, b) => operands_sort(scope, place, Kind::Int, a, b),
        Expr::Negated(a) => operand_sort(scope, &place.item(1), Kind::Int, a),
        Expr::Not(a) => operand_sort(scope, &place.item(1), Kind::Bool, a),
        Expr::And(a, b) | Expr::Or(a, b) => operands_sort(scope, place, Kind::Bool, a, b),
        Expr::Comparison(op, a, b) => comparison_sort(scope, place, *op, a, b),
        Expr::FieldOf { variable, field } => {
            placed(alloc, place, row_field_sort(scope, variable, field))
        }
        Expr::KeyOf { variable } => placed(alloc, place, row_key_sort(scope, variable)),
        Expr::NewField { part, field } => read(scope, place, *part, Reading::New(field)),
        Expr::OldField { part, field } => read(scope, place, *part, Reading::Old(field)),
        Expr::KeyIn { part } => read(scope, place, *part, Reading::Key),
        Expr::Argument { part, place: j } => read(scope, place, *part, Reading::Argument(*j)),
        Expr::TimeOf { part } => read(scope, place, *part, Reading::Time),
        Expr::Count => placed(alloc, place, count_sort(scope)),
        Expr::ValueOf { name } => placed(alloc, place, value_sort(scope, name)),
        Expr::Now => Ok(Sort::Only(Kind::Int)),
    }
}

/// Checks that an expression has exactly this kind.
#[tactic(auto, unfolding(crate::specs::Findings::kind_check))]
pub(crate) fn check_kind(
    scope: &Scope<'_>,
    place: &Place<'_>,
    wanted: Kind,
    expr: &Expr,
) -> Result<(), KindError>
    ensures { Passes result (kind_there scope.now (kind wanted) (steps place.now) (expression expr.now)) }
{
    let given = sort_of(scope, place, expr)?;
    check_suits(scope.alloc, place, wanted, given)
}
