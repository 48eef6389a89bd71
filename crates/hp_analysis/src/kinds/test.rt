//! What is refused of tests: of predicates and of conditions of statements.

ghost use Rattle.std.specs.Prelude.{OnOk};
ghost use Rattle.hp_value.specs.Mapped.{expression};
ghost use Rattle.hp_rule.specs.Places.{steps};
ghost use Rattle.hp_analysis.specs.Findings as model;
ghost use Rattle.hp_analysis.specs.Kinded.{Notes};
ghost use Rattle.hp_analysis.specs.Scopes.{library, declared, scope_in};

use crate::kinds::expr::check_kind;
use crate::kinds::finding::{Finding, note};
use crate::kinds::scope::Scope;
use hp_rule::Place;
use hp_value::{Expr, Kind};
use std::alloc::AllocError;

/// Adds what is refused of a test, which has to be a boolean. The operands of its `and` and `or` are looked at one by
/// one.
pub(crate) fn find_in_test(
    scope: &Scope<'_>,
    place: &Place<'_>,
    test: &Expr,
    notes: &mut Vec<Finding>,
) -> Result<(), AllocError>
    ensures { OnOk result (Notes notes.old notes.new (model.test_findings (library scope.now) (declared scope.now)
        (scope_in scope.now) (steps place.now) (expression test.now))) }
{
    match test {
        Expr::And(a, b) | Expr::Or(a, b) => {
            find_in_test(scope, &place.item(1), a, notes)?;
            find_in_test(scope, &place.item(2), b, notes)
        }
        _ => note(notes, check_kind(scope, place, Kind::Bool, test)),
    }
}
