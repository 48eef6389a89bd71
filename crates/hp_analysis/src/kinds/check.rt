//! The judgement: whether a library and units are kinded, and all that is refused.

ghost use Rattle.std.specs.Prelude.{◌≡◌, [], true, IfOk, OnOk};
ghost use Rattle.hp_model.specs.Kinds as kinds;
ghost use Rattle.hp_rule.specs.Libraries as libraries;
ghost use Rattle.hp_rule.specs.Statements.{body_in};
ghost use Rattle.hp_rule.specs.Mapped.{unit};
ghost use Rattle.hp_analysis.specs.Findings as model;
ghost use Rattle.hp_analysis.specs.Findings.{finds_nothing};
ghost use Rattle.hp_analysis.specs.Kinded.{findings, Notes};
ghost use Rattle.hp_analysis.specs.Declarations.{declared};
ghost use Rattle.hp_analysis.specs.Parts.{part_in_library, part_in_unit, ArePlaced};
ghost use Rattle.hp_analysis.specs.KindLaws.{KeepsKinds};

use crate::kinds::declaration::Declaration;
use crate::kinds::finding::Finding;
use crate::kinds::rows::Rows;
use crate::kinds::rule::find_in_rules;
use crate::kinds::scope::{Base, Scope};
use crate::kinds::sorts::Sorts;
use crate::kinds::statement::find_in_body;
use hp_rule::{Body, Library, Member, Place, Stmt, Unit};
use std::alloc::{AllocError, Global};

/// What is refused of the rules of a library.
fn all_in_library(
    alloc: Global,
    library: &Library,
    declaration: &Declaration,
) -> Result<Vec<Finding>, AllocError>
    ensures { IfOk result (λ found. findings found.items
        ≡ model.library_findings (libraries.library library.now) (declared declaration.now)) }
{
    let base = Base {
        alloc,
        library,
        declared: declaration,
    };
    let mut found = Vec::new(alloc);
    find_in_rules(
        base,
        &Place::Member(Member::Rules),
        library.rules(),
        &mut found,
    )?;
    Ok(found)
}

/// Finds each value in the rules of a library that isn't used as what it is, by what is declared of the signals.
///
/// The findings stand in the order of the script, each by its path in the script. An expression, an aggregate and an
/// assignment have at most one, the first in it. An error means that memory ran out.
pub fn library_findings(
    alloc: Global,
    library: &Library,
    declaration: &Declaration,
) -> Result<Vec<Finding>, AllocError>
    ensures found { IfOk result (λ found. findings found.items
        ≡ model.library_findings (libraries.library library.now) (declared declaration.now)) }
    ensures judges { IfOk result (λ found. finds_nothing found.items
        ≡ kinds.library_kinded (libraries.library library.now) (declared declaration.now)) }
    ensures placed { IfOk result (λ found. ArePlaced (libraries.library library.now) (declared declaration.now)
        (part_in_library (libraries.library library.now) (declared declaration.now)) (findings found.items)) }
{
    all_in_library(alloc, library, declaration)
}

/// Adds what is refused of the statements of a script's transaction.
fn find_in_statements(
    alloc: Global,
    library: &Library,
    declaration: &Declaration,
    statements: &[Stmt],
    notes: &mut Vec<Finding>,
) -> Result<(), AllocError>
    ensures { OnOk result (Notes notes.old notes.new (model.body_findings (libraries.library library.now)
        (declared declaration.now) kinds.no_scope [] [] 0 (body_in statements.now))) }
{
    let scope = Scope {
        alloc,
        library,
        declared: declaration,
        columns: None,
        known: &[],
        rows: Rows::Entries(&[]),
        values: Sorts::Found(&[]),
        condition: &[],
    };
    find_in_body(statements, &scope, &Place::Root, notes)
}

/// What is refused of a unit's own body.
fn all_in_unit(
    alloc: Global,
    library: &Library,
    declaration: &Declaration,
    begun: &Unit,
) -> Result<Vec<Finding>, AllocError>
    ensures { IfOk result (λ found. findings found.items
        ≡ model.unit_findings (libraries.library library.now) (declared declaration.now) (unit begun.now)) }
{
    let mut found = Vec::new(alloc);
    if let Unit::Transaction { body, .. } = begun {
        find_in_statements(alloc, library, declaration, body.statements(), &mut found)?;
    }
    Ok(found)
}

/// Finds each value in a unit's own body that isn't used as what it is. It looks at no rule, so it takes time in the
/// length of the body alone.
///
/// The findings are as those of `library_findings`, by their paths in the body. An error means that memory ran out.
///
/// If there are none, and none in the library, the unit ends nothing with `A3` or `A6`, from any state in which all
/// signals were as declared, and leaves such a state. So in a rule base that is checked so from its start, no line ever
/// ends so.
pub fn unit_findings(
    alloc: Global,
    library: &Library,
    declaration: &Declaration,
    begun: &Unit,
) -> Result<Vec<Finding>, AllocError>
    ensures found { IfOk result (λ found. findings found.items
        ≡ model.unit_findings (libraries.library library.now) (declared declaration.now) (unit begun.now)) }
    ensures judges { IfOk result (λ found. finds_nothing found.items
        ≡ kinds.unit_kinded (libraries.library library.now) (declared declaration.now) (unit begun.now)) }
    ensures placed { IfOk result (λ found. ArePlaced (libraries.library library.now) (declared declaration.now)
        (λ path. part_in_unit (libraries.library library.now) (declared declaration.now) path (unit begun.now))
        (findings found.items)) }
    ensures keeps { IfOk result (λ found. finds_nothing found.items ≡ true
        → KeepsKinds (libraries.library library.now) (declared declaration.now) (unit begun.now)) }
{
    all_in_unit(alloc, library, declaration, begun)
}
