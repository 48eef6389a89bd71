//! Which rules a script may ever install.

ghost use Rattle.std.specs.Prelude.{◌≡◌, map, Bool, false, IfOk};
ghost use Rattle.std.specs.Global.{Vec};
ghost use Rattle.hp_model.specs.Idle.{operation_installs, statement_installs, body_installs, unit_installs};
ghost use Rattle.hp_value.specs.Mapped.{rule_operation};
ghost use Rattle.hp_rule.specs.Statements.{statement, body_in, rule};
ghost use Rattle.hp_rule.specs.Libraries as libraries;
ghost use Rattle.hp_rule.specs.Mapped.{unit};
ghost use Rattle.hp_analysis.specs.Sets.{marked, gathered, installs};
ghost use Rattle.hp_analysis.specs.Installed.{installed};

use crate::sets::{filled, mark, spread};
use hp_rule::{Library, RuleOperation, Stmt, Unit};
use hp_value::RuleNo;
use std::alloc::{AllocError, Global};

/// Adds the rule, if the operation installs it.
fn mark_operation(operation: RuleOperation, number: RuleNo, set: &mut Vec<bool>)
    ensures { set.new.items ≡ marked (operation_installs (rule_operation operation) number) set.old.items }
{
    match operation {
        RuleOperation::Install => mark(set, number as usize),
        RuleOperation::Enable | RuleOperation::Disable | RuleOperation::Remove => {}
    }
}

/// Adds the rules that a statement may install.
#[cycle(installing)]
fn mark_statement(s: &Stmt, set: &mut Vec<bool>)
    ensures { set.new.items ≡ marked (statement_installs (statement s.now)) set.old.items }
{
    match s {
        Stmt::If {
            then_body,
            else_body,
            ..
        } => {
            mark_body(then_body, set);
            mark_body(else_body, set);
        }
        Stmt::Each { body, .. } => mark_body(body, set),
        Stmt::For { body, .. } => mark_body(body, set),
        Stmt::With { body, .. } => mark_body(body, set),
        Stmt::Let { body, .. } => mark_body(body, set),
        Stmt::Sub { body, otherwise } => {
            mark_body(body, set);
            mark_body(otherwise, set);
        }
        Stmt::OnRule { operation, rule } => mark_operation(*operation, *rule, set),
        _ => {}
    }
}

/// Adds the rules that a body may install.
#[cycle(installing)]
fn mark_body(body: &[Stmt], set: &mut Vec<bool>)
    ensures { set.new.items ≡ marked (body_installs (body_in body.now)) set.old.items }
{
    for s in body {
        mark_statement(s, set);
    }
}

/// Adds the rules that a unit may install itself.
fn mark_unit(begun: &Unit, set: &mut Vec<bool>)
    ensures { set.new.items ≡ marked (unit_installs (unit begun.now)) set.old.items }
{
    match begun {
        Unit::Transaction { body, .. } => mark_body(body.statements(), set),
        Unit::Moment(_) => {}
    }
}

/// The rules that the units may install themselves.
fn installed_by(alloc: Global, library: &Library, units: &[Unit]) -> Result<Vec<bool>, AllocError>
    ensures { IfOk result (λ set. set.items ≡ gathered unit_installs (map unit units.now)
        (map (λ r. false) (libraries.library library.now).rules)) }
{
    let mut set = filled(alloc, library, false)?;
    for unit in units {
        mark_unit(unit, &mut set);
    }
    Ok(set)
}

/// For each rule of the library the rules that its action may install.
fn installs(alloc: Global, library: &Library) -> Result<Vec<Vec<bool>>, AllocError>
    ensures { IfOk result (λ (sets : Vec (Vec Bool)). map (λ (set : Vec Bool). set.items) sets.items
        ≡ map (installs (libraries.library library.now)) (libraries.library library.now).rules) }
{
    let mut sets = Vec::new(alloc);
    for rule in library.rules() {
        let mut set = filled(alloc, library, false)?;
        mark_body(&rule.action, &mut set);
        sets.push(set)?;
    }
    Ok(sets)
}

/// The rules that a script of these units may ever install, by the rules' numbers.
///
/// They are those that the units install, those that the actions of these install, and so on. The script does the same
/// if the others do nothing (`laws::others_do_nothing`). An error means that memory ran out.
pub fn installed(alloc: Global, library: &Library, units: &[Unit]) -> Result<Vec<bool>, AllocError>
    ensures { IfOk result (λ set. set.items ≡ installed (libraries.library library.now) (map unit units.now)) }
{
    let mut set = installed_by(alloc, library, units)?;
    let after = installs(alloc, library)?;
    spread(&mut set, &after);
    Ok(set)
}
