//! The findings of kinds in a script.

ghost use Rattle.std.specs.Prelude.{◌≡◌, ◌++◌, IfOk, OnOk, true, map, List};
ghost use Rattle.hp_rule.specs.Libraries as libraries;
ghost use Rattle.hp_rule.specs.Mapped.{unit};
ghost use Rattle.hp_analysis.specs.Findings.{finds_nothing};
ghost use Rattle.hp_analysis.specs.KindFindings as model;
ghost use Rattle.hp_analysis.specs.FoundKinds.{kind_findings};
ghost use Rattle.hp_analysis.specs.Kinded.{findings};
ghost use Rattle.hp_analysis.specs.KindLaws.{script_kinded, NeverEndsOfKinds};
ghost use Rattle.hp_analysis.specs.Declarations.{declared};

use crate::kinds::check::{library_findings, unit_findings};
use crate::kinds::declaration::Declaration;
use crate::kinds::finding::Finding;
use hp_rule::{Library, Unit};
use std::alloc::{AllocError, Global};

/// A finding of kinds in a script.
#[derive(Debug, PartialEq, Eq, Drop)]
pub struct KindFinding {
    /// The number of the unit in whose body it is, as a report counts the units, from 1; nothing if it is in a rule.
    pub unit: Option<usize>,
    /// The finding: its path is one in the script if it is in a rule, and else one in the unit's body.
    pub finding: Finding,
}

/// Adds findings in the rules or in a unit.
fn add_found(
    all: &mut Vec<KindFinding>,
    unit: Option<usize>,
    found: Vec<Finding>,
) -> Result<(), AllocError>
    ensures { OnOk result (kind_findings all.new.items
        ≡ kind_findings all.old.items ++ map (model.in_unit unit) (findings found.items)) }
{
    for finding in found {
        all.push(KindFinding { unit, finding })?;
    }
    Ok(())
}

/// Adds the findings in the units.
fn find_in_units(
    alloc: Global,
    library: &Library,
    declaration: &Declaration,
    units: &[Unit],
    all: &mut Vec<KindFinding>,
) -> Result<(), AllocError>
    ensures { OnOk result (kind_findings all.new.items ≡ kind_findings all.old.items ++ model.units_findings
        (libraries.library library.now) (declared declaration.now) 1 (map unit units.now)) }
{
    for (n, begun) in units.iter().enumerate() {
        let found = unit_findings(alloc, library, declaration, begun)?;
        add_found(all, Some(n + 1), found)?;
    }
    Ok(())
}

/// The findings in the rules and the units.
fn find_all(
    alloc: Global,
    library: &Library,
    declaration: &Declaration,
    units: &[Unit],
) -> Result<Vec<KindFinding>, AllocError>
    ensures { IfOk result (λ all. kind_findings all.items ≡ model.kind_findings
        (libraries.library library.now) (declared declaration.now) (map unit units.now)) }
{
    let mut all = Vec::new(alloc);
    let found = library_findings(alloc, library, declaration)?;
    add_found(&mut all, None, found)?;
    find_in_units(alloc, library, declaration, units, &mut all)?;
    Ok(all)
}

/// All findings of kinds in the rules and the units of a script, in this order.
///
/// If there are none, nothing in the script's run ever ends with `A3` or `A6`: no transaction, no condition and no
/// action. A condition without arithmetic and without `count` never ends with a cause at all (`hp_model::laws::kinds`).
/// An error means that memory ran out.
pub fn kind_findings(
    alloc: Global,
    library: &Library,
    declaration: &Declaration,
    units: &[Unit],
) -> Result<Vec<KindFinding>, AllocError>
    ensures found { IfOk result (λ all. kind_findings all.items ≡ model.kind_findings
        (libraries.library library.now) (declared declaration.now) (map unit units.now)) }
    ensures judges { IfOk result (λ all. finds_nothing all.items
        ≡ script_kinded (libraries.library library.now) (declared declaration.now) (map unit units.now)) }
    ensures never { IfOk result (λ all. finds_nothing all.items ≡ true →
        NeverEndsOfKinds (libraries.library library.now) (map unit units.now)) }
{
    find_all(alloc, library, declaration, units)
}
