//! What signals are declared to carry, found by how rules use it.

mod arguments;
mod gather;
mod reads;
mod solve;

ghost use Rattle.std.specs.Prelude.{◌≡◌, IfOk, OnOk};
ghost use Rattle.hp_analysis.specs.Declarations.{declared, Keeps, KeepsFired};

use crate::kinds::declaration::Declaration;
use crate::kinds::infer::gather::Gathering;
use crate::kinds::infer::reads::reads_parts;
use crate::kinds::infer::solve::solved;
pub use crate::kinds::infer::solve::{Inferred, UnknownArgument};
use hp_rule::{Library, Unit};
use hp_value::RuleNo;
use std::alloc::{AllocError, Global};

/// Lets statements fire the rules that read no part of their occurrence.
#[tactic(auto, using(crate::proofs::Signatures::fires_same, crate::proofs::Signatures::fires_more))]
fn allow_plain_rules(library: &Library, declaration: &mut Declaration) -> Result<(), AllocError>
    ensures signatures { OnOk result ((declared declaration.new).signatures ≡ (declared declaration.old).signatures) }
    ensures fired { OnOk result (KeepsFired (declared declaration.old) (declared declaration.new)) }
{
    let mut number: RuleNo = 0;
    for rule in library.rules() {
        if !reads_parts(rule) {
            declaration.allow(number)?;
        }
        number = number.saturating_add(1);
    }
    Ok(())
}

/// A declaration for a library and the units of its script, as `infer_with` finds it where nothing is given.
///
/// An error means that memory ran out.
pub fn infer(alloc: Global, library: &Library, units: &[Unit]) -> Result<Inferred, AllocError> {
    infer_with(alloc, library, units, Declaration::new(alloc))
}

/// A declaration for a library and the units of its script, in which the signals that are given keep their signatures.
///
/// Another signal is declared with the arguments that rules use. An argument has the kind that its uses want; if they
/// want none, but compare it, the kind that most statements give it. One that is only passed on or emitted has any
/// kind. Statements may fire the rules that read no part of their occurrence, and those that `given` lets them fire.
///
/// What a check promises holds for each declaration. So a wrong guess can only make a check refuse what it need not.
///
/// An error means that memory ran out.
#[tactic(auto, using(crate::proofs::Signatures::fires_same))]
pub fn infer_with(
    alloc: Global,
    library: &Library,
    units: &[Unit],
    given: Declaration,
) -> Result<Inferred, AllocError>
    ensures signatures { IfOk result (λ inferred. Keeps (declared given) (declared inferred.declaration)) }
    ensures fired { IfOk result (λ inferred. KeepsFired (declared given) (declared inferred.declaration)) }
{
    let gathering = Gathering::of(alloc, library, units, &given)?;
    let mut inferred = solved(alloc, gathering.arguments, given)?;
    allow_plain_rules(library, &mut inferred.declaration)?;
    Ok(inferred)
}
