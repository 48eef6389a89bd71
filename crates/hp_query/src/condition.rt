//! Conditions of rules.

ghost use Rattle.std.specs.Prelude.{◌≡◌, [], IfOk, Some, map};
ghost use Rattle.std.specs.List.{flat_map};
ghost use Rattle.hp_model.specs.State.{Objects};
ghost use Rattle.hp_model.specs.Conditions as model;
ghost use Rattle.hp_value.specs.Mapped as value;
ghost use Rattle.hp_query.specs.Looks.{ObjectsRise, AsksEach, entry_classes};
ghost use Rattle.hp_query.specs.Mapped as mapped;

use crate::entry::{Entry, Findings};
use crate::look::Look;
use hp_value::{Cause, Env, Halt, Occurrence};
use std::alloc::{AllocError, Global};

/// The result of evaluating a rule's condition.
#[derive(Debug, Drop)]
pub enum Verdict {
    /// Each entry is satisfied. HiPAC passes what the condition found on to the action.
    Satisfied(Findings),
    /// An entry isn't satisfied: a query has an empty answer, one that must be empty has a row, or the least or the
    /// greatest of no row has no value.
    Unsatisfied,
    /// An entry has a fault: this firing has no action, and unless the rule is closed, the transaction around it
    /// continues (this project's own choice).
    Faulty(Cause),
}

/// Evaluates a condition for the occurrence that triggered its rule, at a moment of the clock.
///
/// HiPAC: a condition is a list of queries, and is satisfied if each has a non-empty answer. This project's own
/// choices: an entry may also ask that a query has an empty answer, or name a value. The entries are taken in order, up
/// to the first that isn't satisfied or has a fault. A later one may name an earlier query's first row, and an earlier
/// value. A condition without entries is satisfied.
///
/// The look is asked about the entries' classes alone. An error means that memory ran out. The look may then allow
/// fewer worlds, and nothing else has changed.
pub fn evaluate_condition<L: Look>(
    alloc: Global,
    entries: &[Entry],
    occurrence: &Occurrence,
    time: u64,
    look: &mut L,
) -> Result<Verdict, AllocError>
    ensures goes_on { L.goes_on look.old look.new }
    ensures asks { AsksEach L.asks (flat_map entry_classes (map mapped.entry entries.now)) look.old look.new }
    ensures narrows { (world : Objects) → L.allows look.new world → L.allows look.old world }
    ensures verdict { IfOk result (λ found. (world : Objects) → ObjectsRise world → L.allows look.new world
        → mapped.verdict found ≡ model.verdict world
        (record { occurrence = Some (value.occurrence occurrence.now); rows = []; values = []; now = time })
        (map mapped.entry entries.now)) }
{
    let mut found = Findings::new(alloc);
    for entry in entries {
        let env = Env::new(Some(occurrence), &found.answers, &found.values, time);
        match entry.found(alloc, &env, look) {
            Ok(Some(finding)) => found.keep(finding)?,
            Ok(None) => return Ok(Verdict::Unsatisfied),
            Err(Halt::Cause(cause)) => return Ok(Verdict::Faulty(cause)),
            Err(Halt::Memory) => return Err(AllocError),
        }
    }
    Ok(Verdict::Satisfied(found))
}
