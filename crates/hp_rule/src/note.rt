//! The lists of rule numbers in an index.

ghost use Rattle.std.specs.Prelude.{◌≡◌, ℕ, List, ◌==◌, ◌<◌, ◌^◌, OnOk, IfOk, Ok, bytes_eq};
ghost use Rattle.hp_rule.specs.Noted.{of_class, of_name, noted, noted_if};

use hp_value::{ClassNo, RuleNo};
use std::alloc::{AllocError, Global};
use std::collections::BTreeMap;

/// The rules listed for a class.
pub(crate) fn of_class(map: &BTreeMap<ClassNo, Vec<RuleNo>>, class: ClassNo) -> &[RuleNo]
    ensures { result.now ≡ of_class map.now class }
{
    match map.get(&class) {
        Some(numbers) => numbers,
        None => &[],
    }
}

/// The rules listed for a signal's name.
pub(crate) fn of_name<'a>(map: &'a BTreeMap<String, Vec<RuleNo>>, name: &str) -> &'a [RuleNo]
    ensures { result.now ≡ of_name map.entry.now name.now }
{
    match map.get(name) {
        Some(numbers) => numbers,
        None => &[],
    }
}

/// Appends a rule's number to a list, unless it is already the last one.
pub(crate) fn note(numbers: &mut Vec<RuleNo>, number: RuleNo) -> Result<(), AllocError>
    ensures { OnOk result (numbers.new.items ≡ noted number numbers.old.items) }
{
    match numbers.last() {
        Some(last) if *last == number => {}
        _ => numbers.push(number)?,
    }
    Ok(())
}

/// Adds a rule's number to the list of a class.
pub(crate) fn note_class(
    alloc: Global,
    map: &mut BTreeMap<ClassNo, Vec<RuleNo>>,
    class: ClassNo,
    number: RuleNo,
) -> Result<(), AllocError>
    ensures { OnOk result ((c : ℕ) → of_class map.new c ≡ noted_if (class == c) number (of_class map.old c)) }
{
    let mut numbers = map.remove(&class).unwrap_or(Vec::new(alloc));
    note(&mut numbers, number)?;
    map.insert(class, numbers)?;
    Ok(())
}

/// Adds a rule's number to the list of a signal's name.
pub(crate) fn note_name(
    alloc: Global,
    map: &mut BTreeMap<String, Vec<RuleNo>>,
    name: &str,
    number: RuleNo,
) -> Result<(), AllocError>
    ensures { OnOk result ((x : List ℕ) →
        of_name map.new x ≡ noted_if (bytes_eq name.now x) number (of_name map.old x)) }
{
    let mut numbers = map.remove(name).unwrap_or(Vec::new(alloc));
    note(&mut numbers, number)?;
    map.insert(String::from_str(alloc, name)?, numbers)?;
    Ok(())
}

/// The number of the rule at an index. It allocates nothing.
///
/// An error means that there is no such rule number: the index is 2^32 or more.
pub fn rule_number(place: usize) -> Result<RuleNo, AllocError>
    ensures number { IfOk result (λ n. n ≡ place) }
    ensures fits { place < 2 ^ 32 → result ≡ Ok place }
{
    RuleNo::try_from(place).map_err(|_| AllocError)
}
