//! Sets of rules: for each rule of a library whether it is in the set.

ghost use Rattle.std.specs.Prelude.{◌≡◌, Bool, true, slice_set, map, option_map, length, IfOk};
ghost use Rattle.std.specs.Global.{Vec};
ghost use Rattle.hp_rule.specs.Libraries as libraries;
ghost use Rattle.hp_analysis.specs.Sets.{marked, outside_from, is_within};
ghost use Rattle.hp_analysis.specs.Reached.{has, united_from, leading_out, closure};

use hp_rule::Library;
use hp_value::RuleNo;
use std::alloc::{AllocError, Global};

/// The set of all rules of the library, or of none.
pub(crate) fn filled(
    alloc: Global,
    library: &Library,
    member: bool,
) -> Result<Vec<bool>, AllocError>
    ensures { IfOk result (λ set. set.items ≡ map (λ r. member) (libraries.library library.now).rules) }
{
    let mut set = Vec::new(alloc);
    for _ in library.rules() {
        set.push(member)?;
    }
    Ok(set)
}

/// Adds a rule.
pub(crate) fn mark(set: &mut Vec<bool>, number: usize)
    ensures { set.new.items ≡ slice_set set.old.items number true }
{
    if let Some(place) = set.get_mut(number) {
        *place = true;
    }
}

/// Adds rules.
pub(crate) fn mark_all(set: &mut Vec<bool>, numbers: &[RuleNo])
    ensures { set.new.items ≡ marked numbers.now set.old.items }
{
    for number in numbers {
        mark(set, *number as usize);
    }
}

/// Adds the rules of another set.
pub(crate) fn unite(set: &mut Vec<bool>, other: &[bool])
    ensures { set.new.items ≡ united_from 0 other.now set.old.items }
{
    for (n, member) in other.iter().enumerate() {
        if *member {
            mark(set, n);
        }
    }
}

/// Whether a rule is in a set of rules; one that the set has no place for counts as in it.
pub fn has(set: &[bool], number: usize) -> bool
    ensures { result ≡ has set.now number }
{
    match set.get(number) {
        Some(member) => *member,
        None => true,
    }
}

/// The first rule of the set that isn't in the other one.
pub(crate) fn first_outside(other: &[bool], set: &[bool]) -> Option<usize>
    ensures { result ≡ outside_from other.now 0 set.now }
{
    for (n, member) in set.iter().enumerate() {
        if *member && !has(other, n) {
            return Some(n);
        }
    }
    None
}

/// Whether each rule of the set is in the other one.
pub(crate) fn is_within(other: &[bool], set: &[bool]) -> bool
    ensures { result ≡ is_within other.now set.now }
{
    first_outside(other, set).is_none()
}

/// For each of the sets whether each of its rules is in the other one.
pub(crate) fn within_each(
    alloc: Global,
    other: &[bool],
    sets: &[Vec<bool>],
) -> Result<Vec<bool>, AllocError>
    ensures { IfOk result (λ table. table.items ≡ map (λ (set : Vec Bool). is_within other.now set.items) sets.now) }
{
    let mut table = Vec::new(alloc);
    for set in sets {
        table.push(is_within(other, set))?;
    }
    Ok(table)
}

/// What the first rule of the set triggers that may trigger a rule outside the set; `after` has what each rule may
/// trigger.
pub(crate) fn leading_out<'a>(set: &[bool], after: &'a [Vec<bool>]) -> Option<&'a [bool]>
    ensures { option_map (λ triggered. triggered.now) result
        ≡ leading_out set.now 0 (map (λ (triggered : Vec Bool). triggered.items) after.entry.now) }
{
    for (n, triggered) in after.iter().enumerate() {
        if has(set, n) && !is_within(set, triggered) {
            return Some(triggered.as_slice());
        }
    }
    None
}

/// Adds what the rules of the set lead to, what these lead to, and so on; `after` has what each rule leads to.
pub(crate) fn spread(set: &mut Vec<bool>, after: &[Vec<bool>])
    ensures { set.new.items ≡ closure (length set.old.items)
        (map (λ (triggered : Vec Bool). triggered.items) after.now) set.old.items }
{
    while let Some(triggered) = leading_out(set, after) {
        unite(set, triggered);
    }
}
