//! Occurrences made from others.

ghost use Rattle.std.specs.Prelude.{◌≡◌, ◌++◌, map, option_map, IfOk, Some};
ghost use Rattle.hp_model.specs.Events as model;
ghost use Rattle.hp_model.specs.Occurrences.{primitive_occurrence};
ghost use Rattle.hp_value.specs.Mapped.{primitive, occurrence};
ghost use Rattle.hp_detect.specs.Stepped.{gathered_after};

use hp_value::{Occurrence, OccurrenceParts, Prim};
use smallvec::SmallVec;
use std::alloc::{AllocError, Global};
use std::sync::Arc;

/// A primitive occurrence as an occurrence: it is the only part, and the count is 1 (this project's own choice).
pub fn single(alloc: Global, prim: &Prim) -> Result<Occurrence, AllocError>
    ensures { IfOk result (λ o. occurrence o ≡ primitive_occurrence (primitive prim.now)) }
{
    let mut parts = SmallVec::new(alloc);
    parts.push(prim.clone()?)?;
    Ok(Occurrence { parts, count: 1 })
}

/// An occurrence of a sequence: the parts of both arms, and the sum of their counts.
pub fn joined(
    alloc: Global,
    first: Option<&Occurrence>,
    second: Option<Occurrence>,
) -> Result<Option<Occurrence>, AllocError>
    ensures { IfOk result (λ o.
        option_map occurrence o
        ≡ model.joined (option_map (λ f. occurrence f.now) first.entry) (option_map occurrence second)) }
{
    match (first, second) {
        (Some(first), Some(second)) => {
            let count = first.count.saturating_add(second.count);
            ended(alloc, first, second, count)
        }
        _ => Ok(None),
    }
}

/// An occurrence of a closure: the gathered parts followed by the end's, with the gathered count.
pub fn closed(
    alloc: Global,
    gathered: Option<&Occurrence>,
    end: Option<Occurrence>,
) -> Result<Option<Occurrence>, AllocError>
    ensures { IfOk result (λ o.
        option_map occurrence o
        ≡ model.closed (option_map (λ g. occurrence g.now) gathered.entry) (option_map occurrence end)) }
{
    match (gathered, end) {
        (Some(gathered), Some(end)) => ended(alloc, gathered, end, gathered.count),
        _ => Ok(None),
    }
}

/// The parts of an occurrence followed by those of another, with this count.
fn ended(
    alloc: Global,
    first: &Occurrence,
    last: Occurrence,
    count: u64,
) -> Result<Option<Occurrence>, AllocError>
    ensures { IfOk result (λ o.
        option_map occurrence o
        ≡ Some (record { parts = (occurrence first.now).parts ++ (occurrence last).parts; count = count })) }
{
    let parts = followed(alloc, first.parts.as_slice(), last.parts)?;
    Ok(Some(Occurrence { parts, count }))
}

/// What a closure has gathered after a step at which its end and its body may have occurred: the parts of the body's
/// last occurrence since the last end, with the sum of the counts since then.
pub fn gathered(
    alloc: Global,
    ended: bool,
    body: Option<Occurrence>,
    before: &Option<Arc<Occurrence>>,
) -> Result<Option<Arc<Occurrence>>, AllocError>
    ensures { IfOk result (λ g.
        option_map (λ o. occurrence o.value) g
        ≡ gathered_after ended (option_map occurrence body) (option_map (λ o. occurrence o.value) before.now)) }
{
    if ended {
        return Ok(None);
    }
    match (body, before) {
        (None, None) => Ok(None),
        (None, Some(before)) => Ok(Some(Arc::try_clone(before)?)),
        (Some(last), None) => Ok(Some(Arc::new(alloc, last)?)),
        (Some(last), Some(before)) => {
            let count = before.count.saturating_add(last.count);
            let parts = last.parts;
            Ok(Some(Arc::new(alloc, Occurrence { parts, count })?))
        }
    }
}

/// The parts of one occurrence followed by those of another.
fn followed(
    alloc: Global,
    first: &[Prim],
    mut last: OccurrenceParts,
) -> Result<OccurrenceParts, AllocError>
    ensures { IfOk result (λ v. map primitive v.items ≡ map primitive first.now ++ map primitive last.items) }
{
    let mut parts = SmallVec::with_capacity(alloc, first.len().saturating_add(last.len()))?;
    for part in first {
        parts.push(part.clone()?)?;
    }
    parts.append(&mut last)?;
    Ok(parts)
}
