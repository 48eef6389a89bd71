//! The places of refused values.

ghost use Rattle.std.specs.Prelude.{◌≡◌, Ok, IfOk, map, option_map};
ghost use Rattle.hp_model.specs.NotationPlaces.{read_text, read_text_line};
ghost use Rattle.hp_model.specs.NotationTree as T;
ghost use Rattle.hp_model.specs.TextScripts.{refusal_place, script_place, line_place};
ghost use Rattle.hp_rule.specs.Places.{member as member_view, path_step, path as path_view};
ghost use Rattle.hp_script.specs.Mapped.{refusal as refusal_view};
ghost use Rattle.hp_text.specs.Places.{place_view};
ghost use Rattle.hp_text.specs.Steps.{step_view};
ghost use Rattle.hp_notation.specs.Mapped.{path_in};

use hp_script::{Member, PathStep, Refusal};
use hp_text::{
    Place, ReadError, Step, node_place, offset, place_at, read_line, read_text, value_place,
};
use std::alloc::{AllocError, Global};

/// The path in a refusal, if it has one.
fn path_in(refusal: &Refusal) -> Option<&[PathStep]>
    ensures { option_map (λ p. path_view p.now) result ≡ path_in (refusal_view refusal.entry.now) }
{
    match refusal {
        Refusal::S2(path) => Some(path.as_slice()),
        Refusal::S3(path) => Some(path.as_slice()),
        Refusal::S4(path) => Some(path.as_slice()),
        Refusal::S1 | Refusal::S5(_) | Refusal::S6 => None,
    }
}

/// The name of a member of a script.
pub fn member_name(member: Member) -> &'static str
    ensures { result.now ≡ member_view member }
{
    match member {
        Member::Version => "version",
        Member::Depth => "depth",
        Member::Classes => "classes",
        Member::Rules => "rules",
        Member::Items => "items",
    }
}

/// A step of a path, as a step into a text's values.
pub fn step_of(step: PathStep) -> Step<'static>
    ensures { step_view result ≡ path_step step }
{
    match step {
        PathStep::Member(member) => Step::Member(member_name(member)),
        PathStep::Item(index) => Step::Item(index),
    }
}

/// The steps of a path.
fn steps_of(alloc: Global, path: &[PathStep]) -> Result<Vec<Step<'static>>, AllocError>
    ensures { IfOk result (λ steps. map step_view steps.items ≡ path_view path.now) }
{
    let mut steps = Vec::with_capacity(alloc, path.len())?;
    for step in path {
        steps.push(step_of(*step))?;
    }
    Ok(steps)
}

/// The place of a value of a script: the text is read again.
///
/// An error means that memory ran out.
#[tactic(auto, using(crate::proofs::Placed::script_found, crate::proofs::Placed::script_lost))]
fn place_in_script(alloc: Global, text: &[u8], path: &[PathStep]) -> Result<Place, AllocError>
    ensures { IfOk result (λ place. (s : T.Script) → read_text text.now ≡ Ok s →
        place_view place ≡ script_place text.now s (path_view path.now)) }
{
    let script = match read_text(alloc, text) {
        Ok(script) => script,
        // The text was read before, so it has no fault.
        Err(ReadError::Fault(place)) => return Ok(place),
        Err(ReadError::Memory) => return Err(AllocError),
    };
    let steps = steps_of(alloc, path)?;
    match value_place(text, &script, steps.as_slice()) {
        Some(place) => Ok(place),
        None => Ok(place_at(text, script.at)),
    }
}

/// The place of a value of a line, in the same way.
#[tactic(auto, using(crate::proofs::Placed::line_found, crate::proofs::Placed::line_lost))]
fn place_in_line(alloc: Global, text: &[u8], path: &[PathStep]) -> Result<Place, AllocError>
    ensures { IfOk result (λ place. (n : T.Node) → read_text_line text.now ≡ Ok n →
        place_view place ≡ line_place text.now n (path_view path.now)) }
{
    let node = match read_line(alloc, text) {
        Ok(node) => node,
        // The text was read before, so it has no fault.
        Err(ReadError::Fault(place)) => return Ok(place),
        Err(ReadError::Memory) => return Err(AllocError),
    };
    let steps = steps_of(alloc, path)?;
    match node_place(text, &node, steps.as_slice()) {
        Some(place) => Ok(place),
        None => Ok(place_at(text, offset(&node))),
    }
}

/// The place of what a refusal names in a script's text, if it names any.
///
/// An error means that memory ran out.
#[tactic(auto, using(crate::proofs::Placed::refusal_place_in))]
pub(crate) fn script_refusal_place(
    alloc: Global,
    text: &[u8],
    refusal: &Refusal,
) -> Result<Option<Place>, AllocError>
    ensures { IfOk result (λ place. (s : T.Script) → read_text text.now ≡ Ok s →
        option_map place_view place ≡ refusal_place (script_place text.now s) (refusal_view refusal.now)) }
{
    match path_in(refusal) {
        Some(path) => Ok(Some(place_in_script(alloc, text, path)?)),
        None => Ok(None),
    }
}

/// The place of what a refusal names in a line's text, if it names any.
///
/// An error means that memory ran out.
#[tactic(auto, using(crate::proofs::Placed::refusal_place_in))]
pub(crate) fn line_refusal_place(
    alloc: Global,
    text: &[u8],
    refusal: &Refusal,
) -> Result<Option<Place>, AllocError>
    ensures { IfOk result (λ place. (n : T.Node) → read_text_line text.now ≡ Ok n →
        option_map place_view place ≡ refusal_place (line_place text.now n) (refusal_view refusal.now)) }
{
    match path_in(refusal) {
        Some(path) => Ok(Some(place_in_line(alloc, text, path)?)),
        None => Ok(None),
    }
}
