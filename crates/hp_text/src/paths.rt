//! The places of a script's values.

ghost use Rattle.std.specs.Prelude.{◌≡◌, map, option_map, slice_get};
ghost use Rattle.hp_model.specs.NotationPlaces as P;
ghost use Rattle.hp_model.specs.Refusals.{to_item};
ghost use Rattle.hp_text.specs.Mapped.{node_view};
ghost use Rattle.hp_text.specs.Places.{place_view};
ghost use Rattle.hp_text.specs.Scripts.{script_view};
ghost use Rattle.hp_text.specs.Steps.{step_view};

use crate::node::{Node, ScriptNode, offset};
use crate::place::{Place, place_at};

/// A step into a value of JSON.
#[derive(Clone, Copy, Debug)]
pub enum Step<'a> {
    /// To a member of a script, by its name.
    Member(&'a str),
    /// To an item of a list, by its index from 0.
    Item(usize),
}

/// The node of this index.
fn node_at(nodes: &[Node], index: usize) -> Option<&Node>
    ensures { option_map (λ n. node_view n.now) result ≡ slice_get (map node_view nodes.entry.now) index }
{
    nodes.get(index)
}

/// The item of a list, by its index from 0. There is none where the node is no list, or a shorter one.
pub fn item_at(node: &Node, index: usize) -> Option<&Node>
    ensures { option_map (λ n. node_view n.now) result ≡ P.part_at (to_item index) (node_view node.entry.now) }
{
    match node {
        Node::List(_, nodes) => node_at(nodes, index),
        _ => None,
    }
}

/// The part to which a step leads, if there is one.
pub fn part_at<'a>(node: &'a Node, step: Step<'_>) -> Option<&'a Node>
    ensures { option_map (λ n. node_view n.now) result ≡ P.part_at (step_view step.entry) (node_view node.entry.now) }
{
    match step {
        Step::Item(index) => item_at(node, index),
        Step::Member(_) => None,
    }
}

/// The offset of the part to which some steps lead.
fn offset_along(node: &Node, steps: &[Step<'_>]) -> Option<usize>
    ensures { result ≡ P.offset_along (map step_view steps.now) (node_view node.now) }
{
    match steps {
        [] => Some(offset(node)),
        [first, others @ ..] => match part_at(node, *first) {
            Some(part) => offset_along(part, others),
            None => None,
        },
    }
}

/// The member of a script that has this name, if there is one.
pub fn member_of<'a>(script: &'a ScriptNode, name: &str) -> Option<&'a Node>
    ensures { option_map (λ n. node_view n.now) result ≡ P.member_of (script_view script.entry.now) name.now }
{
    match name {
        "version" => Some(&script.version),
        "classes" => Some(&script.classes),
        "rules" => Some(&script.rules),
        "items" => Some(&script.items),
        "depth" => script.depth.as_ref(),
        _ => None,
    }
}

/// The offset of the value to which some steps lead from a script.
fn script_offset(script: &ScriptNode, steps: &[Step<'_>]) -> Option<usize>
    ensures { result ≡ P.script_offset (script_view script.now) (map step_view steps.now) }
{
    match steps {
        [] => Some(script.at),
        [Step::Member(name), others @ ..] => match member_of(script, name) {
            Some(node) => offset_along(node, others),
            None => None,
        },
        [Step::Item(_), ..] => None,
    }
}

/// The place of the value to which some steps lead from a script, as from `read_text` of the same text. There is none
/// where the steps lead to no value.
pub fn value_place(text: &[u8], script: &ScriptNode, steps: &[Step<'_>]) -> Option<Place>
    ensures { option_map place_view result ≡ P.place_at text.now (script_view script.now) (map step_view steps.now) }
{
    match script_offset(script, steps) {
        Some(offset) => Some(place_at(text, offset)),
        None => None,
    }
}

/// The place of the value to which some steps lead from a line, as from `read_line` of the same text. There is none
/// where the steps lead to no value.
pub fn node_place(text: &[u8], node: &Node, steps: &[Step<'_>]) -> Option<Place>
    ensures { option_map place_view result
        ≡ option_map (P.place_of text.now) (P.offset_along (map step_view steps.now) (node_view node.now)) }
{
    match offset_along(node, steps) {
        Some(offset) => Some(place_at(text, offset)),
        None => None,
    }
}
