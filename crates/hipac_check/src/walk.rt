//! From the paths of findings to the offsets of a text's values.

ghost use Rattle.std.specs.Prelude.{◌≡◌, ◌+◌, ◌<◌, ◌^◌, ◌∷◌, IfOk, map, codes};
ghost use Rattle.hp_model.specs.NotationPlaces as P;
ghost use Rattle.hp_model.specs.NotationTree as T;
ghost use Rattle.hp_model.specs.Refusals.{to_member, to_item};
ghost use Rattle.hp_rule.specs.Mapped.{unit};
ghost use Rattle.hp_rule.specs.Places.{path};
ghost use Rattle.hp_text.specs.Mapped.{node_view};
ghost use Rattle.hp_text.specs.Scripts.{script_view};
ghost use Rattle.hipac_check.specs.Spots.{has_word, is_transaction, transactions, transactions_from};
ghost use Rattle.hipac_check.specs.Spots.{unit_item, after_unit, unit_items};

use hp_notation::{member_name, step_of};
use hp_rule::{PathStep, Unit};
use hp_text::{Node, ScriptNode, item_at, member_of, offset, part_at};
use std::alloc::{AllocError, Global};

/// The offset of the part at a path.
fn offset_along(node: &Node, along: &[PathStep]) -> Option<usize>
    ensures { result ≡ P.offset_along (path along.now) (node_view node.now) }
{
    match along {
        [] => Some(offset(node)),
        [first, others @ ..] => match part_at(node, step_of(*first)) {
            Some(part) => offset_along(part, others),
            None => None,
        },
    }
}

/// The offset of the value at a path of a script.
pub(crate) fn script_offset(script: &ScriptNode, along: &[PathStep]) -> Option<usize>
    ensures { result ≡ P.script_offset (script_view script.now) (path along.now) }
{
    match along {
        [] => Some(script.at),
        [PathStep::Member(first), others @ ..] => match member_of(script, member_name(*first)) {
            Some(node) => offset_along(node, others),
            None => None,
        },
        [PathStep::Item(_), ..] => None,
    }
}

/// The offset of the value at a path of the body of an item, which is a transaction.
pub(crate) fn body_offset(script: &ScriptNode, item: usize, along: &[PathStep]) -> Option<usize>
    ensures { result ≡ P.script_offset (script_view script.now)
        (to_member (codes "items") ∷ to_item item ∷ to_item 1 ∷ path along.now) }
{
    let transaction = item_at(&script.items, item)?;
    let body = item_at(transaction, 1)?;
    offset_along(body, along)
}

/// Whether a node is this word.
fn has_word(node: &Node, word: &str) -> bool
    ensures { result ≡ has_word word.now (node_view node.now) }
{
    match node {
        Node::Text(_, text) => text.as_str() == word,
        _ => false,
    }
}

/// Whether an item is a transaction.
fn is_transaction(item: &Node) -> bool
    ensures { result ≡ is_transaction (node_view item.now) }
{
    match item_at(item, 0) {
        Some(first) => has_word(first, "tx"),
        None => false,
    }
}

/// The indexes of the items that are transactions.
fn transactions_among(alloc: Global, items: &[Node]) -> Result<Vec<usize>, AllocError>
    ensures { IfOk result (λ indexes. indexes.items
        ≡ transactions_from 0 (T.nodes (map node_view items.now))) }
{
    let mut indexes = Vec::new(alloc);
    for (i, item) in items.iter().enumerate() {
        if is_transaction(item) {
            indexes.push(i)?;
        }
    }
    Ok(indexes)
}

/// The indexes of a script's items that are transactions.
pub(crate) fn transactions(alloc: Global, items: &Node) -> Result<Vec<usize>, AllocError>
    ensures { IfOk result (λ indexes. indexes.items ≡ transactions (node_view items.now)) }
{
    match items {
        Node::List(_, nodes) => transactions_among(alloc, nodes),
        _ => Ok(Vec::new(alloc)),
    }
}

/// The index of a unit's item, where so many transactions come before it, by the indexes of all; 0 if it is a moment.
fn unit_item(of: &Unit, before: usize, indexes: &[usize]) -> usize
    ensures { result ≡ unit_item (unit of.now) before indexes.now }
{
    match of {
        Unit::Transaction { .. } => indexes.get(before).copied().unwrap_or(0),
        Unit::Moment(_) => 0,
    }
}

/// How many transactions come before the next unit.
fn after_unit(of: &Unit, before: usize) -> usize
    requires { before + 1 < 2 ^ 64 }
    ensures { result ≡ after_unit (unit of.now) before }
{
    match of {
        Unit::Transaction { .. } => before + 1,
        Unit::Moment(_) => before,
    }
}

/// For each unit the index of its item, by the indexes of the items that are transactions; 0 for a moment.
pub(crate) fn unit_items(
    alloc: Global,
    units: &[Unit],
    indexes: &[usize],
) -> Result<Vec<usize>, AllocError>
    ensures { IfOk result (λ items. items.items ≡ unit_items indexes.now 0 (map unit units.now)) }
{
    let mut items = Vec::new(alloc);
    let mut before = 0;
    for of in units {
        items.push(unit_item(of, before, indexes))?;
        before = after_unit(of, before);
    }
    Ok(items)
}
