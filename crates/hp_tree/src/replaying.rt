//! The objects that a tree leaves.

ghost use Rattle.std.specs.Prelude.{◌≡◌, IfOk, OnOk};
ghost use Rattle.hp_model.specs.Tree.{apply, replay, no_items};
ghost use Rattle.hp_tree.specs.Mapped.{before, items_in};
ghost use Rattle.hp_tree.specs.Mapped as mapped;

use crate::node::{Ending, Item, Node};
use crate::objects::Objects;
use crate::operation::Operation;
use std::alloc::AllocError;

/// The objects after the operations of the nodes that committed, together with all nodes around them.
///
/// Operations outside all nodes count as committed, so the caller leaves out an aborted top-level transaction. No value
/// is copied.
///
/// Programs read the final objects from the store, which has the same; the specification of the crates names this call.
pub fn replay(initial: Objects, tree: &[Item]) -> Result<Objects, AllocError>
    ensures { IfOk result (λ objects. objects ≡ replay (items_in tree.now) initial) }
{
    let mut objects = initial;
    replay_items(&mut objects, tree)?;
    Ok(objects)
}

/// Replays items in their order.
#[cycle(replay)]
fn replay_items(objects: &mut Objects, items: &[Item]) -> Result<(), AllocError>
    ensures { OnOk result (objects.new ≡ replay (items_in items.now) objects.old) }
{
    for item in items {
        replay_item(objects, item)?;
    }
    Ok(())
}

/// Replays one item.
#[cycle(replay)]
fn replay_item(objects: &mut Objects, item: &Item) -> Result<(), AllocError>
    ensures { OnOk result (objects.new ≡ replay (before item.now no_items) objects.old) }
{
    match item {
        Item::Operation(operation) => apply(objects, operation)?,
        Item::Emit(_) => {}
        Item::Node(node) => {
            if let Ending::Committed = &node.end {
                replay_items(objects, &node.items)?;
            }
        }
    }
    Ok(())
}

/// Applies an operation to the objects. An operation on a rule changes none.
fn apply(objects: &mut Objects, operation: &Operation) -> Result<(), AllocError>
    ensures { OnOk result (objects.new ≡ apply (mapped.operation operation.now) objects.old) }
{
    match operation {
        Operation::Create { class, key, new } => objects.insert(*class, *key, new.clone()?)?,
        Operation::Update { class, key, new } => objects.insert(*class, *key, new.clone()?)?,
        Operation::Delete { class, key } => objects.remove(*class, *key),
        Operation::OnRule { .. } => {}
    }
    Ok(())
}
