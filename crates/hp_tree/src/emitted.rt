//! The values emitted in a tree.

ghost use Rattle.std.specs.Prelude.{◌≡◌, ◌++◌, IfOk, OnOk};
ghost use Rattle.hp_model.specs.Tree.{emits, no_items};
ghost use Rattle.hp_tree.specs.Mapped.{before, items_in, values_behind};

use crate::node::{Ending, Item};
use hp_value::Value;
use std::alloc::{AllocError, Global};

/// The emitted values of the nodes that committed, together with all nodes around them, in tree order.
///
/// Values outside all nodes count as committed, so the caller leaves out an aborted top-level transaction.
pub fn emits<'a>(alloc: Global, tree: &'a [Item]) -> Result<Vec<&'a Value>, AllocError>
    ensures { IfOk result (λ vs. values_behind vs.items ≡ emits (items_in tree.now)) }
{
    let mut values = Vec::new(alloc);
    add_emits(tree, &mut values)?;
    Ok(values)
}

/// Adds the values that items emitted.
#[cycle(emits)]
fn add_emits<'a>(items: &'a [Item], values: &mut Vec<&'a Value>) -> Result<(), AllocError>
    ensures { OnOk result (
        values_behind values.new.items ≡ values_behind values.old.items ++ emits (items_in items.now)) }
{
    for item in items {
        add_emit(item, values)?;
    }
    Ok(())
}

/// Adds the values that one item emitted.
#[cycle(emits)]
fn add_emit<'a>(item: &'a Item, values: &mut Vec<&'a Value>) -> Result<(), AllocError>
    ensures { OnOk result (
        values_behind values.new.items ≡ values_behind values.old.items ++ emits (before item.now no_items)) }
{
    match item {
        Item::Operation(_) => {}
        Item::Emit(value) => values.push(value)?,
        Item::Node(node) => {
            if let Ending::Committed = &node.end {
                add_emits(&node.items, values)?;
            }
        }
    }
    Ok(())
}
