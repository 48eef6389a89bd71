//! Values of JSON without their places.

ghost use Rattle.std.specs.Prelude.{◌≡◌, IfOk};
ghost use Rattle.serde_json.specs.View.{view};
ghost use Rattle.hp_model.specs.NotationTree as T;
ghost use Rattle.hp_text.specs.Mapped.{node_view};
ghost use Rattle.hp_text.specs.Scripts.{script_view};

use crate::node::{Node, ScriptNode};
use serde_json::{Map, Number, Value, put};
use std::alloc::{AllocError, Global};

/// The value of a part of a script. An error says that memory ran out.
pub fn value_of(alloc: Global, node: Node) -> Result<Value, AllocError>
    ensures { IfOk result (λ v. view v ≡ T.data_of (node_view node)) }
{
    match node {
        Node::Integer(_, number) => Ok(Value::Number(Number::from(number))),
        Node::Truth(_, is_true) => Ok(Value::Bool(is_true)),
        Node::Text(_, text) => Ok(Value::String(text)),
        Node::List(_, nodes) => {
            let mut values = Vec::with_capacity(alloc, nodes.len())?;
            for node in nodes {
                values.push(value_of(alloc, node)?)?;
            }
            Ok(Value::Array(values))
        }
    }
}

/// The value of a script, as `decode` takes it. An error says that memory ran out.
pub fn script_value(alloc: Global, script: ScriptNode) -> Result<Value, AllocError>
    ensures { IfOk result (λ v. view v ≡ T.script_data (script_view script)) }
{
    let ScriptNode {
        at: _,
        version,
        depth,
        classes,
        rules,
        items,
    } = script;
    let mut members = Map::new(alloc);
    put(&mut members, alloc, "version", value_of(alloc, version)?)?;
    if let Some(depth) = depth {
        put(&mut members, alloc, "depth", value_of(alloc, depth)?)?;
    }
    put(&mut members, alloc, "classes", value_of(alloc, classes)?)?;
    put(&mut members, alloc, "rules", value_of(alloc, rules)?)?;
    put(&mut members, alloc, "items", value_of(alloc, items)?)?;
    Ok(Value::Object(members))
}
