//! A script's JSON.

ghost use Rattle.std.specs.Prelude.{◌≡◌, option_map, string_bytes, IfOk, OnOk};
ghost use Rattle.serde_json.specs.Written.{compact_text};
ghost use Rattle.hp_model.specs.NotationTree.{data_of};
ghost use Rattle.hp_report.specs.Text.{Gains};
ghost use Rattle.hp_text.specs.Mapped.{node_view};
ghost use Rattle.hp_text.specs.Scripts.{script_view};
ghost use Rattle.hipac_text.specs.Outputs.{member_text, depth_text, json_text};

use hp_text::{Node, ScriptNode, value_of};
use std::alloc::{AllocError, Global};

/// The JSON of a value, without spaces.
fn value_text(alloc: Global, node: Node) -> Result<String, AllocError>
    ensures { IfOk result (λ text. string_bytes text ≡ compact_text (data_of (node_view node))) }
{
    let value = value_of(alloc, node)?;
    value.to_string(alloc)
}

/// Writes a value, with what stands before it.
fn put_member(alloc: Global, text: &mut String, before: &str, node: Node) -> Result<(), AllocError>
    ensures { OnOk result (Gains text.old text.new (member_text before.now (node_view node))) }
{
    let value = value_text(alloc, node)?;
    text.push_str(before)?;
    text.push_str(value.as_str())
}

/// Writes the member `depth`, if it is there.
fn put_depth(alloc: Global, text: &mut String, depth: Option<Node>) -> Result<(), AllocError>
    ensures { OnOk result (Gains text.old text.new (depth_text (option_map node_view depth))) }
{
    match depth {
        Some(node) => put_member(alloc, text, ",\"depth\":", node),
        None => Ok(()),
    }
}

/// The JSON of a script, with its members in order, on one line. A line feed ends it.
///
/// An error means that memory ran out.
pub fn json_text(alloc: Global, script: ScriptNode) -> Result<String, AllocError>
    ensures { IfOk result (λ text. string_bytes text ≡ json_text (script_view script)) }
{
    let ScriptNode {
        at: _,
        version,
        depth,
        classes,
        rules,
        items,
    } = script;
    let mut text = String::new(alloc);
    put_member(alloc, &mut text, "{\"version\":", version)?;
    put_depth(alloc, &mut text, depth)?;
    put_member(alloc, &mut text, ",\"classes\":", classes)?;
    put_member(alloc, &mut text, ",\"rules\":", rules)?;
    put_member(alloc, &mut text, ",\"items\":", items)?;
    text.push_str("}\n")?;
    Ok(text)
}
